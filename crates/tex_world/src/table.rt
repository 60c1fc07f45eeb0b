//! A world whose files are given by functions, as tests and samples define them.
ghost use Rattle.std.specs.Prelude.{◌≡◌, ℕ, ◌<◌, ◌≤◌, List, Option, IsSome, IsSomeAnd};
ghost use Rattle.tex_world.specs.World.{max_files, is_held};
ghost use Rattle.tex_world.specs.Number.{number_in};
ghost use Rattle.tex_world.specs.Table.{table_names, table_files};
ghost use Rattle.tex_world.specs.TableLaws.{table_is_world};

use crate::world::World;
use std::marker::PhantomData;

/// The first generation of every file.
pub const FIRST_GENERATION: u32 = 1;

/// The greatest generation that a file can have.
pub const LAST_GENERATION: u32 = 1048575;

/// The files of a modelled world, in all their generations. It is a type without data. Generations
/// outside 1 to 1048575 do not exist, whatever it gives for them.
pub trait FileTable: Drop {
    /// The number of files.
    ghost count_of: { ℕ };

    /// The bytes of a file's name.
    ghost name_of: { ℕ → List ℕ };

    /// The number of bytes of a file's generation, if it exists.
    ghost len_of: { ℕ → ℕ → Option ℕ };

    /// The byte at a place of a file's generation.
    ghost byte_of: { ℕ → ℕ → ℕ → ℕ };

    /// There are not too many files.
    ghost few: { count_of ≤ max_files };

    /// No two files have the same name. For a list of names, `distinct_names` in `specs/Names.antt`
    /// proves this.
    ghost distinct: { (m n : ℕ) → m < count_of → n < count_of →
        name_of m ≡ name_of n → m ≡ n };

    /// The number of files, which are numbered from 0.
    fn count() -> u32
        ensures { result ≡ count_of };

    /// The name of a file.
    fn name(n: u32) -> &'static str
        requires { n < count_of }
        ensures { result.now ≡ name_of n };

    /// The number of bytes of a file's generation, if it exists.
    fn len(n: u32, g: u32) -> Option<u64>
        requires { n < count_of }
        ensures { result ≡ len_of n g };

    /// The byte at a place of a file's generation, below its length.
    fn byte(n: u32, g: u32, at: u64) -> u8
        requires file { n < count_of }
        requires place { IsSomeAnd (len_of n g) (λ len. at < len) }
        ensures { result ≡ byte_of n g at };

    /// Each file has generation 1.
    ghost first: { (n : ℕ) → n < count_of → IsSome (len_of n 1) };
}

/// The world of a table. It is modelled.
#[derive(Drop)]
pub struct TableWorld<T: FileTable> {
    table: PhantomData<T>,
}

/// Whether the table has a generation of a file.
pub(crate) fn is_held<T: FileTable>(file: u32, generation: u32) -> bool
    ensures { result
        ≡ is_held (table_files T.count_of T.name_of T.len_of T.byte_of) file generation }
{
    file < T::count()
        && FIRST_GENERATION <= generation
        && generation <= LAST_GENERATION
        && T::len(file, generation).is_some()
}

/// The number of the file with this name.
pub fn number_of<T: FileTable>(name: &str) -> Option<u32>
    ensures { result ≡ number_in (table_names T.count_of T.name_of) name.now }
{
    for n in 0..T::count() {
        if T::name(n) == name {
            return Some(n);
        }
    }
    None
}

impl<T: FileTable> World for TableWorld<T> {
    ghost files = { table_files T.count_of T.name_of T.len_of T.byte_of };

    ghost lawful = { table_is_world T.count_of T.name_of T.len_of T.byte_of T.few T.distinct };
}
