//! Which generations a tap sees, by its share of a plan.
ghost use Rattle.std.specs.Prelude.{◌≡◌, ◌+◌, ◌≤◌, ◌<◌, ◌++◌, length, vec_capacity, not, IsTrue};
ghost use Rattle.std.specs.List.{filter, fold};
ghost use Rattle.tex_world.specs.World.{is_held};
ghost use Rattle.tex_world.specs.Table.{table_files};
ghost use Rattle.tex_world.specs.TapPlan.{newest_at_first, after_rise, is_rising};
ghost use Rattle.tex_world.specs.TapPlan.{is_failing_byte, met};

use crate::fault::ReadError;
use crate::plan::{FailByte, Newest, Rise};
use crate::reading::ReadRequest;
use crate::table::{FIRST_GENERATION, FileTable, is_held};

/// The generation of the first entry that names the file and an existing generation; otherwise
/// generation 1.
pub fn newest_at_first<T: FileTable>(entries: &[Newest], file: u32) -> u32
    requires { file < T.count_of }
    ensures value { result
        ≡ newest_at_first (table_files T.count_of T.name_of T.len_of T.byte_of) entries.now file }
    ensures held { IsTrue
        (is_held (table_files T.count_of T.name_of T.len_of T.byte_of) file result) }
{
    for e in entries {
        if e.file == file && is_held::<T>(file, e.generation) {
            return e.generation;
        }
    }
    FIRST_GENERATION
}

/// The generation of a file after these newer ones have appeared.
pub fn highest<T: FileTable>(risen: &[Rise], file: u32, first: u32) -> u32
    requires { IsTrue (is_held (table_files T.count_of T.name_of T.len_of T.byte_of) file first) }
    ensures value { result
        ≡ fold (after_rise (table_files T.count_of T.name_of T.len_of T.byte_of) file) first
        risen.now }
    ensures held { IsTrue
        (is_held (table_files T.count_of T.name_of T.len_of T.byte_of) file result) }
{
    let mut newest = first;
    for e in risen {
        if e.file == file && is_held::<T>(file, e.to) {
            newest = newest.max(e.to);
        }
    }
    newest
}

/// Whether this newer generation appears at a read.
pub fn is_rising<T: FileTable>(read: ReadRequest, e: &Rise) -> bool
    ensures { result
        ≡ is_rising (table_files T.count_of T.name_of T.len_of T.byte_of) read e.now }
{
    is_held::<T>(e.file, e.to) && read.generation < e.to && read.covers(e.file, e.at)
}

/// Adds the generations that appear at a read to those that have appeared.
pub fn add_rising<T: FileTable>(risen: &mut Vec<Rise>, rises: &[Rise], read: ReadRequest)
    requires { length rises.now + length risen.old.items ≤ vec_capacity risen.old }
    ensures value { risen.new.items ≡ risen.old.items ++
        filter (is_rising (table_files T.count_of T.name_of T.len_of T.byte_of) read) rises.now }
    ensures capacity { vec_capacity risen.new ≡ vec_capacity risen.old }
{
    for e in rises {
        if is_rising::<T>(read, e) {
            risen.push_reserved(*e);
        }
    }
}

/// Removes the entries whose generation appears at a read.
pub fn drop_rising<T: FileTable>(rises: &mut Vec<Rise>, read: ReadRequest)
    ensures { rises.new.items ≡ filter (λ e. not
        (is_rising (table_files T.count_of T.name_of T.len_of T.byte_of) read e)) rises.old.items }
{
    rises.retain(|e| !is_rising::<T>(read, e));
}

/// Removes the bytes at which a read fails.
pub fn drop_failing(bytes: &mut Vec<FailByte>, read: ReadRequest)
    ensures { bytes.new.items ≡ filter (λ e. not (is_failing_byte read e)) bytes.old.items }
{
    bytes.retain(|e| !read.covers(e.file, e.at));
}

/// The answer to a read at which these generations appear.
pub fn met(rises: &[Rise]) -> Result<(), ReadError>
    ensures { result ≡ met rises.now }
{
    match rises {
        [] => Ok(()),
        [e] => Err(ReadError::Gone(e.to)),
        _ => Err(ReadError::Failed),
    }
}
