//! A handle of a file in memory.
ghost use Rattle.std.specs.Prelude.{◌≡◌, ◌<◌, ◌≤◌, Some};
ghost use Rattle.std.proofs.Props.{props};
ghost use Rattle.tex_world.specs.World.{last_generation};
ghost use Rattle.tex_world.specs.TableLaws.{handle_is_honest};

use crate::table::{FileTable, TableWorld};
use crate::tap::TapHandle;
use std::marker::PhantomData;

/// A file of a table, open at a generation that the table has.
#[derive(Drop)]
pub struct MemHandle<T: FileTable> {
    file: u32,
    generation: u32,
    len: u64,
    table: PhantomData<T>,
    ghost of_table: { file < T.count_of },
    ghost low: { 1 ≤ generation },
    ghost high: { generation ≤ last_generation },
    ghost there: { T.len_of file generation ≡ Some len } by { Prim.hlevel props },
}

impl<T: FileTable> MemHandle<T> {
    /// A handle of a generation that the table has, with its length.
    pub fn new(file: u32, generation: u32, len: u64) -> Self
        requires of_table { file < T.count_of }
        requires low { 1 ≤ generation }
        requires high { generation ≤ last_generation }
        requires there { T.len_of file generation ≡ Some len }
        ensures file { result.file ≡ file }
        ensures generation { result.generation ≡ generation }
        ensures len { result.len ≡ len }
    {
        MemHandle {
            file,
            generation,
            len,
            table: PhantomData,
        }
    }
}

impl<T: FileTable> TapHandle for MemHandle<T> {
    type W = TableWorld<T>;

    ghost use Rattle.tex_world.specs.MemHandle.{handle_named};

    ghost named = { handle_named };

    fn file(&self) -> u32 {
        self.file
    }

    fn generation(&self) -> u32 {
        self.generation
    }

    fn len(&self) -> u64 {
        self.len
    }

    ghost honest = { λ h.
        handle_is_honest T.count_of T.name_of T.len_of T.byte_of
        h.file h.generation h.len h.of_table h.low h.high h.there };
}
