//! The part of a plan that concerns one tap.
ghost use Rattle.std.specs.Prelude.{◌≡◌, ◌+◌, ◌≤◌, ◌++◌, ◌<◌, length, vec_capacity, IsTrue};

use crate::fault::ReadError;
use crate::plan::{FailByte, FailCall, Newest, Rise};
use crate::reading::ReadRequest;
use crate::rises::{add_rising, drop_failing, drop_rising, highest, met, newest_at_first};
use crate::table::FileTable;

/// The entries of a plan for one tap that are not yet used up, and the newer generations that have
/// appeared.
#[derive(Drop)]
pub struct Share {
    pub fail_calls: Vec<FailCall>,
    pub fail_bytes: Vec<FailByte>,
    pub newest: Vec<Newest>,
    pub rises: Vec<Rise>,
    pub risen: Vec<Rise>,
    ghost room: { length rises.items + length risen.items ≤ vec_capacity risen },
}

impl Share {
    ghost use Rattle.std.specs.List.{list_any};
    ghost use Rattle.tex_world.specs.World.{is_held};
    ghost use Rattle.tex_world.specs.Table.{table_files};
    ghost use Rattle.tex_world.specs.TapPlan.{is_failing_call, is_failing_byte, after_read};
    ghost use Rattle.tex_world.specs.TapPlan.{planned_read, newest_of};
    ghost use Rattle.tex_world.specs.Share.{share_plan};

    /// Whether the call after `calls` calls fails.
    pub fn fails_after(&self, calls: u64) -> bool
        ensures { result ≡ is_failing_call (share_plan self.now) (calls + 1) }
    {
        self.fail_calls
            .iter()
            .any(|e| e.call > calls && e.call - calls == 1)
    }

    // Whether an entry says that the read fails at a byte.
    fn fails_at(&self, read: ReadRequest) -> bool
        ensures { result ≡ list_any (is_failing_byte read) self.now.fail_bytes.items }
    {
        self.fail_bytes.iter().any(|e| read.covers(e.file, e.at))
    }

    /// The newest generation of a file that the tap sees.
    pub fn newest_of<T: FileTable>(&self, file: u32) -> u32
        requires { file < T.count_of }
        ensures value { result
            ≡ newest_of (table_files T.count_of T.name_of T.len_of T.byte_of)
            (share_plan self.now) file }
        ensures held { IsTrue
            (is_held (table_files T.count_of T.name_of T.len_of T.byte_of) file result) }
    {
        let first = newest_at_first::<T>(&self.newest, file);
        highest::<T>(&self.risen, file, first)
    }

    /// The planned answer of a read after `calls` calls. The entries that name the read are then
    /// used up.
    pub fn meet<T: FileTable>(&mut self, calls: u64, read: ReadRequest) -> Result<(), ReadError>
        ensures value { result
            ≡ planned_read (table_files T.count_of T.name_of T.len_of T.byte_of)
            (share_plan self.old) calls read }
        ensures plan { share_plan self.new
            ≡ after_read (table_files T.count_of T.name_of T.len_of T.byte_of) read
            (share_plan self.old) }
    {
        let fails = self.fails_after(calls) || self.fails_at(read);
        let before = self.risen.len();
        self.spend::<T>(read);
        if fails {
            return Err(ReadError::Failed);
        }
        met(&self.risen[before..])
    }

    // Removes the entries that name the read.
    fn spend<T: FileTable>(&mut self, read: ReadRequest)
        ensures { share_plan self.new
            ≡ after_read (table_files T.count_of T.name_of T.len_of T.byte_of) read
            (share_plan self.old) }
    {
        add_rising::<T>(&mut self.risen, &self.rises, read);
        drop_rising::<T>(&mut self.rises, read);
        drop_failing(&mut self.fail_bytes, read);
    }
}
