//! One caller of a file table.
ghost use Rattle.std.specs.Prelude.{◌≡◌, ◌<◌};
ghost use Rattle.tex_world.specs.World.{IsFile};

use file_table::{FileError, Files, Record};
use gen_board::View;
use std::sync::Arc;
use tap_reader::OpenFile;
use tex_world::Tap;
use waiter::{GaveUp, Waiter};

/// A table and a view of its board. For a file that the table does not have, the answer is that of
/// a busy lock.
#[derive(Drop)]
pub(crate) struct Seat<'a, T: Tap> {
    pub(crate) files: &'a Files<T>,
    pub(crate) view: View<T::W>,
    ghost board: { view.board ≡ files.now.board },
}

impl<T: Tap> Seat<'_, T> {
    pub(crate) fn record<V: Waiter<Busy = GaveUp>>(
        &mut self,
        waiter: &V,
        tap: &mut T,
        file: u32,
    ) -> Result<Arc<Record<T::W>>, FileError<GaveUp>>
        requires { IsFile T.W.files file }
    {
        if file >= self.files.board().files() {
            return Err(FileError::Busy(GaveUp));
        }
        self.files.record(waiter, &mut self.view, tap, file)
    }

    /// The file of a record, open at its generation.
    pub(crate) fn lend<V: Waiter<Busy = GaveUp>>(
        &mut self,
        waiter: &V,
        tap: &mut T,
        file: u32,
        record: &Record<T::W>,
    ) -> Result<OpenFile<T>, FileError<GaveUp>>
        requires { IsFile T.W.files file }
    {
        if file >= self.files.board().files() || record.file() != file {
            return Err(FileError::Busy(GaveUp));
        }
        self.files
            .lend(waiter, &mut self.view, tap, file, record.generation())
    }

    pub(crate) fn forget<V: Waiter<Busy = GaveUp>>(
        &self,
        waiter: &V,
        file: u32,
    ) -> Result<(), GaveUp> {
        if file >= self.files.board().files() {
            return Err(GaveUp);
        }
        self.files.drop_idle(waiter, file)
    }

    /// The generation that was seen of a file.
    pub(crate) fn seen(&self, file: u32) -> u32 {
        if file < self.files.board().files() {
            self.view.seen(file)
        } else {
            0
        }
    }
}
