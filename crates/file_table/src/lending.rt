//! Lends open handles, and keeps them idle when they come back.
ghost use Rattle.std.specs.Prelude.{◌≡◌, ◌<◌, ◌≤◌, IfOk, IfErr, IfSome, OnOk};
ghost use Rattle.tex_world.specs.World.{IsFile, IsReal};
ghost use Rattle.file_table.specs.Calls.{sighted, RaisesIfAtAll, OpensIfAtAll, OpensOnce};
ghost use Rattle.file_table.specs.Aheads.{max_aheads};
ghost use Rattle.file_table.specs.Calls.{IsOfExactly, IsLentFor, LendCause, MovesOnlyAgain};
ghost use Rattle.tap_reader.specs.ReadAhead.{IsOf};

use crate::error::{FileError, NotSettled};
use crate::files::Files;
use crate::put_back::put_back;
use gen_board::View;
use tap_reader::{OpenFile, ReadAhead};
use tex_world::{Tap, TapHandle};
use waiter::Waiter;

impl<T: Tap> Files<T> {
    /// Lends a file, open at a generation: with its idle handle or a newly opened one, and with the
    /// read-ahead kept of that generation.
    ///
    /// An older idle handle is closed, and a newer one stays. The lock of the idle handles is not
    /// held while a file is opened, read or closed.
    pub fn lend<V: Waiter>(
        &self,
        waiter: &V,
        view: &mut View<T::W>,
        tap: &mut T,
        file: u32,
        generation: u32,
    ) -> Result<OpenFile<T>, FileError<V::Busy>>
        requires board { view.old.board ≡ self.now.board }
        requires file { file < self.now.board.files }
        requires told { IsFile T.W.files file }
        requires real { IsReal T.W.files file generation }
        ensures ok { IfOk result (λ f. IsLentFor file generation (T.Handle.named f.handle) f.ahead) }
        ensures cause { IfErr result (LendCause T.W.files file generation
            (sighted view.old (T.state tap.old)) (sighted view.new (T.state tap.new))) }

        // The state after the call, also after an error.
        ensures raises { RaisesIfAtAll file view.old view.new }
        ensures same { OnOk result (view.new ≡ view.old) }
        ensures moves { MovesOnlyAgain (T.state tap.old) (T.state tap.new) result }
        ensures once { OpensIfAtAll (T.state tap.old) (T.state tap.new) }
    {
        let (idle, kept) = match self.take_idle(waiter, file, generation) {
            Ok(taken) => taken,
            Err(busy) => return Err(FileError::Busy(busy)),
        };
        let ahead = match kept {
            Some(ahead) => ahead,
            None => ReadAhead::none(self.alloc, file, generation),
        };
        if let Some(handle) = idle {
            if handle.generation() == generation {
                return Ok(OpenFile { handle, ahead });
            }
        }
        let handle = self.open_at(view, tap, file, generation)?;
        Ok(OpenFile { handle, ahead })
    }

    /// Keeps a handle as the idle one of its file, and keeps its read-ahead.
    ///
    /// A replaced handle is closed. The handle itself is closed if the idle one is newer or memory
    /// runs out. If the waiter gives up, the file is returned and nothing changes.
    pub fn settle<V: Waiter>(
        &self,
        waiter: &V,
        file: OpenFile<T>,
    ) -> Result<(), NotSettled<OpenFile<T>, V::Busy>>
        ensures err { IfErr result (λ e. e.file ≡ file) }
    {
        let mut idle = match self.idle.take(waiter) {
            Ok(idle) => idle,
            Err(busy) => return Err(NotSettled { file, busy }),
        };
        let OpenFile { handle, ahead } = file;
        let _ = idle.handles.settle(handle);
        let _ = idle.aheads.keep(ahead);
        put_back(&self.idle, waiter, idle);
        Ok(())
    }

    /// Keeps the handle that a record was read through as the idle one of its file. Nothing of its
    /// read-ahead is kept. If the waiter gives up, the handle is closed.
    pub(crate) fn settle_read<V: Waiter>(&self, waiter: &V, handle: Option<T::Handle>) {
        if let Some(handle) = handle {
            let ahead = ReadAhead::none(self.alloc, handle.file(), handle.generation());
            let _ = self.settle(waiter, OpenFile { handle, ahead });
        }
    }

    /// Drops the record of a file and its read-ahead, and closes its idle handle.
    ///
    /// If the waiter gives up at one of the two locks, only what that lock guards stays.
    pub fn drop_idle<V: Waiter>(&self, waiter: &V, file: u32) -> Result<(), V::Busy>
        requires { file < self.now.board.files }
    {
        let forgotten = self.forget(waiter, file);
        let mut idle = self.idle.take(waiter)?;
        let _ = idle.handles.take(file);
        let _ = idle.aheads.forget(file);
        put_back(&self.idle, waiter, idle);
        forgotten
    }

    /// The number of idle handles, at most the limit.
    pub fn idle<V: Waiter>(&self, waiter: &V) -> Result<usize, V::Busy>
        ensures { IfOk result (λ n. n ≤ self.now.cap) }
    {
        let idle = self.idle.take(waiter)?;
        let count = idle.handles.len();
        put_back(&self.idle, waiter, idle);
        Ok(count)
    }

    /// The number of files whose read-ahead is kept, at most 256.
    pub fn aheads<V: Waiter>(&self, waiter: &V) -> Result<usize, V::Busy>
        ensures { IfOk result (λ n. n ≤ max_aheads) }
    {
        let idle = self.idle.take(waiter)?;
        let count = idle.aheads.len();
        put_back(&self.idle, waiter, idle);
        Ok(count)
    }

    /// Takes the idle handle of a file, unless it is newer than this generation, and the read-ahead
    /// kept of this generation.
    fn take_idle<V: Waiter>(
        &self,
        waiter: &V,
        file: u32,
        generation: u32,
    ) -> Result<(Option<T::Handle>, Option<ReadAhead<T::W>>), V::Busy>
        ensures handle { IfOk result (λ taken. IfSome taken.0 (λ h.
            ((T.Handle.named h).file ≡ file) × ((T.Handle.named h).generation ≤ generation))) }
        ensures ahead { IfOk result (λ taken. IfSome taken.1 (IsOf file generation)) }
    {
        let mut idle = self.idle.take(waiter)?;
        let handle = idle.handles.take_until(file, generation);
        let ahead = idle.aheads.get(file, generation);
        put_back(&self.idle, waiter, idle);
        Ok((handle, ahead))
    }

    /// Opens a file at exactly this generation.
    fn open_at<B>(
        &self,
        view: &mut View<T::W>,
        tap: &mut T,
        file: u32,
        generation: u32,
    ) -> Result<T::Handle, FileError<B>>
        requires board { view.old.board ≡ self.now.board }
        requires file { file < self.now.board.files }
        requires told { IsFile T.W.files file }
        requires real { IsReal T.W.files file generation }
        ensures ok { IfOk result (λ h. IsOfExactly file generation (T.Handle.named h)) }
        ensures cause { IfErr result (LendCause T.W.files file generation
            (sighted view.old (T.state tap.old)) (sighted view.new (T.state tap.new))) }
        ensures raises { RaisesIfAtAll file view.old view.new }
        ensures same { OnOk result (view.new ≡ view.old) }
        ensures moves { MovesOnlyAgain (T.state tap.old) (T.state tap.new) result }
        ensures once { OpensOnce (T.state tap.old) (T.state tap.new) }
    {
        let handle = tap.open(self.alloc, file, generation)?;
        let newest = handle.generation();
        if newest == generation {
            return Ok(handle);
        }
        self.see(view, file, newest);
        Err(FileError::Again {
            from: generation,
            to: newest,
        })
    }
}
