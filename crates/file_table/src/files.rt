//! The table of files: their newest records, shared by many workers.
ghost use Rattle.std.specs.Prelude.{◌≡◌, ◌<◌, ◌≤◌, IfOk, IfErr, IfSome, OnOk, slice_index};
ghost use Rattle.tex_world.specs.World.{IsFile, IsReal};
ghost use Rattle.gen_board.specs.View.{IsNewView};
ghost use Rattle.tiff_format.specs.Cut.{IsCut};
ghost use Rattle.file_table.specs.Calls.{sighted, RaisesIfAtAll, LooksOnce, OpensOnce};
ghost use Rattle.file_table.specs.Files.{HasLocks};
ghost use Rattle.file_table.specs.Calls.{GivesRecord, IsAsSeen, IsAsNew, IsFaultless};
ghost use Rattle.file_table.specs.Calls.{OpensIfAtAll, RecordCause};

use crate::error::FileError;
use crate::idle_files::{HandleLimit, IdleFiles};
use crate::known::{KnownRecord, SameFile};
use crate::open::{Opened, open_record};
use crate::put_back::put_back;
use crate::record::Record;
use gen_board::{Board, View};
use std::alloc::{AllocError, Global};
use std::marker::Model;
use std::sync::Arc;
use tag_lock::TagLock;
use tex_world::{NoMemory, Tap, World};
use tiff_format::Cut;
use waiter::Waiter;

/// The lock of a file's record. Its tag is the file's number.
type RecordLock<W> = TagLock<KnownRecord<W>, SameFile<W>>;

/// The lock of the idle handles and of the read-ahead of their files. Its tag is the greatest
/// number of idle handles.
type IdleLock<T> = TagLock<Box<IdleFiles<T>>, HandleLimit>;

/// The files of a folder, used by many workers. Clauses see its board, the greatest number of idle
/// handles, and the cut that its files are used under. It owns no tap: `T` only names the world and
/// the kind of idle handles.
#[derive(Drop)]
pub struct Files<T: Tap> {
    pub(crate) alloc: Global,
    board: Board<T::W>,
    records: Vec<RecordLock<T::W>>,
    pub(crate) idle: IdleLock<T>,
    cut: Cut,
}

impl<T: Tap> Model for Files<T> {
    ghost use Rattle.tiff_format.specs.Cut.{IsCut};
    ghost use Rattle.file_table.specs.Files.{FilesState, HasLocks};

    ghost Value = { FilesState };

    ghost view = { λ f. record { board = f.board; cap = f.idle; cut = f.cut } };

    ghost invariant = { λ f. HasLocks f.board.files f.records.items × IsCut f.cut };
}

/// A lock for the record of each file. No record is known yet.
fn record_locks<W: World>(alloc: Global, files: u32) -> Result<Vec<RecordLock<W>>, AllocError>
    ensures { IfOk result (λ locks. HasLocks files locks.items) }
{
    let mut locks = Vec::with_capacity(alloc, files as usize)?;
    for file in 0..files {
        locks.push(TagLock::new(u64::from(file), KnownRecord::none()))?;
    }
    Ok(locks)
}

impl<T: Tap> Files<T> {
    /// Makes a table of `files` files, none of them known, and the first view of its board. At most
    /// `cap` handles are kept idle.
    pub fn new(
        alloc: Global,
        files: u32,
        cap: usize,
        cut: Cut,
    ) -> Result<(Files<T>, View<T::W>), NoMemory>
        requires cap { 0 < cap }
        requires cut { IsCut cut }
        ensures board { IfOk result (λ made. IsNewView files made.0.board made.1) }
        ensures cap { IfOk result (λ made. made.0.cap ≡ cap) }
        ensures cut { IfOk result (λ made. made.0.cut ≡ cut) }
    {
        let (board, view) = Board::new(alloc, files)?;
        let records = record_locks(alloc, files)?;
        let Ok(idle) = Box::new(alloc, IdleFiles::new(alloc, cap)?) else {
            return Err(NoMemory);
        };
        let table = Files {
            alloc,
            board,
            records,
            idle: TagLock::new(cap as u64, idle),
            cut,
        };
        Ok((table, view))
    }

    /// The board: the newest known generation of each file.
    pub fn board(&self) -> &Board<T::W>
        ensures { result.now ≡ self.now.board }
    {
        &self.board
    }

    /// The record of the newest known generation of a file.
    ///
    /// Reads the board once. If a record is kept that is as new as what the view has then seen, it
    /// is returned without a call to the tap. Otherwise the file is opened and read, and its record
    /// is kept, unless the waiter gives up. The handle is kept idle too if the directories were
    /// read through a window. No lock of a record is held during a read or an allocation.
    pub fn record<V: Waiter>(
        &self,
        waiter: &V,
        view: &mut View<T::W>,
        tap: &mut T,
        file: u32,
    ) -> Result<Arc<Record<T::W>>, FileError<V::Busy>>
        requires board { view.old.board ≡ self.now.board }
        requires file { file < self.now.board.files }
        requires told { IsFile T.W.files file }
        ensures ok { IfOk result (λ r. GivesRecord T.W.files file self.now.cut view.old view.new
            r.value) }
        ensures as_seen { IfOk result (λ r. IsAsSeen 1 file view.old view.new r.value) }
        ensures as_new { IfOk result (λ r. IsAsNew file view.new r.value) }
        ensures faultless { OnOk result (IsFaultless (T.state tap.old) (T.state tap.new)) }
        ensures cause { IfErr result (RecordCause T.W.files file
            (sighted view.old (T.state tap.old)) (sighted view.new (T.state tap.new))) }

        // The state after the call, also after an error.
        ensures looks { LooksOnce file view.old view.new }
        ensures once { OpensIfAtAll (T.state tap.old) (T.state tap.new) }
    {
        let least = self.board.look(view, file);
        let _ = view.seen(file);
        let known = match self.known(waiter, file, least) {
            Ok(known) => known,
            Err(busy) => return Err(FileError::Busy(busy)),
        };
        match known {
            Some(found) => {
                self.see(view, file, found.generation());
                Ok(found)
            }
            None => self.read_anew(waiter, view, tap, file),
        }
    }

    /// The record that is kept of a file, if its generation is at least `least`.
    fn known<V: Waiter>(
        &self,
        waiter: &V,
        file: u32,
        least: u32,
    ) -> Result<Option<Arc<Record<T::W>>>, V::Busy>
        requires { file < self.now.board.files }
        ensures { IfOk result (λ found. IfSome found (λ r.
            (r.value.file ≡ file) × (least ≤ r.value.generation)
            × (r.value.cut ≡ self.now.cut))) }
    {
        let lock = &self.records[file as usize];
        let known = lock.take(waiter)?;
        let found = known.at_least(least, self.cut);
        // puts it back at the first try, because only this call has taken it
        put_back(lock, waiter, known);
        Ok(found)
    }

    /// Drops the record that is kept of a file.
    pub(crate) fn forget<V: Waiter>(&self, waiter: &V, file: u32) -> Result<(), V::Busy>
        requires { file < self.now.board.files }
    {
        let lock = &self.records[file as usize];
        let mut known = lock.take(waiter)?;
        let _ = known.forget();
        put_back(lock, waiter, known);
        Ok(())
    }

    /// Raises the board's number for a file, if the view has seen less.
    pub(crate) fn see(&self, view: &mut View<T::W>, file: u32, generation: u32)
        requires board { view.old.board ≡ self.now.board }
        requires file { file < self.now.board.files }
        requires real { IsReal T.W.files file generation }
        ensures raises { RaisesIfAtAll file view.old view.new }
        ensures seen { generation ≤ slice_index view.new.seen file }
        ensures same { slice_index view.new.steps file ≡ slice_index view.old.steps file →
            view.new ≡ view.old }
    {
        if view.seen(file) < generation {
            self.board.raise(view, file, generation);
        }
    }

    /// Opens and reads a file in a generation at least as new as what the view has seen, and keeps
    /// its record.
    fn read_anew<V: Waiter>(
        &self,
        waiter: &V,
        view: &mut View<T::W>,
        tap: &mut T,
        file: u32,
    ) -> Result<Arc<Record<T::W>>, FileError<V::Busy>>
        requires board { view.old.board ≡ self.now.board }
        requires file { file < self.now.board.files }
        requires told { IsFile T.W.files file }
        ensures ok { IfOk result (λ r. GivesRecord T.W.files file self.now.cut view.old view.new
            r.value) }
        ensures as_seen { IfOk result (λ r. IsAsSeen 0 file view.old view.new r.value) }
        ensures faultless { OnOk result (IsFaultless (T.state tap.old) (T.state tap.new)) }
        ensures cause { IfErr result (RecordCause T.W.files file
            (sighted view.old (T.state tap.old)) (sighted view.new (T.state tap.new))) }
        ensures raises { RaisesIfAtAll file view.old view.new }
        ensures once { OpensOnce (T.state tap.old) (T.state tap.new) }
    {
        match open_record(self.alloc, tap, file, view.seen(file), self.cut) {
            Ok(Opened { record: read, idle }) => {
                self.see(view, file, read.generation());
                self.settle_read(waiter, idle);
                let Ok(read) = Arc::new(self.alloc, read) else {
                    return Err(FileError::NoMemory);
                };
                self.keep(waiter, file, &read);
                Ok(read)
            }
            Err(FileError::Again { from, to }) => {
                self.see(view, file, to);
                Err(FileError::Again { from, to })
            }
            Err(other) => Err(other),
        }
    }

    /// Keeps a record for later calls, unless the waiter gives up.
    fn keep<V: Waiter>(&self, waiter: &V, file: u32, read: &Arc<Record<T::W>>)
        requires file { file < self.now.board.files }
        requires of_file { read.now.value.file ≡ file }
    {
        let Ok(shared) = Arc::try_clone(read) else {
            return;
        };
        let lock = &self.records[file as usize];
        if let Ok(mut known) = lock.take(waiter) {
            let _ = known.keep(shared);
            put_back(lock, waiter, known);
        }
    }
}
