//! Freshness checks on request: what is kept of a replaced file is dropped.
ghost use Rattle.std.specs.Prelude.{◌≡◌, ◌<◌, ℕ, [], IfOk, IfErr, OnOk, length, slice_index};
ghost use Rattle.tex_world.specs.World.{IsFile};
ghost use Rattle.tex_world.specs.Tap.{IsLeast};
ghost use Rattle.gen_board.specs.View.{IsLater};
ghost use Rattle.file_table.specs.Calls.{KeepsView};
ghost use Rattle.shard_gate.specs.Given.{AtFirst, Purges};
ghost use Rattle.shard_gate.specs.Since.{PurgesNone};
ghost use Rattle.pinned_tiles.specs.Pinned.{KeepsTiles};
ghost use Rattle.tile_source.specs.Pass.{IsPassOf, SameCounts};
ghost use Rattle.image_cache.specs.Invalid.{invalid, IsEmptied, MakesInvalid, AsksIfKnown};
ghost use Rattle.image_cache.specs.Invalid.{InvalidCause, Renews, KeepsButSight, MayAsk};
ghost use Rattle.image_cache.specs.InvalidAll.{MakesAllInvalid, RenewsFile, FailsAt, EndsAtFault};
ghost use Rattle.image_cache.specs.InvalidAll.{AtReadFault};
ghost use Rattle.tile_source.specs.Source.{pass_tap};
ghost use Rattle.image_cache.specs.Invalid as spec;

use crate::cache::Cache;
use tex_world::{LAST_GENERATION, Tap};
use tile_source::{CacheError, Pass};
use waiter::Waiter;

/// A file to check, with or without force.
#[derive(Clone, Copy, Debug)]
struct Invalid {
    file: u32,
    force: bool,
}

impl<T: Tap> Cache<T> {
    /// Asks the tap for the newest generation of a file, publishes it on the board and returns it.
    /// The microcache and the record of the pass are dropped first, even if the call then fails.
    ///
    /// If the answer is newer than what was known, or with `force`, the file's record and idle
    /// handle are dropped. So are its unpinned tiles: those of older generations or, with `force`,
    /// all. A pinned tile stays until its last pin goes, and the microcaches of other passes stay.
    /// Allocates nothing.
    pub fn invalidate<V: Waiter>(
        &self,
        waiter: &V,
        pass: &mut Pass<T::W>,
        tap: &mut T,
        file: u32,
        force: bool,
    ) -> Result<u32, CacheError<V::Busy>>
        requires pass { IsPassOf self.now pass.old }
        requires file { file < self.now.files.board.files }
        requires told { IsFile T.W.files file }
        ensures ok { IfOk result (MakesInvalid T.W.files self.now.gate (invalid file force)
            pass.old pass.new (T.state tap.old) (T.state tap.new)) }
        ensures cause { IfErr result (InvalidCause (T.state tap.old) (T.state tap.new)) }
        // If there is an I/O error, no tile is purged.
        ensures failed { IfErr result (AtReadFault (PurgesNone self.now.gate
            pass.old.pinned.seat pass.new.pinned.seat)) }
        // The state after the call, also after an error.
        ensures emptied { IsEmptied V.Busy pass.old pass.new }
        ensures view { KeepsView file pass.old.view pass.new.view }
        ensures tap { MayAsk (T.state tap.old) (T.state tap.new) }
    {
        if let Err(busy) = self.empty(waiter, pass) {
            return Err(CacheError::Busy(busy));
        }
        let asked = Invalid { file, force };
        let looked = self.store.files.board().look(&mut pass.view, asked.file);
        self.renew(waiter, pass, tap, asked, looked)
    }

    /// Calls `invalidate`, without force, for each known file in the order of their numbers. It
    /// stops at the first I/O error.
    pub fn invalidate_all<V: Waiter>(
        &self,
        waiter: &V,
        pass: &mut Pass<T::W>,
        tap: &mut T,
    ) -> Result<(), CacheError<V::Busy>>
        requires pass { IsPassOf self.now pass.old }
        requires told { (file : ℕ) → file < self.now.files.board.files → IsFile T.W.files file }
        ensures ok { OnOk result (MakesAllInvalid T.W.files self.now.gate
            self.now.files.board.files (pass_tap pass.old (T.state tap.old))
            (pass_tap pass.new (T.state tap.new))) }
        ensures cause { IfErr result (InvalidCause (T.state tap.old) (T.state tap.new)) }
        // After an I/O error the files before the failing one are done.
        ensures failed { IfErr result (AtReadFault (EndsAtFault T.W.files self.now.gate
            self.now.files.board.files (pass_tap pass.old (T.state tap.old))
            (pass_tap pass.new (T.state tap.new)))) }
        // The state after the call, also after an error.
        ensures emptied { IsEmptied V.Busy pass.old pass.new }
        ensures later { IsLater pass.old.view.seen pass.new.view.seen }
        ensures tap { MayAsk (T.state tap.old) (T.state tap.new) }
    {
        if let Err(busy) = self.empty(waiter, pass) {
            return Err(CacheError::Busy(busy));
        }
        for file in 0..self.store.files.board().files() {
            if let Err(e) = self.renew_known(waiter, pass, tap, file) {
                return Err(e);
            }
        }
        Ok(())
    }

    /// Checks one file if it is known.
    fn renew_known<V: Waiter>(
        &self,
        waiter: &V,
        pass: &mut Pass<T::W>,
        tap: &mut T,
        file: u32,
    ) -> Result<(), CacheError<V::Busy>>
        requires pass { IsPassOf self.now pass.old }
        requires file { file < self.now.files.board.files }
        requires told { IsFile T.W.files file }
        ensures ok { OnOk result (AsksIfKnown file pass.old.view pass.new.view
            (T.state tap.old) (T.state tap.new)) }
        ensures renewed { OnOk result (RenewsFile T.W.files self.now.gate file
            (pass_tap pass.old (T.state tap.old)) (pass_tap pass.new (T.state tap.new))) }
        ensures cause { IfErr result (InvalidCause (T.state tap.old) (T.state tap.new)) }
        ensures failed { IfErr result (AtReadFault (FailsAt file
            (pass_tap pass.old (T.state tap.old)) (pass_tap pass.new (T.state tap.new)))) }
        ensures same { KeepsButSight file pass.old pass.new }
        ensures tap { MayAsk (T.state tap.old) (T.state tap.new) }
    {
        let looked = self.store.files.board().look(&mut pass.view, file);
        if looked == 0 {
            return Ok(());
        }
        let asked = Invalid { file, force: false };
        self.renew(waiter, pass, tap, asked, looked)?;
        Ok(())
    }

    /// Asks the tap for the newest generation of a file and publishes it on the board. `looked` is
    /// what the board showed before. What is stale of the file is dropped.
    fn renew<V: Waiter>(
        &self,
        waiter: &V,
        pass: &mut Pass<T::W>,
        tap: &mut T,
        asked: Invalid,
        looked: u32,
    ) -> Result<u32, CacheError<V::Busy>>
        requires pass { IsPassOf self.now pass.old }
        requires file { asked.file < self.now.files.board.files }
        requires told { IsFile T.W.files asked.file }
        requires least { IsLeast T.W.files asked.file looked }
        requires seen { slice_index pass.old.view.seen asked.file ≡ looked }
        ensures ok { IfOk result (Renews T.W.files self.now.gate (invalid asked.file asked.force)
            looked pass.old pass.new (T.state tap.old) (T.state tap.new)) }
        ensures cause { IfErr result (InvalidCause (T.state tap.old) (T.state tap.new)) }
        ensures failed { IfErr result (AtReadFault ((pass.new ≡ pass.old)
            × ((T.state tap.new).asks ≡ (T.state tap.old).asks))) }
        ensures same { KeepsButSight asked.file pass.old pass.new }
        ensures tap { MayAsk (T.state tap.old) (T.state tap.new) }
    {
        let Ok(newest) = tap.newest(asked.file, looked) else {
            return Err(CacheError::ReadFault);
        };
        if looked < newest {
            self.store
                .files
                .board()
                .raise(&mut pass.view, asked.file, newest);
        }
        if asked.force || looked < newest {
            let below = stale_below(asked.force, newest);
            if let Err(busy) = self.give_up(waiter, pass, asked.file, below) {
                return Err(CacheError::Busy(busy));
            }
        }
        Ok(newest)
    }

    /// Drops the pass's microcache and record.
    fn empty<V: Waiter>(&self, waiter: &V, pass: &mut Pass<T::W>) -> Result<(), V::Busy>
        requires pass { IsPassOf self.now pass.old }
        ensures recent { OnOk result (pass.new.pinned.recent ≡ []) }
        ensures emptied { IsEmptied V.Busy pass.old pass.new }
        ensures view { pass.new.view ≡ pass.old.view }
        ensures visits { PurgesNone self.now.gate pass.old.pinned.seat pass.new.pinned.seat }
    {
        pass.latest = None;
        pass.pinned.release_recent(&self.store.gate, waiter)
    }

    /// Drops what is kept of a file: its record, its idle handle, and its unpinned tiles of
    /// generations below the bound.
    fn give_up<V: Waiter>(
        &self,
        waiter: &V,
        pass: &mut Pass<T::W>,
        file: u32,
        below: u32,
    ) -> Result<(), V::Busy>
        requires pass { IsPassOf self.now pass.old }
        requires file { file < self.now.files.board.files }
        ensures visits { OnOk result (AtFirst (length self.now.gate.id) (Purges file below)
            pass.old.pinned.seat.visits pass.new.pinned.seat.visits) }
        ensures tiles { KeepsTiles pass.old.pinned pass.new.pinned }
        ensures hand { pass.new.pinned.hand ≡ pass.old.pinned.hand }
        ensures latest { pass.new.latest ≡ pass.old.latest }
        ensures counts { SameCounts pass.old pass.new }
        ensures view { pass.new.view ≡ pass.old.view }
    {
        self.store.files.drop_idle(waiter, file)?;
        pass.pinned.purge(&self.store.gate, waiter, file, below)
    }
}

/// The bound below which tiles are stale: the newest generation, or above all generations with
/// force.
fn stale_below(force: bool, newest: u32) -> u32
    ensures { result ≡ spec.stale_below force newest }
{
    if force { LAST_GENERATION + 1 } else { newest }
}
