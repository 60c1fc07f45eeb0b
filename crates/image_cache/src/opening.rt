//! The record of a file: opened, kept by a pass, and taken out again.
ghost use Rattle.std.specs.Prelude.{◌≡◌, ◌↔◌, ◌<◌, ◌≤◌, None, Some, IfOk, IfErr, OnOk};
ghost use Rattle.std.specs.Prelude.{IsSome, IsNone, IfSome, IsSomeAnd, length, slice_index};
ghost use Rattle.tex_world.specs.World.{IsFile};
ghost use Rattle.file_table.specs.Calls.{sighted, GivesRecord, IsAsSeen, IsAsNew, IsFaultless};
ghost use Rattle.tile_source.specs.Pass.{IsPassOf, IsKeptBy};
ghost use Rattle.tile_source.specs.Pass.{KeepsAllBut, view_and_record};
ghost use Rattle.image_cache.specs.Call.{Serves, TakesLatest, AfterOpen, AfterLook};
ghost use Rattle.image_cache.specs.Cause.{OpeningCause};

use crate::cache::Cache;
use file_table::Record;
use std::sync::Arc;
use tex_world::Tap;
use tile_source::{CacheError, Pass};
use waiter::Waiter;

impl<T: Tap> Cache<T> {
    /// The record of the newest known generation of a file. It is moved out of the pass, which has
    /// no record until `keep`.
    pub fn open<V: Waiter>(
        &self,
        waiter: &V,
        pass: &mut Pass<T::W>,
        tap: &mut T,
        file: u32,
    ) -> Result<Arc<Record<T::W>>, CacheError<V::Busy>>
        requires pass { IsPassOf self.now pass.old }
        requires file { file < self.now.files.board.files }
        requires told { IsFile T.W.files file }
        ensures ok { IfOk result (λ r. GivesRecord T.W.files file self.now.gate.cut
            pass.old.view pass.new.view r.value) }
        ensures as_seen { IfOk result (λ r. IsAsSeen 1 file pass.old.view pass.new.view r.value) }
        ensures as_new { IfOk result (λ r. IsAsNew file pass.new.view r.value) }
        ensures faultless { OnOk result (IsFaultless (T.state tap.old) (T.state tap.new)) }
        ensures cause { IfErr result (OpeningCause T.W.files file
            (sighted pass.old.view (T.state tap.old)) (sighted pass.new.view (T.state tap.new))) }
        // The state after the call.
        ensures latest { TakesLatest pass.old pass.new result }
        ensures leaves { AfterOpen file pass.old pass.new (T.state tap.old) (T.state tap.new) }
    {
        let known = self.store.files.record(waiter, &mut pass.view, tap, file)?;
        pass.latest = None;
        Ok(known)
    }

    /// Gives the pass this record for its next lookup.
    pub fn keep(&self, pass: &mut Pass<T::W>, known: Arc<Record<T::W>>)
        requires pass { IsPassOf self.now pass.old }
        requires cut { known.value.cut ≡ self.now.gate.cut }
        requires seen { known.value.generation ≤ slice_index pass.old.view.seen known.value.file }
        ensures kept { pass.new.latest ≡ Some known.value }
        ensures same { KeepsAllBut view_and_record pass.old pass.new }
        ensures view { pass.new.view ≡ pass.old.view }
    {
        pass.latest = Some(known);
    }

    /// Drops what is kept of a file beside its tiles: its record, its read-ahead and its idle
    /// handle. The next call that opens the file reads its directories again.
    ///
    /// If the waiter gives up, some of it may stay.
    pub fn drop_record<V: Waiter>(&self, waiter: &V, file: u32) -> Result<(), V::Busy>
        requires { file < self.now.files.board.files }
    {
        self.store.files.drop_idle(waiter, file)
    }

    /// Takes out the pass's record if it is of this file's newest known generation, valid and with
    /// small enough cells. Reads the board once.
    pub fn local(&self, pass: &mut Pass<T::W>, file: u32) -> Option<Arc<Record<T::W>>>
        requires pass { IsPassOf self.now pass.old }
        requires file { file < self.now.files.board.files }
        ensures some { IsSome result ↔ IsSomeAnd pass.old.latest (Serves file pass.new.view) }
        ensures value { IfSome result (λ r. pass.old.latest ≡ Some r.value) }
        ensures kept { IfSome pass.old.latest (IsKeptBy pass.old) }
        ensures few { length pass.new.pinned.recent ≤ 2 }
        ensures serves { IfSome result (λ r. Serves file pass.new.view r.value
            × (r.value.cut ≡ self.now.gate.cut)) }
        // The state after the call.
        ensures taken { IsSome result → pass.new.latest ≡ None }
        ensures none { IsNone result → pass.new.latest ≡ pass.old.latest }
        ensures leaves { AfterLook file pass.old pass.new }
    {
        let newest = self.store.files.board().look(&mut pass.view, file);
        let serves = match &pass.latest {
            Some(known) => known.file() == file && known.generation() == newest && known.fits(),
            None => false,
        };
        if serves { pass.latest.take() } else { None }
    }
}
