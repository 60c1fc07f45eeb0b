//! The tiles that a pass holds.
ghost use Rattle.std.specs.Prelude.{◌≡◌, ◌<◌, ◌≤◌, ◌++◌, ◌∷◌, [], length};
ghost use Rattle.std.specs.Prelude.{None, Err, IfOk, IfErr, IfSome, IsSome, OnOk, OnErr};
ghost use Rattle.std.specs.List.{remove};
ghost use Rattle.tex_world.specs.World.{IsFile};
ghost use Rattle.shard_gate.specs.Since.{PurgesNone};
ghost use Rattle.tile_source.specs.Pass.{IsPassOf};
ghost use Rattle.tile_source.specs.Texel.{IsGivenBy, IsCellOf};
ghost use Rattle.tile_source.specs.Source.{refusal, moment, IsSameCall};
ghost use Rattle.image_cache.specs.Hold.{TakesHold, HoldsOn};
ghost use Rattle.image_cache.specs.Call.{AfterHoldStep};
ghost use Rattle.image_cache.specs.Caller.{call, caller_state};
ghost use Rattle.image_cache.specs.Holds.{HoldsTile, LeavesHold};
ghost use Rattle.tile_source.specs.Call.{LeavesNoHand, NoneFalls};
ghost use Rattle.image_cache.specs.Call.{HoldsCell};
ghost use Rattle.tile_source.specs.Pass.{KeepsAllBut, its_hand, its_holds};
ghost use Rattle.image_cache.specs.Cause.{TileRefuses};
ghost use Rattle.tile_source.specs.Cause.{StepCause};
ghost use Rattle.image_cache.specs.Cause.{ReleaseCause};

use crate::cache::Cache;
use crate::checks::inside;
use crate::error::NotReleased;
use file_table::{Picture, Record};
use pinned_tiles::{CellAt, MAX_HOLDS};
use tex_world::Tap;
use texel_values::TexelAt;
use tile_source::{CacheError, Pass, TileSource};
use waiter::Waiter;

impl<T: Tap> Cache<T> {
    /// Pins the tile of the cell that holds a texel, as the latest hold of the pass. Returns the
    /// generation.
    pub fn get_tile<V: Waiter>(
        &self,
        waiter: &V,
        pass: &mut Pass<T::W>,
        tap: &mut T,
        file: u32,
        at: TexelAt,
    ) -> Result<u32, CacheError<V::Busy>>
        requires pass { IsPassOf self.now pass.old }
        requires file { file < self.now.files.board.files }
        requires told { IsFile T.W.files file }
        ensures answers { HoldsTile file at
            (call T.W.files T.state (caller_state self.now pass.old tap.old)
            (caller_state self.now pass.new tap.new)) result }
        ensures leaves { LeavesHold file
            (call T.W.files T.state (caller_state self.now pass.old tap.old)
            (caller_state self.now pass.new tap.new)) result }
    {
        if pass.pinned.held_count() == MAX_HOLDS {
            return Err(CacheError::HoldsFull);
        }
        let known = self.open(waiter, pass, tap, file)?;
        let answer = self.hold_cell(waiter, pass, tap, &known, at);
        self.keep(pass, known);
        answer
    }

    /// Pins the tile of a texel's cell for a given record, as the latest hold of the pass.
    fn hold_cell<V: Waiter>(
        &self,
        waiter: &V,
        pass: &mut Pass<T::W>,
        tap: &mut T,
        known: &Record<T::W>,
        at: TexelAt,
    ) -> Result<u32, CacheError<V::Busy>>
        requires pass { IsPassOf self.now pass.old }
        requires room { length pass.old.pinned.holds < 4 }
        requires known { IsGivenBy T.W.files self.now known.now }
        ensures ok { IfOk result (λ generation. (generation ≡ known.now.generation)
            × HoldsCell T.W.files at pass.old pass.new known.now) }
        ensures cause { IfErr result (StepCause T.W.files known.now pass.new.view
            (T.state tap.old) (T.state tap.new) (TileRefuses at)) }
        // The state after the call.
        ensures err { OnErr result (pass.new.pinned.holds ≡ pass.old.pinned.holds) }
        ensures same { AfterHoldStep known.now.file pass.old pass.new }
        ensures hand { LeavesNoHand V.Busy pass.old pass.new }
        ensures visits { PurgesNone self.now.gate pass.old.pinned.seat pass.new.pinned.seat }
        ensures tap { NoneFalls (T.state tap.old) (T.state tap.new) }
    {
        inside(known, at)?;
        known.know();
        let cell = self.cell(known, at);
        let picture = Picture::of(known);
        let mut source = TileSource {
            store: self.store(),
            waiter,
            pass,
            tap,
            picture: &picture,
        };
        hold(&mut source, &cell)?;
        Ok(known.generation())
    }

    /// Releases the hold at a place; later holds move up by one. Allocates nothing.
    pub fn release_tile<V: Waiter>(
        &self,
        waiter: &V,
        pass: &mut Pass<T::W>,
        place: usize,
    ) -> Result<(), NotReleased<V::Busy>>
        requires pass { IsPassOf self.now pass.old }
        ensures ok { OnOk result (pass.new.pinned.holds ≡ remove pass.old.pinned.holds place) }
        ensures cause { IfErr result (ReleaseCause place pass.old) }
        ensures none { length pass.old.pinned.holds ≤ place → result ≡ Err NotReleased.NothingHeld }
        // The state after the call.
        ensures err { OnErr result (pass.new.pinned.holds ≡ pass.old.pinned.holds) }
        ensures same { KeepsAllBut its_holds pass.old pass.new }
        ensures hand { LeavesNoHand V.Busy pass.old pass.new }
        ensures visits { PurgesNone self.now.gate pass.old.pinned.seat pass.new.pinned.seat }
    {
        if place >= pass.pinned.held_count() {
            return Err(NotReleased::NothingHeld);
        }
        match pass.pinned.release_hold(&self.store.gate, waiter, place) {
            Ok(()) => Ok(()),
            Err(busy) => Err(NotReleased::Busy(busy)),
        }
    }

    /// Gives back the pin that stayed in hand when a waiter gave up. Allocates nothing.
    pub fn release_hand<V: Waiter>(&self, waiter: &V, pass: &mut Pass<T::W>) -> Result<(), V::Busy>
        requires pass { IsPassOf self.now pass.old }
        ensures ok { OnOk result (pass.new.pinned.hand ≡ None) }
        ensures err { OnErr result (pass.new.pinned.hand ≡ pass.old.pinned.hand) }
        ensures same { KeepsAllBut its_hand pass.old pass.new }
        ensures visits { PurgesNone self.now.gate pass.old.pinned.seat pass.new.pinned.seat }
    {
        pass.pinned.release_hand(&self.store.gate, waiter)
    }
}

/// Pins the tile of a cell as the latest hold of the pass.
fn hold<V: Waiter, T: Tap>(
    source: &mut TileSource<'_, V, T>,
    cell: &CellAt,
) -> Result<(), CacheError<V::Busy>>
    requires cell { IsCellOf source.old.picture.now cell.now }
    requires room { length source.old.pass.now.pinned.holds < 4 }
    ensures ok { OnOk result (TakesHold T.W.files source.old.store.now.gate.cut cell.now.key
        source.old.pass.now source.new.pass.now) }
    ensures err { OnErr result
        (source.new.pass.now.pinned.holds ≡ source.old.pass.now.pinned.holds) }
    ensures call { IsSameCall source.old source.new }
    ensures left { HoldsOn T.W.files source.old.store.now.gate source.old.picture.now
        (moment source.old) (moment source.new) (refusal result) }
{
    source.take_in_hand(cell)?;
    keep_hold(source);
    Ok(())
}

/// Makes the tile in hand the latest hold of the pass.
fn keep_hold<V: Waiter, T: Tap>(source: &mut TileSource<'_, V, T>)
    requires hand { IsSome source.old.pass.now.pinned.hand }
    requires room { length source.old.pass.now.pinned.holds < 4 }
    ensures held { IfSome source.old.pass.now.pinned.hand (λ tile.
        source.new.pass.now.pinned.holds ≡ source.old.pass.now.pinned.holds ++ tile ∷ []) }
    ensures hand { source.new.pass.now.pinned.hand ≡ None }
    ensures call { IsSameCall source.old source.new }
    ensures tap { source.new.tap.now ≡ source.old.tap.now }
    ensures seat { source.new.pass.now.pinned.seat ≡ source.old.pass.now.pinned.seat }
    ensures same { KeepsAllBut its_holds source.old.pass.now source.new.pass.now }
    ensures view { source.new.pass.now.view ≡ source.old.pass.now.view }
{
    let pass = &mut *source.pass;
    pass.pinned.hold();
}
