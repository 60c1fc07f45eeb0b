//! The tiles that a pass holds.
ghost use Rattle.std.specs.Prelude.{◌≡◌, ◌⊎◌, ◌+◌, ◌<◌, ◌++◌, ◌∷◌, [], length, slice_get, None};
ghost use Rattle.std.specs.Prelude.{IsTrue, IsFalse, IsSome, IfSome, OnOk, OnErr};
ghost use Rattle.std.specs.List.{remove};
ghost use Rattle.std.specs.Option.{option_copied};
ghost use Rattle.shard_gate.specs.Since.{PurgesNone};
ghost use Rattle.pinned_tiles.specs.Pinned.{max_holds, ArePinned, PinsAt, SameSeat};
ghost use Rattle.pinned_tiles.specs.Pinned.{KeepsRecent, KeepsTiles, LeavesPart, tiles_in};

use crate::pinned::{MAX_HOLDS, Pinned};
use shard_gate::Gate;
use tex_world::World;
use tile_store::Tile;
use waiter::Waiter;

impl<W: World> Pinned<W> {
    /// The held tile at a place; the oldest is at place 0.
    pub fn held(&self, place: usize) -> Option<&Tile<W>>
        ensures { option_copied result ≡ slice_get self.now.holds place }
    {
        match self.holds.get(place) {
            Some(pin) => Some(pin.tile()),
            None => None,
        }
    }

    /// The number of held tiles.
    pub fn held_count(&self) -> usize
        ensures { result ≡ length self.now.holds }
    {
        self.holds.len()
    }

    /// Makes the tile in hand the latest hold.
    pub fn hold(&mut self)
        requires hand { IsSome self.old.hand }
        requires room { length self.old.holds < max_holds }
        ensures held { IfSome self.old.hand (λ t. self.new.holds ≡ self.old.holds ++ t ∷ []) }
        ensures hand { self.new.hand ≡ None }
        ensures seat { self.new.seat ≡ self.old.seat }
        ensures same { KeepsRecent self.old self.new }
        ensures are { ArePinned W.files self.new }
    {
        let Some(pin) = self.hand.take() else {
            unreachable!()
        };
        if let Err(_refused) = self.holds.push(pin) {
            unreachable!()
        }
    }

    /// Releases the hold at a place; later holds move up by one. If the waiter gives up on this
    /// pin, the tile is in hand; if it gives up earlier, nothing changes.
    pub fn release_hold<V: Waiter>(
        &mut self,
        gate: &Gate<W>,
        waiter: &V,
        place: usize,
    ) -> Result<(), V::Busy>
        requires gate { PinsAt gate.now self.old }
        requires place { place < length self.old.holds }
        ensures ok { OnOk result (self.new.holds ≡ remove self.old.holds place) }
        ensures err { OnErr result (self.new.holds ≡ self.old.holds) }
        ensures hand { OnOk result ((self.new.hand ≡ None) ⊎ V.Busy) }
        ensures same { KeepsRecent self.old self.new }
        ensures visits { PurgesNone gate.now self.old.seat self.new.seat }
        ensures are { ArePinned W.files self.new }
    {
        self.release_hand(gate, waiter)?;
        self.take_hold_at(place);
        self.try_hand(gate, waiter);
        Ok(())
    }

    /// Takes the hold at a place in hand.
    fn take_hold_at(&mut self, place: usize)
        requires place { place < length self.old.holds }
        requires hand { self.old.hand ≡ None }
        ensures holds { self.new.holds ≡ remove self.old.holds place }
        ensures seat { self.new.seat ≡ self.old.seat }
        ensures same { KeepsRecent self.old self.new }
    {
        self.hand = Some(self.holds.remove(place));
    }

    /// Gives back all pins. If the waiter gives up, some remain.
    pub fn release_all<V: Waiter>(&mut self, gate: &Gate<W>, waiter: &V) -> Result<(), V::Busy>
        requires gate { PinsAt gate.now self.old }
        ensures ok { OnOk result (self.new.seat.pins ≡ []) }
        ensures part { LeavesPart self.old self.new }
        ensures same { SameSeat self.old self.new }
        ensures visits { PurgesNone gate.now self.old.seat self.new.seat }
        ensures are { ArePinned W.files self.new }
    {
        self.release_recent(gate, waiter)?;
        'holds: while self.take_hold() {
            self.release_hand(gate, waiter)?;
        }
        self.know_none();
        Ok(())
    }

    /// Does nothing; its contract gives the proof that there is no pin without a tile.
    fn know_none(&self)
        ensures { self.now.recent ≡ [] → self.now.holds ≡ [] → self.now.hand ≡ None
            → self.now.seat.pins ≡ [] }
    {
        let _ = self.seat.permits();
    }

    /// Takes the latest hold in hand. False if none exists.
    fn take_hold(&mut self) -> bool
        requires hand { self.old.hand ≡ None }
        requires recent { self.old.recent ≡ [] }
        ensures some { IsTrue result → length self.old.holds ≡ length self.new.holds + 1 }
        ensures none { IsFalse result → (self.new.holds ≡ []) × (self.new.hand ≡ None) }
        ensures tiles { tiles_in self.new ≡ tiles_in self.old }
        ensures seat { self.new.seat ≡ self.old.seat }
        ensures same { KeepsRecent self.old self.new }
        ensures are { ArePinned W.files self.new }
    {
        match self.holds.pop() {
            Some(hold) => {
                self.hand = Some(hold);
                true
            }
            None => false,
        }
    }
}
