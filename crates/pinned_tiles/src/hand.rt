//! The tile in hand: one that was just pinned, or one whose pin is about to be given back.
ghost use Rattle.std.specs.Prelude.{◌≡◌, ◌⊎◌, ◌↔◌, ◌++◌, IsTrue, IsFalse, IsSome, IsSomeAnd};
ghost use Rattle.std.specs.Prelude.{None, Some, OnOk, OnErr, IfOk, IfSome};
ghost use Rattle.shard_gate.specs.Gate.{HasCellRect, IsTileOf};
ghost use Rattle.shard_gate.specs.Since.{PurgesNone, Misses};
ghost use Rattle.pinned_tiles.specs.Cell.{is_tile_of};
ghost use Rattle.micro.specs.Items.{HasKey};
ghost use Rattle.pinned_tiles.specs.Pinned.{ArePinned, PinsAt, KeepsTiles, LeavesPart, key_in};

use crate::cell::{CellAt, is_tile_of};
use crate::pinned::Pinned;
use shard_gate::{Gate, NotPinned, NotUnpinned, PinError};
use tex_world::World;
use tile_layout::TileKey;
use tile_store::Tile;
use waiter::Waiter;

impl<W: World> Pinned<W> {
    /// Gives back the pin of the tile in hand. If the waiter gives up, the tile stays in hand.
    pub fn release_hand<V: Waiter>(&mut self, gate: &Gate<W>, waiter: &V) -> Result<(), V::Busy>
        requires gate { PinsAt gate.now self.old }
        ensures ok { OnOk result (self.new.hand ≡ None) }
        ensures err { OnErr result (self.new.hand ≡ self.old.hand) }
        ensures part { LeavesPart self.old self.new }
        ensures same { KeepsTiles self.old self.new }
        ensures visits { PurgesNone gate.now self.old.seat self.new.seat }
        ensures are { ArePinned W.files self.new }
    {
        let Some(pin) = self.hand.take() else {
            return Ok(());
        };
        match gate.unpin(waiter, &mut self.seat, pin) {
            Ok(()) => Ok(()),
            Err(NotUnpinned { pin, busy }) => {
                self.hand = Some(pin);
                Err(busy)
            }
        }
    }

    /// Gives back the pin of the tile in hand, if the lock can be had. Otherwise it stays in hand,
    /// and the call goes on.
    pub(crate) fn try_hand<V: Waiter>(&mut self, gate: &Gate<W>, waiter: &V)
        requires gate { PinsAt gate.now self.old }
        ensures hand { (self.new.hand ≡ None) ⊎ V.Busy }
        ensures same { KeepsTiles self.old self.new }
        ensures visits { PurgesNone gate.now self.old.seat self.new.seat }
        ensures are { ArePinned W.files self.new }
    {
        let _ = self.release_hand(gate, waiter);
    }

    /// The tile in hand, if it is the tile of the cell.
    pub fn tile_in_hand(&self, cell: &CellAt) -> Option<&Tile<W>>
        ensures some { IsSome result ↔ IsSomeAnd self.now.hand (λ tile.
            (tile.key ≡ cell.now.key) × IsTrue (is_tile_of cell.now tile)) }
        ensures value { IfSome result (λ tile. self.now.hand ≡ Some tile.now) }
        ensures keyed { IfSome result (λ tile. tile.now.key ≡ cell.now.key) }
        ensures of_cell { IfSome result (λ tile. IsTrue (is_tile_of cell.now tile.now)) }
    {
        let tile = self.hand.as_ref()?.tile();
        if tile.key() == cell.key && is_tile_of(tile, cell) {
            Some(tile)
        } else {
            None
        }
    }

    /// Pins the tile of a key and takes it in hand, if its shard has it.
    pub fn pin<V: Waiter>(
        &mut self,
        gate: &Gate<W>,
        waiter: &V,
        key: TileKey,
    ) -> Result<bool, PinError<V::Busy>>
        requires gate { PinsAt gate.now self.old }
        requires hand { self.old.hand ≡ None }
        ensures found { IfOk result (λ found. IsTrue found →
            IsSomeAnd self.new.hand (IsTileOf W.files self.new.cut key)) }
        ensures none { IfOk result (λ found. IsFalse found → self.new.hand ≡ None) }
        // If the pass holds a tile of the key, the shard has it.
        ensures held { HasKey key_in key self.old.holds → IfOk result (λ found. IsTrue found) }
        ensures err { OnErr result (self.new.hand ≡ None) }
        ensures same { KeepsTiles self.old self.new }
        ensures visits { PurgesNone gate.now self.old.seat self.new.seat }
        ensures missed { IfOk result (λ found. IsFalse found →
            Misses gate.now key self.old.seat self.new.seat) }
        ensures are { ArePinned W.files self.new }
    {
        match gate.pin(waiter, &mut self.seat, key) {
            Ok(Some(pin)) => {
                self.hand = Some(pin);
                Ok(true)
            }
            Ok(None) => Ok(false),
            Err(e) => Err(e),
        }
    }

    /// Puts a tile into its shard, pinned, and takes it in hand. If the shard already has a tile of
    /// the key, that one is pinned instead.
    pub fn pin_new<V: Waiter>(
        &mut self,
        gate: &Gate<W>,
        waiter: &V,
        tile: Tile<W>,
    ) -> Result<(), PinError<V::Busy>>
        requires gate { PinsAt gate.now self.old }
        requires hand { self.old.hand ≡ None }
        requires cell { HasCellRect W.files self.old.cut tile }
        ensures ok { OnOk result
            (IsSomeAnd self.new.hand (IsTileOf W.files self.new.cut tile.key)) }
        ensures err { OnErr result (self.new.hand ≡ None) }
        ensures same { KeepsTiles self.old self.new }
        ensures visits { PurgesNone gate.now self.old.seat self.new.seat }
        ensures are { ArePinned W.files self.new }
    {
        match gate.pin_new(waiter, &mut self.seat, tile) {
            Ok(pin) => {
                self.hand = Some(pin);
                Ok(())
            }
            Err(NotPinned::NoMemory) => Err(PinError::NoMemory),
            Err(NotPinned::Busy { tile: _, busy }) => Err(PinError::Busy(busy)),
        }
    }

    /// Pins the tile of a key and takes it in hand, if its shard has it. A pin that could not be
    /// given back earlier is given back first.
    pub fn pin_next<V: Waiter>(
        &mut self,
        gate: &Gate<W>,
        waiter: &V,
        key: TileKey,
    ) -> Result<bool, PinError<V::Busy>>
        requires gate { PinsAt gate.now self.old }
        ensures found { IfOk result (λ found. IsTrue found →
            IsSomeAnd self.new.hand (IsTileOf W.files self.new.cut key)) }
        ensures none { IfOk result (λ found. IsFalse found → self.new.hand ≡ None) }
        // If the pass holds a tile of the key, the shard has it.
        ensures held { HasKey key_in key self.old.holds → IfOk result (λ found. IsTrue found) }
        ensures err { OnErr result ((self.new.hand ≡ None) ⊎ V.Busy) }
        ensures same { KeepsTiles self.old self.new }
        ensures visits { PurgesNone gate.now self.old.seat self.new.seat }
        ensures missed { IfOk result (λ found. IsFalse found →
            Misses gate.now key self.old.seat self.new.seat) }
        ensures are { ArePinned W.files self.new }
    {
        if let Err(busy) = self.release_hand(gate, waiter) {
            return Err(PinError::Busy(busy));
        }
        self.pin(gate, waiter, key)
    }
}
