//! The microcache: the two tiles that a pass read last.
ghost use Rattle.std.specs.Prelude.{◌≡◌, ◌⊎◌, ◌↔◌, ◌+◌, [], length, true, false, None};
ghost use Rattle.std.specs.Prelude.{IsTrue, IsFalse, IsSome, IsSomeAnd, IfSome, OnOk};
ghost use Rattle.micro.specs.Items.{HasKey};
ghost use Rattle.micro.specs.Runs.{IsAsked};
ghost use Rattle.tile_store.specs.Lawful.{FitsCut};
ghost use Rattle.shard_gate.specs.Since.{PurgesNone};
ghost use Rattle.pinned_tiles.specs.Pinned.{key_in, ArePinned, PinsAt, KeepsHolds, AsksFor};
ghost use Rattle.pinned_tiles.specs.Pinned.{LeavesPart, tiles_in};
ghost use Rattle.pinned_tiles.specs.Pinned.{StaysAskedFor};
ghost use Rattle.pinned_tiles.specs.Cell.{is_tile_of, has_cell, HasFirst, StandsFirst};

use crate::cell::{CellAt, is_tile_of};
use crate::pinned::Pinned;
use crate::recent_tile::RecentTile;
use shard_gate::Gate;
use tex_world::World;
use tile_layout::TileKey;
use tile_store::Tile;
use waiter::Waiter;

impl<W: World> Pinned<W> {
    /// Whether the microcache has a tile of the key. If so, moves it to the front.
    pub fn find(&mut self, key: TileKey) -> bool
        ensures some { IsTrue result → IsAsked key_in self.old.recent key true self.new.recent }
        ensures none { IsFalse result →
            (¬ HasKey key_in key self.old.recent) × (self.new.recent ≡ self.old.recent) }
        ensures latest { IsTrue result → AsksFor key self.old.recent self.new.recent }
        ensures first { IsTrue result → HasFirst key self.new.recent }
        ensures hand { self.new.hand ≡ self.old.hand }
        ensures seat { self.new.seat ≡ self.old.seat }
        ensures same { KeepsHolds self.old self.new }
        ensures are { ArePinned W.files self.new }
    {
        self.recent.find(key)
    }

    /// The tile of a cell, if the microcache has it.
    pub fn tile_of(&self, cell: &CellAt) -> Option<&Tile<W>>
        ensures some { IsSome result ↔ IsTrue (has_cell cell.now self.now.recent) }
        ensures has { IsSome result → HasKey key_in cell.now.key self.now.recent }
        ensures keyed { IfSome result (λ tile. tile.now.key ≡ cell.now.key) }
        ensures of_cell { IfSome result (λ tile. IsTrue (is_tile_of cell.now tile.now)) }
        ensures fits { IfSome result (λ tile. FitsCut W.files self.now.cut tile.now) }
    {
        match self.recent.peek(cell.key) {
            Some(recent) if is_tile_of(recent.tile(), cell) => Some(recent.tile()),
            _ => None,
        }
    }

    /// Whether the microcache has the tile of the cell. If so, moves it to the front; otherwise
    /// nothing changes.
    #[inline(always)]
    pub fn turn_to(&mut self, cell: &CellAt) -> bool
        ensures has { result ≡ has_cell cell.now self.old.recent }
        ensures asked { IsTrue result →
            IsAsked key_in self.old.recent cell.now.key true self.new.recent }
        ensures latest { IsTrue result → AsksFor cell.now.key self.old.recent self.new.recent }
        ensures first { IsTrue result → StandsFirst cell.now self.new.recent }
        ensures again { IsTrue result → StaysAskedFor cell.now.key self.new.recent }
        ensures none { IsFalse result → self.new ≡ self.old }
        // The state after the call.
        ensures kept { (self.new.seat ≡ self.old.seat) × (self.new.hand ≡ self.old.hand) }
        ensures same { KeepsHolds self.old self.new }
        ensures are { ArePinned W.files self.new }
    {
        // needed by the proof: the two tiles have different keys
        let _ = self.recent.has(cell.key);
        // usually it is the first already
        if self.is_latest(cell) {
            return true;
        }
        if !self.is_behind(cell) {
            return false;
        }
        self.find(cell.key);
        true
    }

    /// The tile of the cell, which must be the first of the microcache.
    #[inline(always)]
    pub fn latest(&self, cell: &CellAt) -> &Tile<W>
        requires { StandsFirst cell.now self.now.recent }
        ensures keyed { result.now.key ≡ cell.now.key }
        ensures of_cell { IsTrue (is_tile_of cell.now result.now) }
    {
        match self.recent.first() {
            Some(recent) => recent.tile(),
            None => unreachable!(),
        }
    }

    /// Whether the first tile of the microcache is the tile of the cell.
    #[inline(always)]
    pub fn is_latest(&self, cell: &CellAt) -> bool
        ensures { IsTrue result ↔ StandsFirst cell.now self.now.recent }
    {
        match self.recent.first() {
            Some(recent) => recent.tile().key() == cell.key && is_tile_of(recent.tile(), cell),
            None => false,
        }
    }

    /// Whether the second tile of the microcache is the tile of the cell. The first must not be.
    fn is_behind(&self, cell: &CellAt) -> bool
        requires { ¬ StandsFirst cell.now self.now.recent }
        ensures value { IsTrue result ↔ IsTrue (has_cell cell.now self.now.recent) }
        ensures has { IsTrue result → HasKey key_in cell.now.key self.now.recent }
    {
        // needed by the proof: the two tiles have different keys
        let _ = self.recent.has(cell.key);
        match self.recent.second() {
            Some(recent) => recent.tile().key() == cell.key && is_tile_of(recent.tile(), cell),
            None => false,
        }
    }

    /// Whether the microcache has the tile of the cell.
    pub fn has(&self, cell: &CellAt) -> bool
        ensures { result ≡ has_cell cell.now self.now.recent }
    {
        self.tile_of(cell).is_some()
    }

    /// Puts the tile in hand, which has this key, first in the microcache. If two were there, the
    /// second leaves.
    pub fn place<V: Waiter>(&mut self, gate: &Gate<W>, waiter: &V, key: TileKey)
        requires gate { PinsAt gate.now self.old }
        requires hand { IsSomeAnd self.old.hand (λ t. t.key ≡ key) }
        requires absent { ¬ HasKey key_in key self.old.recent }
        ensures asked { IsAsked key_in self.old.recent key false self.new.recent }
        ensures latest { AsksFor key self.old.recent self.new.recent }
        ensures first { HasFirst key self.new.recent }
        ensures hand { (self.new.hand ≡ None) ⊎ V.Busy }
        ensures same { KeepsHolds self.old self.new }
        ensures visits { PurgesNone gate.now self.old.seat self.new.seat }
        ensures are { ArePinned W.files self.new }
    {
        self.move_in(key);
        // if the waiter gives up, the tile that leaves stays in hand
        self.try_hand(gate, waiter);
    }

    /// Moves the tile in hand, which has this key, to the front of the microcache. The tile that
    /// leaves is then in hand.
    fn move_in(&mut self, key: TileKey)
        requires hand { IsSomeAnd self.old.hand (λ t. t.key ≡ key) }
        requires absent { ¬ HasKey key_in key self.old.recent }
        ensures asked { IsAsked key_in self.old.recent key false self.new.recent }
        ensures latest { AsksFor key self.old.recent self.new.recent }
        ensures first { HasFirst key self.new.recent }
        ensures seat { self.new.seat ≡ self.old.seat }
        ensures same { KeepsHolds self.old self.new }
    {
        let Some(pin) = self.hand.take() else {
            unreachable!()
        };
        if let Some(left) = self.recent.place(RecentTile { pin }) {
            self.hand = Some(left.into_pin());
        }
    }

    /// Gives back the pins of the microcache and of the tile in hand.
    pub fn release_recent<V: Waiter>(&mut self, gate: &Gate<W>, waiter: &V) -> Result<(), V::Busy>
        requires gate { PinsAt gate.now self.old }
        ensures hand { OnOk result (self.new.hand ≡ None) }
        ensures recent { OnOk result (self.new.recent ≡ []) }
        ensures part { LeavesPart self.old self.new }
        ensures same { KeepsHolds self.old self.new }
        ensures visits { PurgesNone gate.now self.old.seat self.new.seat }
        ensures are { ArePinned W.files self.new }
    {
        self.release_hand(gate, waiter)?;
        'tiles: while self.take_recent() {
            self.release_hand(gate, waiter)?;
        }
        Ok(())
    }

    /// Takes the last tile of the microcache in hand. False if none exists.
    fn take_recent(&mut self) -> bool
        requires hand { self.old.hand ≡ None }
        ensures some { IsTrue result → length self.old.recent ≡ length self.new.recent + 1 }
        ensures none { IsFalse result → (self.new.recent ≡ []) × (self.new.hand ≡ None) }
        ensures tiles { tiles_in self.new ≡ tiles_in self.old }
        ensures seat { self.new.seat ≡ self.old.seat }
        ensures same { KeepsHolds self.old self.new }
        ensures are { ArePinned W.files self.new }
    {
        match self.recent.take_last() {
            Some(last) => {
                self.hand = Some(last.into_pin());
                true
            }
            None => false,
        }
    }
}
