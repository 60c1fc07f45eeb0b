//! A shard: the tiles that one lock guards.
ghost use Rattle.std.specs.Prelude.{◌≡◌, ℕ, ◌+◌, ◌<◌, ◌≤◌, ◌^◌, [], length, option_map, None};
ghost use Rattle.std.specs.Prelude.{OnOk, OnErr, IfOk, IfSome, IsTrue, ◌↔◌};
ghost use Rattle.std.specs.Arc.{arc_value};
ghost use Rattle.tile_store.specs.CachedTile.{entry_at, tile_at, HasPin, pin_sum, loose_bytes};
ghost use Rattle.tile_store.specs.CachedTile.{pinned_count, AreEntries};
ghost use Rattle.tile_store.specs.Changes.{pinned_first, inserted, unpinned_once};
ghost use Rattle.tile_store.specs.Changes.{kept_within, without_stale, with_pin, KeepsPinned, IsKept};
ghost use Rattle.tile_store.specs.Keys.{slot_of};
ghost use Rattle.tile_store.specs.Slots.{empty_shard, AreInSlots, SameSlots, SlotsAfterInsert};
ghost use Rattle.tile_store.specs.Slots.{FillsSlot, EmptiesSlots, TellsSlot};
ghost use Rattle.tile_store.specs.Tag.{share_in_tag};
ghost use Rattle.tile_store.specs.Lawful.{FitsTag, Lawful, KeepsLawful, KeepsLawfulFor};

use crate::entry::{CachedTile, another, owned};
use crate::evict::{evict_past, make_room};
use crate::marks::Marks;
use crate::order::Order;
use crate::purge::purge;
use crate::tile::Tile;
use std::alloc::Global;
use std::marker::Model;
use std::sync::Arc;
use tex_world::{NoMemory, World};
use tile_layout::TileKey;

/// Tiles in the order of their last use, each with its pins, in fixed slots. Clauses see the
/// entries by key, the most recently used first, the key of each slot, and the slots that were
/// emptied and not yet reported.
///
/// A pinned tile stays. Which others stay depends on the bytes that unpinned tiles may take.
#[derive(Drop)]
pub struct Shard<W: World> {
    alloc: Global,
    order: Order<W>,
    marks: Marks,
    pins: u32,
    loose: u64,
}

impl<W: World> Model for Shard<W> {
    ghost use Rattle.tile_store.specs.Slots.{ShardState};
    ghost use Rattle.tile_store.specs.Inside.{IsShard};

    ghost Value = { ShardState };

    ghost view = { λ s. s.order };

    ghost invariant = { λ s. IsShard s.order.entries s.marks s.pins s.loose };
}

impl<W: World> Shard<W> {
    /// A shard without tiles and with `slots` slots. Allocates the memory for all its entries.
    pub fn with_slots(alloc: Global, slots: u32) -> Result<Shard<W>, NoMemory>
        ensures value { IfOk result (λ shard. shard ≡ empty_shard slots) }
        ensures lawful { IfOk result (λ shard. (tag : ℕ) → Lawful W.files tag shard.entries) }
    {
        Ok(Shard {
            alloc,
            order: Order::with_slots(alloc, slots)?,
            marks: Marks::new(alloc)?,
            pins: 0,
            loose: 0,
        })
    }

    /// Pins the tile of a key and moves it to the front. `None`, and no change, if it is not there.
    pub fn find_pin(&mut self, key: TileKey) -> Result<Option<Arc<Tile<W>>>, NoMemory>
        requires { pin_sum self.old.entries + 1 < 2 ^ 32 }
        // `None` if and only if no entry has the key; otherwise the entry's tile.
        ensures found { IfOk result (λ tile.
            option_map arc_value tile ≡ tile_at key self.old.entries) }
        ensures keyed { IfOk result (λ tile. IfSome tile (λ t. (arc_value t).key ≡ key)) }
        // The state after the call.
        ensures entries { OnOk result (self.new.entries ≡ pinned_first key self.old.entries) }
        ensures slots { SameSlots self.old self.new }
        ensures err { OnErr result (self.new ≡ self.old) }
        ensures lawful { KeepsLawful W.files self.old.entries self.new.entries }
    {
        let Some(entry) = self.order.peek(key) else {
            return Ok(None);
        };
        let tile = entry.shared()?;
        self.loose -= self.order.pin(key);
        self.pins += 1;
        // needed by the proof: keys are distinct
        let _ = self.order.len();
        Ok(Some(tile))
    }

    /// Adds a tile with one pin. If an entry has its key already, that one is pinned and the new
    /// tile is dropped. If all slots are taken, the least recently used unpinned tile leaves.
    pub fn insert_pin(&mut self, tile: Tile<W>, slots: usize) -> Result<Arc<Tile<W>>, NoMemory>
        requires slots { slots ≡ length self.old.slots }
        requires left { self.old.left ≡ [] }
        requires room { pinned_count self.old.entries < slots }
        requires pins { pin_sum self.old.entries + 1 < 2 ^ 32 }
        ensures kept { IfOk result (λ kept. IsKept tile self.old.entries (arc_value kept)) }
        // The state after the call.
        ensures entries { OnOk result (self.new.entries ≡ inserted tile slots self.old.entries) }
        ensures pinned { OnOk result
            (KeepsPinned (with_pin tile self.old.entries) self.new.entries) }
        ensures slots { OnOk result (SlotsAfterInsert tile.key self.old self.new) }
        ensures err { OnErr result (self.new ≡ self.old) }
        ensures lawful { KeepsLawfulFor W.files (FitsTag W.files tile)
            self.old.entries self.new.entries }
    {
        match self.find_pin(tile.key())? {
            Some(kept) => Ok(kept),
            None => self.insert_new(tile),
        }
    }

    /// Adds a tile whose key has no entry, with one pin.
    fn insert_new(&mut self, tile: Tile<W>) -> Result<Arc<Tile<W>>, NoMemory>
        requires absent { entry_at tile.key self.old.entries ≡ None }
        requires left { self.old.left ≡ [] }
        requires room { pinned_count self.old.entries < length self.old.slots }
        requires pins { pin_sum self.old.entries + 1 < 2 ^ 32 }
        ensures kept { IfOk result (λ kept. arc_value kept ≡ tile) }
        ensures entries { OnOk result
            (self.new.entries ≡ inserted tile (length self.old.slots) self.old.entries) }
        ensures pinned { OnOk result
            (KeepsPinned (with_pin tile self.old.entries) self.new.entries) }
        ensures slots { OnOk result (FillsSlot tile.key self.old self.new) }
        ensures err { OnErr result (self.new ≡ self.old) }
        ensures lawful { KeepsLawfulFor W.files (FitsTag W.files tile)
            self.old.entries self.new.entries }
    {
        // needed by the proof: bounds the bytes of the tile
        let key = tile.key();
        let kept = owned(self.alloc, tile)?;
        let entry = CachedTile::pinned(another(&kept)?);
        self.loose -= make_room(&mut self.order);
        let _ = self.order.put(entry);
        self.marks.mark(key);
        self.pins += 1;
        // needed by the proof: keys are distinct
        let _ = self.order.len();
        Ok(kept)
    }

    /// Takes a pin from the tile of a key. Then unpinned tiles leave, the least recently used
    /// first, until the others fit the share.
    pub fn release(&mut self, key: TileKey, share: u64)
        requires { HasPin key self.old.entries }
        ensures entries { self.new.entries
            ≡ kept_within share (unpinned_once key self.old.entries) }
        ensures pinned { KeepsPinned (unpinned_once key self.old.entries) self.new.entries }
        ensures slots { EmptiesSlots self.old self.new }
        ensures within { loose_bytes self.new.entries ≤ share }
        ensures lawful { KeepsLawfulFor W.files (λ tag. share_in_tag tag ≡ share)
            self.old.entries self.new.entries }
    {
        let loose = self.loose + self.order.unpin(key);
        self.pins -= 1;
        self.loose = evict_past(&mut self.order, loose, share);
        // needed by the proof: keys are distinct
        let _ = self.order.len();
    }

    /// Removes the file's unpinned tiles whose generation is below the bound, and no others.
    pub fn purge(&mut self, file: u32, below: u32)
        ensures entries { self.new.entries ≡ without_stale file below self.old.entries }
        ensures pinned { KeepsPinned self.old.entries self.new.entries }
        ensures slots { EmptiesSlots self.old self.new }
        ensures lawful { KeepsLawful W.files self.old.entries self.new.entries }
    {
        // a file without a mark has no tile here
        if self.marks.has(file) {
            self.purge_marked(file, below);
        }
    }

    /// Purges a file that may have tiles. It keeps its mark if one of them stays.
    fn purge_marked(&mut self, file: u32, below: u32)
        ensures entries { self.new.entries ≡ without_stale file below self.old.entries }
        ensures pinned { KeepsPinned self.old.entries self.new.entries }
        ensures slots { EmptiesSlots self.old self.new }
        ensures lawful { KeepsLawful W.files self.old.entries self.new.entries }
    {
        self.loose -= purge(&mut self.order, file, below);
        let stays = self.order.has_file(file);
        self.marks.keep(file, stays);
        // needed by the proof: keys are distinct
        let _ = self.order.len();
    }

    /// Whether the tile of a key is there and pinned.
    pub fn is_pinned(&self, key: TileKey) -> bool
        ensures value { IsTrue result ↔ HasPin key self.now.entries }
    {
        match self.order.peek(key) {
            Some(entry) => entry.is_pinned(),
            None => false,
        }
    }

    /// The slot of a key. An entry keeps its slot until it leaves.
    pub fn slot_of(&self, key: TileKey) -> Option<u32>
        ensures value { result ≡ slot_of key self.now.slots }
    {
        self.order.slot(key)
    }

    /// Reports the next slot that `release` or `purge` emptied. Each is reported once.
    pub fn left(&mut self) -> Option<u32>
        ensures told { TellsSlot result self.old self.new }
    {
        self.order.tell()
    }

    /// The number of slots.
    pub fn slots(&self) -> u32
        ensures value { result ≡ length self.now.slots }
    {
        self.order.slots()
    }

    /// The number of tiles.
    pub fn tiles(&self) -> u32
        ensures value { result ≡ length self.now.entries }
        ensures valid { AreEntries self.now.entries }
        ensures slots { AreInSlots self.now }
    {
        self.order.len() as u32
    }

    /// The sum of all pins, which is at least the number of pinned tiles.
    pub fn pins(&self) -> u32
        ensures value { result ≡ pin_sum self.now.entries }
        ensures pinned { pinned_count self.now.entries ≤ result }
    {
        self.pins
    }

    /// The bytes of the unpinned tiles.
    pub fn loose(&self) -> u64
        ensures value { result ≡ loose_bytes self.now.entries }
    {
        self.loose
    }
}
