//! The entries of a shard in fixed slots, found by key, in the order of their last use.
ghost use Rattle.std.specs.Prelude.{◌≡◌, ◌+◌, ◌<◌, ◌≤◌, ◌^◌, ◌==◌, [], length, nat_eq};
ghost use Rattle.std.specs.Prelude.{◌∷◌, IfOk, IfSome, None, IsNone, IsFalse, false, option_map};
ghost use Rattle.std.specs.Option.{option_copied};
ghost use Rattle.std.specs.Map.{keys_of, remove_entry};
ghost use Rattle.std.specs.List.{All, IsDistinct, list_any};
ghost use Rattle.tile_layout.specs.Key.{file_of};
ghost use Rattle.tile_store.specs.Marks.{IsOfOther};
ghost use Rattle.std.specs.Vec.{vec_capacity};
ghost use Rattle.tile_store.specs.Tile.{tile_bytes};
ghost use Rattle.tile_store.specs.CachedTile.{entry_at, unpinned_at, is_unpinned, HasPin};
ghost use Rattle.tile_store.specs.Changes.{pinned_first, unpinned_once};
ghost use Rattle.tile_store.specs.Inside.{CanPin};
ghost use Rattle.tile_store.specs.Links.{last_of};
ghost use Rattle.tile_store.specs.Keys.{slot_of, keyed_at};
ghost use Rattle.tile_store.specs.Slots.{empty_shard, AreInSlots, SameSlots, LosesKey, TellsSlot};
ghost use Rattle.tile_store.specs.Order.{below};
ghost use Rattle.tile_store.specs.Leaving.{last_entry, promoted, IsLastUnpinned};

use crate::entry::CachedTile;
use crate::keys::{Keys, none_yet};
use crate::links::Links;
use std::alloc::Global;
use std::marker::Model;
use tex_world::{NoMemory, World};
use tile_layout::TileKey;

/// Entries in fixed slots, found by key. Clauses see the entries, the most recently used first, the
/// key of each slot, and the slots that were emptied and not yet reported.
#[derive(Drop)]
pub struct Order<W: World> {
    slots: Vec<Option<CachedTile<W>>>,
    // The slots without an entry. The first `told` of them have been reported.
    free: Vec<u32>,
    told: usize,
    keys: Keys,
    links: Links,
}

impl<W: World> Model for Order<W> {
    ghost use Rattle.std.specs.Prelude.{drop};
    ghost use Rattle.std.specs.Vec.{vec_capacity};
    ghost use Rattle.tile_store.specs.Slots.{ShardState};
    ghost use Rattle.tile_store.specs.Order.{entries_of, IsOrdered};

    ghost Value = { ShardState };

    ghost view = { λ o. record {
      entries = entries_of o.slots.items o.links.order;
      slots = o.keys;
      left = drop o.told o.free.items;
    } };

    ghost invariant = { λ o.
        IsOrdered o.slots.items o.free.items (vec_capacity o.free) o.told o.keys o.links };
}

impl<W: World> Order<W> {
    /// `slots` slots without an entry.
    pub(crate) fn with_slots(alloc: Global, slots: u32) -> Result<Order<W>, NoMemory>
        ensures { IfOk result (λ order. order ≡ empty_shard slots) }
    {
        Ok(Order {
            slots: none_yet(alloc, slots)?,
            free: all_free(alloc, slots)?,
            told: slots as usize,
            keys: Keys::new(alloc, slots)?,
            links: Links::new(alloc, slots)?,
        })
    }

    /// The number of slots.
    pub(crate) fn slots(&self) -> u32
        ensures { result ≡ length self.now.slots }
    {
        self.links.places()
    }

    /// The number of entries.
    pub(crate) fn len(&self) -> usize
        ensures len { result ≡ length self.now.entries }
        ensures most { length self.now.entries ≤ length self.now.slots }
        ensures valid { IsDistinct nat_eq (keys_of self.now.entries) }
        ensures few { length self.now.slots < 2 ^ 32 }
        ensures slots { AreInSlots self.now }
    {
        self.links.len() as usize
    }

    /// The slot of a key.
    pub(crate) fn slot(&self, key: TileKey) -> Option<u32>
        ensures { result ≡ slot_of key self.now.slots }
    {
        self.keys.find(key)
    }

    /// Reports the next slot that was emptied. Each is reported once.
    pub(crate) fn tell(&mut self) -> Option<u32>
        ensures { TellsSlot result self.old self.new }
    {
        if self.told == self.free.len() {
            return None;
        }
        let slot = self.free[self.told];
        self.told += 1;
        Some(slot)
    }

    /// The entry of a key.
    pub(crate) fn peek(&self, key: TileKey) -> Option<&CachedTile<W>>
        ensures { option_copied result ≡ entry_at key self.now.entries }
    {
        match self.keys.find(key) {
            Some(slot) => self.slots[slot as usize].as_ref(),
            None => None,
        }
    }

    /// Whether an entry belongs to this file.
    pub(crate) fn has_file(&self, file: u32) -> bool
        ensures { IsFalse result → All (IsOfOther file) self.now.entries }
    {
        'slots: for slot in 0..self.slots.len() {
            if is_of(&self.slots[slot], file) {
                return true;
            }
        }
        false
    }

    /// Adds a pin to the entry of a key, and moves it to the front. Returns its bytes if it had no
    /// pin.
    pub(crate) fn pin(&mut self, key: TileKey) -> u64
        requires { CanPin key self.old.entries }
        ensures entries { self.new.entries ≡ pinned_first key self.old.entries }
        ensures slots { SameSlots self.old self.new }
        ensures bytes { result ≡ unpinned_at key self.old.entries }
    {
        let Some(slot) = self.keys.find(key) else {
            return 0;
        };
        // needed by the proof: no slot is in the order twice
        let _ = self.links.len();
        let Some(entry) = &mut self.slots[slot as usize] else {
            return 0;
        };
        let bytes = entry.unpinned_bytes();
        entry.pin();
        self.links.to_front(slot);
        bytes
    }

    /// Takes a pin from the entry of a key. Returns its bytes if it has no pin left.
    pub(crate) fn unpin(&mut self, key: TileKey) -> u64
        requires { HasPin key self.old.entries }
        ensures entries { self.new.entries ≡ unpinned_once key self.old.entries }
        ensures slots { SameSlots self.old self.new }
        ensures bytes { result ≡ unpinned_at key self.new.entries }
    {
        let Some(slot) = self.keys.find(key) else {
            return 0;
        };
        // needed by the proof: no slot is in the order twice
        let _ = self.links.len();
        let Some(entry) = &mut self.slots[slot as usize] else {
            return 0;
        };
        entry.unpin();
        entry.unpinned_bytes()
    }

    /// Adds an entry at the front, in the slot that was emptied last. All free slots then count as
    /// reported. Returns the slot.
    pub(crate) fn put(&mut self, entry: CachedTile<W>) -> u32
        requires absent { entry_at entry.tile.key self.old.entries ≡ None }
        requires free { length self.old.entries < length self.old.slots }
        ensures entries { self.new.entries ≡ (entry.tile.key, entry) ∷ self.old.entries }
        ensures slots { self.new.slots ≡ keyed_at result entry.tile.key self.old.slots }
        ensures last { IfSome (last_of self.old.left) (λ slot. result ≡ slot) }
        ensures left { self.new.left ≡ [] }
    {
        let Some(slot) = self.free.pop() else {
            return 0;
        };
        self.told = self.free.len();
        self.keys.put(entry.key(), slot);
        self.slots[slot as usize] = Some(entry);
        self.links.push_front(slot);
        slot
    }

    /// Removes the entry of a key, if there is one.
    pub(crate) fn pop(&mut self, key: TileKey)
        ensures entries { self.new.entries ≡ remove_entry (nat_eq key) self.old.entries }
        ensures slots { LosesKey key self.old self.new }
    {
        let Some(slot) = self.keys.take(key) else {
            return;
        };
        // needed by the proof: no slot is in the order twice
        let _ = self.links.len();
        self.slots[slot as usize] = None;
        self.free.push_reserved(slot);
        self.links.remove(slot);
    }

    /// Moves the entry of a key to the front, if there is one.
    pub(crate) fn promote(&mut self, key: TileKey)
        ensures entries { self.new.entries ≡ promoted key self.old.entries }
        ensures slots { SameSlots self.old self.new }
    {
        if let Some(slot) = self.keys.find(key) {
            // needed by the proof: no slot is in the order twice
            let _ = self.links.len();
            self.links.to_front(slot);
        }
    }

    /// The last entry.
    pub(crate) fn last(&self) -> Option<&CachedTile<W>>
        ensures { option_map (λ e. (e.now.tile.key, e.now)) result ≡ last_entry self.now.entries }
    {
        match self.links.last() {
            Some(slot) => self.slots[slot as usize].as_ref(),
            None => None,
        }
    }

    /// The last unpinned entry.
    pub(crate) fn last_unpinned(&self) -> Option<Last>
        ensures none { IsNone result → IsFalse (list_any is_unpinned self.now.entries) }
        ensures last { IfSome result (λ last. IsLastUnpinned last.key last.bytes self.now.entries) }
    {
        let mut at = self.links.last();
        'behind: for _step in 0..self.links.len() {
            let slot = at?;
            let Some(entry) = &self.slots[slot as usize] else {
                return None;
            };
            if entry.is_unpinned() {
                return Some(Last::of(entry));
            }
            at = self.links.before(slot);
        }
        None
    }
}

/// The entry that leaves next.
#[derive(Clone, Copy)]
pub(crate) struct Last {
    pub(crate) key: TileKey,
    pub(crate) bytes: u64,
}

impl Last {
    fn of<W: World>(entry: &CachedTile<W>) -> Last
        requires { entry.now.pins ≡ 0 }
        ensures key { result.key ≡ entry.now.tile.key }
        ensures bytes { result.bytes ≡ tile_bytes entry.now.tile }
    {
        Last {
            key: entry.key(),
            bytes: entry.unpinned_bytes(),
        }
    }
}

/// Whether a slot has an entry of this file.
fn is_of<W: World>(slot: &Option<CachedTile<W>>, file: u32) -> bool
    ensures { IsFalse result → IfSome slot.now (λ e. (file_of e.tile.key == file) ≡ false) }
{
    match slot {
        Some(entry) => entry.key().file() == file,
        None => false,
    }
}

/// The numbers of all slots.
fn all_free(alloc: Global, slots: u32) -> Result<Vec<u32>, NoMemory>
    ensures items { IfOk result (λ made. made.items ≡ below slots) }
    ensures room { IfOk result (λ made. vec_capacity made ≡ slots) }
{
    let mut made = Vec::with_capacity(alloc, slots as usize)?;
    for slot in 0..slots {
        made.push_reserved(slot);
    }
    Ok(made)
}
