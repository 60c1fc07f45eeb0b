//! A hash table from keys to slots.
ghost use Rattle.std.specs.Prelude.{◌≡◌, ℕ, ◌+◌, ◌<◌, ◌^◌, length, replicate, nat_eq, cond};
ghost use Rattle.std.specs.Prelude.{IfOk, IfSome, Some, None};
ghost use Rattle.tile_store.specs.Keys.{key_in, slot_of, keyed_at, without_key, is_key, AreApart};
ghost use Rattle.tile_store.specs.Keys.{chains_for, chain_of, AreChains, IsBefore};

use crate::links::all_at;
use std::alloc::Global;
use std::marker::Model;
use tex_world::NoMemory;
use tile_layout::TileKey;

/// The keys of a fixed number of slots, some of which have none. Clauses see the list of keys.
#[derive(Drop)]
pub struct Keys {
    keys: Vec<Option<TileKey>>,
    // For each slot, the next slot of its chain; after these, the first slot of each chain. A chain
    // ends with the number of slots.
    next: Vec<u32>,
    slots: u32,
}

impl Model for Keys {
    ghost use Rattle.std.specs.Prelude.{ℕ, List, Option};
    ghost use Rattle.tile_store.specs.Keys.{AreChains};

    ghost Value = { List (Option ℕ) };

    ghost view = { λ k. k.keys.items };

    ghost invariant = { λ k. AreChains k.keys.items k.next.items k.slots };
}

impl Keys {
    /// A table of `slots` slots without keys.
    pub(crate) fn new(alloc: Global, slots: u32) -> Result<Keys, NoMemory>
        ensures { IfOk result (λ keys. keys ≡ replicate slots None) }
    {
        Ok(Keys {
            keys: none_yet(alloc, slots)?,
            next: all_at(alloc, slots, slots as usize + chains_for(slots))?,
            slots,
        })
    }

    /// The slot of a key.
    pub(crate) fn find(&self, key: TileKey) -> Option<u32>
        ensures value { result ≡ slot_of key self.now }
        ensures low { IfSome result (λ slot. slot < length self.now) }
    {
        let slot = self.next[before(&self.keys, &self.next, self.slots, key)];
        if slot == self.slots { None } else { Some(slot) }
    }

    /// Gives a slot a key.
    pub(crate) fn put(&mut self, key: TileKey, slot: u32)
        requires missing { slot_of key self.old ≡ None }
        requires low { slot < length self.old }
        requires free { key_in self.old slot ≡ None }
        ensures keys { self.new ≡ keyed_at slot key self.old }
        ensures slots { (k : ℕ) → slot_of k self.new
            ≡ cond (nat_eq key k) (Some slot) (slot_of k self.old) }
        ensures apart { AreApart self.new }
    {
        let head = self.slots as usize + chain_of(key, chains_for(self.slots));
        self.next[slot as usize] = self.next[head];
        self.next[head] = slot;
        self.keys[slot as usize] = Some(key);
    }

    /// Takes the key from its slot, and returns the slot.
    pub(crate) fn take(&mut self, key: TileKey) -> Option<u32>
        ensures value { result ≡ slot_of key self.old }
        ensures low { IfSome result (λ slot. slot < length self.old) }
        ensures keys { self.new ≡ without_key key self.old }
        ensures slots { (k : ℕ) → slot_of k self.new
            ≡ cond (nat_eq key k) None (slot_of k self.old) }
        ensures apart { AreApart self.new }
    {
        let node = before(&self.keys, &self.next, self.slots, key);
        let slot = self.next[node];
        if slot == self.slots {
            return None;
        }
        self.next[node] = self.next[slot as usize];
        self.keys[slot as usize] = None;
        Some(slot)
    }
}

/// The number of chains for this number of slots.
fn chains_for(slots: u32) -> usize
    ensures { result ≡ chains_for slots }
{
    2 * slots as usize + 1
}

/// An odd number near 2^64 divided by the golden ratio. It spreads neighbouring keys over the
/// chains.
const SPREAD: u64 = 0x9e37_79b9_7f4a_7c15;

/// The chain of a key.
#[tactic(auto, unfolding(crate::specs::Keys::chain_of))]
fn chain_of(key: TileKey, chains: usize) -> usize
    requires some { 0 < chains }
    requires few { chains < 2 ^ 33 }
    ensures value { result ≡ chain_of chains key }
    ensures low { result < chains }
{
    let spread = key.number().wrapping_mul(SPREAD) >> 33;
    (spread as usize * chains) >> 31
}

/// The node before the key's slot in the key's chain, or the last node if the key is not there.
fn before(keys: &[Option<TileKey>], next: &[u32], slots: u32, key: TileKey) -> usize
    requires { AreChains keys.now next.now slots }
    ensures before { IsBefore keys.now next.now slots key result }
    ensures low { result < length next.now }
{
    let mut node = slots as usize + chain_of(key, chains_for(slots));
    'along: for _step in 0..slots {
        let slot = next[node];
        if slot == slots || is_key(keys[slot as usize], key) {
            return node;
        }
        node = slot as usize;
    }
    node
}

/// A list of `slots` empty places.
pub(crate) fn none_yet<X: Drop>(alloc: Global, slots: u32) -> Result<Vec<Option<X>>, NoMemory>
    ensures { IfOk result (λ made. made.items ≡ replicate slots None) }
{
    let mut made = Vec::with_capacity(alloc, slots as usize)?;
    for _slot in 0..slots {
        made.push_reserved(None);
    }
    Ok(made)
}

/// Whether a slot has this key.
fn is_key(of_slot: Option<TileKey>, key: TileKey) -> bool
    ensures { result ≡ is_key key of_slot }
{
    match of_slot {
        Some(other) => key == other,
        None => false,
    }
}
