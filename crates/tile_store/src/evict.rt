//! Evicts unpinned entries, the least recently used first.
ghost use Rattle.std.specs.Prelude.{◌≡◌, ◌+◌, ◌<◌, ◌≤◌, length, IsTrue};
ghost use Rattle.std.specs.List.{list_any};
ghost use Rattle.tile_store.specs.CachedTile.{is_unpinned, pinned_count, loose_bytes};
ghost use Rattle.tile_store.specs.Changes.{without_last_unpinned, with_room, kept_within};
ghost use Rattle.tile_store.specs.Slots.{EmptiesSlots};
ghost use Rattle.tile_store.specs.Order.{Evicts, MakesRoom};

use crate::order::Order;
use tex_world::World;

/// Evicts the least recently used unpinned entry. Returns its bytes.
fn evict<W: World>(order: &mut Order<W>) -> u64
    requires { IsTrue (list_any is_unpinned order.old.entries) }
    ensures entries { order.new.entries ≡ without_last_unpinned order.old.entries }
    ensures slots { Evicts order.old order.new }
    ensures bytes { loose_bytes order.new.entries + result ≡ loose_bytes order.old.entries }
{
    // needed by the proof: keys are distinct, so exactly one entry leaves
    let _ = order.len();
    match order.last_unpinned() {
        Some(last) => {
            order.pop(last.key);
            last.bytes
        }
        None => 0,
    }
}

/// Makes a slot free: if all are taken, the least recently used unpinned entry leaves. Returns its
/// bytes.
pub(crate) fn make_room<W: World>(order: &mut Order<W>) -> u64
    requires { pinned_count order.old.entries < length order.old.slots }
    ensures entries { order.new.entries
        ≡ with_room (length order.old.slots) order.old.entries }
    ensures free { length order.new.entries < length order.new.slots }
    ensures slots { MakesRoom order.old order.new }
    ensures bytes { loose_bytes order.new.entries + result ≡ loose_bytes order.old.entries }
{
    if order.len() < order.slots() as usize {
        0
    } else {
        evict(order)
    }
}

/// Evicts unpinned entries, the least recently used first, until the others fit the share. Returns
/// the bytes of the unpinned entries that stay.
pub(crate) fn evict_past<W: World>(order: &mut Order<W>, loose: u64, share: u64) -> u64
    requires { loose ≡ loose_bytes order.old.entries }
    ensures entries { order.new.entries ≡ kept_within share order.old.entries }
    ensures slots { EmptiesSlots order.old order.new }
    ensures loose { result ≡ loose_bytes order.new.entries }
    ensures within { result ≤ share }
{
    let mut left = loose;
    'evicting: while left > share {
        left -= evict(order);
    }
    left
}
