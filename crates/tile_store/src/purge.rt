//! Purges entries of replaced generations.
ghost use Rattle.std.specs.Prelude.{◌≡◌, ◌+◌, ◌<◌, ◌^◌, length};
ghost use Rattle.tile_store.specs.CachedTile.{loose_bytes};
ghost use Rattle.tile_store.specs.Changes.{without_stale};
ghost use Rattle.tile_store.specs.Leaving.{turned};
ghost use Rattle.tile_store.specs.Slots.{EmptiesSlots};

use crate::order::Order;
use tex_world::World;

/// Removes the file's unpinned entries whose generation is below the bound. Returns their bytes.
pub(crate) fn purge<W: World>(order: &mut Order<W>, file: u32, below: u32) -> u64
    requires { loose_bytes order.old.entries < 2 ^ 64 }
    ensures entries { order.new.entries ≡ without_stale file below order.old.entries }
    ensures slots { EmptiesSlots order.old order.new }
    ensures bytes { loose_bytes order.new.entries + result ≡ loose_bytes order.old.entries }
{
    let mut bytes = 0;
    'around: for _turn in 0..order.len() {
        bytes += take_or_turn(order, file, below);
    }
    bytes
}

/// Removes the last entry if it is stale, and otherwise moves it to the front. Returns the bytes
/// removed.
fn take_or_turn<W: World>(order: &mut Order<W>, file: u32, below: u32) -> u64
    requires { 0 < length order.old.entries }
    ensures entries { order.new.entries ≡ turned file below order.old.entries }
    ensures slots { EmptiesSlots order.old order.new }
    ensures bytes { loose_bytes order.new.entries + result ≡ loose_bytes order.old.entries }
{
    // needed by the proof: keys are distinct, so the entry of the last key is the last one
    let _ = order.len();
    let Some(entry) = order.last() else {
        return 0;
    };
    let key = entry.key();
    let bytes = entry.unpinned_bytes();
    if entry.is_stale(file, below) {
        order.pop(key);
        bytes
    } else {
        order.promote(key);
        0
    }
}
