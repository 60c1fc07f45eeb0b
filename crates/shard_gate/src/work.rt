//! The work on the tiles of one shard while it is locked.
ghost use Rattle.std.specs.Prelude.{◌≡◌, ◌+◌, ◌^◌, ◌<◌, [], length, option_map, Some, IsSome};
ghost use Rattle.std.specs.Prelude.{IfOk, IfSome, IfNone, OnOk, OnErr, ⊤};
ghost use Rattle.std.specs.Arc.{arc_value};
ghost use Rattle.tile_store.specs.CachedTile.{entry_at, tile_at, HasPin, pin_sum};
ghost use Rattle.tile_store.specs.Changes.{pinned_first, inserted, kept_tile, without_stale};
ghost use Rattle.tile_store.specs.Keys.{slot_of};
ghost use Rattle.tile_store.specs.Slots.{AreInSlots};
ghost use Rattle.tile_store.specs.Tag.{share_in_tag};
ghost use Rattle.tile_store.specs.Lawful.{FitsTag};
ghost use Rattle.shard_gate.specs.Words.{unpinned_words};
ghost use Rattle.shard_gate.specs.Given.{released, IsCountOf};
ghost use Rattle.shard_gate.specs.Home.{words_of, KeepsStored};
ghost use Rattle.shard_gate.specs.Work.{FoundAmong, KeptAmong, HasRoom};
ghost use Rattle.shard_gate.specs.Work.{PinsSlot, InsertsSlot, AreBehind};

use std::sync::Arc;
use tex_world::{NoMemory, World};
use tiff_format::ShardCount;
use tile_layout::TileKey;
use tile_store::{Shard, Tile};

/// The unpinned tiles of a file with a generation below the bound.
#[derive(Clone, Copy)]
pub(crate) struct Stale {
    pub file: u32,
    pub below: u32,
}

/// A pinned tile, and the slot that it is in.
pub(crate) struct InSlot<W: World> {
    pub tile: Arc<Tile<W>>,
    pub slot: u32,
}

/// Pins the tile of a key, if it is there.
pub(crate) fn find_in<W: World>(
    shard: &mut Shard<W>,
    key: TileKey,
) -> Result<Option<InSlot<W>>, NoMemory>
    requires slots { AreInSlots shard.old }
    requires pins { pin_sum shard.old.entries + 1 < 2 ^ 32 }
    // `None` if and only if no entry has the key.
    ensures found { IfOk result (λ found. option_map (λ f. arc_value f.tile) found ≡ tile_at key shard.old.entries) }
    ensures some { FoundAmong (λ f. arc_value f.tile) W.files shard.old.entries key result }
    // The state after the call.
    ensures entries { OnOk result (shard.new.entries ≡ pinned_first key shard.old.entries) }
    ensures words { IfOk result (λ found.
        IfSome found (λ f. PinsSlot key f.slot shard.old shard.new)) }
    ensures none { IfOk result (λ found. IfNone found (shard.new ≡ shard.old)) }
    ensures err { OnErr result (shard.new ≡ shard.old) }
    ensures left { shard.new.left ≡ shard.old.left }
    ensures stored { KeepsStored W.files (λ terms. ⊤) shard.old shard.new }
{
    let found = shard.find_pin(key)?;
    // needed by the proof: each entry is in a slot
    let _ = shard.tiles();
    match found {
        Some(tile) => {
            let slot = slot_in(shard, key);
            Ok(Some(InSlot { tile, slot }))
        }
        None => Ok(None),
    }
}

/// The slot of a key that an entry has.
fn slot_in<W: World>(shard: &Shard<W>, key: TileKey) -> u32
    requires slots { AreInSlots shard.now }
    requires there { IsSome (entry_at key shard.now.entries) }
    ensures value { slot_of key shard.now.slots ≡ Some result }
{
    match shard.slot_of(key) {
        Some(slot) => slot,
        None => unreachable!(),
    }
}

/// Puts a tile into the shard, pinned.
pub(crate) fn insert_in<W: World>(
    shard: &mut Shard<W>,
    tile: Tile<W>,
) -> Result<InSlot<W>, NoMemory>
    requires slots { AreInSlots shard.old }
    requires left { shard.old.left ≡ [] }
    requires room { HasRoom shard.old }
    ensures kept { IfOk result (λ kept. arc_value kept.tile ≡ kept_tile tile shard.old.entries) }
    ensures ok { KeptAmong (λ f. arc_value f.tile) W.files shard.old.entries tile result }
    // The state after the call.
    ensures entries { OnOk result (shard.new.entries
        ≡ inserted tile (length shard.old.slots) shard.old.entries) }
    ensures words { IfOk result (λ kept. InsertsSlot tile.key kept.slot shard.old shard.new) }
    ensures err { OnErr result (shard.new ≡ shard.old) }
    ensures left { shard.new.left ≡ [] }
    ensures stored { KeepsStored W.files (λ terms. FitsTag W.files tile terms.tag)
        shard.old shard.new }
{
    let key = tile.key();
    // needed by the proof: no more entries are pinned than there are pins, and keys are distinct
    let _ = shard.pins();
    let _ = shard.tiles();
    let slots = shard.slots() as usize;
    let tile = shard.insert_pin(tile, slots)?;
    let _ = shard.tiles();
    let slot = slot_in(shard, key);
    Ok(InSlot { tile, slot })
}

/// Takes a pin from the tile of a key, and returns the tile's slot.
pub(crate) fn release_in<W: World>(shard: &mut Shard<W>, key: TileKey, share: u64) -> u32
    requires slots { AreInSlots shard.old }
    requires left { shard.old.left ≡ [] }
    requires pin { HasPin key shard.old.entries }
    ensures slot { slot_of key shard.old.slots ≡ Some result }
    ensures entries { shard.new.entries ≡ released share key shard.old.entries }
    ensures behind { AreBehind (unpinned_words result (words_of shard.old)) shard.new }
    ensures stored { KeepsStored W.files (λ terms. share_in_tag terms.tag ≡ share)
        shard.old shard.new }
{
    let _ = shard.tiles();
    let slot = slot_in(shard, key);
    shard.release(key, share);
    let _ = shard.tiles();
    slot
}

/// Purges the stale tiles.
pub(crate) fn purge_in<W: World>(shard: &mut Shard<W>, stale: Stale)
    requires slots { AreInSlots shard.old }
    requires left { shard.old.left ≡ [] }
    ensures entries { shard.new.entries ≡ without_stale stale.file stale.below shard.old.entries }
    ensures behind { AreBehind (words_of shard.old) shard.new }
    ensures stored { KeepsStored W.files (λ terms. ⊤) shard.old shard.new }
{
    let _ = shard.tiles();
    shard.purge(stale.file, stale.below);
    let _ = shard.tiles();
}

/// Counts the tiles and pins of a shard whose unpinned tiles may take `share` bytes.
pub(crate) fn count_in<W: World>(shard: &Shard<W>, share: u64) -> ShardCount
    ensures value { IsCountOf shard.now.entries result }
    ensures share { result.share ≡ share }
{
    ShardCount {
        tiles: shard.tiles(),
        pins: shard.pins(),
        loose: shard.loose(),
        share,
    }
}
