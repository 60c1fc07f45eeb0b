//! The calls of a shard, each after a check of what it requires.
use std::alloc::{AllocError, Global};
use test_files::{Checks, Untold, gray};
use tex_world::World;
use tile_layout::TileKey;
use tile_store::{Shard, Tile};

pub(crate) type OneShard = Shard<Untold>;

// The numbers of a key of level 0.
#[derive(Clone, Copy)]
pub(crate) struct Cell {
    pub(crate) generation: u8,
    pub(crate) file: u8,
    pub(crate) index: u8,
}

impl Cell {
    pub(crate) fn key(self) -> TileKey {
        let generation = u32::from(self.generation).max(1);
        TileKey::new(generation, u32::from(self.file), 0, u32::from(self.index))
    }
}

// A call of a shard.
#[derive(Clone, Copy)]
pub(crate) enum Call {
    Find(Cell),
    // Inserts a square tile with this side.
    Insert(Cell, u8),
    // Releases a pin, with this share.
    Release(Cell, u64),
    // Purges a file of generations below this one.
    Purge(u8, u8),
}

// Whether the tile of the key was there.
pub(crate) fn find<W: World>(shard: &mut Shard<W>, key: TileKey) -> bool {
    shard.pins() < u32::MAX && matches!(shard.find_pin(key), Ok(Some(_)))
}

// Whether a tile is kept. Emptied slots are reported first.
pub(crate) fn insert<W: World>(shard: &mut Shard<W>, tile: Tile<W>, slots: u32) -> bool {
    'telling: while shard.left().is_some() {}
    let pins = shard.pins();
    if slots != shard.slots() || pins >= slots || pins == u32::MAX {
        return false;
    }
    shard.insert_pin(tile, slots as usize).is_ok()
}

// Whether there was a pin.
pub(crate) fn release<W: World>(shard: &mut Shard<W>, key: TileKey, share: u64) -> bool {
    let pinned = shard.is_pinned(key);
    if pinned {
        shard.release(key, share);
    }
    pinned
}

// Makes a call. The answer is whether a tile was found, kept or released.
pub(crate) fn answer(
    alloc: Global,
    shard: &mut OneShard,
    call: Call,
    slots: u32,
) -> Result<bool, AllocError> {
    match call {
        Call::Find(cell) => Ok(find(shard, cell.key())),
        Call::Insert(cell, side) => {
            let side = u32::from(side);
            Ok(insert(shard, gray(alloc, cell.key(), side, side)?, slots))
        }
        Call::Release(cell, share) => Ok(release(shard, cell.key(), share)),
        Call::Purge(file, below) => {
            shard.purge(u32::from(file), u32::from(below));
            Ok(true)
        }
    }
}

// The tiles, the pins and the unpinned bytes of a shard.
pub(crate) fn counts<W: World>(shard: &Shard<W>) -> [u64; 3] {
    [shard.tiles() as u64, shard.pins() as u64, shard.loose()]
}

// Compares the tiles, the pins and the unpinned bytes of a shard.
pub(crate) fn check_counts<W: World>(checks: &mut Checks, shard: &Shard<W>, wanted: [u64; 3]) {
    checks.equal("tiles", shard.tiles() as u64, wanted[0]);
    checks.equal("pins", shard.pins() as u64, wanted[1]);
    checks.equal("unpinned bytes", shard.loose(), wanted[2]);
}
