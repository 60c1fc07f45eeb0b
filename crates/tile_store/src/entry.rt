//! An entry of a shard: a tile and its pins.
ghost use Rattle.std.specs.Prelude.{◌≡◌, ◌+◌, ◌≤◌, ◌<◌, ◌^◌, ◌==◌, ◌↔◌, IsTrue, IfOk};
ghost use Rattle.std.specs.Arc.{arc_value};
ghost use Rattle.tile_layout.specs.Cell.{max_cell_bytes};
ghost use Rattle.tile_store.specs.CachedTile.{unpinned_bytes};
ghost use Rattle.tile_store.specs.Changes.{one_more, one_less, new_entry, is_stale};

use crate::tile::Tile;
use std::alloc::Global;
use std::marker::Model;
use std::sync::Arc;
use tex_world::{NoMemory, World};
use tile_layout::TileKey;

/// A tile of a shard, and its number of pins.
#[derive(Drop)]
pub struct CachedTile<W: World> {
    tile: Arc<Tile<W>>,
    pins: u32,
}

impl<W: World> Model for CachedTile<W> {
    ghost use Rattle.std.specs.Arc.{arc_value};
    ghost use Rattle.tile_store.specs.CachedTile.{EntryState};

    ghost Value = { EntryState };

    ghost view = { λ e. record { tile = arc_value e.tile; pins = e.pins } };
}

impl<W: World> CachedTile<W> {
    /// An entry with one pin.
    pub(crate) fn pinned(tile: Arc<Tile<W>>) -> CachedTile<W>
        ensures { result ≡ new_entry (arc_value tile) }
    {
        CachedTile { tile, pins: 1 }
    }

    /// A reference to the tile, for a pin.
    pub(crate) fn shared(&self) -> Result<Arc<Tile<W>>, NoMemory>
        ensures { IfOk result (λ tile. arc_value tile ≡ self.now.tile) }
    {
        another(&self.tile)
    }

    /// The key of the tile.
    pub(crate) fn key(&self) -> TileKey
        ensures { result ≡ self.now.tile.key }
    {
        self.tile.key()
    }

    pub(crate) fn is_unpinned(&self) -> bool
        ensures { result ≡ (self.now.pins == 0) }
    {
        self.pins == 0
    }

    pub(crate) fn is_pinned(&self) -> bool
        ensures { IsTrue result ↔ (1 ≤ self.now.pins) }
    {
        self.pins > 0
    }

    /// The bytes of the tile; 0 if it is pinned.
    pub(crate) fn unpinned_bytes(&self) -> u64
        ensures value { result ≡ unpinned_bytes self.now }
        ensures in_range { result ≤ max_cell_bytes }
    {
        if self.pins == 0 { self.tile.bytes() } else { 0 }
    }

    /// Whether it is unpinned, and of a generation of the file below the bound.
    pub(crate) fn is_stale(&self, file: u32, below: u32) -> bool
        ensures { result ≡ is_stale file below (self.now.tile.key, self.now) }
    {
        let key = self.key();
        self.is_unpinned() && key.file() == file && key.generation() < below
    }

    pub(crate) fn pin(&mut self)
        requires { self.old.pins + 1 < 2 ^ 32 }
        ensures { self.new ≡ one_more self.old }
    {
        self.pins += 1;
    }

    pub(crate) fn unpin(&mut self)
        requires { 1 ≤ self.old.pins }
        ensures { self.new ≡ one_less self.old }
    {
        self.pins -= 1;
    }
}

/// A further reference to a tile.
pub(crate) fn another<W: World>(tile: &Arc<Tile<W>>) -> Result<Arc<Tile<W>>, NoMemory>
    ensures { IfOk result (λ other. arc_value other ≡ arc_value tile.now) }
{
    Arc::try_clone(tile).map_err(|_| NoMemory)
}

/// The first reference to a tile.
pub(crate) fn owned<W: World>(alloc: Global, tile: Tile<W>) -> Result<Arc<Tile<W>>, NoMemory>
    ensures { IfOk result (λ owner. arc_value owner ≡ tile) }
{
    Arc::new(alloc, tile).map_err(|_| NoMemory)
}
