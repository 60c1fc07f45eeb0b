//! A tile of a microcache.
ghost use Rattle.std.specs.Prelude.{◌≡◌};
ghost use Rattle.pinned_tiles.specs.Pinned.{key_in};

use micro::Keyed;
use shard_gate::Pin;
use std::marker::Model;
use tex_world::World;
use tile_layout::TileKey;
use tile_store::Tile;

/// One of the tiles that a pass read latest, with its pin. Clauses see the tile.
#[derive(Drop)]
pub(crate) struct RecentTile<W: World> {
    pub(crate) pin: Pin<W>,
}

impl<W: World> Model for RecentTile<W> {
    ghost use Rattle.tile_store.specs.Tile.{CachedTile};

    ghost Value = { CachedTile };

    ghost view = { λ l. l.pin.tile };
}

impl<W: World> Keyed for RecentTile<W> {
    ghost own_key = { key_in };

    fn key(&self) -> TileKey {
        self.pin.tile().key()
    }
}

impl<W: World> RecentTile<W> {
    /// The tile.
    pub(crate) fn tile(&self) -> &Tile<W>
        ensures value { result.now ≡ self.now }
    {
        self.pin.tile()
    }

    /// Takes the pin out.
    pub(crate) fn into_pin(self) -> Pin<W>
        ensures value { result.tile ≡ self }
    {
        self.pin
    }
}
