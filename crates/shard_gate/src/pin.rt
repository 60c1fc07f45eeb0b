//! A pin on a tile.
ghost use Rattle.std.specs.Prelude.{◌≡◌};

use std::marker::Model;
use std::sync::Arc;
use tex_world::World;
use tile_store::Tile;

/// Keeps a tile in its shard until the pin is given back. Clauses see the tile.
#[derive(Drop)]
pub struct Pin<W: World> {
    pub(crate) tile: Arc<Tile<W>>,
}

impl<W: World> Model for Pin<W> {
    ghost use Rattle.std.specs.Arc.{arc_value};
    ghost use Rattle.shard_gate.specs.Gate.{PinState};

    ghost Value = { PinState };

    ghost view = { λ p. record { tile = arc_value p.tile } };
}

impl<W: World> Pin<W> {
    /// The pinned tile.
    pub fn tile(&self) -> &Tile<W>
        ensures value { result.now ≡ self.now.tile }
    {
        &self.tile
    }
}
