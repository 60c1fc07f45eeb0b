//! A cell of a file, and whether a tile belongs to it.
ghost use Rattle.std.specs.Prelude.{◌≡◌};
ghost use Rattle.pinned_tiles.specs.Cell.{is_tile_of};

use tex_world::World;
use tiff_format::Rect;
use tile_layout::TileKey;
use tile_store::Tile;

/// A cell of a file: its key, its rectangle in the level, and the number of samples per texel.
#[derive(Clone, Copy, Debug, PartialEq, Eq)]
pub struct CellAt {
    pub key: TileKey,
    pub rect: Rect,
    pub channels: u32,
}

/// Whether a tile with the cell's key has the cell's rectangle and number of samples. In a modelled
/// world it always has.
pub fn is_tile_of<W: World>(tile: &Tile<W>, cell: &CellAt) -> bool
    ensures { result ≡ is_tile_of cell.now tile.now }
{
    let (own, rect) = (tile.rect(), cell.rect);
    own.x == rect.x
        && own.y == rect.y
        && own.w == rect.w
        && own.h == rect.h
        && tile.channels() == cell.channels
}
