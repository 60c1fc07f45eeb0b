//! The cell that holds a texel, and the cell with a key.
ghost use Rattle.std.specs.Prelude.{◌≡◌, ◌<◌};
ghost use Rattle.tex_world.specs.World.{max_files};
ghost use Rattle.tile_layout.specs.Cell.{HoldsTexel};
ghost use Rattle.tile_layout.specs.Cell.{cell_count, cell_index, cell_rect};
ghost use Rattle.tile_layout.specs.CutSide.{max_cells};
ghost use Rattle.tile_layout.specs.Grid.{shown_grid};
ghost use Rattle.tile_source.specs.Texel.{IsTexelIn, IsCellAt, IsCellOf};
ghost use Rattle.tile_source.specs.Making.{IsKeyOf};

use file_table::Picture;
use pinned_tiles::CellAt;
use tex_world::World;
use texel_values::TexelAt;
use tiff_format::Rect;
use tile_layout::{Grid, TileKey};

/// The cell of a record that holds a texel.
#[inline(always)]
pub fn cell_at<W: World>(picture: &Picture<'_, W>, at: TexelAt) -> CellAt
    requires inside { IsTexelIn picture.now at }
    requires file { picture.now.file < max_files }
    ensures { IsCellAt picture.now at result }
{
    let level = picture.level(at.level);
    let (index, rect) = place_at(&level.grid, at.x, at.y);
    CellAt {
        key: picture.key(at.level, index),
        rect,
        channels: level.channels,
    }
}

/// The number and the rectangle of the cell that holds a texel.
#[inline(always)]
fn place_at(grid: &Grid, x: u32, y: u32) -> (u32, Rect)
    requires across { x < grid.now.across.size }
    requires down { y < grid.now.down.size }
    ensures index { result.0 ≡ cell_index (shown_grid grid.now) x y }
    ensures in_range { result.0 < cell_count (shown_grid grid.now) }
    ensures few { result.0 < max_cells }
    ensures rect { result.1
        ≡ cell_rect (shown_grid grid.now) (cell_index (shown_grid grid.now) x y) }
    ensures holds { HoldsTexel result.1 x y }
{
    let (column, row) = (grid.across.cell_of(x), grid.down.cell_of(y));
    (grid.index(column, row), grid.rect(column, row))
}

/// The cell with this key.
pub(crate) fn cell_of_key<W: World>(picture: &Picture<'_, W>, key: TileKey) -> CellAt
    requires { IsKeyOf picture.now key }
    ensures key { result.key ≡ key }
    ensures of { IsCellOf picture.now result }
{
    let level = picture.level(key.level());
    CellAt {
        key,
        rect: level.grid.cell_rect(key.index()),
        channels: level.channels,
    }
}
