//! A level, divided into cells.
ghost use Rattle.std.specs.Prelude.{◌≡◌, ◌<◌, ◌≤◌, ◌↔◌, IsTrue};
ghost use Rattle.tiff_format.specs.Facts.{IsChannelCount};
ghost use Rattle.tile_layout.specs.Cell.{cell_count, cell_index, cell_rect, HoldsTexel};
ghost use Rattle.tile_layout.specs.Cell.{CellsFitOn, number_of};
ghost use Rattle.tile_layout.specs.CutSide.{max_cells};
ghost use Rattle.tile_layout.specs.Pieces.{LiesOn};

use crate::cut_side::CutSide;
use tiff_format::Rect;

/// The most bytes of a cell in memory.
pub const MAX_CELL_BYTES: u64 = 33_554_432;

/// A level and the cells that divide it, numbered row by row from 0.
///
/// It is small, and everything needed per texel is a field or a product, so it is worth keeping for
/// each level.
#[derive(Clone, Copy, Debug, PartialEq, Eq)]
pub struct Grid {
    /// The width of the level and of its cells.
    pub across: CutSide,
    /// The height of the level and of its cells.
    pub down: CutSide,
}

impl Grid {
    ghost use Rattle.tile_layout.specs.Grid.{shown_grid};

    /// The cell that holds a texel.
    pub fn cell_at(&self, x: u32, y: u32) -> u32
        requires across { x < self.now.across.size }
        requires down { y < self.now.down.size }
        ensures value { result ≡ cell_index (shown_grid self.now) x y }
        ensures in_range { result < cell_count (shown_grid self.now) }
        ensures few { result < max_cells }
        ensures holds { HoldsTexel (cell_rect (shown_grid self.now) result) x y }
    {
        self.index(self.across.cell_of(x), self.down.cell_of(y))
    }

    /// The index of the cell in this column and row of cells.
    pub fn index(&self, column: u32, row: u32) -> u32
        requires column { column < self.now.across.cells }
        requires row { row < self.now.down.cells }
        ensures value { result ≡ number_of (shown_grid self.now) column row }
        ensures in_range { result < cell_count (shown_grid self.now) }
        ensures few { result < max_cells }
    {
        row * self.across.cells + column
    }

    /// The rectangle of the cell in this column and row of cells.
    pub fn rect(&self, column: u32, row: u32) -> Rect
        requires column { column < self.now.across.cells }
        requires row { row < self.now.down.cells }
        ensures value { result
            ≡ cell_rect (shown_grid self.now) (number_of (shown_grid self.now) column row) }
        ensures inside { LiesOn self.now.across.size self.now.down.size result }
        ensures some { (1 ≤ result.w) × (1 ≤ result.h) }
    {
        let (x, w) = self.across.part(column);
        let (y, h) = self.down.part(row);
        Rect { x, y, w, h }
    }

    /// Whether no cell takes more than 33554432 bytes with this number of channels.
    pub fn fits(&self, channels: u32) -> bool
        requires { IsChannelCount channels }
        ensures { IsTrue result ↔ CellsFitOn channels (shown_grid self.now) }
    {
        // the first cell is the largest
        let w = self.across.cell.min(self.across.size);
        let h = self.down.cell.min(self.down.size);
        2 * u64::from(channels) * u64::from(w) * u64::from(h) <= MAX_CELL_BYTES
    }

    /// The rectangle of a cell.
    pub fn cell_rect(&self, index: u32) -> Rect
        requires { index < cell_count (shown_grid self.now) }
        ensures value { result ≡ cell_rect (shown_grid self.now) index }
        ensures inside { LiesOn self.now.across.size self.now.down.size result }
        ensures some { (1 ≤ result.w) × (1 ≤ result.h) }
    {
        self.rect(index % self.across.cells, index / self.across.cells)
    }
}
