//! Lists the cells that a region meets.
ghost use Rattle.std.specs.Prelude.{◌≡◌, ◌+◌, ◌*◌, ◌<◌, ◌≤◌};
ghost use Rattle.tile_layout.specs.Cell.{cell_count, number_of};
ghost use Rattle.tile_layout.specs.Grid.{shown_grid};
ghost use Rattle.tiff_format.specs.Facts.{IsChannelCount};
ghost use Rattle.texel_values.specs.Region.{max_texels};
ghost use Rattle.texel_values.specs.Met.{cells_met};
ghost use Rattle.texel_values.specs.Area.{IsAreaOf, area_cell, area_cells};

use crate::area::Area;
use crate::overlap::Overlap;
use crate::region::Region;
use crate::window::RegionShape;
use tile_layout::{CutSide, Grid};

/// How many cells along a side the places on it meet.
fn met(side: &CutSide, over: &Overlap) -> u32
    requires { over.now.first + over.now.inside ≤ side.now.size }
    ensures { result ≡ cells_met side.now.cell over.now.first over.now.inside }
{
    if over.inside == 0 {
        return 0;
    }
    side.cell_of(over.first + over.inside - 1) - side.cell_of(over.first) + 1
}

impl Area {
    /// The area of a region on a level.
    pub fn new(grid: Grid, region: &Region, channels: u32) -> Area
        ensures { IsAreaOf (shown_grid grid) region.now channels result }
    {
        let window = RegionShape {
            columns: Overlap::new(region.x, region.w, grid.across.size),
            rows: Overlap::new(region.y, region.h, grid.down.size),
            width: region.w,
            channels,
        };
        Area {
            level: region.level,
            grid,
            window,
            height: region.h,
            across: met(&grid.across, &window.columns),
            down: met(&grid.down, &window.rows),
        }
    }

    /// The number of values of all its texels.
    pub fn count(&self) -> usize
        requires few { self.now.window.width * self.now.height ≤ max_texels }
        requires channels { IsChannelCount self.now.window.channels }
        ensures { result ≡ self.now.height * (self.now.window.width * self.now.window.channels) }
    {
        self.height as usize * (self.window.width as usize * self.window.channels as usize)
    }

    /// The number of cells that it meets.
    pub fn cells(&self) -> u64
        ensures { result ≡ area_cells self.now }
    {
        u64::from(self.down) * u64::from(self.across)
    }

    /// The index, in the level, of the k-th of these cells, row by row.
    pub fn cell(&self, k: u64) -> u32
        requires { k < area_cells self.now }
        ensures value { result ≡ area_cell self.now k }
        ensures in_range { result < cell_count (shown_grid self.now.grid) }
    {
        let (column, row) = self.place(k);
        self.grid.index(column, row)
    }

    /// The column and the row, among the level's cells, of the k-th of these cells.
    pub fn place(&self, k: u64) -> (u32, u32)
        requires { k < area_cells self.now }
        ensures value { number_of (shown_grid self.now.grid) result.0 result.1
            ≡ area_cell self.now k }
        ensures column { result.0 < self.now.grid.across.cells }
        ensures row { result.1 < self.now.grid.down.cells }
    {
        let (across, grid) = (u64::from(self.across), &self.grid);
        (
            grid.across.cell_of(self.window.columns.first) + (k % across) as u32,
            grid.down.cell_of(self.window.rows.first) + (k / across) as u32,
        )
    }
}
