//! The levels of a file, and where their texels are.
ghost use Rattle.std.specs.Prelude.{◌≡◌, ℕ, ◌/◌, ◌^◌, ◌<◌, ◌≤◌, ◌↔◌, max, List};
ghost use Rattle.std.specs.Prelude.{IsTrue, IfSome, IsSome};
ghost use Rattle.tiff_format.specs.Level.{max_levels};
ghost use Rattle.tiff_format.specs.Texel.{sample_place};
ghost use Rattle.tiff_format.specs.Facts.{IsSide, IsChannelCount, IsDepth, IsPlaneCount};
ghost use Rattle.tiff_format.specs.Limits.{max_channels};
ghost use Rattle.tiff_format.specs.Shown.{shown, shown_shape};
ghost use Rattle.tiff_format.specs.Cut.{IsCut};
ghost use Rattle.tile_layout.specs.Kept.{kept_of, kept_in, AreDirsOf, stored_count, level_in};
ghost use Rattle.tile_layout.specs.Plane.{plane_in};
ghost use Rattle.tile_layout.specs.Level.{width_in, height_in, level_count_in, levels_down};
ghost use Rattle.tile_layout.specs.Level.{HasLevel, IsLevelCount, IsOfEach};
ghost use Rattle.tile_layout.specs.Pieces.{LiesOnLevel, walk_over};
ghost use Rattle.tile_layout.specs.FormatOf.{IsFormatOf};
ghost use Rattle.tile_layout.specs.Cell.{cell_width_by, cell_height_by, cut_level_in, cells_across};
ghost use Rattle.tile_layout.specs.Cell.{cells_down, cell_count, cell_index, cell_rect, HoldsTexel};
ghost use Rattle.tile_layout.specs.Cell.{CellsFit, pattern_shape, channels_in, bit_depth_in};
ghost use Rattle.tile_layout.specs.CutSide.{IsCellSide, max_cells};
ghost use Rattle.tile_layout.specs.Grid.{shown_grid};
ghost use Rattle.tile_layout.specs.Halving.{HalvesWithinCells};
ghost use Rattle.tile_layout.specs.WholeRows.{block_width, block_rows, AreWholeRows, StandsWhole};

use crate::cut_side::CutSide;
use crate::grid::Grid;
use crate::pieces::Pieces;
use crate::place::{block_rows, block_width, is_white, samples_aside, texel_bytes, whole_rows};
use crate::texel_format::TexelFormat;
use std::marker::Model;
use tiff_format::{Cut, Dir, Dirs, Rect};

/// The levels of a valid file, and where their texels are in the file.
///
/// Level 0 is the largest. After the stored levels, each level is half of the one before.
#[derive(Debug, Drop)]
pub struct Layout {
    dirs: Dirs,
}

impl Model for Layout {
    ghost use Rattle.tile_layout.specs.Kept.{Kept, kept_in};

    ghost Value = { Kept };

    ghost view = { λ a. kept_in a.dirs };
}

impl Layout {
    /// The layout of a file with these directories. For a modelled file it agrees with what
    /// contracts derive from the file's bytes, and so do the answers of all calls below.
    pub fn of(dirs: Dirs) -> Layout
        ensures value { result ≡ kept_in dirs }
        ensures told { (bytes : List ℕ) → AreDirsOf bytes dirs → result ≡ kept_of bytes }
    {
        Layout { dirs }
    }

    /// Whether the file's numbers have their highest byte first.
    pub fn big(&self) -> bool
        ensures value { result ≡ self.now.big }
    {
        self.dirs.big
    }

    /// The number of stored levels.
    pub fn stored(&self) -> u32
        ensures value { result ≡ stored_count self.now }
        ensures in_range { IsLevelCount result }
    {
        self.dirs.levels.len() as u32
    }

    /// The number of levels. If only one is stored and `automip` is on, levels are generated down
    /// to 1 by 1.
    pub fn levels(&self, cut: Cut) -> u32
        requires { IsCut cut }
        ensures value { result ≡ level_count_in self.now cut.automip }
        ensures has { (l : ℕ) → l < result → HasLevel self.now l }
        ensures stored { stored_count self.now ≤ result }
        ensures in_range { IsLevelCount result }
    {
        let stored = self.stored();
        if cut.automip && stored == 1 {
            self.levels_down()
        } else {
            stored
        }
    }

    /// The width and height of a level, in texels.
    pub fn size(&self, level: u32) -> (u32, u32)
        requires { HasLevel self.now level }
        ensures value { result ≡ (width_in self.now level, height_in self.now level) }
        ensures in_range { IsSide result.0 × IsSide result.1 }
    {
        let last = level.min(self.stored() - 1);
        let dir = self.dir(last);
        (
            halved(dir.width, level - last),
            halved(dir.height, level - last),
        )
    }

    /// The number of samples per texel, the same in every level.
    pub fn channels(&self) -> u32
        ensures value { IsOfEach self.now (λ shape. shape.channels) result }
        ensures first { result ≡ channels_in self.now }
        ensures in_range { IsChannelCount result }
    {
        self.dirs.levels[0].channels
    }

    /// The bits per sample, the same in every level.
    pub fn depth(&self) -> u32
        ensures value { IsOfEach self.now (λ shape. shape.depth) result }
        ensures first { result ≡ bit_depth_in self.now }
        ensures in_range { IsDepth result }
    {
        self.dirs.levels[0].depth
    }

    /// Whether the stored level is WhiteIsZero.
    pub fn white(&self, level: u32) -> bool
        requires { level < stored_count self.now }
        ensures value { result ≡ (level_in self.now level).shape.white }
    {
        self.dir(level).white
    }

    /// The number of planes of a stored level: 1 if the samples of a texel are stored together,
    /// otherwise one per channel. The levels of a file may differ in this.
    pub fn planes(&self, level: u32) -> u32
        requires { level < stored_count self.now }
        ensures value { result ≡ (level_in self.now level).shape.planes }
        ensures one_or_all { IsPlaneCount (level_in self.now level).shape.channels result }
        ensures in_range { (1 ≤ result) × (result ≤ max_channels) }
    {
        self.dir(level).planes
    }

    /// How the samples of a plane of a stored level are stored.
    pub fn format(&self, level: u32, plane: u32) -> TexelFormat
        requires stored { level < stored_count self.now }
        requires plane { plane < (level_in self.now level).shape.planes }
        ensures value { IsFormatOf self.now.big (plane_in self.now level plane).shape result }
        ensures depth { result.depth ≡ bit_depth_in self.now }
    {
        let dir = self.dir(level);
        let channels = samples_aside(dir) as usize;
        TexelFormat {
            depth: dir.depth,
            big: self.big(),
            channels,
            invert: if is_white(dir, plane) { channels } else { 0 },
            texel_bytes: texel_bytes(dir) as usize,
        }
    }

    /// How a level is divided into cells. A tiled level has its tiles as cells. A stripped level
    /// has squares of side `autotile`, or a single cell if that is 0. Generated levels are divided
    /// like level 0. Each group of four texels that the next level averages lies in one cell.
    pub fn grid(&self, level: u32, cut: Cut) -> Grid
        requires level { HasLevel self.now level }
        requires cut { IsCut cut }
        ensures value { shown_grid result ≡ cut_level_in self.now cut level }
        ensures halving { HalvesWithinCells (cut_level_in self.now cut level) }
    {
        let (width, height) = self.size(level);
        let (cell_width, cell_height) = cell_sides(self.pattern(level), cut);
        Grid {
            across: CutSide::new(width, cell_width),
            down: CutSide::new(height, cell_height),
        }
    }

    /// The numbers of cells of a level, across and down.
    pub fn cells(&self, level: u32, cut: Cut) -> (u32, u32)
        requires level { HasLevel self.now level }
        requires cut { IsCut cut }
        ensures across { result.0 ≡ cells_across (cut_level_in self.now cut level) }
        ensures down { result.1 ≡ cells_down (cut_level_in self.now cut level) }
    {
        let grid = self.grid(level, cut);
        (grid.across.cells, grid.down.cells)
    }

    /// The cell of a level that holds a texel. Cells are numbered row by row from 0.
    pub fn cell_at(&self, level: u32, cut: Cut, x: u32, y: u32) -> u32
        requires level { HasLevel self.now level }
        requires cut { IsCut cut }
        requires across { x < width_in self.now level }
        requires down { y < height_in self.now level }
        ensures value { result ≡ cell_index (cut_level_in self.now cut level) x y }
        ensures in_range { result < cell_count (cut_level_in self.now cut level) }
        ensures few { result < max_cells }
        ensures holds { HoldsTexel (cell_rect (cut_level_in self.now cut level) result) x y }
    {
        self.grid(level, cut).cell_at(x, y)
    }

    /// The rectangle of a cell of a level.
    pub fn cell_rect(&self, level: u32, cut: Cut, index: u32) -> Rect
        requires level { HasLevel self.now level }
        requires cut { IsCut cut }
        requires index { index < cell_count (cut_level_in self.now cut level) }
        ensures value { result ≡ cell_rect (cut_level_in self.now cut level) index }
        ensures inside { LiesOnLevel self.now level result }
        ensures some { (1 ≤ result.w) × (1 ≤ result.h) }
    {
        self.grid(level, cut).cell_rect(index)
    }

    /// Whether no cell of any level takes more than 33554432 bytes in memory.
    pub fn fits(&self, cut: Cut) -> bool
        requires { IsCut cut }
        ensures value { IsTrue result ↔ CellsFit self.now cut }
    {
        let channels = self.channels();
        for level in 0..self.levels(cut) {
            if !self.grid(level, cut).fits(channels) {
                return false;
            }
        }
        true
    }

    /// The pieces of a rectangle in the first plane of a stored level, row by row, from left to
    /// right.
    pub fn pieces(&self, level: u32, rect: Rect) -> Pieces<'_>
        requires stored { level < stored_count self.now }
        requires inside { LiesOnLevel self.now level rect }
        ensures value { result ≡ walk_over (plane_in self.now level 0) rect }
        ensures place { (x y : ℕ) → sample_place result.level x y 0
            ≡ sample_place (level_in self.now level) x y 0 }
    {
        Pieces::over(self.dir(level), 0, rect)
    }

    /// The pieces of a rectangle in one plane of a stored level. Its first channel has the plane's
    /// number.
    pub fn plane_pieces(&self, level: u32, rect: Rect, plane: u32) -> Pieces<'_>
        requires stored { level < stored_count self.now }
        requires inside { LiesOnLevel self.now level rect }
        requires plane { plane < (level_in self.now level).shape.planes }
        ensures value { result ≡ walk_over (plane_in self.now level plane) rect }
        ensures place { (x y : ℕ) → sample_place result.level x y 0
            ≡ sample_place (level_in self.now level) x y plane }
    {
        Pieces::over(self.dir(level), plane, rect)
    }

    /// Where the texels of a rectangle in one plane begin in the file, if they follow one another
    /// row after row. That is so if and only if it is whole rows of one strip or tile, or of
    /// several that follow one another directly. Looks at each strip or tile once, not at each row.
    pub fn whole_rows(&self, level: u32, plane: u32, rect: Rect) -> Option<u64>
        requires stored { level < stored_count self.now }
        requires plane { plane < (level_in self.now level).shape.planes }
        requires inside { LiesOnLevel self.now level rect }
        requires some { 1 ≤ rect.h }
        ensures found { IsSome result ↔ AreWholeRows (plane_in self.now level plane) rect }
        ensures place { IfSome result (StandsWhole (plane_in self.now level plane) rect) }
    {
        whole_rows(self.dir(level), plane, rect)
    }

    /// The number of rows per strip or tile in a stored level. The last strip may have fewer.
    pub fn block_rows(&self, level: u32) -> u32
        requires { level < stored_count self.now }
        ensures value { result ≡ block_rows (level_in self.now level).shape }
        ensures some { 1 ≤ result }
    {
        block_rows(self.dir(level))
    }

    /// The texels per row of a strip or tile in a stored level, including the padding of a tile.
    pub fn block_width(&self, level: u32) -> u32
        requires { level < stored_count self.now }
        ensures value { result ≡ block_width (level_in self.now level).shape }
        ensures some { 1 ≤ result }
    {
        block_width(self.dir(level))
    }

    /// The directory of a stored level.
    fn dir(&self, level: u32) -> &Dir
        requires { level < stored_count self.now }
        ensures value { shown result.now ≡ level_in self.now level }
        ensures depth { result.now.depth ≡ bit_depth_in self.now }
    {
        &self.dirs.levels[level as usize]
    }

    /// The directory of the stored level that determines how a level is divided.
    fn pattern(&self, level: u32) -> &Dir
        ensures shape { shown_shape result.now ≡ pattern_shape self.now level }
        ensures wide { width_in self.now level ≤ result.now.width }
        ensures high { height_in self.now level ≤ result.now.height }
    {
        if level < self.stored() {
            self.dir(level)
        } else {
            self.first()
        }
    }

    /// The directory of level 0, the largest.
    fn first(&self) -> &Dir
        ensures value { shown result.now ≡ level_in self.now 0 }
        ensures largest { (l : ℕ) → (width_in self.now l ≤ result.now.width)
            × (height_in self.now l ≤ result.now.height) }
    {
        &self.dirs.levels[0]
    }

    /// The number of levels from level 0 down to 1 by 1.
    fn levels_down(&self) -> u32
        requires { stored_count self.now ≡ 1 }
        ensures value { result ≡ levels_down self.now }
        ensures in_range { IsLevelCount result }
    {
        let dir = self.dir(0);
        dir.width.max(dir.height).ilog2() + 1
    }
}

/// The width and height of the cells of a stored level.
fn cell_sides(dir: &Dir, cut: Cut) -> (u32, u32)
    requires { IsCut cut }
    ensures width { result.0 ≡ cell_width_by cut (shown_shape dir.now) dir.now.tile }
    ensures height { result.1 ≡ cell_height_by cut (shown_shape dir.now) dir.now.tile }
    ensures across { (side : ℕ) → side ≤ dir.now.width → IsCellSide side result.0 }
    ensures down { (side : ℕ) → side ≤ dir.now.height → IsCellSide side result.1 }
{
    match dir.tile {
        Some(sides) => sides,
        None if cut.autotile == 0 => (dir.width, dir.height),
        None => (cut.autotile, cut.autotile),
    }
}

/// A side, halved this many times.
fn halved(side: u32, times: u32) -> u32
    requires side { IsSide side }
    requires times { times < max_levels }
    ensures value { result ≡ max 1 (side / 2 ^ times) }
    ensures in_range { IsSide result }
{
    (side >> times).max(1)
}
