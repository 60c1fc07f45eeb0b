//! One side of a level, divided into cells.
ghost use Rattle.std.specs.Prelude.{◌≡◌, ◌+◌, ◌*◌, ◌/◌, ◌<◌, ◌≤◌};
ghost use Rattle.tiff_format.specs.Facts.{IsSide};
ghost use Rattle.tile_layout.specs.Cell.{clipped};
ghost use Rattle.tile_layout.specs.CutSide.{IsCellSide, IsCutSide};

/// The number of binary digits after the point in `factor`.
const FACTOR_BITS: u32 = 40;

/// A side of a level, and the cells that divide it.
#[derive(Clone, Copy, Debug, PartialEq, Eq)]
pub struct CutSide {
    /// The length of the side, in texels.
    pub size: u32,
    /// The length of each cell, in texels. The last one ends with the side.
    pub cell: u32,
    /// The number of cells that cover the side.
    pub cells: u32,
    /// 1 / `cell` as a fixed-point number with 40 binary digits, so that finding a cell needs no
    /// division.
    pub(crate) factor: u64,
    ghost in_range: { IsCutSide size cell cells factor },
}

impl CutSide {
    pub(crate) fn new(size: u32, cell: u32) -> CutSide
        requires side { IsSide size }
        requires piece { IsCellSide size cell }
        ensures size { result.size ≡ size }
        ensures cell { result.cell ≡ cell }
    {
        CutSide {
            size,
            cell,
            cells: (size + cell - 1) / cell,
            factor: (1 << FACTOR_BITS) / u64::from(cell) + 1,
        }
    }

    /// The index of the cell that holds a place. Costs one multiplication, no division.
    pub fn cell_of(&self, place: u32) -> u32
        requires { place < self.now.size }
        ensures value { result ≡ place / self.now.cell }
        ensures in_range { result < self.now.cells }
    {
        ((u64::from(place) * self.factor) >> FACTOR_BITS) as u32
    }

    /// The first place of cell k, and its length.
    pub(crate) fn part(&self, k: u32) -> (u32, u32)
        requires { k < self.now.cells }
        ensures first { result.0 ≡ k * self.now.cell }
        ensures count { result.1 ≡ clipped self.now.size result.0 self.now.cell }
        ensures inside { result.0 + result.1 ≤ self.now.size }
        ensures some { 1 ≤ result.1 }
    {
        let first = k * self.cell;
        (first, self.cell.min(self.size - first))
    }
}
