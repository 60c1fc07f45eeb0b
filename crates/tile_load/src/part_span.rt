//! The range of source cells along one side of a generated cell.
ghost use Rattle.std.specs.Prelude.{◌≡◌, ◌+◌, ◌<◌, ◌≤◌};
ghost use Rattle.tile_load.specs.Halving.{source_cell, source_cells};

use tile_layout::CutSide;

/// The source cells along a side: those cells of the next larger level from which a texel of the
/// cell is made.
#[derive(Clone, Copy, Debug)]
pub(crate) struct PartSpan {
    /// The index, along the side, of the first source cell.
    pub(crate) first: u32,
    pub(crate) count: u32,
}

/// The index of the source cell that holds the first texel for the texel at `place`.
fn source_cell(side: &CutSide, place: u32) -> u32
    requires { place < side.now.size }
    ensures value { result ≡ source_cell side.now.size side.now.cell place }
    ensures inside { result < side.now.cells }
{
    side.cell_of((2 * place).min(side.size - 1))
}

impl PartSpan {
    /// The source cells of a cell that covers `n` places from `from` on.
    pub(crate) fn of(side: &CutSide, from: u32, n: u32) -> PartSpan
        requires some { 1 ≤ n }
        requires inside { from + n ≤ side.now.size }
        ensures first { result.first ≡ source_cell side.now.size side.now.cell from }
        ensures count { result.count ≡ source_cells side.now.size side.now.cell from n }
    {
        let first = source_cell(side, from);
        PartSpan {
            first,
            count: source_cell(side, from + n - 1) + 1 - first,
        }
    }
}
