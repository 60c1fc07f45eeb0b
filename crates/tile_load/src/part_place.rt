//! Where the texels made from a source cell lie in a cell of a generated level.

ghost use Rattle.std.specs.Prelude.{◌≡◌, ◌+◌, ◌*◌, ◌<◌, ◌≤◌, ℕ, length, slice_index};
ghost use Rattle.tiff_format.specs.Level.{halved};
ghost use Rattle.tile_load.specs.PartPlace.{IsPartPlace, left_of, top_of};

use tiff_format::Rect;

/// A source cell and the cell made from it: their rectangles and the number of samples per texel.
#[derive(Clone, Copy, Debug)]
pub(crate) struct PartPlace {
    pub(crate) part: Rect,
    pub(crate) cell: Rect,
    pub(crate) channels: u32,
    ghost known: { IsPartPlace part cell channels },
}

impl PartPlace {
    /// The number of rows that are made from the source cell.
    pub(crate) fn rows(&self) -> u32
        ensures { result ≡ halved self.now.part.h }
    {
        (self.part.h / 2).max(1)
    }

    /// The number of samples in each of them.
    pub(crate) fn row_samples(&self) -> usize
        ensures value { result ≡ halved self.now.part.w * self.now.channels }
        ensures inside { result ≤ self.now.cell.w * self.now.channels }
    {
        (self.part.w as usize / 2).max(1) * self.channels as usize
    }

    /// Where row j of these begins among the cell's samples.
    pub(crate) fn start(&self, j: u32) -> usize
        requires { j < halved self.now.part.h }
        ensures value { result ≡ ((top_of self.now.part self.now.cell + j) * self.now.cell.w
            + left_of self.now.part self.now.cell) * self.now.channels }
        ensures inside { result + halved self.now.part.w * self.now.channels
            ≤ self.now.cell.w * self.now.cell.h * self.now.channels }
    {
        let row = (self.part.y / 2 - self.cell.y + j) as usize;
        let column = (self.part.x / 2 - self.cell.x) as usize;
        (row * self.cell.w as usize + column) * self.channels as usize
    }
}
