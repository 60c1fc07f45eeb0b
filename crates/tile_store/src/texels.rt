//! The samples of a tile.

ghost use Rattle.std.specs.Prelude.{◌≡◌, ◌+◌, ◌≤◌, length, take, drop};
ghost use Rattle.tile_store.specs.SampleRow.{samples_of, top_of, bottom_of};
ghost use Rattle.tile_store.specs.Texels.{kept_in};

use crate::row::SampleRow;
use crate::two_rows::TwoRows;

/// The samples of texels, row by row, all samples of a texel together: one byte each for an 8-bit
/// file, otherwise two.
#[derive(Drop)]
pub enum Texels {
    Bytes(Vec<u8>),
    Shorts(Vec<u16>),
}

impl Texels {
    /// All samples.
    #[inline(always)]
    pub(crate) fn all(&self) -> SampleRow<'_>
        ensures { samples_of result ≡ kept_in self.now }
    {
        match self {
            Texels::Bytes(samples) => SampleRow::Bytes(samples),
            Texels::Shorts(samples) => SampleRow::Shorts(samples),
        }
    }

    /// The `count` samples from one place on, and as many from another.
    #[inline(always)]
    pub(crate) fn two_parts(&self, top: usize, bottom: usize, count: usize) -> TwoRows<'_>
        requires top { top + count ≤ length (kept_in self.now) }
        requires bottom { bottom + count ≤ length (kept_in self.now) }
        ensures top { top_of result ≡ take count (drop top (kept_in self.now)) }
        ensures bottom { bottom_of result ≡ take count (drop bottom (kept_in self.now)) }
    {
        match self {
            Texels::Bytes(bytes) => TwoRows::Bytes(
                &bytes[top..top + count],
                &bytes[bottom..bottom + count],
            ),
            Texels::Shorts(samples) => TwoRows::Shorts(
                &samples[top..top + count],
                &samples[bottom..bottom + count],
            ),
        }
    }
}
