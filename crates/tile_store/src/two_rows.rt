//! Samples of two rows of a tile.

ghost use Rattle.std.specs.Prelude.{◌≡◌};
ghost use Rattle.tile_store.specs.SampleRow.{samples_of, top_of, bottom_of};

use crate::row::SampleRow;

/// The samples of two rows of a tile in the same columns, of one or two bytes each.
#[derive(Clone, Copy, Debug)]
pub enum TwoRows<'a> {
    /// The upper row, then the lower one.
    Bytes(&'a [u8], &'a [u8]),
    Shorts(&'a [u16], &'a [u16]),
}

impl<'a> TwoRows<'a> {
    /// Whether a sample is one byte.
    #[inline(always)]
    pub fn has_bytes(&self) -> bool {
        match self {
            TwoRows::Bytes(..) => true,
            TwoRows::Shorts(..) => false,
        }
    }

    /// The samples of the upper row.
    #[inline(always)]
    pub fn top(&self) -> SampleRow<'a>
        ensures { samples_of result ≡ top_of self.now }
    {
        match self {
            TwoRows::Bytes(top, _) => SampleRow::Bytes(top),
            TwoRows::Shorts(top, _) => SampleRow::Shorts(top),
        }
    }

    /// The samples of the lower row.
    #[inline(always)]
    pub fn bottom(&self) -> SampleRow<'a>
        ensures { samples_of result ≡ bottom_of self.now }
    {
        match self {
            TwoRows::Bytes(_, bottom) => SampleRow::Bytes(bottom),
            TwoRows::Shorts(_, bottom) => SampleRow::Shorts(bottom),
        }
    }
}
