//! How a region lies on its level.
use crate::overlap::Overlap;

/// How a region lies on its level, and how its values are arranged.
#[derive(Clone, Copy, Debug, PartialEq, Eq)]
pub struct RegionShape {
    /// Its columns, relative to the level.
    pub columns: Overlap,
    /// Its rows, relative to the level.
    pub rows: Overlap,
    /// The width of the region, in texels.
    pub width: u32,
    /// The number of values per texel.
    pub channels: u32,
}
