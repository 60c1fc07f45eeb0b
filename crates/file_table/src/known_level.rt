//! What lookups need to know about a level.
use tile_layout::{Grid, TileKey};

/// What lookups need to know about a level, computed once per record. It takes 64 bytes.
#[derive(Clone, Copy, Debug, PartialEq, Eq)]
pub struct KnownLevel {
    /// How the level is divided into cells.
    pub grid: Grid,
    /// The key of the first cell. Keys of other cells differ from it only in the index.
    pub first: TileKey,
    /// The number of samples per texel.
    pub channels: u32,
    /// The bits per sample, 8 or 16.
    pub depth: u32,
}
