//! Describes the rows to read, so that later rows can be read ahead.

ghost use Rattle.std.specs.Prelude.{◌≤◌, ◌<◌};
ghost use Rattle.tile_layout.specs.Kept.{stored_count};

use tile_layout::{Layout, TexelFormat};

/// The rows to read, and how they lie in their strips or tiles.
#[derive(Clone, Copy, Debug)]
pub(crate) struct RowLayout {
    /// The row after the last one.
    bottom: u32,
    /// The number of rows per strip or tile.
    in_block: u32,
    /// The bytes from one row of a strip or tile to the next.
    stride: u64,
    ghost some: { 1 ≤ in_block },
}

/// The rows after the one that is being read.
#[derive(Clone, Copy, Debug)]
pub(crate) struct RowsBehind {
    /// How many there are.
    pub(crate) all: u32,
    /// How many of them lie in the same strip or tile.
    pub(crate) in_block: u32,
    /// The bytes from one row of the strip or tile to the next.
    pub(crate) stride: u64,
}

impl RowLayout {
    /// The rows of a stored level above row `bottom`.
    pub(crate) fn of(layout: &Layout, level: u32, format: &TexelFormat, bottom: u32) -> RowLayout
        requires { level < stored_count layout.now }
    {
        let width = u64::from(layout.block_width(level));
        RowLayout {
            bottom,
            in_block: layout.block_rows(level),
            stride: width.saturating_mul(format.texel_bytes as u64),
        }
    }

    /// The rows after row y.
    pub(crate) fn behind(&self, y: u32) -> RowsBehind {
        let all = self.bottom.saturating_sub(y).saturating_sub(1);
        RowsBehind {
            all,
            in_block: all.min(self.in_block - 1 - y % self.in_block),
            stride: self.stride,
        }
    }
}
