//! Which texels the samples in a slot belong to.
ghost use Rattle.std.specs.Prelude.{◌≤◌, ◌↔◌, IsTrue};
ghost use Rattle.tiff_format.specs.Limits.{max_channels};
ghost use Rattle.tile_slots.specs.RowPart.{part_texels};

use crate::part_key::{PART_TEXELS, PartKey};

/// A part of a row: its key, its number of texels, and the samples per texel.
#[derive(Clone, Copy, Debug)]
pub(crate) struct Extent {
    pub(crate) key: PartKey,
    pub(crate) texels: u32,
    pub(crate) channels: u32,
    ghost few: { texels ≤ part_texels },
    ghost in_range: { channels ≤ max_channels },
}

impl Extent {
    ghost use Rattle.tile_slots.specs.Slot.{HasTexel};

    /// Whether it is the part of this key, has the texel in column x, and this many samples per
    /// texel.
    pub(crate) fn has(&self, key: PartKey, x: u32, channels: usize) -> bool
        ensures { IsTrue result ↔ HasTexel self.now key x channels }
    {
        self.key == key && self.channels as usize == channels && x % PART_TEXELS < self.texels
    }
}
