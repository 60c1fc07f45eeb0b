//! The shape of a level: everything except the offsets of its strips or tiles.

ghost use Rattle.std.specs.Prelude.{◌≡◌, ◌≤◌};
ghost use Rattle.tiff_format.specs.Block.{shape_of, pieces_over};
ghost use Rattle.tiff_format.specs.Facts.{IsLevelShape, IsSide};

use tiff_entries::tag::{STRIP_OFFSETS, TILE_OFFSETS};
use tiff_format::{Dir, Form};

/// The numbers of a level that say where its samples are in its strips or tiles.
#[derive(Clone, Copy)]
pub struct ReadShape {
    pub width: u32,
    pub height: u32,
    pub channels: u32,
    /// 1 if the samples of a pixel are stored together, otherwise one per channel.
    pub planes: u32,
    /// The bits per sample, 8 or 16.
    pub depth: u32,
    /// Whether the photometric interpretation is WhiteIsZero.
    pub white: bool,
    /// Whether the photometric interpretation is RGB.
    pub rgb: bool,
    /// The width and height of a tile, if it is tiled.
    pub tile: Option<(u32, u32)>,
    /// RowsPerStrip; 2^32 - 1 if it is tiled.
    pub rows_per_strip: u32,
    ghost shape_in: { IsLevelShape
        (shape_of width height channels planes depth white rgb tile rows_per_strip) },
}

/// The bits of a sample that fits a byte.
pub const BYTE_BITS: u32 = 8;

impl ReadShape {
    ghost use Rattle.std.specs.Prelude.{ℕ, ◌*◌, ◌<◌, length};
    ghost use Rattle.tiff_format.specs.Block.{blocks_of, plane_blocks, texel_bytes, block_bytes};
    ghost use Rattle.tiff_format.specs.Block.{block_texels_by, level_with};
    ghost use Rattle.tiff_format.specs.Facts.{HasOffsets};
    ghost use Rattle.tiff_format.specs.Limits.{max_side, max_channels};
    ghost use Rattle.tiff_dirs.specs.Shape.{seen_shape};
    ghost use Rattle.tiff_format.specs.Shown.{shown};
    ghost use Rattle.tiff_dirs.specs.Numbers.{tag_of_offsets};
    ghost use Rattle.tiff_dirs.specs.ReadLevel.{lies_within, first_outside};

    /// The number of strips or tiles of a plane.
    fn plane_blocks(&self) -> u64
        ensures count { result ≡ plane_blocks (seen_shape self.now) }
        ensures some { 1 ≤ result }
        ensures few { result ≤ max_side * max_side }
    {
        match self.tile {
            None => pieces(self.height, self.rows_per_strip),
            Some((width, height)) => pieces(self.width, width) * pieces(self.height, height),
        }
    }

    /// The number of strips or tiles.
    pub fn blocks(&self) -> u64
        ensures count { result ≡ blocks_of (seen_shape self.now) }
        ensures some { 1 ≤ result }
    {
        u64::from(self.planes) * self.plane_blocks()
    }

    /// The tag of the field with the offsets of the strips or tiles.
    pub fn offsets_tag(&self) -> u16
        ensures { result ≡ tag_of_offsets self.now.tile }
    {
        match self.tile {
            None => STRIP_OFFSETS,
            Some(_) => TILE_OFFSETS,
        }
    }

    /// The bytes of those samples of a texel that are stored together.
    fn texel_bytes(&self) -> u64
        ensures value { result ≡ texel_bytes (seen_shape self.now) }
        ensures few { result ≤ max_channels * 2 }
    {
        let sample = if self.depth == BYTE_BITS { 1 } else { 2 };
        let samples = if self.planes == 1 { self.channels } else { 1 };
        u64::from(samples) * sample
    }

    /// The number of texels in strip or tile i. The last strip of a plane may have fewer rows; a
    /// tile is padded.
    fn block_texels(&self, i: u32) -> u64
        ensures value { result ≡ block_texels_by (seen_shape self.now) self.now.tile i }
        ensures few { result ≤ max_side * max_side }
    {
        match self.tile {
            None => {
                let rows = u64::from(self.rows_per_strip);
                let strip = u64::from(i) % pieces(self.height, self.rows_per_strip);
                let left = u64::from(self.height).saturating_sub(rows * strip);
                rows.min(left) * u64::from(self.width)
            }
            Some((width, height)) => u64::from(width) * u64::from(height),
        }
    }

    /// The bytes of strip or tile i.
    fn block_bytes(&self, i: u32) -> u64
        ensures { result ≡ block_bytes (seen_shape self.now) i }
    {
        self.block_texels(i) * self.texel_bytes()
    }

    /// Whether strip or tile i lies in a file of this length, after the header.
    fn has_within(&self, form: Form, offsets: &[u64], i: u32, file: u64) -> bool
        requires { i < length offsets.now }
        ensures { result ≡ lies_within form file (level_with (seen_shape self.now) offsets.now) i }
    {
        let size = self.block_bytes(i);
        let offset = offsets[i as usize];
        form.header_bytes() <= offset && size <= file && offset <= file - size
    }

    /// The first strip or tile that does not lie in a file of this length, after the header.
    pub fn first_outside(&self, form: Form, offsets: &[u64], file: u64) -> Option<u32>
        requires { length offsets.now ≡ blocks_of (seen_shape self.now) }
        ensures { result ≡ first_outside form file (level_with (seen_shape self.now) offsets.now) }
    {
        for i in 0..offsets.len() as u32 {
            if !self.has_within(form, offsets, i, file) {
                return Some(i);
            }
        }
        None
    }

    /// The directory of the level with these offsets.
    pub fn dir(&self, offsets: Vec<u64>) -> Dir
        requires { HasOffsets (level_with (seen_shape self.now) offsets.items) }
        ensures { shown result ≡ level_with (seen_shape self.now) offsets.items }
    {
        Dir {
            width: self.width,
            height: self.height,
            channels: self.channels,
            planes: self.planes,
            depth: self.depth,
            white: self.white,
            rgb: self.rgb,
            tile: self.tile,
            rows_per_strip: self.rows_per_strip,
            offsets,
        }
    }
}

/// The number of pieces of this length that cover a side.
fn pieces(side: u32, piece: u32) -> u64
    requires side { IsSide side }
    requires piece { 1 ≤ piece }
    ensures count { result ≡ pieces_over side piece }
    ensures some { 1 ≤ result }
    ensures few { result ≤ side }
{
    let piece = u64::from(piece);
    (u64::from(side) + piece - 1) / piece
}
