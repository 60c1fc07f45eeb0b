//! The fields with a single number, and their faults.

ghost use Rattle.std.specs.Prelude.{◌≡◌, ◌||◌, ◌==◌, false, IsTrue};
ghost use Rattle.tiff_format.specs.Facts.{IsDepth};
ghost use Rattle.tiff_format.specs.DirectoryFault.{is_tile_side as spec_tile_side};
ghost use Rattle.tiff_format.specs.Block.{planes_by};
ghost use Rattle.tiff_dirs.specs.Shape.{seen_shape};
ghost use Rattle.tiff_entries.specs.Calls.{Tests};
ghost use Rattle.tiff_format.specs.declared.fault.TiffFault.TheVariants.{Unsupported};
ghost use Rattle.tiff_dirs.specs.Numbers.{value_fault, size_fault, is_bad_tile, is_large};
ghost use Rattle.tiff_dirs.specs.Numbers.{numbers_shape};

use crate::shape::ReadShape;
use tiff_entries::tag::{COMPRESSION, PHOTOMETRIC, PLANAR_CONFIGURATION};
use tiff_format::{MAX_CHANNELS, MAX_SIDE, TILE_STEP, TiffFault};

/// Compression: none.
const UNCOMPRESSED: u64 = 1;

/// PhotometricInterpretation: the values of WhiteIsZero and RGB.
const WHITE_IS_ZERO: u64 = 0;

const RGB: u64 = 2;

/// PlanarConfiguration: the samples of a pixel are stored together, or in one plane each.
const CHUNKY: u64 = 1;

const PLANAR: u64 = 2;

/// The first values of the fields with a single number, as the file has them.
#[derive(Clone, Copy)]
pub struct Numbers {
    pub width: u64,
    pub height: u64,
    /// BitsPerSample of the first sample.
    pub bits: u64,
    pub compression: u64,
    pub photometric: u64,
    pub samples: u64,
    pub planar: u64,
    /// TileWidth and TileLength, if the directory is tiled.
    pub tile: Option<(u64, u64)>,
    /// RowsPerStrip; 2^32 - 1 if the file says more, or if it is tiled.
    pub rows_per_strip: u32,
}

/// The fault of a value that is not supported.
pub fn unsupported(tag: u16, value: u64) -> TiffFault
    ensures { result ≡ Unsupported tag value }
{
    TiffFault::Unsupported {
        tag: u32::from(tag),
        value,
    }
}

/// Whether a tile may have this side.
fn is_tile_side(side: u64) -> bool
    ensures { result ≡ spec_tile_side side }
{
    side != 0 && side <= u64::from(MAX_SIDE) && side % u64::from(TILE_STEP) == 0
}

/// Whether a tile has a side that it may not have.
fn is_bad(tile: Option<(u64, u64)>) -> bool
    ensures { result ≡ is_bad_tile tile }
{
    match tile {
        Some((width, height)) => !(is_tile_side(width) && is_tile_side(height)),
        None => false,
    }
}

/// The sides in fewer bits.
fn sides_of(tile: Option<(u64, u64)>) -> Option<(u32, u32)>
    requires { is_bad_tile tile ≡ false }
    ensures { result ≡ tile }
{
    match tile {
        Some((width, height)) => Some((width as u32, height as u32)),
        None => None,
    }
}

impl Numbers {
    /// Checks the values, except those that exist for each sample.
    pub fn test_values(&self) -> Result<(), TiffFault>
        ensures { Tests (value_fault self.now) (λ _. Unit {0}) result }
    {
        if self.compression != UNCOMPRESSED {
            return Err(unsupported(COMPRESSION, self.compression));
        }
        if self.photometric > RGB {
            return Err(unsupported(PHOTOMETRIC, self.photometric));
        }
        if self.planar != CHUNKY && self.planar != PLANAR {
            return Err(unsupported(PLANAR_CONFIGURATION, self.planar));
        }
        Ok(())
    }

    /// The number of planes: 1 if the samples of a pixel are stored together.
    fn planes(&self) -> u64
        ensures { result ≡ planes_by self.now.planar self.now.samples }
    {
        if self.planar == PLANAR {
            self.samples
        } else {
            1
        }
    }

    /// Whether a side or the samples per pixel exceed the limits.
    fn is_large(&self) -> bool
        ensures { result ≡ is_large self.now }
    {
        let side = u64::from(MAX_SIDE);
        self.width > side || self.height > side || self.samples > MAX_CHANNELS as u64
    }

    /// The shape given by these numbers.
    pub fn shape(&self) -> Result<ReadShape, TiffFault>
        requires { IsDepth self.now.bits }
        ensures { Tests (size_fault self.now)
            (λ shape. seen_shape shape ≡ numbers_shape self.now) result }
    {
        if self.width == 0 || self.height == 0 || self.samples == 0 || self.rows_per_strip == 0 {
            return Err(TiffFault::ZeroSize);
        }
        if self.is_large() {
            return Err(TiffFault::TooLarge);
        }
        if is_bad(self.tile) {
            return Err(TiffFault::TileShape);
        }
        Ok(ReadShape {
            width: self.width as u32,
            height: self.height as u32,
            channels: self.samples as u32,
            planes: self.planes() as u32,
            depth: self.bits as u32,
            white: self.photometric == WHITE_IS_ZERO,
            rgb: self.photometric == RGB,
            tile: sides_of(self.tile),
            rows_per_strip: self.rows_per_strip,
        })
    }
}
