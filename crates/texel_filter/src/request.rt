//! What a lookup asks for.
ghost use Rattle.std.specs.Prelude.{◌≡◌, ◌↔◌, ℕ, pos, ◌*ℤ◌, IsTrue};
ghost use Rattle.texel_filter.specs.Image.{IsChannelCount};
ghost use Rattle.texel_filter.specs.Coordinate.{from_first_edge};
ghost use Rattle.texel_filter.specs.Fine.{fine_of, IsFineNumber, IsFinePlace, IsFineRequest};

use crate::mode::Wrap;
use tiff_format::MAX_CHANNELS;

/// How the value of a lookup follows from the texels round it.
#[derive(Clone, Copy, Debug, PartialEq, Eq)]
pub enum Filter {
    /// The texel in which the coordinates lie, in the level nearest to the LOD.
    Closest,
    /// The weighted mean of four texels, in the level nearest to the LOD.
    Bilinear,
    /// The weighted mean of four texels of each of the two levels about the LOD.
    Trilinear,
}

/// A lookup with coordinates in 1/65536 of the image.
#[derive(Clone, Copy, Debug, PartialEq, Eq)]
pub struct TexRequest {
    /// The coordinate across, from left to right, in 1/65536 of the width.
    pub s: i32,
    /// The coordinate down, from top to bottom, in 1/65536 of the height.
    pub t: i32,
    /// The level asked for, in 1/65536. Level 0 is the largest.
    pub lod: u32,
    /// The wrap across.
    pub swrap: Wrap,
    /// The wrap down.
    pub twrap: Wrap,
    /// The filter.
    pub filter: Filter,
    /// The number of channels, from channel 0 on: 1 to 8.
    pub nch: u32,
}

impl TexRequest {
    /// This lookup with its coordinates in 1/2^32 of the image. It lies at exactly the same place
    /// of each level.
    #[inline(always)]
    pub fn fine(&self) -> FineRequest
        ensures value { result ≡ fine_of self.now }
        ensures place { IsFinePlace result }
        ensures across { (n : ℕ) → from_first_edge result.s n ≡ self.now.s *ℤ pos n }
        ensures down { (n : ℕ) → from_first_edge result.t n ≡ self.now.t *ℤ pos n }
    {
        FineRequest {
            s: i64::from(self.s) * COARSE_STEP,
            t: i64::from(self.t) * COARSE_STEP,
            lod: self.lod,
            swrap: self.swrap,
            twrap: self.twrap,
            filter: self.filter,
            nch: self.nch,
        }
    }
}

// 1/65536 of the image, in 1/2^32.
const COARSE_STEP: i64 = 65536;

/// A lookup with coordinates in 1/2^32 of the image, which is finer than a texel of the largest
/// image by a factor of 32768.
#[derive(Clone, Copy, Debug, PartialEq, Eq)]
pub struct FineRequest {
    /// The coordinate across, from left to right, in 1/2^32 of the width: -2^47 to 2^47 - 1.
    pub s: i64,
    /// The coordinate down, from top to bottom, in 1/2^32 of the height: -2^47 to 2^47 - 1.
    pub t: i64,
    /// The level asked for, in 1/65536. Level 0 is the largest.
    pub lod: u32,
    /// The wrap across.
    pub swrap: Wrap,
    /// The wrap down.
    pub twrap: Wrap,
    /// The filter.
    pub filter: Filter,
    /// The number of channels, from channel 0 on: 1 to 8.
    pub nch: u32,
}

impl FineRequest {
    /// Whether the coordinates and the number of channels are in range.
    pub fn is_valid(&self) -> bool
        ensures { IsTrue result ↔ IsFineRequest self.now }
    {
        is_fine(self.s) && is_fine(self.t) && is_count(self.nch)
    }
}

const FARTHEST: i64 = 1 << 47;

/// Whether a coordinate in 1/2^32 of the image is in range: at most 32768 images from the edge.
pub fn is_fine(coordinate: i64) -> bool
    ensures { IsTrue result ↔ IsFineNumber coordinate }
{
    -FARTHEST <= coordinate && coordinate < FARTHEST
}

/// Whether a number of channels is in range: 1 to 8.
pub fn is_count(channels: u32) -> bool
    ensures { IsTrue result ↔ IsChannelCount channels }
{
    1 <= channels && channels as usize <= MAX_CHANNELS
}

/// A lookup along the longer axis of a pixel's footprint. Each of its six numbers is -2^30 to
/// 2^30 - 1.
#[derive(Clone, Copy, Debug, PartialEq, Eq)]
pub struct DerivRequest {
    /// The coordinate across of the middle of the footprint, in 1/65536 of the width.
    pub s: i32,
    /// The coordinate down, in 1/65536 of the height.
    pub t: i32,
    /// How far the coordinate across goes from a pixel to the next one to the right.
    pub dsdx: i32,
    /// How far the coordinate down goes from a pixel to the next one to the right.
    pub dtdx: i32,
    /// How far the coordinate across goes from a pixel to the next one below.
    pub dsdy: i32,
    /// How far the coordinate down goes from a pixel to the next one below.
    pub dtdy: i32,
    /// The wrap across.
    pub swrap: Wrap,
    /// The wrap down.
    pub twrap: Wrap,
    /// The number of channels, from channel 0 on: 1 to 8.
    pub nch: u32,
}
