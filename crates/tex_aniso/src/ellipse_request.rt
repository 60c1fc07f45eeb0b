//! What a lookup over an elliptical footprint asks for.
ghost use Rattle.std.specs.Prelude.{◌↔◌, IsTrue};
ghost use Rattle.tex_aniso.specs.Shape.{IsMiddle, IsPixelStep};

use crate::probe_line::MAX_LINE_PROBES;
use texel_filter::{Wrap, is_count};

/// A lookup over a pixel's footprint: the ellipse that the steps to the next pixels span.
#[derive(Clone, Copy, Debug, PartialEq, Eq)]
pub struct EllipseRequest {
    /// The coordinate across of the middle, in 1/2^32 of the width: -2^46 to 2^46.
    pub s: i64,
    /// The coordinate down of the middle, in 1/2^32 of the height: -2^46 to 2^46.
    pub t: i64,
    /// How far the coordinate across goes from a pixel to the next one to the right. This and the
    /// other three steps are -2^46 to 2^46 - 1.
    pub dsdx: i64,
    /// How far the coordinate down goes from a pixel to the next one to the right.
    pub dtdx: i64,
    /// How far the coordinate across goes from a pixel to the next one below.
    pub dsdy: i64,
    /// How far the coordinate down goes from a pixel to the next one below.
    pub dtdy: i64,
    /// The most probes: 1 to 32. The number that is used is odd.
    pub max_probes: u32,
    /// The wrap across.
    pub swrap: Wrap,
    /// The wrap down.
    pub twrap: Wrap,
    /// The number of channels, from channel 0 on: 1 to 8.
    pub nch: u32,
}

impl EllipseRequest {
    ghost use Rattle.tex_aniso.specs.Shape.{IsEllipseRequest};

    /// Whether its numbers are in range.
    pub fn is_valid(&self) -> bool
        ensures { IsTrue result ↔ IsEllipseRequest self.now }
    {
        if !is_middle(self.s) || !is_middle(self.t) {
            return false;
        }
        if !is_pixel_step(self.dsdx) || !is_pixel_step(self.dtdx) {
            return false;
        }
        if !is_pixel_step(self.dsdy) || !is_pixel_step(self.dtdy) {
            return false;
        }
        if self.max_probes < 1 || self.max_probes as usize > MAX_LINE_PROBES {
            return false;
        }
        is_count(self.nch)
    }
}

// 16384 images, in 1/2^32 of the image.
const FARTHEST: i64 = 1 << 46;

// Whether a coordinate of the middle is in range.
fn is_middle(z: i64) -> bool
    ensures { IsTrue result ↔ IsMiddle z }
{
    -FARTHEST <= z && z <= FARTHEST
}

// Whether a step to the next pixel is in range.
fn is_pixel_step(z: i64) -> bool
    ensures { IsTrue result ↔ IsPixelStep z }
{
    -FARTHEST <= z && z < FARTHEST
}
