//! Trilinear probes at equal steps along a line, each with a weight.
ghost use Rattle.std.specs.Prelude.{◌≡◌, ◌↔◌, ◌-◌, ◌<◌, ◌≤◌, IsTrue};
ghost use Rattle.texel_filter.specs.Fine.{IsFineNumber, IsFinePlace};
ghost use Rattle.tex_aniso.specs.Line.{max_line_probes, total_weight, line_place, line_probe};
ghost use Rattle.tex_aniso.specs.Line.{IsProbeLine};
ghost use Rattle.tex_aniso.specs.Sums.{max_weight};

use texel_filter::{Filter, FineRequest, Wrap, is_count, is_fine};

/// The most probes of a line.
pub const MAX_LINE_PROBES: usize = 32;

// 32768 images, in 1/2^32 of the image.
const FARTHEST: i128 = 1 << 47;

/// A lookup of trilinear probes at equal steps along a line. Its value is their weighted mean.
/// The first and the last probe lie at -2^47 to 2^47 - 1, and some weight is above 0.
#[derive(Clone, Copy, Debug, PartialEq, Eq)]
pub struct ProbeLine {
    /// The coordinate across of the first probe, in 1/2^32 of the width.
    pub s: i64,
    /// The coordinate down of the first probe, in 1/2^32 of the height.
    pub t: i64,
    /// How far the coordinate across goes from a probe to the next one.
    pub ds: i64,
    /// How far the coordinate down goes from a probe to the next one.
    pub dt: i64,
    /// The level asked for by each probe, in 1/65536.
    pub lod: u32,
    /// The number of probes: 1 to 32.
    pub count: u32,
    /// The weights of the first `count` probes. The others are not read.
    pub weights: [u16; MAX_LINE_PROBES],
    /// The wrap across.
    pub swrap: Wrap,
    /// The wrap down.
    pub twrap: Wrap,
    /// The number of channels, from channel 0 on: 1 to 8.
    pub nch: u32,
}

impl ProbeLine {
    /// Whether it has 1 to 32 probes, all of them in range, and a weight above 0.
    pub fn is_valid(&self) -> bool
        ensures { IsTrue result ↔ IsProbeLine self.now }
    {
        if self.count < 1 || self.count as usize > MAX_LINE_PROBES || self.total() < 1 {
            return false;
        }
        if !is_line_fine(self.s, self.ds, self.count)
            || !is_line_fine(self.t, self.dt, self.count)
        {
            return false;
        }
        is_count(self.nch)
    }

    /// Probe j, from 0 on.
    pub fn probe(&self, j: u32) -> FineRequest
        requires line { IsProbeLine self.now }
        requires below { j < self.now.count }
        ensures value { result ≡ line_probe self.now j }
        ensures place { IsFinePlace result }
    {
        FineRequest {
            s: place_at(self.s, self.ds, j),
            t: place_at(self.t, self.dt, j),
            lod: self.lod,
            swrap: self.swrap,
            twrap: self.twrap,
            filter: Filter::Trilinear,
            nch: self.nch,
        }
    }

    /// The sum of the weights.
    pub(crate) fn total(&self) -> u32
        requires { self.now.count ≤ max_line_probes }
        ensures value { result ≡ total_weight self.now self.now.count }
        ensures high { result ≤ max_weight }
    {
        let mut sum = 0;
        for j in 0..self.count as usize {
            sum += u32::from(self.weights[j]);
        }
        sum
    }
}

// Whether the first and the last place are in range.
fn is_line_fine(first: i64, step: i64, count: u32) -> bool
    requires some { 1 ≤ count }
    requires few { count ≤ max_line_probes }
    ensures { IsTrue result
        ↔ (IsFineNumber first × IsFineNumber (line_place first step (count - 1))) }
{
    is_fine(first) && is_fine_wide(i128::from(first) + i128::from(count - 1) * i128::from(step))
}

// Whether a number that may be too large is a coordinate in range.
fn is_fine_wide(z: i128) -> bool
    ensures { IsTrue result ↔ IsFineNumber z }
{
    -FARTHEST <= z && z < FARTHEST
}

// Where probe j lies, of those from a place on.
fn place_at(first: i64, step: i64, j: u32) -> i64
    requires first { IsFineNumber first }
    requires place { IsFineNumber (line_place first step j) }
    ensures value { result ≡ line_place first step j }
    ensures in_range { IsFineNumber result }
{
    first + i64::from(j) * step
}
