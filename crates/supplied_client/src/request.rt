//! Requests as C writes them, and their conversion to the cache's requests.
ghost use Rattle.std.specs.Prelude.{◌≡◌, ◌↔◌, ◌<◌, IsSome, IfSome, IsTrue};
ghost use Rattle.texel_filter.specs.Deriv.{IsDerivNumber};
ghost use Rattle.texel_filter.specs.Image.{IsChannelCount};
ghost use Rattle.supplied_client.specs.Request.{IsPoint, IsFootprint, AreDerivNumbers};
ghost use Rattle.supplied_client.specs.Request.{point_of, footprint_of};
ghost use Rattle.supplied_client.specs.Request as spec;

use texel_filter::{DerivRequest, Filter, TexRequest, Wrap};

/// A lookup at a place or along a footprint.
#[repr(C)]
#[derive(Clone, Copy, Debug, PartialEq, Eq)]
pub struct TexLookup {
    /// The coordinates, in 1/65536 of the image's width and height.
    pub s: i32,
    pub t: i32,
    /// The LOD of a lookup at a place, in 1/65536 of a level.
    pub lod: u32,
    /// The wraps in s and t: 0 black, 1 clamp, 2 periodic, 3 mirror.
    pub swrap: u32,
    pub twrap: u32,
    /// The filter of a lookup at a place: 0 closest, 1 bilinear, 2 trilinear.
    pub filter: u32,
    /// The number of channels, 1 to 8.
    pub channels: u32,
    /// The derivatives of a lookup along a footprint: the change of s and t from a pixel to the
    /// next.
    pub dsdx: i32,
    pub dtdx: i32,
    pub dsdy: i32,
    pub dtdy: i32,
}

/// The range of coordinates and derivatives in a lookup along a footprint.
const LEAST: i32 = -1073741824;

const GREATEST: i32 = 1073741823;

impl TexLookup {
    /// The request at a place. `None` if a number is out of its range.
    pub fn point(&self) -> Option<TexRequest>
        ensures asked { IfSome result (λ r. r ≡ point_of self.now) }
        ensures good { IsSome result ↔ IsPoint self.now }
    {
        if !self.is_point() {
            return None;
        }
        Some(TexRequest {
            s: self.s,
            t: self.t,
            lod: self.lod,
            swrap: wrap_of(self.swrap),
            twrap: wrap_of(self.twrap),
            filter: filter_of(self.filter),
            nch: self.channels,
        })
    }

    /// Whether each number of a lookup at a place is in its range.
    fn is_point(&self) -> bool
        ensures { IsTrue result ↔ IsPoint self.now }
    {
        if !are_channels(self.channels) {
            return false;
        }
        if 4 <= self.swrap {
            return false;
        }
        if 4 <= self.twrap {
            return false;
        }
        self.filter < 3
    }

    /// The request along a footprint. `None` if a number is out of its range.
    pub fn footprint(&self) -> Option<DerivRequest>
        ensures asked { IfSome result (λ r. r ≡ footprint_of self.now) }
        ensures good { IsSome result ↔ IsFootprint self.now }
    {
        if !self.is_footprint() {
            return None;
        }
        Some(DerivRequest {
            s: self.s,
            t: self.t,
            dsdx: self.dsdx,
            dtdx: self.dtdx,
            dsdy: self.dsdy,
            dtdy: self.dtdy,
            swrap: wrap_of(self.swrap),
            twrap: wrap_of(self.twrap),
            nch: self.channels,
        })
    }

    /// Whether each number of a lookup along a footprint is in its range.
    fn is_footprint(&self) -> bool
        ensures { IsTrue result ↔ IsFootprint self.now }
    {
        if !are_channels(self.channels) {
            return false;
        }
        if 4 <= self.swrap {
            return false;
        }
        if 4 <= self.twrap {
            return false;
        }
        self.are_in_range()
    }

    /// Whether coordinates and derivatives are in the range for a footprint.
    fn are_in_range(&self) -> bool
        ensures { IsTrue result ↔ AreDerivNumbers self.now }
    {
        if !are_both_in_range(self.s, self.t) {
            return false;
        }
        if !are_both_in_range(self.dsdx, self.dtdx) {
            return false;
        }
        if !are_both_in_range(self.dsdy, self.dtdy) {
            return false;
        }
        true
    }
}

/// Whether a lookup can ask for `n` channels.
fn are_channels(n: u32) -> bool
    ensures { IsTrue result ↔ IsChannelCount n }
{
    1 <= n && n <= 8
}

/// Whether `n` is in the range of coordinates and derivatives.
fn is_in_range(n: i32) -> bool
    ensures { IsTrue result ↔ IsDerivNumber n }
{
    LEAST <= n && n <= GREATEST
}

/// Whether `s` and `t` are both in that range.
fn are_both_in_range(s: i32, t: i32) -> bool
    ensures { IsTrue result ↔ (IsDerivNumber s × IsDerivNumber t) }
{
    if !is_in_range(s) {
        return false;
    }
    is_in_range(t)
}

/// The wrap with this number, which is below 4.
pub fn wrap_of(n: u32) -> Wrap
    ensures { result ≡ spec.wrap_of n }
{
    match n {
        0 => Wrap::Black,
        1 => Wrap::Clamp,
        2 => Wrap::Periodic,
        _ => Wrap::Mirror,
    }
}

/// The filter with this number, which is below 3.
pub fn filter_of(n: u32) -> Filter
    ensures { result ≡ spec.filter_of n }
{
    match n {
        0 => Filter::Closest,
        1 => Filter::Bilinear,
        _ => Filter::Trilinear,
    }
}
