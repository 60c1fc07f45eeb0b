//! The request of either kind of lookup.
ghost use Rattle.std.specs.Prelude.{◌≡◌};

use texel_filter::{DerivRequest, TexRequest};

/// A lookup at a place or along a footprint.
#[derive(Clone, Copy, Debug, PartialEq, Eq)]
pub enum LookupRequest {
    /// The values at a place, with the filter that the request names.
    Point(TexRequest),
    /// The mean of trilinear probes along the longer axis of a pixel's footprint.
    Footprint(DerivRequest),
}

impl LookupRequest {
    ghost use Rattle.texel_filter.specs.Image.{IsChannelCount};
    ghost use Rattle.texture_sys.specs.Asked.{channels_asked, MayBeLookedUp};
    ghost use Rattle.texture_sys.specs.Asked.{s_asked, t_asked, moved_to};

    /// The number of requested channels, 1 to 8.
    pub fn channels(&self) -> u32
        requires { MayBeLookedUp self.now }
        ensures value { result ≡ channels_asked self.now }
        ensures count { IsChannelCount result }
    {
        match self {
            LookupRequest::Point(r) => r.nch,
            LookupRequest::Footprint(r) => r.nch,
        }
    }

    /// The coordinates, s and t.
    pub fn place(&self) -> (i32, i32)
        ensures s { result.0 ≡ s_asked self.now }
        ensures t { result.1 ≡ t_asked self.now }
    {
        match self {
            LookupRequest::Point(r) => (r.s, r.t),
            LookupRequest::Footprint(r) => (r.s, r.t),
        }
    }

    /// A copy of this request with other coordinates.
    pub fn moved_to(&self, s: i32, t: i32) -> LookupRequest
        ensures { result ≡ moved_to self.now s t }
    {
        match self {
            LookupRequest::Point(r) => LookupRequest::Point(TexRequest { s, t, ..*r }),
            LookupRequest::Footprint(r) => LookupRequest::Footprint(DerivRequest { s, t, ..*r }),
        }
    }
}
