//! Many lookups of one file with one set of options.
ghost use Rattle.std.specs.Prelude.{◌≡◌};

use tex_aniso::EllipseRequest;
use texel_filter::{Filter, FineRequest, Wrap};

/// Where one lookup of a batch lies. A batch of points reads `s` and `t` alone.
#[repr(C)]
#[derive(Clone, Copy, Debug, PartialEq, Eq)]
pub struct LookupPoint {
    /// The coordinate across, in 1/2^32 of the width.
    pub s: i64,
    /// The coordinate down, in 1/2^32 of the height.
    pub t: i64,
    /// How far the coordinate across goes from a pixel to the next one to the right.
    pub dsdx: i64,
    /// How far the coordinate down goes from a pixel to the next one to the right.
    pub dtdx: i64,
    /// How far the coordinate across goes from a pixel to the next one below.
    pub dsdy: i64,
    /// How far the coordinate down goes from a pixel to the next one below.
    pub dtdy: i64,
}

/// What the points of a batch have in common.
#[derive(Clone, Copy, Debug, PartialEq, Eq)]
pub struct PointOptions {
    /// The LOD, in 1/65536 of a level.
    pub lod: u32,
    /// The wrap across.
    pub swrap: Wrap,
    /// The wrap down.
    pub twrap: Wrap,
    /// The filter.
    pub filter: Filter,
    /// The number of channels, from channel 0 on: 1 to 8.
    pub nch: u32,
}

impl PointOptions {
    ghost use Rattle.texture_sys.specs.Batch.{point_at};

    /// The lookup at a place.
    #[inline(always)]
    pub fn at(&self, place: &LookupPoint) -> FineRequest
        ensures { result ≡ point_at self.now place.now }
    {
        FineRequest {
            s: place.s,
            t: place.t,
            lod: self.lod,
            swrap: self.swrap,
            twrap: self.twrap,
            filter: self.filter,
            nch: self.nch,
        }
    }
}

/// What the footprints of a batch have in common.
#[derive(Clone, Copy, Debug, PartialEq, Eq)]
pub struct FootprintOptions {
    /// The most probes: 1 to 32. The number that is used is odd.
    pub max_probes: u32,
    /// The wrap across.
    pub swrap: Wrap,
    /// The wrap down.
    pub twrap: Wrap,
    /// The number of channels, from channel 0 on: 1 to 8.
    pub nch: u32,
}

impl FootprintOptions {
    ghost use Rattle.texture_sys.specs.Batch.{footprint_at};

    /// The lookup at a place.
    #[inline(always)]
    pub fn at(&self, place: &LookupPoint) -> EllipseRequest
        ensures { result ≡ footprint_at self.now place.now }
    {
        EllipseRequest {
            s: place.s,
            t: place.t,
            dsdx: place.dsdx,
            dtdx: place.dtdx,
            dsdy: place.dsdy,
            dtdy: place.dtdy,
            max_probes: self.max_probes,
            swrap: self.swrap,
            twrap: self.twrap,
            nch: self.nch,
        }
    }
}

/// The form of a batch's lookups, and their options.
#[derive(Clone, Copy, Debug, PartialEq, Eq)]
pub enum BatchOptions {
    /// Lookups at places.
    Points(PointOptions),
    /// Lookups over elliptical footprints.
    Footprints(FootprintOptions),
}

impl BatchOptions {
    ghost use Rattle.std.specs.Prelude.{◌↔◌, IsTrue};
    ghost use Rattle.texture_sys.specs.Batch.{batch_channels, IsPlaceInRange};

    /// The number of channels of each lookup.
    #[inline(always)]
    pub fn channels(&self) -> u32
        ensures { result ≡ batch_channels self.now }
    {
        match self {
            BatchOptions::Points(o) => o.nch,
            BatchOptions::Footprints(o) => o.nch,
        }
    }

    /// Whether a lookup at a place has all its numbers in range.
    pub fn allow(&self, place: &LookupPoint) -> bool
        ensures { IsTrue result ↔ IsPlaceInRange self.now place.now }
    {
        match self {
            BatchOptions::Points(o) => o.at(place).is_valid(),
            BatchOptions::Footprints(o) => o.at(place).is_valid(),
        }
    }
}

/// Lookups at several places, answered in order. The values of each follow those of the one before.
#[derive(Clone, Copy, Debug)]
pub struct Batch<'a> {
    /// The options of every lookup.
    pub options: BatchOptions,
    /// The places.
    pub places: &'a [LookupPoint],
}

impl Batch<'_> {
    ghost use Rattle.std.specs.Prelude.{IsNone, IfSome};
    ghost use Rattle.texture_sys.specs.Batch.{IsBatchInRange, IsFirstOutOfRange};

    /// The first lookup that has a number out of range.
    pub fn first_out_of_range(&self) -> Option<usize>
        ensures none { IsNone result → IsBatchInRange self.now }
        ensures some { IfSome result (IsFirstOutOfRange self.now) }
    {
        for i in 0..self.places.len() {
            if !self.options.allow(&self.places[i]) {
                return Some(i);
            }
        }
        None
    }
}
