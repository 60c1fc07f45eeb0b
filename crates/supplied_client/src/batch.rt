//! Batches of lookups as C writes them, and what is answered about them.
ghost use Rattle.std.specs.Prelude.{◌≡◌, ◌↔◌, IsSome, IfSome, IsTrue};
ghost use Rattle.supplied_client.specs.Batch.{HasOptions, options_of};
ghost use Rattle.supplied_client.specs.Batch as spec;

use crate::answer::TexAnswer;
use crate::request::{filter_of, wrap_of};
use texture_sys::{BatchOptions, FootprintOptions, PointOptions};

/// What the lookups of a batch have in common.
#[repr(C)]
#[derive(Clone, Copy, Debug, PartialEq, Eq)]
pub struct TexBatch {
    /// The file.
    pub file: u32,
    /// The most probes of a footprint, 1 to 32; 0 for lookups at places.
    pub max_probes: u32,
    /// The LOD of lookups at places, in 1/65536 of a level.
    pub lod: u32,
    /// The filter of lookups at places: 0 closest, 1 bilinear, 2 trilinear.
    pub filter: u32,
    /// The wraps in s and t: 0 black, 1 clamp, 2 periodic, 3 mirror.
    pub swrap: u32,
    pub twrap: u32,
    /// The number of channels, 1 to 8.
    pub channels: u32,
}

impl TexBatch {
    /// The options. `None` if a wrap or the filter is out of its range.
    pub fn options(&self) -> Option<BatchOptions>
        ensures asked { IfSome result (λ o. o ≡ options_of self.now) }
        ensures good { IsSome result ↔ HasOptions self.now }
    {
        if !self.has_options() {
            return None;
        }
        let (swrap, twrap) = (wrap_of(self.swrap), wrap_of(self.twrap));
        if self.max_probes == 0 {
            return Some(BatchOptions::Points(PointOptions {
                lod: self.lod,
                swrap,
                twrap,
                filter: filter_of(self.filter),
                nch: self.channels,
            }));
        }
        Some(BatchOptions::Footprints(FootprintOptions {
            max_probes: self.max_probes,
            swrap,
            twrap,
            nch: self.channels,
        }))
    }

    /// Whether the wraps and the filter are in their ranges.
    fn has_options(&self) -> bool
        ensures { IsTrue result ↔ HasOptions self.now }
    {
        if 4 <= self.swrap {
            return false;
        }
        if 4 <= self.twrap {
            return false;
        }
        self.filter < 3
    }
}

/// What is answered about a batch besides the code.
#[repr(C)]
#[derive(Clone, Copy, Debug, PartialEq, Eq)]
pub struct TexBatchAnswer {
    /// How many lookups were answered before an error, or the first that is out of range.
    pub done: u64,
    /// The generation that was looked up.
    pub generation: u32,
    /// What belongs to the error.
    pub error: TexAnswer,
}

impl TexBatchAnswer {
    /// An answer with all fields 0.
    pub fn blank() -> TexBatchAnswer
        ensures { result ≡ spec.blank }
    {
        TexBatchAnswer {
            done: 0,
            generation: 0,
            error: TexAnswer::blank(),
        }
    }
}
