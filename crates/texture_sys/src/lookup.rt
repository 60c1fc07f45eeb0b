//! What a lookup through the cache asks for, in any form.

use crate::batch::Batch;
use crate::lookup_request::LookupRequest;
use tex_aniso::{EllipseRequest, ProbeLine};
use texel_filter::FineRequest;

/// A lookup, by its form.
#[derive(Clone, Copy, Debug, PartialEq, Eq)]
pub enum Lookup {
    /// Coordinates in 1/65536 of the image.
    Coarse(LookupRequest),
    /// Coordinates in 1/2^32 of the image.
    Fine(FineRequest),
    /// Given trilinear probes along a line.
    Probes(ProbeLine),
    /// An elliptical footprint.
    Ellipse(EllipseRequest),
}

/// One lookup, or many with the same options.
#[derive(Clone, Copy, Debug)]
pub enum Lookups<'a> {
    /// One lookup.
    One(Lookup),
    /// A batch.
    Many(Batch<'a>),
}

/// A lookup in a file of the cache, by the file's number.
#[derive(Clone, Copy, Debug, PartialEq, Eq)]
pub struct FileLookup {
    /// The file.
    pub file: u32,
    /// The lookup.
    pub lookup: Lookup,
}

/// One lookup or many in a file of the cache, by the file's number.
#[derive(Clone, Copy, Debug)]
pub struct FileLookups<'a> {
    /// The file.
    pub file: u32,
    /// The lookups.
    pub lookups: Lookups<'a>,
}
