//! Texture lookups: at a place, along a pixel's footprint, or from the microcache alone.
#![tactic(auto)]

mod asking;
mod batch;
mod cached_texels;
mod calls;
mod kept;
mod local;
mod lookup;
mod lookup_request;
mod stopped;
mod texels;
mod texturing;

pub use batch::{Batch, BatchOptions, FootprintOptions, LookupPoint, PointOptions};
pub use calls::{texture, texture_d};
pub use local::{local_at, texture_local};
pub use lookup::{FileLookup, FileLookups, Lookup, Lookups};
pub use lookup_request::LookupRequest;
pub use stopped::Stopped;
pub use texturing::texture_at;
