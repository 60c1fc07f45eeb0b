//! Lookups of filtered values in an image with levels: the wraps, and the filters closest, bilinear
//! and trilinear.
#![tactic(auto)]

mod coordinate;
mod fetch;
mod filters;
mod fine;
mod index;
mod mode;
mod request;
mod round;
mod square;
mod summing;
mod sums;
mod weighted;
mod weights;
mod writing;

pub use coordinate::{LevelPair, texels_from_edge};
pub use fetch::Fetch;
pub use filters::{bilinear, closest, lookup, trilinear, trisum};
pub use fine::{lookup_fine, trisum_fine};
pub use index::wrap;
pub use mode::Wrap;
pub use request::{DerivRequest, Filter, FineRequest, TexRequest, is_count, is_fine};
pub use square::{Corners, NARROW_NUMBERS, NARROW_SCALE, Square};
pub use weighted::level_sums;
