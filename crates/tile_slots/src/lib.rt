//! Parts of rows of stored levels in fixed slots, which callers share without a lock and without
//! allocating.
#![tactic(auto)]

mod claims;
mod extent;
mod fill_error;
mod part;
mod part_key;
mod reading;
mod slots;

pub use fill_error::FillError;
pub use part_key::{PART_TEXELS, PartKey};
pub use slots::{MAX_SLOTS, Slots};
