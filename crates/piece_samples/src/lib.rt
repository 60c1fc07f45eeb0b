//! Converts pieces of rows to samples, and reads one row of texels without allocating.
#![tactic(auto)]

mod piece;
mod places;
mod row;
mod samples;
mod span;

pub use places::Places;
pub use row::{MAX_ROW_TEXELS, TexelRow, read_row};
pub use samples::{unpack_among, unpack_samples};
pub use span::Span;
