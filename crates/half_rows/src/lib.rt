//! Halves two rows of texels into one row of the next smaller level.
#![tactic(auto)]

mod quarters;

pub use quarters::halve_row_at;
