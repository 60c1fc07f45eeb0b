//! The newest known generation of each file, in atomic words that threads share, and views of what
//! each caller has seen. No call waits; only `new` and `split` allocate.
#![tactic(auto)]

mod board;
mod later;
mod rule;
mod sight;
mod steps;
mod view;

pub use board::Board;
pub use view::View;
