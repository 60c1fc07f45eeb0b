//! The command line: its folder, and the options of a run.
#![tactic(auto)]

mod command;
mod invocation;
mod options;
mod range;

pub use invocation::{Invocation, WordsError, invocation_of};
pub use options::RunOptions;
pub use range::NumberRange;
