//! One caller of a cache as one value: the cache, how to wait for locks, a pass and a tap.
#![tactic(auto)]

mod caller;
mod files;
mod holds;
mod lookups;
mod passes;

pub use caller::{Caller, again};
pub use passes::NotJoined;
