//! A lock around a value. Whoever takes the value out owns it until it is put back. A tag, fixed
//! when the lock is made, says by a rule which values fit, and every value taken out fits.
//! Contracts do not say which of the fitting values a taker gets, nor that a try ever succeeds.
#![tactic(auto)]

mod lock;
mod place;
mod rule;

pub use lock::{NotPut, TagLock};
pub use rule::TagRule;
