//! How a call waits for a lock. A call that may find a lock taken is generic over a `Waiter`, so
//! that one body with one proof serves two kinds of callers.
//!
//! - A program has the runtime and makes a `Forever` from it. The call waits until it gets the
//! lock, and its busy answer has an empty type, so callers need not handle it.
//! - A renderer in C or C++ has no runtime, and its calls may not wait. It makes a `Tries`, and the
//! call gives up after that many tries.
//!
//! Generic code has no handle to the runtime and cannot wait; only the methods of `Forever` can.
#![tactic(auto)]

mod forever;
mod tries;
mod waiting;

pub use forever::Forever;
pub use tries::{GaveUp, Tries};
pub use waiting::Waiter;
