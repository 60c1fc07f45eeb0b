//! All tiles in memory, in shards that threads share. A caller pins a tile by its key, reads it
//! while it has the pin, and gives the pin back. A thread locks one shard at a time, and only while
//! it looks something up.
#![tactic(auto)]

mod error;
mod gate;
mod laid;
mod pin;
mod pin_seat;
mod rule;
mod seats;
mod shard_table;
mod standing;
mod steps;
mod turn_seat;
mod turn_table;
mod work;

pub use error::{NotPinned, NotUnpinned, PinError};
pub use gate::Gate;
pub use pin::Pin;
pub use pin_seat::PinSeat;
pub use rule::{MORE_SLOTS, PINS_PER_PERMIT};
