//! A tap whose bytes a caller supplies, because it does the input and output itself: what is needed
//! next, what was supplied, and why a supply is refused.
#![tactic(auto)]

mod handle;
mod supply;
mod taking;
mod tap;
mod world;

pub use handle::SuppliedHandle;
pub use supply::{FileVersion, Need, RowsAt, Seen, SuppliedBytes, SuppliedRows, SupplyError};
pub use tap::SuppliedTap;
pub use world::SuppliedWorld;
