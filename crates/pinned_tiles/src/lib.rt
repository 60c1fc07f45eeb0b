//! What one pass has pinned: its microcache, its holds, and one tile in hand whose pin is on its
//! way in or out.
#![tactic(auto)]

mod cell;
mod hand;
mod holds;
mod pinned;
mod recent;
mod recent_tile;

pub use cell::{CellAt, is_tile_of};
pub use pinned::{MAX_HOLDS, Pinned};
