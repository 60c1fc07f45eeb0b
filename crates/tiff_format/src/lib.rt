//! The TIFF format (TIFF 6.0): its definitions in `specs/`, and the plain data types that they use.
#![tactic(auto)]

mod cut;
mod dir;
mod dirs;
mod fault;
mod form;
mod info;
mod limits;
mod rect;
mod shard_count;

pub use cut::{AUTOTILE_STEP, Cut, MAX_AUTOTILE};
pub use dir::Dir;
pub use dirs::Dirs;
pub use fault::TiffFault;
pub use form::{Form, HEADER_BYTES, MAX_COUNT_BYTES, MAX_OFFSET_BYTES};
pub use info::Info;
pub use limits::{MAX_CHANNELS, MAX_SIDE, TILE_STEP};
pub use rect::Rect;
pub use shard_count::ShardCount;
