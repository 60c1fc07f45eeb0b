//! Files in memory for the crates of tests, modelled ones among them, a reader of bytes that fails on
//! plan, and the checks of a table of cases.
#![tactic(auto)]

mod built;
mod bytes;
mod checks;
mod image_file;
mod mem_reader;
mod one_file;
mod pictures;
mod plan;
mod sources;
mod strips;
mod tiled_file;
mod untold;

pub use bytes::THREE;
pub use checks::Checks;
pub use image_file::{Base, Edit, ImageFile};
pub use mem_reader::{Failed, MemReader};
pub use one_file::OneFile;
pub use pictures::Pictures;
pub use plan::{Planned, plan_of, taps_of};
pub use sources::Sources;
pub use strips::Strips;
pub use tiled_file::TiledFile;
pub use untold::{Untold, gray};
