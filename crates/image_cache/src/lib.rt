//! The cache of texels: files are cut into tiles that threads share. Each caller has its own pass,
//! and chooses how to wait for locks.
#![tactic(auto)]

mod cache;
mod checks;
mod error;
mod facts;
mod fetching;
mod holding;
mod invalidating;
mod opening;
mod options;
mod pixels;
mod shown;
mod squares;

pub use cache::Cache;
pub use checks::picture_of;
pub use error::{NotJoined, NotReleased, SplitError};
pub use options::{LargeOptions, NewError, Options};
pub use pixels::Pixels;
pub use texel_values::{Region, TexelAt};
pub use tile_source::{CacheError, Pass};
