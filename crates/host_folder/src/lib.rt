//! The real outside world: a folder of the file system, its taps, and a reader and a writer as feed
//! and sink.
#![tactic(auto)]

mod folder;
mod handle;
mod listed;
mod listing;
mod stamp;
mod stream;
mod tap;
mod world;

pub use folder::RealFolder;
pub use handle::RealHandle;
pub use stream::{RealFeed, RealSink};
pub use tap::RealTap;
pub use world::RealWorld;
