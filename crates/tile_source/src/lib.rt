//! Where a cache's tiles and texels come from: a pass's own tiles, the shards, the files, or the
//! next larger level.
#![tactic(auto)]

mod cell;
mod cell_load;
mod error;
mod need;
mod pass;
mod pin_or_make;
mod source;
mod store;
mod texel;
mod uncached;

pub use cell::cell_at;
pub use error::CacheError;
pub use pass::Pass;
pub use source::TileSource;
pub use store::Store;
pub use texel::write_texel;
