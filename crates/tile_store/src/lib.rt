//! The tiles in memory: tiles, and shards that keep them in the order of their last use, each with
//! a count of pins.
#![tactic(auto)]

mod entry;
mod evict;
mod keys;
mod links;
mod marks;
mod order;
mod purge;
mod row;
mod shard;
mod texels;
mod tile;
mod two_rows;

// clauses can name a shard only if the types of its fields are exported
#[doc(hidden)]
pub use entry::CachedTile;
#[doc(hidden)]
pub use keys::Keys;
#[doc(hidden)]
pub use links::Links;
#[doc(hidden)]
pub use marks::Marks;
#[doc(hidden)]
pub use order::Order;
pub use row::SampleRow;
pub use shard::Shard;
#[doc(hidden)]
pub use texels::Texels;
pub use tile::Tile;
pub use two_rows::TwoRows;
