//! The cache as a static library for C, without input or output of its own. A call answers which
//! bytes it needs; the caller reads and supplies them, and calls again.
#![tactic(auto)]

mod exports;
mod exports_batch;
mod exports_supplies;
mod exports_tiles;
mod exports_versions;
mod held;
mod options;
mod parts;
mod room;

pub use held::Held;
pub use options::TexOptions;
pub use room::Room;
