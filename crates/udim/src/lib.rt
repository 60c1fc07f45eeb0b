//! UDIM textures: the file of the tile that contains a lookup.
#![tactic(auto)]

mod file;
mod name;
mod tile;

pub use file::Udim;
pub use name::udim;
