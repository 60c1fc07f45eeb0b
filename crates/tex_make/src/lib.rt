//! Makes textures: reads an image from a folder, halves it down to one texel, and writes a tiled
//! file with all levels.
#![tactic(auto)]

mod asked;
mod ending;
mod field;
mod head;
mod level;
mod picture;
mod reading;
mod row;
mod texture;
mod tiles;
mod top;
mod words;
mod writing;

pub use ending::{NO_MEMORY, NOT_WRITTEN};
pub use top::make;
