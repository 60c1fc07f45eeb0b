//! Makes the tiles of cells: of stored levels from the file's bytes, of generated levels from tiles
//! of the next larger level.
#![tactic(auto)]

mod bands;
mod halve_part;
mod halving;
mod load_error;
mod loading;
mod part_place;
mod part_span;
mod tiles;

pub use halving::Halving;
pub use load_error::LoadError;
pub use loading::{load, load_at};
