//! The layout of a TIFF file: how many levels it has, how large they are, how they are divided into
//! cells, and where their texels are.
#![tactic(auto)]

mod cut_side;
mod grid;
mod key;
mod layout;
mod piece;
mod pieces;
mod place;
mod texel_format;

pub use cut_side::CutSide;
pub use grid::{Grid, MAX_CELL_BYTES};
pub use key::TileKey;
pub use layout::Layout;
pub use piece::Piece;
pub use pieces::Pieces;
pub use texel_format::TexelFormat;
