//! Converts samples in tiles to 16-bit values: of one texel, of four texels, or of a region cell by
//! cell.
#![tactic(auto)]

mod area;
mod cells;
mod overlap;
mod painting;
mod region;
mod square;
mod texel_at;
mod values;
mod window;

pub use area::Area;
pub use overlap::Overlap;
pub use painting::paint;
pub use region::Region;
pub use square::write_square;
pub use texel_at::TexelAt;
pub use values::{write_channels, write_values};
pub use window::RegionShape;
