//! Reads the texels of a rectangle of a stored level from the bytes of its file.
#![tactic(auto)]

mod place;
mod planes;
mod reading;
mod rect;
mod rect_error;
mod rows;
mod run;
mod samples;
mod texels;
mod window;

pub use place::PlaneRect;
pub use rect::{read_rect, read_texels};
pub use rect_error::RectError;
pub use texels::RectSamples;
pub use window::MAX_GAP;
