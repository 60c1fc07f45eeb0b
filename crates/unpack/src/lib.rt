//! Converts the bytes of a strip or tile to samples (TIFF 6.0).
#![tactic(auto)]

mod passes;
mod plane;
mod unpacking;

pub use plane::{unpack_plane, unpack_plane_as};
pub use unpacking::{unpack, unpack_as};
