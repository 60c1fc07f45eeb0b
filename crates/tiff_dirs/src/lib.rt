//! Reads the directories of a TIFF file: its levels, or the first fault of its bytes (TIFF 6.0).
#![tactic(auto)]

mod chain;
mod fields;
mod level;
mod numbers;
mod offsets;
mod read;
mod read_level;
mod sample_fields;
mod shape;

pub use read::read_dirs;
