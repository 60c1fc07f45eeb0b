//! Reads the entries of a TIFF file's directories: where each field's values are (TIFF 6.0).
#![tactic(auto)]

mod directory;
mod entry;
mod error;
mod found;
mod header;
mod place;
mod reader;
pub mod tag;

pub use directory::{Directory, read_directory};
pub use entry::{Entry, LONG_BYTES, LONG8_BYTES};
pub use error::DirsError;
pub use found::Found;
pub use header::read_header;
pub use place::FilePlace;
pub use reader::{ByteReader, MAX_READ_BYTES};
