//! Reads the bytes of an open file through a borrowed tap and handle, with read-ahead.
#![tactic(auto)]

mod ahead_reader;
mod cell_rows;
mod course;
mod open_file;
mod planning;
mod read_ahead;
mod reader;
mod rows;
mod stretch;
mod wanted;
mod window;

pub use ahead_reader::AheadReader;
pub use cell_rows::CellRows;
pub use open_file::OpenFile;
pub use planning::Band;
pub use read_ahead::{MAX_AHEAD_BYTES, MAX_STRETCH_BYTES, ReadAhead};
pub use reader::TapReader;
pub use rows::Rows;
