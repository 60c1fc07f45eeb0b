//! Why a cell could not be loaded.
ghost use Rattle.std.specs.Prelude.{◌≡◌};
ghost use Rattle.tile_load.specs.LoadError.{load_error_of};

use rect_read::RectError;
use tex_world::ReadError;

/// Why a cell could not be loaded.
#[derive(Clone, Copy, Debug, PartialEq, Eq)]
pub enum LoadError {
    /// An I/O error.
    ReadFault,
    /// The generation is gone, and the file has this newer one.
    Gone(u32),
    /// Out of memory.
    NoMemory,
}

/// Converts the error of reading a rectangle.
pub(crate) fn load_error(error: RectError<ReadError>) -> LoadError
    ensures { result ≡ load_error_of error }
{
    match error {
        RectError::Reader(ReadError::Failed) => LoadError::ReadFault,
        RectError::Reader(ReadError::Gone(to)) => LoadError::Gone(to),
        RectError::NoMemory => LoadError::NoMemory,
    }
}
