//! Why a part could not be read.
ghost use Rattle.std.specs.Prelude.{◌≡◌};
ghost use Rattle.tile_slots.specs.FillError.{fill_error_of};

use tex_world::ReadError;

/// Why a part could not be read.
#[derive(Clone, Copy, Debug, PartialEq, Eq)]
pub enum FillError {
    /// An I/O error.
    ReadFault,
    /// The generation is gone; the file has this newer one.
    Gone(u32),
}

/// Converts the error of a read.
pub(crate) fn fill_error(error: ReadError) -> FillError
    ensures { result ≡ fill_error_of error }
{
    match error {
        ReadError::Failed => FillError::ReadFault,
        ReadError::Gone(to) => FillError::Gone(to),
    }
}
