//! Why a rectangle could not be read.
ghost use Rattle.std.specs.Prelude.{◌≡◌};
ghost use Rattle.rect_read.specs.declared.rect_error.RectError.TheVariants.{NoMemory};

use std::alloc::AllocError;

/// Why a rectangle could not be read.
#[derive(Debug, Drop)]
pub enum RectError<E> {
    /// The reader failed with this error.
    Reader(E),
    /// Out of memory.
    NoMemory,
}

impl<E> From<AllocError> for RectError<E> {
    ghost from_gives = { λ _ e. e ≡ NoMemory };

    fn from(_e: AllocError) -> RectError<E> {
        RectError::NoMemory
    }
}
