//! Why the directories of a file could not be read.

ghost use Rattle.std.specs.Prelude.{◌≡◌};
ghost use Rattle.tiff_entries.specs.declared.error.DirsError.TheVariants.{Fault, NoMemory};

use std::alloc::AllocError;
use tiff_format::TiffFault;

/// Why the directories of a file could not be read.
#[derive(Debug, Drop)]
pub enum DirsError<E> {
    /// The bytes have this fault.
    Fault(TiffFault),
    /// The reader failed with this error.
    Reader(E),
    /// Out of memory.
    NoMemory,
}

impl<E> From<TiffFault> for DirsError<E> {
    ghost from_gives = { λ fault e. e ≡ Fault fault };

    fn from(fault: TiffFault) -> Self {
        DirsError::Fault(fault)
    }
}

impl<E> From<AllocError> for DirsError<E> {
    ghost from_gives = { λ _ e. e ≡ NoMemory };

    fn from(_: AllocError) -> Self {
        DirsError::NoMemory
    }
}
