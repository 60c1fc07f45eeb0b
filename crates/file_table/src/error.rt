//! The errors of the file table.
use std::alloc::AllocError;
use tex_world::OpenError;

/// Why a file has no record, or no handle of it can be lent.
#[derive(Clone, Copy, Debug, PartialEq, Eq)]
pub enum FileError<B> {
    /// An I/O error. The tap's count of faults has risen.
    ReadFault,
    /// Generation `from` was opened or asked for, and a newer one was met.
    Again { from: u32, to: u32 },
    /// Out of memory.
    NoMemory,
    /// The waiter gave up on a lock that the call needs.
    Busy(B),
}

impl<B> From<OpenError> for FileError<B> {
    ghost use Rattle.std.specs.Prelude.{◌≡◌};
    ghost use Rattle.file_table.specs.Calls.{of_open};

    ghost from_gives = { λ e refused. refused ≡ of_open e };

    fn from(e: OpenError) -> FileError<B> {
        match e {
            OpenError::Failed => FileError::ReadFault,
            OpenError::NoMemory => FileError::NoMemory,
        }
    }
}

impl<B> From<AllocError> for FileError<B> {
    ghost use Rattle.std.specs.Prelude.{◌≡◌};
    ghost use Rattle.file_table.specs.declared.error.FileError.TheVariants.{NoMemory};

    ghost from_gives = { λ _ e. e ≡ NoMemory };

    fn from(_e: AllocError) -> FileError<B> {
        FileError::NoMemory
    }
}

/// A `settle` gave up on a lock. The file comes back; dropping it closes its handle.
#[derive(Drop)]
pub struct NotSettled<F: Drop, B: Drop> {
    pub file: F,
    pub busy: B,
}
