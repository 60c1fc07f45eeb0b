//! The errors of the outside world.

use std::alloc::AllocError;

/// An I/O error. The tap's count of faults has risen.
#[derive(Clone, Copy, Debug, PartialEq, Eq)]
pub struct Failed;

/// Out of memory.
#[derive(Clone, Copy, Debug, PartialEq, Eq)]
pub struct NoMemory;

impl From<AllocError> for NoMemory {
    ghost use Rattle.std.specs.Prelude.{⊤};

    ghost from_gives = { λ _ _. ⊤ };

    fn from(_e: AllocError) -> NoMemory {
        NoMemory
    }
}

/// Why a folder could not be entered.
#[derive(Clone, Copy, Debug, PartialEq, Eq)]
pub enum EnterError {
    /// An I/O error.
    Failed,
    /// The folder has more than `MAX_FILES` files.
    TooMany,
    /// Out of memory.
    NoMemory,
}

/// Why a file could not be opened.
#[derive(Clone, Copy, Debug, PartialEq, Eq)]
pub enum OpenError {
    /// An I/O error.
    Failed,
    /// Out of memory.
    NoMemory,
}

/// Why bytes could not be read.
#[derive(Clone, Copy, Debug, PartialEq, Eq)]
pub enum ReadError {
    /// An I/O error.
    Failed,
    /// The handle's generation is gone; the file has this newer one.
    Gone(u32),
}
