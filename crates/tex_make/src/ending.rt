//! Why no texture was made, and the exit status for it.

ghost use Rattle.std.specs.Prelude.{◌≡◌};

/// The whole file was written.
pub(crate) const MADE: u8 = 0;

/// The arguments are not of the right form.
pub(crate) const BAD_WORDS: u8 = 2;

/// The output failed.
pub const NOT_WRITTEN: u8 = 5;

/// Out of memory, and nothing was written.
pub const NO_MEMORY: u8 = 6;

/// Why nothing was written.
#[derive(Clone, Copy, Debug, PartialEq, Eq)]
pub(crate) enum MakeError {
    /// The folder or its tap failed.
    Failed,
    /// Out of memory.
    NoMemory,
    /// The folder has no file with this name.
    NoSuchFile,
    /// The bytes of the file have a fault.
    BadFile,
    /// Level 0 has too many samples.
    TooLarge,
    /// The file was changed while it was read.
    Gone,
    /// The folder has too many files.
    TooMany,
}

impl MakeError {
    ghost use Rattle.tex_make.specs.MakeError.{status_of};

    /// The exit status.
    pub(crate) fn status(self) -> u8
        ensures { result ≡ status_of self }
    {
        match self {
            MakeError::Failed => 4,
            MakeError::NoMemory => NO_MEMORY,
            MakeError::NoSuchFile => 7,
            MakeError::BadFile => 8,
            MakeError::TooLarge => 9,
            MakeError::Gone => 10,
            MakeError::TooMany => 11,
        }
    }
}
