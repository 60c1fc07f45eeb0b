//! Why bytes are not a valid list of requests.

ghost use Rattle.std.specs.Prelude.{◌≡◌};
ghost use Rattle.request_lang.specs.Cause.{cause_number};

use std::alloc::{AllocError, AllocFailed};

/// Why a line is not a valid request, or the whole list is not valid.
#[derive(Clone, Copy, Debug, PartialEq, Eq)]
pub(crate) enum Cause {
    /// The line begins with a word that no request has.
    UnknownWord,
    /// The line ends before a field, or its name is empty.
    MissingField,
    /// A field that must be a number is not written as one.
    NotANumber,
    /// A number is out of its range.
    OutOfRange,
    /// A wrap or a filter is not one of the known words.
    UnknownChoice,
    /// Something follows a word that has no fields.
    TrailingText,
    /// The line is not UTF-8.
    NotUtf8,
    /// The line is valid, but would be one request too many.
    TooManyRequests,
    /// The list has too many bytes.
    TooLong,
}

impl Cause {
    /// The number that is printed for this cause.
    pub(crate) fn number(self) -> u32
        ensures { result ≡ cause_number self }
    {
        match self {
            Cause::UnknownWord => 1,
            Cause::MissingField => 2,
            Cause::NotANumber => 3,
            Cause::OutOfRange => 4,
            Cause::UnknownChoice => 5,
            Cause::TrailingText => 6,
            Cause::NotUtf8 => 7,
            Cause::TooManyRequests => 8,
            Cause::TooLong => 9,
        }
    }
}

/// The first invalid line of a list, and why it is invalid.
#[derive(Clone, Copy, Debug, PartialEq, Eq)]
pub struct BadList {
    /// The number of the line, counted from 1. 0 means the whole list.
    pub line: u32,
    /// The number of the first cause from left to right, 1 to 9.
    pub why: u32,
}

/// Why a list could not be parsed.
#[derive(Clone, Copy, Debug, PartialEq, Eq)]
pub enum ParseError {
    /// The list is invalid: its first invalid line, and the number of the first cause there.
    Bad { line: u32, why: u32 },
    /// Out of memory.
    NoMemory,
}

impl<T: Drop> From<AllocFailed<T>> for ParseError {
    ghost use Rattle.request_lang.specs.declared.cause.ParseError.TheVariants.{NoMemory};

    ghost from_gives = { λ _ e. e ≡ NoMemory };

    fn from(_e: AllocFailed<T>) -> ParseError {
        ParseError::NoMemory
    }
}

/// Why a line could not be parsed.
#[derive(Clone, Copy, Debug, PartialEq, Eq)]
pub(crate) enum Refusal {
    /// The line is invalid.
    Bad(Cause),
    /// Out of memory.
    NoMemory,
}

impl From<Cause> for Refusal {
    ghost use Rattle.request_lang.specs.declared.cause.Refusal.TheVariants.{Bad};

    ghost from_gives = { λ cause e. e ≡ Bad cause };

    fn from(cause: Cause) -> Refusal {
        Refusal::Bad(cause)
    }
}

impl From<AllocError> for Refusal {
    ghost use Rattle.request_lang.specs.declared.cause.Refusal.TheVariants.{NoMemory};

    ghost from_gives = { λ _ e. e ≡ NoMemory };

    fn from(_e: AllocError) -> Refusal {
        Refusal::NoMemory
    }
}
