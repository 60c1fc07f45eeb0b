//! The exit statuses of a run.

/// The whole list was answered, and no line is a refusal.
pub const ALL_ANSWERED: u8 = 0;

/// The whole list was answered, and some line is a refusal.
pub const WITH_REFUSALS: u8 = 1;

/// The arguments are not those of the command.
pub const BAD_WORDS: u8 = 2;

/// The list is not valid.
pub const BAD_LIST: u8 = 3;

/// The folder or the input failed, or the folder has too many files.
pub const INPUT_FAULT: u8 = 4;

/// The output failed.
pub const NOT_WRITTEN: u8 = 5;

/// Out of memory outside an answer. No line of the current round was written.
pub const NO_MEMORY: u8 = 6;
