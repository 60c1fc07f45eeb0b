//! Reads the arguments of the command line.

ghost use Rattle.std.specs.Prelude.{◌≡◌, map, IfOk, IfSome, option_map};
ghost use Rattle.std.specs.String.{string_bytes};
ghost use Rattle.clap.specs.Words.{app_of, found_of, kind_of, rows_of};
ghost use Rattle.command_line.specs.RunOptions.{IsInRange};
ghost use Rattle.command_line.specs.Command as line;
ghost use Rattle.command_line.specs.Invocation as spec;

use crate::command::command;
use crate::options::{RunOptions, options_of, text_of};
use clap::error::ErrorKind;
use clap::{ArgMatches, Command, Error};
use std::alloc::{AllocError, Global};

/// What the arguments ask for.
#[derive(Clone, Copy, Debug, PartialEq, Eq)]
pub struct Invocation<'a> {
    /// The path of the folder.
    pub folder: &'a str,
    /// The options of the run.
    pub options: RunOptions,
}

/// Why the arguments are not accepted.
#[derive(Clone, Copy, Debug, PartialEq, Eq)]
pub enum WordsError {
    /// They are not those of the command, or a number is out of range.
    Bad,
    /// Out of memory.
    NoMemory,
}

impl From<AllocError> for WordsError {
    ghost use Rattle.command_line.specs.declared.invocation.WordsError.TheVariants.{NoMemory};

    ghost from_gives = { λ _ e. e ≡ NoMemory };

    fn from(_e: AllocError) -> WordsError {
        WordsError::NoMemory
    }
}

/// Converts the error of the argument parser.
fn refused(error: &Error) -> WordsError
    ensures { result ≡ spec.refused (kind_of error.now) }
{
    match error.kind() {
        ErrorKind::OutOfMemory => WordsError::NoMemory,
        _ => WordsError::Bad,
    }
}

/// Parses the arguments.
fn taken<'a>(command: Command<'a>, words: &'a [String]) -> Result<ArgMatches<'a>, WordsError>
    requires { app_of command ≡ line.command }
    ensures { spec.TakesWords (map string_bytes words.entry.now) result }
{
    match command.try_get_matches_from(words) {
        Ok(matches) => Ok(matches),
        Err(error) => Err(refused(&error)),
    }
}

/// The folder and the options, from the parsed arguments.
fn asked_for<'a>(matches: &ArgMatches<'a>) -> Option<Invocation<'a>>
    ensures value { option_map spec.asked_in result
        ≡ spec.asked_for (rows_of (found_of matches.now)) }
    ensures in_range { IfSome result (λ i. IsInRange i.options) }
{
    let folder = text_of(matches, "FOLDER")?;
    let options = options_of(matches)?;
    Some(Invocation { folder, options })
}

/// What the arguments ask for. The program's name must not be among them.
pub fn invocation_of<'a>(alloc: Global, words: &'a [String]) -> Result<Invocation<'a>, WordsError>
    ensures exact { spec.IsAsked (spec.invocation_of (map string_bytes words.entry.now)) result }
    ensures in_range { IfOk result (λ i. IsInRange i.options) }
{
    let matches = taken(command(alloc)?, words)?;
    asked_for(&matches).ok_or(WordsError::Bad)
}
