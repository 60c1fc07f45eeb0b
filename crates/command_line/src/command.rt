//! Describes the command line: its folder, options and flag.

ghost use Rattle.std.specs.Prelude.{◌≡◌, IfOk, false};
ghost use Rattle.clap.specs.Words.{app_of, rule_of};
ghost use Rattle.command_line.specs.Command as spec;

use clap::{Arg, ArgAction, Command};
use std::alloc::{AllocError, Global};

/// The folder: the argument without a name.
fn folder<'a>(alloc: Global) -> Arg<'a>
    ensures rule { rule_of result ≡ spec.folder }
    ensures local { result.global ≡ false }
{
    Arg::new(alloc, "FOLDER")
        .required(true)
        .action(ArgAction::Set)
}

/// An option: `--NAME VALUE` or `--NAME=VALUE`.
fn option<'a>(alloc: Global, name: &'a str) -> Arg<'a>
    ensures rule { rule_of result ≡ spec.option name.entry.now }
    ensures local { result.global ≡ false }
{
    Arg::new(alloc, name).long(name).action(ArgAction::Set)
}

/// A flag: `--NAME`.
fn flag<'a>(alloc: Global, name: &'a str) -> Arg<'a>
    ensures rule { rule_of result ≡ spec.flag name.entry.now }
    ensures local { result.global ≡ false }
{
    Arg::new(alloc, name).long(name).action(ArgAction::SetTrue)
}

/// The command with its folder, its options and its flag.
pub(crate) fn command<'a>(alloc: Global) -> Result<Command<'a>, AllocError>
    ensures { IfOk result (λ c. app_of c ≡ spec.command) }
{
    Command::new(alloc, "texcache")
        .no_binary_name(true)
        .disable_help_flag(true)
        .arg(folder(alloc))?
        .arg(option(alloc, "workers"))?
        .arg(option(alloc, "budget"))?
        .arg(option(alloc, "shards"))?
        .arg(option(alloc, "handles"))?
        .arg(option(alloc, "autotile"))?
        .arg(option(alloc, "slots"))?
        .arg(flag(alloc, "no-automip"))
}
