//! The options of a run.

ghost use Rattle.std.specs.Prelude.{◌≡◌, ◌<◌, ◌≤◌, IfSome, option_map};
ghost use Rattle.clap.specs.Words.{first_of, found_of, rows_of};
ghost use Rattle.command_line.specs.Range.{Takes};
ghost use Rattle.command_line.specs.RunOptions as spec;

use crate::range::{
    AUTOTILE, BUDGET, HANDLES, NumberRange, SHARDS, SLOTS, WORKERS, number_or_default,
};
use clap::ArgMatches;
use tiff_format::Cut;

/// The options of a run.
#[derive(Clone, Copy, Debug, PartialEq, Eq)]
pub struct RunOptions {
    /// The number of workers that answer requests.
    pub workers: u32,
    /// The most bytes of cached texels.
    pub budget: u64,
    /// The number of shards of the cache.
    pub shards: u32,
    /// The number of idle files that are kept open.
    pub handles: u32,
    /// How levels are divided into cells, and whether smaller levels are generated.
    pub cut: Cut,
    /// The number of slots for parts of rows whose tiles find no memory.
    pub slots: u32,
}

/// The text of an argument, given or by default.
pub(crate) fn text_of<'a>(matches: &ArgMatches<'a>, name: &str) -> Option<&'a str>
    ensures { option_map (λ s. s.now) result ≡ first_of name.now (rows_of (found_of matches.now)) }
{
    matches.get_str(name)
}

/// The number of an option, given or by default.
fn number(matches: &ArgMatches<'_>, name: &str, range: NumberRange) -> Option<u64>
    requires step { 0 < range.step }
    requires default { Takes range range.default }
    ensures value { result ≡ spec.number range name.now (rows_of (found_of matches.now)) }
    ensures within { IfSome result (Takes range) }
{
    number_or_default(range, text_of(matches, name))
}

/// Whether the flag was given.
fn is_given(matches: &ArgMatches<'_>, name: &str) -> bool
    ensures { result ≡ spec.is_given name.now (rows_of (found_of matches.now)) }
{
    text_of(matches, name) == Some("true")
}

/// The options, from the parsed arguments.
pub(crate) fn options_of(matches: &ArgMatches<'_>) -> Option<RunOptions>
    ensures value { result ≡ spec.options_of (rows_of (found_of matches.now)) }
    ensures in_range { IfSome result spec.IsInRange }
{
    let workers = number(matches, "workers", WORKERS)?;
    let budget = number(matches, "budget", BUDGET)?;
    let shards = number(matches, "shards", SHARDS)?;
    let handles = number(matches, "handles", HANDLES)?;
    let autotile = number(matches, "autotile", AUTOTILE)?;
    let slots = number(matches, "slots", SLOTS)?;
    Some(RunOptions {
        workers: workers as u32,
        budget,
        shards: shards as u32,
        handles: handles as u32,
        cut: Cut {
            autotile: autotile as u32,
            automip: !is_given(matches, "no-automip"),
        },
        slots: slots as u32,
    })
}
