//! Makes a list of requests from a number.

ghost use Rattle.std.specs.Prelude.{◌≡◌, ◌++◌, string_bytes, IfOk, OnOk};
ghost use Rattle.sample_run.specs.MadeList as spec;

use crate::draws::Draws;
use crate::lookup::{next_lookup, push_lookup};
use std::alloc::{AllocError, Global};

/// Every 4096th request is a `sync`.
const ROUND: u32 = 4096;

/// Appends the line of the request with this number.
fn push_request(text: &mut String, draws: &mut Draws, number: u32) -> Result<(), AllocError>
    ensures line { OnOk result (string_bytes text.new
        ≡ string_bytes text.old ++ spec.request_line number draws.old) }
    ensures state { OnOk result (draws.new ≡ spec.behind_request number draws.old) }
{
    if number % ROUND == ROUND - 1 {
        return writeln!(text, "sync");
    }
    push_lookup(text, &next_lookup(draws))
}

/// The list with this many requests.
pub(crate) fn made_list(alloc: Global, count: u32) -> Result<Vec<u8>, AllocError>
    ensures { IfOk result (λ list. list.items ≡ spec.made_list count) }
{
    let mut text = String::new(alloc);
    let mut draws = Draws::new();
    for number in 0..count {
        push_request(&mut text, &mut draws, number)?;
    }
    Ok(text.into_bytes())
}
