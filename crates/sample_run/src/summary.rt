//! The line that summarizes what a run wrote.

ghost use Rattle.std.specs.Prelude.{◌≡◌, ◌==◌, ◌≤◌, ◌*◌, length, sum, count_by, string_bytes, IfOk};
ghost use Rattle.request_lang.specs.Grammar.{line_feed};
ghost use Rattle.sample_run.specs.Summary as spec;

use std::alloc::{AllocError, Global};

/// The number of line feeds.
fn line_feeds(bytes: &[u8]) -> usize
    ensures { result ≡ spec.line_feeds bytes.now }
{
    let mut count = 0;
    for byte in bytes {
        if *byte == b'\n' {
            count += 1;
        }
    }
    count
}

/// The sum of the bytes.
fn sum(bytes: &[u8]) -> u128
    ensures { result ≡ sum bytes.now }
{
    let mut total = 0;
    for byte in bytes {
        total += u128::from(*byte);
    }
    total
}

/// The line about these bytes, with its line feed.
pub(crate) fn summary(alloc: Global, bytes: &[u8]) -> Result<String, AllocError>
    ensures { IfOk result (λ text. string_bytes text ≡ spec.summary bytes.now) }
{
    let lines = line_feeds(bytes);
    let count = bytes.len();
    let sum = sum(bytes);
    format!(in alloc; "lines {lines} bytes {count} sum {sum}\n")
}
