//! Reads the arguments of the command line.

ghost use Rattle.std.specs.Prelude.{◌≡◌, ◌<◌, ◌^◌, map, IfSome};
ghost use Rattle.std.specs.String.{string_bytes};
ghost use Rattle.sample_run.specs.Size as spec;

use request_lang::MAX_REQUESTS;
use short_text::digits_number;

/// The most workers.
const MAX_WORKERS: u64 = 16;

/// The number of requests, and the number of workers.
#[derive(Clone, Copy, Debug, PartialEq, Eq)]
pub(crate) struct Size {
    pub(crate) requests: u32,
    pub(crate) workers: u32,
}

/// The number that 1 to 10 decimal digits make, if it is in the range.
fn number(word: &str, least: u64, most: u64) -> Option<u32>
    requires { most < 2 ^ 32 }
    ensures { result ≡ spec.number least most word.now }
{
    let number = digits_number(word.as_bytes())?;
    if number < least || number > most {
        return None;
    }
    Some(number as u32)
}

/// What the arguments ask for, if they are two such numbers.
pub(crate) fn size_in(words: &[String]) -> Option<Size>
    ensures value { result ≡ spec.size_in (map string_bytes words.now) }
    ensures in_range { IfSome result spec.IsInRange }
{
    let [requests, workers] = words else {
        return None;
    };
    let requests = number(requests.as_str(), 0, MAX_REQUESTS as u64)?;
    let workers = number(workers.as_str(), 1, MAX_WORKERS)?;
    Some(Size { requests, workers })
}
