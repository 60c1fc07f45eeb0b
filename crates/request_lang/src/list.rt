//! Parses a list of requests, line by line.

ghost use Rattle.std.specs.Prelude.{◌≡◌, ◌+◌, ◌<◌, ◌≤◌, length, IfOk, OnOk, [], ◌∷◌, true, IsTrue};
ghost use Rattle.std.specs.Str.{IsAscii};
ghost use Rattle.std.specs.Option.{IfNone, IfSome};
ghost use Rattle.request_lang.specs.RequestForm as form;
ghost use Rattle.request_lang.specs.Grammar as spec;
ghost use Rattle.request_lang.specs.LineEnd.{IsLineEnd, AreEightOthers};
ghost use Rattle.request_lang.specs.Parsing.{Parses, Gives, refused_at};

use crate::cause::{Cause, ParseError, Refusal};
use crate::request::Request;
use crate::request_form::request_of;
use std::alloc::Global;

/// The most bytes of a list.
pub const MAX_LIST_BYTES: usize = 16777216;

/// The most requests of a list.
pub const MAX_REQUESTS: usize = 1048576;

/// The line number that means the whole list.
const WHOLE_LIST: u32 = 0;

/// Whether none of eight bytes is a line feed.
#[inline(always)]
fn has_no_feed(bytes: &[u8], at: usize) -> bool
    requires { at + 8 ≤ length bytes.now }
    ensures { IsTrue result → AreEightOthers bytes.now at }
{
    (bytes[at] != b'\n')
        & (bytes[at + 1] != b'\n')
        & (bytes[at + 2] != b'\n')
        & (bytes[at + 3] != b'\n')
        & (bytes[at + 4] != b'\n')
        & (bytes[at + 5] != b'\n')
        & (bytes[at + 6] != b'\n')
        & (bytes[at + 7] != b'\n')
}

/// The number of bytes before the first line feed; all bytes if none exists.
fn line_bytes(bytes: &[u8]) -> usize
    ensures { IsLineEnd bytes.now result }
{
    let mut end = 0;
    'eights: while bytes.len() - end >= 8 && has_no_feed(bytes, end) {
        end += 8;
    }
    'bytes: while end < bytes.len() && bytes[end] != b'\n' {
        end += 1;
    }
    end
}

/// The next line, and the rest of the list after it.
#[tactic(auto, using(crate::proofs::LineLemmas::first_line))]
fn next_line(bytes: &[u8]) -> Option<(&[u8], &[u8])>
    ensures none { IfNone result (bytes.now ≡ []) }
    ensures first { IfSome result (λ l. spec.lines_of bytes.now ≡ l.0.now ∷ spec.lines_of l.1.now) }
    ensures shorter { IfSome result (λ l. length l.1.now < length bytes.now) }
    ensures ascii { IfSome result (λ l. IsAscii bytes.now → IsAscii l.0.now × IsAscii l.1.now) }
{
    if bytes.is_empty() {
        return None;
    }
    let end = line_bytes(bytes);
    if end == bytes.len() {
        return Some((bytes, &[]));
    }
    Some((&bytes[..end], &bytes[end + 1..]))
}

/// A line without its carriage return, if it ends with one.
#[tactic(auto, unfolding(crate::specs::Grammar::content))]
fn content(line: &[u8]) -> &[u8]
    ensures value { result.now ≡ spec.content line.now }
    ensures ascii { IsAscii line.now → IsAscii result.now }
{
    match line {
        [front @ .., b'\r'] => front,
        _ => line,
    }
}

/// Whether the line is empty or a comment, which is skipped.
fn is_passed_over(line: &[u8]) -> bool
    ensures { result ≡ spec.is_passed_over line.now }
{
    line.is_empty() || line[0] == b'#'
}

/// The request of a line, after `count` requests.
fn next_request(
    alloc: Global,
    count: usize,
    line: &[u8],
    is_ascii: bool,
) -> Result<Request, Refusal>
    requires { is_ascii ≡ true → IsAscii line.now }
    ensures value { Gives result (spec.behind count (form.request_of line.now)) }
    ensures room { OnOk result (count < spec.max_requests) }
{
    let request = request_of(alloc, line, is_ascii)?;
    if count >= MAX_REQUESTS {
        return Err(Refusal::Bad(Cause::TooManyRequests));
    }
    Ok(request)
}

/// The error for a list whose line of this number failed.
fn at_line(number: u32, refusal: Refusal) -> ParseError
    ensures { result ≡ refused_at number refusal }
{
    match refusal {
        Refusal::Bad(cause) => ParseError::Bad {
            line: number,
            why: cause.number(),
        },
        Refusal::NoMemory => ParseError::NoMemory,
    }
}

/// The requests of a list.
#[tactic(auto, unfolding(crate::specs::Grammar::list_of), using(crate::proofs::LineLemmas::read_so_far))]
pub fn parse(alloc: Global, bytes: &[u8]) -> Result<Vec<Request>, ParseError>
    ensures exact { Parses bytes.now result }
    ensures few { IfOk result (λ requests. length requests.items ≤ spec.max_requests) }
{
    if bytes.len() > MAX_LIST_BYTES {
        return Err(at_line(WHOLE_LIST, Refusal::Bad(Cause::TooLong)));
    }
    let is_ascii = bytes.is_ascii();
    let mut requests = Vec::new(alloc);
    let mut rest = bytes;
    let mut number = 1;
    'lines: while let Some((line, after)) = next_line(rest) {
        let line = content(line);
        if !is_passed_over(line) {
            match next_request(alloc, requests.len(), line, is_ascii) {
                Ok(request) => requests.push(request)?,
                Err(refusal) => return Err(at_line(number, refusal)),
            }
        }
        rest = after;
        number += 1;
    }
    Ok(requests)
}
