//! Reads words and numbers that end at a space.

ghost use Rattle.std.specs.Prelude.{◌≡◌, ◌≤◌, true, false, IsTrue, length, take};
ghost use Rattle.std.specs.Option.{IfSome, IfNone, option_map};
ghost use Rattle.std.specs.Str.{bytes_eq};
ghost use Rattle.short_text.specs.Words as spec;
ghost use Rattle.short_text.specs.Digits as digits;

use crate::digits::leading_digits;

/// Whether the bytes begin with a word. The word is a constant at each call, so each of its bytes
/// is compared directly.
#[inline(always)]
#[tactic(auto, using(crate::proofs::WordLemmas::beginnings))]
fn begins_with(bytes: &[u8], word: &[u8]) -> bool
    ensures few { IsTrue result → length word.now ≤ length bytes.now }
    ensures value { result ≡ bytes_eq word.now (take (length word.now) bytes.now) }
{
    if bytes.len() < word.len() {
        return false;
    }
    let mut at = 0;
    'word: while at < word.len() {
        if bytes[at] != word[at] {
            return false;
        }
        at += 1;
    }
    true
}

/// The rest of a line after a word. `None` if the line's first word is another one.
#[inline(always)]
#[tactic(auto, using(crate::proofs::WordLemmas::words))]
pub fn behind_word<'a>(text: &'a str, word: &str) -> Option<&'a str>
    requires { spec.has_no_space word.now ≡ true }
    ensures same { IfSome result (λ _. bytes_eq (spec.before_space text.now) word.now ≡ true) }
    ensures back { IfSome result (λ rest. rest.now ≡ spec.from_space text.now) }
    ensures other { IfNone result (bytes_eq (spec.before_space text.now) word.now ≡ false) }
{
    let bytes = text.as_bytes();
    let end = word.len();
    if !begins_with(bytes, word.as_bytes()) {
        return None;
    }
    if end == bytes.len() {
        return Some("");
    }
    if bytes[end] != b' ' {
        return None;
    }
    Some(&text[end..])
}

/// The rest after the space with which it begins.
pub fn behind_space(rest: &str) -> Option<&str>
    ensures { option_map (λ s. s.now) result ≡ spec.behind_space rest.now }
{
    let bytes = rest.as_bytes();
    if 0 < bytes.len() && bytes[0] == b' ' {
        Some(&rest[1..])
    } else {
        None
    }
}

/// The number that a text spells before its first space, and the rest from there on.
#[inline(always)]
pub fn number_field(text: &str) -> Option<(u64, &str)>
    ensures number { option_map (λ f. f.0) result
        ≡ digits.digits_number (spec.before_space text.now) }
    ensures back { IfSome result (λ f. f.1.now ≡ spec.from_space text.now) }
{
    let bytes = text.as_bytes();
    let (number, count) = leading_digits(bytes);
    if count == 0 {
        return None;
    }
    if count == bytes.len() {
        return Some((number, ""));
    }
    if bytes[count] != b' ' {
        return None;
    }
    Some((number, &text[count..]))
}
