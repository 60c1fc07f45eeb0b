//! Reads the fields of a line. Each field follows a single space.

ghost use Rattle.std.specs.Prelude.{◌≡◌, ◌≤◌, ◌==◌, IfOk};
ghost use Rattle.std.specs.Prelude.{pos, neg_ℤ, ℤ, ℕ, List, slice_index};
ghost use Rattle.request_lang.specs.LineField as spec;
ghost use Rattle.request_lang.specs.Parsing.{Gives};
ghost use Rattle.short_text.specs.Words.{cut};

use crate::cause::{Cause, Refusal};
use crate::request::Name;
use short_text::{behind_space, behind_word, number_field};
use std::alloc::Global;
use texel_filter::{Filter, Wrap};
use tiff_format::MAX_CHANNELS;

/// The greatest number of a field that allows no `-`.
const MAX_UNSIGNED: u32 = u32::MAX;

/// The greatest number without a `-`, in a field that allows one.
const MAX_ABOVE: u32 = i32::MAX as u32;

/// The greatest number after a `-`.
const MAX_BELOW: u32 = 1 << 31;

/// The greatest number without a `-`, in a footprint's field.
const MAX_FOOTPRINT_ABOVE: u32 = (1 << 30) - 1;

/// The greatest number after a `-`, in a footprint's field.
const MAX_FOOTPRINT_BELOW: u32 = 1 << 30;

/// The least number of channels of a lookup.
const MIN_CHANNELS: u32 = 1;

/// Checks that a number is in a range.
fn within(least: u32, most: u32, number: Option<u64>) -> Result<u32, Cause>
    ensures value { result ≡ spec.within least most number }
    ensures high { IfOk result (λ n. n ≤ most) }
{
    let Some(number) = number else {
        return Err(Cause::NotANumber);
    };
    if number < u64::from(least) || number > u64::from(most) {
        return Err(Cause::OutOfRange);
    }
    Ok(number as u32)
}

/// The number in a range that a text spells before its first space, and the rest from there on.
#[inline(always)]
#[tactic(auto, unfolding(crate::specs::LineField::number_within))]
fn number_within(least: u32, most: u32, text: &str) -> Result<(u32, &str), Cause>
    ensures value { spec.mapped (λ f. (f.0, f.1.now)) result
        ≡ spec.spelled (spec.number_within least most) (Ok (cut text.now)) }
    ensures high { IfOk result (λ f. f.0 ≤ most) }
{
    match number_field(text) {
        Some((number, rest)) => Ok((within(least, most, Some(number))?, rest)),
        None => Err(Cause::NotANumber),
    }
}

/// The next field as a number in a range, and the rest after it.
#[inline(always)]
#[tactic(auto, unfolding(crate::specs::LineField::next_field))]
fn number_between(least: u32, most: u32, rest: &str) -> Result<(u32, &str), Cause>
    ensures { spec.mapped (λ f. (f.0, f.1.now)) result
        ≡ spec.field (spec.number_within least most) rest.now }
{
    match behind_space(rest) {
        Some(text) => number_within(least, most, text),
        None => Err(Cause::MissingField),
    }
}

/// The next field as a number, and the rest after it.
pub(crate) fn unsigned(rest: &str) -> Result<(u32, &str), Cause>
    ensures { spec.mapped (λ f. (f.0, f.1.now)) result ≡ spec.field spec.unsigned rest.now }
{
    number_between(0, MAX_UNSIGNED, rest)
}

/// The next field as a number of channels, and the rest after it.
#[inline(always)]
pub(crate) fn channel_count(rest: &str) -> Result<(u32, &str), Cause>
    ensures { spec.mapped (λ f. (f.0, f.1.now)) result ≡ spec.field spec.channel_count rest.now }
{
    number_between(MIN_CHANNELS, MAX_CHANNELS as u32, rest)
}

/// The negative number after a `-`.
fn below_zero(number: u32) -> i32
    requires { number ≤ spec.max_below }
    ensures { result ≡ neg_ℤ (pos number) }
{
    (-i64::from(number)) as i32
}

/// The number without a `-`, as a signed one.
fn above_zero(number: u32) -> i32
    requires { number ≤ spec.max_above }
    ensures { result ≡ pos number }
{
    number as i32
}

/// The number that a text after a `-` spells, and the rest from its first space on.
fn negative(most: u32, text: &str) -> Result<(i32, &str), Cause>
    requires { most ≤ spec.max_below }
    ensures { spec.mapped (λ f. (f.0, f.1.now)) result
        ≡ spec.mapped {B = ℤ × List ℕ} (λ f. (neg_ℤ (pos f.0), f.1))
        (spec.spelled (spec.number_within 0 most) (Ok (cut text.now))) }
{
    match number_within(0, most, text) {
        Ok((number, rest)) => Ok((below_zero(number), rest)),
        Err(cause) => Err(cause),
    }
}

/// The number that a text without a `-` spells, and the rest from its first space on.
fn positive(most: u32, text: &str) -> Result<(i32, &str), Cause>
    requires { most ≤ spec.max_above }
    ensures { spec.mapped (λ f. (f.0, f.1.now)) result
        ≡ spec.mapped {B = ℤ × List ℕ} (λ f. (pos f.0, f.1))
        (spec.spelled (spec.number_within 0 most) (Ok (cut text.now))) }
{
    match number_within(0, most, text) {
        Ok((number, rest)) => Ok((above_zero(number), rest)),
        Err(cause) => Err(cause),
    }
}

/// Whether the text begins with a `-`.
fn begins_with_minus(text: &str) -> bool
    ensures { result ≡ (slice_index text.now 0 == spec.minus) }
{
    let bytes = text.as_bytes();
    0 < bytes.len() && bytes[0] == b'-'
}

/// The number that a text spells before its first space, possibly with a `-`, and the rest from
/// there on. `below` and `above` are the limits with and without a `-`.
fn signed_field(below: u32, above: u32, text: &str) -> Result<(i32, &str), Cause>
    requires below { below ≤ spec.max_below }
    requires above { above ≤ spec.max_above }
    ensures { spec.mapped (λ f. (f.0, f.1.now)) result
        ≡ spec.spelled (spec.signed_within below above) (Ok (cut text.now)) }
{
    if begins_with_minus(text) {
        return negative(below, &text[1..]);
    }
    positive(above, text)
}

/// The next field as a signed number, and the rest after it.
#[tactic(auto, unfolding(crate::specs::LineField::next_field, crate::specs::LineField::signed))]
pub(crate) fn signed(rest: &str) -> Result<(i32, &str), Cause>
    ensures { spec.mapped (λ f. (f.0, f.1.now)) result ≡ spec.field spec.signed rest.now }
{
    match behind_space(rest) {
        Some(text) => signed_field(MAX_BELOW, MAX_ABOVE, text),
        None => Err(Cause::MissingField),
    }
}

/// The next field as a coordinate or derivative of a footprint, and the rest after it.
#[tactic(auto, unfolding(crate::specs::LineField::next_field, crate::specs::LineField::footprint_number))]
pub(crate) fn footprint_number(rest: &str) -> Result<(i32, &str), Cause>
    ensures { spec.mapped (λ f. (f.0, f.1.now)) result ≡ spec.field spec.footprint_number rest.now }
{
    match behind_space(rest) {
        Some(text) => signed_field(MAX_FOOTPRINT_BELOW, MAX_FOOTPRINT_ABOVE, text),
        None => Err(Cause::MissingField),
    }
}

/// The wrap that a text names before its first space, and the rest from there on.
#[inline(always)]
#[tactic(auto, unfolding(crate::specs::LineField::wrap_mode))]
fn wrap_of(text: &str) -> Result<(Wrap, &str), Cause>
    ensures { spec.mapped (λ f. (f.0, f.1.now)) result
        ≡ spec.spelled spec.wrap_mode (Ok (cut text.now)) }
{
    if let Some(rest) = behind_word(text, "black") {
        return Ok((Wrap::Black, rest));
    }
    if let Some(rest) = behind_word(text, "clamp") {
        return Ok((Wrap::Clamp, rest));
    }
    if let Some(rest) = behind_word(text, "periodic") {
        return Ok((Wrap::Periodic, rest));
    }
    if let Some(rest) = behind_word(text, "mirror") {
        return Ok((Wrap::Mirror, rest));
    }
    Err(Cause::UnknownChoice)
}

/// The filter that a text names before its first space, and the rest from there on.
#[inline(always)]
#[tactic(auto, unfolding(crate::specs::LineField::filter_mode))]
fn filter_of(text: &str) -> Result<(Filter, &str), Cause>
    ensures { spec.mapped (λ f. (f.0, f.1.now)) result
        ≡ spec.spelled spec.filter_mode (Ok (cut text.now)) }
{
    if let Some(rest) = behind_word(text, "closest") {
        return Ok((Filter::Closest, rest));
    }
    if let Some(rest) = behind_word(text, "bilinear") {
        return Ok((Filter::Bilinear, rest));
    }
    if let Some(rest) = behind_word(text, "trilinear") {
        return Ok((Filter::Trilinear, rest));
    }
    Err(Cause::UnknownChoice)
}

/// The next field as a wrap, and the rest after it.
#[inline(always)]
#[tactic(auto, unfolding(crate::specs::LineField::next_field))]
pub(crate) fn wrap_mode(rest: &str) -> Result<(Wrap, &str), Cause>
    ensures { spec.mapped (λ f. (f.0, f.1.now)) result ≡ spec.field spec.wrap_mode rest.now }
{
    match behind_space(rest) {
        Some(text) => wrap_of(text),
        None => Err(Cause::MissingField),
    }
}

/// The next field as a filter, and the rest after it.
#[inline(always)]
#[tactic(auto, unfolding(crate::specs::LineField::next_field))]
pub(crate) fn filter_mode(rest: &str) -> Result<(Filter, &str), Cause>
    ensures { spec.mapped (λ f. (f.0, f.1.now)) result ≡ spec.field spec.filter_mode rest.now }
{
    match behind_space(rest) {
        Some(text) => filter_of(text),
        None => Err(Cause::MissingField),
    }
}

/// The name of a file: everything after one space.
#[inline(always)]
#[tactic(auto, unfolding(crate::specs::LineField::name_field))]
pub(crate) fn name(alloc: Global, rest: &str) -> Result<Name, Refusal>
    ensures { Gives result (spec.name_field rest.now) }
{
    match behind_space(rest) {
        None | Some("") => Err(Refusal::Bad(Cause::MissingField)),
        Some(text) => Ok(Name::copied(alloc, text)?),
    }
}
