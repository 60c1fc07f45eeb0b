//! Prints many 16-bit values at a time.

ghost use Rattle.std.specs.Prelude.{◌≡◌, ◌+◌, ◌*◌, ◌≤◌, ◌++◌, ◌∷◌, [], length, take, drop, OnOk};
ghost use Rattle.request_lang.specs.Grammar.{line_feed};
ghost use Rattle.short_text.specs.Number.{fields};
ghost use Rattle.short_text.specs.PaddedText.{padded_bytes, max_value_bytes};
ghost use Rattle.short_text.specs.Appending.{Pushes, Fits};
ghost use Rattle.request_lang.specs.Appending.{room_values, few_values, max_part_bytes};

use short_text::{COUNT_AT, PADDED_BYTES, ValueTexts, push_text};
use std::alloc::AllocError;
use tex_world::NoMemory;

/// The most bytes of a value and the space before it.
const MAX_VALUE_BYTES: usize = 6;

/// How many values are converted before their text is appended.
pub const PART_VALUES: usize = 256;

/// The most bytes of a part of a line: of its beginning without values, or of `PART_VALUES` values.
pub const MAX_PART_BYTES: usize = 8192;

/// The most bytes of that many values. The last padded text may reach beyond its text.
const ROOM_BYTES: usize = MAX_VALUE_BYTES * PART_VALUES + PADDED_BYTES;

/// How many values count as few: as many as a lookup can have.
pub const FEW_VALUES: usize = 8;

/// The most bytes of a few values.
const FEW_BYTES: usize = MAX_VALUE_BYTES * FEW_VALUES + PADDED_BYTES;

/// The most bytes of a few values, with a generation before them.
const LOOKUP_BYTES: usize = MAX_VALUE_BYTES + FEW_BYTES;

/// Writes a padded text.
#[inline(always)]
fn put_padded(room: &mut [u8], at: usize, padded: [u8; PADDED_BYTES])
    requires { at + padded_bytes ≤ length room.old }
    ensures { room.new ≡ take at room.old ++ padded ++ drop (at + padded_bytes) room.old }
{
    room[at..at + PADDED_BYTES].copy_from_slice(&padded);
}

/// Writes values, each after a space, into the buffer from an index on. Returns where they end.
#[inline(always)]
fn put_values(texts: &ValueTexts, room: &mut [u8], from: usize, values: &[u16]) -> usize
    requires { from + max_value_bytes * length values.now + padded_bytes ≤ length room.old }
    ensures written { take result room.new ≡ take from room.old ++ fields values.now }
    ensures within { result ≤ length room.new }
    ensures few { result ≤ from + max_value_bytes * length values.now }
{
    let mut at = from;
    for value in values {
        let padded = texts.padded(*value);
        put_padded(room, at, padded);
        at += usize::from(padded[COUNT_AT]);
    }
    at
}

/// Appends a few values, each after a space, and ends the line.
#[inline(always)]
#[tactic(auto, using(short_text::proofs::AppendLemmas::kept))]
pub(crate) fn push_last(
    texts: &ValueTexts,
    out: &mut Vec<u8>,
    values: &[u16],
) -> Result<(), AllocError>
    requires { length values.now ≤ few_values }
    ensures text { Pushes (fields values.now ++ line_feed ∷ []) out.old.items out.new.items result }
    ensures fits { Fits (max_value_bytes * length values.now + 1) out.old out.new result }
{
    let mut room = [0u8; FEW_BYTES];
    let end = put_values(texts, &mut room, 0, values);
    room[end] = b'\n';
    push_text(out, &room[..end + 1])
}

/// Appends a word, a 16-bit generation and a few values, each after a space, and ends the line.
#[inline(always)]
#[tactic(auto, using(short_text::proofs::AppendLemmas::kept))]
pub(crate) fn push_lookup(
    texts: &ValueTexts,
    out: &mut Vec<u8>,
    word: &str,
    generation: u16,
    values: &[u16],
) -> Result<(), AllocError>
    requires { length values.now ≤ few_values }
    ensures text { Pushes
        (((word.now ++ fields (generation ∷ [])) ++ fields values.now) ++ line_feed ∷ [])
        out.old.items out.new.items result }
    ensures fits { Fits (length word.now + max_value_bytes + max_value_bytes * length values.now + 1)
        out.old out.new result }
{
    push_text(out, word.as_bytes())?;
    let mut room = [0u8; LOOKUP_BYTES];
    let first = put_values(texts, &mut room, 0, &[generation]);
    let end = put_values(texts, &mut room, first, values);
    room[end] = b'\n';
    push_text(out, &room[..end + 1])
}

/// Appends values that fit the buffer, each after a space.
#[tactic(auto, using(short_text::proofs::AppendLemmas::kept))]
fn push_part(
    texts: &ValueTexts,
    out: &mut Vec<u8>,
    room: &mut [u8],
    values: &[u16],
) -> Result<(), AllocError>
    requires { max_value_bytes * length values.now + padded_bytes ≤ length room.old }
    ensures text { Pushes (fields values.now) out.old.items out.new.items result }
    ensures fits { Fits (max_value_bytes * length values.now) out.old out.new result }
{
    let end = put_values(texts, room, 0, values);
    push_text(out, &room[..end])
}

/// Appends values, each after a space, one buffer at a time.
#[tactic(auto, using(short_text::proofs::AppendLemmas::kept))]
fn push_parts(
    texts: &ValueTexts,
    out: &mut Vec<u8>,
    room: &mut [u8],
    values: &[u16],
) -> Result<(), AllocError>
    requires { max_value_bytes * room_values + padded_bytes ≤ length room.old }
    ensures { Pushes (fields values.now) out.old.items out.new.items result }
{
    let mut rest = values;
    'parts: while !rest.is_empty() {
        let (part, after) = rest.split_at(rest.len().min(PART_VALUES));
        push_part(texts, out, room, part)?;
        rest = after;
    }
    Ok(())
}

/// Appends some values of an answer, each after a space. Allocates nothing if `MAX_PART_BYTES`
/// bytes are reserved.
#[tactic(auto, using(short_text::proofs::AppendLemmas::kept))]
pub fn values_text(texts: &ValueTexts, values: &[u16], out: &mut Vec<u8>) -> Result<(), NoMemory>
    requires { length values.now ≤ room_values }
    ensures ok { OnOk result (out.new.items ≡ out.old.items ++ fields values.now) }
    ensures fits { Fits max_part_bytes out.old out.new result }
{
    let pushed = if values.len() <= FEW_VALUES {
        push_part(texts, out, &mut [0u8; FEW_BYTES], values)
    } else {
        push_part(texts, out, &mut [0u8; ROOM_BYTES], values)
    };
    match pushed {
        Ok(()) => Ok(()),
        Err(_) => Err(NoMemory),
    }
}

/// Appends values, each after a space. Memory is reserved once, before the first.
#[tactic(auto, using(short_text::proofs::AppendLemmas::kept))]
pub(crate) fn push_values(
    texts: &ValueTexts,
    out: &mut Vec<u8>,
    values: &[u16],
) -> Result<(), AllocError>
    ensures { Pushes (fields values.now) out.old.items out.new.items result }
{
    out.reserve(values.len().saturating_mul(MAX_VALUE_BYTES))?;
    if values.len() <= FEW_VALUES {
        return push_part(texts, out, &mut [0u8; FEW_BYTES], values);
    }
    push_parts(texts, out, &mut [0u8; ROOM_BYTES], values)
}
