//! Prints decimal numbers.

ghost use Rattle.std.specs.Prelude.{◌≡◌, ◌≤◌, ◌*◌, drop, length};
ghost use Rattle.short_text.specs.Number.{number_behind, numbers_behind};
ghost use Rattle.short_text.specs.Appending.{Pushes, Fits, max_number_bytes};

use std::alloc::AllocError;

/// The length of the longest number and the byte before it.
const ROOM_BYTES: usize = 21;

/// Appends a text.
#[inline(always)]
pub fn push_text(out: &mut Vec<u8>, text: &[u8]) -> Result<(), AllocError>
    ensures text { Pushes text.now out.old.items out.new.items result }
    ensures fits { Fits (length text.now) out.old out.new result }
{
    out.extend_from_slice(text)
}

/// Writes a number in decimal, with a byte before it, to the end of the buffer. Returns where it
/// begins.
fn put_number(room: &mut [u8; ROOM_BYTES], byte: u8, number: u64) -> usize
    ensures written { drop result room.new ≡ number_behind byte number }
    ensures within { result ≤ ROOM_BYTES }
{
    let mut left = number;
    let mut at = ROOM_BYTES;
    'digits: while left >= 10 {
        at -= 1;
        room[at] = b'0' + (left % 10) as u8;
        left /= 10;
    }
    room[at - 1] = b'0' + left as u8;
    room[at - 2] = byte;
    at - 2
}

/// Appends a byte and a number in decimal.
fn push_number(out: &mut Vec<u8>, byte: u8, number: u64) -> Result<(), AllocError>
    ensures text { Pushes (number_behind byte number) out.old.items out.new.items result }
    ensures fits { Fits max_number_bytes out.old out.new result }
{
    let mut room = [0u8; ROOM_BYTES];
    let at = put_number(&mut room, byte, number);
    push_text(out, &room[at..])
}

/// Appends numbers, each after the byte.
#[tactic(auto, using(crate::proofs::AppendLemmas::kept))]
pub fn push_numbers(out: &mut Vec<u8>, byte: u8, numbers: &[u64]) -> Result<(), AllocError>
    ensures text { Pushes (numbers_behind byte numbers.now) out.old.items out.new.items result }
    ensures fits { Fits (max_number_bytes * length numbers.now) out.old out.new result }
{
    for number in numbers {
        push_number(out, byte, *number)?;
    }
    Ok(())
}
