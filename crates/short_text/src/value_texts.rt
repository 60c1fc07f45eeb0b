//! A table with the text of every 16-bit value, so that printing one is a copy.

ghost use Rattle.std.specs.Prelude.{◌≡◌, ◌+◌, ◌*◌, ◌/◌, ◌≤◌, ◌<◌, IfOk, length, List, ℕ};
ghost use Rattle.short_text.specs.PaddedText.{IsPaddedText, HoldsTexts};

use std::alloc::{AllocError, Global};
use std::marker::Model;

/// The bytes of a padded text: a space, the digits of a value, padding, and at the end the number
/// of bytes that count.
pub const PADDED_BYTES: usize = 8;

/// The index of the number of bytes that count.
pub const COUNT_AT: usize = 7;

/// The number of 16-bit values.
const VALUES: u32 = 1 << 16;

/// The text of each 16-bit value, after a space.
#[derive(Drop)]
pub struct ValueTexts {
    padded: Vec<[u8; PADDED_BYTES]>,
}

impl Model for ValueTexts {
    ghost use Rattle.std.specs.Prelude.{List, ℕ, ◌≡◌, ◌^◌, length};
    ghost use Rattle.short_text.specs.PaddedText.{HoldsTexts};

    ghost Value = { List (List ℕ) };

    ghost view = { λ texts. texts.padded.items };

    ghost invariant = { λ texts.
        (length texts.padded.items ≡ 2 ^ 16) × HoldsTexts texts.padded.items };
}

/// The padded text of a value with one digit.
fn one_digit(value: u8) -> [u8; PADDED_BYTES]
    requires { value < 10 }
    ensures { IsPaddedText value result }
{
    [b' ', b'0' + value, 0, 0, 0, 0, 0, 2]
}

/// The padded text of a value, made from that of a tenth of it.
fn one_digit_more(tenth: [u8; PADDED_BYTES], value: u16) -> [u8; PADDED_BYTES]
    requires tenth { IsPaddedText (value / 10) tenth }
    requires long { 10 ≤ value }
    ensures { IsPaddedText value result }
{
    let mut padded = tenth;
    let at = padded[COUNT_AT];
    padded[usize::from(at)] = b'0' + (value % 10) as u8;
    padded[COUNT_AT] = at + 1;
    padded
}

/// The padded text of a value, made from those of smaller ones.
fn next_padded(smaller: &[[u8; PADDED_BYTES]], value: u16) -> [u8; PADDED_BYTES]
    requires told { HoldsTexts smaller.now }
    requires smaller { length smaller.now ≡ value }
    ensures { IsPaddedText value result }
{
    if value < 10 {
        return one_digit(value as u8);
    }
    one_digit_more(smaller[usize::from(value / 10)], value)
}

impl ValueTexts {
    ghost use Rattle.short_text.specs.PaddedText.{IsPaddedText};

    /// Makes the texts of all values. Takes 512 KiB.
    pub fn new(alloc: Global) -> Result<ValueTexts, AllocError> {
        let mut padded = Vec::with_capacity(alloc, VALUES as usize)?;
        for value in 0..VALUES {
            let next = next_padded(padded.as_slice(), value as u16);
            padded.push(next)?;
        }
        Ok(ValueTexts { padded })
    }

    /// The padded text of a value.
    #[inline(always)]
    pub fn padded(&self, value: u16) -> [u8; PADDED_BYTES]
        ensures { IsPaddedText value result }
    {
        self.padded[usize::from(value)]
    }
}
