//! Reads the arguments of the command line.

ghost use Rattle.std.specs.Prelude.{◌≡◌, ◌<◌, ◌≤◌, true, [], map, length, option_map, IfSome};
ghost use Rattle.std.specs.Prelude.{slice_index_or};
ghost use Rattle.std.specs.List.{list_all};
ghost use Rattle.std.specs.String.{string_bytes};
ghost use Rattle.tex_make.specs.Side.{IsMadeSide};
ghost use Rattle.tex_make.specs.Words as spec;
ghost use Rattle.tex_make.specs.Asked.{shown_asked};

use crate::asked::Asked;

/// The side of the tiles if no argument gives it.
const DEFAULT_SIDE: u32 = 64;

/// The sides of tiles are multiples of this.
const SIDE_STEP: u64 = 16;

/// The greatest side of a tile.
const MAX_SIDE: u64 = 256;

/// The most digits of a number.
const MAX_DIGITS: usize = 10;

/// The number that digits make.
fn digits_number(digits: &[u8]) -> u64
    requires few { length digits.now ≤ MAX_DIGITS }
    requires digits { list_all spec.is_digit digits.now ≡ true }
    ensures { result ≡ spec.digits_behind 0 digits.now }
{
    let mut number = 0u64;
    for digit in digits {
        number = number * 10 + u64::from(*digit - b'0');
    }
    number
}

/// Whether all bytes are decimal digits.
fn are_digits(word: &[u8]) -> bool
    ensures { result ≡ list_all spec.is_digit word.now }
{
    word.iter().all(|byte| byte.is_ascii_digit())
}

/// Whether the argument is 1 to 10 decimal digits.
fn is_number(word: &[u8]) -> bool
    ensures { result ≡ spec.is_number word.now }
{
    !word.is_empty() && word.len() <= MAX_DIGITS && are_digits(word)
}

/// The side that an argument gives.
fn side_of(word: &[u8]) -> Option<u32>
    ensures value { result ≡ spec.side_of word.now }
    ensures in_range { IfSome result IsMadeSide }
{
    if !is_number(word) {
        return None;
    }
    let side = digits_number(word);
    if side < SIDE_STEP || side > MAX_SIDE || side % SIDE_STEP != 0 {
        return None;
    }
    Some(side as u32)
}

/// Whether the argument begins like an option.
fn is_option(word: &[u8]) -> bool
    ensures { result ≡ spec.is_option word.now }
{
    match word {
        [first, ..] => *first == b'-',
        [] => false,
    }
}

/// What a path, a name and a side ask for, if neither text looks like an option.
fn asked_of<'a>(path: &'a str, name: &'a str, side: u32) -> Option<Asked<'a>>
    requires { IsMadeSide side }
    ensures { option_map shown_asked result ≡ spec.wanted path.now name.now side }
{
    if is_option(path.as_bytes()) || is_option(name.as_bytes()) {
        return None;
    }
    Some(Asked { path, name, side })
}

/// Argument i, which must exist.
fn word(words: &[String], i: usize) -> &str
    requires { i < length words.now }
    ensures { result.now ≡ slice_index_or (map string_bytes words.now) i [] }
{
    words[i].as_str()
}

/// What the arguments ask for: a path, a name and perhaps a side. `None` if they are of another
/// form.
pub(crate) fn asked_in(words: &[String]) -> Option<Asked<'_>>
    ensures { option_map shown_asked result ≡ spec.wanted_in (map string_bytes words.now) }
{
    if words.len() == 2 {
        return asked_of(word(words, 0), word(words, 1), DEFAULT_SIDE);
    }
    if words.len() != 3 {
        return None;
    }
    let side = side_of(word(words, 2).as_bytes())?;
    asked_of(word(words, 0), word(words, 1), side)
}
