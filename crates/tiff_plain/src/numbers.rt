//! Reads numbers from the bytes of a file.

ghost use Rattle.std.specs.Prelude.{◌≡◌, ◌≤◌, ◌<◌, ◌^◌, ◌==◌, ◌||◌, true, false, nat_le};
ghost use Rattle.std.specs.Prelude.{slice_index, IsTrue};
ghost use Rattle.tiff_format.specs.Bytes as spec;

/// The version of a BigTIFF file.
const WIDE_VERSION: u64 = 43;

/// The byte at a place; 0 past the end.
fn byte_at(bytes: &[u8], at: u128) -> u64
    ensures value { result ≡ slice_index bytes.now at }
    ensures fits { result < 256 }
{
    if at < bytes.len() as u128 {
        u64::from(bytes[at as usize])
    } else {
        0
    }
}

/// The number in up to four bytes, highest byte first.
#[tactic(auto, unfolding(tiff_format::specs::Bytes::number_at))]
fn big_number(n: u32, bytes: &[u8], at: u128) -> u64
    requires size { n ≤ 4 }
    requires place { at < 2 ^ 120 }
    ensures value { result ≡ spec.number_at true n bytes.now at }
    ensures fits { result < 256 ^ n }
{
    let a = byte_at(bytes, at);
    let b = byte_at(bytes, at + 1);
    let c = byte_at(bytes, at + 2);
    let d = byte_at(bytes, at + 3);
    match n {
        0 => 0,
        1 => a,
        2 => a * 256 + b,
        3 => a * 65536 + b * 256 + c,
        _ => a * 16777216 + b * 65536 + c * 256 + d,
    }
}

/// The number in up to four bytes, lowest byte first.
#[tactic(auto, unfolding(tiff_format::specs::Bytes::number_at))]
fn little_number(n: u32, bytes: &[u8], at: u128) -> u64
    requires size { n ≤ 4 }
    requires place { at < 2 ^ 120 }
    ensures value { result ≡ spec.number_at false n bytes.now at }
    ensures fits { result < 256 ^ n }
{
    let a = byte_at(bytes, at);
    let b = byte_at(bytes, at + 1);
    let c = byte_at(bytes, at + 2);
    let d = byte_at(bytes, at + 3);
    match n {
        0 => 0,
        1 => a,
        2 => a + 256 * b,
        3 => a + 256 * b + 65536 * c,
        _ => a + 256 * b + 65536 * c + 16777216 * d,
    }
}

/// The number in up to four bytes.
#[tactic(auto, unfolding(tiff_format::specs::Bytes::number_at))]
fn short_number(big: bool, n: u32, bytes: &[u8], at: u128) -> u64
    requires size { n ≤ 4 }
    requires place { at < 2 ^ 120 }
    ensures value { result ≡ spec.number_at big n bytes.now at }
    ensures fits { result < 256 ^ n }
{
    if big {
        big_number(n, bytes, at)
    } else {
        little_number(n, bytes, at)
    }
}

/// The number in eight bytes, made of two four-byte numbers.
fn long8_number(big: bool, bytes: &[u8], at: u128) -> u64
    requires place { at < 2 ^ 110 }
    ensures value { result ≡ spec.number_at big 8 bytes.now at }
{
    let first = short_number(big, 4, bytes, at);
    let second = short_number(big, 4, bytes, at + 4);
    if big {
        first * 4294967296 + second
    } else {
        first + second * 4294967296
    }
}

/// The number in the n bytes at a place. Bytes past the end count as 0.
pub fn number_at(big: bool, n: u32, bytes: &[u8], at: u128) -> u64
    requires size { IsTrue (nat_le n 4 || (n == 8)) }
    requires place { at < 2 ^ 110 }
    ensures value { result ≡ spec.number_at big n bytes.now at }
    ensures fits { result < 256 ^ n }
{
    if n == 8 {
        long8_number(big, bytes, at)
    } else {
        short_number(big, n, bytes, at)
    }
}

#[tactic(auto, unfolding(tiff_format::specs::Bytes::has_mark))]
fn has_mark(letter: u8, bytes: &[u8]) -> bool
    ensures { result ≡ spec.has_mark letter bytes.now }
{
    byte_at(bytes, 0) == u64::from(letter) && byte_at(bytes, 1) == u64::from(letter)
}

/// Whether the file begins with `II`.
pub fn is_little(bytes: &[u8]) -> bool
    ensures value { result ≡ spec.is_little bytes.now }
{
    has_mark(b'I', bytes)
}

/// Whether the file begins with `MM`.
pub fn is_big(bytes: &[u8]) -> bool
    ensures value { result ≡ spec.is_big bytes.now }
{
    has_mark(b'M', bytes)
}

/// Whether the file begins with `II` or `MM`.
pub fn is_marked(bytes: &[u8]) -> bool
    ensures { result ≡ spec.is_marked bytes.now }
{
    is_little(bytes) || is_big(bytes)
}

/// The version, after the mark.
pub fn version(bytes: &[u8]) -> u64
    ensures { result ≡ spec.version bytes.now }
{
    number_at(is_big(bytes), 2, bytes, 2)
}

/// Whether the file is BigTIFF, with offsets of 64 bits.
pub fn has_wide_offsets(bytes: &[u8]) -> bool
    ensures { result ≡ spec.has_wide_offsets bytes.now }
{
    version(bytes) == WIDE_VERSION
}
