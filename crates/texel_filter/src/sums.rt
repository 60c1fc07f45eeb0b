//! What is written of the weighted sums of a level, or of two.
//!
//! A weighted sum has 32 bits below the value, one over two levels 48.
ghost use Rattle.std.specs.Prelude.{◌≡◌, ◌+◌, ◌*◌, ◌/◌, ◌^◌, ◌<◌, ◌≤◌, length, slice_index};
ghost use Rattle.tiff_format.specs.Limits.{max_channels};
ghost use Rattle.texel_filter.specs.Image.{AreValues};
ghost use Rattle.texel_filter.specs.Coordinate.{unit};
ghost use Rattle.texel_filter.specs.Filter.{blended_sum, rounded_sum, max_trilinear_sum, AreSums};
ghost use Rattle.texel_filter.specs.Weighted.{max_sum, AreLevelSums};

use crate::coordinate::UNIT;
use tiff_format::MAX_CHANNELS;

// How many bits of a sum lie below the value, and a half of a value: in a level, and over two
// levels.
const SUM_BITS: u32 = 32;

const HALF_SUM: u64 = 1 << 31;

const BLEND_BITS: u32 = 48;

const HALF_BLEND: u64 = 1 << 47;

/// Writes the weighted means of the first n channels, rounded to the nearest. Inlined where the
/// compiler knows how many.
#[inline(always)]
pub fn write_means(sums: &[u64; MAX_CHANNELS], n: usize, out: &mut [u16])
    requires channels { n ≤ max_channels }
    requires count { length out.old ≡ n }
    requires low { AreLevelSums n sums.now }
    ensures { AreValues (λ c. (slice_index sums.now c + 2 ^ 31) / 2 ^ 32) out.new }
{
    for c in 0..n {
        out[c] = ((sums[c] + HALF_SUM) >> SUM_BITS) as u16;
    }
}

/// Writes the weighted means over two levels, by the fraction of the second one, rounded to the
/// nearest.
#[inline(always)]
pub fn write_blend(
    first: &[u64; MAX_CHANNELS],
    second: &[u64; MAX_CHANNELS],
    fraction: u32,
    n: usize,
    out: &mut [u16],
)
    requires fraction { fraction < unit }
    requires channels { n ≤ max_channels }
    requires count { length out.old ≡ n }
    requires first { AreLevelSums n first.now }
    requires second { AreLevelSums n second.now }
    ensures { AreValues (λ c. rounded_sum
        (blended_sum fraction (slice_index first.now c) (slice_index second.now c))) out.new }
{
    for c in 0..n {
        let sum = blended(fraction, first[c], second[c]);
        out[c] = ((sum + HALF_BLEND) >> BLEND_BITS) as u16;
    }
}

/// Writes the sums over two levels, by the fraction of the second one, without rounding.
#[inline]
pub fn write_sums(
    first: &[u64; MAX_CHANNELS],
    second: &[u64; MAX_CHANNELS],
    fraction: u32,
    out: &mut [u64],
)
    requires fraction { fraction < unit }
    requires channels { length out.old ≤ max_channels }
    requires first { AreLevelSums (length out.old) first.now }
    requires second { AreLevelSums (length out.old) second.now }
    ensures value { AreValues (λ c.
        blended_sum fraction (slice_index first.now c) (slice_index second.now c)) out.new }
    ensures high { AreSums out.new }
{
    for c in 0..out.len() {
        out[c] = blended(fraction, first[c], second[c]);
    }
}

// The sum over two levels, by the fraction of the second one.
#[inline(always)]
fn blended(fraction: u32, first: u64, second: u64) -> u64
    requires fraction { fraction < unit }
    requires first { first ≤ max_sum }
    requires second { second ≤ max_sum }
    ensures value { result ≡ blended_sum fraction first second }
    ensures high { result ≤ max_trilinear_sum }
{
    let (of_second, of_first) = (u64::from(fraction), UNIT - u64::from(fraction));
    of_first * first + of_second * second
}

/// The sums of a level alone, with the whole weight.
#[inline]
pub fn write_whole(sums: &[u64; MAX_CHANNELS], out: &mut [u64])
    requires channels { length out.old ≤ max_channels }
    requires low { AreLevelSums (length out.old) sums.now }
    ensures value { AreValues (λ c. unit * slice_index sums.now c) out.new }
    ensures high { AreSums out.new }
{
    for c in 0..out.len() {
        out[c] = UNIT * sums[c];
    }
}
