//! Converts the samples of a texel to 16-bit values.
ghost use Rattle.std.specs.Prelude.{◌≡◌, ℕ, ◌<◌, length, slice_index};
ghost use Rattle.tile_layout.specs.Cell.{HoldsTexel};
ghost use Rattle.tile_store.specs.SampleRow.{samples_of};
ghost use Rattle.texel_values.specs.Values.{kept_value, sample_value, AreValuesIn, AreToldValues};

use crate::texel_at::TexelAt;
use tex_world::World;
use texel_filter::{NARROW_NUMBERS, NARROW_SCALE};
use tile_store::{SampleRow, Tile};

/// The bits of a sample that fits a byte.
pub(crate) const NARROW_DEPTH: u32 = 8;

/// The 16-bit value of a sample; 8-bit samples are scaled to 0 to 65535.
#[inline(always)]
pub(crate) fn value_of(depth: u32, sample: u16) -> u16
    ensures { result ≡ kept_value depth sample }
{
    if depth == NARROW_DEPTH {
        sample % NARROW_NUMBERS * NARROW_SCALE
    } else {
        sample
    }
}

/// The value of channel c; 0 if the texel lacks it.
#[inline(always)]
pub(crate) fn channel_value(samples: &SampleRow<'_>, depth: u32, c: usize) -> u16
    ensures { result ≡ sample_value (samples_of samples.now) depth c }
{
    if c < samples.count() {
        value_of(depth, samples.sample(c))
    } else {
        0
    }
}

/// Writes the values of a texel's first channels, with 0 for those that it lacks. Inlined where the
/// size of a sample is known.
#[inline(always)]
fn write_kept(samples: &SampleRow<'_>, depth: u32, out: &mut [u16])
    ensures values { (c : ℕ) → c < length out.new
        → slice_index out.new c ≡ sample_value (samples_of samples.now) depth c }
    ensures long { length out.new ≡ length out.old }
{
    for c in 0..out.len() {
        out[c] = channel_value(samples, depth, c);
    }
}

/// Writes the values of a texel's first channels. It has one body for each size of sample, so that
/// the loops need no test.
#[inline(always)]
fn write_texel(samples: &SampleRow<'_>, depth: u32, out: &mut [u16])
    ensures values { (c : ℕ) → c < length out.new
        → slice_index out.new c ≡ sample_value (samples_of samples.now) depth c }
    ensures long { length out.new ≡ length out.old }
{
    let samples = *samples;
    if samples.has_bytes() {
        write_kept(&samples, depth, out);
    } else {
        write_kept(&samples, depth, out);
    }
}

/// Writes the values of the first channels from a texel's samples, with 0 for channels that are not
/// there.
pub fn write_channels(samples: &[u16], depth: u32, out: &mut [u16])
    ensures values { (c : ℕ) → c < length out.new
        → slice_index out.new c ≡ sample_value samples.now depth c }
    ensures long { length out.new ≡ length out.old }
{
    write_texel(&SampleRow::Shorts(samples), depth, out);
}

/// Writes the values of the first channels of a texel in a tile, with 0 for channels that it lacks.
pub fn write_values<W: World>(tile: &Tile<W>, depth: u32, at: TexelAt, out: &mut [u16])
    requires inside { HoldsTexel tile.now.rect at.x at.y }
    ensures values { AreValuesIn tile.now depth at out.new }
    ensures told { AreToldValues W.files tile.now depth at out.new }
    ensures long { length out.new ≡ length out.old }
{
    // needed by the proof: ties the tile's samples to its file
    let _ = tile.key();
    write_texel(&tile.row(at.x, at.y, 1), depth, out);
}
