//! Converts the bytes of one plane to samples, and writes them to their places.

ghost use Rattle.std.specs.Prelude.{◌≡◌, ◌≢◌, ◌+◌, ◌*◌, ◌≤◌, ◌<◌, ℕ, length, slice_index};
ghost use Rattle.tiff_format.specs.Block.{sample_bytes};
ghost use Rattle.tiff_format.specs.Texel.{greatest_sample};
ghost use Rattle.tile_layout.specs.Texel.{FitDepth};
ghost use Rattle.unpack.specs.Sample.{depth_of};
ghost use Rattle.piece_samples.specs.Places.{FitsPlaces};
ghost use Rattle.piece_samples.specs.Unpacked.{is_wide, unpacked, KeepsDepth};

use crate::places::Places;
use tile_layout::TexelFormat;
use unpack::{unpack_as, unpack_plane_as};

/// The bits of a sample that takes two bytes.
const WIDE_DEPTH: u32 = 16;

/// Whether samples of this format take two bytes.
fn is_wide(format: &TexelFormat) -> bool
    ensures value { result ≡ is_wide format.now.depth }
    ensures depth { format.now.depth ≡ depth_of result }
{
    format.depth == WIDE_DEPTH
}

/// Converts bytes to samples.
pub fn unpack_samples(format: &TexelFormat, bytes: &[u8], samples: &mut [u16])
    requires { length bytes.now ≡ sample_bytes format.now.depth * length samples.old }
    ensures long { length samples.new ≡ length samples.old }
    ensures values { (k : ℕ) → k < length samples.new
        → slice_index samples.new k ≡ unpacked format.now bytes.now k }
    ensures low { (k : ℕ) → k < length samples.new
        → slice_index samples.new k ≤ greatest_sample format.now.depth }
{
    unpack_as(is_wide(format), format.big, bytes, format.invert, samples);
}

/// Writes `count` samples of one of several planes to their next places.
pub fn unpack_among(
    format: &TexelFormat,
    bytes: &[u8],
    count: usize,
    places: &Places,
    samples: &mut [u16],
)
    requires size { length bytes.now ≡ sample_bytes format.now.depth * count }
    requires planar { places.now.step ≢ 1 }
    requires one { format.now.invert ≤ 1 }
    requires room { (places.now.done + count) * places.now.step ≤ length samples.old }
    ensures long { length samples.new ≡ length samples.old }
    ensures before { (k : ℕ) → k < places.now.done
        → slice_index samples.new (k * places.now.step + places.now.first)
        ≡ slice_index samples.old (k * places.now.step + places.now.first) }
    ensures values { (k : ℕ) → k < count
        → slice_index samples.new ((places.now.done + k) * places.now.step + places.now.first)
        ≡ unpacked format.now bytes.now k }
    ensures others { (k c : ℕ) → c < places.now.step → c ≢ places.now.first
        → slice_index samples.new (k * places.now.step + c)
        ≡ slice_index samples.old (k * places.now.step + c) }
    ensures low { KeepsDepth format.now samples.old samples.new }
{
    let from = places.done * places.step;
    let to = from + count * places.step;
    unpack_plane_as(
        is_wide(format),
        format.big,
        places.step,
        bytes,
        format.invert == 1,
        places.first,
        &mut samples[from..to],
    );
}

/// Writes `count` samples one after another, from index `from` on.
fn unpack_from(format: &TexelFormat, bytes: &[u8], count: usize, from: usize, samples: &mut [u16])
    requires size { length bytes.now ≡ sample_bytes format.now.depth * count }
    requires room { from + count ≤ length samples.old }
    ensures before { (k : ℕ) → k < from → slice_index samples.new k ≡ slice_index samples.old k }
    ensures values { (k : ℕ) → k < count
        → slice_index samples.new (from + k) ≡ unpacked format.now bytes.now k }
    ensures low { KeepsDepth format.now samples.old samples.new }
{
    unpack_samples(format, bytes, &mut samples[from..from + count]);
}

/// Writes `count` samples of a plane to their next places. The samples of the other planes are
/// unchanged.
pub(crate) fn unpack_to(
    format: &TexelFormat,
    bytes: &[u8],
    count: usize,
    places: &Places,
    samples: &mut [u16],
)
    requires size { length bytes.now ≡ sample_bytes format.now.depth * count }
    requires places { FitsPlaces places.now format.now }
    requires room { (places.now.done + count) * places.now.step ≤ length samples.old }
    ensures before { (k : ℕ) → k < places.now.done
        → slice_index samples.new (k * places.now.step + places.now.first)
        ≡ slice_index samples.old (k * places.now.step + places.now.first) }
    ensures values { (k : ℕ) → k < count
        → slice_index samples.new ((places.now.done + k) * places.now.step + places.now.first)
        ≡ unpacked format.now bytes.now k }
    ensures others { (k c : ℕ) → c < places.now.step → c ≢ places.now.first
        → slice_index samples.new (k * places.now.step + c)
        ≡ slice_index samples.old (k * places.now.step + c) }
    ensures low { KeepsDepth format.now samples.old samples.new }
{
    if places.step == 1 {
        unpack_from(format, bytes, count, places.done, samples);
    } else {
        unpack_among(format, bytes, count, places, samples);
    }
}

/// Writes 0 to the next `count` places of a plane. The samples of the other planes are unchanged.
pub(crate) fn clear_to(count: usize, places: &Places, samples: &mut [u16])
    requires room { (places.now.done + count) * places.now.step ≤ length samples.old }
    ensures before { (k : ℕ) → k < places.now.done
        → slice_index samples.new (k * places.now.step + places.now.first)
        ≡ slice_index samples.old (k * places.now.step + places.now.first) }
    ensures zeros { (k : ℕ) → k < count
        → slice_index samples.new ((places.now.done + k) * places.now.step + places.now.first)
        ≡ 0 }
    ensures others { (k c : ℕ) → c < places.now.step → c ≢ places.now.first
        → slice_index samples.new (k * places.now.step + c)
        ≡ slice_index samples.old (k * places.now.step + c) }
    ensures low { (depth : ℕ) → FitDepth depth samples.old → FitDepth depth samples.new }
{
    for k in 0..count {
        samples[(places.done + k) * places.step + places.first] = 0;
    }
}
