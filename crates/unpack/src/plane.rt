//! Converts a block of one plane, writing its samples between those of the other planes.

ghost use Rattle.std.specs.Prelude.{◌≡◌, ◌≢◌, ◌+◌, ◌*◌, ◌/◌, ◌%◌, ◌<◌, ◌≤◌, ℕ, length, slice_index};
ghost use Rattle.tiff_format.specs.Limits.{max_channels};
ghost use Rattle.tiff_format.specs.Texel.{greatest_sample};
ghost use Rattle.unpack.specs.Sample.{depth_of, sample_size, stored_sample};
ghost use Rattle.unpack.specs.Plane.{plane_sample};

use crate::passes::greatest;
use tiff_format::Form;

/// The stored number of sample k.
fn stored<const WIDE: bool, const BIG: bool>(src: &[u8], k: usize) -> u16
    requires { sample_size WIDE * k + sample_size WIDE ≤ length src.now }
    ensures value { result ≡ stored_sample WIDE BIG src.now k }
    ensures low { result ≤ greatest_sample (depth_of WIDE) }
{
    if WIDE {
        Form {
            big: BIG,
            wide: false,
        }
        .short_at(src, 2 * k)
    } else {
        u16::from(src[k])
    }
}

/// Sample k; if `flip`, the greatest value minus the stored number.
fn sample<const WIDE: bool, const BIG: bool>(src: &[u8], flip: bool, k: usize) -> u16
    requires { sample_size WIDE * k + sample_size WIDE ≤ length src.now }
    ensures value { result ≡ plane_sample WIDE BIG flip src.now k }
    ensures low { result ≤ greatest_sample (depth_of WIDE) }
{
    let stored = stored::<WIDE, BIG>(src, k);
    if flip {
        greatest(WIDE) - stored
    } else {
        stored
    }
}

/// Writes sample k of `src` to `dst[k * STEP + first]`; all other places are unchanged. If `WIDE`,
/// samples are 0 to 65535 and have two bytes, the highest first if `BIG`; otherwise they are 0 to
/// 255 and have one. If `flip`, the sample is the greatest value minus the stored number. (TIFF
/// 6.0, section 8 on PlanarConfiguration)
pub fn unpack_plane<const WIDE: bool, const BIG: bool, const STEP: usize>(
    src: &[u8],
    flip: bool,
    first: usize,
    dst: &mut [u16],
)
    requires step { (2 ≤ STEP) × (STEP ≤ max_channels) }
    requires first { first < STEP }
    requires whole { length src.now % sample_size WIDE ≡ 0 }
    requires room { length dst.old ≡ STEP * (length src.now / sample_size WIDE) }
    ensures long { length dst.new ≡ length dst.old }
    ensures samples { (k : ℕ) → k * STEP + first < length dst.old
        → slice_index dst.new (k * STEP + first) ≡ plane_sample WIDE BIG flip src.now k }
    ensures range { (k : ℕ) → k * STEP + first < length dst.old
        → slice_index dst.new (k * STEP + first) ≤ greatest_sample (depth_of WIDE) }
    ensures others { (k : ℕ) → k % STEP ≢ first
        → slice_index dst.new k ≡ slice_index dst.old k }
{
    for k in 0..dst.len() / STEP {
        dst[k * STEP + first] = sample::<WIDE, BIG>(src, flip, k);
    }
}

/// Calls the function instance for two flags and a step.
macro_rules! in_case {
    ($wide:ident, $big:ident, $step:ident, $function:ident $arguments:tt: $($s:literal),*) => {
        match ($wide, $big, $step) {
            $(
                (false, false, $s) => $function::<false, false, $s> $arguments,
                (false, true, $s) => $function::<false, true, $s> $arguments,
                (true, false, $s) => $function::<true, false, $s> $arguments,
                (true, true, $s) => $function::<true, true, $s> $arguments,
            )*
            _ => unreachable!(),
        }
    };
}

/// Calls [unpack_plane] for a depth, byte order and step that are known only at run time.
pub fn unpack_plane_as(
    wide: bool,
    big: bool,
    step: usize,
    src: &[u8],
    flip: bool,
    first: usize,
    dst: &mut [u16],
)
    requires step { (2 ≤ step) × (step ≤ max_channels) }
    requires first { first < step }
    requires whole { length src.now % sample_size wide ≡ 0 }
    requires room { length dst.old ≡ step * (length src.now / sample_size wide) }
    ensures long { length dst.new ≡ length dst.old }
    ensures samples { (k : ℕ) → k * step + first < length dst.old
        → slice_index dst.new (k * step + first) ≡ plane_sample wide big flip src.now k }
    ensures range { (k : ℕ) → k * step + first < length dst.old
        → slice_index dst.new (k * step + first) ≤ greatest_sample (depth_of wide) }
    ensures others { (k : ℕ) → k % step ≢ first
        → slice_index dst.new k ≡ slice_index dst.old k }
{
    in_case!(wide, big, step, unpack_plane(src, flip, first, dst): 2, 3, 4, 5, 6, 7, 8)
}
