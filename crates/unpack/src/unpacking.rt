//! Converts a block of samples, for each depth and byte order.

ghost use Rattle.std.specs.Prelude.{◌≡◌, ◌*◌, ◌<◌, ◌≤◌, ℕ, length, slice_index};
ghost use Rattle.tiff_format.specs.Texel.{greatest_sample};
ghost use Rattle.unpack.specs.Sample.{depth_of, sample_of, sample_size};

use crate::passes::{invert_white, read_stored};

/// Writes each sample of `src` to its place in `dst`. If `WIDE`, samples are 0 to 65535 and have
/// two bytes, the highest first if `BIG`; otherwise they are 0 to 255 and have one. `invert` is the
/// number of channels of a WhiteIsZero image, whose channel 0 is the greatest value minus the
/// stored number; otherwise it is 0. `src` must hold as many samples as `dst`. (TIFF 6.0, section 2
/// on the byte order, section 8 on PhotometricInterpretation)
pub fn unpack<const WIDE: bool, const BIG: bool>(src: &[u8], invert: usize, dst: &mut [u16])
    requires size { length src.now ≡ sample_size WIDE * length dst.old }
    ensures long { length dst.new ≡ length dst.old }
    ensures samples { (k : ℕ) → k < length dst.new →
        slice_index dst.new k ≡ sample_of WIDE BIG invert src.now k }
    ensures range { (k : ℕ) → k < length dst.new →
        slice_index dst.new k ≤ greatest_sample (depth_of WIDE) }
{
    read_stored(WIDE, BIG, src, dst);
    invert_white(WIDE, invert, dst);
}

/// Calls the function instance for two flags.
macro_rules! in_case {
    ($wide:ident, $big:ident, $function:ident $arguments:tt: $(($w:literal, $b:literal)),*) => {
        match ($wide, $big) {
            $(($w, $b) => $function::<$w, $b> $arguments,)*
        }
    };
}

/// Calls [unpack] for a depth and byte order that are known only at run time.
pub fn unpack_as(wide: bool, big: bool, src: &[u8], invert: usize, dst: &mut [u16])
    requires size { length src.now ≡ sample_size wide * length dst.old }
    ensures long { length dst.new ≡ length dst.old }
    ensures samples { (k : ℕ) → k < length dst.new →
        slice_index dst.new k ≡ sample_of wide big invert src.now k }
    ensures range { (k : ℕ) → k < length dst.new →
        slice_index dst.new k ≤ greatest_sample (depth_of wide) }
{
    in_case!(wide, big, unpack(src, invert, dst):
        (false, false), (false, true), (true, false), (true, true))
}
