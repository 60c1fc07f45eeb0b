//! The two passes over the samples of a block: reading the stored numbers, and inverting white.

ghost use Rattle.std.specs.Prelude.{◌≡◌, ◌+◌, ◌*◌, ◌<◌, ◌≤◌, ℕ, length, slice_index, bit_xor};
ghost use Rattle.tiff_format.specs.Texel.{greatest_sample};
ghost use Rattle.unpack.specs.Sample.{depth_of, sample_size};
ghost use Rattle.unpack.specs.Passes.{AreLow, AreStored, AreUnwhite, IsWhiteMask};

use byteorder::{BigEndian, ByteOrder, LittleEndian};

/// The most channels for which a mask is used. With more, writing the first sample of each pixel is
/// as fast.
const MASK_CHANNELS: usize = 4;
/// The number of pixels in a mask: a multiple of the lanes of any vector unit.
const MASK_PIXELS: usize = 32;
/// The number of samples in a mask with the most channels.
const MASK_SAMPLES: usize = 128;
/// The least number of samples for which a mask pays off.
const MASK_WORTH: usize = 1024;

/// Writes the stored number of each sample.
pub fn read_stored(wide: bool, big: bool, src: &[u8], dst: &mut [u16])
    requires { length src.now ≡ sample_size wide * length dst.old }
    ensures stored { AreStored wide big src.now dst.new }
    ensures low { AreLow wide dst.new }
{
    if !wide {
        widen(src, dst)
    } else if big {
        BigEndian::read_u16_into(src, dst)
    } else {
        LittleEndian::read_u16_into(src, dst)
    }
}

/// Writes each byte as a 16-bit number.
fn widen(src: &[u8], dst: &mut [u16])
    requires { length src.now ≡ length dst.old }
    ensures { (k : ℕ) → k < length dst.new → slice_index dst.new k ≡ slice_index src.now k }
{
    for (k, sample) in dst.iter_mut().enumerate() {
        *sample = u16::from(src[k]);
    }
}

/// Inverts the samples of channel 0 out of `channels`, as WhiteIsZero asks; none if `channels` is
/// 0.
pub fn invert_white(wide: bool, channels: usize, dst: &mut [u16])
    requires { AreLow wide dst.old }
    ensures { AreUnwhite wide channels dst.old dst.new }
{
    match channels {
        0 => {}
        1 => invert_all(wide, dst),
        2..=MASK_CHANNELS if dst.len() >= MASK_WORTH => invert_blocks(wide, channels, dst),
        _ => invert_first(wide, channels, dst),
    }
}

/// The greatest value of a sample.
pub fn greatest(wide: bool) -> u16
    ensures { result ≡ greatest_sample (depth_of wide) }
{
    if wide { u16::MAX } else { u16::from(u8::MAX) }
}

/// Inverts every sample. A separate function, so that its loop becomes vector code.
fn invert_all(wide: bool, dst: &mut [u16])
    requires { AreLow wide dst.old }
    ensures { AreUnwhite wide 1 dst.old dst.new }
{
    let most = greatest(wide);
    for sample in dst.iter_mut() {
        *sample = most - *sample;
    }
}

/// Inverts the first sample of each pixel.
fn invert_first(wide: bool, channels: usize, dst: &mut [u16])
    requires some { 0 < channels }
    requires low { AreLow wide dst.old }
    ensures { AreUnwhite wide channels dst.old dst.new }
{
    let most = greatest(wide);
    for pixel in 0..dst.len().div_ceil(channels) {
        let k = pixel * channels;
        dst[k] = most - dst[k];
    }
}

/// Inverts the first sample of each pixel, block by block. It never tests a sample's channel, so
/// that its loops become vector code.
fn invert_blocks(wide: bool, channels: usize, dst: &mut [u16])
    requires some { 0 < channels }
    requires few { channels ≤ MASK_CHANNELS }
    requires low { AreLow wide dst.old }
    ensures { AreUnwhite wide channels dst.old dst.new }
{
    let mask = white_mask(wide, channels);
    let size = MASK_PIXELS * channels;
    for block in 0..dst.len().div_ceil(size) {
        let start = block * size;
        let end = start + size.min(dst.len() - start);
        flip_range(&mask, start, end, dst);
    }
}

/// The bits to flip in the samples of the pixels of a mask.
fn white_mask(wide: bool, channels: usize) -> [u16; MASK_SAMPLES]
    requires some { 0 < channels }
    requires few { channels ≤ MASK_CHANNELS }
    ensures { IsWhiteMask wide channels (MASK_PIXELS * channels) result }
{
    let mut mask = [0; MASK_SAMPLES];
    mark_white(wide, channels, &mut mask);
    mask
}

/// Sets these bits in a mask of zeros.
fn mark_white(wide: bool, channels: usize, mask: &mut [u16])
    requires some { 0 < channels }
    requires few { channels ≤ MASK_CHANNELS }
    requires room { length mask.old ≡ MASK_SAMPLES }
    requires blank { (k : ℕ) → k < length mask.old → slice_index mask.old k ≡ 0 }
    ensures { IsWhiteMask wide channels (MASK_PIXELS * channels) mask.new }
{
    invert_first(wide, channels, &mut mask[..MASK_PIXELS * channels]);
}

/// Flips the bits of a mask in a range of samples.
fn flip_range(mask: &[u16], start: usize, end: usize, dst: &mut [u16])
    requires order { start ≤ end }
    requires inside { end ≤ length dst.old }
    requires room { end ≤ start + length mask.now }
    ensures before { (k : ℕ) → k < start → slice_index dst.new k ≡ slice_index dst.old k }
    ensures within { (k : ℕ) → start + k < end → slice_index dst.new (start + k)
        ≡ bit_xor (slice_index dst.old (start + k)) (slice_index mask.now k) }
    ensures behind { (k : ℕ) → end ≤ k → slice_index dst.new k ≡ slice_index dst.old k }
{
    flip(mask, &mut dst[start..end]);
}

/// Flips the bits of a mask in each sample.
fn flip(mask: &[u16], dst: &mut [u16])
    requires { length dst.old ≤ length mask.now }
    ensures { (k : ℕ) → k < length dst.new
        → slice_index dst.new k ≡ bit_xor (slice_index dst.old k) (slice_index mask.now k) }
{
    for (k, sample) in dst.iter_mut().enumerate() {
        *sample ^= mask[k];
    }
}
