//! Converts samples to bytes, lowest byte first.

ghost use Rattle.std.specs.Prelude.{◌≡◌, ◌+◌, ◌*◌, ◌/◌, ◌%◌, ◌≤◌, ◌<◌, ℕ, length, slice_index};
ghost use Rattle.tiff_format.specs.Block.{sample_bytes};
ghost use Rattle.tiff_format.specs.Facts.{IsDepth};
ghost use Rattle.tile_layout.specs.Texel.{FitDepth};
ghost use Rattle.tex_make.specs.Row.{byte_of_samples};

/// The bits of a sample that fits a byte.
pub(crate) const BYTE_BITS: u32 = 8;

/// Writes 8-bit samples, and fills the rest with zeros.
fn fill_narrow(samples: &[u16], out: &mut [u8])
    requires fit { FitDepth 8 samples.now }
    requires room { length samples.now ≤ length out.old }
    ensures long { length out.new ≡ length out.old }
    ensures front { (k : ℕ) → k < length samples.now
        → slice_index out.new k ≡ slice_index samples.now k }
    ensures behind { (k : ℕ) → length samples.now ≤ k → slice_index out.new k ≡ 0 }
{
    let (front, behind) = out.split_at_mut(samples.len());
    narrow(samples, front);
    behind.fill(0);
}

/// Writes each sample as one byte.
fn narrow(samples: &[u16], out: &mut [u8])
    requires fit { FitDepth 8 samples.now }
    requires room { length out.old ≡ length samples.now }
    ensures { (k : ℕ) → k < length samples.now
        → slice_index out.new k ≡ slice_index samples.now k }
{
    for (k, byte) in out.iter_mut().enumerate() {
        *byte = samples[k] as u8;
    }
}

/// Writes 16-bit samples, and fills the rest with zeros.
fn fill_wide(samples: &[u16], out: &mut [u8])
    requires { 2 * length samples.now ≤ length out.old }
    ensures long { length out.new ≡ length out.old }
    ensures low { (k : ℕ) → k < length samples.now
        → slice_index out.new (2 * k) ≡ slice_index samples.now k % 256 }
    ensures high { (k : ℕ) → k < length samples.now
        → slice_index out.new (2 * k + 1) ≡ slice_index samples.now k / 256 }
    ensures behind { (k : ℕ) → 2 * length samples.now ≤ k → slice_index out.new k ≡ 0 }
{
    let (front, behind) = out.split_at_mut(2 * samples.len());
    split(samples, front);
    behind.fill(0);
}

/// Writes each sample as two bytes.
fn split(samples: &[u16], out: &mut [u8])
    requires { length out.old ≡ 2 * length samples.now }
    ensures low { (k : ℕ) → k < length samples.now
        → slice_index out.new (2 * k) ≡ slice_index samples.now k % 256 }
    ensures high { (k : ℕ) → k < length samples.now
        → slice_index out.new (2 * k + 1) ≡ slice_index samples.now k / 256 }
{
    for k in 0..samples.len() {
        let sample = samples[k];
        out[2 * k] = (sample % 256) as u8;
        out[2 * k + 1] = (sample / 256) as u8;
    }
}

/// Writes samples of this depth, and fills the rest with zeros.
fn fill_row(depth: u32, samples: &[u16], out: &mut [u8])
    requires bits { IsDepth depth }
    requires fit { FitDepth depth samples.now }
    requires room { sample_bytes depth * length samples.now ≤ length out.old }
    ensures long { length out.new ≡ length out.old }
    ensures each { (k : ℕ) → k < length out.old
        → slice_index out.new k ≡ byte_of_samples depth samples.now k }
{
    if depth == BYTE_BITS {
        fill_narrow(samples, out)
    } else {
        fill_wide(samples, out)
    }
}

/// Writes samples of this depth to a range of the buffer, and fills the rest of the range with
/// zeros.
pub(crate) fn fill_row_at(depth: u32, samples: &[u16], start: usize, end: usize, out: &mut [u8])
    requires bits { IsDepth depth }
    requires fit { FitDepth depth samples.now }
    requires inside { end ≤ length out.old }
    requires room { start + sample_bytes depth * length samples.now ≤ end }
    ensures long { length out.new ≡ length out.old }
    ensures before { (k : ℕ) → k < start → slice_index out.new k ≡ slice_index out.old k }
    ensures within { (k : ℕ) → start + k < end
        → slice_index out.new (start + k) ≡ byte_of_samples depth samples.now k }
{
    fill_row(depth, samples, &mut out[start..end]);
}
