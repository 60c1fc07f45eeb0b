//! Samples of a tile that lie side by side.

ghost use Rattle.std.specs.Prelude.{◌≡◌, ℕ, ◌+◌, ◌<◌, ◌≤◌, length, take, drop, slice_index};
ghost use Rattle.tile_store.specs.SampleRow.{samples_of};

/// Samples side by side, of one or two bytes each.
#[derive(Clone, Copy, Debug)]
pub enum SampleRow<'a> {
    Bytes(&'a [u8]),
    Shorts(&'a [u16]),
}

/// A sample of two bytes.
#[inline(always)]
fn short_at(samples: &[u16], at: usize) -> u16
    requires { at < length samples.now }
    ensures { result ≡ slice_index samples.now at }
{
    samples[at]
}

/// Copies bytes into samples of two bytes.
fn widen(bytes: &[u8], out: &mut [u16])
    requires { length out.old ≡ length bytes.now }
    ensures long { length out.new ≡ length out.old }
    ensures each { (k : ℕ) → k < length out.new
        → slice_index out.new k ≡ slice_index bytes.now k }
{
    for (k, sample) in out.iter_mut().enumerate() {
        *sample = u16::from(bytes[k]);
    }
}

impl<'a> SampleRow<'a> {
    /// The number of samples.
    #[inline(always)]
    pub fn count(&self) -> usize
        ensures { result ≡ length (samples_of self.now) }
    {
        match self {
            SampleRow::Bytes(samples) => samples.len(),
            SampleRow::Shorts(samples) => samples.len(),
        }
    }

    /// Whether a sample is one byte. Code that tests this once, and then has a loop for each case,
    /// is compiled to loops without the test.
    #[inline(always)]
    pub fn has_bytes(&self) -> bool {
        match self {
            SampleRow::Bytes(_) => true,
            SampleRow::Shorts(_) => false,
        }
    }

    /// The sample at a place.
    #[inline(always)]
    pub fn sample(&self, at: usize) -> u16
        requires { at < length (samples_of self.now) }
        ensures { result ≡ slice_index (samples_of self.now) at }
    {
        match self {
            SampleRow::Bytes(samples) => u16::from(samples[at]),
            SampleRow::Shorts(samples) => short_at(samples, at),
        }
    }

    /// The `count` samples from a place on.
    #[inline(always)]
    pub fn part(&self, from: usize, count: usize) -> SampleRow<'a>
        requires { from + count ≤ length (samples_of self.now) }
        ensures { samples_of result ≡ take count (drop from (samples_of self.now)) }
    {
        match self {
            SampleRow::Bytes(samples) => SampleRow::Bytes(&samples[from..from + count]),
            SampleRow::Shorts(samples) => SampleRow::Shorts(&samples[from..from + count]),
        }
    }

    /// Copies the samples to a slice of the same length.
    pub fn copy_to(&self, out: &mut [u16])
        requires { length out.old ≡ length (samples_of self.now) }
        ensures { out.new ≡ samples_of self.now }
    {
        match self {
            SampleRow::Bytes(samples) => widen(samples, out),
            SampleRow::Shorts(samples) => out.copy_from_slice(samples),
        }
    }
}
