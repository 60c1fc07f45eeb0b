//! Sums of trilinear probes by their weights, and the means of them.
ghost use Rattle.std.specs.Prelude.{◌≡◌, ℕ, ◌+◌, ◌*◌, ◌^◌, ◌<◌, ◌≤◌, length, slice_index};
ghost use Rattle.std.specs.Prelude.{OnOk};
ghost use Rattle.std.specs.Option.{ForSome};
ghost use Rattle.texel_filter.specs.Image.{IsChannelCount, AreValues, image_of};
ghost use Rattle.texel_filter.specs.Fine.{IsFinePlace};
ghost use Rattle.texel_filter.specs.Filter.{trilinear_sum, max_trilinear_sum};
ghost use Rattle.texel_filter.specs.Visits.{trilinear_visits};
ghost use Rattle.texel_filter.specs.Calls.{LeftBy};
ghost use Rattle.tex_aniso.specs.Mean.{mean_of};
ghost use Rattle.tex_aniso.specs.Sums.{HaveGrown, AreUpTo, max_weight};

use texel_filter::{Fetch, FineRequest, trisum_fine};
use tiff_format::MAX_CHANNELS;

// A trilinear sum has 48 bits below the value; and a half of a value.
const SUM_BITS: u32 = 48;

const HALF_SUM: u128 = 1 << 47;

/// Adds the sums of a probe, each multiplied by the weight.
pub(crate) fn add_probe<F: Fetch>(
    f: &mut F,
    r: &FineRequest,
    weight: u16,
    sums: &mut [u128; MAX_CHANNELS],
) -> Result<(), F::Error>
    requires place { IsFinePlace r.now }
    requires channels { IsChannelCount r.now.nch }
    requires room { AreUpTo (2 ^ 100) sums.old }
    ensures told { ForSome (F.values f.old) (λ v. OnOk result (HaveGrown r.now.nch
        (λ c. weight * trilinear_sum (image_of (F.sizes f.old) v) r.now c) sums.old sums.new)) }
    ensures high { OnOk result ((c : ℕ) →
        slice_index sums.new c ≤ slice_index sums.old c + weight * max_trilinear_sum) }
    ensures left { LeftBy F.leaves F.refuses f.old (trilinear_visits (F.sizes f.old) r.now)
        f.new result }
{
    let n = r.nch as usize;
    let mut probe = [0; MAX_CHANNELS];
    trisum_fine(f, r, &mut probe[..n])?;
    add_times(weight, &probe[..n], sums);
    Ok(())
}

// Adds each number, multiplied by the weight, to the sum of its channel.
fn add_times(weight: u16, more: &[u64], sums: &mut [u128])
    requires count { length more.now ≤ length sums.old }
    requires room { AreUpTo (2 ^ 100) sums.old }
    ensures value { HaveGrown (length more.now) (λ c. weight * slice_index more.now c)
        sums.old sums.new }
    ensures rest { (c : ℕ) → length more.now ≤ c → slice_index sums.new c ≡ slice_index sums.old c }
{
    for c in 0..more.len() {
        sums[c] += u128::from(weight) * u128::from(more[c]);
    }
}

/// Writes the means of sums whose weights are `total` together.
pub(crate) fn write_means(sums: &[u128; MAX_CHANNELS], total: u32, out: &mut [u16])
    requires channels { IsChannelCount (length out.old) }
    requires some { 1 ≤ total }
    requires few { total ≤ max_weight }
    requires high { AreUpTo (total * max_trilinear_sum) sums.now }
    ensures { AreValues (λ c. mean_of total (slice_index sums.now c)) out.new }
{
    for c in 0..out.len() {
        out[c] = mean_of(total, sums[c]);
    }
}

/// The mean of a sum whose weights are `total` together: rounded once, a half up.
#[inline(always)]
pub(crate) fn mean_of(total: u32, sum: u128) -> u16
    requires some { 1 ≤ total }
    requires few { total ≤ max_weight }
    requires high { sum ≤ total * max_trilinear_sum }
    ensures { result ≡ mean_of total sum }
{
    let values = (sum + u128::from(total) * HALF_SUM) >> SUM_BITS;
    (values as u64 / u64::from(total)) as u16
}
