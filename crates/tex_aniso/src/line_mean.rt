//! The weighted mean of the trilinear probes of a line.
ghost use Rattle.std.specs.Prelude.{◌≡◌, ℕ, ◌+◌, ◌-◌, ◌*◌, ◌^◌, ◌<◌, ◌≤◌, length, slice_index};
ghost use Rattle.std.specs.Prelude.{OnOk, OnErr, IfOk};
ghost use Rattle.std.specs.Option.{ForSome};
ghost use Rattle.tiff_format.specs.Limits.{max_channels};
ghost use Rattle.texel_filter.specs.Image.{IsChannelCount, AreFirst, AreValues, image_of};
ghost use Rattle.texel_filter.specs.Coordinate.{unit};
ghost use Rattle.texel_filter.specs.Fine.{IsFinePlace};
ghost use Rattle.texel_filter.specs.Filter.{trilinear_sum, blended_sum, max_trilinear_sum};
ghost use Rattle.texel_filter.specs.Filter.{trilinear_value};
ghost use Rattle.texel_filter.specs.LevelPair.{AreLevelsAt};
ghost use Rattle.texel_filter.specs.Weighted.{max_sum, AreLevelSums};
ghost use Rattle.texel_filter.specs.Visits.{trilinear_visits};
ghost use Rattle.texel_filter.specs.Calls.{LeftBy};
ghost use Rattle.tex_aniso.specs.Line.{IsProbeLine, total_weight, line_probe, line_sum, line_value};
ghost use Rattle.tex_aniso.specs.Line.{line_visits};
ghost use Rattle.tex_aniso.specs.Mean.{mean_of};
ghost use Rattle.tex_aniso.specs.Sums.{AreUpTo, HaveGrown, HaveBlended, AreTotals};
ghost use Rattle.tex_aniso.specs.Sums.{max_weight, max_narrow_weight};

use crate::probe_line::ProbeLine;
use crate::weighted_sums::{add_probe, mean_of, write_means};
use texel_filter::{Fetch, FineRequest, LevelPair, level_sums};
use tiff_format::MAX_CHANNELS;

// The greatest sum of weights whose sums of a level fit 64 bits.
const MAX_NARROW_WEIGHT: u32 = 65536;

const UNIT: u32 = 65536;

const NO_FRACTION: u32 = 0;

/// Writes the weighted mean of the trilinear probes of a line.
pub fn probes<F: Fetch>(f: &mut F, line: &ProbeLine, out: &mut [u16]) -> Result<(), F::Error>
    requires line { IsProbeLine line.now }
    requires count { length out.old ≡ line.now.nch }
    // The mean of all probes; of one alone, whatever its weight, its trilinear value.
    ensures told { ForSome (F.values f.old) (λ v.
        OnOk result (AreValues (line_value (image_of (F.sizes f.old) v) line.now) out.new)) }
    ensures single { ForSome (F.values f.old) (λ v. line.now.count ≡ 1 →
        OnOk result (AreValues (trilinear_value (image_of (F.sizes f.old) v)
        (line_probe line.now 0)) out.new)) }
    // The texels that were asked for, and what a refusal leaves.
    ensures left { LeftBy F.leaves F.refuses f.old (line_visits (F.sizes f.old) line.now)
        f.new result }
    ensures same { OnErr result (out.new ≡ out.old) }
{
    let total = line.total();
    if total <= MAX_NARROW_WEIGHT {
        narrow_mean(f, line, total, out)
    } else {
        wide_mean(f, line, total, out)
    }
}

// ---- weights of up to 65536 together: sums of 64 bits

fn narrow_mean<F: Fetch>(
    f: &mut F,
    line: &ProbeLine,
    total: u32,
    out: &mut [u16],
) -> Result<(), F::Error>
    requires line { IsProbeLine line.now }
    requires count { length out.old ≡ line.now.nch }
    requires total { total ≡ total_weight line.now line.now.count }
    requires narrow { total ≤ max_narrow_weight }
    ensures told { ForSome (F.values f.old) (λ v.
        OnOk result (AreValues (line_value (image_of (F.sizes f.old) v) line.now) out.new)) }
    ensures left { LeftBy F.leaves F.refuses f.old (line_visits (F.sizes f.old) line.now)
        f.new result }
    ensures same { OnErr result (out.new ≡ out.old) }
{
    let levels = LevelPair::at(line.lod, f.levels());
    let sums = narrow_sums(f, line, &levels)?;
    write_blended(&sums, levels.fraction, total, out);
    Ok(())
}

// Sums of each channel in the two levels about an LOD, over some probes, by their weights.
#[derive(Drop)]
struct LevelTotals {
    first: [u64; MAX_CHANNELS],
    second: [u64; MAX_CHANNELS],
}

// The sums over all probes.
fn narrow_sums<F: Fetch>(
    f: &mut F,
    line: &ProbeLine,
    levels: &LevelPair,
) -> Result<LevelTotals, F::Error>
    requires line { IsProbeLine line.now }
    requires narrow { total_weight line.now line.now.count ≤ max_narrow_weight }
    requires levels { AreLevelsAt line.now.lod (F.sizes f.old).levels levels.now }
    requires few { (F.sizes f.old).levels < 2 ^ 32 }
    ensures told { ForSome (F.values f.old) (λ v. IfOk result (λ sums. (c : ℕ) → c < line.now.nch
        → blended_sum levels.now.fraction (slice_index sums.first c) (slice_index sums.second c)
        ≡ line_sum (image_of (F.sizes f.old) v) line.now c line.now.count)) }
    ensures high { IfOk result (AreTotals (total_weight line.now line.now.count)) }
    ensures left { LeftBy F.leaves F.refuses f.old (line_visits (F.sizes f.old) line.now)
        f.new result }
{
    let mut sums = LevelTotals {
        first: [0; MAX_CHANNELS],
        second: [0; MAX_CHANNELS],
    };
    for j in 0..line.count {
        let r = line.probe(j);
        add_levels(f, &r, levels, line.weights[j as usize], &mut sums)?;
    }
    Ok(sums)
}

// Adds the sums of a probe in each level, multiplied by the weight.
fn add_levels<F: Fetch>(
    f: &mut F,
    r: &FineRequest,
    levels: &LevelPair,
    weight: u16,
    sums: &mut LevelTotals,
) -> Result<(), F::Error>
    requires place { IsFinePlace r.now }
    requires channels { IsChannelCount r.now.nch }
    requires levels { AreLevelsAt r.now.lod (F.sizes f.old).levels levels.now }
    requires few { (F.sizes f.old).levels < 2 ^ 32 }
    requires room { AreTotals (max_narrow_weight - weight) sums.old }
    ensures told { ForSome (F.values f.old) (λ v. OnOk result (HaveBlended r.now.nch
        levels.now.fraction (λ c. weight * trilinear_sum (image_of (F.sizes f.old) v) r.now c)
        sums.old sums.new)) }
    ensures first { OnOk result ((c : ℕ) →
        slice_index sums.new.first c ≤ slice_index sums.old.first c + weight * max_sum) }
    ensures second { OnOk result ((c : ℕ) →
        slice_index sums.new.second c ≤ slice_index sums.old.second c + weight * max_sum) }
    ensures left { LeftBy F.leaves F.refuses f.old (trilinear_visits (F.sizes f.old) r.now)
        f.new result }
{
    let n = r.nch as usize;
    let first = level_sums(f, r, levels.first, n)?;
    if levels.fraction == NO_FRACTION {
        add_level(weight, &first, n, &mut sums.first);
        return Ok(());
    }
    let second = level_sums(f, r, levels.first + 1, n)?;
    add_level(weight, &first, n, &mut sums.first);
    add_level(weight, &second, n, &mut sums.second);
    Ok(())
}

// Adds the first n numbers, multiplied by the weight, to the sums of their channels.
#[inline(always)]
fn add_level(weight: u16, more: &[u64; MAX_CHANNELS], n: usize, sums: &mut [u64; MAX_CHANNELS])
    requires channels { n ≤ max_channels }
    requires low { AreLevelSums n more.now }
    requires room { AreUpTo ((max_narrow_weight - weight) * max_sum) sums.old }
    ensures value { HaveGrown n (λ c. weight * slice_index more.now c) sums.old sums.new }
    ensures rest { (c : ℕ) → n ≤ c → slice_index sums.new c ≡ slice_index sums.old c }
{
    for c in 0..n {
        sums[c] += u64::from(weight) * more[c];
    }
}

// Writes the means of sums in two levels, by the fraction of the second one.
fn write_blended(sums: &LevelTotals, fraction: u32, total: u32, out: &mut [u16])
    requires fraction { fraction < unit }
    requires channels { IsChannelCount (length out.old) }
    requires some { 1 ≤ total }
    requires narrow { total ≤ max_narrow_weight }
    requires high { AreTotals total sums.now }
    ensures { AreValues (λ c. mean_of total (blended_sum fraction
        (slice_index sums.now.first c) (slice_index sums.now.second c))) out.new }
{
    for c in 0..out.len() {
        out[c] = mean_of(total, blended(fraction, sums.first[c], sums.second[c]));
    }
}

// A sum over two levels, by the fraction of the second one.
#[inline(always)]
fn blended(fraction: u32, first: u64, second: u64) -> u128
    requires { fraction < unit }
    ensures { result ≡ blended_sum fraction first second }
{
    u128::from(UNIT - fraction) * u128::from(first) + u128::from(fraction) * u128::from(second)
}

// ---- any weights: sums of 128 bits

fn wide_mean<F: Fetch>(
    f: &mut F,
    line: &ProbeLine,
    total: u32,
    out: &mut [u16],
) -> Result<(), F::Error>
    requires line { IsProbeLine line.now }
    requires count { length out.old ≡ line.now.nch }
    requires total { total ≡ total_weight line.now line.now.count }
    requires weights { total ≤ max_weight }
    ensures told { ForSome (F.values f.old) (λ v.
        OnOk result (AreValues (line_value (image_of (F.sizes f.old) v) line.now) out.new)) }
    ensures left { LeftBy F.leaves F.refuses f.old (line_visits (F.sizes f.old) line.now)
        f.new result }
    ensures same { OnErr result (out.new ≡ out.old) }
{
    let sums = wide_sums(f, line)?;
    write_means(&sums, total, out);
    Ok(())
}

// The sums over all probes.
fn wide_sums<F: Fetch>(f: &mut F, line: &ProbeLine) -> Result<[u128; MAX_CHANNELS], F::Error>
    requires line { IsProbeLine line.now }
    requires weights { total_weight line.now line.now.count ≤ max_weight }
    ensures told { ForSome (F.values f.old) (λ v. IfOk result (AreFirst line.now.nch
        (λ c. line_sum (image_of (F.sizes f.old) v) line.now c line.now.count))) }
    ensures high { IfOk result
        (AreUpTo (total_weight line.now line.now.count * max_trilinear_sum)) }
    ensures left { LeftBy F.leaves F.refuses f.old (line_visits (F.sizes f.old) line.now)
        f.new result }
{
    let mut sums = [0; MAX_CHANNELS];
    for j in 0..line.count {
        let r = line.probe(j);
        add_probe(f, &r, line.weights[j as usize], &mut sums)?;
    }
    Ok(sums)
}
