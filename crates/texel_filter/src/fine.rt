//! Lookups in coordinates of 1/2^32 of the image.
ghost use Rattle.std.specs.Prelude.{◌≡◌, ◌<◌, length, OnOk, OnErr};
ghost use Rattle.std.specs.Option.{ForSome};
ghost use Rattle.texel_filter.specs.Image.{IsChannelCount, AreValues, image_of};
ghost use Rattle.texel_filter.specs.Filter.{closest_value, bilinear_value, trilinear_value};
ghost use Rattle.texel_filter.specs.Filter.{lookup_value, closest_in_level};
ghost use Rattle.texel_filter.specs.Filter.{trilinear_sum, AreSums};
ghost use Rattle.texel_filter.specs.Visits.{closest_visits, bilinear_visits, trilinear_visits};
ghost use Rattle.texel_filter.specs.Visits.{lookup_visits, texel_visits};
ghost use Rattle.texel_filter.specs.Calls.{LeftBy};
ghost use Rattle.texel_filter.specs.Fine.{IsFinePlace};

use crate::coordinate::{LevelPair, level_near, place_inside, place_of};
use crate::fetch::Fetch;
use crate::request::{Filter, FineRequest};
use crate::summing::{sum_between, sum_level};
use crate::writing::{write_between, write_level, write_one, write_texel};

// The fraction of a level that has no part in a lookup.
const NO_FRACTION: u32 = 0;

/// Writes the values of the texel in which the coordinates lie.
#[inline]
pub fn closest_fine<F: Fetch>(f: &mut F, r: &FineRequest, out: &mut [u16]) -> Result<(), F::Error>
    requires place { IsFinePlace r.now }
    requires count { length out.old ≡ r.now.nch }
    requires channels { IsChannelCount r.now.nch }
    ensures told { ForSome (F.values f.old) (λ v.
        OnOk result (AreValues (closest_value (image_of (F.sizes f.old) v) r.now) out.new)) }
    ensures left { LeftBy F.leaves F.refuses f.old (closest_visits (F.sizes f.old) r.now)
        f.new result }
    ensures same { OnErr result (out.new ≡ out.old) }
{
    let level = level_near(r.lod, f.levels());
    let (width, height) = f.size(level);
    // Mostly the texel is there, and no wrap is asked.
    match (place_inside(r.s, width), place_inside(r.t, height)) {
        (Some(x), Some(y)) => write_texel(f, level, (x, y), out),
        _ => write_wrapped(f, r, level, out),
    }
}

// The texel in which the coordinates lie in a level, as the wraps have it. Not inlined, so that the
// common case stays short.
#[inline(never)]
fn write_wrapped<F: Fetch>(
    f: &mut F,
    r: &FineRequest,
    level: u32,
    out: &mut [u16],
) -> Result<(), F::Error>
    requires place { IsFinePlace r.now }
    requires level { level < (F.sizes f.old).levels }
    requires channels { IsChannelCount (length out.old) }
    ensures told { ForSome (F.values f.old) (λ v. OnOk result
        (AreValues (closest_in_level (image_of (F.sizes f.old) v) r.now level) out.new)) }
    ensures left { LeftBy F.leaves F.refuses f.old (texel_visits (F.sizes f.old) r.now level)
        f.new result }
    ensures same { OnErr result (out.new ≡ out.old) }
{
    let (width, height) = f.size(level);
    let x = place_of(r.swrap, r.s, width);
    let y = place_of(r.twrap, r.t, height);
    write_one(f, level, (x, y), out)
}

/// Writes the weighted means of the four texels round the coordinates.
#[inline]
pub fn bilinear_fine<F: Fetch>(f: &mut F, r: &FineRequest, out: &mut [u16]) -> Result<(), F::Error>
    requires place { IsFinePlace r.now }
    requires count { length out.old ≡ r.now.nch }
    requires channels { IsChannelCount r.now.nch }
    ensures told { ForSome (F.values f.old) (λ v.
        OnOk result (AreValues (bilinear_value (image_of (F.sizes f.old) v) r.now) out.new)) }
    ensures left { LeftBy F.leaves F.refuses f.old (bilinear_visits (F.sizes f.old) r.now)
        f.new result }
    ensures same { OnErr result (out.new ≡ out.old) }
{
    let level = level_near(r.lod, f.levels());
    write_level(f, r, level, out)
}

/// Writes the weighted means of the four texels round the coordinates in each of the two levels
/// about the LOD, and of these.
#[inline]
pub fn trilinear_fine<F: Fetch>(f: &mut F, r: &FineRequest, out: &mut [u16]) -> Result<(), F::Error>
    requires place { IsFinePlace r.now }
    requires count { length out.old ≡ r.now.nch }
    requires channels { IsChannelCount r.now.nch }
    ensures told { ForSome (F.values f.old) (λ v.
        OnOk result (AreValues (trilinear_value (image_of (F.sizes f.old) v) r.now) out.new)) }
    ensures left { LeftBy F.leaves F.refuses f.old (trilinear_visits (F.sizes f.old) r.now)
        f.new result }
    ensures same { OnErr result (out.new ≡ out.old) }
{
    let levels = LevelPair::at(r.lod, f.levels());
    if levels.fraction == NO_FRACTION {
        write_level(f, r, levels.first, out)
    } else {
        write_between(f, r, levels, out)
    }
}

/// Writes the sums of which `trilinear_fine` writes the values, each of 48 bits below the value. No
/// sum is above 65535 * 2^48, whatever the fetch answers.
#[inline]
pub fn trisum_fine<F: Fetch>(f: &mut F, r: &FineRequest, out: &mut [u64]) -> Result<(), F::Error>
    requires place { IsFinePlace r.now }
    requires count { length out.old ≡ r.now.nch }
    requires channels { IsChannelCount r.now.nch }
    ensures told { ForSome (F.values f.old) (λ v.
        OnOk result (AreValues (trilinear_sum (image_of (F.sizes f.old) v) r.now) out.new)) }
    ensures high { OnOk result (AreSums out.new) }
    ensures left { LeftBy F.leaves F.refuses f.old (trilinear_visits (F.sizes f.old) r.now)
        f.new result }
    ensures same { OnErr result (out.new ≡ out.old) }
{
    let levels = LevelPair::at(r.lod, f.levels());
    if levels.fraction == NO_FRACTION {
        sum_level(f, r, levels.first, out)
    } else {
        sum_between(f, r, levels, out)
    }
}

/// Writes the values of a lookup, by its filter.
#[inline]
pub fn lookup_fine<F: Fetch>(f: &mut F, r: &FineRequest, out: &mut [u16]) -> Result<(), F::Error>
    requires place { IsFinePlace r.now }
    requires count { length out.old ≡ r.now.nch }
    requires channels { IsChannelCount r.now.nch }
    ensures told { ForSome (F.values f.old) (λ v.
        OnOk result (AreValues (lookup_value (image_of (F.sizes f.old) v) r.now) out.new)) }
    ensures left { LeftBy F.leaves F.refuses f.old (lookup_visits (F.sizes f.old) r.now)
        f.new result }
    ensures same { OnErr result (out.new ≡ out.old) }
{
    match r.filter {
        Filter::Closest => closest_fine(f, r, out),
        Filter::Bilinear => bilinear_fine(f, r, out),
        Filter::Trilinear => trilinear_fine(f, r, out),
    }
}
