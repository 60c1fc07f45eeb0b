//! Lookups in coordinates of 1/65536 of the image. Each is the lookup of `fine.rt` at the same
//! place.
ghost use Rattle.std.specs.Prelude.{◌≡◌, length, OnOk, OnErr};
ghost use Rattle.std.specs.Option.{ForSome};
ghost use Rattle.texel_filter.specs.Image.{IsChannelCount, AreValues, image_of};
ghost use Rattle.texel_filter.specs.Filter.{closest_value, bilinear_value, trilinear_value};
ghost use Rattle.texel_filter.specs.Filter.{lookup_value, trilinear_sum, AreSums};
ghost use Rattle.texel_filter.specs.Visits.{closest_visits, bilinear_visits, trilinear_visits};
ghost use Rattle.texel_filter.specs.Visits.{lookup_visits};
ghost use Rattle.texel_filter.specs.Calls.{LeftBy};
ghost use Rattle.texel_filter.specs.Fine.{fine_of};

use crate::fetch::Fetch;
use crate::fine::{bilinear_fine, closest_fine, lookup_fine, trilinear_fine, trisum_fine};
use crate::request::TexRequest;

/// Writes the values of the texel in which the coordinates lie, in the level nearest to the LOD.
#[inline]
pub fn closest<F: Fetch>(f: &mut F, r: &TexRequest, out: &mut [u16]) -> Result<(), F::Error>
    requires count { length out.old ≡ r.now.nch }
    requires channels { IsChannelCount r.now.nch }
    ensures told { ForSome (F.values f.old) (λ v. OnOk result
        (AreValues (closest_value (image_of (F.sizes f.old) v) (fine_of r.now)) out.new)) }
    ensures left { LeftBy F.leaves F.refuses f.old (closest_visits (F.sizes f.old) (fine_of r.now))
        f.new result }
    ensures same { OnErr result (out.new ≡ out.old) }
{
    closest_fine(f, &r.fine(), out)
}

/// Writes the weighted means of the four texels round the coordinates, in the level nearest to the
/// LOD.
#[inline]
pub fn bilinear<F: Fetch>(f: &mut F, r: &TexRequest, out: &mut [u16]) -> Result<(), F::Error>
    requires count { length out.old ≡ r.now.nch }
    requires channels { IsChannelCount r.now.nch }
    ensures told { ForSome (F.values f.old) (λ v. OnOk result
        (AreValues (bilinear_value (image_of (F.sizes f.old) v) (fine_of r.now)) out.new)) }
    ensures left { LeftBy F.leaves F.refuses f.old (bilinear_visits (F.sizes f.old) (fine_of r.now))
        f.new result }
    ensures same { OnErr result (out.new ≡ out.old) }
{
    bilinear_fine(f, &r.fine(), out)
}

/// Writes the weighted means of the four texels round the coordinates in each of the two levels
/// about the LOD, blended by the fraction of the LOD.
#[inline]
pub fn trilinear<F: Fetch>(f: &mut F, r: &TexRequest, out: &mut [u16]) -> Result<(), F::Error>
    requires count { length out.old ≡ r.now.nch }
    requires channels { IsChannelCount r.now.nch }
    ensures told { ForSome (F.values f.old) (λ v. OnOk result
        (AreValues (trilinear_value (image_of (F.sizes f.old) v) (fine_of r.now)) out.new)) }
    ensures left { LeftBy F.leaves F.refuses f.old (trilinear_visits (F.sizes f.old) (fine_of r.now))
        f.new result }
    ensures same { OnErr result (out.new ≡ out.old) }
{
    trilinear_fine(f, &r.fine(), out)
}

/// Writes the sums from which `trilinear` rounds its values: 48 bits below the value. No sum is
/// above 65535 * 2^48, whatever the fetch answers.
#[inline]
pub fn trisum<F: Fetch>(f: &mut F, r: &TexRequest, out: &mut [u64]) -> Result<(), F::Error>
    requires count { length out.old ≡ r.now.nch }
    requires channels { IsChannelCount r.now.nch }
    ensures told { ForSome (F.values f.old) (λ v. OnOk result
        (AreValues (trilinear_sum (image_of (F.sizes f.old) v) (fine_of r.now)) out.new)) }
    ensures high { OnOk result (AreSums out.new) }
    ensures left { LeftBy F.leaves F.refuses f.old (trilinear_visits (F.sizes f.old) (fine_of r.now))
        f.new result }
    ensures same { OnErr result (out.new ≡ out.old) }
{
    trisum_fine(f, &r.fine(), out)
}

/// Writes the values of a lookup, by its filter.
#[inline]
pub fn lookup<F: Fetch>(f: &mut F, r: &TexRequest, out: &mut [u16]) -> Result<(), F::Error>
    requires count { length out.old ≡ r.now.nch }
    requires channels { IsChannelCount r.now.nch }
    ensures told { ForSome (F.values f.old) (λ v. OnOk result
        (AreValues (lookup_value (image_of (F.sizes f.old) v) (fine_of r.now)) out.new)) }
    ensures left { LeftBy F.leaves F.refuses f.old (lookup_visits (F.sizes f.old) (fine_of r.now))
        f.new result }
    ensures same { OnErr result (out.new ≡ out.old) }
{
    lookup_fine(f, &r.fine(), out)
}
