//! Runs a lookup of any form on any source of texels.
ghost use Rattle.std.specs.Prelude.{◌≡◌, ℕ, ◌+◌, ◌<◌, ◌≤◌, length, slice_index, OnOk, OnErr, IfErr};
ghost use Rattle.std.specs.Option.{ForSome};
ghost use Rattle.texel_filter.specs.Image.{AreValues, image_of};
ghost use Rattle.texel_filter.specs.Calls.{LeftBy};
ghost use Rattle.texture_sys.specs.Asked.{channels_asked, MayBeLookedUp, asked_value, asked_visits};
ghost use Rattle.texture_sys.specs.Asked.{channels_in, IsInRange, value_on, visits_in};
ghost use Rattle.texture_sys.specs.Asked.{values_in, AreInRange, all_visits, whole};
ghost use Rattle.texture_sys.specs.Asked.{AreValuesOn, AreFirstOn, KeepsOthers};
ghost use Rattle.texture_sys.specs.Batch.{batch_channels, batch_len, IsBatchInRange, batch_visits};
ghost use Rattle.texture_sys.specs.Batch.{IsPlaceInRange, place_value, place_visits};
ghost use Rattle.texture_sys.specs.Batch.{AreAnswered, KeepsBehind};

use crate::batch::{Batch, BatchOptions, LookupPoint};
use crate::lookup::{Lookup, Lookups};
use crate::lookup_request::LookupRequest;
use crate::stopped::{Stopped, alone};
use tex_aniso::{derivs, ellipse, probes};
use texel_filter::{Fetch, lookup, lookup_fine};

/// Writes one value per requested channel of a lookup whose coordinates are in 1/65536 of the image.
#[inline]
fn coarse_for<F: Fetch>(f: &mut F, r: &LookupRequest, out: &mut [u16]) -> Result<(), F::Error>
    requires count { length out.old ≡ channels_asked r.now }
    requires asked { MayBeLookedUp r.now }
    ensures told { ForSome (F.values f.old) (λ v.
        OnOk result (AreValues (asked_value (image_of (F.sizes f.old) v) r.now) out.new)) }
    ensures left { LeftBy F.leaves F.refuses f.old (asked_visits (F.sizes f.old) r.now)
        f.new result }
    ensures same { OnErr result (out.new ≡ out.old) }
{
    match r {
        LookupRequest::Point(r) => lookup(f, r, out),
        LookupRequest::Footprint(r) => derivs(f, r, out),
    }
}

/// Writes one value per requested channel to `out`.
#[inline]
pub(crate) fn lookup_for<F: Fetch>(f: &mut F, r: &Lookup, out: &mut [u16]) -> Result<(), F::Error>
    requires count { length out.old ≡ channels_in r.now }
    requires asked { IsInRange r.now }
    ensures told { ForSome (F.values f.old) (λ v.
        OnOk result (AreValues (value_on (image_of (F.sizes f.old) v) r.now) out.new)) }
    ensures left { LeftBy F.leaves F.refuses f.old (visits_in (F.sizes f.old) r.now)
        f.new result }
    ensures same { OnErr result (out.new ≡ out.old) }
{
    match r {
        Lookup::Coarse(r) => coarse_for(f, r, out),
        Lookup::Fine(r) => lookup_fine(f, r, out),
        Lookup::Probes(line) => probes(f, line, out),
        Lookup::Ellipse(r) => ellipse(f, r, out),
    }
}

/// Writes the values of one lookup of a batch to `out`.
#[inline]
fn place_for<F: Fetch>(
    f: &mut F,
    options: &BatchOptions,
    place: &LookupPoint,
    out: &mut [u16],
) -> Result<(), F::Error>
    requires count { length out.old ≡ batch_channels options.now }
    requires asked { IsPlaceInRange options.now place.now }
    ensures told { ForSome (F.values f.old) (λ v. OnOk result (AreValues
        (place_value (image_of (F.sizes f.old) v) options.now place.now) out.new)) }
    ensures left { LeftBy F.leaves F.refuses f.old
        (place_visits (F.sizes f.old) options.now place.now) f.new result }
    ensures same { OnErr result (out.new ≡ out.old) }
{
    match options {
        BatchOptions::Points(o) => lookup_fine(f, &o.at(place), out),
        BatchOptions::Footprints(o) => ellipse(f, &o.at(place), out),
    }
}

/// Writes the values of one lookup of a batch to `out`, from index `at` on.
#[inline]
fn place_from<F: Fetch>(
    f: &mut F,
    options: &BatchOptions,
    place: &LookupPoint,
    at: usize,
    out: &mut [u16],
) -> Result<(), F::Error>
    requires room { at + batch_channels options.now ≤ length out.old }
    requires asked { IsPlaceInRange options.now place.now }
    ensures told { ForSome (F.values f.old) (λ v. OnOk result ((c : ℕ)
        → c < batch_channels options.now → slice_index out.new (at + c)
        ≡ place_value (image_of (F.sizes f.old) v) options.now place.now c)) }
    ensures left { LeftBy F.leaves F.refuses f.old
        (place_visits (F.sizes f.old) options.now place.now) f.new result }
    ensures long { length out.new ≡ length out.old }
    ensures before { (k : ℕ) → k < at → slice_index out.new k ≡ slice_index out.old k }
    ensures behind { (k : ℕ) → at + batch_channels options.now ≤ k
        → slice_index out.new k ≡ slice_index out.old k }
    ensures same { OnErr result ((k : ℕ) → slice_index out.new k ≡ slice_index out.old k) }
{
    let end = at + options.channels() as usize;
    place_for(f, options, place, &mut out[at..end])
}

/// Writes the values of each lookup of a batch to `out`, one after another.
fn many_for<F: Fetch>(
    f: &mut F,
    batch: &Batch<'_>,
    out: &mut [u16],
) -> Result<(), Stopped<F::Error>>
    requires count { length out.old ≡ batch_len batch.now }
    requires asked { IsBatchInRange batch.now }
    ensures told { ForSome (F.values f.old) (λ v. OnOk result (AreAnswered
        (image_of (F.sizes f.old) v) batch.now (length batch.now.places.now) out.new)) }
    ensures part { ForSome (F.values f.old) (λ v. IfErr result (λ s. AreAnswered
        (image_of (F.sizes f.old) v) batch.now s.done out.new)) }
    ensures left { LeftBy F.leaves F.refuses f.old (batch_visits (F.sizes f.old) batch.now)
        f.new (whole result) }
    ensures rest { IfErr result (λ s. KeepsBehind batch.now s.done out.old out.new) }
{
    let channels = batch.options.channels() as usize;
    for i in 0..batch.places.len() {
        let place = &batch.places[i];
        if let Err(error) = place_from(f, &batch.options, place, i * channels, out) {
            return Err(Stopped {
                generation: 0,
                done: i,
                error,
            });
        }
    }
    Ok(())
}

/// Writes the values of one lookup, or of each lookup of a batch, to `out`.
#[inline]
pub(crate) fn lookups_for<F: Fetch>(
    f: &mut F,
    r: &Lookups<'_>,
    out: &mut [u16],
) -> Result<(), Stopped<F::Error>>
    requires count { length out.old ≡ values_in r.now }
    requires asked { AreInRange r.now }
    ensures told { ForSome (F.values f.old) (λ v.
        OnOk result (AreValuesOn (image_of (F.sizes f.old) v) r.now out.new)) }
    ensures part { ForSome (F.values f.old) (λ v.
        IfErr result (λ s. AreFirstOn (image_of (F.sizes f.old) v) r.now s.done out.new)) }
    ensures left { LeftBy F.leaves F.refuses f.old (all_visits (F.sizes f.old) r.now)
        f.new (whole result) }
    ensures rest { IfErr result (λ s. KeepsOthers r.now s.done out.old out.new) }
{
    match r {
        Lookups::One(r) => alone(lookup_for(f, r, out)),
        Lookups::Many(batch) => many_for(f, batch, out),
    }
}
