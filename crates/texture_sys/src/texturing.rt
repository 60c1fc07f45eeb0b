//! A lookup that opens the file and reads cells if necessary.
ghost use Rattle.std.specs.Prelude.{◌≡◌, ◌⊎◌, ◌<◌, ◌≤◌, Ok, length, slice_index, IsOkAnd};
ghost use Rattle.std.specs.Prelude.{IfOk, IfErr, IfSome, OnErr};
ghost use Rattle.tex_world.specs.World.{IsFile};
ghost use Rattle.file_table.specs.Calls.{sighted, GivesRecord, OpensIfAtAll};
ghost use Rattle.tile_source.specs.Pass.{IsPassOf};
ghost use Rattle.tile_source.specs.Call.{AfterNeed, NoneFalls};
ghost use Rattle.image_cache.specs.Cause.{OpeningCause};
ghost use Rattle.tile_source.specs.Texel.{IsUnder};
ghost use Rattle.texture_sys.specs.Asked.{values_in, AreInRange, whole};
ghost use Rattle.texture_sys.specs.Call.{IsReady};
ghost use Rattle.texture_sys.specs.Steps.{AfterOpening, AfterLookupOn, LooksUpOn};
ghost use Rattle.tile_source.specs.Source.{pass_tap};
ghost use Rattle.image_cache.specs.Caller.{call, caller_state};
ghost use Rattle.texture_sys.specs.Lookups.{LooksUpAll, LeavesLookup};

use crate::asking::lookups_for;
use crate::cached_texels::CachedTexels;
use crate::lookup::{FileLookups, Lookups};
use crate::stopped::Stopped;
use file_table::Record;
use image_cache::{Cache, CacheError, Pass, picture_of};
use std::sync::Arc;
use tex_world::{Tap, World};
use waiter::Waiter;

/// Looks up the values in the newest known generation of a file, opens it if necessary and returns
/// that generation.
pub fn texture_at<V: Waiter, T: Tap>(
    cache: &Cache<T>,
    waiter: &V,
    pass: &mut Pass<T::W>,
    tap: &mut T,
    at: &FileLookups<'_>,
    out: &mut [u16],
) -> Result<u32, Stopped<CacheError<V::Busy>>>
    requires pass { IsPassOf cache.now pass.old }
    requires file { at.now.file < cache.now.files.board.files }
    requires told { IsFile T.W.files at.now.file }
    requires count { length out.old ≡ values_in at.now.lookups }
    requires asked { AreInRange at.now.lookups }
    ensures answers { LooksUpAll at.now.file at.now.lookups
        (call T.W.files T.state (caller_state cache.now pass.old tap.old)
        (caller_state cache.now pass.new tap.new)) out.old out.new result }
    ensures leaves { LeavesLookup at.now.file at.now.lookups
        (call T.W.files T.state (caller_state cache.now pass.old tap.old)
        (caller_state cache.now pass.new tap.new)) (whole result) }
{
    let known = record_of(cache, waiter, pass, tap, at.file)?;
    let on = OnRecord {
        known,
        lookups: &at.lookups,
    };
    lookup_at(cache, waiter, pass, tap, on, out)
}

/// Takes the record of the newest known generation out of the pass, or opens the file if the pass
/// does not have it.
fn record_of<V: Waiter, T: Tap>(
    cache: &Cache<T>,
    waiter: &V,
    pass: &mut Pass<T::W>,
    tap: &mut T,
    file: u32,
) -> Result<Arc<Record<T::W>>, CacheError<V::Busy>>
    requires pass { IsPassOf cache.now pass.old }
    requires file { file < cache.now.files.board.files }
    requires told { IsFile T.W.files file }
    ensures ok { IfOk result (λ k. GivesRecord T.W.files file cache.now.gate.cut
        pass.old.view pass.new.view k.value) }
    ensures cause { IfErr result (OpeningCause T.W.files file
        (sighted pass.old.view (T.state tap.old)) (sighted pass.new.view (T.state tap.new))) }
    // The state after the call.
    ensures err { OnErr result (pass.new.latest ≡ pass.old.latest) }
    ensures once { OpensIfAtAll (T.state tap.old) (T.state tap.new) }
    ensures same { AfterOpening file pass.old pass.new }
    ensures tap { NoneFalls (T.state tap.old) (T.state tap.new) }
    ensures ready { IfSome pass.old.latest (λ known. IsReady file pass.old known
        → (IsOkAnd result (λ k. k.value ≡ known) × (T.state tap.new ≡ T.state tap.old))
        ⊎ (known.generation < slice_index pass.new.view.seen file)) }
{
    match cache.local(pass, file) {
        Some(known) => {
            known.know();
            Ok(known)
        }
        None => cache.open(waiter, pass, tap, file),
    }
}

/// Lookups on the record of a file.
#[derive(Drop)]
struct OnRecord<'a, W: World> {
    known: Arc<Record<W>>,
    lookups: &'a Lookups<'a>,
}

/// Looks up the values on one record. The pass keeps the record, even if the lookup fails.
fn lookup_at<V: Waiter, T: Tap>(
    cache: &Cache<T>,
    waiter: &V,
    pass: &mut Pass<T::W>,
    tap: &mut T,
    on: OnRecord<'_, T::W>,
    out: &mut [u16],
) -> Result<u32, Stopped<CacheError<V::Busy>>>
    requires pass { IsPassOf cache.now pass.old }
    requires under { IsUnder cache.now on.known.value }
    requires seen { on.known.value.generation
        ≤ slice_index pass.old.view.seen on.known.value.file }
    requires count { length out.old ≡ values_in on.lookups.now }
    requires asked { AreInRange on.lookups.now }
    ensures ok { IfOk (whole result) (λ generation. generation ≡ on.entry.known.value.generation) }
    ensures of { IfErr result (λ s. s.generation ≡ on.entry.known.value.generation) }
    ensures same { AfterLookupOn on.entry.known.value pass.old pass.new }
    ensures left { LooksUpOn T.W.files cache.now.gate on.entry.known.value on.entry.lookups.now
        on.entry.known.value.generation (pass_tap pass.old (T.state tap.old))
        (pass_tap pass.new (T.state tap.new)) out.old out.new result }
{
    let generation = on.known.generation();
    let looked = look_up(cache, waiter, pass, tap, &on, out);
    cache.keep(pass, on.known);
    match looked {
        Ok(()) => Ok(generation),
        Err(stopped) => Err(Stopped {
            generation,
            ..stopped
        }),
    }
}

/// Looks up the values on one record, whose texels are fetched through the cache.
fn look_up<V: Waiter, T: Tap>(
    cache: &Cache<T>,
    waiter: &V,
    pass: &mut Pass<T::W>,
    tap: &mut T,
    on: &OnRecord<'_, T::W>,
    out: &mut [u16],
) -> Result<(), Stopped<CacheError<V::Busy>>>
    requires pass { IsPassOf cache.now pass.old }
    requires under { IsUnder cache.now on.now.known.value }
    requires count { length out.old ≡ values_in on.now.lookups.now }
    requires asked { AreInRange on.now.lookups.now }
    ensures same { AfterNeed on.now.known.value.file pass.old pass.new }
    ensures left { LooksUpOn T.W.files cache.now.gate on.now.known.value on.now.lookups.now tt
        (pass_tap pass.old (T.state tap.old)) (pass_tap pass.new (T.state tap.new))
        out.old out.new result }
{
    // needed by the proof: the microcache has at most two tiles, and the counts fit 64 bits
    pass.know();
    let picture = picture_of(&on.known)?;
    picture.know();
    let mut texels = CachedTexels {
        cache,
        waiter,
        pass,
        tap,
        picture: &picture,
    };
    lookups_for(&mut texels, on.lookups, out)
}
