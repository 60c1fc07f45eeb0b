//! A lookup from the microcache alone. It does not wait, makes no call to a tap and allocates
//! nothing.
ghost use Rattle.std.specs.Prelude.{◌≡◌, ◌↔◌, ◌<◌, ◌≤◌, length, IsTrue, IsFalse};
ghost use Rattle.std.specs.Prelude.{IsSome, IsNone, IfSome, None};
ghost use Rattle.std.specs.Option.{ForSome};
ghost use Rattle.texel_filter.specs.Image.{IsChannelCount};
ghost use Rattle.texel_filter.specs.Calls.{EachAnswered};
ghost use Rattle.tile_source.specs.Pass.{IsPassOf};
ghost use Rattle.texture_sys.specs.Asked.{channels_in, IsInRange};
ghost use Rattle.texture_sys.specs.Asked.{one_point};
ghost use Rattle.texture_sys.specs.declared.lookup.Lookups.TheVariants.{One};
ghost use Rattle.tile_source.specs.Texel.{IsUnder};
ghost use Rattle.texture_sys.specs.Needs.{visits_on, HasCells, AsksForCells};
ghost use Rattle.texture_sys.specs.Fetches.{walk_of, ShowsTexel};
ghost use Rattle.texture_sys.specs.Call.{IsLookupOn};
ghost use Rattle.texture_sys.specs.Steps.{CountsShown};
ghost use Rattle.texture_sys.specs.Lookups.{LooksUpLocally, LeavesLocally};

use crate::asking::lookup_for;
use crate::kept::{KeptTexels, Lacking};
use crate::lookup::{FileLookup, Lookup};
use crate::lookup_request::LookupRequest;
use file_table::Picture;
use image_cache::{Cache, Pass};
use tex_world::Tap;
use texel_filter::TexRequest;
use tile_layout::TileKey;

/// Looks up the values without a tap. It answers, with the generation, if the kept
/// record is the newest known one and the microcache has every cell needed. Otherwise it returns
/// `None`; only what the pass has seen of the file may have changed.
pub fn local_at<T: Tap>(
    cache: &Cache<T>,
    pass: &mut Pass<T::W>,
    at: &FileLookup,
    out: &mut [u16],
) -> Option<u32>
    requires pass { IsPassOf cache.now pass.old }
    requires file { at.now.file < cache.now.files.board.files }
    requires count { length out.old ≡ channels_in at.now.lookup }
    requires asked { IsInRange at.now.lookup }
    ensures answers { LooksUpLocally T.W.files at.now.file cache.now.gate.cut (One at.now.lookup)
        pass.old pass.new out.old out.new result }
    ensures leaves { LeavesLocally T.W.files at.now.file cache.now.gate.cut (One at.now.lookup)
        pass.old pass.new result }
{
    let Some(known) = cache.local(pass, at.file) else {
        return None;
    };
    let generation = known.generation();
    let picture = Picture::of(&known);
    let looked = lookup_local(cache, pass, &picture, &at.lookup, out);
    cache.keep(pass, known);
    if looked { Some(generation) } else { None }
}

/// Looks up the values at a place without a tap. It answers, with the generation, if the kept
/// record is the newest known one and the microcache has every cell needed. Otherwise it returns
/// `None`; only what the pass has seen of the file may have changed.
pub fn texture_local<T: Tap>(
    cache: &Cache<T>,
    pass: &mut Pass<T::W>,
    file: u32,
    r: &TexRequest,
    out: &mut [u16],
) -> Option<u32>
    requires pass { IsPassOf cache.now pass.old }
    requires file { file < cache.now.files.board.files }
    requires count { length out.old ≡ r.now.nch }
    requires channels { IsChannelCount r.now.nch }
    ensures answers { LooksUpLocally T.W.files file cache.now.gate.cut (one_point r.now)
        pass.old pass.new out.old out.new result }
    ensures leaves { LeavesLocally T.W.files file cache.now.gate.cut (one_point r.now)
        pass.old pass.new result }
{
    let lookup = Lookup::Coarse(LookupRequest::Point(*r));
    local_at(cache, pass, &FileLookup { file, lookup }, out)
}

/// Looks up the values on one record, and counts the needs. False if the microcache lacks a cell.
fn lookup_local<T: Tap>(
    cache: &Cache<T>,
    pass: &mut Pass<T::W>,
    picture: &Picture<'_, T::W>,
    r: &Lookup,
    out: &mut [u16],
) -> bool
    requires pass { IsPassOf cache.now pass.old }
    requires few { length pass.old.pinned.recent ≤ 2 }
    requires under { IsUnder cache.now picture.now }
    requires count { length out.old ≡ channels_in r.now }
    requires asked { IsInRange r.now }
    ensures has { IsTrue result
        ↔ HasCells picture.now pass.old.pinned.recent (visits_on picture.now (One r.now)) }
    ensures value { IsTrue result →
        ForSome (T.W.files.held picture.now.file picture.now.generation) (λ bytes.
        IsLookupOn picture.now.cut bytes (One r.now) out.new) }
    ensures same { IsFalse result → (out.new ≡ out.old) × (pass.new ≡ pass.old) }
    // The state after the call.
    ensures asks { IsTrue result → AsksForCells T.W.files picture.now (visits_on picture.now (One r.now))
        pass.old pass.new }
    ensures kept { CountsShown pass.old pass.new }
{
    pass.know();
    let Some(shown) = show(cache, pass, picture, r, out) else {
        return false;
    };
    cache.count_shown(pass, shown.reads, shown.latest);
    true
}

/// What a lookup has read in the microcache: how many texels, and the key of the last one's cell.
#[derive(Drop)]
struct Shown {
    reads: u64,
    latest: Option<TileKey>,
}

/// Looks up the values on one record. Nothing is counted and no tile is moved; `None` if the
/// microcache lacks a cell.
fn show<T: Tap>(
    cache: &Cache<T>,
    pass: &Pass<T::W>,
    picture: &Picture<'_, T::W>,
    r: &Lookup,
    out: &mut [u16],
) -> Option<Shown>
    requires pass { IsPassOf cache.now pass.now }
    requires under { IsUnder cache.now picture.now }
    requires count { length out.old ≡ channels_in r.now }
    requires asked { IsInRange r.now }
    ensures has { IsSome result
        ↔ HasCells picture.now pass.now.pinned.recent (visits_on picture.now (One r.now)) }
    ensures value { IsSome result →
        ForSome (T.W.files.held picture.now.file picture.now.generation) (λ bytes.
        IsLookupOn picture.now.cut bytes (One r.now) out.new) }
    ensures each { IfSome result (λ shown. EachAnswered (ShowsTexel picture.now)
        (walk_of pass.now 0 None) (visits_on picture.now (One r.now))
        (walk_of pass.now shown.reads shown.latest)) }
    ensures none { IsNone result → out.new ≡ out.old }
{
    picture.know();
    let mut texels = KeptTexels {
        cache,
        pass,
        picture,
        reads: 0,
        latest: None,
    };
    match lookup_for(&mut texels, r, out) {
        Ok(()) => Some(Shown {
            reads: texels.reads,
            latest: texels.latest,
        }),
        Err(Lacking) => None,
    }
}
