//! The two public lookups through the cache: at a place, and along a pixel's footprint.
ghost use Rattle.std.specs.Prelude.{◌≡◌, ◌<◌, length};
ghost use Rattle.tex_world.specs.World.{IsFile};
ghost use Rattle.texel_filter.specs.Image.{IsChannelCount};
ghost use Rattle.texel_filter.specs.Deriv.{IsDerivRequest};
ghost use Rattle.tile_source.specs.Pass.{IsPassOf};
ghost use Rattle.texture_sys.specs.Asked.{one_point, one_footprint};
ghost use Rattle.image_cache.specs.Caller.{call, caller_state};
ghost use Rattle.texture_sys.specs.Lookups.{LooksUp, LeavesLookup};

use crate::lookup::{FileLookups, Lookup, Lookups};
use crate::lookup_request::LookupRequest;
use crate::stopped::Stopped;
use crate::texturing::texture_at;
use image_cache::{Cache, CacheError, Pass};
use tex_world::Tap;
use texel_filter::{DerivRequest, TexRequest};
use waiter::Waiter;

/// Looks up the values at a place in the newest known generation of a file, opens it if necessary
/// and returns that generation.
pub fn texture<V: Waiter, T: Tap>(
    cache: &Cache<T>,
    waiter: &V,
    pass: &mut Pass<T::W>,
    tap: &mut T,
    file: u32,
    r: &TexRequest,
    out: &mut [u16],
) -> Result<u32, CacheError<V::Busy>>
    requires pass { IsPassOf cache.now pass.old }
    requires file { file < cache.now.files.board.files }
    requires told { IsFile T.W.files file }
    requires count { length out.old ≡ r.now.nch }
    requires channels { IsChannelCount r.now.nch }
    ensures answers { LooksUp file (one_point r.now)
        (call T.W.files T.state (caller_state cache.now pass.old tap.old)
        (caller_state cache.now pass.new tap.new)) out.old out.new result }
    ensures leaves { LeavesLookup file (one_point r.now)
        (call T.W.files T.state (caller_state cache.now pass.old tap.old)
        (caller_state cache.now pass.new tap.new)) result }
{
    let lookups = Lookups::One(Lookup::Coarse(LookupRequest::Point(*r)));
    let at = FileLookups { file, lookups };
    texture_at(cache, waiter, pass, tap, &at, out).map_err(Stopped::into_error)
}

/// Looks up the mean over a pixel's footprint, which the derivatives give. Otherwise like
/// [texture].
pub fn texture_d<V: Waiter, T: Tap>(
    cache: &Cache<T>,
    waiter: &V,
    pass: &mut Pass<T::W>,
    tap: &mut T,
    file: u32,
    r: &DerivRequest,
    out: &mut [u16],
) -> Result<u32, CacheError<V::Busy>>
    requires pass { IsPassOf cache.now pass.old }
    requires file { file < cache.now.files.board.files }
    requires told { IsFile T.W.files file }
    requires count { length out.old ≡ r.now.nch }
    requires request { IsDerivRequest r.now }
    ensures answers { LooksUp file (one_footprint r.now)
        (call T.W.files T.state (caller_state cache.now pass.old tap.old)
        (caller_state cache.now pass.new tap.new)) out.old out.new result }
    ensures leaves { LeavesLookup file (one_footprint r.now)
        (call T.W.files T.state (caller_state cache.now pass.old tap.old)
        (caller_state cache.now pass.new tap.new)) result }
{
    let lookups = Lookups::One(Lookup::Coarse(LookupRequest::Footprint(*r)));
    let at = FileLookups { file, lookups };
    texture_at(cache, waiter, pass, tap, &at, out).map_err(Stopped::into_error)
}
