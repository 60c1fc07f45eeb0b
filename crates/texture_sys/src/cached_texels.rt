//! The state of a lookup on one picture: the cache, the waiter, the pass, the tap and the picture.
ghost use Rattle.tile_source.specs.Pass.{IsPassOf};
ghost use Rattle.tile_source.specs.Texel.{IsUnder};

use file_table::Picture;
use image_cache::{Cache, Pass};
use tex_world::Tap;
use waiter::Waiter;

/// The texels of one picture, fetched through the cache for one caller.
#[derive(Drop)]
pub(crate) struct CachedTexels<'a, V: Waiter, T: Tap> {
    pub(crate) cache: &'a Cache<T>,
    pub(crate) waiter: &'a V,
    pub(crate) pass: &'a mut Pass<T::W>,
    pub(crate) tap: &'a mut T,
    pub(crate) picture: &'a Picture<'a, T::W>,
    ghost pass_of: { IsPassOf cache.now pass.now },
    ghost under: { IsUnder cache.now picture.now },
}
