//! The state of a call on one record: what the cache's passes share, the waiter, the pass, the tap
//! and the picture.
ghost use Rattle.tile_source.specs.Pass.{IsPassOf};
ghost use Rattle.tile_source.specs.Texel.{IsUnder};

use crate::pass::Pass;
use crate::store::Store;
use file_table::Picture;
use tex_world::Tap;
use waiter::Waiter;

/// Where a call on one record gets its tiles and texels from: its own pass, the shards, and the file
/// through its tap.
#[derive(Drop)]
pub struct TileSource<'a, V: Waiter, T: Tap> {
    pub store: &'a Store<T>,
    pub waiter: &'a V,
    pub pass: &'a mut Pass<T::W>,
    pub tap: &'a mut T,
    pub picture: &'a Picture<'a, T::W>,
    ghost pass_of: { IsPassOf store.now pass.now },
    ghost under: { IsUnder store.now picture.now },
}
