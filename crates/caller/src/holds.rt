//! The tiles that a caller holds, and the counts of the cache's shards.
ghost use Rattle.std.specs.Prelude.{◌≡◌, ◌<◌, length};
ghost use Rattle.tex_world.specs.World.{IsFile};
ghost use Rattle.image_cache.specs.Caller.{call};
ghost use Rattle.image_cache.specs.Holds.{HoldsTile, LeavesHold, ReleasesHold, ReleasesHand};
ghost use Rattle.image_cache.specs.Holds.{CountsShard};

use crate::caller::Caller;
use image_cache::{CacheError, NotReleased, TexelAt};
use tex_world::Tap;
use tiff_format::ShardCount;
use waiter::Waiter;

impl<V: Waiter, T: Tap> Caller<V, T> {
    /// Pins the tile of the cell that holds a texel, as the latest hold. Returns the generation.
    pub fn hold(&mut self, file: u32, at: TexelAt) -> Result<u32, CacheError<V::Busy>>
        requires file { file < self.old.cache.files.board.files }
        requires told { IsFile T.W.files file }
        ensures answers { HoldsTile file at (call T.W.files T.state self.old self.new) result }
        ensures leaves { LeavesHold file (call T.W.files T.state self.old self.new) result }
    {
        self.cache
            .get_tile(&self.waiter, &mut self.pass, &mut self.tap, file, at)
    }

    /// Releases the hold at a place; later holds move up by one. Allocates nothing.
    pub fn release(&mut self, place: usize) -> Result<(), NotReleased<V::Busy>>
        ensures released { ReleasesHold place (call T.W.files T.state self.old self.new) result }
        ensures tap { self.new.tap ≡ self.old.tap }
    {
        self.cache.release_tile(&self.waiter, &mut self.pass, place)
    }

    /// Gives back the pin that stayed in hand when a waiter gave up. Allocates nothing.
    pub fn release_hand(&mut self) -> Result<(), V::Busy>
        ensures released { ReleasesHand (call T.W.files T.state self.old self.new) result }
        ensures tap { self.new.tap ≡ self.old.tap }
    {
        self.cache.release_hand(&self.waiter, &mut self.pass)
    }

    /// Counts the tiles and the pins of one shard. Allocates nothing.
    pub fn count(&mut self, shard: u32) -> Result<ShardCount, V::Busy>
        requires { shard < length self.old.cache.gate.id }
        ensures counted { CountsShard shard (call T.W.files T.state self.old self.new) result }
        ensures tap { self.new.tap ≡ self.old.tap }
    {
        self.cache.count(&self.waiter, &mut self.pass, shard)
    }
}
