//! Calls of a caller on whole files: what a file is, a region of it, and freshness checks.
ghost use Rattle.std.specs.Prelude.{ℕ, ◌<◌};
ghost use Rattle.tex_world.specs.World.{IsFile};
ghost use Rattle.image_cache.specs.Caller.{call};
ghost use Rattle.image_cache.specs.Reads.{GivesInfo, LeavesOpening, ReadsPixels, LeavesPixels};
ghost use Rattle.caller.specs.Invalid.{Invalidates, InvalidatesAll, LeavesCheck};

use crate::caller::Caller;
use image_cache::{CacheError, Pixels, Region};
use tex_world::Tap;
use tiff_format::Info;
use waiter::Waiter;

impl<V: Waiter, T: Tap> Caller<V, T> {
    /// The width and height of level 0, the samples and their bits, and the number of levels:
    /// stored, and together with generated ones.
    pub fn info(&mut self, file: u32) -> Result<Info, CacheError<V::Busy>>
        requires file { file < self.old.cache.files.board.files }
        requires told { IsFile T.W.files file }
        ensures answers { GivesInfo file (call T.W.files T.state self.old self.new) result }
        ensures leaves { LeavesOpening file (call T.W.files T.state self.old self.new) }
    {
        self.cache
            .info(&self.waiter, &mut self.pass, &mut self.tap, file)
    }

    /// Appends the 16-bit values of a region of a level, row by row, all channels of a texel
    /// together. Texels outside the level are 0.
    pub fn pixels(
        &mut self,
        file: u32,
        region: &Region,
        out: &mut Vec<u16>,
    ) -> Result<Pixels, CacheError<V::Busy>>
        requires file { file < self.old.cache.files.board.files }
        requires told { IsFile T.W.files file }
        ensures answers { ReadsPixels file region.now
            (call T.W.files T.state self.old self.new) out.old.items out.new.items result }
        ensures leaves { LeavesPixels file (call T.W.files T.state self.old self.new) result }
    {
        let (pass, tap) = (&mut self.pass, &mut self.tap);
        self.cache
            .get_pixels(&self.waiter, pass, tap, file, region, out)
    }

    /// Drops what is kept of a file beside its tiles: its record, its read-ahead and its idle
    /// handle. The next call that opens the file reads its directories again.
    ///
    /// If the waiter gives up, some of it may stay.
    pub fn drop_record(&self, file: u32) -> Result<(), V::Busy>
        requires { file < self.now.cache.files.board.files }
    {
        self.cache.drop_record(&self.waiter, file)
    }

    /// Asks the tap for the newest generation of a file, and drops what is kept of older ones; with
    /// `force` everything that is kept of the file.
    pub fn invalidate(&mut self, file: u32, force: bool) -> Result<u32, CacheError<V::Busy>>
        requires file { file < self.old.cache.files.board.files }
        requires told { IsFile T.W.files file }
        ensures answers { Invalidates file force (call T.W.files T.state self.old self.new)
            result }
        ensures leaves { LeavesCheck V.Busy (call T.W.files T.state self.old self.new) }
    {
        self.cache
            .invalidate(&self.waiter, &mut self.pass, &mut self.tap, file, force)
    }

    /// Calls `invalidate`, without force, for each known file in the order of their numbers. It
    /// stops at the first I/O error.
    pub fn invalidate_all(&mut self) -> Result<(), CacheError<V::Busy>>
        requires { (file : ℕ) → file < self.old.cache.files.board.files → IsFile T.W.files file }
        ensures answers { InvalidatesAll (call T.W.files T.state self.old self.new) result }
        ensures leaves { LeavesCheck V.Busy (call T.W.files T.state self.old self.new) }
    {
        self.cache
            .invalidate_all(&self.waiter, &mut self.pass, &mut self.tap)
    }
}
