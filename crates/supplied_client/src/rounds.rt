//! One round of each call of the cache: it succeeds, or fails, possibly because bytes must be
//! supplied first.
ghost use Rattle.std.specs.Prelude.{◌≡◌, ◌<◌, length, OnErr};
ghost use Rattle.texel_filter.specs.Image.{IsChannelCount};
ghost use Rattle.texel_filter.specs.Deriv.{IsDerivRequest};
ghost use Rattle.tile_source.specs.Pass.{KeepsAllBut, view_and_record};
ghost use Rattle.image_cache.specs.Call.{KeepsRecent};
ghost use Rattle.texture_sys.specs.Asked.{one_point, one_footprint, values_in, AreInRange};
ghost use Rattle.texture_sys.specs.Lookups.{LooksUp, LooksUpAll};
ghost use Rattle.image_cache.specs.Reads.{GivesInfo, ReadsPixels};
ghost use Rattle.image_cache.specs.Holds.{HoldsTile};
ghost use Rattle.caller.specs.Invalid.{Invalidates, InvalidatesAll};
ghost use Rattle.supplied_client.specs.Client.{round, LeavesRound, LeavesCheck};

use crate::client::Client;
use image_cache::{CacheError, Pixels, Region, TexelAt};
use texel_filter::{DerivRequest, TexRequest};
use texture_sys::{FileLookups, Stopped};
use tiff_format::Info;
use waiter::GaveUp;

impl Client {
    /// The size, depth, channels and levels of a file.
    pub fn info(&mut self, file: u32) -> Result<Info, CacheError<GaveUp>>
        requires { file < self.old.cache.files.board.files }
        ensures answers { GivesInfo file (round self.old self.new) result }
        ensures same { KeepsAllBut view_and_record self.old.pass self.new.pass }
        ensures left { LeavesRound file self.old self.new }
    {
        self.begin();
        self.caller.info(file)
    }

    /// Looks up the values at a place.
    #[inline(always)]
    pub fn texture(
        &mut self,
        file: u32,
        r: &TexRequest,
        out: &mut [u16],
    ) -> Result<u32, CacheError<GaveUp>>
        requires file { file < self.old.cache.files.board.files }
        requires count { length out.old ≡ r.now.nch }
        requires channels { IsChannelCount r.now.nch }
        ensures answers { LooksUp file (one_point r.now) (round self.old self.new)
            out.old out.new result }
        ensures holds { self.new.pass.pinned.holds ≡ self.old.pass.pinned.holds }
        ensures left { LeavesRound file self.old self.new }
    {
        self.begin();
        self.caller.texture(file, r, out)
    }

    /// Looks up the mean over a pixel's footprint.
    pub fn texture_d(
        &mut self,
        file: u32,
        r: &DerivRequest,
        out: &mut [u16],
    ) -> Result<u32, CacheError<GaveUp>>
        requires file { file < self.old.cache.files.board.files }
        requires count { length out.old ≡ r.now.nch }
        requires request { IsDerivRequest r.now }
        ensures answers { LooksUp file (one_footprint r.now) (round self.old self.new)
            out.old out.new result }
        ensures holds { self.new.pass.pinned.holds ≡ self.old.pass.pinned.holds }
        ensures left { LeavesRound file self.old self.new }
    {
        self.begin();
        self.caller.texture_d(file, r, out)
    }

    /// Looks up the values of a batch.
    pub fn texture_many(
        &mut self,
        at: &FileLookups<'_>,
        out: &mut [u16],
    ) -> Result<u32, Stopped<CacheError<GaveUp>>>
        requires file { at.now.file < self.old.cache.files.board.files }
        requires count { length out.old ≡ values_in at.now.lookups }
        requires asked { AreInRange at.now.lookups }
        ensures answers { LooksUpAll at.now.file at.now.lookups (round self.old self.new)
            out.old out.new result }
        ensures holds { self.new.pass.pinned.holds ≡ self.old.pass.pinned.holds }
        ensures left { LeavesRound at.now.file self.old self.new }
    {
        self.begin();
        self.caller.lookup(at, out)
    }

    /// Appends the values of a region.
    pub fn pixels(
        &mut self,
        file: u32,
        region: &Region,
        values: &mut Vec<u16>,
    ) -> Result<Pixels, CacheError<GaveUp>>
        requires { file < self.old.cache.files.board.files }
        ensures answers { ReadsPixels file region.now (round self.old self.new)
            values.old.items values.new.items result }
        ensures holds { self.new.pass.pinned.holds ≡ self.old.pass.pinned.holds }
        ensures left { LeavesRound file self.old self.new }
    {
        self.begin();
        self.caller.pixels(file, region, values)
    }

    /// Pins the tile that holds a texel, as the latest hold of the pass.
    pub fn get_tile(&mut self, file: u32, at: TexelAt) -> Result<u32, CacheError<GaveUp>>
        requires { file < self.old.cache.files.board.files }
        ensures answers { HoldsTile file at (round self.old self.new) result }
        ensures err { OnErr result (self.new.pass.pinned.holds ≡ self.old.pass.pinned.holds) }
        ensures recent { KeepsRecent self.old.pass self.new.pass }
        ensures left { LeavesRound file self.old self.new }
    {
        self.begin();
        self.caller.hold(file, at)
    }

    /// Checks one file for a newer generation; with `force` its cached tiles go in any case.
    pub fn invalidate(&mut self, file: u32, force: bool) -> Result<u32, CacheError<GaveUp>>
        requires { file < self.old.cache.files.board.files }
        ensures answers { Invalidates file force (round self.old self.new) result }
        ensures left { LeavesCheck self.old self.new }
    {
        self.begin();
        self.caller.invalidate(file, force)
    }

    /// Checks every known file for a newer generation.
    pub fn invalidate_all(&mut self) -> Result<(), CacheError<GaveUp>>
        ensures answers { InvalidatesAll (round self.old self.new) result }
        ensures left { LeavesCheck self.old self.new }
    {
        self.begin();
        self.caller.invalidate_all()
    }
}
