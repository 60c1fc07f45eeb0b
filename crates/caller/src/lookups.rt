//! Lookups of a caller.
ghost use Rattle.std.specs.Prelude.{◌≡◌, ◌<◌, length};
ghost use Rattle.tex_world.specs.World.{IsFile};
ghost use Rattle.texel_filter.specs.Image.{IsChannelCount};
ghost use Rattle.texel_filter.specs.Deriv.{IsDerivRequest};
ghost use Rattle.texture_sys.specs.Asked.{values_in, AreInRange, channels_in, IsInRange, whole};
ghost use Rattle.texture_sys.specs.Asked.{one_point, one_footprint};
ghost use Rattle.texture_sys.specs.declared.lookup.Lookups.TheVariants.{One};
ghost use Rattle.image_cache.specs.Caller.{call};
ghost use Rattle.caller.specs.Caller.{KeepsAllButPass};
ghost use Rattle.texture_sys.specs.Lookups.{LooksUp, LooksUpAll, LeavesLookup};
ghost use Rattle.texture_sys.specs.Lookups.{LooksUpLocally, LeavesLocally};

use crate::caller::Caller;
use image_cache::CacheError;
use tex_world::Tap;
use texel_filter::{DerivRequest, TexRequest};
use texture_sys::{
    FileLookup, FileLookups, Stopped, local_at, texture, texture_at, texture_d, texture_local,
};
use waiter::Waiter;

impl<V: Waiter, T: Tap> Caller<V, T> {
    /// Looks up the values at a place in the newest known generation of a file, opens it if
    /// necessary and returns that generation.
    #[inline]
    pub fn texture(
        &mut self,
        file: u32,
        r: &TexRequest,
        out: &mut [u16],
    ) -> Result<u32, CacheError<V::Busy>>
        requires file { file < self.old.cache.files.board.files }
        requires told { IsFile T.W.files file }
        requires count { length out.old ≡ r.now.nch }
        requires channels { IsChannelCount r.now.nch }
        ensures answers { LooksUp file (one_point r.now)
            (call T.W.files T.state self.old self.new) out.old out.new result }
        ensures leaves { LeavesLookup file (one_point r.now)
            (call T.W.files T.state self.old self.new) result }
    {
        texture(
            &self.cache,
            &self.waiter,
            &mut self.pass,
            &mut self.tap,
            file,
            r,
            out,
        )
    }

    /// Looks up the mean over a pixel's footprint, in the same way.
    #[inline]
    pub fn texture_d(
        &mut self,
        file: u32,
        r: &DerivRequest,
        out: &mut [u16],
    ) -> Result<u32, CacheError<V::Busy>>
        requires file { file < self.old.cache.files.board.files }
        requires told { IsFile T.W.files file }
        requires count { length out.old ≡ r.now.nch }
        requires request { IsDerivRequest r.now }
        ensures answers { LooksUp file (one_footprint r.now)
            (call T.W.files T.state self.old self.new) out.old out.new result }
        ensures leaves { LeavesLookup file (one_footprint r.now)
            (call T.W.files T.state self.old self.new) result }
    {
        texture_d(
            &self.cache,
            &self.waiter,
            &mut self.pass,
            &mut self.tap,
            file,
            r,
            out,
        )
    }

    /// Answers one lookup of any form, or a batch.
    #[inline]
    pub fn lookup(
        &mut self,
        at: &FileLookups<'_>,
        out: &mut [u16],
    ) -> Result<u32, Stopped<CacheError<V::Busy>>>
        requires file { at.now.file < self.old.cache.files.board.files }
        requires told { IsFile T.W.files at.now.file }
        requires count { length out.old ≡ values_in at.now.lookups }
        requires asked { AreInRange at.now.lookups }
        ensures answers { LooksUpAll at.now.file at.now.lookups
            (call T.W.files T.state self.old self.new) out.old out.new result }
        ensures leaves { LeavesLookup at.now.file at.now.lookups
            (call T.W.files T.state self.old self.new) (whole result) }
    {
        texture_at(
            &self.cache,
            &self.waiter,
            &mut self.pass,
            &mut self.tap,
            at,
            out,
        )
    }

    /// Looks up the values at a place from the microcache alone. It does not wait and makes no call
    /// to the tap. `None` if the kept record is not the newest known one, or a cell is missing.
    #[inline]
    pub fn texture_local(&mut self, file: u32, r: &TexRequest, out: &mut [u16]) -> Option<u32>
        requires file { file < self.old.cache.files.board.files }
        requires count { length out.old ≡ r.now.nch }
        requires channels { IsChannelCount r.now.nch }
        ensures answers { LooksUpLocally T.W.files file self.old.cache.gate.cut (one_point r.now)
            self.old.pass self.new.pass out.old out.new result }
        ensures leaves { LeavesLocally T.W.files file self.old.cache.gate.cut (one_point r.now)
            self.old.pass self.new.pass result }
        ensures same { KeepsAllButPass self.old self.new }
    {
        texture_local(&self.cache, &mut self.pass, file, r, out)
    }

    /// Answers one lookup of any form from the microcache alone.
    #[inline]
    pub fn lookup_local(&mut self, at: &FileLookup, out: &mut [u16]) -> Option<u32>
        requires file { at.now.file < self.old.cache.files.board.files }
        requires count { length out.old ≡ channels_in at.now.lookup }
        requires asked { IsInRange at.now.lookup }
        ensures answers { LooksUpLocally T.W.files at.now.file self.old.cache.gate.cut
            (One at.now.lookup) self.old.pass self.new.pass out.old out.new result }
        ensures leaves { LeavesLocally T.W.files at.now.file self.old.cache.gate.cut
            (One at.now.lookup) self.old.pass self.new.pass result }
        ensures same { KeepsAllButPass self.old self.new }
    {
        local_at(&self.cache, &mut self.pass, at, out)
    }
}
