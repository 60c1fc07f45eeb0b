//! How a caller is split, how one ends, and how what one has seen is carried to another.
ghost use Rattle.std.specs.Prelude.{◌≡◌, IfOk, IfErr, OnOk, OnErr};
ghost use Rattle.std.specs.Arc.{arc_value};
ghost use Rattle.tile_source.specs.Pass.{IsPassOf};
ghost use Rattle.image_cache.specs.Pass.{IsSecondPass, PassAfterSplit};
ghost use Rattle.tile_source.specs.Pass.{KeepsAllBut, nothing};
ghost use Rattle.caller.specs.Caller.{KeepsAllButPass};
ghost use Rattle.caller.specs.Passes.{CarriesOn, Joins, JoinsNone, IsSplitOff};

use crate::caller::{Caller, again};
use image_cache::{Cache, Pass, SplitError};
use std::sync::Arc;
use tex_world::{NoMemory, Tap};
use waiter::Waiter;

/// The waiter gave up before all tiles of the other caller were unpinned. It comes back with the
/// tiles that it still has.
#[derive(Drop)]
pub struct NotJoined<V: Waiter, T: Tap> {
    pub other: Caller<V, T>,
    pub busy: V::Busy,
}

impl<V: Waiter, T: Tap> Caller<V, T> {
    /// Makes a second caller of the same cache for another thread. It takes one permit of this one
    /// and starts with what this one has seen.
    pub fn split(&mut self, waiter: V, tap: T) -> Result<Caller<V, T>, SplitError>
    where
        V: Drop,
        T: Drop,
        ensures ok { IfOk result (IsSplitOff tap self.old) }
        ensures kept { OnOk result (PassAfterSplit self.old.pass self.new.pass) }
        ensures cause { IfErr result (λ e. e ≡ SplitError.NoPermit
            → self.old.pass.pinned.seat.permits ≡ 1) }
        ensures err { OnErr result (KeepsAllBut nothing self.old.pass self.new.pass) }
        ensures rest { KeepsAllButPass self.old self.new }
    {
        let (cache, pass) = self.split_pass()?;
        Ok(Caller::of(cache, pass, waiter, tap))
    }

    /// The cache and a second pass of it, for a caller whose tap is made later.
    pub fn split_pass(&mut self) -> Result<(Arc<Cache<T>>, Pass<T::W>), SplitError>
        ensures cache { IfOk result (λ made. arc_value made.0 ≡ self.old.cache) }
        ensures ok { IfOk result (λ made. IsSecondPass self.old.pass made.1) }
        ensures of { IfOk result (λ made. IsPassOf self.old.cache made.1) }
        ensures kept { OnOk result (PassAfterSplit self.old.pass self.new.pass) }
        ensures cause { IfErr result (λ e. e ≡ SplitError.NoPermit
            → self.old.pass.pinned.seat.permits ≡ 1) }
        ensures err { OnErr result (KeepsAllBut nothing self.old.pass self.new.pass) }
        ensures rest { KeepsAllButPass self.old self.new }
    {
        let cache = again(&self.cache)?;
        let pass = self.cache.split(&mut self.pass)?;
        Ok((cache, pass))
    }

    /// Hands on what this caller has seen: the other one has then seen the newer generation of each
    /// file. Never waits.
    pub fn carry(&mut self, to: &mut Caller<V, T>) -> Result<(), NoMemory>
        requires { to.old.cache ≡ self.old.cache }
        ensures carried { CarriesOn self.old.pass self.new.pass to.old.pass to.new.pass result }
        ensures from { KeepsAllButPass self.old self.new }
        ensures to { KeepsAllButPass to.old to.new }
    {
        self.cache.carry(&mut self.pass, &mut to.pass)
    }

    /// Ends the other caller: its tiles are unpinned, and this one gets its permits, its counts and
    /// what it has seen. Its tap comes back. Allocates nothing.
    pub fn join(&mut self, other: Caller<V, T>) -> Result<T, NotJoined<V, T>>
    where
        V: Drop,
        requires { other.cache ≡ self.old.cache }
        ensures ok { IfOk result (Joins other self.old self.new) }
        ensures err { IfErr result (λ e. JoinsNone other e.other self.old self.new) }
        ensures rest { KeepsAllButPass self.old self.new }
    {
        let Caller {
            cache,
            waiter,
            pass,
            tap,
        } = other;
        match self.cache.join(&self.waiter, &mut self.pass, pass) {
            Ok(()) => Ok(tap),
            Err(e) => Err(NotJoined {
                other: Caller::of(cache, e.other, waiter, tap),
                busy: e.busy,
            }),
        }
    }
}
