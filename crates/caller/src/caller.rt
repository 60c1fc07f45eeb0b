//! The type `Caller`: how one is made and taken apart.
ghost use Rattle.std.specs.Prelude.{◌≡◌, ◌≤◌, IfOk, IfErr};
ghost use Rattle.std.specs.Arc.{arc_value};
ghost use Rattle.tex_world.specs.World.{max_files};
ghost use Rattle.image_cache.specs.Options.{NewCause, LargeCause, opened_as};
ghost use Rattle.tile_source.specs.Pass.{IsPassOf};
ghost use Rattle.image_cache.specs.Pass.{IsNewCache, IsFirstPass};

use image_cache::{Cache, LargeOptions, NewError, Options, Pass};
use std::alloc::Global;
use std::marker::Model;
use std::sync::Arc;
use tex_world::{NoMemory, Tap};
use waiter::Waiter;

/// One caller of a cache: the shared cache, how to wait for its locks, the caller's pass, and the
/// tap through which it reads files. It may move to another thread. Clauses see cache, pass and
/// tap.
///
/// A caller whose tap has to go back to its folder is taken apart by `into_tap`.
#[derive(Drop)]
pub struct Caller<V: Waiter, T: Tap> {
    pub(crate) cache: Arc<Cache<T>>,
    pub(crate) waiter: V,
    pub(crate) pass: Pass<T::W>,
    /// Its tap. Code that owns a caller may call the tap between two calls of the cache.
    pub tap: T,
}

impl<V: Waiter, T: Tap> Model for Caller<V, T> {
    ghost use Rattle.std.specs.Arc.{arc_value};
    ghost use Rattle.tile_source.specs.Pass.{IsPassOf};
    ghost use Rattle.image_cache.specs.Caller.{CallerState, caller_state};

    ghost Value = { CallerState T };

    ghost view = { λ c. caller_state (arc_value c.cache) c.pass c.tap };

    ghost invariant = { λ c. IsPassOf (arc_value c.cache) c.pass };
}

impl<V: Waiter, T: Tap> Caller<V, T> {
    /// Makes a cache for `files` files, and its first caller, which has all permits.
    pub fn new(
        alloc: Global,
        options: Options,
        files: u32,
        waiter: V,
        tap: T,
    ) -> Result<Caller<V, T>, NewError>
    where
        V: Drop,
        T: Drop,
        requires files { files ≤ max_files }
        ensures cache { IfOk result (λ c. IsNewCache options files c.cache) }
        ensures pass { IfOk result (λ c. IsFirstPass c.cache c.pass) }
        ensures tap { IfOk result (λ c. c.tap ≡ tap) }
        ensures cause { IfErr result (NewCause options) }
    {
        let (cache, pass) = Cache::new(alloc, options, files)?;
        let cache = shared(alloc, cache)?;
        Ok(Caller::of(cache, pass, waiter, tap))
    }

    /// Makes a cache like `new`, for up to 1024 passes and with larger shards.
    pub fn new_large(
        alloc: Global,
        large: LargeOptions,
        files: u32,
        waiter: V,
        tap: T,
    ) -> Result<Caller<V, T>, NewError>
    where
        V: Drop,
        T: Drop,
        requires files { files ≤ max_files }
        ensures cache { IfOk result (λ c. IsNewCache (opened_as large) files c.cache) }
        ensures pass { IfOk result (λ c. IsFirstPass c.cache c.pass) }
        ensures tap { IfOk result (λ c. c.tap ≡ tap) }
        ensures cause { IfErr result (LargeCause large) }
    {
        let (cache, pass) = Cache::new_large(alloc, large, files)?;
        let cache = shared(alloc, cache)?;
        Ok(Caller::of(cache, pass, waiter, tap))
    }

    /// Makes a caller of a cache and a pass of it.
    pub fn of(cache: Arc<Cache<T>>, pass: Pass<T::W>, waiter: V, tap: T) -> Caller<V, T>
        requires { IsPassOf (arc_value cache) pass }
        ensures cache { result.cache ≡ arc_value cache }
        ensures pass { result.pass ≡ pass }
        ensures tap { result.tap ≡ tap }
    {
        Caller {
            cache,
            waiter,
            pass,
            tap,
        }
    }

    /// The cache.
    pub fn cache(&self) -> &Cache<T>
        ensures { result.now ≡ self.now.cache }
    {
        &self.cache
    }

    /// The pass: what it has seen, counted and holds.
    pub fn pass(&self) -> &Pass<T::W>
        ensures value { result.now ≡ self.now.pass }
        ensures of { IsPassOf self.now.cache self.now.pass }
    {
        &self.pass
    }

    /// Ends the caller and gives its tap back. Its tiles are not unpinned: `join` does that.
    pub fn into_tap(self) -> T
    where
        V: Drop,
        ensures { result ≡ self.tap }
    {
        let Caller {
            cache: _,
            waiter: _,
            pass: _,
            tap,
        } = self;
        tap
    }
}

/// Puts a cache into an `Arc`, so that several callers can share it.
fn shared<T: Tap>(alloc: Global, cache: Cache<T>) -> Result<Arc<Cache<T>>, NoMemory>
    ensures { IfOk result (λ c. arc_value c ≡ cache) }
{
    Arc::new(alloc, cache).map_err(|_| NoMemory)
}

/// A second reference to a shared cache.
pub fn again<T: Tap>(cache: &Arc<Cache<T>>) -> Result<Arc<Cache<T>>, NoMemory>
    ensures { IfOk result (λ c. arc_value c ≡ arc_value cache.now) }
{
    Arc::try_clone(cache).map_err(|_| NoMemory)
}
