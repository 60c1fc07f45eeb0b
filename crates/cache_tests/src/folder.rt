//! Makes caches and their passes.
ghost use Rattle.std.specs.Prelude.{◌≡◌, ◌≤◌, length, IfOk};
ghost use Rattle.tex_world.specs.World.{max_files};
ghost use Rattle.tile_source.specs.Pass.{IsPassOf};

use image_cache::{Cache, Options, Pass};
use std::alloc::Global;
use std::test::Fail;
use tex_world::Tap;

/// Makes a cache with this number of files, and its first pass.
pub(crate) fn cache_of<T: Tap>(
    alloc: Global,
    options: Options,
    files: u32,
) -> Result<(Cache<T>, Pass<T::W>), Fail>
    requires files { files ≤ max_files }
    ensures files { IfOk result (λ made. made.0.files.board.files ≡ files) }
    ensures shards { IfOk result (λ made. length made.0.gate.id ≡ options.shards) }
    ensures pass { IfOk result (λ made. IsPassOf made.0 made.1) }
{
    match Cache::new(alloc, options, files) {
        Ok(made) => Ok(made),
        Err(_refused) => Err("no cache".into()),
    }
}

/// Splits off a second pass of a cache.
pub(crate) fn second_of<T: Tap>(cache: &Cache<T>, pass: &mut Pass<T::W>) -> Result<Pass<T::W>, Fail>
    requires { IsPassOf cache.now pass.old }
    ensures pass { IsPassOf cache.now pass.new }
    ensures second { IfOk result (IsPassOf cache.now) }
{
    match cache.split(pass) {
        Ok(second) => Ok(second),
        Err(_refused) => Err("not split".into()),
    }
}
