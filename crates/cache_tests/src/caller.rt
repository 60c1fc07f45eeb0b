//! One caller of a cache.
use image_cache::Pass;
use tex_world::Tap;

/// One caller of a cache: its pass and its tap.
#[derive(Drop)]
pub(crate) struct Caller<T: Tap> {
    pub(crate) pass: Pass<T::W>,
    pub(crate) tap: T,
}
