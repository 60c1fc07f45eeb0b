//! Idle handles together with the read-ahead of their files.
ghost use Rattle.std.specs.Prelude.{◌≡◌, ◌<◌, IfOk};

use crate::aheads::Aheads;
use crate::idle::IdleHandles;
use std::alloc::Global;
use tag_lock::TagRule;
use tex_world::{NoMemory, Tap};

/// The idle handles, and the read-ahead of their files.
#[derive(Drop)]
pub(crate) struct IdleFiles<T: Tap> {
    pub(crate) handles: IdleHandles<T::Handle>,
    pub(crate) aheads: Aheads<T::W>,
}

impl<T: Tap> IdleFiles<T> {
    /// Nothing is idle; memory for `cap` handles.
    pub(crate) fn new(alloc: Global, cap: usize) -> Result<IdleFiles<T>, NoMemory>
        requires { 0 < cap }
        ensures { IfOk result (λ idle. idle.handles.cap ≡ cap) }
    {
        Ok(IdleFiles {
            handles: IdleHandles::new(alloc, cap)?,
            aheads: Aheads::new(alloc)?,
        })
    }
}

/// The lock's rule: the tag is the greatest number of idle handles.
pub(crate) struct HandleLimit;

impl<T: Tap> TagRule<Box<IdleFiles<T>>> for HandleLimit {
    ghost fits = { λ tag idle. idle.value.handles.cap ≡ tag };
}
