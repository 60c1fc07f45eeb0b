//! A trait whose methods are called before and after each request.
use std::sync::Wait;

/// Called before and after each request that a worker answers, except `sync`, which nobody answers.
/// A request is named by its place in the list, from 0 on.
pub trait Hook: Sync {
    /// Called before a worker answers a request.
    fn before<R: Wait>(&self, rt: &R, worker: u32, index: u32);

    /// Called after a worker has answered it.
    fn after<R: Wait>(&self, rt: &R, worker: u32, index: u32);
}

/// Does nothing.
#[derive(Clone, Copy, Debug)]
pub struct NoHook;

impl Hook for NoHook {
    fn before<R: Wait>(&self, _rt: &R, _worker: u32, _index: u32) {}

    fn after<R: Wait>(&self, _rt: &R, _worker: u32, _index: u32) {}
}
