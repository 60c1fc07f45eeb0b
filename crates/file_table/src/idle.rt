//! Open handles that are kept for later use.
ghost use Rattle.std.specs.Prelude.{◌≡◌, ◌↔◌, ◌⊎◌, ◌<◌, ◌≤◌, nat_eq, [], length};
ghost use Rattle.std.specs.Prelude.{None, IsTrue, IfOk, IfSome, IsSome};
ghost use Rattle.std.specs.List.{IsDistinct};
ghost use Rattle.std.specs.Map.{keys_of, lookup};
ghost use Rattle.file_table.specs.Idle.{AreOwn, HasNewer, IsLeft, TakesHandle, Declines};

use lru::LruCache;
use std::alloc::{AllocFailed, Global};
use std::marker::Model;
use std::num::NonZeroUsize;
use tex_world::{NoMemory, TapHandle};

/// Idle open handles, at most one per file and `cap` in all. Clauses see the handles by file, the
/// one settled last first, and the limit.
#[derive(Drop)]
pub struct IdleHandles<H: TapHandle + Drop> {
    handles: LruCache<u32, H>,
}

impl<H: TapHandle + Drop> Model for IdleHandles<H> {
    ghost use Rattle.std.specs.Prelude.{ℕ};
    ghost use Rattle.lru.specs.LruCache.{LruCache as Entries};
    ghost use Rattle.file_table.specs.Idle.{AreOwn};

    ghost Value = { Entries ℕ H };

    ghost view = { λ idle. idle.handles };

    ghost invariant = { λ idle. AreOwn H.named idle.handles.entries };
}

impl<H: TapHandle + Drop> IdleHandles<H> {
    /// No handles, with memory for `cap` of them.
    pub fn new(alloc: Global, cap: usize) -> Result<IdleHandles<H>, NoMemory>
        requires { 0 < cap }
        ensures empty { IfOk result (λ idle. idle.entries ≡ []) }
        ensures cap { IfOk result (λ idle. idle.cap ≡ cap) }
    {
        let cap = NonZeroUsize::new(cap).unwrap();
        let handles = LruCache::sparse(alloc, cap)?;
        Ok(IdleHandles { handles })
    }

    /// The number of idle handles. It is at most the limit; each handle is filed under its own
    /// file, and no file has two.
    pub fn len(&self) -> usize
        ensures value { result ≡ length self.now.entries }
        ensures few { result ≤ self.now.cap }
        ensures own { AreOwn H.named self.now.entries }
        ensures distinct { IsDistinct nat_eq (keys_of self.now.entries) }
    {
        self.handles.len()
    }

    /// Whether the idle handle of a file is newer than this generation.
    pub fn has_newer(&self, file: u32, generation: u32) -> bool
        ensures { IsTrue result ↔ HasNewer H.named self.now.entries file generation }
    {
        match self.handles.peek(&file) {
            Some(handle) => generation < handle.generation(),
            None => false,
        }
    }

    /// Takes out the handle of a file, unless it is newer than this generation.
    pub fn take_until(&mut self, file: u32, generation: u32) -> Option<H>
        ensures newer { HasNewer H.named self.old.entries file generation →
            (result ≡ None) × (self.new ≡ self.old) }
        ensures value { (HasNewer H.named self.old.entries file generation → ⊥) →
            IsLeft file self.old self.new result }
        ensures own { IfSome result (λ h.
            ((H.named h).file ≡ file) × ((H.named h).generation ≤ generation)) }
    {
        if self.has_newer(file, generation) {
            return None;
        }
        self.handles.pop(&file)
    }

    /// Takes out the handle of a file.
    pub fn take(&mut self, file: u32) -> Option<H>
        ensures value { IsLeft file self.old self.new result }
    {
        self.handles.pop(&file)
    }

    /// Makes a handle the idle one of its file, in front of all others. It replaces one that is not
    /// newer, which is returned. The handle itself is returned if the file has a newer idle one, or
    /// if memory runs out.
    pub fn settle(&mut self, handle: H) -> Option<H>
        ensures newer { HasNewer H.named self.old.entries
            (H.named handle).file (H.named handle).generation →
            Declines handle self.old self.new result }
        ensures value { (HasNewer H.named self.old.entries
            (H.named handle).file (H.named handle).generation → ⊥) →
            TakesHandle (H.named handle).file handle self.old self.new result
            ⊎ Declines handle self.old self.new result }
        ensures there { IsSome (lookup (nat_eq (H.named handle).file) self.old.entries) →
            (HasNewer H.named self.old.entries
            (H.named handle).file (H.named handle).generation → ⊥) →
            TakesHandle (H.named handle).file handle self.old self.new result }
    {
        let file = handle.file();
        if self.has_newer(file, handle.generation()) {
            return Some(handle);
        }
        match self.handles.push(file, handle) {
            Ok(None) => None,
            Ok(Some((_file, out))) => Some(out),
            Err(
                AllocFailed {
                    value: (_file, handle),
                },
            ) => Some(handle),
        }
    }
}
