//! The read-ahead buffers of files that nobody reads at the moment.
ghost use Rattle.std.specs.Prelude.{◌≡◌, ◌≤◌, IfSome, length};
ghost use Rattle.tap_reader.specs.ReadAhead.{IsOf};
ghost use Rattle.file_table.specs.Aheads.{max_aheads, max_kept_bytes, kept_bytes};

use lru::LruCache;
use std::alloc::{AllocFailed, Global};
use std::num::NonZeroUsize;
use tap_reader::ReadAhead;
use tex_world::{NoMemory, World};

/// The greatest number of files whose read-ahead is kept.
const MAX_AHEADS: usize = 256;

/// The most bytes of read-ahead kept for all files together: 16 MiB.
pub const MAX_KEPT_BYTES: usize = 16777216;

/// The read-ahead of files that nobody reads, at most one entry per file. The number of files and
/// of bytes is limited; the entry kept longest ago leaves first.
#[derive(Drop)]
pub struct Aheads<W: World> {
    aheads: LruCache<u32, ReadAhead<W>>,
    /// An upper bound of the bytes of all entries.
    held: usize,
    ghost cap: { aheads.cap ≡ max_aheads },
    ghost few: { held ≤ max_kept_bytes },
    ghost all: { kept_bytes aheads.entries ≤ held },
}

impl<W: World> Aheads<W> {
    /// Nothing is kept yet.
    pub fn new(alloc: Global) -> Result<Aheads<W>, NoMemory> {
        let cap = NonZeroUsize::new(MAX_AHEADS).unwrap();
        let aheads = LruCache::sparse(alloc, cap)?;
        Ok(Aheads { aheads, held: 0 })
    }

    /// The number of files with read-ahead, at most 256.
    pub fn len(&self) -> usize
        ensures value { result ≡ length self.now.aheads.entries }
        ensures few { result ≤ max_aheads }
    {
        self.aheads.len()
    }

    /// An upper bound of the bytes kept, at most 16 MiB.
    pub fn bytes(&self) -> usize
        ensures all { kept_bytes self.now.aheads.entries ≤ result }
        ensures few { result ≤ max_kept_bytes }
    {
        self.held
    }

    /// The read-ahead of a file if it is of this generation. The entry stays, and its bytes are
    /// shared, so only the list of stretches is allocated.
    pub fn get(&self, file: u32, generation: u32) -> Option<ReadAhead<W>>
        ensures { IfSome result (IsOf file generation) }
    {
        let kept = self.aheads.peek(&file)?;
        if kept.is_of(file, generation) {
            kept.share()
        } else {
            None
        }
    }

    /// Takes out the read-ahead of a file, of any generation.
    pub fn forget(&mut self, file: u32) -> Option<ReadAhead<W>>
        ensures { self.new.held ≤ self.old.held }
    {
        let ahead = self.aheads.pop(&file)?;
        self.held = self.held.saturating_sub(ahead.len());
        Some(ahead)
    }

    /// Keeps the read-ahead of a file, merged with what was kept before (`ReadAhead::over`). What
    /// is not kept is returned.
    pub fn keep(&mut self, ahead: ReadAhead<W>) -> Option<ReadAhead<W>> {
        if ahead.is_blank() {
            return Some(ahead);
        }
        match self.forget(ahead.file()) {
            Some(kept) => {
                let (stays, left) = ahead.over(kept);
                let _ = self.put(stays);
                Some(left)
            }
            None => self.put(ahead),
        }
    }

    /// Drops the entry kept longest ago.
    fn drop_oldest(&mut self) {
        let oldest = match self.aheads.peek_lru() {
            Some((file, _)) => *file,
            None => return,
        };
        let _ = self.forget(oldest);
    }

    /// Whether `size` bytes of one more file may be kept.
    fn has_room(&self, size: usize) -> bool {
        let few = self.held.saturating_add(size) <= MAX_KEPT_BYTES;
        few && self.aheads.len() < MAX_AHEADS
    }

    /// Drops the oldest entries until `size` bytes of one more file may be kept.
    fn make_room(&mut self, size: usize) {
        for _ in 0..MAX_AHEADS {
            if self.has_room(size) {
                return;
            }
            self.drop_oldest();
        }
    }

    /// Puts the read-ahead of a file in front of all others. Returns what leaves for it, or the
    /// read-ahead itself if memory runs out.
    fn put(&mut self, ahead: ReadAhead<W>) -> Option<ReadAhead<W>> {
        let size = ahead.len();
        self.make_room(size);
        let held = self.held.saturating_add(size);
        if held > MAX_KEPT_BYTES {
            return Some(ahead);
        }
        match self.aheads.push(ahead.file(), ahead) {
            Ok(None) => {
                self.held = held;
                None
            }
            Ok(Some((_file, out))) => {
                self.held = held;
                Some(out)
            }
            Err(
                AllocFailed {
                    value: (_file, ahead),
                },
            ) => Some(ahead),
        }
    }
}
