//! The read-ahead of a file: bytes that were read before they are needed.
ghost use Rattle.std.specs.Prelude.{◌≡◌, ◌≤◌, ◌↔◌, ℕ, length, IsTrue, IfSome};
ghost use Rattle.tex_world.specs.World.{Files};
ghost use Rattle.tap_reader.specs.ReadAhead.{max_ahead_bytes, bytes_of, IsOf, StandAt, StandAsRows};
ghost use Rattle.tap_reader.specs.ReadAhead.{AreStretchesOf};

use crate::planning::Band;
use crate::rows::Rows;
use crate::stretch::Stretch;
use std::alloc::Global;
use std::marker::{Model, PhantomData};
use std::mem;
use std::sync::Arc;
use tex_world::World;

/// The most bytes of read-ahead that are kept for one file: 4 MiB.
pub const MAX_AHEAD_BYTES: usize = 4194304;

/// The most bytes that are read into one stretch for cells: 512 KiB.
pub const MAX_STRETCH_BYTES: usize = 524288;

/// Read-ahead of one generation of a file, in stretches. A stretch has the rows of neighbouring
/// cells of a row of cells. If the world is modelled, the bytes are those of the file. Clauses see
/// the file's generation and the number of bytes.
#[derive(Drop)]
pub struct ReadAhead<W: World> {
    alloc: Global,
    file: u32,
    generation: u32,
    pub(crate) stretches: Vec<Stretch>,
    world: PhantomData<W>,
}

impl<W: World> Model for ReadAhead<W> {
    ghost use Rattle.tap_reader.specs.ReadAhead.{AheadState, bytes_of, AreAhead};

    ghost Value = { AheadState };

    ghost view = { λ a. record {
      file = a.file;
      generation = a.generation;
      count = bytes_of a.stretches.items;
    } };

    ghost invariant = { λ a. AreAhead W.files a.file a.generation a.stretches.items };
}

/// Whether the stretches have no more bytes than may be kept.
fn are_few(stretches: &[Stretch]) -> bool
    ensures { IsTrue result → bytes_of stretches.now ≤ max_ahead_bytes }
{
    let mut left = MAX_AHEAD_BYTES;
    for stretch in stretches {
        let len = stretch.bytes().len();
        if len > left {
            return false;
        }
        left -= len;
    }
    true
}

/// Exchanges two lists if the other one is longer.
fn put_longer_first(own: &mut Vec<Stretch>, other: &mut Vec<Stretch>)
    ensures { (files : Files) → (file generation : ℕ)
        → AreStretchesOf files file generation own.old.items
        → AreStretchesOf files file generation other.old.items
        → AreStretchesOf files file generation own.new.items
        × AreStretchesOf files file generation other.new.items }
{
    if own.len() < other.len() {
        mem::swap(own, other);
    }
}

/// Exchanges each stretch for the one with the same index, if that was used later.
fn take_later(own: &mut Vec<Stretch>, other: &mut Vec<Stretch>)
    ensures { (files : Files) → (file generation : ℕ)
        → AreStretchesOf files file generation own.old.items
        → AreStretchesOf files file generation other.old.items
        → AreStretchesOf files file generation own.new.items
        × AreStretchesOf files file generation other.new.items }
{
    for k in 0..own.len().min(other.len()) {
        if own[k].course.used < other[k].course.used {
            mem::swap(&mut own[k], &mut other[k]);
        }
    }
}

impl<W: World> ReadAhead<W> {
    /// No read-ahead of this generation of a file. Allocates nothing.
    pub fn none(alloc: Global, file: u32, generation: u32) -> ReadAhead<W>
        ensures of { IsOf file generation result }
        ensures empty { result.count ≡ 0 }
    {
        ReadAhead {
            alloc,
            file,
            generation,
            stretches: Vec::new(alloc),
            world: PhantomData,
        }
    }

    /// A second reference to the same bytes. `None` if memory runs out.
    pub fn share(&self) -> Option<ReadAhead<W>>
        ensures { IfSome result (IsOf self.now.file self.now.generation) }
    {
        let mut shared = Vec::with_capacity(self.alloc, self.stretches.len()).ok()?;
        for stretch in &self.stretches {
            shared.push(stretch.share().ok()?).ok()?;
        }
        if !are_few(&shared) {
            return None;
        }
        Some(ReadAhead {
            alloc: self.alloc,
            file: self.file,
            generation: self.generation,
            stretches: shared,
            world: PhantomData,
        })
    }

    /// The number of the file.
    pub fn file(&self) -> u32
        ensures { result ≡ self.now.file }
    {
        self.file
    }

    /// Whether the bytes are of this generation of this file.
    pub fn is_of(&self, file: u32, generation: u32) -> bool
        ensures { IsTrue result ↔ IsOf file generation self.now }
    {
        self.file == file && self.generation == generation
    }

    /// The number of bytes.
    pub fn len(&self) -> usize
        ensures value { result ≡ self.now.count }
        ensures few { result ≤ max_ahead_bytes }
    {
        self.stretches
            .iter()
            .map(|stretch| stretch.bytes().len())
            .sum()
    }

    /// Whether there is no stretch, so that no course continues.
    pub fn is_blank(&self) -> bool {
        self.stretches.is_empty()
    }

    /// Merges two read-aheads of one file, and returns what stays and what leaves. The newer
    /// generation stays. If both are of one generation, `self` stays, with those stretches of the
    /// other that were used later.
    pub fn over(mut self, mut kept: ReadAhead<W>) -> (ReadAhead<W>, ReadAhead<W>) {
        if self.generation < kept.generation {
            return (kept, self);
        }
        if self.generation == kept.generation && self.file == kept.file {
            self.gather(&mut kept);
        }
        (self, kept)
    }

    /// Takes those stretches of another read-ahead that were used later, in exchange for its own.
    fn gather(&mut self, other: &mut ReadAhead<W>)
        requires { IsOf self.old.file self.old.generation other.old }
        ensures own { IsOf self.old.file self.old.generation self.new }
        ensures other { IsOf self.old.file self.old.generation other.new }
    {
        put_longer_first(&mut self.stretches, &mut other.stretches);
        take_later(&mut self.stretches, &mut other.stretches);
        if !are_few(&self.stretches) || !are_few(&other.stretches) {
            self.stretches.clear();
            other.stretches.clear();
        }
    }

    /// The `size` bytes at a place, if a stretch of these bands has all of them.
    pub fn part(&self, bands: &[Band], at: u64, size: usize) -> Option<&[u8]>
        ensures long { IfSome result (λ part. length part.now ≡ size) }
        ensures told { IfSome result (λ part.
            StandAt W.files self.now.file self.now.generation at part.now) }
    {
        for band in bands {
            if let Some(stretch) = self.stretches.get(band.slot) {
                if let Some(part) = stretch.part(at, size) {
                    return Some(part);
                }
            }
        }
        None
    }

    /// A buffer of `size` bytes. `None` if out of memory.
    pub fn room(&self, size: usize) -> Option<Vec<u8>>
        ensures { IfSome result (λ room. length room.items ≡ size) }
    {
        vec![in self.alloc; 0u8; size].ok()
    }

    /// Puts the bytes of rows into a stretch, in place of those that were there. If the total would
    /// be too large, no stretch is kept. If memory runs out, nothing changes.
    pub fn put(&mut self, slot: usize, rows: Rows, bytes: Vec<u8>)
        requires { StandAsRows W.files self.old.file self.old.generation rows bytes.items }
        ensures file { self.new.file ≡ self.old.file }
        ensures generation { self.new.generation ≡ self.old.generation }
    {
        let Ok(bytes) = Arc::new(self.alloc, bytes) else {
            return;
        };
        if slot < self.stretches.len() {
            let stretch = &mut self.stretches[slot];
            stretch.rows = rows;
            stretch.bytes = Some(bytes);
        }
        if !are_few(&self.stretches) {
            self.stretches.clear();
        }
    }
}
