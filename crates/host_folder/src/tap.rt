//! A tap of a folder of the file system.
ghost use Rattle.std.specs.Prelude.{◌≡◌, ◌+◌, ◌<◌, ◌≤◌, min, OnOk, IfErr, IfSome};
ghost use Rattle.tex_world.specs.Counts.{last_count};
ghost use Rattle.tex_world.specs.World.{last_generation};
ghost use Rattle.tex_world.specs.Tap.{IsNew, NamesNewer};
ghost use Rattle.host_folder.specs.RealHandle.{handle_named};
ghost use Rattle.host_folder.specs.RealTap.{tap_state, LooksTwice};
ghost use Rattle.host_folder.specs.RealWorld.{untold_files};

use crate::handle::RealHandle;
use crate::listing::Listing;
use crate::stamp::{FileStatus, status_of};
use crate::world::RealWorld;
use file_stamp::settle_word;
use std::alloc::Global;
use std::fs;
use std::fs::{File, Files};
use std::os::unix::fs::FileExt;
use std::sync::Arc;
use std::sync::atomic::{AtomicU64, Ordering};
use tex_world::{Failed, OpenError, ReadError, Tap, TapCounters, TapHandle};

/// Reads the files of a folder as it was listed. All taps share one word per file: the generation
/// in which the file was last seen, and its stamp. No call waits for another tap.
#[derive(Drop)]
pub struct RealTap<R> {
    rt: R,
    listing: Option<Arc<Listing>>,
    counters: TapCounters,
    /// The number of freshness checks made by reads.
    looks: u64,
}

/// A generation of a file, with the length and the stamp seen.
#[derive(Clone, Copy)]
struct Settled {
    generation: u32,
    look: FileStatus,
}

/// ByteRows of `row` bytes, the first at `at`, each `stride` bytes after the one before.
#[derive(Clone, Copy)]
struct ByteRows {
    at: u64,
    stride: u64,
    row: usize,
    ghost some: { 1 ≤ row },
}

impl<R> RealTap<R> {
    /// A tap without calls so far.
    pub(crate) fn new(rt: R, listing: Option<Arc<Listing>>) -> Self
        ensures { IsNew (tap_state result) }
    {
        RealTap {
            rt,
            listing,
            counters: TapCounters::new(),
            looks: 0,
        }
    }

    /// How many calls failed.
    pub fn faults(&self) -> u64
        ensures { result ≡ (tap_state self.now).faults }
    {
        self.counters.faults()
    }

    /// How often the tap met a newer generation.
    pub fn moves(&self) -> u64
        ensures { result ≡ (tap_state self.now).moves }
    {
        self.counters.moves()
    }

    /// The path to open a file.
    fn path_of(&self, file: u32) -> Option<&str> {
        match &self.listing {
            Some(listing) => listing.path_of(file),
            None => None,
        }
    }
}

impl<R: Files<File = File>> RealTap<R> {
    /// The length and the stamp of the file at its path. `None` if there is no plain file.
    fn look(&self, file: u32) -> Option<FileStatus> {
        match fs::metadata(&self.rt, self.path_of(file)?) {
            Ok(metadata) => status_of(&metadata),
            Err(_) => None,
        }
    }

    /// The word of a file, if it is in the listing.
    fn word(&self, file: u32) -> Option<&AtomicU64> {
        match &self.listing {
            Some(listing) => listing.word(file),
            None => None,
        }
    }

    /// Checks a file and determines its generation: that in its word if the stamp is the same,
    /// otherwise the next one, which is then written to the word. `None` if there is no plain file,
    /// if another tap has written another stamp meanwhile, or if the generation would be below
    /// `least` or past the last one.
    fn settle(&self, file: u32, least: u32) -> Option<Settled>
        ensures low { IfSome result (λ s. 1 ≤ s.generation) }
        ensures high { IfSome result (λ s. s.generation ≤ last_generation) }
        ensures least { IfSome result (λ s. least ≤ s.generation) }
    {
        let word = self.word(file)?;
        let loaded = word.load(Ordering::SeqCst);
        let look = self.look(file)?;
        let generation = settle_word(word, loaded, look.stamp)?;
        if generation < least {
            return None;
        }
        Some(Settled { generation, look })
    }

    /// Determines the generation of a file and opens it. `None` if another file took its place
    /// meanwhile.
    fn opened(&self, file: u32, least: u32) -> Option<RealHandle>
        ensures file { IfSome result (λ h. (handle_named h).file ≡ file) }
        ensures least { IfSome result (λ h. least ≤ (handle_named h).generation) }
    {
        let settled = self.settle(file, least)?;
        match File::open(&self.rt, self.path_of(file)?) {
            Ok(source) if is_seen(&source, settled.look) => {
                Some(RealHandle::new(file, settled.generation, settled.look, source))
            }
            _ => None,
        }
    }

    /// Fills the buffer from the open file. The stamp must be the handle's both before and after
    /// the read.
    fn fill(&mut self, h: &RealHandle, at: u64, buf: &mut [u8]) -> Result<(), ReadError>
        ensures same { tap_state self.new ≡ tap_state self.old }
        ensures looks { OnOk result (LooksTwice self.old self.new) }
        ensures newer { IfErr result (NamesNewer untold_files (handle_named h.now)) }
    {
        self.stay(h)?;
        let read = h.source().read_exact_at(buf, at);
        self.stay(h)?;
        match read {
            Ok(()) => Ok(()),
            Err(_) => Err(ReadError::Failed),
        }
    }

    /// Fills the buffer with rows from the open file. The stamp must be the handle's both before
    /// the first row and after the last.
    fn fill_rows(&mut self, h: &RealHandle, rows: ByteRows, buf: &mut [u8]) -> Result<(), ReadError>
        ensures same { tap_state self.new ≡ tap_state self.old }
        ensures looks { OnOk result (LooksTwice self.old self.new) }
        ensures newer { IfErr result (NamesNewer untold_files (handle_named h.now)) }
    {
        self.stay(h)?;
        let read = are_read(h.source(), rows, buf);
        self.stay(h)?;
        if read { Ok(()) } else { Err(ReadError::Failed) }
    }

    /// Succeeds if the file at the handle's path still has the handle's stamp. Otherwise the error
    /// names the file's generation, if that is newer.
    fn stay(&mut self, h: &RealHandle) -> Result<(), ReadError>
        ensures same { tap_state self.new ≡ tap_state self.old }
        ensures looks { self.new.looks ≡ min (self.old.looks + 1) last_count }
        ensures newer { IfErr result (NamesNewer untold_files (handle_named h.now)) }
    {
        self.looks = self.looks.saturating_add(1);
        match self.look(h.file()) {
            Some(look) if look.stamp == h.stamp() => return Ok(()),
            _ => {}
        }
        match self.settle(h.file(), 0) {
            Some(settled) if settled.generation > h.generation() => {
                Err(ReadError::Gone(settled.generation))
            }
            _ => Err(ReadError::Failed),
        }
    }
}

/// Whether an open file has the length and the stamp that were seen.
fn is_seen(source: &File, look: FileStatus) -> bool {
    match source.metadata() {
        Ok(metadata) => match status_of(&metadata) {
            Some(here) => here.len == look.len && here.stamp == look.stamp,
            None => false,
        },
        Err(_) => false,
    }
}

/// Fills the buffer with rows from an open file, in one read if they follow one another. False if a
/// read failed.
fn are_read(source: &File, rows: ByteRows, buf: &mut [u8]) -> bool {
    if rows.row as u64 == rows.stride {
        return source.read_exact_at(buf, rows.at).is_ok();
    }
    let mut at = rows.at;
    for part in buf.chunks_mut(rows.row) {
        if source.read_exact_at(part, at).is_err() {
            return false;
        }
        at = at.saturating_add(rows.stride);
    }
    true
}

impl<R: Files<File = File>> Tap for RealTap<R> {
    type W = RealWorld;

    type Handle = RealHandle;

    ghost state = { tap_state };

    /// Allocates nothing. Fails if the opened file has another stamp or length than was seen when
    /// its generation was determined.
    fn open(&mut self, _alloc: Global, file: u32, least: u32) -> Result<RealHandle, OpenError> {
        let opened = self.opened(file, least).ok_or(OpenError::Failed);
        self.counters.count_open(least, &opened);
        opened
    }

    fn newest(&mut self, file: u32, least: u32) -> Result<u32, Failed> {
        let newest = match self.settle(file, least) {
            Some(settled) => Ok(settled.generation),
            None => Err(Failed),
        };
        self.counters.count_newest(file, newest);
        newest
    }

    /// Checks the stamp of the file at the path before and after the read. So it notices a file
    /// that was replaced as well as one that was rewritten. The bytes come from the open file.
    #[tactic(auto, using(tex_world::proofs::TapLemmas::read_cause))]
    fn read_at(&mut self, h: &mut RealHandle, at: u64, buf: &mut [u8]) -> Result<(), ReadError> {
        let read = self.fill(h, at, buf);
        self.counters.count_read(read);
        read
    }

    /// Checks the stamp before the first row and after the last one.
    #[tactic(auto, using(tex_world::proofs::TapLemmas::read_cause))]
    fn read_rows(
        &mut self,
        h: &mut RealHandle,
        at: u64,
        stride: u64,
        row: usize,
        buf: &mut [u8],
    ) -> Result<(), ReadError> {
        let read = self.fill_rows(h, ByteRows { at, stride, row }, buf);
        self.counters.count_read(read);
        read
    }
}
