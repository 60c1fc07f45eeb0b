//! A file that was opened through a cache, and fetches from its record.
ghost use Rattle.std.specs.Prelude.{ℕ, ◌≡◌, ◌<◌, IfSome, IsSome};
ghost use Rattle.std.specs.Bool.{OnTrue};
ghost use Rattle.tex_world.specs.World.{IsFile};
ghost use Rattle.tile_source.specs.Texel.{IsTexelIn, IsRecordOf};

use crate::asks::{Answer, refusal};
use crate::planned::ONE_SHARD;
use crate::worker::{BEFORE, FILES, Worker};
use file_table::Record;
use image_cache::{Cache, TexelAt};
use tex_world::Tap;
use tiff_format::MAX_CHANNELS;
use waiter::Waiter;

/// Whether the record belongs to a file of the cache and has the cache's cut.
fn is_of<T: Tap>(cache: &Cache<T>, known: &Record<T::W>) -> bool
    ensures file { OnTrue result (known.now.file < 5) }
    ensures cut { OnTrue result (known.now.cut ≡ cache.now.gate.cut) }
{
    known.file() < FILES && known.cut() == cache.cut()
}

/// A texel of level 0 of a record, if the file is valid and has it.
fn texel<T: Tap>(cache: &Cache<T>, known: &Record<T::W>, place: (u32, u32)) -> Option<TexelAt>
    requires count { cache.now.files.board.files ≡ 5 }
    requires told { (file : ℕ) → file < 5 → IsFile T.W.files file }
    ensures inside { IfSome result (IsTexelIn known.now) }
    ensures known { IsSome result → IsRecordOf T.W.files cache.now known.now }
{
    let cut = known.cut();
    if !is_of(cache, known) || cut.autotile != ONE_SHARD.cut.autotile || !known.fits() {
        return None;
    }
    let Ok(layout) = known.layout() else {
        return None;
    };
    // needed by the proof: level 0 is one of the levels
    let _levels = layout.levels(cut);
    let (width, height) = layout.size(0);
    let (x, y) = place;
    if x >= width || y >= height {
        return None;
    }
    Some(TexelAt { level: 0, x, y })
}

// The answer for a record of this generation; 0 means none exists.
fn of_record(generation: u32) -> Answer {
    if generation == 0 {
        Answer::Nothing
    } else {
        Answer::Of(generation)
    }
}

impl<T: Tap> Worker<'_, T> {
    /// Opens a file, and keeps its record for fetches.
    pub(crate) fn open<V: Waiter>(&mut self, waiter: &V, tap: usize, file: u32) -> Answer
        requires file { file < 5 }
        requires told { (file : ℕ) → file < 5 → IsFile T.W.files file }
        ensures { self.new.cache.now ≡ self.old.cache.now }
    {
        let Some(tap) = self.taps.get_mut(tap) else {
            return Answer::Other;
        };
        match self.cache.open(waiter, &mut self.pass, tap, file) {
            Ok(known) => {
                let generation = known.generation();
                self.known = Some(known);
                Answer::Of(generation)
            }
            Err(e) => refusal(e),
        }
    }

    /// Fetches the values of a texel of level 0.
    pub(crate) fn fetch<V: Waiter>(
        &mut self,
        waiter: &V,
        tap: usize,
        place: (u32, u32),
        channels: usize,
    ) -> Answer
        requires { (file : ℕ) → file < 5 → IsFile T.W.files file }
        ensures { self.new.cache.now ≡ self.old.cache.now }
    {
        let Some(known) = &self.known else {
            return Answer::Other;
        };
        let known: &Record<T::W> = known;
        let Some(at) = texel(self.cache, known, place) else {
            return Answer::Other;
        };
        let Some(tap) = self.taps.get_mut(tap) else {
            return Answer::Other;
        };
        if channels > MAX_CHANNELS {
            return Answer::Other;
        }
        let mut out = [BEFORE; MAX_CHANNELS];
        let values = &mut out[..channels];
        let answer = match self
            .cache
            .fetch(waiter, &mut self.pass, tap, known, at, values)
        {
            Ok(()) => Answer::There,
            Err(e) => refusal(e),
        };
        self.left(answer, &out[..channels])
    }

    /// Fetches the values of a texel of level 0, if the microcache has its cell.
    pub(crate) fn fetch_local(&mut self, place: (u32, u32), channels: usize) -> Answer
        requires { (file : ℕ) → file < 5 → IsFile T.W.files file }
        ensures { self.new.cache.now ≡ self.old.cache.now }
    {
        let Some(known) = &self.known else {
            return Answer::Other;
        };
        let known: &Record<T::W> = known;
        let Some(at) = texel(self.cache, known, place) else {
            return Answer::Other;
        };
        if channels > MAX_CHANNELS {
            return Answer::Other;
        }
        let mut out = [BEFORE; MAX_CHANNELS];
        let values = &mut out[..channels];
        let is_there = self.cache.fetch_local(&mut self.pass, known, at, values);
        self.left(there(is_there), &out[..channels])
    }

    /// Asks whether the microcache has the cell of a texel of level 0.
    pub(crate) fn has_local(&self, place: (u32, u32)) -> Answer
        requires { (file : ℕ) → file < 5 → IsFile T.W.files file }
    {
        let Some(known) = &self.known else {
            return Answer::Other;
        };
        let known: &Record<T::W> = known;
        match texel(self.cache, known, place) {
            Some(at) => there(self.cache.has_local(&self.pass, known, at)),
            None => Answer::Other,
        }
    }

    /// Lets the pass keep the record, unless the pass has not seen its generation.
    pub(crate) fn keep(&mut self) -> Answer
        ensures { self.new.cache.now ≡ self.old.cache.now }
    {
        let Some(known) = &self.known else {
            return Answer::Other;
        };
        let generation = known.generation();
        if !is_of(self.cache, known) || generation > self.pass.seen(known.file()) {
            return Answer::Other;
        }
        match known.clone() {
            Ok(kept) => {
                self.cache.keep(&mut self.pass, kept);
                of_record(generation)
            }
            Err(_full) => Answer::Other,
        }
    }

    /// Takes the kept record of a file out of the pass.
    pub(crate) fn local(&mut self, file: u32) -> Answer
        requires { file < 5 }
        ensures { self.new.cache.now ≡ self.old.cache.now }
    {
        match self.cache.local(&mut self.pass, file) {
            Some(known) => of_record(known.generation()),
            None => Answer::Nothing,
        }
    }
}

fn there(is_there: bool) -> Answer {
    if is_there {
        Answer::There
    } else {
        Answer::Nothing
    }
}
