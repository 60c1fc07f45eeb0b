//! One caller of a cache, and the calls as the tests make them.
ghost use Rattle.std.specs.Prelude.{◌≡◌, ℕ, ◌<◌, length};
ghost use Rattle.tex_world.specs.World.{IsFile};
ghost use Rattle.tile_source.specs.Pass.{IsPassOf};

use crate::asks::{Answer, Ask, Look, refusal};
use file_table::Record;
use image_cache::{Cache, NotReleased, Pass, Region, TexelAt};
use std::sync::Arc;
use tex_world::Tap;
use texel_filter::TexRequest;
use texture_sys::{texture, texture_local};
use tiff_format::MAX_CHANNELS;
use waiter::Waiter;

/// A pass of a cache of five files, the number of shards, the taps to use, the values that the last
/// call wrote, and the record of the file opened last.
#[derive(Drop)]
pub(crate) struct Worker<'a, T: Tap> {
    pub(crate) cache: &'a Cache<T>,
    pub(crate) shards: u32,
    pub(crate) pass: Pass<T::W>,
    pub(crate) taps: Vec<T>,
    pub(crate) out: Vec<u16>,
    pub(crate) known: Option<Arc<Record<T::W>>>,
    ghost of_cache: { IsPassOf cache.now pass },
    ghost count: { cache.now.files.board.files ≡ 5 },
    ghost parts: { length cache.now.gate.id ≡ shards },
}

pub(crate) const FILES: u32 = 5;

/// The value of every place before a call.
pub(crate) const BEFORE: u16 = 7;

// Makes a lookup request with the same wrap in both directions.
fn request(look: Look) -> TexRequest
    ensures { result.nch ≡ look.3 }
{
    let ((s, t, lod), wrap, filter, nch) = look;
    TexRequest {
        s,
        t,
        lod,
        swrap: wrap,
        twrap: wrap,
        filter,
        nch,
    }
}

impl<T: Tap> Worker<'_, T> {
    /// Makes a call through a tap.
    pub(crate) fn answer<V: Waiter>(&mut self, waiter: &V, tap: usize, ask: Ask) -> Answer
        requires { (file : ℕ) → file < 5 → IsFile T.W.files file }
        ensures { self.new.cache.now ≡ self.old.cache.now }
    {
        self.out.clear();
        match ask {
            Ask::Info(file) if file < FILES => self.info(waiter, tap, file),
            Ask::Hold(file, place) if file < FILES => self.hold(waiter, tap, file, place),
            Ask::Release(place) => self.release(waiter, place),
            Ask::Held(place) => self.held(place),
            Ask::Pixels(file, place, sides) if file < FILES => {
                self.pixels(waiter, tap, file, place, sides)
            }
            Ask::Texture(file, look) if file < FILES => self.look(waiter, tap, file, look),
            Ask::TextureLocal(file, look) if file < FILES => self.lookup_local(file, look),
            Ask::Batch(file, options, places) if file < FILES => {
                self.look_up_all(waiter, tap, file, options, places)
            }
            Ask::Invalidate(file, force) if file < FILES => {
                self.invalidate(waiter, tap, file, force)
            }
            Ask::InvalidateAll => self.invalidate_all(waiter, tap),
            Ask::Open(file) if file < FILES => self.open(waiter, tap, file),
            Ask::Fetch(place, channels) => self.fetch(waiter, tap, place, channels),
            Ask::FetchLocal(place, channels) => self.fetch_local(place, channels),
            Ask::HasLocal(place) => self.has_local(place),
            Ask::Keep => self.keep(),
            Ask::Local(file) if file < FILES => self.local(file),
            Ask::Count(shard) if shard < self.shards => self.count(waiter, shard),
            _ => Answer::Other,
        }
    }

    fn info<V: Waiter>(&mut self, waiter: &V, tap: usize, file: u32) -> Answer
        requires file { file < 5 }
        requires told { (file : ℕ) → file < 5 → IsFile T.W.files file }
        ensures { self.new.cache.now ≡ self.old.cache.now }
    {
        let Some(tap) = self.taps.get_mut(tap) else {
            return Answer::Other;
        };
        match self.cache.info(waiter, &mut self.pass, tap, file) {
            Ok(info) => Answer::Facts([
                info.generation,
                info.width,
                info.height,
                info.channels,
                info.depth,
                info.stored,
                info.levels,
            ]),
            Err(e) => refusal(e),
        }
    }

    fn hold<V: Waiter>(
        &mut self,
        waiter: &V,
        tap: usize,
        file: u32,
        place: (u32, u32, u32),
    ) -> Answer
        requires file { file < 5 }
        requires told { (file : ℕ) → file < 5 → IsFile T.W.files file }
        ensures { self.new.cache.now ≡ self.old.cache.now }
    {
        let (level, x, y) = place;
        let Some(tap) = self.taps.get_mut(tap) else {
            return Answer::Other;
        };
        let at = TexelAt { level, x, y };
        match self.cache.get_tile(waiter, &mut self.pass, tap, file, at) {
            Ok(generation) => Answer::Of(generation),
            Err(e) => refusal(e),
        }
    }

    fn release<V: Waiter>(&mut self, waiter: &V, place: usize) -> Answer
        ensures { self.new.cache.now ≡ self.old.cache.now }
    {
        match self.cache.release_tile(waiter, &mut self.pass, place) {
            Ok(()) => Answer::Released,
            Err(NotReleased::NothingHeld) => Answer::Nothing,
            Err(NotReleased::Busy(_gave_up)) => Answer::Busy,
        }
    }

    fn held(&self, place: usize) -> Answer {
        match self.pass.held(place) {
            Some(tile) => {
                let rect = tile.rect();
                Answer::Rectangle([rect.x, rect.y, rect.w, rect.h])
            }
            None => Answer::Nothing,
        }
    }

    fn pixels<V: Waiter>(
        &mut self,
        waiter: &V,
        tap: usize,
        file: u32,
        place: (u32, i32, i32),
        sides: (u32, u32),
    ) -> Answer
        requires file { file < 5 }
        requires told { (file : ℕ) → file < 5 → IsFile T.W.files file }
        ensures { self.new.cache.now ≡ self.old.cache.now }
    {
        let (level, x, y) = place;
        let (w, h) = sides;
        let region = Region { level, x, y, w, h };
        if let Err(_full) = self.out.push(BEFORE) {
            return Answer::Other;
        }
        let Some(tap) = self.taps.get_mut(tap) else {
            return Answer::Other;
        };
        match self
            .cache
            .get_pixels(waiter, &mut self.pass, tap, file, &region, &mut self.out)
        {
            Ok(pixels) => Answer::Texels(pixels.generation, pixels.channels),
            Err(e) => refusal(e),
        }
    }

    fn look<V: Waiter>(&mut self, waiter: &V, tap: usize, file: u32, look: Look) -> Answer
        requires file { file < 5 }
        requires told { (file : ℕ) → file < 5 → IsFile T.W.files file }
        ensures { self.new.cache.now ≡ self.old.cache.now }
    {
        let r = request(look);
        if r.nch < 1 || r.nch > 8 {
            return Answer::Other;
        }
        let Some(tap) = self.taps.get_mut(tap) else {
            return Answer::Other;
        };
        let mut out = [BEFORE; MAX_CHANNELS];
        let values = &mut out[..r.nch as usize];
        let answer = match texture(self.cache, waiter, &mut self.pass, tap, file, &r, values) {
            Ok(generation) => Answer::Of(generation),
            Err(e) => refusal(e),
        };
        self.left(answer, &out[..r.nch as usize])
    }

    fn lookup_local(&mut self, file: u32, look: Look) -> Answer
        requires file { file < 5 }
        requires told { (file : ℕ) → file < 5 → IsFile T.W.files file }
        ensures { self.new.cache.now ≡ self.old.cache.now }
    {
        let r = request(look);
        if r.nch < 1 || r.nch > 8 {
            return Answer::Other;
        }
        let mut out = [BEFORE; MAX_CHANNELS];
        let values = &mut out[..r.nch as usize];
        let answer = match texture_local(self.cache, &mut self.pass, file, &r, values) {
            Some(generation) => Answer::Of(generation),
            None => Answer::Nothing,
        };
        self.left(answer, &out[..r.nch as usize])
    }

    /// The answer of a call that wrote these values.
    pub(crate) fn left(&mut self, answer: Answer, values: &[u16]) -> Answer
        ensures { self.new.cache.now ≡ self.old.cache.now }
    {
        match self.out.extend_from_slice(values) {
            Ok(()) => answer,
            Err(_full) => Answer::Other,
        }
    }

    fn invalidate<V: Waiter>(&mut self, waiter: &V, tap: usize, file: u32, force: bool) -> Answer
        requires file { file < 5 }
        requires told { (file : ℕ) → file < 5 → IsFile T.W.files file }
        ensures { self.new.cache.now ≡ self.old.cache.now }
    {
        let Some(tap) = self.taps.get_mut(tap) else {
            return Answer::Other;
        };
        match self
            .cache
            .invalidate(waiter, &mut self.pass, tap, file, force)
        {
            Ok(generation) => Answer::Of(generation),
            Err(e) => refusal(e),
        }
    }

    fn invalidate_all<V: Waiter>(&mut self, waiter: &V, tap: usize) -> Answer
        requires { (file : ℕ) → file < 5 → IsFile T.W.files file }
        ensures { self.new.cache.now ≡ self.old.cache.now }
    {
        let Some(tap) = self.taps.get_mut(tap) else {
            return Answer::Other;
        };
        match self.cache.invalidate_all(waiter, &mut self.pass, tap) {
            Ok(()) => Answer::Known,
            Err(e) => refusal(e),
        }
    }

    fn count<V: Waiter>(&mut self, waiter: &V, shard: u32) -> Answer
        requires { shard < self.old.shards }
        ensures { self.new.cache.now ≡ self.old.cache.now }
    {
        match self.cache.count(waiter, &mut self.pass, shard) {
            Ok(count) => Answer::Shard([
                count.tiles as u64,
                count.pins as u64,
                count.loose,
                count.share,
            ]),
            Err(_gave_up) => Answer::Busy,
        }
    }

    /// The generation that the pass has seen of a file; 0 if the cache has no such file.
    pub(crate) fn seen(&self, file: u32) -> u32 {
        if file < FILES {
            self.pass.seen(file)
        } else {
            0
        }
    }

    /// The number of tiles that the pass holds, up to 5.
    pub(crate) fn holds(&self) -> u64 {
        for place in 0..5u64 {
            if self.pass.held(place as usize).is_none() {
                return place;
            }
        }
        5
    }
}

impl<T: Tap + Drop> Worker<'_, T> {
    /// Takes the pass out.
    pub(crate) fn into_pass(self) -> Pass<T::W>
        ensures { IsPassOf self.entry.cache.now result }
    {
        self.pass
    }
}
