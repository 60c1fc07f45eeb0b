//! The calls as C makes them: they check the numbers of the request and write the answer as
//! numbers.
ghost use Rattle.std.specs.Prelude.{◌≡◌, ◌<◌, length, take, drop, IsTrue, IsFalse};
ghost use Rattle.texture_sys.specs.Asked.{one_point, one_footprint};
ghost use Rattle.supplied_client.specs.Client.{LeavesFile, LeavesChecked};
ghost use Rattle.supplied_client.specs.Request.{IsPoint, IsFootprint, point_of, footprint_of};
ghost use Rattle.supplied_client.specs.Request.{region_of, told_info};
ghost use Rattle.supplied_client.specs.Calls.{SaysLookup, SaysLocally, SaysInfo, SaysRegion, SaysTile};
ghost use Rattle.supplied_client.specs.Calls.{SaysInvalid, SaysAllInvalid};

use crate::answer::{ANSWERED, BAD_REQUEST, NO_FILE, NOT_LOCAL, SMALL_BUFFER, TexAnswer};
use crate::client::Client;
use crate::request::TexLookup;
use image_cache::{Region, TexelAt};
use tiff_format::Info;

/// The size, depth, channels and levels of a file.
#[repr(C)]
#[derive(Clone, Copy, Debug, PartialEq, Eq)]
pub struct TexInfo {
    pub width: u32,
    pub height: u32,
    pub channels: u32,
    /// The bits per sample, 8 or 16.
    pub depth: u32,
    /// The number of levels that the file stores.
    pub stored: u32,
    /// The number of levels, generated ones included.
    pub levels: u32,
}

/// A region of a level, as C writes it.
#[repr(C)]
#[derive(Clone, Copy, Debug, PartialEq, Eq)]
pub struct TexRegion {
    pub level: u32,
    pub x: i32,
    pub y: i32,
    pub w: u32,
    pub h: u32,
}

impl Client {
    /// Answers `info`.
    pub fn say_info(&mut self, file: u32, out: &mut TexInfo, answer: &mut TexAnswer) -> u32
        ensures says { SaysInfo file result answer.new out.new self.old self.new }
        ensures left { LeavesFile file result self.old self.new }
    {
        *answer = TexAnswer::blank();
        if self.files() <= file {
            self.end();
            return NO_FILE;
        }
        match self.info(file) {
            Ok(info) => {
                *answer = TexAnswer::of(info.generation);
                *out = TexInfo::of(&info);
                self.end();
                ANSWERED
            }
            Err(e) => self.refuse(&e, answer),
        }
    }

    /// Answers `texture`.
    pub fn say_texture(
        &mut self,
        file: u32,
        lookup: &TexLookup,
        out: &mut [u16],
        answer: &mut TexAnswer,
    ) -> u32
        ensures says { SaysLookup file (IsPoint lookup.now) (one_point (point_of lookup.now))
            lookup.now.channels result answer.new out.old out.new self.old self.new }
        ensures left { LeavesFile file result self.old self.new }
    {
        *answer = TexAnswer::blank();
        if self.files() <= file {
            self.end();
            return NO_FILE;
        }
        let Some(r) = lookup.point() else {
            self.end();
            return BAD_REQUEST;
        };
        if out.len() < r.nch as usize {
            self.end();
            return SMALL_BUFFER;
        }
        match self.texture(file, &r, &mut out[..r.nch as usize]) {
            Ok(generation) => {
                answer.generation = generation;
                self.end();
                ANSWERED
            }
            Err(e) => self.refuse(&e, answer),
        }
    }

    /// Answers `texture_d`.
    pub fn say_texture_d(
        &mut self,
        file: u32,
        lookup: &TexLookup,
        out: &mut [u16],
        answer: &mut TexAnswer,
    ) -> u32
        ensures says { SaysLookup file (IsFootprint lookup.now)
            (one_footprint (footprint_of lookup.now))
            lookup.now.channels result answer.new out.old out.new self.old self.new }
        ensures left { LeavesFile file result self.old self.new }
    {
        *answer = TexAnswer::blank();
        if self.files() <= file {
            self.end();
            return NO_FILE;
        }
        let Some(r) = lookup.footprint() else {
            self.end();
            return BAD_REQUEST;
        };
        if out.len() < r.nch as usize {
            self.end();
            return SMALL_BUFFER;
        }
        match self.texture_d(file, &r, &mut out[..r.nch as usize]) {
            Ok(generation) => {
                answer.generation = generation;
                self.end();
                ANSWERED
            }
            Err(e) => self.refuse(&e, answer),
        }
    }

    /// Answers `texture_local`.
    pub fn say_texture_local(
        &mut self,
        file: u32,
        lookup: &TexLookup,
        out: &mut [u16],
        answer: &mut TexAnswer,
    ) -> u32
        ensures { SaysLocally file (IsPoint lookup.now) (one_point (point_of lookup.now))
            lookup.now.channels result answer.new out.old out.new self.old self.new }
    {
        *answer = TexAnswer::blank();
        if self.files() <= file {
            return NO_FILE;
        }
        let Some(r) = lookup.point() else {
            return BAD_REQUEST;
        };
        if out.len() < r.nch as usize {
            return SMALL_BUFFER;
        }
        match self
            .caller
            .texture_local(file, &r, &mut out[..r.nch as usize])
        {
            Some(generation) => {
                answer.generation = generation;
                ANSWERED
            }
            None => NOT_LOCAL,
        }
    }

    /// Answers `get_pixels`.
    pub fn say_pixels(
        &mut self,
        file: u32,
        region: &TexRegion,
        out: &mut [u16],
        answer: &mut TexAnswer,
    ) -> u32
        ensures says { SaysRegion file region.now result answer.new out.old out.new self.old self.new }
        ensures left { LeavesFile file result self.old self.new }
    {
        *answer = TexAnswer::blank();
        if self.files() <= file {
            self.end();
            return NO_FILE;
        }
        let mut values = Vec::new(self.alloc);
        match self.pixels(file, &region.region(), &mut values) {
            Ok(pixels) => {
                answer.generation = pixels.generation;
                answer.channels = pixels.channels;
                answer.value = values.len() as u64;
                if copy_out(&values, out) {
                    self.end();
                    return ANSWERED;
                }
                self.end_repeated();
                SMALL_BUFFER
            }
            Err(e) => self.refuse(&e, answer),
        }
    }

    /// Answers `get_tile`.
    pub fn say_get_tile(&mut self, file: u32, at: TexelAt, answer: &mut TexAnswer) -> u32
        ensures says { SaysTile file at result answer.new self.old self.new }
        ensures left { LeavesFile file result self.old self.new }
    {
        *answer = TexAnswer::blank();
        if self.files() <= file {
            self.end();
            return NO_FILE;
        }
        match self.get_tile(file, at) {
            Ok(generation) => {
                answer.generation = generation;
                self.end();
                ANSWERED
            }
            Err(e) => self.refuse(&e, answer),
        }
    }

    /// Answers `invalidate`.
    pub fn say_invalidate(&mut self, file: u32, force: bool, answer: &mut TexAnswer) -> u32
        ensures says { SaysInvalid file force result answer.new self.old self.new }
        ensures left { LeavesChecked result self.old self.new }
    {
        *answer = TexAnswer::blank();
        if self.files() <= file {
            self.end();
            return NO_FILE;
        }
        match self.invalidate(file, force) {
            Ok(generation) => {
                answer.generation = generation;
                self.end();
                ANSWERED
            }
            Err(e) => self.refuse(&e, answer),
        }
    }

    /// Answers `invalidate_all`.
    pub fn say_invalidate_all(&mut self, answer: &mut TexAnswer) -> u32
        ensures says { SaysAllInvalid result answer.new self.old self.new }
        ensures left { LeavesChecked result self.old self.new }
    {
        *answer = TexAnswer::blank();
        match self.invalidate_all() {
            Ok(()) => {
                self.end();
                ANSWERED
            }
            Err(e) => self.refuse(&e, answer),
        }
    }
}

impl TexInfo {
    /// Converts a file's description to C's form.
    fn of(info: &Info) -> TexInfo
        ensures { result ≡ told_info info.now }
    {
        TexInfo {
            width: info.width,
            height: info.height,
            channels: info.channels,
            depth: info.depth,
            stored: info.stored,
            levels: info.levels,
        }
    }
}

impl TexRegion {
    /// Converts the region to the cache's form.
    fn region(&self) -> Region
        ensures { result ≡ region_of self.now }
    {
        Region {
            level: self.level,
            x: self.x,
            y: self.y,
            w: self.w,
            h: self.h,
        }
    }
}

/// Copies values to a buffer. False if the buffer is too small.
fn copy_out(values: &[u16], out: &mut [u16]) -> bool
    ensures ok { IsTrue result → (take (length values.now) out.new ≡ values.now)
        × (drop (length values.now) out.new ≡ drop (length values.now) out.old) }
    ensures err { IsFalse result → (length out.old < length values.now) × (out.new ≡ out.old) }
{
    if out.len() < values.len() {
        return false;
    }
    out[..values.len()].copy_from_slice(values);
    true
}
