//! The answers about held tiles and counts, as C reads them.
ghost use Rattle.std.specs.Prelude.{◌≡◌, ◌<◌, length, take};
ghost use Rattle.std.specs.Prelude.{IsTrue, IsFalse};
ghost use Rattle.tile_store.specs.SampleRow.{samples_of};
ghost use Rattle.supplied_client.specs.Calls.{SaysRow, SaysTileRow, SaysHeld, SaysRelease};
ghost use Rattle.supplied_client.specs.Calls.{SaysCounts, SaysShard, SaysDropped, files_of};
ghost use Rattle.supplied_client.specs.Request.{texel_of};

use crate::answer::{ANSWERED, BUSY, NO_FILE, NO_PART, NOTHING_HELD, SMALL_BUFFER};
use crate::client::Client;
use image_cache::{NotReleased, TexelAt};
use supplied_tap::SuppliedWorld;
use tile_store::{SampleRow, Tile};

/// A tile that a pass holds.
#[repr(C)]
#[derive(Clone, Copy, Debug, PartialEq, Eq)]
pub struct TexTile {
    /// The tile's rectangle in its level.
    pub x: u32,
    pub y: u32,
    pub w: u32,
    pub h: u32,
    /// The number of samples per texel.
    pub channels: u32,
}

/// A texel of a level, as C names it.
#[repr(C)]
#[derive(Clone, Copy, Debug, PartialEq, Eq)]
pub struct TexTexel {
    pub level: u32,
    pub x: u32,
    pub y: u32,
}

impl TexTexel {
    /// The texel in the form that the cache uses.
    pub fn texel(&self) -> TexelAt
        ensures { result ≡ texel_of self.now }
    {
        TexelAt {
            level: self.level,
            x: self.x,
            y: self.y,
        }
    }
}

/// What a pass has counted.
#[repr(C)]
#[derive(Clone, Copy, Debug, PartialEq, Eq)]
pub struct TexCounts {
    /// The number of cells that its answers needed.
    pub needs: u64,
    /// The number of needs that its microcache served.
    pub hits: u64,
    /// The number of needs that were uncached, because no memory was found for a tile.
    pub apart: u64,
    /// The number of tiles that it holds.
    pub holds: u64,
    /// The number of shards of the cache.
    pub shards: u32,
}

/// What a shard has.
#[repr(C)]
#[derive(Clone, Copy, Debug, PartialEq, Eq)]
pub struct TexShard {
    pub tiles: u32,
    pub pins: u32,
    /// The bytes of the shard's unpinned tiles.
    pub loose: u64,
    /// The most bytes that its unpinned tiles may take.
    pub share: u64,
}

impl Client {
    /// Describes the tile that is held at a place.
    pub fn say_tile(&mut self, place: usize, out: &mut TexTile) -> u32
        ensures { SaysHeld place result out.new self.old self.new }
    {
        match self.caller.pass().held(place) {
            Some(tile) => {
                let rect = tile.rect();
                *out = TexTile {
                    x: rect.x,
                    y: rect.y,
                    w: rect.w,
                    h: rect.h,
                    channels: tile.channels(),
                };
                ANSWERED
            }
            None => NOTHING_HELD,
        }
    }

    /// Copies the samples of one row of the tile that is held at a place.
    pub fn say_row(&mut self, place: usize, row: u32, out: &mut [u16]) -> u32
        ensures { SaysRow place row result out.old out.new self.old self.new }
    {
        match self.caller.pass().held(place) {
            Some(tile) => say_tile_row(tile, row, out),
            None => NOTHING_HELD,
        }
    }

    /// Releases the hold at a place.
    pub fn say_release(&mut self, place: usize) -> u32
        ensures { SaysRelease place result self.old self.new }
    {
        match self.caller.release(place) {
            Ok(()) => ANSWERED,
            Err(NotReleased::NothingHeld) => NOTHING_HELD,
            Err(NotReleased::Busy(_)) => BUSY,
        }
    }

    /// Writes the counts of the pass.
    pub fn say_counts(&mut self, out: &mut TexCounts)
        ensures says { SaysCounts out.new self.old }
        ensures same { self.new ≡ self.old }
    {
        *out = TexCounts {
            needs: self.needs(),
            hits: self.hits(),
            apart: self.apart(),
            holds: self.caller.pass().held_count() as u64,
            shards: self.caller.cache().shards(),
        };
    }

    /// Writes the counts and the memory of one shard.
    pub fn say_shard(&mut self, shard: u32, out: &mut TexShard) -> u32
        ensures { SaysShard shard result out.old out.new self.old self.new }
    {
        if self.caller.cache().shards() <= shard {
            return NO_PART;
        }
        match self.caller.count(shard) {
            Ok(count) => {
                *out = TexShard {
                    tiles: count.tiles,
                    pins: count.pins,
                    loose: count.loose,
                    share: count.share,
                };
                ANSWERED
            }
            Err(_) => BUSY,
        }
    }

    /// Drops what the cache keeps of a file beside its tiles.
    pub fn drop_record(&self, file: u32) -> u32
        ensures { SaysDropped file (files_of self.now) result }
    {
        if self.files() <= file {
            return NO_FILE;
        }
        match self.caller.drop_record(file) {
            Ok(()) => ANSWERED,
            Err(_) => BUSY,
        }
    }
}

/// Copies a row's samples to a buffer. False if the buffer is too small.
fn copy_row(row: &SampleRow<'_>, out: &mut [u16]) -> bool
    ensures ok { IsTrue result
        → take (length (samples_of row.now)) out.new ≡ samples_of row.now }
    ensures err { IsFalse result
        → (length out.old < length (samples_of row.now)) × (out.new ≡ out.old) }
{
    let count = row.count();
    if out.len() < count {
        return false;
    }
    row.copy_to(&mut out[..count]);
    true
}

/// Copies the samples of one row of a tile.
fn say_tile_row(tile: &Tile<SuppliedWorld>, row: u32, out: &mut [u16]) -> u32
    ensures { SaysTileRow tile.now row result out.old out.new }
{
    // needed by the proof: the tile is well formed
    let _ = tile.key();
    let rect = tile.rect();
    if rect.h <= row {
        return NO_PART;
    }
    let Some(y) = rect.y.checked_add(row) else {
        return NO_PART;
    };
    if copy_row(&tile.row(rect.x, y, rect.w), out) {
        ANSWERED
    } else {
        SMALL_BUFFER
    }
}
