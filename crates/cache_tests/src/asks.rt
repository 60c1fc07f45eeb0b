//! The calls that tests make, and their answers.
use crate::batches::Places;
use image_cache::CacheError;
use texel_filter::{Filter, Wrap};
use texture_sys::BatchOptions;

/// S, T and LOD of a lookup, its wrap for both directions, its filter and its number of channels.
pub(crate) type Look = ((i32, i32, u32), Wrap, Filter, u32);

/// A call of a cache. The first number is the file, if it has one.
#[derive(Clone, Copy)]
pub(crate) enum Ask {
    Info(u32),
    /// Holds the cell of a texel, given by level, column and row.
    Hold(u32, (u32, u32, u32)),
    /// Releases the hold at a place.
    Release(usize),
    /// Asks for the rectangle of the tile held at a place.
    Held(usize),
    /// Reads a region, given by level, column, row, width and height.
    Pixels(u32, (u32, i32, i32), (u32, u32)),
    Texture(u32, Look),
    TextureLocal(u32, Look),
    /// Looks up the values at several places.
    Batch(u32, BatchOptions, Places),
    /// Counts a shard.
    Count(u32),
    /// Invalidates a file, with force or without.
    Invalidate(u32, bool),
    InvalidateAll,
    /// Opens a file, whose record the following fetches use.
    Open(u32),
    /// Fetches a texel of level 0, given by column and row, and a number of channels.
    Fetch((u32, u32), usize),
    /// Like `Fetch`, if the microcache has the cell.
    FetchLocal((u32, u32), usize),
    /// Asks whether the microcache has the cell of a texel of level 0, given by column and row.
    HasLocal((u32, u32)),
    /// Lets the pass keep the record.
    Keep,
    /// Takes the kept record of a file out of the pass.
    Local(u32),
}

/// The answer of a call.
#[derive(Clone, Copy, PartialEq, Eq)]
pub(crate) enum Answer {
    /// The generation.
    Of(u32),
    /// The generation and the channels of a region.
    Texels(u32, u32),
    /// The generation, width, height, channels, bits, stored levels and levels of a file.
    Facts([u32; 7]),
    /// Column, row, width and height.
    Rectangle([u32; 4]),
    /// The tiles and the pins of a shard, the bytes of its unpinned tiles, and their limit.
    Shard([u64; 4]),
    Released,
    /// All known files were checked.
    Known,
    /// The texel was fetched, or the microcache has it.
    There,
    /// No generation, no tile at that place, or no record.
    Nothing,
    /// The generation, and the number of the file fault.
    BadFile(u32, u32),
    TileTooLarge(u32),
    /// The generation, and the number of levels.
    NoLevel(u32, u32),
    Outside(u32),
    /// How many lookups of a batch were answered before an error, and on which generation.
    Stopped(u64, u32),
    RegionTooLarge,
    HoldsFull,
    Again(u32, u32),
    ReadFault,
    /// The waiter gave up on a lock.
    Busy,
    /// Out of memory, or a call that cannot be made.
    Other,
}

/// The answer for an error.
pub(crate) fn refusal<B: Drop>(e: CacheError<B>) -> Answer {
    match e {
        CacheError::BadFile { generation, fault } => Answer::BadFile(generation, fault.code()),
        CacheError::TileTooLarge { generation } => Answer::TileTooLarge(generation),
        CacheError::NoLevel { generation, levels } => Answer::NoLevel(generation, levels),
        CacheError::Outside { generation } => Answer::Outside(generation),
        CacheError::RegionTooLarge => Answer::RegionTooLarge,
        CacheError::HoldsFull => Answer::HoldsFull,
        CacheError::Again { from, to } => Answer::Again(from, to),
        CacheError::ReadFault => Answer::ReadFault,
        CacheError::Busy(_gave_up) => Answer::Busy,
        CacheError::NoMemory => Answer::Other,
    }
}
