//! The answer of a call to C: a code, and the numbers that go with it.
ghost use Rattle.std.specs.Prelude.{◌≡◌};
ghost use Rattle.supplied_client.specs.Answer.{SaysNeed};
ghost use Rattle.supplied_client.specs.Answer as said;
ghost use Rattle.supplied_client.specs.Code as spec;

use image_cache::CacheError;
use supplied_tap::{Need, SupplyError};
use tiff_format::TiffFault;

/// The call is answered.
pub const ANSWERED: u32 = 0;

/// The call needs bytes or a freshness check. Supply it and call again: the same call goes on.
pub const NEEDED: u32 = 1;

/// An option is out of its range.
pub const BAD_OPTIONS: u32 = 2;

/// No file has this number.
pub const NO_FILE: u32 = 3;

/// A number of the request is out of its range.
pub const BAD_REQUEST: u32 = 4;

/// The buffer is too small.
pub const SMALL_BUFFER: u32 = 5;

/// The pass has only one permit left, so it cannot be split.
pub const NO_PERMIT: u32 = 6;

/// The microcache does not have every cell that the lookup needs.
pub const NOT_LOCAL: u32 = 7;

/// The pass holds no tile at that place.
pub const NOTHING_HELD: u32 = 8;

/// The shard or the row does not exist.
pub const NO_PART: u32 = 9;

/// Out of memory.
pub const NO_MEMORY: u32 = 18;

/// The waiter gave up on a lock.
pub const BUSY: u32 = 19;

/// What a call answers besides its code. Fields that do not apply are 0.
#[repr(C)]
#[derive(Clone, Copy, Debug, PartialEq, Eq)]
pub struct TexAnswer {
    /// The generation that was answered, or for which the call failed.
    pub generation: u32,
    /// The newer generation that was met.
    pub newer: u32,
    /// The number of the file fault, the number of the bad option, or the number of levels.
    pub detail: u32,
    /// The tag or the level that the file fault names.
    pub part: u32,
    /// The value or the index that the file fault names, or the number of values.
    pub value: u64,
    /// The number of values per texel.
    pub channels: u32,
    /// What the call needs: 0 nothing, 1 a freshness check of a file, 2 bytes of it, 3 rows of it.
    pub need: u32,
    pub need_file: u32,
    /// The least generation that the check must show, or the generation whose bytes are needed.
    pub need_generation: u32,
    pub need_at: u64,
    /// The least and the greatest number of bytes to supply.
    pub need_least: u64,
    pub need_most: u64,
    /// For rows: the distance from one row to the next, and the length of a row, in bytes.
    pub need_stride: u64,
    pub need_row: u64,
}

impl TexAnswer {
    /// An answer with all fields 0.
    pub fn blank() -> TexAnswer
        ensures { result ≡ said.blank }
    {
        TexAnswer {
            generation: 0,
            newer: 0,
            detail: 0,
            part: 0,
            value: 0,
            channels: 0,
            need: 0,
            need_file: 0,
            need_generation: 0,
            need_at: 0,
            need_least: 0,
            need_most: 0,
            need_stride: 0,
            need_row: 0,
        }
    }

    /// An answer that names this generation.
    pub fn of(generation: u32) -> TexAnswer
        ensures { result ≡ said.of_generation generation }
    {
        TexAnswer {
            generation,
            ..TexAnswer::blank()
        }
    }

    /// An answer that names what the call needs.
    pub fn of_need(need: Need) -> TexAnswer
        ensures { SaysNeed result need }
    {
        match need {
            Need::Look { file, least } => TexAnswer {
                need: 1,
                need_file: file,
                need_generation: least,
                ..TexAnswer::blank()
            },
            Need::Bytes {
                file,
                generation,
                at,
                least,
                most,
            } => TexAnswer {
                need: 2,
                need_file: file,
                need_generation: generation,
                need_at: at,
                need_least: least,
                need_most: most,
                ..TexAnswer::blank()
            },
            Need::Rows { rows, size } => TexAnswer {
                need: 3,
                need_file: rows.file,
                need_generation: rows.generation,
                need_at: rows.at,
                need_least: size,
                need_most: size,
                need_stride: rows.stride,
                need_row: rows.row,
                ..TexAnswer::blank()
            },
        }
    }

    /// The numbers that go with an error.
    pub fn of_refusal<B>(e: &CacheError<B>) -> TexAnswer
        ensures { result ≡ said.of_refusal e.now }
    {
        match e {
            CacheError::BadFile { generation, fault } => of_fault(*generation, fault),
            CacheError::TileTooLarge { generation } => TexAnswer::of(*generation),
            CacheError::NoLevel { generation, levels } => TexAnswer {
                detail: *levels,
                ..TexAnswer::of(*generation)
            },
            CacheError::Outside { generation } => TexAnswer::of(*generation),
            CacheError::Again { from, to } => TexAnswer {
                newer: *to,
                ..TexAnswer::of(*from)
            },
            CacheError::RegionTooLarge
            | CacheError::HoldsFull
            | CacheError::ReadFault
            | CacheError::NoMemory
            | CacheError::Busy(_) => TexAnswer::blank(),
        }
    }
}

/// The numbers that go with a file fault.
fn of_fault(generation: u32, fault: &TiffFault) -> TexAnswer
    ensures { result ≡ said.answer_of_fault generation fault.now }
{
    TexAnswer {
        detail: fault.code(),
        part: part_of(fault),
        value: value_of(fault),
        ..TexAnswer::of(generation)
    }
}

/// The tag or the level that a file fault names; 0 if none.
fn part_of(fault: &TiffFault) -> u32
    ensures { result ≡ said.part_of fault.now }
{
    match fault {
        TiffFault::FieldMissing { tag } => *tag,
        TiffFault::FieldShape { tag } => *tag,
        TiffFault::Unsupported { tag, .. } => *tag,
        TiffFault::DataOutside { level, .. } => *level,
        _ => 0,
    }
}

/// The value or the index that a file fault names; 0 if none.
fn value_of(fault: &TiffFault) -> u64
    ensures { result ≡ said.value_of fault.now }
{
    match fault {
        TiffFault::Unsupported { value, .. } => *value,
        TiffFault::DataOutside { index, .. } => u64::from(*index),
        _ => 0,
    }
}

/// The code of an error, 10 to 19.
pub fn code_of<B>(e: &CacheError<B>) -> u32
    ensures { result ≡ spec.code_of e.now }
{
    match e {
        CacheError::BadFile { .. } => 10,
        CacheError::TileTooLarge { .. } => 11,
        CacheError::NoLevel { .. } => 12,
        CacheError::Outside { .. } => 13,
        CacheError::RegionTooLarge => 14,
        CacheError::HoldsFull => 15,
        CacheError::Again { .. } => 16,
        CacheError::ReadFault => 17,
        CacheError::NoMemory => NO_MEMORY,
        CacheError::Busy(_) => BUSY,
    }
}

/// The code of a supply that was not accepted, from 20 up.
pub fn supply_code_of(e: SupplyError) -> u32
    ensures { result ≡ spec.supply_code_of e }
{
    match e {
        SupplyError::NotNeeded => 20,
        SupplyError::OtherPlace => 21,
        SupplyError::Older => 22,
        SupplyError::OtherGeneration => 23,
        SupplyError::Short => 24,
        SupplyError::Long => 25,
        SupplyError::NoMemory => NO_MEMORY,
    }
}
