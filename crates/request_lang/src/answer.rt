//! The answer to a request, from which its line is printed.

ghost use Rattle.std.specs.Prelude.{◌≡◌, ◌≤◌, List, ℕ, length, take};
ghost use Rattle.tiff_format.specs.Limits.{max_channels};
ghost use Rattle.request_lang.specs.Appending.{max_shards};

use std::marker::Model;
use tiff_format::{Info, MAX_CHANNELS, Rect, ShardCount, TiffFault};

/// Where values are stored: a few of them in place, which suffices for lookups, others in a vector.
#[derive(Drop)]
enum Kept {
    Few([u16; MAX_CHANNELS], usize),
    Many(Vec<u16>),
}

/// 16-bit values. Clauses see them as a list. A few values are stored without allocating.
#[derive(Drop)]
pub struct Values {
    kept: Kept,
}

impl Model for Values {
    ghost use Rattle.std.specs.Prelude.{List, ℕ};
    ghost use Rattle.request_lang.specs.KeptValues.{kept_values, IsKept};

    ghost Value = { List ℕ };

    ghost view = { λ values. kept_values values.kept };

    ghost invariant = { λ values. IsKept values.kept };
}

impl Values {
    /// The values in this vector.
    pub fn new(items: Vec<u16>) -> Values
        ensures { result ≡ items.items }
    {
        Values {
            kept: Kept::Many(items),
        }
    }

    /// The first `count` of these values. Allocates nothing.
    pub fn few(places: [u16; MAX_CHANNELS], count: usize) -> Values
        requires { count ≤ max_channels }
        ensures { result ≡ take count places }
    {
        Values {
            kept: Kept::Few(places, count),
        }
    }

    /// The values as a slice.
    pub fn as_slice(&self) -> &[u16]
        ensures { result.now ≡ self.now }
    {
        match &self.kept {
            Kept::Few(places, count) => &places[..*count],
            Kept::Many(items) => items.as_slice(),
        }
    }
}

/// The counts of each shard, in order. Clauses see them as a list.
#[derive(Drop)]
pub struct Shards {
    counts: Vec<ShardCount>,
}

impl Model for Shards {
    ghost use Rattle.std.specs.Prelude.{List};
    ghost use Rattle.std.specs.Prelude.{◌≤◌, length};
    ghost use Rattle.tiff_format.specs.declared.shard_count.ShardCount.{ShardCount};
    ghost use Rattle.request_lang.specs.Appending.{max_shards};

    ghost Value = { List ShardCount };

    ghost view = { λ shards. shards.counts.items };

    ghost invariant = { λ shards. length shards.counts.items ≤ max_shards };
}

impl Shards {
    /// The counts in this vector, at most 64.
    pub fn new(counts: Vec<ShardCount>) -> Shards
        requires { length counts.items ≤ max_shards }
        ensures { result ≡ counts.items }
    {
        Shards { counts }
    }

    /// The counts as a slice.
    pub fn as_slice(&self) -> &[ShardCount]
        ensures value { result.now ≡ self.now }
        ensures few { length result.now ≤ max_shards }
    {
        self.counts.as_slice()
    }
}

/// The answer to a request: one line. `generation`, `from` and `to` are generations of the
/// request's file.
#[derive(Drop)]
pub enum Answer {
    /// One value per requested channel of a lookup.
    Tex {
        generation: u32,
        values: Values,
    },
    /// One value per requested channel of a lookup along a footprint.
    Texd {
        generation: u32,
        values: Values,
    },
    /// The values of a region, row by row, all channels of a texel together.
    Pixels {
        generation: u32,
        channels: u32,
        values: Values,
    },
    /// The size and the levels of a file.
    Info(Info),
    /// The worker now holds this cell.
    Held {
        generation: u32,
        rect: Rect,
    },
    /// The worker has released its oldest hold.
    Dropped,
    /// Nothing older than this generation is kept of the file.
    Invalidated {
        generation: u32,
    },
    /// What was kept of the file is dropped, and this generation is read from now on.
    Renewed {
        generation: u32,
    },
    /// `Invalidated` for each file that was opened so far.
    InvalidatedAll,
    /// The counts of each shard.
    Stat {
        shards: Shards,
    },
    /// The round has ended.
    Synced,
    /// The folder has no file with this name.
    NoSuchFile,
    /// The bytes of this generation have this fault.
    BadFile {
        generation: u32,
        fault: TiffFault,
    },
    /// One of the file's cells would take too many bytes.
    TileTooLarge {
        generation: u32,
    },
    /// The file has only this many levels.
    NoLevel {
        generation: u32,
        levels: u32,
    },
    /// The texel is outside the level.
    Outside {
        generation: u32,
    },
    /// The region has too many texels.
    RegionTooLarge,
    /// The worker already has as many holds as it may have.
    HoldsFull,
    /// The worker has nothing to release.
    NothingHeld,
    /// Generation `from` was used, and the newer `to` was met before everything was read.
    Again {
        from: u32,
        to: u32,
    },
    /// An I/O error; printed as `read fault`.
    ReadFault,
    /// Out of memory.
    NoMemory,
}

impl Answer {
    ghost use Rattle.request_lang.specs.Basis.{is_refusal};
    ghost use Rattle.request_lang.specs.Line.{values_in};

    /// The 16-bit values at the end of its line, if there are any.
    pub fn values(&self) -> &[u16]
        ensures { result.now ≡ values_in self.now }
    {
        match self {
            Answer::Tex { values, .. }
            | Answer::Texd { values, .. }
            | Answer::Pixels { values, .. } => values.as_slice(),
            _ => &[],
        }
    }

    /// Whether the answer is a refusal.
    pub fn is_refusal(&self) -> bool
        ensures { result ≡ is_refusal self.now }
    {
        match self {
            Answer::Tex { .. }
            | Answer::Texd { .. }
            | Answer::Pixels { .. }
            | Answer::Info(_)
            | Answer::Held { .. }
            | Answer::Dropped
            | Answer::Invalidated { .. }
            | Answer::Renewed { .. }
            | Answer::InvalidatedAll
            | Answer::Stat { .. }
            | Answer::Synced => false,
            Answer::NoSuchFile
            | Answer::BadFile { .. }
            | Answer::TileTooLarge { .. }
            | Answer::NoLevel { .. }
            | Answer::Outside { .. }
            | Answer::RegionTooLarge
            | Answer::HoldsFull
            | Answer::NothingHeld
            | Answer::Again { .. }
            | Answer::ReadFault
            | Answer::NoMemory => true,
        }
    }
}
