//! The options of a new cache.
ghost use Rattle.std.specs.Prelude.{◌≡◌, ◌≤◌, None};
ghost use Rattle.shard_gate.specs.Gate.{max_budget, max_permits};
ghost use Rattle.image_cache.specs.Options.{first_bad, first_bad_within, first_bad_large};
ghost use Rattle.image_cache.specs.Options.{permits_of, opened_as, IsWithin};

use shard_gate::{MORE_SLOTS, PINS_PER_PERMIT};
use tex_world::NoMemory;
use thiserror::Error;
use tiff_format::{AUTOTILE_STEP, Cut, MAX_AUTOTILE};
use tile_slots::MAX_SLOTS;

/// The options of a new cache.
#[derive(Clone, Copy, Debug, PartialEq, Eq)]
pub struct Options {
    /// The most bytes of unpinned tiles, 0 to 4294967296.
    pub budget: u64,
    /// The number of shards, 1 to 64.
    pub shards: u32,
    /// The greatest number of passes at one time, 1 to 16.
    pub passes: u32,
    /// The greatest number of idle handles, 1 to 1024.
    pub handles: u32,
    /// The cut: how levels are divided into cells, and whether smaller ones are generated.
    pub cut: Cut,
    /// The number of slots for parts of rows whose tiles find no memory, 0 to 65536.
    pub slots: u32,
}

/// The options of a new cache with more passes, a larger budget or larger shards.
#[derive(Clone, Copy, Debug, PartialEq, Eq)]
pub struct LargeOptions {
    /// The other options. The budget may be up to 2^40 bytes, and there may be up to 1024 passes.
    pub options: Options,
    /// How many tiles each shard can keep, up to 65536. If it keeps 1024 and 7 for each pass anyway,
    /// smaller numbers change nothing; 0 is the default.
    pub tiles_per_shard: u32,
}

/// Why no cache was made.
#[derive(Clone, Copy, Debug, PartialEq, Eq, Error)]
pub enum NewError {
    /// The number of the first option that is out of range: 1 budget, 2 shards, 3 passes, 4
    /// handles, 5 autotile, 6 slots, 7 tiles per shard.
    #[error("BadOptions")]
    BadOptions(u32),
    /// Out of memory.
    #[error("NoMemory")]
    NoMemory,
}

impl From<NoMemory> for NewError {
    ghost use Rattle.std.specs.Prelude.{◌≡◌};
    ghost use Rattle.image_cache.specs.declared.options.NewError.TheVariants.{NoMemory};

    ghost from_gives = { λ _ e. e ≡ NoMemory };

    fn from(_e: NoMemory) -> NewError {
        NewError::NoMemory
    }
}

/// The ranges that differ between usual and large caches.
#[derive(Clone, Copy, Debug)]
struct Limits {
    budget: u64,
    passes: u32,
}

const USUAL: Limits = Limits {
    budget: 1 << 32,
    passes: 16,
};

const LARGE: Limits = Limits {
    budget: 1 << 40,
    passes: 1024,
};

const MAX_SHARDS: u32 = 64;

const MAX_HANDLES: u32 = 1024;

const MAX_TILES_PER_SHARD: u32 = 65536;

impl Options {
    /// The number of the first option that is out of the usual range.
    pub(crate) fn first_bad(&self) -> Option<u32>
        ensures value { result ≡ first_bad self.now }
        ensures within { result ≡ None → IsWithin self.now }
    {
        self.first_bad_within(USUAL)
    }

    fn first_bad_within(&self, limits: Limits) -> Option<u32>
        requires budget { limits.budget ≤ max_budget }
        requires passes { limits.passes ≤ max_permits }
        ensures value { result ≡ first_bad_within limits.budget limits.passes self.now }
        ensures within { result ≡ None → IsWithin self.now }
        ensures few { result ≡ None → self.now.passes ≤ limits.passes }
    {
        if self.budget > limits.budget {
            return Some(1);
        }
        if self.shards < 1 || MAX_SHARDS < self.shards {
            return Some(2);
        }
        if self.passes < 1 || limits.passes < self.passes {
            return Some(3);
        }
        if self.handles < 1 || MAX_HANDLES < self.handles {
            return Some(4);
        }
        let side = self.cut.autotile;
        if MAX_AUTOTILE < side || side % AUTOTILE_STEP != 0 {
            return Some(5);
        }
        if MAX_SLOTS < self.slots {
            return Some(6);
        }
        None
    }
}

impl LargeOptions {
    /// The number of the first option that is out of range.
    pub(crate) fn first_bad(&self) -> Option<u32>
        ensures value { result ≡ first_bad_large self.now }
        ensures within { result ≡ None → IsWithin (opened_as self.now) }
    {
        if let Some(bad) = self.options.first_bad_within(LARGE) {
            return Some(bad);
        }
        if MAX_TILES_PER_SHARD < self.tiles_per_shard {
            return Some(7);
        }
        None
    }

    /// The options with which the parts of the cache are made: with enough permits for its passes
    /// and for the slots of its shards.
    pub(crate) fn opened(&self) -> Options
        ensures { result ≡ opened_as self.now }
    {
        let more = self.tiles_per_shard.saturating_sub(MORE_SLOTS);
        Options {
            passes: self.options.passes.max(more.div_ceil(PINS_PER_PERMIT)),
            ..self.options
        }
    }
}
