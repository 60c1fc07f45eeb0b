//! Callers over files in memory, with taps whose calls fail and whose files change as planned.
ghost use Rattle.std.specs.Prelude.{ℕ, ◌<◌, false};
ghost use Rattle.tex_world.specs.World.{IsFile};

use crate::folder::cache_of;
use crate::small_files::{A, B, SmallFiles};
use crate::steps::{Shows, Step};
use crate::worker::Worker;
use image_cache::Options;
use std::alloc::Global;
use std::test::Fail;
use tex_world::{FailByte, FailCall, Folder, MemFolder, MemTap, Newest, Plan, Rise, Tap};
use tiff_format::Cut;
use waiter::Tries;

/// The tap without a plan.
pub(crate) const PLAIN: usize = 0;

/// The tap for which the newest generation of `A` is 2.
pub(crate) const NEWER: usize = 1;

/// The tap whose first call fails.
pub(crate) const FAILING: usize = 2;

/// The tap whose first read of the samples of `A` fails.
pub(crate) const FAULTY: usize = 3;

/// The tap whose first read of the directory of `A` meets generation 2.
pub(crate) const CHANGED: usize = 4;

/// The tap whose first read of the samples of `A` meets generation 2.
pub(crate) const CHANGING: usize = 5;

/// The tap whose first read of the second tile of `B` meets generation 2.
pub(crate) const RISING: usize = 6;

/// The tap whose first read of the second tile of `B` fails.
pub(crate) const BROKEN: usize = 7;

/// The tap for which the newest generation of `A` is 2, and whose second call fails.
pub(crate) const HALTING: usize = 8;

// the places of the samples of `A`, and of two tiles of `B`
const SAMPLES: u64 = 122;

const SECOND_TILE: u64 = 12472;

const LAST_TILE: u64 = 37048;

// a byte of the number of entries of `A`
const ENTRIES: u64 = 9;

/// One shard with a budget for all tiles.
pub(crate) const ONE_SHARD: Options = Options {
    budget: 268435456,
    shards: 1,
    passes: 2,
    handles: 4,
    cut: Cut {
        autotile: 64,
        automip: false,
    },
    slots: 1024,
};

/// One shard with a budget of 0, so that only pinned tiles stay, and one idle handle.
pub(crate) const NO_BYTES: Options = Options {
    budget: 0,
    shards: 1,
    passes: 2,
    handles: 1,
    cut: Cut {
        autotile: 64,
        automip: false,
    },
    slots: 1024,
};

/// One shard with a budget of 1 byte, so that only pinned tiles stay.
pub(crate) const ONE_BYTE: Options = Options {
    budget: 1,
    shards: 1,
    passes: 2,
    handles: 4,
    cut: Cut {
        autotile: 64,
        automip: false,
    },
    slots: 1024,
};

fn rise(tap: u32, file: u32, at: u64) -> Rise {
    Rise {
        tap,
        file,
        at,
        to: 2,
    }
}

fn folder_of(alloc: Global) -> Result<MemFolder<SmallFiles>, Fail> {
    let mut plan = Plan::new(alloc);
    plan.newest.push(Newest {
        tap: 1,
        file: A,
        generation: 2,
    })?;
    plan.fail_calls.push(FailCall { tap: 2, call: 1 })?;
    plan.fail_bytes.push(FailByte {
        tap: 3,
        file: A,
        at: SAMPLES,
    })?;
    plan.rises.push(rise(4, A, ENTRIES))?;
    plan.rises.push(rise(5, A, SAMPLES))?;
    plan.rises.push(rise(6, B, SECOND_TILE))?;
    plan.fail_bytes.push(FailByte {
        tap: 7,
        file: B,
        at: SECOND_TILE,
    })?;
    plan.newest.push(Newest {
        tap: 8,
        file: A,
        generation: 2,
    })?;
    plan.fail_calls.push(FailCall { tap: 8, call: 2 })?;
    Ok(MemFolder::new(plan))
}

/// Makes the nine taps.
pub(crate) fn taps_of(alloc: Global) -> Result<Vec<MemTap<SmallFiles>>, Fail> {
    let mut folder = folder_of(alloc)?;
    let mut taps = Vec::new(alloc);
    for _ in 0..9 {
        taps.push(folder.tap(alloc)?)?;
    }
    Ok(taps)
}

/// Makes two taps. Each meets generation 2 of `B` when it first reads its last tile. For the
/// second, the newest generation of `A` is 2.
pub(crate) fn pair_of(alloc: Global) -> Result<(MemTap<SmallFiles>, MemTap<SmallFiles>), Fail> {
    let mut plan = Plan::new(alloc);
    plan.rises.push(rise(0, B, LAST_TILE))?;
    plan.rises.push(rise(1, B, LAST_TILE))?;
    plan.newest.push(Newest {
        tap: 1,
        file: A,
        generation: 2,
    })?;
    let mut folder = MemFolder::<SmallFiles>::new(plan);
    Ok((folder.tap(alloc)?, folder.tap(alloc)?))
}

// How many steps the first caller of a new cache of five files gets right, before the first wrong
// one. A single caller needs only one try.
fn met_by<T: Tap + Drop + Shows>(
    alloc: Global,
    options: Options,
    taps: Vec<T>,
    steps: &[Step],
) -> Result<usize, Fail>
    requires told { (file : ℕ) → file < 5 → IsFile T.W.files file }
{
    let (cache, pass) = cache_of(alloc, options, 5)?;
    let mut worker = Worker {
        cache: &cache,
        shards: options.shards,
        pass,
        taps,
        out: Vec::new(alloc),
        known: None,
    };
    Ok(worker.steps_met(&Tries::new(1), steps))
}

/// How many steps the first caller of a new cache over the files in memory gets right, before the
/// first wrong one.
pub(crate) fn steps_met(alloc: Global, options: Options, steps: &[Step]) -> Result<usize, Fail> {
    met_by(alloc, options, taps_of(alloc)?, steps)
}
