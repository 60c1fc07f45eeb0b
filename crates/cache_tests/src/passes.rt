//! Two passes of a cache, one of which is joined to the other.
ghost use Rattle.std.specs.Prelude.{ℕ, ◌≡◌, ◌<◌, length};
ghost use Rattle.tex_world.specs.World.{IsFile};
ghost use Rattle.tile_source.specs.Pass.{IsPassOf};

use crate::asks::Answer::{Again, Facts, Of, Shard, Texels};
use crate::asks::Ask::{Count, Hold, Info, Pixels};
use crate::folder::{cache_of, second_of};
use crate::planned::{CHANGED, ONE_SHARD, PLAIN, taps_of};
use crate::small_files::{A, B};
use crate::steps::{CALLS, QUIET, Shows, Step};
use crate::worker::Worker;
use image_cache::{Cache, Pass, SplitError};
use std::alloc::Global;
use std::test::Fail;
use tex_world::Tap;
use waiter::Tries;

// The tiles of `B` take 12288, 3072, 6144 and 1536 bytes. The first pass has cells 0 and 1 pinned
// in its microcache, and cell 2 by a hold.
static FIRST: &[Step] = &[
    (
        PLAIN,
        Pixels(B, (0, 63, 0), (2, 1)),
        Texels(1, 3),
        &[7, 63, 20063, 40063, 64, 20064, 40064],
        [2, 0, 1, 0],
        CALLS,
    ),
    (PLAIN, Hold(B, (0, 0, 32)), Of(1), &[], [2, 0, 1, 1], CALLS),
    (
        PLAIN,
        Count(0),
        Shard([3, 3, 0, 268435456]),
        &[],
        [2, 0, 0, 1],
        QUIET,
    ),
];

// The record of `B` is still kept after `carry`. The second pass has cell 3 pinned by a hold, and
// cell 1 in its microcache. Its tap meets a newer generation of `A`.
static SECOND: &[Step] = &[
    (
        PLAIN,
        Info(B),
        Facts([1, 80, 48, 3, 16, 1, 1]),
        &[],
        [0, 0, 1, 0],
        QUIET,
    ),
    (PLAIN, Hold(B, (0, 64, 32)), Of(1), &[], [0, 0, 1, 1], CALLS),
    (
        PLAIN,
        Pixels(B, (0, 64, 0), (1, 1)),
        Texels(1, 3),
        &[7, 64, 20064, 40064],
        [1, 0, 1, 1],
        QUIET,
    ),
    (
        PLAIN,
        Pixels(B, (0, 65, 0), (1, 1)),
        Texels(1, 3),
        &[7, 65, 20065, 40065],
        [2, 1, 1, 1],
        QUIET,
    ),
    (
        PLAIN,
        Count(0),
        Shard([4, 5, 0, 268435456]),
        &[],
        [2, 1, 0, 1],
        QUIET,
    ),
    (CHANGED, Info(A), Again(1, 2), &[], [2, 1, 2, 1], CALLS),
];

// The first pass after the other was joined to it.
static LAST: &[Step] = &[
    (
        PLAIN,
        Count(0),
        Shard([4, 3, 1536, 268435456]),
        &[],
        [4, 1, 2, 1],
        QUIET,
    ),
    (
        PLAIN,
        Info(A),
        Facts([2, 4, 4, 1, 8, 1, 1]),
        &[],
        [4, 1, 2, 1],
        CALLS,
    ),
];

/// The result of the test: why there is no third pass; how many steps each pass got right, and the
/// last steps; what the second pass has seen of `B` before and after `carry`; and what the first
/// has seen of `A` before and after the join.
#[derive(Clone, Copy)]
struct Ended {
    third: Option<SplitError>,
    met: [usize; 3],
    carried: Option<[u32; 2]>,
    joined: Option<[u32; 2]>,
}

// How many steps a pass got right, and the pass.
fn walked<T: Tap + Drop + Shows>(
    alloc: Global,
    cache: &Cache<T>,
    pass: Pass<T::W>,
    taps: Vec<T>,
    steps: &[Step],
) -> (usize, Pass<T::W>)
    requires pass { IsPassOf cache.now pass }
    requires files { cache.now.files.board.files ≡ 5 }
    requires shards { length cache.now.gate.id ≡ 1 }
    requires told { (file : ℕ) → file < 5 → IsFile T.W.files file }
    ensures { IsPassOf cache.now result.1 }
{
    let mut worker = Worker {
        cache,
        shards: 1,
        pass,
        taps,
        out: Vec::new(alloc),
        known: None,
    };
    let met = worker.steps_met(&Tries::new(1), steps);
    (met, worker.into_pass())
}

// The error of a third split, if it fails.
fn third<T: Tap>(cache: &Cache<T>, pass: &mut Pass<T::W>) -> Option<SplitError>
    requires { IsPassOf cache.now pass.old }
    ensures { IsPassOf cache.now pass.new }
{
    match cache.split(pass) {
        Ok(_third) => None,
        Err(e) => Some(e),
    }
}

// What a pass has seen of a file before and after `carry`.
fn carried<T: Tap>(
    cache: &Cache<T>,
    from: &mut Pass<T::W>,
    to: &mut Pass<T::W>,
    file: u32,
) -> Option<[u32; 2]>
    requires from { IsPassOf cache.now from.old }
    requires to { IsPassOf cache.now to.old }
    requires file { file < cache.now.files.board.files }
    ensures from { IsPassOf cache.now from.new }
    ensures to { IsPassOf cache.now to.new }
{
    let before = to.seen(file);
    match cache.carry(from, to) {
        Ok(()) => Some([before, to.seen(file)]),
        Err(_full) => None,
    }
}

// What a pass has seen of a file before and after another pass is joined to it.
fn joined<T: Tap>(
    cache: &Cache<T>,
    keep: &mut Pass<T::W>,
    other: Pass<T::W>,
    file: u32,
) -> Option<[u32; 2]>
    requires keep { IsPassOf cache.now keep.old }
    requires other { IsPassOf cache.now other }
    requires file { file < cache.now.files.board.files }
    ensures { IsPassOf cache.now keep.new }
{
    let before = keep.seen(file);
    match cache.join(&Tries::new(1), keep, other) {
        Ok(()) => Some([before, keep.seen(file)]),
        Err(_busy) => None,
    }
}

/// The taps of the first pass, of the second, and of the first at the end.
#[derive(Drop)]
struct Taps<T> {
    first: Vec<T>,
    second: Vec<T>,
    last: Vec<T>,
}

// Joins the second pass to the first, and returns what was seen.
fn ended_in<T: Tap + Drop + Shows>(
    alloc: Global,
    cache: &Cache<T>,
    mut pass: Pass<T::W>,
    mut other: Pass<T::W>,
    taps: Taps<T>,
) -> Ended
    requires pass { IsPassOf cache.now pass }
    requires other { IsPassOf cache.now other }
    requires files { cache.now.files.board.files ≡ 5 }
    requires shards { length cache.now.gate.id ≡ 1 }
    requires told { (file : ℕ) → file < 5 → IsFile T.W.files file }
{
    let Taps {
        first,
        second,
        last,
    } = taps;
    let third = third(cache, &mut pass);
    let (first_met, mut pass) = walked(alloc, cache, pass, first, FIRST);
    let carried = carried(cache, &mut pass, &mut other, B);
    let (second_met, other) = walked(alloc, cache, other, second, SECOND);
    let joined = joined(cache, &mut pass, other, A);
    let (last_met, _pass) = walked(alloc, cache, pass, last, LAST);
    Ended {
        third,
        met: [first_met, second_met, last_met],
        carried,
        joined,
    }
}

fn two_passes<T: Tap + Drop + Shows>(alloc: Global, taps: Taps<T>) -> Result<Ended, Fail>
    requires { (file : ℕ) → file < 5 → IsFile T.W.files file }
{
    let (cache, mut pass) = cache_of(alloc, ONE_SHARD, 5)?;
    let other = second_of(&cache, &mut pass)?;
    Ok(ended_in(alloc, &cache, pass, other, taps))
}

#[test]
fn a_pass_ends_in_another(rt: HostRuntime) -> Result<(), Fail> {
    let alloc = rt.alloc();
    let taps = Taps {
        first: taps_of(alloc)?,
        second: taps_of(alloc)?,
        last: taps_of(alloc)?,
    };
    let ended = two_passes(alloc, taps)?;
    assert!(rt; ended.third == Some(SplitError::NoPermit), "a third pass");
    let [first, second, last] = ended.met;
    assert_eq!(rt; first, FIRST.len(), "the first pass");
    assert_eq!(rt; second, SECOND.len(), "the second pass");
    assert_eq!(rt; last, LAST.len(), "the first pass at the end");
    assert!(rt; ended.carried == Some([0, 1]), "what is carried");
    assert!(rt; ended.joined == Some([0, 2]), "what is joined");
    Ok(())
}
