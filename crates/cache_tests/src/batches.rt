//! Many lookups in one call, with values, needs and hits worked out by hand.
ghost use Rattle.std.specs.Prelude.{ℕ, ◌≡◌, ◌<◌, ◌≤◌};
ghost use Rattle.tex_world.specs.World.{IsFile};

use crate::asks::Answer;
use crate::asks::Answer::{Of, Stopped};
use crate::asks::Ask::Batch as Many;
use crate::batches::Places::{Middles, Nowhere, Tiles};
use crate::planned::{BROKEN, ONE_SHARD, PLAIN, RISING, steps_met};
use crate::small_files::{A, B};
use crate::steps::{CALLS, QUIET, Step};
use crate::worker::{BEFORE, Worker};
use std::test::Fail;
use tex_world::Tap;
use texel_filter::Filter::{Bilinear, Closest};
use texel_filter::Wrap::Clamp;
use texture_sys::{
    Batch, BatchOptions, FileLookups, FootprintOptions, LookupPoint, Lookups, PointOptions,
    texture_at,
};
use waiter::Waiter;

/// The most places of a batch.
const MOST: usize = 3;

/// The left upper corner, with a footprint of one point.
const CORNER: LookupPoint = LookupPoint {
    s: 0,
    t: 0,
    dsdx: 0,
    dtdx: 0,
    dsdy: 0,
    dtdy: 0,
};

/// The places of a batch.
#[derive(Clone, Copy)]
pub(crate) enum Places {
    Nowhere,
    /// The middle of `A`, where four texels have the mean 6553.5; 1/2^20 of the width to the left,
    /// where it is 6553.499; and 1/16 to the right, where it is 6617.75.
    Middles,
    /// In the texels (10, 5), (70, 5) and (3, 40) of `B`, each in another tile.
    Tiles,
}

// Places with these coordinates.
fn places_at(given: [(i64, i64); MOST]) -> [LookupPoint; MOST] {
    let mut places = [CORNER; MOST];
    for k in 0..MOST {
        places[k].s = given[k].0;
        places[k].t = given[k].1;
    }
    places
}

// The places, and how many there are.
fn places_of(places: Places) -> ([LookupPoint; MOST], usize)
    ensures { result.1 ≤ 3 }
{
    match places {
        Places::Nowhere => ([CORNER; MOST], 0),
        Places::Middles => {
            let middle = 2147483648;
            let given = [(middle, middle), (2147479552, middle), (2415919104, middle)];
            (places_at(given), MOST)
        }
        Places::Tiles => {
            let given = [
                (563714457, 492131669),
                (3784939929, 492131669),
                (187904819, 3623878656),
            ];
            (places_at(given), MOST)
        }
    }
}

impl<T: Tap> Worker<'_, T> {
    /// Looks up one value at each of at most three places.
    pub(crate) fn look_up_all<V: Waiter>(
        &mut self,
        waiter: &V,
        tap: usize,
        file: u32,
        options: BatchOptions,
        places: Places,
    ) -> Answer
        requires file { file < 5 }
        requires told { (file : ℕ) → file < 5 → IsFile T.W.files file }
        ensures { self.new.cache.now ≡ self.old.cache.now }
    {
        let Some(tap) = self.taps.get_mut(tap) else {
            return Answer::Other;
        };
        if options.channels() != 1 {
            return Answer::Other;
        }
        let (places, n) = places_of(places);
        let batch = Batch {
            options,
            places: &places[..n],
        };
        if batch.first_out_of_range().is_some() {
            return Answer::Other;
        }
        let lookups = Lookups::Many(batch);
        let at = FileLookups { file, lookups };
        let mut out = [BEFORE; MOST];
        let values = &mut out[..n];
        let answer = match texture_at(self.cache, waiter, &mut self.pass, tap, &at, values) {
            Ok(generation) => Of(generation),
            Err(stopped) => Stopped(stopped.done as u64, stopped.generation),
        };
        self.left(answer, &out[..n])
    }
}

const POINTS: BatchOptions = BatchOptions::Points(PointOptions {
    lod: 0,
    swrap: Clamp,
    twrap: Clamp,
    filter: Bilinear,
    nch: 1,
});

const NEAREST: BatchOptions = BatchOptions::Points(PointOptions {
    lod: 0,
    swrap: Clamp,
    twrap: Clamp,
    filter: Closest,
    nch: 1,
});

const FOOTPRINTS: BatchOptions = BatchOptions::Footprints(FootprintOptions {
    max_probes: 16,
    swrap: Clamp,
    twrap: Clamp,
    nch: 1,
});

// Each texel is a need, and all but the first hit.
static ANSWERED: &[Step] = &[
    (
        PLAIN,
        Many(A, POINTS, Middles),
        Of(1),
        &[6554, 6553, 6618],
        [12, 11, 1, 0],
        CALLS,
    ),
    (
        PLAIN,
        Many(A, FOOTPRINTS, Middles),
        Of(1),
        &[6554, 6553, 6618],
        [24, 23, 1, 0],
        QUIET,
    ),
    (
        PLAIN,
        Many(A, POINTS, Nowhere),
        Of(1),
        &[],
        [24, 23, 1, 0],
        QUIET,
    ),
];

// The second lookup fails: the first one stands, and nothing behind it is written.
static FAILED: &[Step] = &[
    (
        BROKEN,
        Many(B, NEAREST, Tiles),
        Stopped(1, 1),
        &[510, 7, 7],
        [2, 0, 1, 0],
        CALLS,
    ),
    (
        BROKEN,
        Many(B, NEAREST, Tiles),
        Of(1),
        &[510, 570, 4003],
        [5, 1, 1, 0],
        CALLS,
    ),
];

// The second lookup meets a newer generation; then all are answered on that one.
static REPLACED: &[Step] = &[
    (
        RISING,
        Many(B, NEAREST, Tiles),
        Stopped(1, 1),
        &[510, 7, 7],
        [2, 0, 2, 0],
        CALLS,
    ),
    (
        RISING,
        Many(B, NEAREST, Tiles),
        Of(2),
        &[511, 571, 4004],
        [5, 0, 2, 0],
        CALLS,
    ),
];

#[test]
fn batches_by_hand(rt: HostRuntime) -> Result<(), Fail> {
    let met = steps_met(rt.alloc(), ONE_SHARD, ANSWERED)?;
    assert_eq!(rt; met, ANSWERED.len(), "answered");
    let met = steps_met(rt.alloc(), ONE_SHARD, FAILED)?;
    assert_eq!(rt; met, FAILED.len(), "a read fails");
    let met = steps_met(rt.alloc(), ONE_SHARD, REPLACED)?;
    assert_eq!(rt; met, REPLACED.len(), "the file is replaced");
    Ok(())
}
