//! Regions, holds, shards and file facts when nothing fails: values, needs and hits, what the pass
//! has seen, and whether its tap was called.
use crate::asks::Answer::{
    Facts, HoldsFull, NoLevel, Nothing, Of, Outside, Rectangle, RegionTooLarge, Released, Shard,
    Texels,
};
use crate::asks::Ask::{Count, Held, Hold, Info, Pixels, Release};
use crate::planned::{ONE_SHARD, PLAIN, steps_met};
use crate::small_files::{A, B, SHORT};
use crate::steps::{CALLS, QUIET, Step};
use std::test::Fail;

// Regions around the corner of all four cells of `B`, whose tiles take 12288, 3072, 6144 and 1536
// bytes. The comment of a step names the cells that are then in the microcache, the latest first.
static REGIONS: &[Step] = &[
    (
        PLAIN,
        Pixels(B, (0, 63, 31), (2, 2)),
        Texels(1, 3),
        &[
            7, 3163, 23163, 43163, 3164, 23164, 43164, 3263, 23263, 43263, 3264, 23264, 43264,
        ],
        [4, 0, 1, 0], // 3 2
        CALLS,
    ),
    // cells 0 and 1 have no pin
    (
        PLAIN,
        Count(0),
        Shard([4, 2, 15360, 268435456]),
        &[],
        [4, 0, 0, 0],
        QUIET,
    ),
    // the shard has all tiles
    (
        PLAIN,
        Pixels(B, (0, 63, 31), (2, 2)),
        Texels(1, 3),
        &[
            7, 3163, 23163, 43163, 3164, 23164, 43164, 3263, 23263, 43263, 3264, 23264, 43264,
        ],
        [8, 0, 1, 0], // 3 2
        QUIET,
    ),
    // beyond the right edge
    (
        PLAIN,
        Pixels(B, (0, 79, 47), (2, 1)),
        Texels(1, 3),
        &[7, 4779, 24779, 44779, 0, 0, 0],
        [9, 1, 1, 0], // 3 2
        QUIET,
    ),
    // beyond the left and the upper edge
    (
        PLAIN,
        Pixels(B, (0, -1, -1), (2, 2)),
        Texels(1, 3),
        &[7, 0, 0, 0, 0, 0, 0, 0, 0, 0, 0, 20000, 40000],
        [10, 1, 1, 0], // 0 3
        QUIET,
    ),
    // outside the level, and without texels
    (
        PLAIN,
        Pixels(B, (0, 80, 0), (1, 1)),
        Texels(1, 3),
        &[7, 0, 0, 0],
        [10, 1, 1, 0], // 0 3
        QUIET,
    ),
    (
        PLAIN,
        Pixels(B, (0, 0, 0), (0, 9)),
        Texels(1, 3),
        &[7],
        [10, 1, 1, 0],
        QUIET,
    ),
    (
        PLAIN,
        Info(B),
        Facts([1, 80, 48, 3, 16, 1, 1]),
        &[],
        [10, 1, 1, 0],
        QUIET,
    ),
    // the first cell of another file
    (
        PLAIN,
        Pixels(A, (0, 1, 2), (2, 2)),
        Texels(1, 1),
        &[7, 8481, 8738, 12593, 12850],
        [11, 1, 1, 0], // A B0
        CALLS,
    ),
    (
        PLAIN,
        Info(A),
        Facts([1, 4, 4, 1, 8, 1, 1]),
        &[],
        [11, 1, 1, 0],
        QUIET,
    ),
    (
        PLAIN,
        Pixels(B, (0, 0, 1), (1, 1)),
        Texels(1, 3),
        &[7, 100, 20100, 40100],
        [12, 2, 1, 0], // B0 A
        QUIET,
    ),
    // errors: the size of the region is checked first, then the level
    (
        PLAIN,
        Pixels(SHORT, (9, 0, 0), (1025, 1024)),
        RegionTooLarge,
        &[7],
        [12, 2, 0, 0],
        QUIET,
    ),
    (
        PLAIN,
        Pixels(A, (1, 0, 0), (1024, 1024)),
        NoLevel(1, 1),
        &[7],
        [12, 2, 1, 0],
        QUIET,
    ),
];

// All four cells of `B` are held, and a fifth hold fails.
static HOLDS: &[Step] = &[
    (PLAIN, Release(0), Nothing, &[], [0, 0, 0, 0], QUIET),
    (PLAIN, Held(0), Nothing, &[], [0, 0, 0, 0], QUIET),
    (PLAIN, Hold(B, (0, 0, 0)), Of(1), &[], [0, 0, 1, 1], CALLS),
    (PLAIN, Hold(B, (0, 64, 0)), Of(1), &[], [0, 0, 1, 2], CALLS),
    (PLAIN, Hold(B, (0, 63, 32)), Of(1), &[], [0, 0, 1, 3], CALLS),
    (PLAIN, Hold(B, (0, 79, 47)), Of(1), &[], [0, 0, 1, 4], CALLS),
    (
        PLAIN,
        Hold(B, (0, 0, 0)),
        HoldsFull,
        &[],
        [0, 0, 1, 4],
        QUIET,
    ),
    // this error comes before anything about the file
    (
        PLAIN,
        Hold(SHORT, (9, 9, 9)),
        HoldsFull,
        &[],
        [0, 0, 0, 4],
        QUIET,
    ),
    (
        PLAIN,
        Count(0),
        Shard([4, 4, 0, 268435456]),
        &[],
        [0, 0, 0, 4],
        QUIET,
    ),
    (
        PLAIN,
        Held(0),
        Rectangle([0, 0, 64, 32]),
        &[],
        [0, 0, 0, 4],
        QUIET,
    ),
    (
        PLAIN,
        Held(1),
        Rectangle([64, 0, 16, 32]),
        &[],
        [0, 0, 0, 4],
        QUIET,
    ),
    (
        PLAIN,
        Held(2),
        Rectangle([0, 32, 64, 16]),
        &[],
        [0, 0, 0, 4],
        QUIET,
    ),
    (
        PLAIN,
        Held(3),
        Rectangle([64, 32, 16, 16]),
        &[],
        [0, 0, 0, 4],
        QUIET,
    ),
    // a hold in the middle is released, and the later ones move up
    (PLAIN, Release(1), Released, &[], [0, 0, 0, 3], QUIET),
    (PLAIN, Release(3), Nothing, &[], [0, 0, 0, 3], QUIET),
    (
        PLAIN,
        Held(1),
        Rectangle([0, 32, 64, 16]),
        &[],
        [0, 0, 0, 3],
        QUIET,
    ),
    (
        PLAIN,
        Held(2),
        Rectangle([64, 32, 16, 16]),
        &[],
        [0, 0, 0, 3],
        QUIET,
    ),
    (
        PLAIN,
        Count(0),
        Shard([4, 3, 3072, 268435456]),
        &[],
        [0, 0, 0, 3],
        QUIET,
    ),
    // one cell is held twice, with a pin each time
    (PLAIN, Hold(B, (0, 5, 5)), Of(1), &[], [0, 0, 1, 4], QUIET),
    (
        PLAIN,
        Held(3),
        Rectangle([0, 0, 64, 32]),
        &[],
        [0, 0, 0, 4],
        QUIET,
    ),
    (
        PLAIN,
        Count(0),
        Shard([4, 4, 3072, 268435456]),
        &[],
        [0, 0, 0, 4],
        QUIET,
    ),
    // the microcache and the holds have separate pins
    (
        PLAIN,
        Pixels(B, (0, 0, 0), (1, 1)),
        Texels(1, 3),
        &[7, 0, 20000, 40000],
        [1, 0, 1, 4],
        QUIET,
    ),
    (
        PLAIN,
        Count(0),
        Shard([4, 5, 3072, 268435456]),
        &[],
        [1, 0, 0, 4],
        QUIET,
    ),
    (PLAIN, Release(0), Released, &[], [1, 0, 0, 3], QUIET),
    (PLAIN, Release(0), Released, &[], [1, 0, 0, 2], QUIET),
    (PLAIN, Release(0), Released, &[], [1, 0, 0, 1], QUIET),
    (PLAIN, Release(0), Released, &[], [1, 0, 0, 0], QUIET),
    (PLAIN, Release(0), Nothing, &[], [1, 0, 0, 0], QUIET),
    (
        PLAIN,
        Count(0),
        Shard([4, 1, 10752, 268435456]),
        &[],
        [1, 0, 0, 0],
        QUIET,
    ),
    // the level is checked before the texel
    (
        PLAIN,
        Hold(A, (1, 9, 9)),
        NoLevel(1, 1),
        &[],
        [1, 0, 1, 0],
        CALLS,
    ),
    (
        PLAIN,
        Hold(A, (0, 4, 0)),
        Outside(1),
        &[],
        [1, 0, 1, 0],
        QUIET,
    ),
    (
        PLAIN,
        Hold(A, (0, 0, 4)),
        Outside(1),
        &[],
        [1, 0, 1, 0],
        QUIET,
    ),
    (PLAIN, Hold(A, (0, 3, 3)), Of(1), &[], [1, 0, 1, 1], CALLS),
];

#[test]
fn regions_and_holds(rt: HostRuntime) -> Result<(), Fail> {
    let met = steps_met(rt.alloc(), ONE_SHARD, REGIONS)?;
    assert_eq!(rt; met, REGIONS.len(), "regions");
    let met = steps_met(rt.alloc(), ONE_SHARD, HOLDS)?;
    assert_eq!(rt; met, HOLDS.len(), "holds");
    Ok(())
}
