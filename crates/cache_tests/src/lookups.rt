//! Lookups through the cache, with values, needs and hits worked out by hand.
use crate::asks::Answer::{Facts, Nothing, Of};
use crate::asks::Ask::{Info, Texture, TextureLocal};
use crate::asks::Look;
use crate::planned::{ONE_SHARD, PLAIN, steps_met};
use crate::small_files::{A, B, TWO_LEVELS};
use crate::steps::{CALLS, QUIET, Step};
use std::test::Fail;
use texel_filter::Filter::{Bilinear, Closest, Trilinear};
use texel_filter::Wrap::{Black, Clamp, Mirror, Periodic};

// the middle of an image; for `A` the mean of 17, 18, 33 and 34, which is 6553.5
const MIDDLE: Look = ((32768, 32768, 0), Clamp, Bilinear, 1);

// One file with one level. Only the first lookup reads it.
static ONE_LEVEL: &[Step] = &[
    (
        PLAIN,
        TextureLocal(A, MIDDLE),
        Nothing,
        &[7],
        [0, 0, 0, 0],
        QUIET,
    ),
    (
        PLAIN,
        Texture(A, MIDDLE),
        Of(1),
        &[6554],
        [4, 3, 1, 0],
        CALLS,
    ),
    (
        PLAIN,
        TextureLocal(A, MIDDLE),
        Of(1),
        &[6554],
        [8, 7, 1, 0],
        QUIET,
    ),
    (
        PLAIN,
        Texture(A, MIDDLE),
        Of(1),
        &[6554],
        [12, 11, 1, 0],
        QUIET,
    ),
    // half of the last and half of the first texel of a row; `black` leaves texels out
    (
        PLAIN,
        Texture(A, ((0, 8192, 0), Periodic, Bilinear, 1)),
        Of(1),
        &[386],
        [16, 15, 1, 0],
        QUIET,
    ),
    (
        PLAIN,
        Texture(A, ((0, 8192, 0), Mirror, Bilinear, 1)),
        Of(1),
        &[0],
        [20, 19, 1, 0],
        QUIET,
    ),
    (
        PLAIN,
        Texture(A, ((65536, 8192, 0), Black, Bilinear, 1)),
        Of(1),
        &[386],
        [22, 21, 1, 0],
        QUIET,
    ),
    (
        PLAIN,
        TextureLocal(A, ((65536, 8192, 0), Clamp, Bilinear, 1)),
        Of(1),
        &[771],
        [26, 25, 1, 0],
        QUIET,
    ),
    (
        PLAIN,
        Texture(A, ((-1, 0, 0), Black, Closest, 2)),
        Of(1),
        &[0, 0],
        [26, 25, 1, 0],
        QUIET,
    ),
    // beyond the last level
    (
        PLAIN,
        Texture(A, ((32768, 32768, 4294967295), Clamp, Closest, 1)),
        Of(1),
        &[8738],
        [27, 26, 1, 0],
        QUIET,
    ),
    (
        PLAIN,
        Texture(A, ((32768, 32768, 98304), Clamp, Trilinear, 1)),
        Of(1),
        &[6554],
        [31, 30, 1, 0],
        QUIET,
    ),
];

// The middle of level 0 is the corner of 3, 4, 5 and 6: the mean of their values is 1156.5. In
// level 1 it is the corner of 200 and 100, whose mean is 38550.
static LEVELS: &[Step] = &[
    (
        PLAIN,
        Texture(TWO_LEVELS, ((32768, 32768, 0), Clamp, Closest, 1)),
        Of(1),
        &[1542],
        [1, 0, 1, 0],
        CALLS,
    ),
    (
        PLAIN,
        Texture(TWO_LEVELS, ((32768, 32768, 32767), Clamp, Closest, 1)),
        Of(1),
        &[1542],
        [2, 1, 1, 0],
        QUIET,
    ),
    (
        PLAIN,
        Texture(TWO_LEVELS, ((32768, 32768, 32768), Clamp, Closest, 1)),
        Of(1),
        &[25700],
        [3, 1, 1, 0],
        CALLS,
    ),
    (
        PLAIN,
        Texture(TWO_LEVELS, ((32768, 32768, 4294967295), Clamp, Closest, 1)),
        Of(1),
        &[25700],
        [4, 2, 1, 0],
        QUIET,
    ),
    (
        PLAIN,
        Texture(TWO_LEVELS, MIDDLE),
        Of(1),
        &[1157],
        [8, 6, 1, 0],
        QUIET,
    ),
    (
        PLAIN,
        Texture(TWO_LEVELS, ((32768, 32768, 65536), Clamp, Bilinear, 1)),
        Of(1),
        &[38550],
        [12, 10, 1, 0],
        QUIET,
    ),
    // an eighth of the way from 3 to 4: 803.125
    (
        PLAIN,
        Texture(TWO_LEVELS, ((20480, 24576, 0), Clamp, Bilinear, 1)),
        Of(1),
        &[803],
        [16, 14, 1, 0],
        QUIET,
    ),
    // halfway, and a quarter of the way, between the levels: 19853.25 and 10504.875
    (
        PLAIN,
        Texture(TWO_LEVELS, ((32768, 32768, 32768), Clamp, Trilinear, 1)),
        Of(1),
        &[19853],
        [24, 22, 1, 0],
        QUIET,
    ),
    (
        PLAIN,
        TextureLocal(TWO_LEVELS, ((32768, 32768, 16384), Clamp, Trilinear, 1)),
        Of(1),
        &[10505],
        [32, 30, 1, 0],
        QUIET,
    ),
    // only level 0, and only the last level
    (
        PLAIN,
        Texture(TWO_LEVELS, ((32768, 32768, 0), Clamp, Trilinear, 1)),
        Of(1),
        &[1157],
        [36, 34, 1, 0],
        QUIET,
    ),
    (
        PLAIN,
        Texture(
            TWO_LEVELS,
            ((32768, 32768, 4294967295), Clamp, Trilinear, 1),
        ),
        Of(1),
        &[38550],
        [40, 38, 1, 0],
        QUIET,
    ),
];

// 16/65536 more than halfway from column 63 to 64 in row 1: channel 0 is 163.500244
const SEAM: Look = ((52429, 2048, 0), Clamp, Bilinear, 3);

// just as near to the corner of all four cells: channel 0 is 3213.524658
const CORNER: Look = ((52429, 43691, 0), Clamp, Bilinear, 3);

const FIRST: Look = ((0, 0, 0), Clamp, Closest, 8);

// The comment of a step names the cells that are then in the microcache, the latest first.
static CELLS: &[Step] = &[
    (
        PLAIN,
        Texture(B, SEAM),
        Of(1),
        &[164, 20164, 40164],
        [4, 2, 1, 0], // 1 0
        CALLS,
    ),
    (
        PLAIN,
        TextureLocal(B, SEAM),
        Of(1),
        &[164, 20164, 40164],
        [8, 6, 1, 0], // 1 0
        QUIET,
    ),
    (
        PLAIN,
        TextureLocal(B, CORNER),
        Nothing,
        &[7, 7, 7],
        [8, 6, 1, 0], // 1 0
        QUIET,
    ),
    (
        PLAIN,
        Texture(B, CORNER),
        Of(1),
        &[3214, 23214, 43214],
        [12, 8, 1, 0], // 3 2
        CALLS,
    ),
    // the shard has all four cells
    (
        PLAIN,
        Texture(B, CORNER),
        Of(1),
        &[3214, 23214, 43214],
        [16, 8, 1, 0], // 3 2
        QUIET,
    ),
    (
        PLAIN,
        TextureLocal(B, CORNER),
        Nothing,
        &[7, 7, 7],
        [16, 8, 1, 0], // 3 2
        QUIET,
    ),
    // a channel that the file lacks
    (
        PLAIN,
        Texture(B, ((52429, 2048, 0), Clamp, Bilinear, 4)),
        Of(1),
        &[164, 20164, 40164, 0],
        [20, 10, 1, 0], // 1 0
        QUIET,
    ),
    (
        PLAIN,
        Texture(B, FIRST),
        Of(1),
        &[0, 20000, 40000, 0, 0, 0, 0, 0],
        [21, 11, 1, 0], // 0 1
        QUIET,
    ),
    // the pass keeps the record of another file
    (
        PLAIN,
        Info(A),
        Facts([1, 4, 4, 1, 8, 1, 1]),
        &[],
        [21, 11, 1, 0],
        CALLS,
    ),
    (
        PLAIN,
        TextureLocal(B, FIRST),
        Nothing,
        &[7, 7, 7, 7, 7, 7, 7, 7],
        [21, 11, 1, 0], // 0 1
        QUIET,
    ),
    (
        PLAIN,
        Texture(B, FIRST),
        Of(1),
        &[0, 20000, 40000, 0, 0, 0, 0, 0],
        [22, 12, 1, 0], // 0 1
        QUIET,
    ),
    (
        PLAIN,
        TextureLocal(B, FIRST),
        Of(1),
        &[0, 20000, 40000, 0, 0, 0, 0, 0],
        [23, 13, 1, 0], // 0 1
        QUIET,
    ),
];

#[test]
fn lookups_by_hand(rt: HostRuntime) -> Result<(), Fail> {
    let met = steps_met(rt.alloc(), ONE_SHARD, ONE_LEVEL)?;
    assert_eq!(rt; met, ONE_LEVEL.len(), "one level");
    let met = steps_met(rt.alloc(), ONE_SHARD, LEVELS)?;
    assert_eq!(rt; met, LEVELS.len(), "two levels");
    let met = steps_met(rt.alloc(), ONE_SHARD, CELLS)?;
    assert_eq!(rt; met, CELLS.len(), "cells");
    Ok(())
}
