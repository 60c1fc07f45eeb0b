//! Generated levels: their values, the tiles that are then in the cache, and whether a tap was
//! called.
use crate::asks::Answer::{Again, Facts, NoLevel, Of, ReadFault, Shard, Texels};
use crate::asks::Ask;
use crate::asks::Ask::{Count, Hold, Info, Pixels};
use crate::planned::{BROKEN, ONE_SHARD, PLAIN, RISING, steps_met};
use crate::small_files::{A, B, TWO_LEVELS};
use crate::steps::{CALLS, QUIET, Step};
use image_cache::Options;
use std::test::Fail;
use tiff_format::Cut;

/// One shard with a budget for all tiles, and generated levels.
const GENERATED: Options = Options {
    cut: Cut {
        autotile: 64,
        automip: true,
    },
    ..ONE_SHARD
};

// the limit of unpinned tiles; the four tiles of `B` take 12288, 3072, 6144 and 1536 bytes
const SHARE: u64 = 268435456;

// Level 1 of `B` is 40 by 24, a single cell. Its texel (0, 0) is the mean of 0, 1, 100 and 101. The
// other channels are greater by 20000 and 40000.
const ONE: Ask = Pixels(B, (1, 0, 0), (1, 1));

/// The name of each case, and its steps.
static ROWS: &[(&str, &[Step])] = &[
    (
        "the tiles that it is made of stay, and none is made twice",
        &[
            (
                PLAIN,
                Pixels(B, (1, 0, 0), (2, 1)),
                Texels(1, 3),
                &[7, 51, 20051, 40051, 53, 20053, 40053],
                [1, 0, 1, 0],
                CALLS,
            ),
            (
                PLAIN,
                Count(0),
                Shard([5, 1, 23040, SHARE]),
                &[],
                [1, 0, 0, 0],
                QUIET,
            ),
            (
                PLAIN,
                Pixels(B, (2, 0, 0), (1, 1)),
                Texels(1, 3),
                &[7, 152, 20152, 40152],
                [2, 0, 1, 0],
                QUIET,
            ),
            (
                PLAIN,
                Pixels(B, (0, 79, 47), (1, 1)),
                Texels(1, 3),
                &[7, 4779, 24779, 44779],
                [3, 0, 1, 0],
                QUIET,
            ),
            (
                PLAIN,
                ONE,
                Texels(1, 3),
                &[7, 51, 20051, 40051],
                [4, 0, 1, 0],
                QUIET,
            ),
        ],
    ),
    (
        "beside four holds",
        &[
            (PLAIN, Hold(B, (0, 0, 0)), Of(1), &[], [0, 0, 1, 1], CALLS),
            (PLAIN, Hold(B, (0, 64, 0)), Of(1), &[], [0, 0, 1, 2], CALLS),
            (PLAIN, Hold(B, (0, 0, 32)), Of(1), &[], [0, 0, 1, 3], CALLS),
            (PLAIN, Hold(B, (0, 64, 32)), Of(1), &[], [0, 0, 1, 4], CALLS),
            (
                PLAIN,
                ONE,
                Texels(1, 3),
                &[7, 51, 20051, 40051],
                [1, 0, 1, 4],
                QUIET,
            ),
            (
                PLAIN,
                Count(0),
                Shard([5, 5, 0, SHARE]),
                &[],
                [1, 0, 0, 4],
                QUIET,
            ),
        ],
    ),
    (
        "a cell of a generated level is held",
        &[
            (PLAIN, Hold(A, (1, 1, 1)), Of(1), &[], [0, 0, 1, 1], CALLS),
            (
                PLAIN,
                Count(0),
                Shard([2, 1, 32, SHARE]),
                &[],
                [0, 0, 1, 1],
                QUIET,
            ),
        ],
    ),
    (
        "a tile that it is made of cannot be read",
        &[
            (BROKEN, ONE, ReadFault, &[7], [1, 0, 1, 0], CALLS),
            (
                PLAIN,
                Count(0),
                Shard([1, 0, 12288, SHARE]),
                &[],
                [1, 0, 0, 0],
                QUIET,
            ),
            (
                PLAIN,
                ONE,
                Texels(1, 3),
                &[7, 51, 20051, 40051],
                [2, 0, 1, 0],
                CALLS,
            ),
        ],
    ),
    (
        "a tile that it is made of is gone",
        &[
            (RISING, ONE, Again(1, 2), &[7], [1, 0, 2, 0], CALLS),
            (
                PLAIN,
                ONE,
                Texels(2, 3),
                &[7, 52, 20052, 40052],
                [2, 0, 2, 0],
                CALLS,
            ),
        ],
    ),
    (
        "files of one level have those down to 1 by 1, others those that they store",
        &[
            (
                PLAIN,
                Info(A),
                Facts([1, 4, 4, 1, 8, 1, 3]),
                &[],
                [0, 0, 1, 0],
                CALLS,
            ),
            (
                PLAIN,
                Pixels(A, (2, 0, 0), (1, 1)),
                Texels(1, 1),
                &[7, 6682],
                [1, 0, 1, 0],
                CALLS,
            ),
            (
                PLAIN,
                Pixels(A, (3, 0, 0), (1, 1)),
                NoLevel(1, 3),
                &[7],
                [1, 0, 1, 0],
                QUIET,
            ),
            (
                PLAIN,
                Pixels(TWO_LEVELS, (2, 0, 0), (1, 1)),
                NoLevel(1, 2),
                &[7],
                [1, 0, 1, 0],
                CALLS,
            ),
        ],
    ),
    (
        "a file is not opened for texels of a level that it lacks",
        &[
            (
                PLAIN,
                Info(A),
                Facts([1, 4, 4, 1, 8, 1, 3]),
                &[],
                [0, 0, 1, 0],
                CALLS,
            ),
            (
                PLAIN,
                Pixels(A, (9, 0, 0), (1, 1)),
                NoLevel(1, 3),
                &[7],
                [0, 0, 1, 0],
                QUIET,
            ),
        ],
    ),
];

#[test]
fn generated_levels(rt: HostRuntime) -> Result<(), Fail> {
    for (name, steps) in ROWS {
        let met = steps_met(rt.alloc(), GENERATED, steps)?;
        assert_eq!(rt; met, steps.len(), "{name}");
    }
    Ok(())
}
