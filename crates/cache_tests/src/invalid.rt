//! What is left of the cache after a file was invalidated: tiles, holds, what is seen, and whether
//! a tap is called then and by the next call.
use crate::asks::Answer::{Facts, Known, Of, ReadFault, Rectangle, Released, Shard, Texels};
use crate::asks::Ask;
use crate::asks::Ask::{Count, Held, Hold, Info, Invalidate, InvalidateAll, Pixels, Release};
use crate::planned::{FAILING, HALTING, NEWER, ONE_SHARD, PLAIN, steps_met};
use crate::small_files::{A, B};
use crate::steps::{CALLS, QUIET, Step};
use std::test::Fail;

// one texel of `A`, which is 33 in generation 1 and 133 in generation 2; and one of `B`
const ONE: Ask = Pixels(A, (0, 1, 2), (1, 1));

const OTHER: Ask = Pixels(B, (0, 0, 1), (1, 1));

// the limit of unpinned tiles; the tile of `A` takes 32 bytes, that of `B` 12288
const SHARE: u64 = 268435456;

/// The name of each case, and its steps.
static ROWS: &[(&str, &[Step])] = &[
    (
        "nothing newer is known: tile and record stay",
        &[
            (PLAIN, ONE, Texels(1, 1), &[7, 8481], [1, 0, 1, 0], CALLS),
            (
                PLAIN,
                Count(0),
                Shard([1, 1, 0, SHARE]),
                &[],
                [1, 0, 1, 0],
                QUIET,
            ),
            (PLAIN, Invalidate(A, false), Of(1), &[], [1, 0, 1, 0], CALLS),
            (
                PLAIN,
                Count(0),
                Shard([1, 0, 32, SHARE]),
                &[],
                [1, 0, 1, 0],
                QUIET,
            ),
            (PLAIN, ONE, Texels(1, 1), &[7, 8481], [2, 0, 1, 0], QUIET),
        ],
    ),
    (
        "a newer generation: the tile leaves, and what is read next is of that one",
        &[
            (PLAIN, ONE, Texels(1, 1), &[7, 8481], [1, 0, 1, 0], CALLS),
            (NEWER, Invalidate(A, false), Of(2), &[], [1, 0, 2, 0], CALLS),
            (
                PLAIN,
                Count(0),
                Shard([0, 0, 0, SHARE]),
                &[],
                [1, 0, 2, 0],
                QUIET,
            ),
            (NEWER, ONE, Texels(2, 1), &[7, 34181], [2, 0, 2, 0], CALLS),
            (NEWER, Invalidate(A, false), Of(2), &[], [2, 0, 2, 0], CALLS),
            (
                PLAIN,
                Count(0),
                Shard([1, 0, 32, SHARE]),
                &[],
                [2, 0, 2, 0],
                QUIET,
            ),
        ],
    ),
    (
        "with force the tiles of the newest generation leave too, and no other file's",
        &[
            (
                PLAIN,
                OTHER,
                Texels(1, 3),
                &[7, 100, 20100, 40100],
                [1, 0, 1, 0],
                CALLS,
            ),
            (PLAIN, ONE, Texels(1, 1), &[7, 8481], [2, 0, 1, 0], CALLS),
            (PLAIN, Invalidate(A, true), Of(1), &[], [2, 0, 1, 0], CALLS),
            (
                PLAIN,
                Count(0),
                Shard([1, 0, 12288, SHARE]),
                &[],
                [2, 0, 1, 0],
                QUIET,
            ),
            (PLAIN, ONE, Texels(1, 1), &[7, 8481], [3, 0, 1, 0], CALLS),
        ],
    ),
    (
        "a tile that is held stays until it is released",
        &[
            (PLAIN, Hold(A, (0, 0, 0)), Of(1), &[], [0, 0, 1, 1], CALLS),
            (NEWER, Invalidate(A, true), Of(2), &[], [0, 0, 2, 1], CALLS),
            (
                PLAIN,
                Held(0),
                Rectangle([0, 0, 4, 4]),
                &[],
                [0, 0, 2, 1],
                QUIET,
            ),
            (
                PLAIN,
                Count(0),
                Shard([1, 1, 0, SHARE]),
                &[],
                [0, 0, 2, 1],
                QUIET,
            ),
            (PLAIN, Release(0), Released, &[], [0, 0, 2, 0], QUIET),
        ],
    ),
    (
        "the tap fails: the microcache alone is given up",
        &[
            (PLAIN, ONE, Texels(1, 1), &[7, 8481], [1, 0, 1, 0], CALLS),
            (
                FAILING,
                Invalidate(A, true),
                ReadFault,
                &[],
                [1, 0, 1, 0],
                CALLS,
            ),
            (
                PLAIN,
                Count(0),
                Shard([1, 0, 32, SHARE]),
                &[],
                [1, 0, 1, 0],
                QUIET,
            ),
            (PLAIN, ONE, Texels(1, 1), &[7, 8481], [2, 0, 1, 0], QUIET),
        ],
    ),
    (
        "all files that are known",
        &[
            (NEWER, InvalidateAll, Known, &[], [0, 0, 0, 0], QUIET),
            (
                PLAIN,
                OTHER,
                Texels(1, 3),
                &[7, 100, 20100, 40100],
                [1, 0, 1, 0],
                CALLS,
            ),
            (PLAIN, ONE, Texels(1, 1), &[7, 8481], [2, 0, 1, 0], CALLS),
            (NEWER, InvalidateAll, Known, &[], [2, 0, 2, 0], CALLS),
            (
                PLAIN,
                Count(0),
                Shard([1, 0, 12288, SHARE]),
                &[],
                [2, 0, 2, 0],
                QUIET,
            ),
            (
                NEWER,
                Info(A),
                Facts([2, 4, 4, 1, 8, 1, 1]),
                &[],
                [2, 0, 2, 0],
                CALLS,
            ),
        ],
    ),
    (
        "all files, and the tap fails at the second that is known: the first is done",
        &[
            (
                PLAIN,
                OTHER,
                Texels(1, 3),
                &[7, 100, 20100, 40100],
                [1, 0, 1, 0],
                CALLS,
            ),
            (PLAIN, ONE, Texels(1, 1), &[7, 8481], [2, 0, 1, 0], CALLS),
            (HALTING, InvalidateAll, ReadFault, &[], [2, 0, 2, 0], CALLS),
            (
                PLAIN,
                Count(0),
                Shard([1, 0, 12288, SHARE]),
                &[],
                [2, 0, 2, 0],
                QUIET,
            ),
        ],
    ),
    (
        "all files, and the tap fails at the first that is known: no tile leaves",
        &[
            (
                PLAIN,
                OTHER,
                Texels(1, 3),
                &[7, 100, 20100, 40100],
                [1, 0, 1, 0],
                CALLS,
            ),
            (PLAIN, ONE, Texels(1, 1), &[7, 8481], [2, 0, 1, 0], CALLS),
            (FAILING, InvalidateAll, ReadFault, &[], [2, 0, 1, 0], CALLS),
            (
                PLAIN,
                Count(0),
                Shard([2, 0, 12320, SHARE]),
                &[],
                [2, 0, 1, 0],
                QUIET,
            ),
        ],
    ),
    (
        "all files, and the tap fails",
        &[
            (
                PLAIN,
                OTHER,
                Texels(1, 3),
                &[7, 100, 20100, 40100],
                [1, 0, 1, 0],
                CALLS,
            ),
            (FAILING, InvalidateAll, ReadFault, &[], [1, 0, 0, 0], CALLS),
            (
                PLAIN,
                Count(0),
                Shard([1, 0, 12288, SHARE]),
                &[],
                [1, 0, 0, 0],
                QUIET,
            ),
        ],
    ),
];

#[test]
fn files_that_are_made_invalid(rt: HostRuntime) -> Result<(), Fail> {
    for (name, steps) in ROWS {
        let met = steps_met(rt.alloc(), ONE_SHARD, steps)?;
        assert_eq!(rt; met, steps.len(), "{name}");
    }
    Ok(())
}
