//! The record of a file, and fetches from it: what is in the microcache, which calls of the tap
//! fail, and when the file changes.
use crate::asks::Answer::{Again, Nothing, Of, Other, ReadFault, Shard, There};
use crate::asks::Ask::{Count, Fetch, FetchLocal, HasLocal, Hold, Keep, Local, Open};
use crate::planned::{CHANGED, CHANGING, FAILING, FAULTY, ONE_BYTE, ONE_SHARD, PLAIN, steps_met};
use crate::small_files::{A, B};
use crate::steps::{CALLS, QUIET, Step};
use std::test::Fail;

/// The name of each case, and its steps. The texel (x, y) of `A` is 257 times 16 * y + x, and 257
/// times 100 more in generation 2.
static ROWS: &[(&str, &[Step])] = &[
    (
        "a record is kept, found and handed out, and opening gives it up",
        &[
            (PLAIN, Open(A), Of(1), &[], [0, 0, 1, 0], CALLS),
            (PLAIN, Local(A), Nothing, &[], [0, 0, 1, 0], QUIET),
            (PLAIN, Keep, Of(1), &[], [0, 0, 1, 0], QUIET),
            (PLAIN, Local(A), Of(1), &[], [0, 0, 1, 0], QUIET),
            (PLAIN, Local(A), Nothing, &[], [0, 0, 1, 0], QUIET),
            (PLAIN, HasLocal((0, 0)), Nothing, &[], [0, 0, 1, 0], QUIET),
            (PLAIN, Fetch((1, 2), 1), There, &[8481], [1, 0, 1, 0], CALLS),
            (PLAIN, HasLocal((3, 3)), There, &[], [1, 0, 1, 0], QUIET),
            (
                PLAIN,
                FetchLocal((3, 3), 1),
                There,
                &[13107],
                [2, 1, 1, 0],
                QUIET,
            ),
            (PLAIN, Fetch((4, 0), 1), Other, &[], [2, 1, 1, 0], QUIET),
            (PLAIN, Keep, Of(1), &[], [2, 1, 1, 0], QUIET),
            (PLAIN, Open(A), Of(1), &[], [2, 1, 1, 0], QUIET),
            (PLAIN, Local(A), Nothing, &[], [2, 1, 1, 0], QUIET),
            (PLAIN, Fetch((2, 0), 1), There, &[514], [3, 2, 1, 0], QUIET),
        ],
    ),
    (
        "a file is not opened",
        &[
            (FAILING, Open(A), ReadFault, &[], [0, 0, 0, 0], CALLS),
            (FAILING, Open(A), Of(1), &[], [0, 0, 1, 0], CALLS),
            (
                FAILING,
                Fetch((3, 0), 1),
                There,
                &[771],
                [1, 0, 1, 0],
                CALLS,
            ),
        ],
    ),
    (
        "its directory changes",
        &[
            (CHANGED, Open(A), Again(1, 2), &[], [0, 0, 2, 0], CALLS),
            (CHANGED, Open(A), Of(2), &[], [0, 0, 2, 0], CALLS),
            (
                CHANGED,
                Fetch((3, 0), 1),
                There,
                &[26471],
                [1, 0, 2, 0],
                CALLS,
            ),
            (CHANGED, Keep, Of(2), &[], [1, 0, 2, 0], QUIET),
            (CHANGED, Local(A), Of(2), &[], [1, 0, 2, 0], QUIET),
        ],
    ),
    (
        "its samples are not read",
        &[
            (FAULTY, Open(A), Of(1), &[], [0, 0, 1, 0], CALLS),
            (
                FAULTY,
                Fetch((0, 0), 1),
                ReadFault,
                &[7],
                [1, 0, 1, 0],
                CALLS,
            ),
            (FAULTY, HasLocal((0, 0)), Nothing, &[], [1, 0, 1, 0], QUIET),
            (
                FAULTY,
                FetchLocal((0, 0), 1),
                Nothing,
                &[7],
                [1, 0, 1, 0],
                QUIET,
            ),
            (
                FAULTY,
                Fetch((1, 1), 1),
                There,
                &[4369],
                [2, 0, 1, 0],
                CALLS,
            ),
            (
                FAULTY,
                FetchLocal((0, 1), 1),
                There,
                &[4112],
                [3, 1, 1, 0],
                QUIET,
            ),
            (FAULTY, Open(A), Of(1), &[], [3, 1, 1, 0], QUIET),
            (
                FAULTY,
                FetchLocal((0, 1), 1),
                There,
                &[4112],
                [4, 2, 1, 0],
                QUIET,
            ),
        ],
    ),
    (
        "its samples change, and its record is found no more once a newer generation is known",
        &[
            (CHANGING, Open(A), Of(1), &[], [0, 0, 1, 0], CALLS),
            (
                CHANGING,
                Fetch((0, 0), 1),
                Again(1, 2),
                &[7],
                [1, 0, 2, 0],
                CALLS,
            ),
            (CHANGING, Keep, Of(1), &[], [1, 0, 2, 0], QUIET),
            (CHANGING, Local(A), Nothing, &[], [1, 0, 2, 0], QUIET),
            (
                CHANGING,
                FetchLocal((0, 0), 1),
                Nothing,
                &[7],
                [1, 0, 2, 0],
                QUIET,
            ),
            (
                CHANGING,
                Fetch((0, 0), 1),
                Again(1, 2),
                &[7],
                [2, 0, 2, 0],
                CALLS,
            ),
            (CHANGING, Open(A), Of(2), &[], [2, 0, 2, 0], CALLS),
            (
                CHANGING,
                Fetch((0, 0), 1),
                There,
                &[25700],
                [3, 0, 2, 0],
                CALLS,
            ),
            (
                CHANGING,
                Fetch((3, 3), 1),
                There,
                &[38807],
                [4, 1, 2, 0],
                QUIET,
            ),
            (CHANGING, Keep, Of(2), &[], [4, 1, 2, 0], QUIET),
            (CHANGING, Local(A), Of(2), &[], [4, 1, 2, 0], QUIET),
        ],
    ),
    // Cells of 64 by 32 in a level of 80 by 48: 0 and 1 are above 2 and 3. Channel c of texel (x,
    // y) is 20000 * c + 100 * y + x. The comment of a step names the cells that are then in the
    // microcache, the latest first.
    (
        "a look changes nothing, and a local fetch asks for its cell as any other or changes nothing",
        &[
            (PLAIN, Open(B), Of(1), &[], [0, 0, 1, 0], CALLS),
            (PLAIN, HasLocal((0, 0)), Nothing, &[], [0, 0, 0, 0], QUIET),
            (
                PLAIN,
                FetchLocal((0, 0), 3),
                Nothing,
                &[7, 7, 7],
                [0, 0, 0, 0],
                QUIET,
            ),
            (
                PLAIN,
                Fetch((0, 0), 3),
                There,
                &[0, 20000, 40000],
                [1, 0, 0, 0],
                CALLS,
            ), // 0
            (PLAIN, HasLocal((63, 31)), There, &[], [1, 0, 0, 0], QUIET),
            (PLAIN, HasLocal((64, 0)), Nothing, &[], [1, 0, 0, 0], QUIET),
            (PLAIN, HasLocal((0, 32)), Nothing, &[], [1, 0, 0, 0], QUIET),
            (
                PLAIN,
                FetchLocal((63, 31), 2),
                There,
                &[3163, 23163],
                [2, 1, 0, 0],
                QUIET,
            ), // 0
            (
                PLAIN,
                FetchLocal((64, 31), 1),
                Nothing,
                &[7],
                [2, 1, 0, 0],
                QUIET,
            ),
            (PLAIN, Fetch((64, 0), 1), There, &[64], [3, 1, 0, 0], CALLS), // 1 0
            (PLAIN, HasLocal((0, 0)), There, &[], [3, 1, 0, 0], QUIET),
            (PLAIN, Fetch((0, 32), 0), There, &[], [4, 1, 0, 0], CALLS), // 2 1
            (PLAIN, HasLocal((0, 0)), Nothing, &[], [4, 1, 0, 0], QUIET),
            (PLAIN, HasLocal((64, 0)), There, &[], [4, 1, 0, 0], QUIET),
            (
                PLAIN,
                FetchLocal((79, 31), 1),
                There,
                &[3179],
                [5, 2, 0, 0],
                QUIET,
            ), // 1 2
            (
                PLAIN,
                Fetch((0, 0), 4),
                There,
                &[0, 20000, 40000, 0],
                [6, 2, 0, 0],
                QUIET,
            ), // 0 1
            (PLAIN, HasLocal((64, 0)), There, &[], [6, 2, 0, 0], QUIET),
            (PLAIN, HasLocal((0, 32)), Nothing, &[], [6, 2, 0, 0], QUIET),
            (
                PLAIN,
                FetchLocal((0, 32), 1),
                Nothing,
                &[7],
                [6, 2, 0, 0],
                QUIET,
            ),
            (
                PLAIN,
                FetchLocal((2, 0), 1),
                There,
                &[2],
                [7, 3, 0, 0],
                QUIET,
            ), // 0 1
            // the least recently used cell leaves
            (
                PLAIN,
                Fetch((79, 47), 1),
                There,
                &[4779],
                [8, 3, 0, 0],
                CALLS,
            ), // 3 0
            (PLAIN, HasLocal((64, 0)), Nothing, &[], [8, 3, 0, 0], QUIET),
            (PLAIN, Fetch((80, 0), 1), Other, &[], [8, 3, 0, 0], QUIET),
            (PLAIN, Fetch((0, 48), 1), Other, &[], [8, 3, 0, 0], QUIET),
            // the first cell of another file, then this one again
            (PLAIN, Open(A), Of(1), &[], [8, 3, 1, 0], CALLS),
            (PLAIN, HasLocal((0, 0)), Nothing, &[], [8, 3, 1, 0], QUIET),
            (PLAIN, Fetch((0, 0), 2), There, &[0, 0], [9, 3, 1, 0], CALLS), // A 3
            (PLAIN, Open(B), Of(1), &[], [9, 3, 1, 0], QUIET),
            (
                PLAIN,
                Fetch((64, 32), 1),
                There,
                &[3264],
                [10, 4, 1, 0],
                QUIET,
            ), // 3 A
            (PLAIN, HasLocal((0, 0)), Nothing, &[], [10, 4, 1, 0], QUIET),
        ],
    ),
];

#[test]
fn fetches_by_a_record(rt: HostRuntime) -> Result<(), Fail> {
    for (shows, steps) in ROWS {
        let met = steps_met(rt.alloc(), ONE_SHARD, steps)?;
        assert_eq!(rt; met, steps.len(), "{shows}");
    }
    Ok(())
}

// Fetches from the four cells of `B`, and then from the first again, which has left the microcache.
// The comment of a step names the cells that are then in the microcache, the latest first. The
// tiles take 12288, 3072, 6144 and 1536 bytes.
static FIVE_CELLS: &[Step] = &[
    (PLAIN, Open(B), Of(1), &[], [0, 0, 1, 0], CALLS),
    (PLAIN, Fetch((0, 0), 1), There, &[0], [1, 0, 0, 0], CALLS), // 0
    (PLAIN, Fetch((64, 0), 1), There, &[64], [2, 0, 0, 0], CALLS), // 1 0
    (
        PLAIN,
        Fetch((0, 32), 1),
        There,
        &[3200],
        [3, 0, 0, 0],
        CALLS,
    ), // 2 1
    (
        PLAIN,
        Fetch((64, 32), 1),
        There,
        &[3264],
        [4, 0, 0, 0],
        CALLS,
    ), // 3 2
    // no hit, and no call to the tap
    (
        PLAIN,
        Fetch((63, 31), 1),
        There,
        &[3163],
        [5, 0, 0, 0],
        QUIET,
    ), // 0 3
    (
        PLAIN,
        Count(0),
        Shard([4, 2, 9216, 268435456]),
        &[],
        [5, 0, 0, 0],
        QUIET,
    ),
];

#[test]
fn fetches_a_cell_of_the_shards_by_no_call(rt: HostRuntime) -> Result<(), Fail> {
    let met = steps_met(rt.alloc(), ONE_SHARD, FIVE_CELLS)?;
    assert_eq!(rt; met, FIVE_CELLS.len());
    Ok(())
}

// The first cell of `B` is held. It stays in a shard with a budget of 0; the second does not.
static HELD_CELL: &[Step] = &[
    (PLAIN, Hold(B, (0, 0, 0)), Of(1), &[], [0, 0, 1, 1], CALLS),
    (PLAIN, Open(B), Of(1), &[], [0, 0, 1, 1], QUIET),
    (PLAIN, Fetch((64, 0), 1), There, &[64], [1, 0, 0, 1], CALLS), // 1
    (
        PLAIN,
        Fetch((0, 32), 1),
        There,
        &[3200],
        [2, 0, 0, 1],
        CALLS,
    ), // 2 1
    // no hit, and no call to the tap
    (PLAIN, Fetch((5, 4), 1), There, &[405], [3, 0, 0, 1], QUIET), // 0 2
    (PLAIN, Fetch((64, 0), 1), There, &[64], [4, 0, 0, 1], CALLS), // 1 0
    (
        PLAIN,
        Count(0),
        Shard([2, 3, 0, 1]),
        &[],
        [4, 0, 0, 1],
        QUIET,
    ),
];

#[test]
fn fetches_a_held_cell_by_no_call(rt: HostRuntime) -> Result<(), Fail> {
    let met = steps_met(rt.alloc(), ONE_BYTE, HELD_CELL)?;
    assert_eq!(rt; met, HELD_CELL.len());
    Ok(())
}
