//! Cells that are not read, because a call of the tap fails or the file has changed. The caller's
//! values stay, what is seen does not fall, and the next call succeeds.
use crate::asks::Answer::{Again, Facts, HoldsFull, Nothing, Of, ReadFault, Texels};
use crate::asks::Ask::{Hold, Info, Pixels, Texture, TextureLocal};
use crate::asks::Look;
use crate::planned::{
    BROKEN, CHANGING, FAILING, FAULTY, NEWER, ONE_SHARD, PLAIN, RISING, steps_met,
};
use crate::small_files::{A, B};
use crate::steps::{CALLS, QUIET, Step};
use std::test::Fail;
use texel_filter::Filter::Bilinear;
use texel_filter::Wrap::Clamp;

// the middle of `A`, whose four texels are 17, 18, 33 and 34, and 100 more in generation 2: their
// means are 6553.5 and 32253.5
const MIDDLE: Look = ((32768, 32768, 0), Clamp, Bilinear, 1);

// the same place with two channels; the file has one
const WIDER: Look = ((32768, 32768, 0), Clamp, Bilinear, 2);

/// The name of each case, and its steps.
static ROWS: &[(&str, &[Step])] = &[
    (
        "hold: the samples are not read",
        &[
            (
                FAULTY,
                Hold(A, (0, 0, 0)),
                ReadFault,
                &[],
                [0, 0, 1, 0],
                CALLS,
            ),
            (FAULTY, Hold(A, (0, 0, 0)), Of(1), &[], [0, 0, 1, 1], CALLS),
        ],
    ),
    (
        "lookup: the samples are not read",
        &[
            (
                FAULTY,
                Texture(A, WIDER),
                ReadFault,
                &[7, 7],
                [1, 0, 1, 0],
                CALLS,
            ),
            (
                FAULTY,
                TextureLocal(A, WIDER),
                Nothing,
                &[7, 7],
                [1, 0, 1, 0],
                QUIET,
            ),
            (
                FAULTY,
                Texture(A, WIDER),
                Of(1),
                &[6554, 0],
                [5, 3, 1, 0],
                CALLS,
            ),
        ],
    ),
    (
        "region: its second cell is not read",
        &[
            (
                BROKEN,
                Pixels(B, (0, 63, 0), (2, 1)),
                ReadFault,
                &[7],
                [2, 0, 1, 0],
                CALLS,
            ),
            (
                BROKEN,
                Pixels(B, (0, 63, 0), (2, 1)),
                Texels(1, 3),
                &[7, 63, 20063, 40063, 64, 20064, 40064],
                [4, 1, 1, 0],
                CALLS,
            ),
        ],
    ),
    (
        "hold: the samples change before they are read",
        &[
            (
                CHANGING,
                Hold(A, (0, 0, 0)),
                Again(1, 2),
                &[],
                [0, 0, 2, 0],
                CALLS,
            ),
            (
                CHANGING,
                Hold(A, (0, 0, 0)),
                Of(2),
                &[],
                [0, 0, 2, 1],
                CALLS,
            ),
        ],
    ),
    (
        "lookup: the samples change before they are read",
        &[
            (
                CHANGING,
                Texture(A, MIDDLE),
                Again(1, 2),
                &[7],
                [1, 0, 2, 0],
                CALLS,
            ),
            (
                CHANGING,
                Texture(A, MIDDLE),
                Of(2),
                &[32254],
                [5, 3, 2, 0],
                CALLS,
            ),
            (
                CHANGING,
                TextureLocal(A, MIDDLE),
                Of(2),
                &[32254],
                [9, 7, 2, 0],
                QUIET,
            ),
        ],
    ),
    (
        "region: the samples of its second cell change",
        &[
            (
                RISING,
                Pixels(B, (0, 63, 0), (2, 1)),
                Again(1, 2),
                &[7],
                [2, 0, 2, 0],
                CALLS,
            ),
            (
                RISING,
                Pixels(B, (0, 63, 0), (2, 1)),
                Texels(2, 3),
                &[7, 64, 20064, 40064, 65, 20065, 40065],
                [4, 0, 2, 0],
                CALLS,
            ),
        ],
    ),
    // the record is of generation 1, and the handle that the other tap opens is newer
    (
        "a file changes between two calls by other taps",
        &[
            (
                PLAIN,
                Info(A),
                Facts([1, 4, 4, 1, 8, 1, 1]),
                &[],
                [0, 0, 1, 0],
                CALLS,
            ),
            (
                NEWER,
                Pixels(A, (0, 0, 0), (2, 1)),
                Again(1, 2),
                &[7],
                [1, 0, 2, 0],
                CALLS,
            ),
            (
                PLAIN,
                Pixels(A, (0, 0, 0), (2, 1)),
                Texels(2, 1),
                &[7, 25700, 25957],
                [2, 0, 2, 0],
                CALLS,
            ),
            (
                NEWER,
                Info(A),
                Facts([2, 4, 4, 1, 8, 1, 1]),
                &[],
                [2, 0, 2, 0],
                QUIET,
            ),
        ],
    ),
    // what the pass has of generation 1 can be used until it has seen the newer one
    (
        "a hold outlives its generation",
        &[
            (PLAIN, Hold(A, (0, 0, 0)), Of(1), &[], [0, 0, 1, 1], CALLS),
            (NEWER, Hold(A, (0, 0, 0)), Of(1), &[], [0, 0, 1, 2], QUIET),
            (
                PLAIN,
                Texture(A, MIDDLE),
                Of(1),
                &[6554],
                [4, 3, 1, 2],
                QUIET,
            ),
            (
                RISING,
                Hold(B, (0, 64, 0)),
                Again(1, 2),
                &[],
                [4, 3, 2, 2],
                CALLS,
            ),
            (PLAIN, Hold(B, (0, 64, 0)), Of(2), &[], [4, 3, 2, 3], CALLS),
            (PLAIN, Hold(B, (0, 0, 0)), Of(2), &[], [4, 3, 2, 4], CALLS),
            (
                FAILING,
                Hold(B, (0, 0, 0)),
                HoldsFull,
                &[],
                [4, 3, 2, 4],
                QUIET,
            ),
            (
                FAILING,
                TextureLocal(A, MIDDLE),
                Nothing,
                &[7],
                [4, 3, 1, 4],
                QUIET,
            ),
            (
                FAILING,
                Texture(A, MIDDLE),
                Of(1),
                &[6554],
                [8, 7, 1, 4],
                QUIET,
            ),
        ],
    ),
];

#[test]
fn cells_that_are_not_read(rt: HostRuntime) -> Result<(), Fail> {
    for (what, steps) in ROWS {
        let met = steps_met(rt.alloc(), ONE_SHARD, steps)?;
        assert_eq!(rt; met, steps.len(), "{what}");
    }
    Ok(())
}
