//! Files that are invalid, cannot be opened, change while they are opened, or have a cell that is
//! too large. The caller's values stay, what is seen does not fall, and the next call succeeds.
use crate::asks::Answer::{Again, BadFile, Facts, Nothing, Of, ReadFault, Texels, TileTooLarge};
use crate::asks::Ask::{Hold, Info, Pixels, Texture, TextureLocal};
use crate::asks::Look;
use crate::planned::{CHANGED, FAILING, ONE_SHARD, PLAIN, steps_met};
use crate::small_files::{A, LARGE, SHORT};
use crate::steps::{CALLS, QUIET, Step};
use image_cache::Options;
use std::test::Fail;
use texel_filter::Filter::Bilinear;
use texel_filter::Wrap::Clamp;
use tiff_format::Cut;

// the middle of `A`, whose four texels are 17, 18, 33 and 34, and 100 more in generation 2: their
// means are 6553.5 and 32253.5
const MIDDLE: Look = ((32768, 32768, 0), Clamp, Bilinear, 1);

// the same place with two channels; the file has one
const WIDER: Look = ((32768, 32768, 0), Clamp, Bilinear, 2);

/// The name of each case, and its steps.
static ROWS: &[(&str, &[Step])] = &[
    (
        "a bad file",
        &[
            (PLAIN, Info(SHORT), BadFile(1, 1), &[], [0, 0, 1, 0], CALLS),
            (
                PLAIN,
                Hold(SHORT, (9, 9, 9)),
                BadFile(1, 1),
                &[],
                [0, 0, 1, 0],
                QUIET,
            ),
            (
                PLAIN,
                Pixels(SHORT, (9, 0, 0), (1024, 1024)),
                BadFile(1, 1),
                &[7],
                [0, 0, 1, 0],
                QUIET,
            ),
            (
                PLAIN,
                Texture(SHORT, WIDER),
                BadFile(1, 1),
                &[7, 7],
                [0, 0, 1, 0],
                QUIET,
            ),
            (
                PLAIN,
                TextureLocal(SHORT, WIDER),
                Nothing,
                &[7, 7],
                [0, 0, 1, 0],
                QUIET,
            ),
        ],
    ),
    (
        "info: the file is not opened",
        &[
            (FAILING, Info(A), ReadFault, &[], [0, 0, 0, 0], CALLS),
            (
                FAILING,
                Info(A),
                Facts([1, 4, 4, 1, 8, 1, 1]),
                &[],
                [0, 0, 1, 0],
                CALLS,
            ),
        ],
    ),
    (
        "hold: the file is not opened",
        &[
            (
                FAILING,
                Hold(A, (0, 0, 0)),
                ReadFault,
                &[],
                [0, 0, 0, 0],
                CALLS,
            ),
            (FAILING, Hold(A, (0, 0, 0)), Of(1), &[], [0, 0, 1, 1], CALLS),
        ],
    ),
    (
        "region: the file is not opened",
        &[
            (
                FAILING,
                Pixels(A, (0, 3, 3), (1, 1)),
                ReadFault,
                &[7],
                [0, 0, 0, 0],
                CALLS,
            ),
            (
                FAILING,
                Pixels(A, (0, 3, 3), (1, 1)),
                Texels(1, 1),
                &[7, 13107],
                [1, 0, 1, 0],
                CALLS,
            ),
        ],
    ),
    (
        "lookup: the file is not opened",
        &[
            (
                FAILING,
                Texture(A, WIDER),
                ReadFault,
                &[7, 7],
                [0, 0, 0, 0],
                CALLS,
            ),
            (
                FAILING,
                Texture(A, WIDER),
                Of(1),
                &[6554, 0],
                [4, 3, 1, 0],
                CALLS,
            ),
        ],
    ),
    (
        "info: the directory changes while it is read",
        &[
            (CHANGED, Info(A), Again(1, 2), &[], [0, 0, 2, 0], CALLS),
            (
                PLAIN,
                Info(A),
                Facts([2, 4, 4, 1, 8, 1, 1]),
                &[],
                [0, 0, 2, 0],
                CALLS,
            ),
        ],
    ),
    (
        "hold: the directory changes while it is read",
        &[
            (
                CHANGED,
                Hold(A, (0, 0, 0)),
                Again(1, 2),
                &[],
                [0, 0, 2, 0],
                CALLS,
            ),
            (CHANGED, Hold(A, (0, 0, 0)), Of(2), &[], [0, 0, 2, 1], CALLS),
        ],
    ),
    (
        "region: the directory changes while it is read",
        &[
            (
                CHANGED,
                Pixels(A, (0, 3, 3), (1, 1)),
                Again(1, 2),
                &[7],
                [0, 0, 2, 0],
                CALLS,
            ),
            (
                CHANGED,
                Pixels(A, (0, 3, 3), (1, 1)),
                Texels(2, 1),
                &[7, 38807],
                [1, 0, 2, 0],
                CALLS,
            ),
        ],
    ),
    (
        "lookup: the directory changes while it is read",
        &[
            (
                CHANGED,
                Texture(A, MIDDLE),
                Again(1, 2),
                &[7],
                [0, 0, 2, 0],
                CALLS,
            ),
            (
                CHANGED,
                TextureLocal(A, MIDDLE),
                Nothing,
                &[7],
                [0, 0, 2, 0],
                QUIET,
            ),
            (
                PLAIN,
                Texture(A, MIDDLE),
                Of(2),
                &[32254],
                [4, 3, 2, 0],
                CALLS,
            ),
        ],
    ),
];

#[test]
fn refusals_of_each_call(rt: HostRuntime) -> Result<(), Fail> {
    for (what, steps) in ROWS {
        let met = steps_met(rt.alloc(), ONE_SHARD, steps)?;
        assert_eq!(rt; met, steps.len(), "{what}");
    }
    Ok(())
}

/// One cell per level of a stripped file.
const WHOLE: Options = Options {
    budget: 0,
    shards: 1,
    passes: 1,
    handles: 1,
    cut: Cut {
        autotile: 0,
        automip: false,
    },
    slots: 1024,
};

// the only cell of the large file takes 67108864 bytes
static TOO_LARGE: &[Step] = &[
    (
        PLAIN,
        Info(LARGE),
        Facts([1, 8192, 4096, 1, 8, 1, 1]),
        &[],
        [0, 0, 1, 0],
        CALLS,
    ),
    (
        PLAIN,
        Hold(LARGE, (9, 9999, 0)),
        TileTooLarge(1),
        &[],
        [0, 0, 1, 0],
        QUIET,
    ),
    (
        PLAIN,
        Pixels(LARGE, (9, 0, 0), (1, 1)),
        TileTooLarge(1),
        &[7],
        [0, 0, 1, 0],
        QUIET,
    ),
    (
        PLAIN,
        Texture(LARGE, WIDER),
        TileTooLarge(1),
        &[7, 7],
        [0, 0, 1, 0],
        QUIET,
    ),
    (
        PLAIN,
        TextureLocal(LARGE, WIDER),
        Nothing,
        &[7, 7],
        [0, 0, 1, 0],
        QUIET,
    ),
    (PLAIN, Hold(A, (0, 3, 3)), Of(1), &[], [0, 0, 1, 1], CALLS),
];

#[test]
fn a_cell_is_too_large(rt: HostRuntime) -> Result<(), Fail> {
    let met = steps_met(rt.alloc(), WHOLE, TOO_LARGE)?;
    assert_eq!(rt; met, TOO_LARGE.len(), "steps");
    Ok(())
}
