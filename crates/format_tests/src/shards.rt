//! One shard, call by call.
use crate::shard_calls::Call::{Find, Insert, Purge, Release};
use crate::shard_calls::{Call, Cell, OneShard, answer, check_counts};
use std::alloc::Global;
use std::test::Fail;
use test_files::Checks;

const SHARE: u64 = 4000;

const A: Cell = Cell {
    generation: 1,
    file: 1,
    index: 0,
};

const B: Cell = Cell {
    generation: 1,
    file: 1,
    index: 1,
};

const C: Cell = Cell {
    generation: 1,
    file: 1,
    index: 2,
};

const D: Cell = Cell {
    generation: 1,
    file: 1,
    index: 3,
};

const OLD: Cell = Cell {
    generation: 2,
    file: 1,
    index: 0,
};

const HELD: Cell = Cell {
    generation: 2,
    file: 1,
    index: 1,
};

const NEW: Cell = Cell {
    generation: 3,
    file: 1,
    index: 0,
};

const OTHER: Cell = Cell {
    generation: 2,
    file: 2,
    index: 0,
};

// A call, its answer, and the tiles, the pins and the unpinned bytes after it. A tile has 6 bytes a
// texel.
struct Step {
    call: Call,
    answer: bool,
    counts: [u64; 3],
}

// The calls of a shard with this many slots.
struct Case {
    name: &'static str,
    slots: u32,
    steps: &'static [Step],
}

static CASES: &[Case] = &[
    // A second tile with a key that is there is dropped.
    Case {
        name: "keeps the tile that is there",
        slots: 1031,
        steps: &[
            Step {
                call: Insert(A, 16),
                answer: true,
                counts: [1, 1, 0],
            },
            Step {
                call: Insert(A, 32),
                answer: true,
                counts: [1, 2, 0],
            },
            Step {
                call: Release(A, SHARE),
                answer: true,
                counts: [1, 1, 0],
            },
            Step {
                call: Release(A, SHARE),
                answer: true,
                counts: [1, 0, 1536],
            },
            Step {
                call: Release(A, SHARE),
                answer: false,
                counts: [1, 0, 1536],
            },
        ],
    },
    // The least recently used of two unpinned tiles leaves; a pinned one does not.
    Case {
        name: "makes room for one more",
        slots: 3,
        steps: &[
            Step {
                call: Insert(A, 16),
                answer: true,
                counts: [1, 1, 0],
            },
            Step {
                call: Insert(B, 16),
                answer: true,
                counts: [2, 2, 0],
            },
            Step {
                call: Insert(C, 16),
                answer: true,
                counts: [3, 3, 0],
            },
            Step {
                call: Release(B, SHARE),
                answer: true,
                counts: [3, 2, 1536],
            },
            Step {
                call: Release(C, SHARE),
                answer: true,
                counts: [3, 1, 3072],
            },
            Step {
                call: Insert(D, 16),
                answer: true,
                counts: [3, 2, 1536],
            },
            // it was used before c
            Step {
                call: Find(B),
                answer: false,
                counts: [3, 2, 1536],
            },
            Step {
                call: Find(A),
                answer: true,
                counts: [3, 3, 1536],
            },
            Step {
                call: Find(C),
                answer: true,
                counts: [3, 4, 0],
            },
        ],
    },
    // Tiles of file 1 below generation 3 leave, except those that are pinned.
    Case {
        name: "purges older generations",
        slots: 1031,
        steps: &[
            Step {
                call: Insert(OLD, 8),
                answer: true,
                counts: [1, 1, 0],
            },
            Step {
                call: Insert(HELD, 8),
                answer: true,
                counts: [2, 2, 0],
            },
            Step {
                call: Insert(NEW, 8),
                answer: true,
                counts: [3, 3, 0],
            },
            Step {
                call: Insert(OTHER, 8),
                answer: true,
                counts: [4, 4, 0],
            },
            Step {
                call: Release(OLD, SHARE),
                answer: true,
                counts: [4, 3, 384],
            },
            Step {
                call: Release(NEW, SHARE),
                answer: true,
                counts: [4, 2, 768],
            },
            Step {
                call: Release(OTHER, SHARE),
                answer: true,
                counts: [4, 1, 1152],
            },
            Step {
                call: Purge(1, 3),
                answer: true,
                counts: [3, 1, 768],
            },
            Step {
                call: Find(OLD),
                answer: false,
                counts: [3, 1, 768],
            },
            Step {
                call: Find(HELD),
                answer: true,
                counts: [3, 2, 768],
            },
            Step {
                call: Release(HELD, SHARE),
                answer: true,
                counts: [3, 1, 768],
            },
            Step {
                call: Find(NEW),
                answer: true,
                counts: [3, 2, 384],
            },
            Step {
                call: Find(OTHER),
                answer: true,
                counts: [3, 3, 0],
            },
        ],
    },
];

fn check_steps(alloc: Global, checks: &mut Checks, case: &Case) -> Result<(), Fail> {
    let mut shard = OneShard::with_slots(alloc, case.slots)?;
    for (at, step) in case.steps.iter().enumerate() {
        let answer = answer(alloc, &mut shard, step.call, case.slots)?;
        if answer != step.answer {
            checks.equal("the first call with another answer", at as u64, u64::MAX);
        }
        check_counts(checks, &shard, step.counts);
    }
    Ok(())
}

#[test]
fn keeps_and_drops_tiles(rt: HostRuntime) -> Result<(), Fail> {
    let mut checks = Checks::new();
    for case in CASES {
        checks.case(case.name);
        check_steps(rt.alloc(), &mut checks, case)?;
    }
    checks.result()
}
