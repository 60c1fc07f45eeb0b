//! The microcache: the last two items of a caller that asks for cells.
use crate::latest_items::Answer::{Hit, InPlaceOf, New};
use micro::{Keyed, Micro};
use std::test::Fail;
use test_files::Checks;
use tile_layout::TileKey;

// An item made for a cell.
#[derive(Drop)]
struct Made {
    cell: u8,
    key: TileKey,
}

impl Keyed for Made {
    ghost own_key = { λ made. made.key };

    fn key(&self) -> TileKey {
        self.key
    }
}

fn cell_key(cell: u8) -> TileKey {
    TileKey::new(1, 0, 0, cell as u32)
}

// What a caller that asks for a cell finds: its item; nothing; or nothing and no space, so that the
// item of another cell leaves.
#[derive(Clone, Copy, PartialEq, Eq)]
enum Answer {
    Hit,
    New,
    InPlaceOf(u8),
}

// Asks for a cell, and makes an item if none exists.
fn ask(items: &mut Micro<Made>, cell: u8) -> Answer {
    let key = cell_key(cell);
    if items.find(key) {
        return Hit;
    }
    match items.place(Made { cell, key }) {
        Some(made) => InPlaceOf(made.cell),
        None => New,
    }
}

// The cell of an item, or 0 without one.
fn cell_of(made: Option<&Made>) -> u64 {
    match made {
        Some(made) => u64::from(made.cell),
        None => 0,
    }
}

// A cell that is asked for, and the answer.
struct Asked {
    cell: u8,
    answer: Answer,
}

// The cells asked for, and the cells of the items at the end, the latest first. No case asks for
// cell 9 or 0.
struct Case {
    name: &'static str,
    asked: &'static [Asked],
    left: &'static [u8],
}

static CASES: &[Case] = &[
    Case {
        name: "no cell",
        asked: &[],
        left: &[],
    },
    Case {
        name: "one cell again and again",
        asked: &[
            Asked {
                cell: 5,
                answer: Answer::New,
            },
            Asked {
                cell: 5,
                answer: Answer::Hit,
            },
            Asked {
                cell: 5,
                answer: Answer::Hit,
            },
        ],
        left: &[5],
    },
    Case {
        name: "two cells in turn",
        asked: &[
            Asked {
                cell: 1,
                answer: Answer::New,
            },
            Asked {
                cell: 2,
                answer: Answer::New,
            },
            Asked {
                cell: 1,
                answer: Answer::Hit,
            },
            Asked {
                cell: 2,
                answer: Answer::Hit,
            },
        ],
        left: &[2, 1],
    },
    Case {
        name: "three cells in turn",
        asked: &[
            Asked {
                cell: 1,
                answer: Answer::New,
            },
            Asked {
                cell: 2,
                answer: Answer::New,
            },
            Asked {
                cell: 3,
                answer: Answer::InPlaceOf(1),
            },
            Asked {
                cell: 1,
                answer: Answer::InPlaceOf(2),
            },
            Asked {
                cell: 2,
                answer: Answer::InPlaceOf(3),
            },
            Asked {
                cell: 3,
                answer: Answer::InPlaceOf(1),
            },
        ],
        left: &[3, 2],
    },
    Case {
        name: "a hit is the latest",
        asked: &[
            Asked {
                cell: 1,
                answer: Answer::New,
            },
            Asked {
                cell: 2,
                answer: Answer::New,
            },
            Asked {
                cell: 1,
                answer: Answer::Hit,
            },
            Asked {
                cell: 3,
                answer: Answer::InPlaceOf(2),
            },
            Asked {
                cell: 1,
                answer: Answer::Hit,
            },
            Asked {
                cell: 2,
                answer: Answer::InPlaceOf(3),
            },
        ],
        left: &[2, 1],
    },
    Case {
        name: "the latest once more",
        asked: &[
            Asked {
                cell: 1,
                answer: Answer::New,
            },
            Asked {
                cell: 2,
                answer: Answer::New,
            },
            Asked {
                cell: 2,
                answer: Answer::Hit,
            },
            Asked {
                cell: 3,
                answer: Answer::InPlaceOf(1),
            },
        ],
        left: &[3, 2],
    },
];

// Asks for the cells of a case. Each is the latest then.
fn check_answers(checks: &mut Checks, items: &mut Micro<Made>, case: &Case) {
    for asked in case.asked {
        checks.holds("an answer", ask(items, asked.cell) == asked.answer);
        checks.equal("the latest", cell_of(items.first()), u64::from(asked.cell));
    }
    checks.holds("cell 9 is there", !items.has(cell_key(9)));
    checks.holds("cell 9 is shown", items.peek(cell_key(9)).is_none());
}

// Shows what is left, and takes it out, the latest at the end.
fn check_left(checks: &mut Checks, items: &mut Micro<Made>, case: &Case) {
    for cell in case.left {
        checks.holds("what is left is there", items.has(cell_key(*cell)));
        let shown = cell_of(items.peek(cell_key(*cell)));
        checks.equal("what is left", shown, u64::from(*cell));
    }
    for cell in case.left.iter().rev() {
        let last = items.take_last();
        checks.equal(
            "what is taken out",
            cell_of(last.as_ref()),
            u64::from(*cell),
        );
    }
    checks.holds("nothing is left to take", items.take_last().is_none());
    checks.holds("nothing is left to show", items.first().is_none());
}

#[test]
fn keeps_the_two_latest(rt: HostRuntime) -> Result<(), Fail> {
    let mut checks = Checks::new();
    for case in CASES {
        let mut items = Micro::new();
        checks.case(case.name);
        check_answers(&mut checks, &mut items, case);
        check_left(&mut checks, &mut items, case);
    }
    checks.result()
}
