//! Read-ahead of files in memory whose rows are far apart, checked by counting calls to the tap.

use crate::cell_reader::Answer::{Again, Cell, Done, Fault, Gone, Kept};
use crate::cell_reader::Call::{Aheads, Forget, Hold, Load, Scan, Settle};
use crate::cell_reader::{Step, Visitor};
use crate::seat::Seat;
use file_table::Files;
use std::alloc::Global;
use std::test::Fail;
use test_files::{Checks, Planned, Strips, taps_of};
use tex_world::MemTap;
use tiff_format::Cut;

/// For tap 1 a read of byte 222 fails, which is column 100 of the first row. In the file of nine
/// levels a byte between two directories fails, which nobody asks for, and in the tiled file a byte
/// of tile 33. At 67400, column 78 of row 16, tap 2 meets generation 2; tap 3 knows it from the
/// start.
const PLAN: &[Planned] = &[
    Planned::FailByte {
        tap: 1,
        file: 0,
        at: 222,
    },
    Planned::FailByte {
        tap: 1,
        file: 6,
        at: 453,
    },
    Planned::FailByte {
        tap: 1,
        file: 8,
        at: 8767,
    },
    Planned::Rise {
        tap: 2,
        file: 0,
        at: 67400,
        to: 2,
    },
    Planned::Newest {
        tap: 3,
        file: 0,
        generation: 2,
    },
];

/// The calls of a new table.
struct AheadCase {
    name: &'static str,
    steps: &'static [Step],
}

// A file that was not read yet is opened for its record, with three reads, or six if three of its
// entries have their values elsewhere, and once more to be lent. The 16 rows of a cell are one
// read, and so are those of all cells read with it.
static CASES: &[AheadCase] = &[
    AheadCase {
        name: "in scan order twice as many cells are read each time, at most 32",
        steps: &[
            (Load(0, 0, (0, 0)), Cell(1), 6),
            (Load(0, 0, (16, 0)), Cell(1), 1),
            (Load(0, 0, (32, 0)), Cell(1), 0),
            (Load(0, 0, (48, 0)), Cell(1), 1),
            (Load(0, 0, (96, 0)), Cell(1), 0),
            (Load(0, 0, (112, 0)), Cell(1), 1),
            (Load(0, 0, (224, 0)), Cell(1), 0),
            (Load(0, 0, (0, 16)), Cell(1), 1),
            (Load(0, 0, (16, 16)), Cell(1), 0),
            (Load(0, 0, (240, 16)), Cell(1), 0),
            (Load(0, 0, (256, 16)), Cell(1), 1),
            (Load(0, 0, (752, 16)), Cell(1), 0),
            (Load(0, 0, (768, 16)), Cell(1), 1),
            (Load(0, 0, (1264, 16)), Cell(1), 0),
            (Load(0, 0, (1280, 16)), Cell(1), 1),
        ],
    },
    AheadCase {
        name: "as far as the right edge",
        steps: &[
            (Load(0, 0, (4160, 0)), Cell(1), 6),
            (Load(0, 0, (4176, 0)), Cell(1), 1),
            (Load(0, 0, (4199, 0)), Cell(1), 0),
            (Load(0, 0, (0, 16)), Cell(1), 1),
            (Load(0, 0, (48, 16)), Cell(1), 0),
        ],
    },
    AheadCase {
        name: "a cell that goes on from no other is read by itself",
        steps: &[
            (Load(0, 0, (320, 0)), Cell(1), 6),
            (Load(0, 0, (64, 0)), Cell(1), 1),
            (Load(0, 0, (96, 0)), Cell(1), 1),
            (Load(0, 0, (96, 16)), Cell(1), 1),
            (Aheads, Kept(1), 0),
            (Load(0, 0, (112, 16)), Cell(1), 1),
            (Load(0, 0, (128, 16)), Cell(1), 0),
        ],
    },
    AheadCase {
        name: "two rows of cells in turn, as the parts of a generated level are asked for",
        steps: &[
            (Load(0, 0, (0, 0)), Cell(1), 6),
            (Load(0, 0, (16, 0)), Cell(1), 1),
            (Load(0, 0, (0, 16)), Cell(1), 1),
            (Load(0, 0, (16, 16)), Cell(1), 0),
            (Load(0, 0, (32, 0)), Cell(1), 0),
            (Load(0, 0, (48, 0)), Cell(1), 1),
            (Load(0, 0, (32, 16)), Cell(1), 0),
            (Load(0, 0, (48, 16)), Cell(1), 0),
            (Load(0, 0, (64, 0)), Cell(1), 0),
            (Load(0, 0, (80, 0)), Cell(1), 0),
            (Load(0, 0, (64, 16)), Cell(1), 1),
            (Load(0, 0, (80, 16)), Cell(1), 0),
        ],
    },
    AheadCase {
        name: "of eight readings the one that went on longest ago gives way to a ninth",
        steps: &[
            (Load(0, 0, (0, 0)), Cell(1), 6),
            (Load(0, 0, (400, 0)), Cell(1), 1),
            (Load(0, 0, (800, 0)), Cell(1), 1),
            (Load(0, 0, (1200, 0)), Cell(1), 1),
            (Load(0, 0, (1600, 0)), Cell(1), 1),
            (Load(0, 0, (2000, 0)), Cell(1), 1),
            (Load(0, 0, (2400, 0)), Cell(1), 1),
            (Load(0, 0, (2800, 0)), Cell(1), 1),
            (Load(0, 0, (16, 0)), Cell(1), 1),
            (Load(0, 0, (32, 0)), Cell(1), 0),
            (Load(0, 0, (3200, 0)), Cell(1), 1),
            (Load(0, 0, (48, 0)), Cell(1), 1),
            (Load(0, 0, (64, 0)), Cell(1), 0),
            (Load(0, 0, (416, 0)), Cell(1), 1),
            (Load(0, 0, (432, 0)), Cell(1), 1),
        ],
    },
    AheadCase {
        name: "rows whose read fails are read again by the next call",
        steps: &[
            (Load(1, 0, (0, 0)), Cell(1), 6),
            (Load(1, 0, (16, 0)), Cell(1), 1),
            (Load(1, 0, (32, 0)), Cell(1), 0),
            (Load(1, 0, (48, 0)), Fault, 1),
            (Load(1, 0, (48, 0)), Cell(1), 2),
            (Load(1, 0, (64, 0)), Cell(1), 0),
            (Load(1, 0, (96, 0)), Cell(1), 0),
        ],
    },
    AheadCase {
        name: "callers cut from one stretch while one has the idle handle",
        steps: &[
            (Load(0, 0, (0, 0)), Cell(1), 6),
            (Load(0, 0, (16, 0)), Cell(1), 1),
            (Hold(0, 0), Done, 0),
            (Load(2, 0, (32, 0)), Cell(1), 1),
            (Hold(0, 0), Done, 0),
            (Load(2, 0, (48, 0)), Cell(1), 2),
            (Load(2, 0, (64, 0)), Cell(1), 0),
        ],
    },
    AheadCase {
        name: "of two that read of one file the later of each stretch stays",
        steps: &[
            (Load(0, 0, (0, 0)), Cell(1), 6),
            (Load(0, 0, (400, 0)), Cell(1), 1),
            (Load(0, 0, (16, 0)), Cell(1), 1),
            (Hold(0, 0), Done, 0),
            (Load(2, 0, (416, 0)), Cell(1), 2),
            (Settle, Done, 0),
            (Load(0, 0, (432, 0)), Cell(1), 0),
            (Load(0, 0, (32, 0)), Cell(1), 0),
        ],
    },
    AheadCase {
        name: "a newer generation is met by a read of its byte, and by none beside it",
        steps: &[
            (Load(2, 0, (0, 0)), Cell(1), 6),
            (Load(2, 0, (16, 0)), Cell(1), 1),
            (Load(2, 0, (32, 0)), Cell(1), 0),
            (Load(2, 0, (48, 16)), Cell(1), 1),
            (Load(2, 0, (96, 16)), Cell(1), 1),
            (Load(2, 0, (64, 16)), Gone(2), 1),
            (Forget(0), Done, 0),
            (Load(2, 0, (48, 0)), Cell(2), 6),
            (Load(2, 0, (64, 0)), Cell(2), 1),
        ],
    },
    AheadCase {
        name: "what was read ahead of an older generation is not used",
        steps: &[
            (Load(0, 0, (0, 0)), Cell(1), 6),
            (Load(0, 0, (16, 0)), Cell(1), 1),
            (Hold(0, 0), Done, 0),
            (Hold(3, 0), Again(2), 1),
            (Settle, Done, 0),
            (Aheads, Kept(1), 0),
            (Load(0, 0, (32, 0)), Cell(2), 6),
            (Load(0, 0, (48, 0)), Cell(2), 1),
        ],
    },
    AheadCase {
        name: "what was read ahead of an older generation gives way",
        steps: &[
            (Load(0, 0, (0, 0)), Cell(1), 6),
            (Load(0, 0, (16, 0)), Cell(1), 1),
            (Hold(0, 0), Done, 0),
            (Hold(3, 0), Again(2), 1),
            (Load(0, 0, (32, 0)), Cell(2), 6),
            (Settle, Done, 0),
            (Load(0, 0, (48, 0)), Cell(2), 1),
            (Load(0, 0, (64, 0)), Cell(2), 0),
        ],
    },
    AheadCase {
        name: "what was read ahead is kept of five files",
        steps: &[
            (Load(0, 0, (0, 0)), Cell(1), 6),
            (Load(0, 0, (16, 0)), Cell(1), 1),
            (Load(0, 1, (0, 0)), Cell(1), 6),
            (Load(0, 1, (16, 0)), Cell(1), 1),
            (Load(0, 2, (0, 0)), Cell(1), 6),
            (Load(0, 2, (16, 0)), Cell(1), 1),
            (Load(0, 3, (0, 0)), Cell(1), 6),
            (Load(0, 3, (16, 0)), Cell(1), 1),
            (Load(0, 0, (32, 0)), Cell(1), 0),
            (Aheads, Kept(4), 0),
            (Load(0, 4, (0, 0)), Cell(1), 6),
            (Aheads, Kept(5), 0),
            (Load(0, 0, (48, 0)), Cell(1), 1),
            (Load(0, 0, (64, 0)), Cell(1), 0),
            (Load(0, 1, (32, 0)), Cell(1), 0),
            (Forget(1), Done, 0),
            (Aheads, Kept(4), 0),
        ],
    },
    AheadCase {
        name: "each plane is read ahead",
        steps: &[
            (Load(0, 5, (0, 0)), Cell(1), 11),
            (Load(0, 5, (16, 0)), Cell(1), 3),
            (Load(0, 5, (32, 0)), Cell(1), 0),
            (Load(0, 5, (48, 0)), Cell(1), 3),
            (Load(0, 5, (0, 16)), Cell(1), 3),
            (Load(0, 5, (16, 16)), Cell(1), 0),
            (Load(0, 5, (320, 0)), Cell(1), 3),
        ],
    },
    AheadCase {
        name: "strips that do not follow one another are a read each, and of twice as many cells each time",
        steps: &[
            (Load(0, 7, (0, 0)), Cell(1), 8),
            (Load(0, 7, (16, 0)), Cell(1), 2),
            (Load(0, 7, (32, 0)), Cell(1), 0),
            (Load(0, 7, (48, 0)), Cell(1), 2),
            (Load(0, 7, (0, 16)), Cell(1), 2),
            (Load(0, 7, (112, 16)), Cell(1), 0),
            (Load(0, 7, (128, 16)), Cell(1), 2),
            (Load(0, 7, (320, 0)), Cell(1), 2),
            (Load(0, 7, (336, 0)), Cell(1), 2),
        ],
    },
    AheadCase {
        name: "nine directories are eight reads, and the handle is lent for the first tile",
        steps: &[
            (Load(0, 6, (0, 0)), Cell(1), 10),
            (Load(0, 6, (200, 100)), Cell(1), 1),
            (Load(0, 6, (100, 200)), Cell(1), 1),
        ],
    },
    AheadCase {
        name: "tiles side by side in scan order: from the 33rd on twice as many each time, to the right edge",
        steps: &[
            (Scan(0, 8, 32), Cell(1), 38),
            (Load(0, 8, (0, 64)), Cell(1), 1),
            (Load(0, 8, (16, 64)), Cell(1), 0),
            (Load(0, 8, (32, 64)), Cell(1), 1),
            (Load(0, 8, (48, 64)), Cell(1), 0),
            (Load(0, 8, (80, 64)), Cell(1), 0),
            (Load(0, 8, (96, 64)), Cell(1), 1),
            (Load(0, 8, (112, 64)), Cell(1), 0),
            (Load(0, 8, (0, 80)), Cell(1), 1),
            (Load(0, 8, (112, 80)), Cell(1), 0),
            (Load(0, 8, (48, 0)), Cell(1), 1),
        ],
    },
    AheadCase {
        name: "a read that fails is not tried again, also if it read more than was asked for",
        steps: &[
            (Load(1, 6, (0, 0)), Fault, 8),
            (Load(1, 6, (0, 0)), Cell(1), 10),
            (Scan(1, 8, 32), Cell(1), 38),
            (Load(1, 8, (0, 64)), Fault, 1),
            (Load(1, 8, (0, 64)), Cell(1), 2),
            (Load(1, 8, (16, 64)), Cell(1), 0),
            (Load(1, 8, (32, 64)), Cell(1), 1),
            (Load(1, 8, (80, 64)), Cell(1), 0),
        ],
    },
    AheadCase {
        name: "what is dropped is forgotten",
        steps: &[
            (Load(0, 0, (0, 0)), Cell(1), 6),
            (Load(0, 0, (16, 0)), Cell(1), 1),
            (Forget(0), Done, 0),
            (Aheads, Kept(0), 0),
            (Load(0, 0, (32, 0)), Cell(1), 6),
        ],
    },
];

/// Makes the calls of a case on a new table.
fn check_case(alloc: Global, checks: &mut Checks, case: &AheadCase) -> Result<(), Fail> {
    let cut = Cut {
        autotile: 16,
        automip: false,
    };
    let taps = taps_of(alloc, PLAN, 4)?;
    let (files, view) = Files::<MemTap<Strips>>::new(alloc, 9, 9, cut)?;
    let seat = Seat {
        files: &files,
        view,
    };
    let mut visitor = Visitor {
        alloc,
        seat,
        taps,
        held: None,
    };
    visitor.check(checks, case.steps);
    Ok(())
}

#[test]
fn reads_ahead_as_each_case_says(rt: HostRuntime) -> Result<(), Fail> {
    let mut checks = Checks::new();
    for case in CASES {
        checks.case(case.name);
        check_case(rt.alloc(), &mut checks, case)?;
    }
    checks.result()
}
