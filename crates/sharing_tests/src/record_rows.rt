//! Records and idle handles of files in memory.

use crate::bench::{Bench, memory_bench};
use crate::script::Answer::{Again, Bad, Done, Fault, Is};
use crate::script::Call::{Forget, Idle, Lend, LendFirst, Record, Seen, Settle};
use crate::script::{Counts, Script, Step};
use crate::seat::Seat;
use std::alloc::Global;
use std::test::Fail;
use test_files::Checks;

// `A.tif`, which has two generations; tap 1 knows the newer one
const A: u32 = 0;

// `three.tif`
const T: u32 = 1;

// `short.tif`, a file with a fault
const S: u32 = 2;

// no call
const NONE: Counts = [0, 0];

// a file is opened
const OPENED: Counts = [1, 0];

// a file is opened and read: its header, its number of entries, and the entries
const READ: Counts = [4, 0];

/// The greatest number of idle handles, and the calls with their answers and the calls and I/O
/// errors that their tap counts. The first call of tap 2 fails, and tap 3 meets the newer generation
/// when it reads the number of entries.
struct RecordsCase {
    name: &'static str,
    idle: usize,
    steps: &'static [Step],
}

static CASES: &[RecordsCase] = &[
    RecordsCase {
        name: "a record is read once",
        idle: 4,
        steps: &[
            (Record(0, A), Is(1), READ),
            (Record(0, A), Is(1), NONE),
            (Record(1, A), Is(1), NONE),
        ],
    },
    RecordsCase {
        name: "what was forgotten is read again",
        idle: 4,
        steps: &[
            (Record(0, A), Is(1), READ),
            (Forget(A), Done, NONE),
            (Record(0, A), Is(1), READ),
        ],
    },
    RecordsCase {
        name: "the fault of a bad file is kept",
        idle: 4,
        steps: &[(Record(0, S), Bad(1), OPENED), (Record(0, S), Bad(1), NONE)],
    },
    RecordsCase {
        name: "a failed call is not tried again",
        idle: 4,
        steps: &[(Record(2, A), Fault, [1, 1]), (Record(2, A), Is(1), READ)],
    },
    RecordsCase {
        name: "a read meets a newer generation",
        idle: 4,
        steps: &[
            (Record(3, A), Again(1, 2), [3, 0]),
            (Seen(A), Is(2), NONE),
            (Record(0, A), Is(2), READ),
        ],
    },
    RecordsCase {
        name: "a settled handle is lent again",
        idle: 4,
        steps: &[
            (Record(0, A), Is(1), READ),
            (Lend(0, A), Is(1), OPENED),
            (Settle, Done, NONE),
            (Idle, Is(1), NONE),
            (Lend(0, A), Is(1), NONE),
            (Idle, Is(0), NONE),
        ],
    },
    RecordsCase {
        name: "what is dropped is closed",
        idle: 4,
        steps: &[
            (Record(0, A), Is(1), READ),
            (Lend(0, A), Is(1), OPENED),
            (Settle, Done, NONE),
            (Forget(A), Done, NONE),
            (Idle, Is(0), NONE),
        ],
    },
    RecordsCase {
        name: "a newer generation is met on lending",
        idle: 4,
        steps: &[
            (Record(0, A), Is(1), READ),
            (Lend(1, A), Again(1, 2), OPENED),
            (Seen(A), Is(2), NONE),
            (Record(0, A), Is(2), READ),
        ],
    },
    RecordsCase {
        name: "a newer handle stays idle",
        idle: 4,
        steps: &[
            (Record(0, A), Is(1), READ),
            (Lend(0, A), Is(1), OPENED),
            (Lend(1, A), Again(1, 2), OPENED),
            (Record(0, A), Is(2), READ),
            (Lend(0, A), Is(2), OPENED),
            (Settle, Done, NONE),
            (Settle, Done, NONE),
            (Idle, Is(1), NONE),
            (Lend(0, A), Is(2), NONE),
        ],
    },
    RecordsCase {
        name: "a newer idle handle stays if an older generation is lent",
        idle: 4,
        steps: &[
            (Record(0, A), Is(1), READ),
            (Lend(1, A), Again(1, 2), OPENED),
            (Record(0, A), Is(2), READ),
            (Lend(0, A), Is(2), OPENED),
            (Settle, Done, NONE),
            (LendFirst(0, A), Is(1), OPENED),
            (Idle, Is(1), NONE),
            (Lend(0, A), Is(2), NONE),
            (Idle, Is(0), NONE),
        ],
    },
    RecordsCase {
        name: "the handle settled first is closed",
        idle: 1,
        steps: &[
            (Record(0, T), Is(1), READ),
            (Lend(0, T), Is(1), OPENED),
            (Settle, Done, NONE),
            (Record(0, A), Is(1), READ),
            (Lend(0, A), Is(1), OPENED),
            (Settle, Done, NONE),
            (Idle, Is(1), NONE),
            (Lend(0, A), Is(1), NONE),
            (Record(0, T), Is(1), NONE),
            (Lend(0, T), Is(1), OPENED),
        ],
    },
];

// Makes the calls of a case on a new table.
fn check_records(alloc: Global, checks: &mut Checks, case: &RecordsCase) -> Result<(), Fail> {
    if case.idle == 0 {
        return Err("no handle may lie idle".into());
    }
    let Bench { files, view, taps } = memory_bench(alloc, case.idle)?;
    let seat = Seat {
        files: &files,
        view,
    };
    Script::new(alloc, seat, taps).check(checks, case.steps);
    Ok(())
}

#[test]
fn answers_as_each_case_says(rt: HostRuntime) -> Result<(), Fail> {
    let mut checks = Checks::new();
    for case in CASES {
        checks.case(case.name);
        check_records(rt.alloc(), &mut checks, case)?;
    }
    checks.result()
}
