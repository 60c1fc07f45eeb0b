//! A file table over a real folder, whose files change.
ghost use Rattle.std.specs.Prelude.{ℕ, ◌<◌};
ghost use Rattle.tex_world.specs.World.{IsFile};

use crate::script::Answer::{Again, Bad, Done, Fault, Gone, Is};
use crate::script::Call::{Forget, Lend, Read, Record, Settle};
use crate::script::{Counts, Script, Shows, Step};
use crate::seat::Seat;
use crate::worker::Worker;
use file_table::Files;
use host_folder::RealFolder;
use std::alloc::Global;
use std::fs;
use std::test::Fail;
use test_files::{Checks, THREE};
use tex_world::{EnterError, Folder, Tap};
use tiff_format::Cut;
use waiter::Tries;

const CUT: Cut = Cut {
    autotile: 64,
    automip: true,
};

/// What happens to the file after the calls of a case.
#[derive(Clone, Copy)]
enum Change {
    /// Another file takes its place.
    Longer,
    /// It is truncated in the middle of its directory.
    Short,
    Gone,
}

// no newer generation was met, and no call failed
const NONE: Counts = [0, 0];

// a newer generation was met
const MOVED: Counts = [1, 0];

// a call failed
const FAILED: Counts = [0, 1];

/// The calls of a case with their answers and counts, and what happens to the file before the next
/// case.
struct FolderCase {
    name: &'static str,
    steps: &'static [Step],
    change: Change,
}

static CASES: &[FolderCase] = &[
    FolderCase {
        name: "the first file",
        steps: &[
            (Record(0, 0), Is(1), NONE),
            (Lend(0, 0), Is(1), NONE),
            (Settle, Done, NONE),
            (Record(0, 0), Is(1), NONE),
        ],
        change: Change::Longer,
    },
    FolderCase {
        name: "a longer file in its place",
        steps: &[
            (Record(0, 0), Is(1), NONE),
            (Forget(0), Done, NONE),
            (Lend(0, 0), Again(1, 2), MOVED),
            (Record(0, 0), Is(2), NONE),
            (Lend(0, 0), Is(2), NONE),
        ],
        change: Change::Short,
    },
    FolderCase {
        name: "a file cut in its directory",
        steps: &[
            (Read(0), Gone(3), MOVED),
            (Lend(0, 0), Again(2, 3), MOVED),
            (Record(0, 0), Bad(3), NONE),
            (Lend(0, 0), Is(3), NONE),
            (Settle, Done, NONE),
        ],
        change: Change::Gone,
    },
    FolderCase {
        name: "no file",
        steps: &[
            (Record(0, 0), Bad(3), NONE),
            (Lend(0, 0), Is(3), NONE),
            (Read(0), Fault, FAILED),
            (Forget(0), Done, NONE),
            (Lend(0, 0), Fault, FAILED),
            (Record(0, 0), Fault, FAILED),
        ],
        change: Change::Gone,
    },
];

// Makes a tap of the folder at this path.
fn tap_of<F: Folder + Drop>(mut folder: F, alloc: Global, path: &str) -> Result<F::Tap, Fail> {
    match folder.enter(alloc, path) {
        Ok(()) => Ok(folder.tap(alloc)?),
        Err(_refused) => Err("not entered".into()),
    }
}

fn make(rt: &HostRuntime, change: Change) -> Result<(), Fail> {
    match change {
        Change::Longer => {
            let mut longer = THREE.to_vec(rt.alloc())?;
            longer.push(0)?;
            fs::write(rt, "changing/new", &longer)?;
            fs::rename(rt, "changing/new", "changing/a.tif")?;
        }
        Change::Short => fs::write(rt, "changing/a.tif", &THREE[..60])?,
        Change::Gone => {
            let _ = fs::remove_file(rt, "changing/a.tif");
        }
    }
    Ok(())
}

// Makes the calls of all cases, and changes the file between them.
fn check_changes<T: Tap + Drop + Shows>(
    rt: &HostRuntime,
    checks: &mut Checks,
    script: &mut Script<'_, T>,
) -> Result<(), Fail>
    requires { (file : ℕ) → file < 3 → IsFile T.W.files file }
{
    for case in CASES {
        checks.case(case.name);
        script.check(checks, case.steps);
        make(rt, case.change)?;
    }
    Ok(())
}

// Checks all cases on a new table with this tap alone.
fn check_cases<T: Tap + Drop + Shows>(
    rt: &HostRuntime,
    checks: &mut Checks,
    tap: T,
) -> Result<(), Fail>
    requires { (file : ℕ) → file < 3 → IsFile T.W.files file }
{
    let mut taps = Vec::new(rt.alloc());
    taps.push(tap)?;
    let (files, view) = Files::new(rt.alloc(), 1, 4, CUT)?;
    let seat = Seat {
        files: &files,
        view,
    };
    check_changes(rt, checks, &mut Script::new(rt.alloc(), seat, taps))
}

#[test]
fn files_change_between_two_calls(rt: HostRuntime) -> Result<(), Fail> {
    let mut checks = Checks::new();
    fs::create_dir(&rt, "changing")?;
    fs::write(&rt, "changing/a.tif", &THREE)?;
    let tap = tap_of(RealFolder::new(&rt), rt.alloc(), "changing")?;
    check_cases(&rt, &mut checks, tap)?;
    checks.result()
}

// A path that ends in a number.
fn numbered(alloc: Global, folder: &str, number: u32) -> Result<String, Fail> {
    Ok(format!(in alloc; "{folder}{number}")?)
}

// The number of open file descriptors below 99.
fn open_descriptors(rt: &HostRuntime) -> Result<usize, Fail> {
    let mut count = 0usize;
    for descriptor in 0..99u32 {
        let path = numbered(rt.alloc(), "/proc/self/fd/", descriptor)?;
        if fs::metadata(rt, path.as_str()).is_ok() {
            count = count.saturating_add(1);
        }
    }
    Ok(count)
}

// Writes this many equal files.
fn write_files(rt: &HostRuntime, alloc: Global, folder: &str, count: u32) -> Result<(), Fail> {
    for n in 0..count {
        let path = numbered(alloc, folder, n)?;
        fs::write(rt, path.as_str(), &THREE)?;
    }
    Ok(())
}

// How many files are visited how often, with at most ten idle handles.
#[derive(Clone, Copy)]
struct Visited {
    well: u32,
    idle: usize,
    // the descriptors that are open with the table
    opened: usize,
}

// Visits all files of a table.
fn visit_files<T: Tap + Drop>(
    rt: &HostRuntime,
    worker: &mut Worker<'_, T>,
    count: u32,
) -> Result<Visited, Fail>
    requires { (file : ℕ) → file < count → IsFile T.W.files file }
{
    let waiter = Tries::new(9);
    let well = worker.work(&waiter, count, 25);
    let Ok(idle) = worker.files.idle(&waiter) else {
        return Err("busy".into());
    };
    let opened = open_descriptors(rt)?;
    Ok(Visited { well, idle, opened })
}

// Visits all files of a new table, which is gone afterwards.
fn visit_all<T: Tap + Drop>(rt: &HostRuntime, tap: T, count: u32) -> Result<Visited, Fail>
    requires { (file : ℕ) → file < count → IsFile T.W.files file }
{
    let (files, view) = Files::new(rt.alloc(), count, 10, CUT)?;
    let mut worker = Worker {
        files: &files,
        view,
        tap,
    };
    visit_files(rt, &mut worker, count)
}

#[test]
fn no_descriptor_stays_open(rt: HostRuntime) -> Result<(), Fail> {
    fs::create_dir(&rt, "many")?;
    write_files(&rt, rt.alloc(), "many/", 200)?;
    let tap = tap_of(RealFolder::new(&rt), rt.alloc(), "many")?;
    let before = open_descriptors(&rt)?;
    let visited = visit_all(&rt, tap, 200)?;
    let left = open_descriptors(&rt)?.saturating_sub(before);
    let mut checks = Checks::new();
    checks.equal("visits", u64::from(visited.well), 5000);
    checks.equal("handles that lie idle", visited.idle as u64, 10);
    checks.equal(
        "descriptors with the table",
        visited.opened.saturating_sub(before) as u64,
        10,
    );
    checks.equal("descriptors after its end", left as u64, 0);
    checks.result()
}

#[test]
fn a_folder_has_4096_files_at_most(rt: HostRuntime) -> Result<(), Fail> {
    fs::create_dir(&rt, "full")?;
    write_files(&rt, rt.alloc(), "full/", 4096)?;
    let mut checks = Checks::new();
    let entered = RealFolder::new(&rt).enter(rt.alloc(), "full");
    checks.holds("4096 files are entered", entered == Ok(()));
    fs::write(&rt, "full/further", &THREE)?;
    let entered = RealFolder::new(&rt).enter(rt.alloc(), "full");
    checks.holds(
        "4097 files are too many",
        entered == Err(EnterError::TooMany),
    );
    checks.result()
}
