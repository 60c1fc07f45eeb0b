//! Reads of a real file that changes while it is read, and stamps of files whose time is set.
ghost use Rattle.std.specs.Prelude.{◌≤◌};
ghost use Rattle.tex_world.specs.World.{IsFile};

use host_folder::RealFolder;
use std::alloc::{Allocator, Global};
use std::cell::Cell;
use std::fs::{File, Files, Metadata, OpenOptions};
use std::test::Fail;
use std::time::{Duration, SystemTime};
use std::{fs, io};
use test_files::Checks;
use tex_world::{Folder, ReadError, Tap, TapHandle};

/// The file system. One of its files is rewritten right after a freshness check.
#[derive(Clone, Copy)]
struct Changing<'a> {
    rt: &'a HostRuntime,
    /// How many checks are made before the change; 0 if the file does not change.
    left: &'a Cell<u32>,
}

impl Files for Changing<'_> {
    type File = File;

    type Dir = <HostRuntime as Files>::Dir;

    fn open_file(&self, how: &OpenOptions, path: &str) -> io::Result<File> {
        self.rt.open_file(how, path)
    }

    fn open_dir(&self, path: &str) -> io::Result<Self::Dir> {
        self.rt.open_dir(path)
    }

    fn metadata(&self, path: &str) -> io::Result<Metadata> {
        let seen = fs::metadata(self.rt, path)?;
        let left = self.left.get();
        self.left.set(left.saturating_sub(1));
        if left == 1 {
            fs::write(self.rt, path, "other letters")?;
        }
        Ok(seen)
    }

    fn symlink_metadata(&self, path: &str) -> io::Result<Metadata> {
        self.rt.symlink_metadata(path)
    }

    fn copy(&self, from: &str, to: &str) -> io::Result<u64> {
        self.rt.copy(from, to)
    }

    fn rename(&self, from: &str, to: &str) -> io::Result<()> {
        self.rt.rename(from, to)
    }

    fn remove_file(&self, path: &str) -> io::Result<()> {
        self.rt.remove_file(path)
    }

    fn create_dir(&self, path: &str) -> io::Result<()> {
        self.rt.create_dir(path)
    }

    fn remove_dir(&self, path: &str) -> io::Result<()> {
        self.rt.remove_dir(path)
    }

    fn remove_dir_all<B: Allocator>(&self, alloc: B, path: &str) -> io::Result<()> {
        self.rt.remove_dir_all(alloc, path)
    }
}

/// The rows that are read into four bytes.
#[derive(Clone, Copy)]
enum Rows {
    /// One row, by `read_at`.
    One,
    /// Two rows, one after the other.
    Joined,
    /// Two rows with two bytes between them.
    Apart,
}

impl Rows {
    fn word(self) -> &'static str {
        match self {
            Rows::One => "one row",
            Rows::Joined => "two rows in one",
            Rows::Apart => "two rows apart",
        }
    }
}

/// What is read, after how many freshness checks the file changes, and what the read gives.
struct ReadCase {
    rows: Rows,
    after: u32,
    given: Result<&'static str, ReadError>,
}

static READS: &[ReadCase] = &[
    ReadCase {
        rows: Rows::One,
        after: 0,
        given: Ok("3456"),
    },
    ReadCase {
        rows: Rows::Joined,
        after: 0,
        given: Ok("3456"),
    },
    ReadCase {
        rows: Rows::Apart,
        after: 0,
        given: Ok("3478"),
    },
    // changed between the first check and the bytes: the second check notices
    ReadCase {
        rows: Rows::One,
        after: 1,
        given: Err(ReadError::Gone(2)),
    },
    ReadCase {
        rows: Rows::Joined,
        after: 1,
        given: Err(ReadError::Gone(2)),
    },
    ReadCase {
        rows: Rows::Apart,
        after: 1,
        given: Err(ReadError::Gone(2)),
    },
    // changed after the second check: the bytes were read before it
    ReadCase {
        rows: Rows::One,
        after: 2,
        given: Ok("3456"),
    },
    ReadCase {
        rows: Rows::Joined,
        after: 2,
        given: Ok("3456"),
    },
    ReadCase {
        rows: Rows::Apart,
        after: 2,
        given: Ok("3478"),
    },
];

/// Reads four bytes.
fn read<T: Tap>(tap: &mut T, handle: &mut T::Handle, rows: Rows) -> Result<[u8; 4], ReadError>
    requires { 10 ≤ (T.Handle.named handle.old).len }
{
    let mut bytes = [0u8; 4];
    match rows {
        Rows::One => tap.read_at(handle, 3, &mut bytes)?,
        Rows::Joined => tap.read_rows(handle, 3, 2, 2, &mut bytes)?,
        Rows::Apart => tap.read_rows(handle, 3, 4, 2, &mut bytes)?,
    }
    Ok(bytes)
}

/// What a read of a new handle gives, if the file changes after this many checks.
fn read_anew<T: Tap>(
    alloc: Global,
    tap: &mut T,
    left: &Cell<u32>,
    rows: Rows,
    after: u32,
) -> Result<Result<[u8; 4], ReadError>, Fail>
    requires { IsFile T.W.files 0 }
{
    let Ok(mut handle) = tap.open(alloc, 0, 0) else {
        return Err("not opened".into());
    };
    if handle.len() < 10 {
        return Err("too short".into());
    }
    left.set(after);
    Ok(read(tap, &mut handle, rows))
}

/// A tap of the folder at this path.
fn tap_of<F: Folder + Drop>(mut folder: F, alloc: Global, path: &str) -> Result<F::Tap, Fail> {
    match folder.enter(alloc, path) {
        Ok(()) => Ok(folder.tap(alloc)?),
        Err(_refused) => Err("not entered".into()),
    }
}

/// Compares what a read gives.
fn check_read<T: Tap + Drop>(
    alloc: Global,
    checks: &mut Checks,
    mut tap: T,
    left: &Cell<u32>,
    case: &ReadCase,
) -> Result<(), Fail>
    requires { IsFile T.W.files 0 }
{
    match (
        read_anew(alloc, &mut tap, left, case.rows, case.after)?,
        case.given,
    ) {
        (Ok(bytes), Ok(text)) => checks.holds("the bytes", bytes.as_slice() == text.as_bytes()),
        (Ok(_), Err(_)) => checks.word("the read", "bytes", "an error"),
        (Err(ReadError::Gone(to)), given) => {
            checks.holds(
                "a read that meets a newer generation",
                given == Err(ReadError::Gone(to)),
            );
        }
        (Err(ReadError::Failed), _) => checks.word("the read", "failed", "bytes or a generation"),
    }
    Ok(())
}

#[test]
fn a_read_checks_before_and_after_its_bytes(rt: HostRuntime) -> Result<(), Fail> {
    fs::create_dir(&rt, "during")?;
    let mut checks = Checks::new();
    for case in READS {
        checks.case(case.rows.word());
        fs::write(&rt, "during/a.tif", "0123456789")?;
        let left = Cell::new(0);
        let system = Changing {
            rt: &rt,
            left: &left,
        };
        let tap = tap_of(RealFolder::new((system, rt.alloc())), rt.alloc(), "during")?;
        check_read(rt.alloc(), &mut checks, tap, &left, case)?;
    }
    checks.result()
}

/// The length of a file and the nanoseconds of its time of change, and its generation then. All
/// times lie in one second.
struct StampCase {
    len: usize,
    nanos: u32,
    generation: u32,
}

static STAMPS: &[StampCase] = &[
    StampCase {
        len: 9,
        nanos: 500,
        generation: 1,
    },
    StampCase {
        len: 9,
        nanos: 500,
        generation: 1,
    },
    // one nanosecond later or earlier
    StampCase {
        len: 9,
        nanos: 501,
        generation: 2,
    },
    StampCase {
        len: 9,
        nanos: 500,
        generation: 3,
    },
    StampCase {
        len: 9,
        nanos: 499,
        generation: 4,
    },
    // another length at the same time
    StampCase {
        len: 8,
        nanos: 499,
        generation: 5,
    },
    StampCase {
        len: 8,
        nanos: 499,
        generation: 5,
    },
    StampCase {
        len: 9,
        nanos: 499,
        generation: 6,
    },
];

/// Writes a file with this length and this time of change.
fn write_stamped(rt: &HostRuntime, path: &str, len: usize, nanos: u32) -> Result<(), Fail> {
    let text = "a".repeat(rt.alloc(), len)?;
    fs::write(rt, path, text.as_str())?;
    let file = OpenOptions::new().write(true).open(rt, path)?;
    file.set_modified(SystemTime::UNIX_EPOCH + Duration::new(1_000_000_000, nanos))?;
    Ok(())
}

/// What a read through a handle, and then a question for the newest generation, give.
fn stamped<T: Tap>(tap: &mut T, handle: &mut T::Handle) -> (u32, u32)
    requires { IsFile T.W.files 0 }
{
    let read = if handle.len() == 0 {
        0
    } else {
        match tap.read_at(handle, 0, &mut [0u8; 1]) {
            Ok(()) => handle.generation(),
            Err(ReadError::Gone(to)) => to,
            Err(ReadError::Failed) => 0,
        }
    };
    (read, tap.newest(0, 0).unwrap_or(0))
}

/// Compares the generations after each change.
fn check_stamps<T: Tap + Drop>(
    rt: &HostRuntime,
    checks: &mut Checks,
    mut tap: T,
    path: &str,
) -> Result<(), Fail>
    requires { IsFile T.W.files 0 }
{
    let Ok(mut handle) = tap.open(rt.alloc(), 0, 0) else {
        return Err("not opened".into());
    };
    for case in STAMPS {
        checks.case("a stamp");
        write_stamped(rt, path, case.len, case.nanos)?;
        let (read, newest) = stamped(&mut tap, &mut handle);
        checks.equal(
            "the generation of a read",
            u64::from(read),
            u64::from(case.generation),
        );
        checks.equal(
            "the newest generation",
            u64::from(newest),
            u64::from(case.generation),
        );
        handle = match tap.open(rt.alloc(), 0, 0) {
            Ok(handle) => handle,
            Err(_) => return Err("not opened again".into()),
        };
    }
    Ok(())
}

#[test]
fn a_stamp_has_length_and_nanoseconds(rt: HostRuntime) -> Result<(), Fail> {
    fs::create_dir(&rt, "stamped")?;
    write_stamped(&rt, "stamped/a.tif", 9, 500)?;
    let tap = tap_of(RealFolder::new(&rt), rt.alloc(), "stamped")?;
    let mut checks = Checks::new();
    check_stamps(&rt, &mut checks, tap, "stamped/a.tif")?;
    checks.result()
}
