//! Two taps of one real folder, which share what was seen of its files.
ghost use Rattle.std.specs.Prelude.{ℕ, ◌<◌};
ghost use Rattle.tex_world.specs.World.{IsFile};

use file_stamp::{generation_after, settle_word};
use host_folder::RealFolder;
use std::alloc::Global;
use std::sync::atomic::{AtomicU64, Ordering};
use std::test::Fail;
use std::thread::Threads;
use std::{fs, thread};
use test_files::Checks;
use tex_world::{Folder, Tap};

/// What happens to the file before a tap is asked.
#[derive(Clone, Copy)]
enum Change {
    Stays,
    Written(&'static str),
    /// Another file takes its place.
    Replaced(&'static str),
    Removed,
}

// What happens to the file, which tap is then asked for its newest generation, and what it answers;
// 0 if it fails.
struct NewestCase {
    change: Change,
    tap: usize,
    generation: u32,
}

static CASES: &[NewestCase] = &[
    NewestCase {
        change: Change::Stays,
        tap: 0,
        generation: 1,
    },
    NewestCase {
        change: Change::Stays,
        tap: 1,
        generation: 1,
    },
    // the second tap sees the change, and the first does not count it again
    NewestCase {
        change: Change::Written("second"),
        tap: 1,
        generation: 2,
    },
    NewestCase {
        change: Change::Stays,
        tap: 0,
        generation: 2,
    },
    NewestCase {
        change: Change::Stays,
        tap: 1,
        generation: 2,
    },
    NewestCase {
        change: Change::Replaced("the third"),
        tap: 0,
        generation: 3,
    },
    NewestCase {
        change: Change::Stays,
        tap: 1,
        generation: 3,
    },
    NewestCase {
        change: Change::Written("of four"),
        tap: 0,
        generation: 4,
    },
    NewestCase {
        change: Change::Written("the fourth"),
        tap: 1,
        generation: 5,
    },
    NewestCase {
        change: Change::Stays,
        tap: 0,
        generation: 5,
    },
    NewestCase {
        change: Change::Removed,
        tap: 0,
        generation: 0,
    },
    NewestCase {
        change: Change::Stays,
        tap: 1,
        generation: 0,
    },
    NewestCase {
        change: Change::Written("the fifth one"),
        tap: 1,
        generation: 6,
    },
    NewestCase {
        change: Change::Stays,
        tap: 0,
        generation: 6,
    },
];

fn make(rt: &HostRuntime, change: Change) -> Result<(), Fail> {
    match change {
        Change::Stays => {}
        Change::Written(text) => fs::write(rt, "twice/a.tif", text)?,
        Change::Replaced(text) => {
            fs::write(rt, "twice/new", text)?;
            fs::rename(rt, "twice/new", "twice/a.tif")?;
        }
        Change::Removed => fs::remove_file(rt, "twice/a.tif")?,
    }
    Ok(())
}

// The newest generation of a file; 0 if the tap fails.
fn newest<T: Tap>(tap: &mut T, file: u32) -> u32
    requires { IsFile T.W.files file }
{
    match tap.newest(file, 0) {
        Ok(generation) => generation,
        Err(_failed) => 0,
    }
}

// Makes each change, and asks a tap.
fn check_newest<T: Tap>(rt: &HostRuntime, checks: &mut Checks, mut taps: (T, T)) -> Result<(), Fail>
where
    T: Drop,
    requires { IsFile T.W.files 0 }
{
    for case in CASES {
        checks.case("a change and a question");
        make(rt, case.change)?;
        let answer = if case.tap == 0 {
            newest(&mut taps.0, 0)
        } else {
            newest(&mut taps.1, 0)
        };
        checks.equal(
            "the generation",
            u64::from(answer),
            u64::from(case.generation),
        );
    }
    Ok(())
}

// Makes two taps of the folder at this path.
fn taps_of<F: Folder + Drop>(
    mut folder: F,
    alloc: Global,
    path: &str,
) -> Result<(F::Tap, F::Tap), Fail>
where
    F::Tap: Drop,
{
    match folder.enter(alloc, path) {
        Ok(()) => {
            let first = folder.tap(alloc)?;
            let second = folder.tap(alloc)?;
            Ok((first, second))
        }
        Err(_refused) => Err("not entered".into()),
    }
}

#[test]
fn taps_of_a_folder_see_one_generation(rt: HostRuntime) -> Result<(), Fail> {
    fs::create_dir(&rt, "twice")?;
    fs::write(&rt, "twice/a.tif", "first")?;
    let taps = taps_of(RealFolder::new(&rt), rt.alloc(), "twice")?;
    let mut checks = Checks::new();
    check_newest(&rt, &mut checks, taps)?;
    checks.result()
}

/// One more than the greatest stamp: a word has the stamp in its lowest 44 bits.
const STAMPS: u64 = 1 << 44;

// What a shared word holds.
#[derive(Clone, Copy)]
struct Word {
    generation: u64,
    stamp: u64,
}

impl Word {
    fn packed(self) -> u64 {
        self.generation
            .wrapping_mul(STAMPS)
            .wrapping_add(self.stamp)
    }
}

// What another tap does to a word during a freshness check: the word that was read, the one found at
// the exchange, the stamp of the file, and the resulting generation; 0 if the call fails.
struct Exchange {
    loaded: Word,
    found: Word,
    stamp: u64,
    generation: u64,
}

static EXCHANGES: &[Exchange] = &[
    // the stamp is unchanged
    Exchange {
        loaded: Word {
            generation: 3,
            stamp: 7,
        },
        found: Word {
            generation: 3,
            stamp: 7,
        },
        stamp: 7,
        generation: 3,
    },
    // this tap exchanges the word first
    Exchange {
        loaded: Word {
            generation: 0,
            stamp: 0,
        },
        found: Word {
            generation: 0,
            stamp: 0,
        },
        stamp: 5,
        generation: 1,
    },
    Exchange {
        loaded: Word {
            generation: 0,
            stamp: 0,
        },
        found: Word {
            generation: 0,
            stamp: 0,
        },
        stamp: 0,
        generation: 1,
    },
    Exchange {
        loaded: Word {
            generation: 3,
            stamp: 7,
        },
        found: Word {
            generation: 3,
            stamp: 7,
        },
        stamp: 8,
        generation: 4,
    },
    Exchange {
        loaded: Word {
            generation: 1048574,
            stamp: 7,
        },
        found: Word {
            generation: 1048574,
            stamp: 7,
        },
        stamp: 8,
        generation: 1048575,
    },
    Exchange {
        loaded: Word {
            generation: 1048575,
            stamp: 7,
        },
        found: Word {
            generation: 1048575,
            stamp: 7,
        },
        stamp: 8,
        generation: 0,
    },
    // another tap was first, with the same stamp
    Exchange {
        loaded: Word {
            generation: 3,
            stamp: 7,
        },
        found: Word {
            generation: 4,
            stamp: 8,
        },
        stamp: 8,
        generation: 4,
    },
    Exchange {
        loaded: Word {
            generation: 3,
            stamp: 7,
        },
        found: Word {
            generation: 9,
            stamp: 8,
        },
        stamp: 8,
        generation: 9,
    },
    Exchange {
        loaded: Word {
            generation: 0,
            stamp: 0,
        },
        found: Word {
            generation: 1,
            stamp: 0,
        },
        stamp: 0,
        generation: 1,
    },
    Exchange {
        loaded: Word {
            generation: 1048574,
            stamp: 7,
        },
        found: Word {
            generation: 1048575,
            stamp: 8,
        },
        stamp: 8,
        generation: 1048575,
    },
    // another tap was first, with another stamp
    Exchange {
        loaded: Word {
            generation: 3,
            stamp: 7,
        },
        found: Word {
            generation: 4,
            stamp: 9,
        },
        stamp: 8,
        generation: 0,
    },
    Exchange {
        loaded: Word {
            generation: 0,
            stamp: 0,
        },
        found: Word {
            generation: 1,
            stamp: 6,
        },
        stamp: 5,
        generation: 0,
    },
    Exchange {
        loaded: Word {
            generation: 3,
            stamp: 7,
        },
        found: Word {
            generation: 5,
            stamp: 7,
        },
        stamp: 8,
        generation: 0,
    },
];

// An exchange that is lost leaves the other tap's word and does not count as won.
fn check_exchange(checks: &mut Checks, case: &Exchange) {
    let (loaded, found) = (case.loaded.packed(), case.found.packed());
    let stamp = case.stamp % STAMPS;
    let after = generation_after(loaded, found, stamp).unwrap_or(0);
    checks.equal("the generation", u64::from(after), case.generation);
    let shared = AtomicU64::new(found);
    let settled = settle_word(&shared, loaded, stamp).unwrap_or(0);
    checks.equal(
        "the generation after an exchange",
        u64::from(settled),
        case.generation,
    );
    let own = Word {
        generation: case.generation,
        stamp,
    };
    let is_won = loaded == found && case.generation != 0;
    let left = if is_won { own.packed() } else { found };
    checks.equal("the word that is left", shared.load(Ordering::SeqCst), left);
}

#[test]
fn an_exchange_is_won_or_lost(rt: HostRuntime) -> Result<(), Fail> {
    let mut checks = Checks::new();
    for case in EXCHANGES {
        checks.case("an exchange");
        check_exchange(&mut checks, case);
    }
    checks.result()
}

/// The number of files that two threads ask for at once, both in the same order.
const FILES: u32 = 300;

// Writes this many files again, each with this many bytes.
fn write_all(rt: &HostRuntime, files: u32, bytes: usize) -> Result<(), Fail> {
    let alloc = rt.alloc();
    let text = "a".repeat(alloc, bytes)?;
    for n in 0..files {
        let path = format!(in alloc; "raced/{n}")?;
        fs::write(rt, path.as_str(), text.as_str())?;
    }
    Ok(())
}

// How many of the first files have this generation.
fn count_of<T: Tap>(tap: &mut T, files: u32, generation: u32) -> u32
    requires { (file : ℕ) → file < files → IsFile T.W.files file }
{
    let mut count = 0u32;
    for file in 0..files {
        if newest(tap, file) == generation {
            count = count.saturating_add(1);
        }
    }
    count
}

// Lets each of two taps count in its own thread.
fn counts_of<T: Tap + Send>(
    threads: &impl Threads,
    taps: &mut (T, T),
    files: u32,
    generation: u32,
) -> (u32, u32)
where
    T::Handle: Send,
    T::W: Send,
    requires { (file : ℕ) → file < files → IsFile T.W.files file }
{
    let (first, second) = taps;
    thread::join(
        threads,
        move || count_of(first, files, generation),
        move || count_of(second, files, generation),
    )
}

// Compares the counts for each generation that the files get.
fn check_race<T: Tap + Send + Drop>(
    rt: &HostRuntime,
    threads: &impl Threads,
    checks: &mut Checks,
    mut taps: (T, T),
) -> Result<(), Fail>
where
    T::Handle: Send,
    T::W: Send,
    requires { (file : ℕ) → file < 300 → IsFile T.W.files file }
{
    for generation in 1..5u32 {
        checks.case("a generation of all files");
        write_all(rt, FILES, generation as usize)?;
        let counts = counts_of(threads, &mut taps, FILES, generation);
        checks.equal(
            "files that one tap sees",
            u64::from(counts.0),
            u64::from(FILES),
        );
        checks.equal(
            "files that the other sees",
            u64::from(counts.1),
            u64::from(FILES),
        );
    }
    Ok(())
}

// Each file has the next generation for both taps, whichever of them saw it first.
#[test]
fn an_exchange_that_is_lost_gives_the_same_generation(rt: HostRuntime) -> Result<(), Fail> {
    fs::create_dir(&rt, "raced")?;
    write_all(&rt, FILES, 9)?;
    let taps = taps_of(RealFolder::new(&rt), rt.alloc(), "raced")?;
    let mut checks = Checks::new();
    check_race(&rt, &rt, &mut checks, taps)?;
    checks.result()
}
