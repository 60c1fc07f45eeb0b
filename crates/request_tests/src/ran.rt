//! Runs the top call over files in memory.

use crate::small_files::SmallFiles;
use render_run::{Hook, NoHook, run};
use std::alloc::{AllocError, Global};
use std::process::Abort;
use std::str::from_utf8;
use std::sync::Wait;
use std::thread::Threads;
use tex_world::{FailByte, FailCall, FileTable, MemFeed, MemFolder, MemSink, Newest, Plan, Rise};

/// What fails in a run.
#[derive(Clone, Copy)]
pub(crate) enum Failing {
    Nothing,
    /// The first `enter` of the folder.
    Enter,
    /// The call with this number, counted from 1, of the folder's tap.
    Tap(u64),
    /// The call with this number of the feed.
    Feed(u64),
    /// The call with this number of the sink.
    Sink(u64),
    /// The file with this number turns out to have generation 2 at the first read of this byte.
    Rise(u32, u64),
    /// The first read of this byte of the folder's first file.
    Byte(u64),
    /// A tap's newest generation of a file is not the first.
    Newer(Newest),
}

/// What a run left. The counts are the folder's.
#[derive(Drop)]
pub(crate) struct Ran {
    written: MemSink,
    status: u8,
    faults: u64,
    moves: u64,
    pub(crate) made: u64,
    returned: u64,
}

impl Ran {
    fn wrote(&self, rt: &impl Abort, written: &str, message: &str) {
        let text = from_utf8(self.written.bytes()).unwrap_or("no text");
        assert!(rt; text == written, "in {message}: {text}");
    }

    /// Checks that the run wrote one of these and ended with this status, and that each tap was
    /// given back.
    pub(crate) fn is_one_of(&self, rt: &impl Abort, written: &[&str], status: u8, message: &str) {
        let text = from_utf8(self.written.bytes()).unwrap_or("no text");
        assert!(rt; written.contains(&text), "in {message}: {text}");
        self.is(rt, text, status, message);
    }

    /// Checks that the run wrote this and ended with this status, and that each tap was given back.
    pub(crate) fn is(&self, rt: &impl Abort, written: &str, status: u8, message: &str) {
        self.wrote(rt, written, message);
        assert!(rt; self.status == status, "status in {message}");
        assert!(rt; self.made == self.returned, "taps in {message}");
    }

    /// Checks the output and status of a run of one worker. The counts before the last line may be
    /// anything, but with no more hits than needs.
    pub(crate) fn is_but_needs(
        &self,
        rt: &impl Abort,
        written: &str,
        last: &str,
        status: u8,
        message: &str,
    ) {
        let text = from_utf8(self.written.bytes()).unwrap_or("no text");
        let counts = text
            .strip_prefix(written)
            .and_then(|closing| closing.strip_suffix(last))
            .and_then(needs_and_hits);
        match counts {
            Some((needs, hits)) => assert!(rt; hits <= needs, "in {message}: {text}"),
            None => assert!(rt; false, "in {message}: {text}"),
        }
        self.is(rt, text, status, message);
    }

    /// Checks the output and status, and that no call failed or met a newer generation.
    pub(crate) fn is_calmly(&self, rt: &impl Abort, written: &str, status: u8, message: &str) {
        self.is(rt, written, status, message);
        self.counts(rt, 0, 0, message);
    }

    /// Checks how many calls failed, and how many met a newer generation.
    pub(crate) fn counts(&self, rt: &impl Abort, faults: u64, moves: u64, message: &str) {
        assert!(rt; self.faults == faults, "faults in {message}");
        assert!(rt; self.moves == moves, "moves in {message}");
    }
}

/// The needs and hits in the line of the first worker.
fn needs_and_hits(line: &str) -> Option<(u64, u64)> {
    let counts = line.strip_prefix("worker 0 needs ")?.strip_suffix("\n")?;
    let (needs, hits) = counts.split_once(" hits ")?;
    Some((needs.parse().ok()?, hits.parse().ok()?))
}

fn owned(alloc: Global, words: &[&str]) -> Result<Vec<String>, AllocError> {
    let mut strings = Vec::new(alloc);
    for word in words {
        strings.push(String::from_str(alloc, word)?)?;
    }
    Ok(strings)
}

fn plan_of(alloc: Global, failing: Failing) -> Result<Plan, AllocError> {
    let mut plan = Plan::new(alloc);
    match failing {
        Failing::Enter => plan.fail_enter = true,
        Failing::Tap(call) => plan.fail_calls.push(FailCall { tap: 0, call })?,
        Failing::Rise(file, at) => plan.rises.push(Rise {
            tap: 0,
            file,
            at,
            to: 2,
        })?,
        Failing::Byte(at) => plan.fail_bytes.push(FailByte {
            tap: 0,
            file: 0,
            at,
        })?,
        Failing::Newer(newest) => plan.newest.push(newest)?,
        Failing::Nothing | Failing::Feed(_) | Failing::Sink(_) => {}
    }
    Ok(plan)
}

/// The call of the feed that fails.
fn failing_read(failing: Failing) -> Option<u64> {
    match failing {
        Failing::Feed(call) => Some(call),
        _ => None,
    }
}

/// The call of the sink that fails.
fn failing_put(failing: Failing) -> Option<u64> {
    match failing {
        Failing::Sink(call) => Some(call),
        _ => None,
    }
}

/// Runs a list with these arguments over the files of a table.
pub(crate) fn run_words<T: FileTable + Send + Sync>(
    rt: &(impl Threads + Wait + Sync),
    alloc: Global,
    words: &[&str],
    list: Vec<u8>,
    failing: Failing,
) -> Result<Ran, AllocError> {
    run_hooked::<T>(rt, alloc, words, list, failing, &NoHook)
}

/// Runs a list with these arguments, with a hook that is called before and after each request.
pub(crate) fn run_hooked<T: FileTable + Send + Sync>(
    rt: &(impl Threads + Wait + Sync),
    alloc: Global,
    words: &[&str],
    list: Vec<u8>,
    failing: Failing,
    hook: &(impl Hook + Sync),
) -> Result<Ran, AllocError> {
    let words = owned(alloc, words)?;
    let mut folder: MemFolder<T> = MemFolder::new(plan_of(alloc, failing)?);
    let mut feed = MemFeed::new(list, failing_read(failing));
    let mut written = MemSink::new(alloc, failing_put(failing));
    let status = run(
        rt,
        alloc,
        &words,
        &mut folder,
        &mut feed,
        &mut written,
        hook,
    );
    Ok(Ran {
        written,
        status,
        faults: folder.faults(),
        moves: folder.moves(),
        made: folder.made(),
        returned: folder.returned(),
    })
}

/// Runs a list over the small files, with one worker.
pub(crate) fn run_list(
    rt: &(impl Threads + Wait + Sync),
    alloc: Global,
    list: &str,
    failing: Failing,
) -> Result<Ran, AllocError> {
    run_words::<SmallFiles>(
        rt,
        alloc,
        &[".", "--workers", "1"],
        list.as_bytes().to_vec(alloc)?,
        failing,
    )
}
