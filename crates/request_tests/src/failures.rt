//! What a run does if the folder, its tap, the feed or the sink fails.

use crate::ran::{Failing, run_list};
use std::alloc::{AllocError, Global};
use std::process::Abort;
use std::sync::Wait;
use std::test::Fail;
use std::thread::Threads;

// two requests for the same region
const LIST: &str = "pixels 0 1 0 2 2 A.tif\npixels 0 1 0 2 2 A.tif\n";

/// What fails or is met and its name, the list, what is written, the status, and how many calls
/// failed and how many met a newer generation.
type Met = (
    &'static str,
    Failing,
    &'static str,
    &'static str,
    u8,
    (u64, u64),
);

fn is_met<R: Abort + Threads + Wait + Sync>(rt: &R, alloc: Global, met: &Met) -> Result<(), Fail> {
    let (what, failing, list, written, status, (faults, moves)) = met;
    let ran = run_list(rt, alloc, list, *failing)?;
    ran.is(rt, written, *status, what);
    ran.counts(rt, *faults, *moves, what);
    Ok(())
}

static FAILURES: &[Met] = &[
    ("enter", Failing::Enter, LIST, "folder fault\n", 4, (1, 0)),
    (
        "the first read",
        Failing::Feed(1),
        LIST,
        "list fault\n",
        4,
        (0, 0),
    ),
    (
        "the read of the end",
        Failing::Feed(2),
        LIST,
        "list fault\n",
        4,
        (0, 0),
    ),
    ("the first put", Failing::Sink(1), LIST, "", 5, (0, 0)),
    ("a faulty list", Failing::Sink(1), "foo\n", "", 5, (0, 0)),
];

#[test]
fn says_what_failed(rt: HostRuntime) -> Result<(), Fail> {
    for met in FAILURES {
        is_met(&rt, rt.alloc(), met)?;
    }
    Ok(())
}

// Lines are written many at a time: this one, of 256 by 128 zeros, together with the one before it,
// except for its end, and then the rest.
#[test]
fn puts_lines_together(rt: HostRuntime) -> Result<(), Fail> {
    let alloc = rt.alloc();
    let zeros = " 0".repeat(alloc, 256 * 128)?;
    let list = "sync\npixels 0 4 4 256 128 A.tif\nsync\n";
    let first = format!(in alloc; "sync\npixels 1 1{zeros}")?;
    let all = format!(in alloc; "{first}\nsync\nworker 0 needs 0 hits 0\ntotal 3 refused 0\n")?;
    let ran = run_list(&rt, alloc, list, Failing::Sink(1))?;
    ran.is_calmly(&rt, "", 5, "the first put");
    let ran = run_list(&rt, alloc, list, Failing::Sink(2))?;
    ran.is_calmly(&rt, &first, 5, "the second put");
    let ran = run_list(&rt, alloc, list, Failing::Sink(3))?;
    ran.is_calmly(&rt, &all, 0, "a third put, which is none");
    Ok(())
}

/// The file changes while it is read: at a byte of its directory, or of its samples. The request is
/// answered `again`, and later ones are answered from generation 2.
static RISES: &[Met] = &[
    (
        "a rise at byte 8",
        Failing::Rise(0, 8),
        LIST,
        "again 1 2\npixels 2 1 25957 26214 30069 30326\n\
         worker 0 needs 1 hits 0\ntotal 2 refused 1\n",
        1,
        (0, 1),
    ),
    (
        "a rise at byte 123",
        Failing::Rise(0, 123),
        LIST,
        "again 1 2\npixels 2 1 25957 26214 30069 30326\n\
         worker 0 needs 2 hits 0\ntotal 2 refused 1\n",
        1,
        (0, 1),
    ),
];

#[test]
fn says_which_generation_was_met(rt: HostRuntime) -> Result<(), Fail> {
    for met in RISES {
        is_met(&rt, rt.alloc(), met)?;
    }
    Ok(())
}

/// The region lies in two tiles, and the second one changes.
static TILE_RISE: Met = (
    "a tile that was changed",
    Failing::Rise(1, 12472),
    "pixels 0 63 0 2 1 B.tif\npixels 0 63 0 2 1 B.tif\n",
    "again 1 2\npixels 2 3 64 20064 40064 65 20065 40065\n\
     worker 0 needs 4 hits 0\ntotal 2 refused 1\n",
    1,
    (0, 1),
);

/// A byte that cannot be read once, and a lookup.
static BYTES: &[Met] = &[
    (
        "a byte",
        Failing::Byte(122),
        "pixels 0 0 0 1 1 A.tif\npixels 0 0 0 1 1 A.tif\n",
        "read fault\npixels 1 1 0\nworker 0 needs 2 hits 0\ntotal 2 refused 1\n",
        1,
        (1, 0),
    ),
    (
        "a byte of a lookup",
        Failing::Byte(132),
        "tex 32768 32768 0 clamp clamp bilinear 1 A.tif\ninfo A.tif\n",
        "read fault\ninfo 1 4 4 1 8 1 3\nworker 0 needs 1 hits 0\ntotal 2 refused 1\n",
        1,
        (1, 0),
    ),
    (
        "a rise at a lookup",
        Failing::Rise(0, 132),
        "tex 32768 32768 0 clamp clamp bilinear 1 A.tif\ninfo A.tif\n",
        "again 1 2\ninfo 2 4 4 1 8 1 3\nworker 0 needs 1 hits 0\ntotal 2 refused 1\n",
        1,
        (0, 1),
    ),
];

#[test]
fn says_what_was_met_at_a_byte(rt: HostRuntime) -> Result<(), Fail> {
    is_met(&rt, rt.alloc(), &TILE_RISE)?;
    for met in BYTES {
        is_met(&rt, rt.alloc(), met)?;
    }
    Ok(())
}

const FAULT: &str = "read fault";

fn two_lines(alloc: Global, first: &str, second: &str) -> Result<String, AllocError> {
    format!(in alloc; "{first}\n{second}\n")
}

/// A request, its line, how many calls of the tap it takes, and the needs and hits of it and of its
/// repetition.
type Reads = (&'static str, &'static str, u64, (u64, u64));

/// The number of calls to the tap. Two open the file and read its header. For each directory, two
/// read its number of entries, and its entries with the next offset. Each field whose values are
/// elsewhere takes one more. One opens the file for its cells, and the last ones read the cells
/// needed, all rows of a strip or tile at once.
static READS: &[Reads] = &[
    (
        // all rows of the cell are in one strip
        "pixels 0 1 0 2 2 A.tif",
        "pixels 1 1 257 514 4369 4626",
        2 + 2 + 1 + 1,
        (2, 1),
    ),
    (
        // a lookup of four texels of that cell
        "tex 32768 32768 0 clamp clamp bilinear 1 A.tif",
        "tex 1 6554",
        2 + 2 + 1 + 1,
        (8, 7),
    ),
    (
        // the last of three rows is in a strip that comes before that of the others
        "pixels 0 4 1 2 3 low.tif",
        "pixels 1 1 1407 0 2407 0 3407 0",
        2 + 2 + 1 + 2,
        (2, 1),
    ),
    (
        // BitsPerSample is elsewhere (its first value, then all three), and so is TileOffsets; the
        // region lies in four tiles
        "pixels 0 63 30 2 4 B.tif",
        "pixels 1 3 3063 23063 43063 3064 23064 43064 3163 23163 43163 3164 23164 43164 \
         3263 23263 43263 3264 23264 43264 3363 23363 43363 3364 23364 43364",
        2 + 2 + 3 + 1 + 4,
        (8, 0),
    ),
    (
        // TileOffsets is elsewhere; the region lies in four tiles
        "pixels 0 15 12 2 6 seam.tif",
        "pixels 1 2 27756 32125 27499 31868 24929 30840 24672 30583 \
         22102 29555 21845 29298 19275 28270 19018 28013 \
         16448 26985 16191 26728 13621 25700 13364 25443",
        2 + 2 + 1 + 1 + 4,
        (8, 0),
    ),
    (
        // level 1, after two directories; the strip of its second row comes before that of its
        // first, and the second column is outside it
        "pixels 1 0 0 2 2 two.tif",
        "pixels 1 1 51400 0 25700 0",
        2 + 2 + 2 + 1 + 2,
        (2, 1),
    ),
];

fn call_fails<R: Abort + Threads + Wait + Sync>(
    rt: &R,
    alloc: Global,
    list: &str,
    call: u64,
    written: &str,
) -> Result<(), Fail> {
    let ran = run_list(rt, alloc, list, Failing::Tap(call))?;
    let message = format!(in alloc; "call {call} for {list}")?;
    ran.is_but_needs(rt, written, "total 2 refused 1\n", 1, &message);
    ran.counts(rt, 1, 0, &message);
    Ok(())
}

// A request is made twice. Whichever call of the tap fails, the first answer is `read fault` and
// the second is normal. If none fails, the second makes no call at all.
fn each_call_fails<R: Abort + Threads + Wait + Sync>(
    rt: &R,
    alloc: Global,
    reads: &Reads,
) -> Result<(), Fail> {
    let (request, line, calls, (needs, hits)) = reads;
    let list = two_lines(alloc, request, request)?;
    let first = two_lines(alloc, FAULT, line)?;
    for call in 1..=*calls {
        call_fails(rt, alloc, &list, call, &first)?;
    }
    let ran = run_list(rt, alloc, &list, Failing::Tap(calls.saturating_add(1)))?;
    let both = two_lines(alloc, line, line)?;
    let closing = format!(in alloc; "worker 0 needs {needs} hits {hits}\ntotal 2 refused 0\n")?;
    ran.is_calmly(rt, &format!(in alloc; "{both}{closing}")?, 0, request);
    Ok(())
}

#[test]
fn says_which_read_failed(rt: HostRuntime) -> Result<(), Fail> {
    for reads in READS {
        each_call_fails(&rt, rt.alloc(), reads)?;
    }
    Ok(())
}
