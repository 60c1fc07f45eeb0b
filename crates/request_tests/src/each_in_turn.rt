//! Runs of three requests for one file. Each call of the tap, the feed and the sink fails in turn,
//! and the file changes at each of its bytes in turn.

use crate::ran::{Failing, run_list};
use std::test::Fail;

const LIST: &str = "info A.tif\n\
     pixels 0 0 0 4 4 A.tif\n\
     tex 32768 32768 0 clamp clamp bilinear 1 A.tif\n";

/// The samples are 16 y + x, so the four in the middle are 17, 18, 33 and 34.
const INFO: &str = "info 1 4 4 1 8 1 3";

const PIXELS: &str = "pixels 1 1 0 257 514 771 4112 4369 4626 4883 \
     8224 8481 8738 8995 12336 12593 12850 13107";

const TEX: &str = "tex 1 6554";

/// In generation 2 they are greater by 100.
const NEW_PIXELS: &str = "pixels 2 1 25700 25957 26214 26471 29812 30069 30326 30583 \
     33924 34181 34438 34695 38036 38293 38550 38807";

const NEW_TEX: &str = "tex 2 32254";

/// The last line. The line of the worker before it is not compared, because a failed request may
/// have counted.
const LAST: &str = "total 3 refused 1\n";

/// The calls of the tap: two open the file, and two read its directory. Two more open it again and
/// read its only cell.
const OPENING: u64 = 4;

const READING: u64 = 6;

/// One read of the feed gets the whole list, and one its end.
const READS: u64 = 2;

/// One write gets all lines.
const PUTS: u64 = 1;

/// The bytes of the file before its samples, and all its bytes.
const SAMPLES: u64 = 122;

const BYTES: u64 = 138;

// The request that makes the failing call is refused, and the next one repeats the call.
#[test]
fn each_call_of_the_tap_fails(rt: HostRuntime) -> Result<(), Fail> {
    let alloc = rt.alloc();
    let opening = format!(in alloc; "read fault\n{PIXELS}\n{TEX}\n")?;
    let reading = format!(in alloc; "{INFO}\nread fault\n{TEX}\n")?;
    for call in 1..=READING {
        let ran = run_list(&rt, alloc, LIST, Failing::Tap(call))?;
        let written = if call <= OPENING { &opening } else { &reading };
        let message = format!(in alloc; "call {call}")?;
        ran.is_but_needs(&rt, written, LAST, 1, &message);
        ran.counts(&rt, 1, 0, &message);
    }
    Ok(())
}

#[test]
fn each_call_of_feed_and_sink_fails(rt: HostRuntime) -> Result<(), Fail> {
    let alloc = rt.alloc();
    for read in 1..=READS {
        let ran = run_list(&rt, alloc, LIST, Failing::Feed(read))?;
        ran.is_calmly(&rt, "list fault\n", 4, &format!(in alloc; "read {read}")?);
    }
    for put in 1..=PUTS {
        let ran = run_list(&rt, alloc, LIST, Failing::Sink(put))?;
        ran.is_calmly(&rt, "", 5, &format!(in alloc; "put {put}")?);
    }
    Ok(())
}

// A call that is not made cannot fail.
#[test]
fn no_further_call_is_made(rt: HostRuntime) -> Result<(), Fail> {
    let alloc = rt.alloc();
    let all = format!(in alloc;
        "{INFO}\n{PIXELS}\n{TEX}\nworker 0 needs 5 hits 4\ntotal 3 refused 0\n"
    )?;
    for further in [
        Failing::Tap(READING + 1),
        Failing::Feed(READS + 1),
        Failing::Sink(PUTS + 1),
    ] {
        let ran = run_list(&rt, alloc, LIST, further)?;
        ran.is_calmly(&rt, &all, 0, "a call that is not made");
    }
    Ok(())
}

// `info` reads all bytes before the samples, and the region reads the samples.
#[test]
fn the_file_changes_at_each_byte(rt: HostRuntime) -> Result<(), Fail> {
    let alloc = rt.alloc();
    let directory = format!(in alloc; "again 1 2\n{NEW_PIXELS}\n{NEW_TEX}\n")?;
    let samples = format!(in alloc; "{INFO}\nagain 1 2\n{NEW_TEX}\n")?;
    for at in 0..BYTES {
        let ran = run_list(&rt, alloc, LIST, Failing::Rise(0, at))?;
        let written = if at < SAMPLES { &directory } else { &samples };
        let message = format!(in alloc; "a change at byte {at}")?;
        ran.is_but_needs(&rt, written, LAST, 1, &message);
        ran.counts(&rt, 0, 1, &message);
    }
    Ok(())
}
