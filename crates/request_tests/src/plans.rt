//! What each entry of a plan does to the calls of a tap, with values worked out by hand.

use crate::letters::Letters;
use std::alloc::Global;
use std::fmt::Write;
use std::process::Abort;
use std::test::Fail;
use tex_world::{
    FailByte, FailCall, Failed, Folder, MemFolder, MemHandle, MemTap, Newest, OpenError, Plan,
    ReadError, Rise, Tap, TapHandle,
};

/// The name of a case, the plan's entries for the first tap, the calls of that tap, and its answers
/// and counts.
///
/// `call=5` makes the fifth call fail, and `byte=0@3` the first read of byte 3 of file 0. For
/// `A.tif`, `newest=2,3` are two entries for the newest generation, and `rise=2>3` makes generation
/// 3 appear at byte 2.
///
/// `open=1` opens `A.tif` at generation 1 or newer, `read=2` reads bytes 2 and 3 of the file opened
/// last, and `ask=1` asks for the newest generation, at least 1. If no calls are given they are
/// `open=0 read=0 read=2 read=2 ask=0`.
type Row = (&'static str, &'static str, &'static str, &'static str);

static ROWS: &[Row] = &[
    // calls and bytes that fail
    ("no entry", "", "", "1 10,11 12,13 12,13 1 faults 0 moves 0"),
    (
        "an opening",
        "call=1",
        "",
        "failed none none none 1 faults 1 moves 0",
    ),
    (
        "the fifth call",
        "call=5",
        "",
        "1 10,11 12,13 12,13 failed faults 1 moves 0",
    ),
    (
        "the first read of a byte",
        "byte=0@3",
        "",
        "1 10,11 failed 12,13 1 faults 1 moves 0",
    ),
    (
        "a byte of another file",
        "byte=1@0",
        "",
        "1 10,11 12,13 12,13 1 faults 0 moves 0",
    ),
    // newer generations
    (
        "a newest one",
        "newest=2",
        "",
        "2 20,21 22,23 22,23 2 faults 0 moves 0",
    ),
    (
        "the first one counts",
        "newest=2,3",
        "",
        "2 20,21 22,23 22,23 2 faults 0 moves 0",
    ),
    (
        "one that is held",
        "newest=7,2",
        "",
        "2 20,21 22,23 22,23 2 faults 0 moves 0",
    ),
    (
        "a rise",
        "rise=2>2",
        "",
        "1 10,11 gone=2 12,13 2 faults 0 moves 1",
    ),
    (
        "a rise to none that is held",
        "rise=0>4",
        "",
        "1 10,11 12,13 12,13 1 faults 0 moves 0",
    ),
    (
        "a rise to the handle's own",
        "newest=2 rise=0>2",
        "",
        "2 20,21 22,23 22,23 2 faults 0 moves 0",
    ),
    (
        "the greater of two rises",
        "rise=0>3 rise=3>2",
        "",
        "1 gone=3 gone=2 12,13 3 faults 0 moves 2",
    ),
    // a read that several entries name fails
    (
        "a rise and a byte that fails",
        "byte=0@3 rise=2>2",
        "",
        "1 10,11 failed 12,13 2 faults 1 moves 0",
    ),
    (
        "a rise and a call that fails",
        "call=3 rise=2>2",
        "",
        "1 10,11 failed 12,13 2 faults 1 moves 0",
    ),
    (
        "two rises",
        "rise=2>3 rise=3>2",
        "",
        "1 10,11 failed 12,13 3 faults 1 moves 0",
    ),
    // the least generation that is asked for
    (
        "each",
        "",
        "open=1 read=0 open=2 read=0 open=3 read=2",
        "1 10,11 2 20,21 3 32,33 faults 0 moves 0",
    ),
    (
        "asks",
        "newest=2",
        "ask=0 ask=1 ask=3",
        "2 2 3 faults 0 moves 0",
    ),
    (
        "a newer one than any",
        "newest=2",
        "open=0",
        "2 faults 0 moves 0",
    ),
    (
        "a newer one than was seen",
        "newest=2",
        "open=1",
        "2 faults 0 moves 1",
    ),
    (
        "an older one than was seen",
        "newest=2",
        "open=3 ask=0",
        "3 2 faults 0 moves 0",
    ),
];

/// The calls of a case that gives none.
const CALLS: &str = "open=0 read=0 read=2 read=2 ask=0";

const CALM: &str = "1 10,11 12,13 12,13 1 faults 0 moves 0";

fn push_call(plan: &mut Plan, call: &str) -> Result<(), Fail> {
    let call = call.parse()?;
    plan.fail_calls.push(FailCall { tap: 0, call })?;
    Ok(())
}

fn push_byte(plan: &mut Plan, byte: &str) -> Result<(), Fail> {
    let (file, at) = byte.split_once('@').ok_or("no byte of a file")?;
    let (file, at) = (file.parse()?, at.parse()?);
    plan.fail_bytes.push(FailByte { tap: 0, file, at })?;
    Ok(())
}

fn push_newest(plan: &mut Plan, generations: &str) -> Result<(), Fail> {
    for generation in generations.split(',') {
        let generation = generation.parse()?;
        plan.newest.push(Newest {
            tap: 0,
            file: 0,
            generation,
        })?;
    }
    Ok(())
}

fn push_rise(plan: &mut Plan, rise: &str) -> Result<(), Fail> {
    let (at, to) = rise.split_once('>').ok_or("no rise to a generation")?;
    let (at, to) = (at.parse()?, to.parse()?);
    plan.rises.push(Rise {
        tap: 0,
        file: 0,
        at,
        to,
    })?;
    Ok(())
}

fn push_entry(plan: &mut Plan, word: &str) -> Result<(), Fail> {
    match word.split_once('=') {
        Some(("call", call)) => push_call(plan, call),
        Some(("byte", byte)) => push_byte(plan, byte),
        Some(("newest", generations)) => push_newest(plan, generations),
        Some(("rise", rise)) => push_rise(plan, rise),
        _ => Err("no entry of a plan".into()),
    }
}

fn plan_of(alloc: Global, entries: &str) -> Result<Plan, Fail> {
    let mut plan = Plan::new(alloc);
    for word in entries.split_whitespace() {
        push_entry(&mut plan, word)?;
    }
    Ok(plan)
}

/// Appends what a read of two bytes at a place answers.
fn push_read(
    text: &mut String,
    tap: &mut MemTap<Letters>,
    handle: &mut MemHandle<Letters>,
    at: u64,
) -> Result<(), Fail> {
    if at > 2 || handle.len() < 4 {
        return Err("no such bytes".into());
    }
    let mut bytes = [0; 2];
    match tap.read_at(handle, at, &mut bytes) {
        Ok(()) => write!(text, "{},{} ", bytes[0], bytes[1])?,
        Err(ReadError::Failed) => text.push_str("failed ")?,
        Err(ReadError::Gone(to)) => write!(text, "gone={to} ")?,
    }
    Ok(())
}

/// Opens `A.tif` at a generation that it has.
fn open_at(alloc: Global, tap: &mut MemTap<Letters>, least: u64) -> Opened {
    match least {
        0 => tap.open(alloc, 0, 0),
        1 => tap.open(alloc, 0, 1),
        2 => tap.open(alloc, 0, 2),
        _ => tap.open(alloc, 0, 3),
    }
}

type Opened = Result<MemHandle<Letters>, OpenError>;

/// Appends what opening `A.tif` answers, and returns the handle, if there is one.
fn push_opened(text: &mut String, opened: Opened) -> Result<Option<MemHandle<Letters>>, Fail> {
    match opened {
        Ok(handle) => {
            write!(text, "{} ", handle.generation())?;
            return Ok(Some(handle));
        }
        Err(OpenError::Failed) => text.push_str("failed ")?,
        Err(OpenError::NoMemory) => text.push_str("no memory ")?,
    }
    Ok(None)
}

/// Asks for the newest generation, at least one that the file has.
fn ask_at(tap: &mut MemTap<Letters>, least: u64) -> Result<u32, Failed> {
    match least {
        0 => tap.newest(0, 0),
        1 => tap.newest(0, 1),
        2 => tap.newest(0, 2),
        _ => tap.newest(0, 3),
    }
}

fn push_asked(text: &mut String, asked: Result<u32, Failed>) -> Result<(), Fail> {
    match asked {
        Ok(generation) => write!(text, "{generation} ")?,
        Err(Failed) => text.push_str("failed ")?,
    }
    Ok(())
}

/// A tap, and the file that was opened last.
#[derive(Drop)]
struct Asked {
    tap: MemTap<Letters>,
    handle: Option<MemHandle<Letters>>,
}

impl Asked {
    fn push_answer(&mut self, alloc: Global, text: &mut String, call: &str) -> Result<(), Fail> {
        match call.split_once('=') {
            Some(("open", least)) => {
                let opened = open_at(alloc, &mut self.tap, least.parse()?);
                self.handle = push_opened(text, opened)?;
            }
            Some(("ask", least)) => push_asked(text, ask_at(&mut self.tap, least.parse()?))?,
            Some(("read", at)) => match &mut self.handle {
                Some(handle) => push_read(text, &mut self.tap, handle, at.parse()?)?,
                None => text.push_str("none ")?,
            },
            _ => return Err("no call of a tap".into()),
        }
        Ok(())
    }

    /// The answers of the calls, and the counts afterwards.
    fn answers(&mut self, alloc: Global, calls: &str) -> Result<String, Fail> {
        let mut text = String::new(alloc);
        for call in calls.split_whitespace() {
            self.push_answer(alloc, &mut text, call)?;
        }
        let (faults, moves) = (self.tap.faults(), self.tap.moves());
        write!(text, "faults {faults} moves {moves}")?;
        Ok(text)
    }
}

/// Makes a tap of a folder for these calls.
fn tap_of(alloc: Global, folder: &mut MemFolder<Letters>) -> Result<Asked, Fail> {
    let tap = folder.tap(alloc)?;
    Ok(Asked { tap, handle: None })
}

/// The answers of the first tap of a folder with these entries, and anything else that is wrong: a
/// second tap, which no entry names, must answer as without a plan, and the folder must have the
/// counts of the first.
fn answers_of(alloc: Global, entries: &str, calls: &str) -> Result<String, Fail> {
    let mut folder: MemFolder<Letters> = MemFolder::new(plan_of(alloc, entries)?);
    let mut first = tap_of(alloc, &mut folder)?;
    let mut second = tap_of(alloc, &mut folder)?;
    let mut text = first.answers(alloc, calls)?;
    if second.answers(alloc, CALLS)?.as_str() != CALM {
        text.push_str(", and the second tap follows a plan")?;
    }
    let (faults, moves) = (first.tap.faults(), first.tap.moves());
    folder.back(first.tap);
    folder.back(second.tap);
    if folder.faults() != faults || folder.moves() != moves {
        text.push_str(", and the folder has other counts")?;
    }
    Ok(text)
}

fn is_so(rt: &impl Abort, alloc: Global, row: &Row) -> Result<(), Fail> {
    let (what, entries, calls, wanted) = row;
    let calls = if calls.is_empty() { CALLS } else { calls };
    let answers = answers_of(alloc, entries, calls)?;
    assert!(rt; answers.as_str() == *wanted, "{what}: {answers}");
    Ok(())
}

#[test]
fn plans_fail_calls_and_change_files(rt: HostRuntime) -> Result<(), Fail> {
    for row in ROWS {
        is_so(&rt, rt.alloc(), row)?;
    }
    Ok(())
}

// four calls of the tap: two opens, one question for the newest generation, and one read
fn has_counts(tap: &MemTap<Letters>) -> bool {
    tap.calls() == 4 && tap.opens() == 2 && tap.asks() == 1
}

#[test]
fn counts_calls(rt: HostRuntime) -> Result<(), Fail> {
    let mut folder: MemFolder<Letters> = MemFolder::new(Plan::new(rt.alloc()));
    let mut asked = tap_of(rt.alloc(), &mut folder)?;
    asked.answers(rt.alloc(), "open=0 ask=0 open=2 read=1")?;
    assert!(rt;
        has_counts(&asked.tap),
        "two openings, a question and a read"
    );
    folder.back(asked.tap);
    Ok(())
}
