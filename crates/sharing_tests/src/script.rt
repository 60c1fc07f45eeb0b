//! Sequences of file table calls with their expected answers.
ghost use Rattle.std.specs.Prelude.{ℕ, ◌<◌};
ghost use Rattle.tex_world.specs.World.{IsFile};

use crate::seat::Seat;
use file_table::{FileError, Record};
use host_folder::RealTap;
use std::alloc::Global;
use std::sync::Arc;
use tap_reader::OpenFile;
use test_files::Checks;
use tex_world::{FileTable, MemTap, ReadError, Tap, TapHandle};
use waiter::{GaveUp, Tries};

/// Two counts of a tap.
pub(crate) type Counts = [u64; 2];

/// A tap that can tell two counts.
pub(crate) trait Shows {
    fn shown(&self) -> Counts;
}

/// Its calls, and its failed calls.
impl<F: FileTable> Shows for MemTap<F> {
    fn shown(&self) -> Counts {
        [self.calls(), self.faults()]
    }
}

/// How often it met a newer generation, and its failed calls.
impl<R> Shows for RealTap<R> {
    fn shown(&self) -> Counts {
        [self.moves(), self.faults()]
    }
}

/// A call of the table. The numbers are a tap, and a file below three.
#[derive(Clone, Copy)]
pub(crate) enum Call {
    /// Gets the record of a file, which becomes the latest record.
    Record(usize, u32),
    /// Lends a handle of the latest record's generation, which becomes the latest handle.
    Lend(usize, u32),
    /// Lends a handle of the first record's generation, which becomes the latest handle.
    LendFirst(usize, u32),
    /// Reads the first byte through the latest handle.
    Read(usize),
    /// Settles the latest handle.
    Settle,
    /// Drops what is idle of a file.
    Forget(u32),
    /// The number of idle handles.
    Idle,
    /// The generation that was seen of a file.
    Seen(u32),
}

/// What a call answers.
#[derive(Clone, Copy)]
pub(crate) enum Answer {
    /// The generation of a valid record or of a handle, or a number.
    Is(u32),
    /// The generation of a record with a fault.
    Bad(u32),
    Done,
    Fault,
    Again(u32, u32),
    Gone(u32),
    NoMemory,
    Busy,
    /// There is no such tap, record or handle.
    Nothing,
}

impl Answer {
    fn word(self) -> &'static str {
        match self {
            Answer::Is(_) => "Is",
            Answer::Bad(_) => "Bad",
            Answer::Done => "Done",
            Answer::Fault => "Fault",
            Answer::Again(_, _) => "Again",
            Answer::Gone(_) => "Gone",
            Answer::NoMemory => "NoMemory",
            Answer::Busy => "Busy",
            Answer::Nothing => "Nothing",
        }
    }

    /// The number in the answer; of two, 1000 times the first and the second.
    fn number(self) -> u64 {
        match self {
            Answer::Is(number) => u64::from(number),
            Answer::Bad(generation) => u64::from(generation),
            Answer::Again(from, to) => u64::from(from) * 1000 + u64::from(to),
            Answer::Gone(to) => u64::from(to),
            _ => 0,
        }
    }
}

/// A call, its answer, and how much each count of its tap rises.
pub(crate) type Step = (Call, Answer, Counts);

/// A table with a view, some taps, the first and the latest record, and the lent handles.
#[derive(Drop)]
pub(crate) struct Script<'a, T: Tap + Drop> {
    seat: Seat<'a, T>,
    taps: Vec<T>,
    first: Option<Arc<Record<T::W>>>,
    record: Option<Arc<Record<T::W>>>,
    lent: Vec<OpenFile<T>>,
}

impl<'a, T: Tap + Drop> Script<'a, T> {
    pub(crate) fn new(alloc: Global, seat: Seat<'a, T>, taps: Vec<T>) -> Script<'a, T> {
        Script {
            seat,
            taps,
            first: None,
            record: None,
            lent: Vec::new(alloc),
        }
    }
}

// The tap of a call; 0 if it has none.
fn tap_of(call: Call) -> usize {
    match call {
        Call::Record(tap, _) => tap,
        Call::Lend(tap, _) => tap,
        Call::LendFirst(tap, _) => tap,
        Call::Read(tap) => tap,
        _ => 0,
    }
}

fn why_refused(error: FileError<GaveUp>) -> Answer {
    match error {
        FileError::ReadFault => Answer::Fault,
        FileError::Again { from, to } => Answer::Again(from, to),
        FileError::NoMemory => Answer::NoMemory,
        FileError::Busy(GaveUp) => Answer::Busy,
    }
}

// One of two records.
fn one_of<'x, X>(first: &'x Option<X>, latest: &'x Option<X>, is_first: bool) -> &'x Option<X> {
    if is_first { first } else { latest }
}

impl<T: Tap + Drop + Shows> Script<'_, T> {
    /// Makes the calls, each as a part of the case.
    pub(crate) fn check(&mut self, checks: &mut Checks, steps: &[Step])
        requires { (file : ℕ) → file < 3 → IsFile T.W.files file }
    {
        for (call, wanted, rises) in steps {
            let tap = tap_of(*call);
            let before = self.shown(tap);
            let answer = self.answer(*call);
            let after = self.shown(tap);
            checks.part("a call");
            checks.word("the answer", answer.word(), wanted.word());
            checks.equal("the answer's number", answer.number(), wanted.number());
            let rose = after[0].saturating_sub(before[0]);
            checks.equal("the first count's rise", rose, rises[0]);
            let rose = after[1].saturating_sub(before[1]);
            checks.equal("the second count's rise", rose, rises[1]);
        }
    }

    /// Makes a call.
    fn answer(&mut self, call: Call) -> Answer
        requires { (file : ℕ) → file < 3 → IsFile T.W.files file }
    {
        match call {
            Call::Record(tap, file) if file < 3 => self.read_record(tap, file),
            Call::Lend(tap, file) if file < 3 => self.lend(tap, file, false),
            Call::LendFirst(tap, file) if file < 3 => self.lend(tap, file, true),
            Call::Read(tap) => self.read(tap),
            Call::Settle => self.settle(),
            Call::Forget(file) => match self.seat.forget(&Tries::new(9), file) {
                Ok(()) => Answer::Done,
                Err(GaveUp) => Answer::Busy,
            },
            Call::Idle => match self.seat.files.idle(&Tries::new(9)) {
                Ok(count) if count < 9 => Answer::Is(count as u32),
                _ => Answer::Busy,
            },
            Call::Seen(file) => Answer::Is(self.seat.seen(file)),
            _ => Answer::Nothing,
        }
    }

    /// The counts of a tap; 0 if there is no such tap.
    fn shown(&self, tap: usize) -> Counts {
        match self.taps.get(tap) {
            Some(tap) => tap.shown(),
            None => [0, 0],
        }
    }

    fn read_record(&mut self, tap: usize, file: u32) -> Answer
        requires { IsFile T.W.files file }
    {
        let Some(tap) = self.taps.get_mut(tap) else {
            return Answer::Nothing;
        };
        match self.seat.record(&Tries::new(9), tap, file) {
            Ok(record) => {
                let generation = record.generation();
                let is_bad = record.layout().is_err();
                if self.first.is_none() {
                    self.first = record.clone().ok();
                }
                self.record = Some(record);
                if is_bad {
                    Answer::Bad(generation)
                } else {
                    Answer::Is(generation)
                }
            }
            Err(error) => why_refused(error),
        }
    }

    /// Lends a handle of the generation of the first record, or of the latest.
    fn lend(&mut self, tap: usize, file: u32, is_first: bool) -> Answer
        requires { IsFile T.W.files file }
    {
        let record = one_of(&self.first, &self.record, is_first);
        let (Some(tap), Some(record)) = (self.taps.get_mut(tap), record) else {
            return Answer::Nothing;
        };
        match self.seat.lend(&Tries::new(9), tap, file, record) {
            Ok(open) => {
                let generation = open.handle.generation();
                match self.lent.push(open) {
                    Ok(()) => Answer::Is(generation),
                    Err(_full) => Answer::NoMemory,
                }
            }
            Err(error) => why_refused(error),
        }
    }

    fn read(&mut self, tap: usize) -> Answer {
        let (Some(tap), Some(open)) = (self.taps.get_mut(tap), self.lent.last_mut()) else {
            return Answer::Nothing;
        };
        if open.handle.len() == 0 {
            return Answer::Nothing;
        }
        let mut first = [0u8; 1];
        match tap.read_at(&mut open.handle, 0, &mut first) {
            Ok(()) => Answer::Is(u32::from(first[0])),
            Err(ReadError::Failed) => Answer::Fault,
            Err(ReadError::Gone(to)) => Answer::Gone(to),
        }
    }

    fn settle(&mut self) -> Answer {
        match self.lent.pop() {
            Some(open) => match self.seat.files.settle(&Tries::new(9), open) {
                Ok(()) => Answer::Done,
                Err(_busy) => Answer::Busy,
            },
            None => Answer::Nothing,
        }
    }
}
