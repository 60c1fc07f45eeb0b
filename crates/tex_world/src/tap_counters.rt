//! The counters that all taps share.
ghost use Rattle.std.specs.Prelude.{◌≡◌, IsErr, IfOk, IfErr};
ghost use Rattle.tex_world.specs.Counts.{RisesByOne};
ghost use Rattle.tex_world.specs.Tap.{IsNew, OpenCause, AfterOpen, AfterNewest, AfterRead};
ghost use Rattle.tex_world.specs.TapCounters.{counted, CountsFault, CountsMove, CountsRead, RisesFor};

use crate::fault::{Failed, OpenError, ReadError};
use crate::tap::TapHandle;

/// What a tap has counted, and its last answer of a newest generation. A count stays at the
/// greatest value of a `u64`.
#[derive(Debug, Drop)]
pub struct TapCounters {
    faults: u64,
    calls: u64,
    opens: u64,
    asks: u64,
    moves: u64,
    lost: u64,
    newest: (u32, u32),
}

impl TapCounters {
    /// Nothing is counted yet.
    pub fn new() -> Self
        ensures { IsNew (counted result) }
    {
        TapCounters {
            faults: 0,
            calls: 0,
            opens: 0,
            asks: 0,
            moves: 0,
            lost: 0,
            newest: (0, 0),
        }
    }

    /// Counts a call of `open` that asked for a generation of at least `least`.
    pub fn count_open<H: TapHandle>(&mut self, least: u32, opened: &Result<H, OpenError>)
        ensures counts { AfterOpen H.named least (counted self.old) (counted self.new) opened.now }
        ensures cause { IfErr opened.now (OpenCause (counted self.old) (counted self.new)) }
        ensures exact { CountsFault (counted self.old) (counted self.new) opened.now }
        ensures moves { IfOk opened.now (λ h.
            CountsMove least (counted self.old) (counted self.new) (H.named h)) }
    {
        self.calls = self.calls.saturating_add(1);
        self.opens = self.opens.saturating_add(1);
        match opened {
            Ok(h) => {
                if 0 < least && least < h.generation() {
                    self.moves = self.moves.saturating_add(1);
                }
            }
            Err(OpenError::Failed) => self.faults = self.faults.saturating_add(1),
            Err(OpenError::NoMemory) => {}
        }
    }

    /// Counts a call of `newest` for this file.
    pub fn count_newest(&mut self, file: u32, newest: Result<u32, Failed>)
        ensures counts { AfterNewest file (counted self.old) (counted self.new) newest }
        ensures cause { IsErr newest → RisesByOne (counted self.old).faults (counted self.new).faults }
        ensures answered { IfOk newest (λ _. (counted self.new).faults ≡ (counted self.old).faults) }
    {
        self.calls = self.calls.saturating_add(1);
        match newest {
            Ok(generation) => {
                self.asks = self.asks.saturating_add(1);
                self.newest = (file, generation);
            }
            Err(Failed) => self.faults = self.faults.saturating_add(1),
        }
    }

    /// Counts a call of `read_at` or `read_rows`.
    pub fn count_read(&mut self, read: Result<(), ReadError>)
        ensures counts { AfterRead (counted self.old) (counted self.new) read }
        ensures cause { IfErr read (RisesFor (counted self.old) (counted self.new)) }
        ensures exact { CountsRead (counted self.old) (counted self.new) read }
    {
        self.calls = self.calls.saturating_add(1);
        match read {
            Ok(()) => {}
            Err(ReadError::Failed) => self.faults = self.faults.saturating_add(1),
            Err(ReadError::Gone(_to)) => {
                self.moves = self.moves.saturating_add(1);
                self.lost = self.lost.saturating_add(1);
            }
        }
    }

    /// The number of calls that failed by an I/O error.
    pub fn faults(&self) -> u64
        ensures { result ≡ (counted self.now).faults }
    {
        self.faults
    }

    /// How often a newer generation was met.
    pub fn moves(&self) -> u64
        ensures { result ≡ (counted self.now).moves }
    {
        self.moves
    }

    /// The number of calls.
    pub fn calls(&self) -> u64
        ensures { result ≡ (counted self.now).calls }
    {
        self.calls
    }

    /// The number of calls that opened a file.
    pub fn opens(&self) -> u64
        ensures { result ≡ (counted self.now).opens }
    {
        self.opens
    }

    /// The number of successful calls that asked for a newest generation.
    pub fn asks(&self) -> u64
        ensures { result ≡ (counted self.now).asks }
    {
        self.asks
    }
}
