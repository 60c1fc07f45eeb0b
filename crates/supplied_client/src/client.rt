//! The state behind a C handle: a shared cache, a pass of it, and the bytes supplied for the
//! current call.
ghost use Rattle.std.specs.Prelude.{◌≡◌, ℕ, ◌-◌, ◌≤◌, IfOk, IfErr, OnOk, OnErr};
ghost use Rattle.tex_world.specs.World.{max_files};
ghost use Rattle.tile_source.specs.Pass.{no_counts};
ghost use Rattle.image_cache.specs.Pass.{IsNewCache, IsFirstPass, IsSecondPass};
ghost use Rattle.tile_source.specs.Pass.{KeepsAllBut, nothing};
ghost use Rattle.image_cache.specs.Pass.{PassAfterSplit};
ghost use Rattle.image_cache.specs.Options.{LargeCause, opened_as};
ghost use Rattle.supplied_client.specs.Client.{KeepsAllButPass, DropsSupplies, EndsRound, IsRepeated};
ghost use Rattle.supplied_client.specs.Client.{AreSame, counts_of};
ghost use Rattle.supplied_client.specs.Code as spec;
ghost use Rattle.supplied_client.specs.Client.{told_counts, told_before};
ghost use Rattle.supplied_tap.specs.SuppliedTap.{tap_state, HasNoSupplies, KeepsSupplies};
ghost use Rattle.supplied_client.specs.Unanswered.{Says};

use crate::answer::{NEEDED, TexAnswer, code_of};
use caller::Caller;
use image_cache::{CacheError, LargeOptions, NewError, SplitError};
use std::alloc::Global;
use std::marker::Model;
use supplied_tap::SuppliedTap;
use waiter::{GaveUp, Tries};

/// How often a call tries to get a lock before it answers `BUSY`. A lock is held for less than a
/// microsecond, unless its thread has lost the processor. So a caller that waits longer should yield
/// the processor rather than try on.
const TRIES: u64 = 1 << 8;

/// The state behind a C handle: a caller of the cache, whose tap has what was supplied. Clauses see
/// its cache, pass and tap.
#[derive(Drop)]
pub struct Client {
    pub alloc: Global,
    pub caller: Caller<Tries, SuppliedTap>,
    files: u32,
    /// The counts of the pass when the current round began.
    begun: PassCounts,
    /// What the pass counted in rounds that were repeated. The repeated call counts it again, so it
    /// is subtracted.
    twice: PassCounts,
}

/// Numbers of needs, of hits and of uncached needs.
#[derive(Clone, Copy, Debug)]
struct PassCounts {
    needs: u64,
    hits: u64,
    apart: u64,
}

const NO_COUNTS: PassCounts = PassCounts {
    needs: 0,
    hits: 0,
    apart: 0,
};

impl Model for Client {
    ghost use Rattle.std.specs.Prelude.{◌≡◌, ◌≤◌};
    ghost use Rattle.tex_world.specs.World.{max_files};
    ghost use Rattle.tile_source.specs.Pass.{pass_counts};
    ghost use Rattle.supplied_client.specs.Client.{ClientState, client_state, counts_of, AreWithin};

    ghost Value = { ClientState };

    ghost view = { λ c. client_state c.caller.cache c.caller.pass c.caller.tap
        (pass_counts c.begun.needs c.begun.hits c.begun.apart)
        (pass_counts c.twice.needs c.twice.hits c.twice.apart) };

    ghost invariant = { λ c.
        (c.files ≡ c.caller.cache.files.board.files) × (c.files ≤ max_files)
        × AreWithin (pass_counts c.twice.needs c.twice.hits c.twice.apart)
        (pass_counts c.begun.needs c.begun.hits c.begun.apart)
        × AreWithin (pass_counts c.begun.needs c.begun.hits c.begun.apart)
        (counts_of c.caller.pass) };
}

impl Client {
    /// Makes a cache of `files` files, and its first pass.
    pub fn new(alloc: Global, large: LargeOptions, files: u32) -> Result<Client, NewError>
        requires files { files ≤ max_files }
        ensures cache { IfOk result (λ c. IsNewCache (opened_as large) files c.cache) }
        ensures pass { IfOk result (λ c. IsFirstPass c.cache c.pass) }
        ensures none { IfOk result (λ c. HasNoSupplies c.tap) }
        ensures twice { IfOk result (λ c. c.twice ≡ no_counts) }
        ensures cause { IfErr result (LargeCause large) }
    {
        let tap = SuppliedTap::new(alloc);
        let caller = Caller::new_large(alloc, large, files, Tries::new(TRIES), tap)?;
        Ok(Client {
            alloc,
            caller,
            files,
            begun: NO_COUNTS,
            twice: NO_COUNTS,
        })
    }

    /// Makes a second pass of the same cache for another thread. It takes one permit of this one.
    pub fn split(&mut self) -> Result<Client, SplitError>
        ensures cache { IfOk result (λ c. c.cache ≡ self.old.cache) }
        ensures pass { IfOk result (λ c. IsSecondPass self.old.pass c.pass) }
        ensures none { IfOk result (λ c. HasNoSupplies c.tap) }
        ensures twice { IfOk result (λ c. c.twice ≡ no_counts) }
        ensures cause { IfErr result (λ e. e ≡ SplitError.NoPermit
            → self.old.pass.pinned.seat.permits ≡ 1) }
        // The state of the first pass.
        ensures ok { OnOk result (PassAfterSplit self.old.pass self.new.pass) }
        ensures err { OnErr result (KeepsAllBut nothing self.old.pass self.new.pass) }
        ensures rest { KeepsAllButPass self.old self.new }
    {
        let tap = SuppliedTap::new(self.alloc);
        let caller = self.caller.split(Tries::new(TRIES), tap)?;
        Ok(Client {
            alloc: self.alloc,
            caller,
            files: self.files,
            begun: NO_COUNTS,
            twice: NO_COUNTS,
        })
    }

    /// The number of files.
    pub fn files(&self) -> u32
        ensures value { result ≡ self.now.cache.files.board.files }
        ensures few { result ≤ max_files }
    {
        self.files
    }

    /// Begins a round: the call needs nothing yet.
    #[inline(always)]
    pub fn begin(&mut self)
        ensures cache { self.new.cache ≡ self.old.cache }
        ensures pass { self.new.pass ≡ self.old.pass }
        ensures tap { tap_state self.new.tap ≡ tap_state self.old.tap }
        // What was supplied for the call is there for its next round.
        ensures supplies { KeepsSupplies self.old.tap self.new.tap }
        ensures begun { self.new.begun ≡ counts_of self.old.pass }
        ensures twice { self.new.twice ≡ self.old.twice }
    {
        self.caller.tap.begin();
        self.begun = self.counted();
    }

    /// Ends a call that was answered, or refused before it reached the cache. What was supplied for
    /// it is dropped.
    #[inline(always)]
    pub fn end(&mut self)
        ensures { DropsSupplies self.old self.new }
    {
        self.caller.tap.end();
    }

    /// Ends a call that C repeats although it needs nothing: its counts will be subtracted.
    pub fn end_repeated(&mut self)
        ensures { (code : ℕ) → IsRepeated code → EndsRound code self.old self.new }
    {
        self.end();
        self.count_twice();
    }

    /// Ends a round that will be repeated: its counts will be subtracted.
    pub fn count_twice(&mut self)
        ensures cache { self.new.cache ≡ self.old.cache }
        ensures pass { self.new.pass ≡ self.old.pass }
        ensures tap { self.new.tap ≡ self.old.tap }
        ensures told { AreSame (told_counts self.new) (told_before self.old) }
    {
        let now = self.counted();
        let (begun, twice) = (self.begun, self.twice);
        self.twice = PassCounts {
            needs: added(twice.needs, begun.needs, now.needs),
            hits: added(twice.hits, begun.hits, now.hits),
            apart: added(twice.apart, begun.apart, now.apart),
        };
        self.begun = now;
    }

    /// The current counts of the pass.
    fn counted(&self) -> PassCounts
        ensures needs { result.needs ≡ self.now.pass.needs }
        ensures hits { result.hits ≡ self.now.pass.hits }
        ensures apart { result.apart ≡ self.now.pass.apart }
    {
        let pass = self.caller.pass();
        PassCounts {
            needs: pass.needs(),
            hits: pass.hits(),
            apart: pass.apart(),
        }
    }

    /// The number of cells that finished calls needed.
    pub fn needs(&self) -> u64
        ensures { result ≡ (told_counts self.now).needs }
    {
        self.caller.pass().needs() - self.twice.needs
    }

    /// The number of needs that the microcache served.
    pub fn hits(&self) -> u64
        ensures { result ≡ (told_counts self.now).hits }
    {
        self.caller.pass().hits() - self.twice.hits
    }

    /// The number of needs that were uncached.
    pub fn apart(&self) -> u64
        ensures { result ≡ (told_counts self.now).apart }
    {
        self.caller.pass().apart() - self.twice.apart
    }

    /// Writes the answer of a failed round: what the call needs, or the cause of the error.
    pub fn refuse(&mut self, e: &CacheError<GaveUp>, answer: &mut TexAnswer) -> u32
        ensures says { Says e.now self.new.tap result answer.new }
        ensures other { ¬ (result ≡ 0) }
        ensures ended { EndsRound result self.old self.new }
    {
        if let (CacheError::ReadFault, Some(need)) = (e, self.caller.tap.need()) {
            *answer = TexAnswer::of_need(need);
            self.count_twice();
            return NEEDED;
        }
        *answer = TexAnswer::of_refusal(e);
        self.end_refused(e);
        code_of(e)
    }

    /// Ends a call that failed. If its waiter gave up, C repeats it.
    fn end_refused(&mut self, e: &CacheError<GaveUp>)
        ensures { EndsRound (spec.code_of e.now) self.old self.new }
    {
        match e {
            CacheError::Busy(_) => self.end_repeated(),
            _ => self.end(),
        }
    }
}

/// What is counted twice after a round that will be repeated: `twice` before it, and what the count
/// rose by in it.
fn added(twice: u64, begun: u64, now: u64) -> u64
    requires twice { twice ≤ begun }
    requires begun { begun ≤ now }
    ensures most { result ≤ now }
    ensures told { now - result ≡ begun - twice }
{
    twice + (now - begun)
}
