//! What is answered when one allocation fails in each run (`rt try --test --fail-alloc N`): a texel
//! is answered uncached. A lookup does not fail if it need not open the file, nor if it opens it
//! only because its record could not be shared.
ghost use Rattle.std.specs.Prelude.{ℕ, ◌≡◌, ◌<◌};
ghost use Rattle.tex_world.specs.World.{IsFile};

use crate::asks::Answer::{Nothing, Of, Shard, There};
use crate::asks::Ask::{Count, Fetch, HasLocal, Invalidate, Open, Texture};
use crate::asks::{Ask, Look};
use crate::planned::{NO_BYTES, ONE_SHARD, PLAIN};
use crate::small_files::{A, SmallFiles};
use crate::worker::Worker;
use image_cache::{Cache, Options};
use std::alloc::Global;
use tex_world::{Folder, MemFolder, Plan, Tap};
use texel_filter::Filter::Bilinear;
use texel_filter::Wrap::Clamp;
use waiter::Tries;

/// How a call came out.
#[derive(Clone, Copy, PartialEq, Eq)]
enum Met {
    /// As if there were enough memory.
    Calm,
    /// A texel was uncached.
    Apart,
    /// The call was not made, because an earlier allocation failed.
    Unmade,
    /// None of these: the test fails.
    Wrong,
}

/// The call to make.
#[derive(Clone, Copy)]
enum Asked {
    /// A lookup in a file that was looked up and invalidated before.
    Lookup,
    /// One texel of a record.
    Texel,
}

/// No slots, and a budget for all tiles.
const NO_SLOTS: Options = Options {
    slots: 0,
    ..ONE_SHARD
};

/// No slots, and a budget of 0, so that only pinned tiles stay.
const NO_SLOTS_NO_BYTES: Options = Options {
    slots: 0,
    ..NO_BYTES
};

static CASES: &[(&str, Options, Asked)] = &[
    ("a lookup", NO_BYTES, Asked::Lookup),
    ("a lookup without slots", NO_SLOTS_NO_BYTES, Asked::Lookup),
    ("a texel", ONE_SHARD, Asked::Texel),
    ("a texel without slots", NO_SLOTS, Asked::Texel),
];

// the middle of `A`, whose four texels are 17, 18, 33 and 34: their mean is 6553.5
const MIDDLE: Look = ((32768, 32768, 0), Clamp, Bilinear, 1);

const MEAN: u16 = 6554;

// the texel in column 1 of row 1, which is 257 times 17
const TEXEL: Ask = Fetch((1, 1), 1);

const VALUE: u16 = 4369;

const SHARE: u64 = 268435456;

impl<T: Tap> Worker<'_, T> {
    // The one value that the last call wrote, if it wrote one.
    fn value(&self) -> Option<u16> {
        match self.out.as_slice() {
            [value] => Some(*value),
            _ => None,
        }
    }

    fn counts(&self) -> [u64; 3] {
        [self.pass.needs(), self.pass.hits(), self.pass.apart()]
    }

    // A single caller needs only one try.
    fn ask(&mut self, ask: Ask) -> crate::asks::Answer
        requires { (file : ℕ) → file < 5 → IsFile T.W.files file }
        ensures { self.new.cache.now ≡ self.old.cache.now }
    {
        self.answer(&Tries::new(1), PLAIN, ask)
    }

    // Repeats the lookup after an earlier one, and after the file was invalidated.
    fn looked_up_again(&mut self) -> Met
        requires { (file : ℕ) → file < 5 → IsFile T.W.files file }
        ensures { self.new.cache.now ≡ self.old.cache.now }
    {
        let lookup = Texture(A, MIDDLE);
        if self.ask(lookup) != Of(1) || self.ask(Invalidate(A, false)) != Of(1) {
            return Met::Unmade;
        }
        let answer = self.ask(lookup);
        let value = self.value();
        match self.counts() {
            [8, 6, 0] if answer == Of(1) && value == Some(MEAN) => Met::Calm,
            [8, 5, 1] if answer == Of(1) && value == Some(MEAN) => Met::Apart,
            _ => Met::Wrong,
        }
    }

    // Fetches one texel. If it is uncached, the microcache and the shard must be unchanged.
    fn fetched(&mut self) -> Met
        requires { (file : ℕ) → file < 5 → IsFile T.W.files file }
        ensures { self.new.cache.now ≡ self.old.cache.now }
    {
        if self.ask(Open(A)) != Of(1) {
            return Met::Unmade;
        }
        let answer = self.ask(TEXEL);
        let value = self.value();
        if value.is_none() {
            // the failed allocation was one of the test itself
            return Met::Unmade;
        }
        let is_right = answer == There && value == Some(VALUE);
        let kept = self.ask(HasLocal((1, 1)));
        let shard = self.ask(Count(0));
        match self.counts() {
            [1, 0, 0] if is_right && kept == There && shard == Shard([1, 1, 0, SHARE]) => Met::Calm,
            [1, 0, 1] if is_right && kept == Nothing && shard == Shard([0, 0, 0, SHARE]) => {
                Met::Apart
            }
            _ => Met::Wrong,
        }
    }
}

fn met_by<T: Tap + Drop>(alloc: Global, options: Options, taps: Vec<T>, asked: Asked) -> Met
    requires told { (file : ℕ) → file < 5 → IsFile T.W.files file }
{
    let Ok((cache, pass)) = Cache::new(alloc, options, 5) else {
        return Met::Unmade;
    };
    let mut worker = Worker {
        cache: &cache,
        shards: options.shards,
        pass,
        taps,
        out: Vec::new(alloc),
        known: None,
    };
    match asked {
        Asked::Lookup => worker.looked_up_again(),
        Asked::Texel => worker.fetched(),
    }
}

fn case_met(alloc: Global, options: Options, asked: Asked) -> Met {
    let mut folder = MemFolder::<SmallFiles>::new(Plan::new(alloc));
    let Ok(tap) = folder.tap(alloc) else {
        return Met::Unmade;
    };
    let mut taps = Vec::new(alloc);
    match taps.push(tap) {
        Ok(()) => met_by(alloc, options, taps, asked),
        Err(_full) => Met::Unmade,
    }
}

// Each call is made twice, so that one of the two has memory if a single allocation fails.
#[test]
fn a_refused_growth_changes_no_value(rt: HostRuntime) {
    let alloc = rt.alloc();
    for (what, options, asked) in CASES {
        let first = case_met(alloc, *options, *asked);
        let second = case_met(alloc, *options, *asked);
        assert!(rt; first != Met::Wrong && second != Met::Wrong, "{what}");
        assert!(rt;
            first == Met::Calm || second == Met::Calm,
            "{what}: with memory"
        );
    }
}
