//! A waiter that makes another call in the middle of a call. What that call finds locked, it gives
//! up on; the next try succeeds.
use crate::asks::Ask::{Hold, Info, Invalidate, InvalidateAll, Pixels, Texture};
use crate::asks::{Answer, Ask, Look};
use crate::folder::{cache_of, second_of};
use crate::planned::{NEWER, ONE_SHARD, PLAIN, taps_of};
use crate::small_files::{A, B, SmallFiles};
use crate::worker::Worker;
use std::alloc::Global;
use std::cell::Cell;
use std::test::Fail;
use tex_world::MemTap;
use texel_filter::Filter::Bilinear;
use texel_filter::Wrap::Clamp;
use waiter::{GaveUp, Tries, Waiter};

// the middle of `A`, whose mean is 6553.5
const MIDDLE: Look = ((32768, 32768, 0), Clamp, Bilinear, 1);

// no call asks its waiter for its tries more often
const LAST_TRY: u32 = 16;

// When it is asked for its tries for the k-th time, another caller makes a call with a single try.
#[derive(Drop)]
struct Nosy<'a> {
    caller: Cell<Option<Worker<'a, MemTap<SmallFiles>>>>,
    ask: (usize, Ask),
    left: Cell<u32>,
    answer: Cell<Answer>,
}

impl<'a> Nosy<'a> {
    // Makes the call, if it is time.
    fn look_in(&self) {
        let left = self.left.get();
        self.left.set(left.saturating_sub(1));
        if left != 1 {
            return;
        }
        if let Some(mut caller) = self.caller.replace(None) {
            let (tap, ask) = self.ask;
            self.answer.set(caller.answer(&Tries::new(1), tap, ask));
            self.caller.set(Some(caller));
        }
    }

    // The answer of that call, and the other caller.
    fn into_parts(self) -> (Answer, Option<Worker<'a, MemTap<SmallFiles>>>) {
        let Nosy { caller, answer, .. } = self;
        (answer.into_inner(), caller.into_inner())
    }
}

impl Waiter for Nosy<'_> {
    type Busy = GaveUp;

    ghost tries_of = { λ _. 1 };

    fn tries(&self) -> u64 {
        self.look_in();
        1
    }

    fn pause(&self, _failed: u64) {}

    fn busy(&self) -> GaveUp {
        GaveUp
    }
}

/// The name of the case. What the second caller has asked before; what the first one asks; through
/// which tap the second asks what inside of it; and its answer when nothing is locked.
type Row = (&'static str, Ask, Ask, (usize, Ask), Answer);

static ROWS: &[Row] = &[
    (
        "info: the record is taken",
        Info(B),
        Info(A),
        (PLAIN, Info(A)),
        Answer::Facts([1, 4, 4, 1, 8, 1, 1]),
    ),
    (
        "hold: the record is taken",
        Info(B),
        Info(A),
        (PLAIN, Hold(A, (0, 0, 0))),
        Answer::Of(1),
    ),
    (
        "region: the record is taken",
        Info(B),
        Info(A),
        (PLAIN, Pixels(A, (0, 3, 3), (1, 1))),
        Answer::Texels(1, 1),
    ),
    (
        "lookup: the record is taken",
        Info(B),
        Info(A),
        (PLAIN, Texture(A, MIDDLE)),
        Answer::Of(1),
    ),
    (
        "a file made invalid: the record is taken",
        Info(B),
        Info(A),
        (PLAIN, Invalidate(A, true)),
        Answer::Of(1),
    ),
    (
        "all files made invalid: the record is taken",
        Info(A),
        Info(A),
        (NEWER, InvalidateAll),
        Answer::Known,
    ),
    (
        "lookup: the idle handles are taken",
        Info(A),
        Pixels(B, (0, 0, 0), (1, 1)),
        (PLAIN, Texture(A, MIDDLE)),
        Answer::Of(1),
    ),
    (
        "hold: the idle handles are taken",
        Info(A),
        Pixels(B, (0, 0, 0), (1, 1)),
        (PLAIN, Hold(A, (0, 0, 0))),
        Answer::Of(1),
    ),
    (
        "region: the idle handles are taken",
        Info(A),
        Pixels(B, (0, 0, 0), (1, 1)),
        (PLAIN, Pixels(A, (0, 3, 3), (1, 1))),
        Answer::Texels(1, 1),
    ),
];

// The answer of a call that is made inside another one, when that one asks its waiter for its tries
// for the k-th time; and the answer of the same call afterwards.
fn answers(alloc: Global, row: &Row, k: u32) -> Result<(Answer, Answer), Fail> {
    let (_what, before, outer, inner, _answer) = *row;
    let (cache, mut pass) = cache_of(alloc, ONE_SHARD, 5)?;
    let second = second_of(&cache, &mut pass)?;
    let mut caller = Worker {
        cache: &cache,
        shards: ONE_SHARD.shards,
        pass: second,
        taps: taps_of(alloc)?,
        out: Vec::new(alloc),
        known: None,
    };
    let _known = caller.answer(&Tries::new(1), PLAIN, before);
    let mut worker = Worker {
        cache: &cache,
        shards: ONE_SHARD.shards,
        pass,
        taps: taps_of(alloc)?,
        out: Vec::new(alloc),
        known: None,
    };
    let nosy = Nosy {
        caller: Cell::new(Some(caller)),
        ask: inner,
        left: Cell::new(k),
        answer: Cell::new(Answer::Nothing),
    };
    let _outer = worker.answer(&nosy, PLAIN, outer);
    let (inside, caller) = nosy.into_parts();
    let behind = match caller {
        Some(mut caller) => caller.answer(&Tries::new(1), inner.0, inner.1),
        None => Answer::Other,
    };
    Ok((inside, behind))
}

// Whether the inner call of a case is once busy, and succeeds afterwards.
fn is_met(alloc: Global, row: &Row) -> Result<bool, Fail> {
    let mut busy = false;
    for k in 1..=LAST_TRY {
        let (inside, behind) = answers(alloc, row, k)?;
        if behind != row.4 {
            return Ok(false);
        }
        busy = busy || inside == Answer::Busy;
    }
    Ok(busy)
}

#[test]
fn a_call_inside_another_gives_up(rt: HostRuntime) -> Result<(), Fail> {
    for row in ROWS {
        assert!(rt; is_met(rt.alloc(), row)?, "{}", row.0);
    }
    Ok(())
}
