//! Two threads over one cache with a budget of 0, with files that change under their taps.
ghost use Rattle.std.specs.Prelude.{ℕ, ◌≡◌, ◌<◌, length};
ghost use Rattle.tex_world.specs.World.{IsFile};
ghost use Rattle.tile_source.specs.Pass.{IsPassOf};

use crate::asks::{Answer, Ask};
use crate::caller::Caller;
use crate::folder::{cache_of, second_of};
use crate::planned::{NO_BYTES, pair_of};
use crate::small_files::{A, B};
use crate::worker::Worker;
use image_cache::Cache;
use std::alloc::Global;
use std::sync::Wait;
use std::test::Fail;
use std::thread;
use std::thread::Threads;
use tex_world::Tap;
use texel_filter::Filter::Closest;
use texel_filter::Wrap::Clamp;
use waiter::{Forever, Waiter};

/// The number of calls that each caller makes.
const ROUNDS: u32 = 2000;

// The file of a round, a texel of it, and the call that asks for it: a lookup of that texel, its
// cell, or a region of that texel. The lower cells of `B` are used in the second half.
fn asked(round: u32) -> (u32, (u32, u32), Ask) {
    if round % 4 == 0 {
        let (x, y) = (round / 4 % 4, round / 16 % 4);
        let (s, t) = ((16384 * x + 8192) as i32, (16384 * y + 8192) as i32);
        return (A, (x, y), Ask::Texture(A, ((s, t, 0), Clamp, Closest, 1)));
    }
    let (x, y) = (round.wrapping_mul(13) % 80, round / 32 % 48);
    let ask = if round % 4 == 1 {
        Ask::Hold(B, (0, x, y))
    } else {
        Ask::Pixels(B, (0, x as i32, y as i32), (1, 1))
    };
    (B, (x, y), ask)
}

// Whether these are the values of a texel in a generation. A held cell has no values.
fn are_values(file: u32, (x, y): (u32, u32), generation: u32, values: &[u16]) -> bool {
    let row = y.wrapping_mul(if file == A { 16 } else { 100 });
    let first = row.wrapping_add(x);
    match (file, generation, values) {
        (A, 1, [value]) => u32::from(*value) == first.wrapping_mul(257),
        (A, 2, [value]) => u32::from(*value) == first.wrapping_add(100).wrapping_mul(257),
        (B, 1, []) | (B, 2, []) => true,
        (B, 1, [7, red, green, blue]) => are_from(first, [*red, *green, *blue]),
        (B, 2, [7, red, green, blue]) => are_from(first.wrapping_add(1), [*red, *green, *blue]),
        _ => false,
    }
}

// Whether each of the three is greater by 20000 than the one before.
fn are_from(first: u32, values: [u16; 3]) -> bool {
    let [red, green, blue] = values;
    u32::from(red) == first
        && u32::from(green) == first.wrapping_add(20000)
        && u32::from(blue) == first.wrapping_add(40000)
}

/// How the calls of a caller ended.
#[derive(Clone, Copy)]
struct Tally {
    /// Calls with the values of the answered generation, which is not older than what was seen.
    answered: u32,
    /// Calls that answered `Again`, with a first generation not older than what was seen.
    again: u32,
    /// The generation seen of `B` at the end.
    seen: u32,
}

// The generation of an answer; 0 if it has none.
fn generation_of(answer: Answer) -> u32 {
    match answer {
        Answer::Of(generation) => generation,
        Answer::Texels(generation, _) => generation,
        _ => 0,
    }
}

// Whether the answer is `Again`, from a generation not older than what was seen before, to one that
// is seen afterwards.
fn is_again(answer: Answer, before: u32, after: u32) -> bool {
    match answer {
        Answer::Again(from, to) => before <= from && from < to && to <= after,
        _ => false,
    }
}

impl Tally {
    // Counts one more call.
    fn with(self, answered: bool, again: bool) -> Tally {
        Tally {
            answered: self.answered.saturating_add(u32::from(answered)),
            again: self.again.saturating_add(u32::from(again)),
            seen: self.seen,
        }
    }
}

// Makes the call of a round, and releases what it held. Returns whether the answer is right, and
// whether the call must be repeated.
fn made<V: Waiter, T: Tap>(waiter: &V, worker: &mut Worker<'_, T>, round: u32) -> (bool, bool)
    requires { (file : ℕ) → file < 5 → IsFile T.W.files file }
{
    let (file, place, ask) = asked(round);
    let before = worker.seen(file);
    let answer = worker.answer(waiter, 0, ask);
    let after = worker.seen(file);
    let generation = generation_of(answer);
    let right = are_values(file, place, generation, worker.out.as_slice());
    worker.answer(waiter, 0, Ask::Release(0));
    let fresh = before <= generation && generation <= after;
    (right && fresh, is_again(answer, before, after))
}

// Makes all rounds of a caller.
fn tally_of<V: Waiter, T: Tap>(waiter: &V, worker: &mut Worker<'_, T>) -> Tally
    requires { (file : ℕ) → file < 5 → IsFile T.W.files file }
{
    let mut tally = Tally {
        answered: 0,
        again: 0,
        seen: 0,
    };
    for round in 0..ROUNDS {
        let (answered, again) = made(waiter, worker, round);
        tally = tally.with(answered, again);
    }
    tally.seen = worker.seen(B);
    tally
}

fn rounds<R: Wait, T: Tap + Drop>(
    rt: &R,
    alloc: Global,
    cache: &Cache<T>,
    caller: Caller<T>,
) -> Option<Tally>
    requires pass { IsPassOf cache.now caller.pass }
    requires files { cache.now.files.board.files ≡ 5 }
    requires shards { length cache.now.gate.id ≡ 1 }
    requires told { (file : ℕ) → file < 5 → IsFile T.W.files file }
{
    let Caller { pass, tap } = caller;
    let mut taps = Vec::new(alloc);
    if let Err(_full) = taps.push(tap) {
        return None;
    }
    let mut worker = Worker {
        cache,
        shards: 1,
        pass,
        taps,
        out: Vec::new(alloc),
        known: None,
    };
    Some(tally_of(&Forever::new(rt), &mut worker))
}

fn in_two_threads<R: Threads + Wait + Sync, T: Tap + Send + Drop>(
    rt: &R,
    alloc: Global,
    cache: &Cache<T>,
    one: Caller<T>,
    two: Caller<T>,
) -> (Option<Tally>, Option<Tally>)
where
    T::Handle: Send + Sync,
    T::W: Send + Sync,
    requires one { IsPassOf cache.now one.pass }
    requires two { IsPassOf cache.now two.pass }
    requires files { cache.now.files.board.files ≡ 5 }
    requires shards { length cache.now.gate.id ≡ 1 }
    requires told { (file : ℕ) → file < 5 → IsFile T.W.files file }
{
    thread::join(
        rt,
        move || rounds(rt, alloc, cache, one),
        move || rounds(rt, alloc, cache, two),
    )
}

fn two_callers<R: Threads + Wait + Sync, T: Tap + Send + Drop>(
    rt: &R,
    alloc: Global,
    tap: T,
    other: T,
) -> Result<(Option<Tally>, Option<Tally>), Fail>
where
    T::Handle: Send + Sync,
    T::W: Send + Sync,
    requires { (file : ℕ) → file < 5 → IsFile T.W.files file }
{
    let (cache, mut pass) = cache_of(alloc, NO_BYTES, 5)?;
    let second = second_of(&cache, &mut pass)?;
    let one = Caller { pass, tap };
    let two = Caller {
        pass: second,
        tap: other,
    };
    Ok(in_two_threads(rt, alloc, &cache, one, two))
}

// The caller that first reads the last cell of `B` meets its second generation, and so may the
// other if it was reading too. The second tap may meet generation 2 of `A`.
#[test]
fn no_answer_is_older_than_what_was_seen(rt: HostRuntime) -> Result<(), Fail> {
    let alloc = rt.alloc();
    let (tap, other) = pair_of(alloc)?;
    let (Some(one), Some(two)) = two_callers(&rt, alloc, tap, other)? else {
        return Err("no memory".into());
    };
    let all = [
        one.answered.saturating_add(one.again),
        two.answered.saturating_add(two.again),
    ];
    assert!(rt; all == [ROUNDS, ROUNDS], "all are answered");
    assert!(rt; one.again <= 1, "what the first met");
    assert!(rt; two.again <= 2, "what the second met");
    assert!(rt; one.again >= 1 || two.again >= 1, "that somebody met one");
    assert!(rt; [one.seen, two.seen] == [2, 2], "what both have seen");
    Ok(())
}
