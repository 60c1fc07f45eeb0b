//! One thread locks a shard again and again, and a caller in a second thread has a single try. Each
//! kind of call gives up sooner or later, changes nothing then, and succeeds when it waits.
ghost use Rattle.std.specs.Prelude.{ℕ, ◌≡◌, ◌<◌, length, IfOk};
ghost use Rattle.tex_world.specs.World.{IsFile};
ghost use Rattle.tile_source.specs.Pass.{IsPassOf};

use crate::asks::Answer::{Busy, Of, Rectangle, Released, Shard};
use crate::asks::Ask::{Count, Held, Hold, Release};
use crate::caller::Caller;
use crate::folder::{cache_of, second_of};
use crate::planned::pair_of;
use crate::small_files::B;
use crate::worker::Worker;
use image_cache::{Cache, NotJoined, Options, Pass, TexelAt};
use std::alloc::Global;
use std::sync::Wait;
use std::sync::atomic::{AtomicBool, Ordering};
use std::test::Fail;
use std::thread;
use std::thread::Threads;
use tex_world::Tap;
use tiff_format::Cut;
use waiter::{Forever, Tries, Waiter};

/// One shard with a budget for all tiles, for three passes.
const THREE_PASSES: Options = Options {
    budget: 268435456,
    shards: 1,
    passes: 3,
    handles: 4,
    cut: Cut {
        autotile: 64,
        automip: false,
    },
    slots: 1024,
};

/// The first thread locks the shard at most this often. It ends when the second one has ended.
const TAKES: u32 = 100_000_000;

/// The second thread makes at most this many rounds, which take some seconds.
const ROUNDS: u32 = 1_000_000;

/// The counts of the shard with one tile, the first cell of `B` with 12288 bytes: pinned once, and
/// not pinned.
const PINNED: [u64; 4] = [1, 1, 0, 268435456];

const UNPINNED: [u64; 4] = [1, 0, 12288, 268435456];

/// Which calls have given up at least once.
#[derive(Clone, Copy, PartialEq, Eq)]
struct GaveUpAt {
    count: bool,
    release: bool,
    join: bool,
}

/// What went wrong.
type Wrong = &'static str;

fn all_gave_up(met: GaveUpAt) -> bool {
    met.count && met.release && met.join
}

// Whether the shard has these counts.
fn has<V: Waiter, T: Tap>(waiter: &V, worker: &mut Worker<'_, T>, numbers: [u64; 4]) -> bool
    requires { (file : ℕ) → file < 5 → IsFile T.W.files file }
    ensures { worker.new.cache.now ≡ worker.old.cache.now }
{
    worker.answer(waiter, 0, Count(0)) == Shard(numbers)
}

// Counts the shard with one try. True if that gave up.
fn count_gave_up<V: Waiter, T: Tap>(waiter: &V, worker: &mut Worker<'_, T>) -> Result<bool, Wrong>
    requires { (file : ℕ) → file < 5 → IsFile T.W.files file }
    ensures { worker.new.cache.now ≡ worker.old.cache.now }
{
    let answer = worker.answer(&Tries::new(1), 0, Count(0));
    if answer == Shard(UNPINNED) {
        return Ok(false);
    }
    if answer == Busy && has(waiter, worker, UNPINNED) {
        return Ok(true);
    }
    Err("count")
}

// Holds the cell once more.
fn holds_again<V: Waiter, T: Tap>(waiter: &V, worker: &mut Worker<'_, T>) -> bool
    requires { (file : ℕ) → file < 5 → IsFile T.W.files file }
    ensures { worker.new.cache.now ≡ worker.old.cache.now }
{
    worker.answer(waiter, 0, Hold(B, (0, 0, 0))) == Of(1)
}

// Whether there is one hold, and it can be released.
fn releases_last<V: Waiter, T: Tap>(waiter: &V, worker: &mut Worker<'_, T>) -> bool
    requires { (file : ℕ) → file < 5 → IsFile T.W.files file }
    ensures { worker.new.cache.now ≡ worker.old.cache.now }
{
    let held = worker.answer(waiter, 0, Held(0)) == Rectangle([0, 0, 64, 32]);
    let one = worker.holds() == 1;
    held && one && worker.answer(waiter, 0, Release(0)) == Released
}

// Holds the cell twice, and releases it twice with one try each. The pin of the first hold may stay
// in hand, and then the second is not released. True if that was so.
fn release_gave_up<V: Waiter, T: Tap>(waiter: &V, worker: &mut Worker<'_, T>) -> Result<bool, Wrong>
    requires { (file : ℕ) → file < 5 → IsFile T.W.files file }
    ensures { worker.new.cache.now ≡ worker.old.cache.now }
{
    if !holds_again(waiter, worker) || !holds_again(waiter, worker) {
        return Err("hold");
    }
    let once = Tries::new(1);
    if worker.answer(&once, 0, Release(0)) != Released || worker.holds() != 1 {
        return Err("the first release");
    }
    let answer = worker.answer(&once, 0, Release(0));
    let gave_up = answer == Busy && releases_last(waiter, worker);
    if !gave_up && answer != Released {
        return Err("the second release");
    }
    // a call that pins first gives back the pin in hand
    if holds_again(waiter, worker)
        && releases_last(waiter, worker)
        && worker.holds() == 0
        && has(waiter, worker, UNPINNED)
    {
        Ok(gave_up)
    } else {
        Err("what the releases leave")
    }
}

// Splits off a further pass, which holds the cell.
fn holding<V: Waiter, T: Tap>(waiter: &V, worker: &mut Worker<'_, T>) -> Result<Pass<T::W>, Wrong>
    requires { (file : ℕ) → file < 5 → IsFile T.W.files file }
    ensures same { worker.new.cache.now ≡ worker.old.cache.now }
    ensures pass { IfOk result (IsPassOf worker.new.cache.now) }
{
    let Ok(mut other) = worker.cache.split(&mut worker.pass) else {
        return Err("split");
    };
    let Some(tap) = worker.taps.get_mut(0) else {
        return Err("tap");
    };
    let at = TexelAt {
        level: 0,
        x: 0,
        y: 0,
    };
    match worker.cache.get_tile(waiter, &mut other, tap, B, at) {
        Ok(1) => Ok(other),
        _ => Err("hold of a further pass"),
    }
}

// Whether a pass that could not be joined still has its tile, and joins when its caller waits.
fn joins_yet<V: Waiter, T: Tap>(waiter: &V, worker: &mut Worker<'_, T>, other: Pass<T::W>) -> bool
    requires pass { IsPassOf worker.old.cache.now other }
    requires told { (file : ℕ) → file < 5 → IsFile T.W.files file }
    ensures { worker.new.cache.now ≡ worker.old.cache.now }
{
    let pinned = has(waiter, worker, PINNED);
    match worker.cache.join(waiter, &mut worker.pass, other) {
        Ok(()) => pinned,
        Err(_busy) => false,
    }
}

// Joins a further pass to the worker's with one try. True if that gave up.
fn join_gave_up<V: Waiter, T: Tap>(waiter: &V, worker: &mut Worker<'_, T>) -> Result<bool, Wrong>
    requires { (file : ℕ) → file < 5 → IsFile T.W.files file }
    ensures { worker.new.cache.now ≡ worker.old.cache.now }
{
    let other = holding(waiter, worker)?;
    let gave_up = match worker.cache.join(&Tries::new(1), &mut worker.pass, other) {
        Ok(()) => false,
        Err(NotJoined { other, busy: _ }) => {
            if !joins_yet(waiter, worker, other) {
                return Err("join");
            }
            true
        }
    };
    if has(waiter, worker, UNPINNED) {
        Ok(gave_up)
    } else {
        Err("what a join leaves")
    }
}

// Makes each call with one try, until each has given up once.
fn rounds<V: Waiter, T: Tap>(waiter: &V, worker: &mut Worker<'_, T>) -> Result<GaveUpAt, Wrong>
    requires { (file : ℕ) → file < 5 → IsFile T.W.files file }
{
    let mut met = GaveUpAt {
        count: false,
        release: false,
        join: false,
    };
    for _ in 0..ROUNDS {
        // the first round puts the tile into the shard
        met.release = release_gave_up(waiter, worker)? || met.release;
        met.count = count_gave_up(waiter, worker)? || met.count;
        met.join = join_gave_up(waiter, worker)? || met.join;
        if all_gave_up(met) {
            break;
        }
    }
    Ok(met)
}

// The caller in the second thread.
fn tries<R: Wait, T: Tap + Drop>(
    rt: &R,
    alloc: Global,
    cache: &Cache<T>,
    caller: Caller<T>,
) -> Result<GaveUpAt, Wrong>
    requires pass { IsPassOf cache.now caller.pass }
    requires files { cache.now.files.board.files ≡ 5 }
    requires shards { length cache.now.gate.id ≡ 1 }
    requires told { (file : ℕ) → file < 5 → IsFile T.W.files file }
{
    let Caller { pass, tap } = caller;
    let mut taps = Vec::new(alloc);
    if let Err(_full) = taps.push(tap) {
        return Err("no memory");
    }
    let mut worker = Worker {
        cache,
        shards: 1,
        pass,
        taps,
        out: Vec::new(alloc),
        known: None,
    };
    rounds(&Forever::new(rt), &mut worker)
}

// Locks the shard again and again, until the other caller has ended. Reads no file.
fn takes<R: Wait, T: Tap + Drop>(
    rt: &R,
    alloc: Global,
    cache: &Cache<T>,
    pass: Pass<T::W>,
    ended: &AtomicBool,
)
    requires pass { IsPassOf cache.now pass }
    requires files { cache.now.files.board.files ≡ 5 }
    requires shards { length cache.now.gate.id ≡ 1 }
    requires told { (file : ℕ) → file < 5 → IsFile T.W.files file }
{
    let waiter = Forever::new(rt);
    let mut worker = Worker {
        cache,
        shards: 1,
        pass,
        taps: Vec::new(alloc),
        out: Vec::new(alloc),
        known: None,
    };
    for _ in 0..TAKES {
        let _numbers = worker.answer(&waiter, 0, Count(0));
        if ended.load(Ordering::Acquire) {
            return;
        }
    }
}

fn beside<R: Threads + Wait + Sync, T: Tap + Send + Drop>(
    rt: &R,
    alloc: Global,
    cache: &Cache<T>,
    pass: Pass<T::W>,
    caller: Caller<T>,
) -> Result<GaveUpAt, Wrong>
where
    T::Handle: Send + Sync,
    T::W: Send + Sync,
    requires pass { IsPassOf cache.now pass }
    requires caller { IsPassOf cache.now caller.pass }
    requires files { cache.now.files.board.files ≡ 5 }
    requires shards { length cache.now.gate.id ≡ 1 }
    requires told { (file : ℕ) → file < 5 → IsFile T.W.files file }
{
    let ended = AtomicBool::new(false);
    let flag = &ended;
    let ((), met) = thread::join(
        rt,
        move || takes(rt, alloc, cache, pass, flag),
        move || {
            let met = tries(rt, alloc, cache, caller);
            flag.store(true, Ordering::Release);
            met
        },
    );
    met
}

fn gave_up_at<R: Threads + Wait + Sync, T: Tap + Send + Drop>(
    rt: &R,
    alloc: Global,
    tap: T,
) -> Result<Result<GaveUpAt, Wrong>, Fail>
where
    T::Handle: Send + Sync,
    T::W: Send + Sync,
    requires { (file : ℕ) → file < 5 → IsFile T.W.files file }
{
    let (cache, mut first) = cache_of(alloc, THREE_PASSES, 5)?;
    let pass = second_of(&cache, &mut first)?;
    let caller = Caller { pass: first, tap };
    Ok(beside(rt, alloc, &cache, pass, caller))
}

#[test]
fn calls_on_a_taken_shard_give_up(rt: HostRuntime) -> Result<(), Fail> {
    let alloc = rt.alloc();
    let (tap, _other) = pair_of(alloc)?;
    match gave_up_at(&rt, alloc, tap)? {
        Ok(met) => {
            assert!(rt; met.count, "count");
            assert!(rt; met.release, "a release");
            assert!(rt; met.join, "a join");
        }
        Err(wrong) => assert!(rt; false, "{wrong}"),
    }
    Ok(())
}
