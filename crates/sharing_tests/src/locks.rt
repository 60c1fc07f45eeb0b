//! A lock around a count, whose tag is the greatest count allowed.
ghost use Rattle.std.specs.Prelude.{◌≤◌};

use std::convert::Infallible;
use std::sync::Wait;
use std::test::Fail;
use std::thread;
use std::thread::Threads;
use tag_lock::{NotPut, TagLock, TagRule};
use test_files::Checks;
use waiter::{Forever, GaveUp, Tries, Waiter};

// the number of times that each of two threads adds one
const ROUNDS: u64 = 10_000;

const TOTAL: u64 = 20_000;

// a count fits a tag if it is not greater
struct AtMost;

impl TagRule<u64> for AtMost {
    ghost fits = { λ tag count. count ≤ tag };
}

type CountLock = TagLock<u64, AtMost>;

// Takes the count out, and puts back one more, or 0 after the greatest.
fn add_one<W: Waiter<Busy = Infallible>>(waiter: &W, lock: &CountLock) {
    let count = match lock.take(waiter) {
        Ok(count) => count,
        Err(never) => match never {},
    };
    let next = if count < lock.tag() { count + 1 } else { 0 };
    match lock.put(waiter, next) {
        Ok(()) => {}
        Err(NotPut { value: _, busy }) => match busy {},
    }
}

fn add_many<R: Wait>(rt: &R, lock: &CountLock) {
    let waiter = Forever::new(rt);
    for _ in 0..ROUNDS {
        add_one(&waiter, lock);
    }
}

fn add_in_two_threads<R: Threads + Wait + Sync>(rt: &R, lock: &CountLock) {
    thread::join(rt, || add_many(rt, lock), || add_many(rt, lock));
}

#[test]
fn counts_what_two_threads_add(rt: HostRuntime) -> Result<(), Fail> {
    let mut checks = Checks::new();
    let lock = CountLock::new(TOTAL, 0);
    add_in_two_threads(&rt, &lock);
    checks.equal("the tag", lock.tag(), TOTAL);
    checks.equal("the count", lock.into_inner().unwrap_or(0), TOTAL);
    checks.result()
}

// What comes back of a value that is put, after the tries are used up.
fn put_back(lock: &CountLock, waiter: &Tries, count: u64) -> Option<u64>
    requires { count ≤ lock.now }
{
    match lock.put(waiter, count) {
        Ok(()) => None,
        Err(
            NotPut {
                value,
                busy: GaveUp,
            },
        ) => Some(value),
    }
}

#[test]
fn gives_up_after_a_few_tries(rt: HostRuntime) -> Result<(), Fail> {
    let mut checks = Checks::new();
    let lock = CountLock::new(9, 7);
    let waiter = Tries::new(3);
    checks.holds("at home", lock.take(&waiter) == Ok(7));
    checks.holds("taken", lock.take(&waiter) == Err(GaveUp));
    checks.holds("put by its taker", put_back(&lock, &waiter, 8).is_none());
    checks.holds("at home again", put_back(&lock, &waiter, 9) == Some(9));
    checks.holds("what its taker put", lock.take(&waiter) == Ok(8));
    checks.holds("taken and never put back", lock.into_inner().is_none());
    checks.result()
}
