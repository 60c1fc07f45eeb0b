//! One file table used by two threads.

ghost use Rattle.std.specs.Prelude.{ℕ, ◌<◌};
ghost use Rattle.tex_world.specs.World.{IsFile};

use crate::worker::Worker;
use file_table::Files;
use std::alloc::Global;
use std::sync::Wait;
use std::test::Fail;
use std::thread;
use std::thread::Threads;
use test_files::{Checks, Pictures, taps_of};
use tex_world::Tap;
use tiff_format::Cut;
use waiter::Forever;

const ROUNDS: u32 = 1000;

const CUT: Cut = Cut {
    autotile: 64,
    automip: true,
};

fn work<R: Wait, T: Tap>(rt: &R, worker: &mut Worker<'_, T>) -> u32
    requires { (file : ℕ) → file < 3 → IsFile T.W.files file }
{
    worker.work(&Forever::new(rt), 3, ROUNDS)
}

fn work_in_two_threads<R: Threads + Wait + Sync, T: Tap + Send>(
    rt: &R,
    one: &mut Worker<'_, T>,
    two: &mut Worker<'_, T>,
) -> (u32, u32)
where
    T::Handle: Send + Sync,
    T::W: Send + Sync,
    requires { (file : ℕ) → file < 3 → IsFile T.W.files file }
{
    thread::join(rt, || work(rt, one), || work(rt, two))
}

// Two callers of a table visit the first three files, each in a thread of its own.
fn check_work<R: Threads + Wait + Sync, T: Tap + Send>(
    rt: &R,
    checks: &mut Checks,
    one: &mut Worker<'_, T>,
    two: &mut Worker<'_, T>,
)
where
    T::Handle: Send + Sync,
    T::W: Send + Sync,
    requires { (file : ℕ) → file < 3 → IsFile T.W.files file }
{
    let (first, second) = work_in_two_threads(rt, one, two);
    checks.equal("visits of one thread", u64::from(first), 3000);
    checks.equal("visits of the other", u64::from(second), 3000);
    let idle = one.files.idle(&Forever::new(rt)) == Ok(2);
    checks.holds("two handles are idle, of three files", idle);
}

// Two callers share a new table.
fn check_table<R: Threads + Wait + Sync, T: Tap + Send + Drop>(
    rt: &R,
    alloc: Global,
    checks: &mut Checks,
    tap: T,
    other: T,
) -> Result<(), Fail>
where
    T::Handle: Send + Sync,
    T::W: Send + Sync,
    requires { (file : ℕ) → file < 3 → IsFile T.W.files file }
{
    let (files, mut view) = Files::new(alloc, 4, 2, CUT)?;
    let second = files.board().split(&mut view)?;
    let mut one = Worker {
        files: &files,
        view,
        tap,
    };
    let mut two = Worker {
        files: &files,
        view: second,
        tap: other,
    };
    check_work(rt, checks, &mut one, &mut two);
    Ok(())
}

#[test]
fn two_threads_share_a_table(rt: HostRuntime) -> Result<(), Fail> {
    let mut checks = Checks::new();
    let mut taps = taps_of::<Pictures>(rt.alloc(), &[], 2)?;
    let (Some(tap), Some(other)) = (taps.pop(), taps.pop()) else {
        return Err("no taps".into());
    };
    check_table(&rt, rt.alloc(), &mut checks, tap, other)?;
    checks.result()
}
