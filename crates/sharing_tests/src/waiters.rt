//! A waiter that calls the table in the middle of another call.
ghost use Rattle.std.specs.Prelude.{◌≡◌, ◌<◌};
ghost use Rattle.tex_world.specs.World.{IsFile};

use crate::bench::{Bench, memory_bench};
use crate::seat::Seat;
use file_table::Files;
use gen_board::View;
use std::cell::Cell;
use std::test::Fail;
use test_files::Checks;
use tex_world::Tap;
use waiter::{GaveUp, Tries, Waiter};

// Each time it is asked for its tries, it drops what is idle of the first file, with three tries,
// and counts whether that worked.
#[derive(Drop)]
struct Nosy<'a, T: Tap> {
    files: &'a Files<T>,
    done: Cell<u32>,
    busy: Cell<u32>,
    ghost some: { 0 < files.now.board.files },
}

impl<T: Tap> Waiter for Nosy<'_, T> {
    type Busy = GaveUp;

    ghost tries_of = { λ _. 1 };

    fn tries(&self) -> u64 {
        let count = match self.files.drop_idle(&Tries::new(3), 0) {
            Ok(()) => &self.done,
            Err(GaveUp) => &self.busy,
        };
        count.set(count.get().saturating_add(1));
        1
    }

    fn pause(&self, _failed: u64) {}

    fn busy(&self) -> GaveUp {
        GaveUp
    }
}

/// The generation of the record of the first file; 0 if none exists.
fn generation<T: Tap>(files: &Files<T>, view: View<T::W>, tap: &mut T, nosy: &Nosy<'_, T>) -> u32
    requires board { view.board ≡ files.now.board }
    requires first { IsFile T.W.files 0 }
{
    let mut seat = Seat { files, view };
    match seat.record(nosy, tap, 0) {
        Ok(record) => record.generation(),
        Err(_) => 0,
    }
}

/// Whether no handle is idle.
fn is_idle<T: Tap>(files: &Files<T>, nosy: &Nosy<'_, T>) -> bool {
    match files.idle(nosy) {
        Ok(count) => count == 0,
        Err(GaveUp) => false,
    }
}

// A record is taken and put back, and so once more; then the idle handles are counted.
fn check_busy<T: Tap>(checks: &mut Checks, files: &Files<T>, view: View<T::W>, tap: &mut T)
    requires some { 0 < files.now.board.files }
    requires board { view.board ≡ files.now.board }
    requires first { IsFile T.W.files 0 }
{
    let nosy = Nosy {
        files,
        done: Cell::new(0),
        busy: Cell::new(0),
    };
    checks.case("a record");
    checks.equal(
        "its generation",
        u64::from(generation(files, view, tap, &nosy)),
        1,
    );
    checks.equal("calls that worked", u64::from(nosy.done.get()), 2);
    checks.equal("busy calls", u64::from(nosy.busy.get()), 2);
    checks.case("the idle handles");
    checks.holds("none is idle", is_idle(files, &nosy));
    checks.equal("calls that worked", u64::from(nosy.done.get()), 3);
    checks.equal("busy calls", u64::from(nosy.busy.get()), 3);
}

#[test]
fn a_call_inside_a_lock_is_busy(rt: HostRuntime) -> Result<(), Fail> {
    let mut checks = Checks::new();
    let Bench {
        files,
        view,
        mut taps,
    } = memory_bench(rt.alloc(), 4)?;
    match taps.last_mut() {
        Some(tap) => check_busy(&mut checks, &files, view, tap),
        None => checks.holds("a tap", false),
    }
    checks.result()
}
