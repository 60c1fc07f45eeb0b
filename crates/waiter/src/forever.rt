//! A waiter that never gives up.
ghost use Rattle.waiter.specs.Tries.{max_tries};

use crate::waiting::Waiter;
use std::convert::Infallible;
use std::hint::spin_loop;
use std::sync::{Wait, WaitMethods};
use std::thread::yield_now;

/// A number of tries that no program uses up.
const MAX_TRIES: u64 = u64::MAX;

/// After this many failed tries, a pause gives the processor to another thread.
const MAX_SPINS: u64 = 64;

/// Waits for ever: a call returns only when it has what it waits for.
#[derive(Drop)]
pub struct Forever<R: Wait> {
    rt: R,
}

impl<R: Wait> Forever<R> {
    /// A waiter over the runtime, or over a reference to it.
    pub fn new(rt: R) -> Forever<R> {
        Forever { rt }
    }
}

impl<R: Wait> Waiter for Forever<R> {
    type Busy = Infallible;

    ghost tries_of = { λ _. max_tries };

    fn tries(&self) -> u64 {
        MAX_TRIES
    }

    fn pause(&self, failed: u64) {
        if failed < MAX_SPINS {
            spin_loop();
        } else {
            yield_now();
        }
    }

    fn busy(&self) -> Infallible {
        for _ in self.rt.forever() {
            yield_now();
        }
        unreachable!()
    }
}
