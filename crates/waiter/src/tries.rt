//! A waiter that gives up.
ghost use Rattle.std.specs.Prelude.{◌≡◌, ℕ, ◌<◌};

use crate::waiting::Waiter;
use std::hint::spin_loop;
use std::marker::Model;

/// Gives up after `count` tries. It never waits, so code without the runtime can use it.
#[derive(Drop)]
pub struct Tries {
    count: u64,
}

/// The answer of a call that gave up.
#[derive(Clone, Copy, Debug, PartialEq, Eq)]
pub struct GaveUp;

impl Model for Tries {
    ghost Value = { ℕ };

    ghost view = { λ t. t.count };

    ghost invariant = { λ t. 0 < t.count };
}

impl Tries {
    /// Allows `count` tries, the first one included.
    pub fn new(count: u64) -> Tries
        requires { 0 < count }
        ensures { result ≡ count }
    {
        Tries { count }
    }
}

impl Waiter for Tries {
    type Busy = GaveUp;

    ghost tries_of = { λ t. t };

    fn tries(&self) -> u64 {
        self.count
    }

    fn pause(&self, _failed: u64) {
        spin_loop();
    }

    fn busy(&self) -> GaveUp {
        GaveUp
    }
}
