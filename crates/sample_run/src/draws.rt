//! A random number generator, from which requests are made.

ghost use Rattle.std.specs.Prelude.{◌≡◌};
ghost use Rattle.sample_run.specs.Draw.{first_state, next_state, drawn};

use std::marker::Model;

/// The multiplier of the generator.
const MULTIPLIER: u64 = 1103515245;

/// The increment of the generator.
const INCREMENT: u64 = 12345;

/// All states are below this number.
const STATES: u64 = 2147483648;

/// A drawn number is the state divided by this, because the lowest bits are less random.
const LOWEST: u64 = 256;

/// A sequence of drawn numbers. Clauses see its state.
#[derive(Drop)]
pub(crate) struct Draws {
    state: u64,
}

impl Model for Draws {
    ghost use Rattle.std.specs.Prelude.{ℕ, ◌<◌};
    ghost use Rattle.sample_run.specs.Draw.{states};

    ghost Value = { ℕ };

    ghost view = { λ draws. draws.state };

    ghost invariant = { λ draws. draws.state < states };
}

impl Draws {
    /// The state before the first draw.
    pub(crate) fn new() -> Draws
        ensures { result ≡ first_state }
    {
        Draws { state: 1 }
    }

    /// Draws the next number.
    #[tactic(auto, unfolding(crate::specs::Draw::next_state))]
    pub(crate) fn draw(&mut self) -> u64
        ensures state { self.new ≡ next_state self.old }
        ensures value { result ≡ drawn self.new }
    {
        self.state = (self.state * MULTIPLIER + INCREMENT) % STATES;
        self.state / LOWEST
    }
}
