//! The kinds of atomic step, and what each of them tells the seat.
ghost use Rattle.shard_gate.specs.Steps.{Took, Gave, Counted, Looked, Pinned, Unpinned, Filled};
ghost use Rattle.shard_gate.specs.Turn.{kept_standing, new_standing};
ghost use Rattle.shard_gate.specs.Turn.{both_standings, spent_standing};

use crate::rule::BodyRule;
use crate::standing::Standing;
use atomic_table::{Join, Play, Split};
use std::marker::PhantomData;

/// A compare-and-exchange of the lock word from 0 to 1.
pub(crate) struct Take<L> {
    rule: PhantomData<L>,
}

impl<S, L: BodyRule<S>> Play<S, Standing> for Take<L> {
    ghost then = { Took L.lawful L.shown L.words };
}

/// A store of 0 to the lock word.
pub(crate) struct Give<L> {
    rule: PhantomData<L>,
}

impl<S, L: BodyRule<S>> Play<S, Standing> for Give<L> {
    ghost then = { Gave L.shown };
}

/// A load of the lock word. It shows the proof that a seat has no more permits than all seats
/// together.
pub(crate) struct Count;

impl<S> Play<S, Standing> for Count {
    ghost then = { Counted };
}

/// A load of a slot's key word.
pub(crate) struct LoadKey;

impl<S> Play<S, Standing> for LoadKey {
    ghost then = { Looked };
}

/// An addition of 1 to a slot's pin word.
pub(crate) struct PinSlot;

impl<S> Play<S, Standing> for PinSlot {
    ghost then = { Pinned };
}

/// A subtraction of 1 from a slot's pin word.
pub(crate) struct UnpinSlot;

impl<S> Play<S, Standing> for UnpinSlot {
    ghost then = { Unpinned };
}

/// A store to a slot's key word.
pub(crate) struct FillSlot;

impl<S> Play<S, Standing> for FillSlot {
    ghost then = { Filled };
}

/// One permit goes to a new seat.
pub(crate) struct OnePermit;

impl Split<Standing> for OnePermit {
    ghost left = { kept_standing };

    ghost right = { new_standing };
}

/// The permits of another seat are added, and that seat ends.
pub(crate) struct AllPermits;

impl Join<Standing> for AllPermits {
    ghost both = { both_standings };

    ghost spent = { spent_standing };
}
