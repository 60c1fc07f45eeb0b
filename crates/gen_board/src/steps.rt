//! The four kinds of atomic step, and what each of them tells the seat.
ghost use Rattle.gen_board.specs.Rule.{Looked, Raised, both_sights, spent_sight};

use crate::sight::Sight;
use atomic_table::{Join, Play, Split};
use std::marker::PhantomData;
use tex_world::World;

/// A load: the seat has then seen the number found.
pub(crate) struct LoadNumber<W> {
    world: PhantomData<W>,
}

impl<W: World> Play<(), Sight> for LoadNumber<W> {
    ghost then = { Looked W.files };
}

/// A fetch-and-max: the seat has then seen the greater of the number found and the one given.
pub(crate) struct Raise<W> {
    world: PhantomData<W>,
}

impl<W: World> Play<(), Sight> for Raise<W> {
    ghost then = { Raised W.files };
}

/// The new seat has seen the same.
pub(crate) struct Copied;

impl Split<Sight> for Copied {
    ghost left = { λ sight. sight };

    ghost right = { λ sight. sight };
}

/// The seat has then seen the greater of both, and the other seat ends.
pub(crate) struct JoinSights;

impl Join<Sight> for JoinSights {
    ghost both = { both_sights };

    ghost spent = { spent_sight };
}
