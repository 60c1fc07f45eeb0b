//! The invariant of the board's atomic words.
ghost use Rattle.gen_board.specs.Rule.{IsBoard, first_sight};

use crate::sight::Sight;
use atomic_table::TableRule;
use std::marker::PhantomData;
use tex_world::World;

/// Between atomic steps, each word, and each number that a seat has seen, is 0 or a generation that
/// exists. What is seen is at most the word.
pub(crate) struct Generations<W> {
    world: PhantomData<W>,
}

impl<W: World> TableRule<(), Sight, u32> for Generations<W> {
    ghost holds = { IsBoard W.files };

    ghost first = { first_sight };
}
