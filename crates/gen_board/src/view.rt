//! A view: what one caller has seen of a board.
ghost use Rattle.std.specs.Prelude.{◌≡◌, ℕ, ◌<◌, slice_index};
ghost use Rattle.tex_world.specs.Tap.{IsLeast};
ghost use Rattle.gen_board.specs.View.{ViewState};

use crate::sight::Sight;
use atomic_table::Seat;
use std::marker::{Model, PhantomData};
use tex_world::World;

/// What one caller has seen of the files of a board. Clauses see the board, what was seen, and
/// counts of reads and raises, which exist only for contracts.
#[derive(Drop)]
pub struct View<W: World> {
    pub(crate) seat: Seat<(), Sight>,
    pub(crate) seen: Vec<u32>,
    pub(crate) world: PhantomData<W>,
}

impl<W: World> Model for View<W> {
    ghost use Rattle.gen_board.specs.View.{ViewState};
    ghost use Rattle.gen_board.specs.Seated.{view_state, IsSeated};

    ghost Value = { ViewState };

    ghost view = { λ v. view_state v.seat v.seen.items };

    ghost invariant = { λ v. IsSeated W.files v.seat v.seen.items };
}

impl<W: World> View<W> {
    /// The newest generation that the caller has seen of a file, or 0.
    pub fn seen(&self, file: u32) -> u32
        requires { file < self.now.board.files }
        ensures value { result ≡ slice_index self.now.seen file }
        ensures known { (f : ℕ) → IsLeast W.files f (slice_index self.now.seen f) }
    {
        self.seen[file as usize]
    }
}
