//! One caller of a file table, with its own view and tap.
ghost use Rattle.std.specs.Prelude.{◌≡◌, ℕ, ◌<◌};
ghost use Rattle.tex_world.specs.World.{IsFile};

use file_table::Files;
use gen_board::View;
use tex_world::{Tap, TapHandle};
use waiter::Waiter;

#[derive(Drop)]
pub(crate) struct Worker<'a, T: Tap> {
    pub(crate) files: &'a Files<T>,
    pub(crate) view: View<T::W>,
    pub(crate) tap: T,
    ghost board: { view.board ≡ files.now.board },
}

impl<T: Tap> Worker<'_, T> {
    /// Gets the record of a file, and lends and settles a handle of its generation. True if all
    /// went well.
    pub(crate) fn visit<V: Waiter>(&mut self, waiter: &V, file: u32) -> bool
        requires { IsFile T.W.files file }
    {
        if file >= self.files.board().files() {
            return false;
        }
        let Ok(record) = self
            .files
            .record(waiter, &mut self.view, &mut self.tap, file)
        else {
            return false;
        };
        let g = record.generation();
        let Ok(open) = self
            .files
            .lend(waiter, &mut self.view, &mut self.tap, file, g)
        else {
            return false;
        };
        let exact = open.handle.generation() == g;
        self.files.settle(waiter, open).is_ok() && exact
    }

    /// Visits all files this many times, and returns how many visits went well.
    pub(crate) fn work<V: Waiter>(&mut self, waiter: &V, files: u32, rounds: u32) -> u32
        requires { (file : ℕ) → file < files → IsFile T.W.files file }
    {
        let mut done = 0u32;
        for _ in 0..rounds {
            for file in 0..files {
                if self.visit(waiter, file) {
                    done = done.saturating_add(1);
                }
            }
        }
        done
    }
}
