//! The input of the program, as a trait.
ghost use Rattle.std.specs.Prelude.{ℕ, ◌<◌, ◌≤◌, List, length, Option, IfOk, OnErr};
ghost use Rattle.tex_world.specs.Counts.{Rises};
ghost use Rattle.tex_world.specs.Stream.{Feeds};

use crate::fault::Failed;

/// A source of bytes that ends.
pub trait Feed {
    /// The bytes that are left, if the feed is modelled.
    ghost left: { Self → Option (List ℕ) };

    /// How many reads have failed.
    ghost faults: { Self → ℕ };

    /// Reads the next bytes into the front of the buffer and returns how many. 0 means the end.
    fn read(&mut self, buf: &mut [u8]) -> Result<usize, Failed>
        requires { 0 < length buf.old }
        ensures ok { IfOk result (λ n. Feeds n buf.new (left self.old) (left self.new)) }
        ensures faults { faults self.old ≤ faults self.new }
        ensures cause { OnErr result (Rises (faults self.old) (faults self.new)) };
}
