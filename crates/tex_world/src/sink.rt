//! The output of the program, as a trait.
ghost use Rattle.std.specs.Prelude.{ℕ, ◌≤◌, List, Option, OnOk, OnErr};
ghost use Rattle.tex_world.specs.Counts.{Rises};
ghost use Rattle.tex_world.specs.Stream.{Appends, AppendsPart};

use crate::fault::Failed;

/// A place to write bytes to.
pub trait Sink {
    /// The bytes written, if the sink is modelled.
    ghost holds: { Self → Option (List ℕ) };

    /// How many writes have failed.
    ghost faults: { Self → ℕ };

    /// Appends the bytes. After an error, a first part of them may have been written.
    fn put(&mut self, bytes: &[u8]) -> Result<(), Failed>
        ensures ok { OnOk result (Appends bytes.now (holds self.old) (holds self.new)) }
        ensures part { OnErr result (AppendsPart bytes.now (holds self.old) (holds self.new)) }
        ensures faults { faults self.old ≤ faults self.new }
        ensures cause { OnErr result (Rises (faults self.old) (faults self.new)) };
}
