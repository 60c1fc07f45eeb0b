//! Sequences of calls by one caller, with the expected answers and counts.
ghost use Rattle.std.specs.Prelude.{ℕ, ◌≡◌, ◌<◌};
ghost use Rattle.tex_world.specs.World.{IsFile};

use crate::asks::{Answer, Ask};
use crate::small_files::SmallFiles;
use crate::worker::Worker;
use tex_world::{MemTap, Tap};
use waiter::Waiter;

/// A tap that can say how many calls it has had.
pub(crate) trait Shows {
    fn shown(&self) -> u64;
}

impl Shows for MemTap<SmallFiles> {
    fn shown(&self) -> u64 {
        self.calls()
    }
}

/// The tap was not called.
pub(crate) const QUIET: bool = false;

/// The tap was called at least once.
pub(crate) const CALLS: bool = true;

/// One step: the number of a tap, a call, its answer, and the values afterwards (7 means not
/// written). Then needs, hits, the generation seen of the call's file, and holds; and whether the
/// tap was called.
pub(crate) type Step = (usize, Ask, Answer, &'static [u16], [u64; 4], bool);

// The file of a call; 0 if it has none.
fn file_of(ask: Ask) -> u32 {
    match ask {
        Ask::Info(file) => file,
        Ask::Hold(file, _) => file,
        Ask::Pixels(file, _, _) => file,
        Ask::Texture(file, _) => file,
        Ask::TextureLocal(file, _) => file,
        Ask::Batch(file, _, _) => file,
        Ask::Invalidate(file, _) => file,
        Ask::Open(file) => file,
        Ask::Local(file) => file,
        _ => 0,
    }
}

fn are_same(values: &[u16], wanted: &[u16]) -> bool {
    values == wanted
}

impl<T: Tap + Shows> Worker<'_, T> {
    // The number of calls that a tap has had; 0 if there is no such tap.
    fn calls(&self, tap: usize) -> u64 {
        match self.taps.get(tap) {
            Some(tap) => tap.shown(),
            None => 0,
        }
    }

    // Makes the call of a step. True if everything is as the step says.
    fn is_so<V: Waiter>(&mut self, waiter: &V, step: &Step) -> bool
        requires { (file : ℕ) → file < 5 → IsFile T.W.files file }
        ensures { self.new.cache.now ≡ self.old.cache.now }
    {
        let (tap, ask, wanted, values, left, called) = step;
        let before = self.calls(*tap);
        let answer = self.answer(waiter, *tap, *ask);
        let rose = before < self.calls(*tap);
        let counts = [
            self.pass.needs(),
            self.pass.hits(),
            self.seen(file_of(*ask)) as u64,
            self.holds(),
        ];
        let same = are_same(self.out.as_slice(), values);
        answer == *wanted && same && counts == *left && rose == *called
    }

    /// How many steps are as they say, before the first that is not.
    pub(crate) fn steps_met<V: Waiter>(&mut self, waiter: &V, steps: &[Step]) -> usize
        requires { (file : ℕ) → file < 5 → IsFile T.W.files file }
        ensures { self.new.cache.now ≡ self.old.cache.now }
    {
        for (met, step) in steps.iter().enumerate() {
            if !self.is_so(waiter, step) {
                return met;
            }
        }
        steps.len()
    }
}
