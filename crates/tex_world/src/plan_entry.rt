//! The entries of a plan, sorted out by tap.
ghost use Rattle.std.specs.Prelude.{◌≡◌, ℕ, [], IfOk, IsOk};
ghost use Rattle.tex_world.specs.Plan.{entries_of};

use crate::fault::NoMemory;
use crate::plan::{FailByte, FailCall, Newest, Rise};
use std::alloc::Global;

/// An entry of a plan, which concerns one tap.
pub trait PlanEntry: Copy + Drop {
    /// The number of the tap.
    ghost tap_of: { Self → ℕ };

    /// The number of the tap.
    fn tap(&self) -> u32
        ensures { result ≡ tap_of self.now };
}

impl PlanEntry for FailCall {
    ghost tap_of = { λ e. e.tap };

    fn tap(&self) -> u32 {
        self.tap
    }
}

impl PlanEntry for FailByte {
    ghost tap_of = { λ e. e.tap };

    fn tap(&self) -> u32 {
        self.tap
    }
}

impl PlanEntry for Newest {
    ghost tap_of = { λ e. e.tap };

    fn tap(&self) -> u32 {
        self.tap
    }
}

impl PlanEntry for Rise {
    ghost tap_of = { λ e. e.tap };

    fn tap(&self) -> u32 {
        self.tap
    }
}

/// The entries for the tap with this number, in order. Allocates only for these.
pub fn entries_of<E: PlanEntry>(alloc: Global, entries: &[E], tap: u64) -> Result<Vec<E>, NoMemory>
    ensures value { IfOk result (λ v. v.items ≡ entries_of E.tap_of entries.now tap) }
    ensures answers { entries_of E.tap_of entries.now tap ≡ [] → IsOk result }
{
    let mut named = Vec::new(alloc);
    for entry in entries {
        if u64::from(entry.tap()) == tap {
            if let Err(_full) = named.push(*entry) {
                return Err(NoMemory);
            }
        }
    }
    Ok(named)
}
