//! A test plan: which calls of a folder in memory fail, and which files change.
ghost use Rattle.std.specs.Prelude.{◌≡◌, ◌≤◌, [], IfOk, IsOk, vec_capacity};

use crate::fault::NoMemory;
use crate::plan_entry::entries_of;
use crate::share::Share;
use std::alloc::Global;

/// A call of a tap that fails.
#[derive(Clone, Copy, Debug, PartialEq, Eq)]
pub struct FailCall {
    /// The number of the tap, counted from 0 in the order in which taps are made.
    pub tap: u32,
    /// The number of the call, counted from 1 over all calls of the tap.
    pub call: u64,
}

/// A byte whose read fails: the tap's first read that includes this byte fails.
#[derive(Clone, Copy, Debug, PartialEq, Eq)]
pub struct FailByte {
    /// The number of the tap.
    pub tap: u32,
    /// The number of the file.
    pub file: u32,
    /// The place of the byte in the file.
    pub at: u64,
}

/// The newest generation that a tap sees of a file at first. If several entries name the same tap
/// and file, the first whose generation exists counts. Without an entry it is generation 1.
#[derive(Clone, Copy, Debug, PartialEq, Eq)]
pub struct Newest {
    /// The number of the tap.
    pub tap: u32,
    /// The number of the file.
    pub file: u32,
    /// The generation. If the table does not have it, the entry has no effect.
    pub generation: u32,
}

/// A newer generation that appears while a tap reads. It appears at the tap's first read that
/// includes this byte, through a handle of an older generation. The read answers `Gone`, and from
/// then on the tap's newest generation of the file is at least this one. It appears even if another
/// entry makes the read fail.
#[derive(Clone, Copy, Debug, PartialEq, Eq)]
pub struct Rise {
    /// The number of the tap.
    pub tap: u32,
    /// The number of the file.
    pub file: u32,
    /// The place of the byte in the file.
    pub at: u64,
    /// The newer generation. If the table does not have it, the entry has no effect.
    pub to: u32,
}

/// Which calls of a folder in memory and of its taps fail, and which files change. Each entry
/// concerns one tap only. A read that several entries name fails.
#[derive(Debug, PartialEq, Eq, Drop)]
pub struct Plan {
    /// Whether the first `enter` fails. Later ones succeed.
    pub fail_enter: bool,
    /// The calls of taps that fail, in any order.
    pub fail_calls: Vec<FailCall>,
    /// The bytes at which reads of taps fail, in any order.
    pub fail_bytes: Vec<FailByte>,
    /// The newest generations that taps see at first.
    pub newest: Vec<Newest>,
    /// The newer generations that appear during reads, in any order.
    pub rises: Vec<Rise>,
}

impl Plan {
    ghost use Rattle.tex_world.specs.Plan.{share_of, IsUnnamed, IsEmpty};
    ghost use Rattle.tex_world.specs.Share.{share_plan};

    /// A plan in which nothing fails and no file changes.
    pub fn new(alloc: Global) -> Self
        ensures { IsEmpty result }
    {
        Plan {
            fail_enter: false,
            fail_calls: Vec::new(alloc),
            fail_bytes: Vec::new(alloc),
            newest: Vec::new(alloc),
            rises: Vec::new(alloc),
        }
    }

    /// The share of the tap with this number. Allocates only for entries that name it.
    pub(crate) fn share(&self, alloc: Global, tap: u64) -> Result<Share, NoMemory>
        ensures value { IfOk result (λ s. share_plan s ≡ share_of self.now tap) }
        ensures answers { IsUnnamed self.now tap → IsOk result }
    {
        let fail_calls = entries_of(alloc, &self.fail_calls, tap)?;
        let fail_bytes = entries_of(alloc, &self.fail_bytes, tap)?;
        let newest = entries_of(alloc, &self.newest, tap)?;
        let rises = entries_of(alloc, &self.rises, tap)?;
        let risen = room_for(alloc, rises.len())?;
        Ok(Share {
            fail_calls,
            fail_bytes,
            newest,
            rises,
            risen,
        })
    }
}

// An empty list with memory for `count` entries.
fn room_for(alloc: Global, count: usize) -> Result<Vec<Rise>, NoMemory>
    ensures value { IfOk result (λ v. v.items ≡ []) }
    ensures room { IfOk result (λ v. count ≤ vec_capacity v) }
    ensures answers { count ≡ 0 → IsOk result }
{
    let mut risen = Vec::new(alloc);
    match risen.reserve_exact(count) {
        Ok(()) => Ok(risen),
        Err(_full) => Err(NoMemory),
    }
}
