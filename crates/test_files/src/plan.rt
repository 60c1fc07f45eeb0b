//! Taps of files in memory, with a plan that is written out as a table.

use std::alloc::{AllocError, Global};
use std::test::Fail;
use tex_world::{FailByte, FailCall, FileTable, Folder, MemFolder, MemTap, Newest, Plan, Rise};

/// An entry of a plan. Taps, files and generations are numbered as in `Plan`.
#[derive(Clone, Copy)]
pub enum Planned {
    /// A call of a tap fails.
    FailCall {
        tap: u32,
        call: u64,
    },
    /// The first read of a byte fails.
    FailByte {
        tap: u32,
        file: u32,
        at: u64,
    },
    /// A tap knows this generation from the start.
    Newest {
        tap: u32,
        file: u32,
        generation: u32,
    },
    /// A generation appears at the first read of a byte.
    Rise {
        tap: u32,
        file: u32,
        at: u64,
        to: u32,
    },
}

/// The plan with these entries.
pub fn plan_of(alloc: Global, entries: &[Planned]) -> Result<Plan, AllocError> {
    let mut plan = Plan::new(alloc);
    for entry in entries {
        match *entry {
            Planned::FailCall { tap, call } => plan.fail_calls.push(FailCall { tap, call })?,
            Planned::FailByte { tap, file, at } => {
                plan.fail_bytes.push(FailByte { tap, file, at })?
            }
            Planned::Newest {
                tap,
                file,
                generation,
            } => plan.newest.push(Newest {
                tap,
                file,
                generation,
            })?,
            Planned::Rise { tap, file, at, to } => plan.rises.push(Rise { tap, file, at, to })?,
        }
    }
    Ok(plan)
}

/// Makes this many taps of the files, under a plan with these entries.
pub fn taps_of<F: FileTable>(
    alloc: Global,
    entries: &[Planned],
    count: u32,
) -> Result<Vec<MemTap<F>>, Fail> {
    let mut folder = MemFolder::new(plan_of(alloc, entries)?);
    let mut taps = Vec::new(alloc);
    for _ in 0..count {
        taps.push(folder.tap(alloc)?)?;
    }
    Ok(taps)
}
