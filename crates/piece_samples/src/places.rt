//! The places of a plane's samples among those of all planes.
ghost use Rattle.std.specs.Prelude.{◌≡◌, ◌+◌, ◌*◌, ◌^◌, ◌<◌, ◌≤◌, IfOk};
ghost use Rattle.tiff_format.specs.Limits.{max_channels};

use std::alloc::AllocError;

/// Where the samples of a plane are written among those of the others: sample k at place `k * step
/// + first`.
#[derive(Clone, Copy, Debug)]
pub struct Places {
    /// The number of planes. If there is one, samples are appended.
    pub step: usize,
    pub first: usize,
    /// How many samples of the plane have been written.
    pub done: usize,
    ghost some: { 1 ≤ step },
    ghost few: { step ≤ max_channels },
    ghost own: { first < step },
}

impl Places {
    /// The places after `count` more samples.
    pub fn more(&self, count: usize) -> Result<Places, AllocError>
        ensures step { IfOk result (λ more. more.step ≡ self.now.step) }
        ensures first { IfOk result (λ more. more.first ≡ self.now.first) }
        ensures done { IfOk result (λ more. more.done ≡ self.now.done + count) }
        ensures fits { IfOk result (λ more. more.done * more.step < 2 ^ 64) }
    {
        let done = self.done.checked_add(count).ok_or(AllocError)?;
        done.checked_mul(self.step).ok_or(AllocError)?;
        Ok(Places {
            step: self.step,
            first: self.first,
            done,
        })
    }
}
