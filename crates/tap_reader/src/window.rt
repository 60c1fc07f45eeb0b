//! Windows: larger reads that serve short reads close together, as those of directories. Only for
//! speed: no proof depends on their size.
ghost use Rattle.std.specs.Prelude.{◌≡◌, ◌*◌, ◌≤◌, IfSome};
ghost use Rattle.tex_world.specs.Tap.{AreRows};

use crate::planning::Band;
use crate::read_ahead::ReadAhead;
use crate::rows::Rows;
use crate::stretch::Stretch;
use crate::wanted::Wanted;
use tex_world::World;

/// The number of short reads before the first window: a file with one directory needs about that
/// many.
const FIRST_READS: u64 = 6;

/// The bytes of the first window.
const FIRST_BYTES: u64 = 512;

/// The most bytes of a window.
const MAX_BYTES: u64 = 8192;

impl Stretch {
    /// The bytes of the next window: twice as many as those of the last one if it begins soon after
    /// that one, otherwise as many.
    fn next_window(&self, at: u64) -> u64 {
        let last = self.rows.size() as u64;
        let reach = self.rows.at.saturating_add(last).saturating_add(last);
        let goes_on = self.rows.at <= at && at <= reach;
        let bytes = if goes_on {
            last.saturating_mul(2)
        } else {
            last
        };
        bytes.clamp(FIRST_BYTES, MAX_BYTES)
    }
}

impl<W: World> ReadAhead<W> {
    /// Records how many short reads did not find their bytes in a window.
    fn miss(&mut self, slot: usize, reads: u64)
        ensures { self.new ≡ self.old }
    {
        if slot < self.stretches.len() {
            self.stretches[slot].course.reads = reads;
        }
    }

    /// The bytes of the window for a short read that its stretch does not have. `None` for the
    /// first few reads.
    fn window_bytes(&mut self, slot: usize, at: u64) -> Option<u64>
        ensures { self.new ≡ self.old }
    {
        let reads = self.stretches.get(slot)?.course.reads.saturating_add(1);
        self.miss(slot, reads);
        if reads > FIRST_READS {
            Some(self.stretches.get(slot)?.next_window(at))
        } else {
            None
        }
    }

    /// The window to read when `size` bytes at `at` are missing, below the file's length. `None` if
    /// `size` is large, and for the first few reads.
    pub(crate) fn window_at(
        &mut self,
        bands: &[Band],
        at: u64,
        size: usize,
        len: u64,
    ) -> Option<Wanted>
        ensures same { self.new ≡ self.old }
        ensures at { IfSome result (λ wanted. wanted.rows.at ≡ at) }
        ensures row { IfSome result (λ wanted. size ≤ wanted.rows.row) }
        ensures long { IfSome result (λ wanted. size ≤ wanted.rows.row * wanted.rows.count) }
        ensures below { IfSome result (λ wanted. AreRows wanted.rows.at wanted.rows.stride
            wanted.rows.row (wanted.rows.row * wanted.rows.count) len) }
    {
        let slot = bands.iter().find(|band| band.is_window)?.slot;
        if size as u64 > MAX_BYTES {
            return None;
        }
        let most = self.window_bytes(slot, at)?;
        let long = len.checked_sub(at)?.min(most.max(size as u64));
        let rows = Rows::new(at, long, long as usize, 1)?;
        if size > rows.row || size > rows.size() || !rows.lie_below(len) {
            return None;
        }
        Some(Wanted { slot, rows })
    }
}
