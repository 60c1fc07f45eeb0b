//! Decides which rows are read together with those of a cell. Only for speed: no proof depends on
//! it.
ghost use Rattle.std.specs.Prelude.{◌≡◌, ◌<◌, length, IfSome};

use crate::cell_rows::CellRows;
use crate::course::Course;
use crate::read_ahead::{MAX_AHEAD_BYTES, MAX_STRETCH_BYTES, ReadAhead};
use crate::rows::Rows;
use crate::stretch::Stretch;
use tex_world::World;

/// The greatest number of stretches per file.
const MAX_STRETCHES: usize = 8;

/// A stretch from which the rows of a cell are cut, and the rows to read into it first.
#[derive(Clone, Copy, Debug)]
pub struct Band {
    pub slot: usize,
    pub rows: Option<Rows>,
    /// Whether a short read that misses reads a whole window from its place on.
    pub is_window: bool,
}

/// The stretch that has all bytes of these rows.
fn slot_with(stretches: &[Stretch], rows: &Rows) -> Option<usize>
    ensures { IfSome result (λ k. k < length stretches.now) }
{
    stretches.iter().position(|stretch| stretch.has(rows))
}

/// The stretch whose last cell has its right neighbour at this place.
fn slot_left_of(stretches: &[Stretch], at: u64) -> Option<usize>
    ensures { IfSome result (λ k. k < length stretches.now) }
{
    stretches
        .iter()
        .position(|stretch| stretch.course.next == at)
}

/// The course whose last cell has the row of cells below it at this place.
fn course_above(stretches: &[Stretch], at: u64) -> Course {
    match stretches.iter().find(|stretch| stretch.course.below == at) {
        Some(stretch) => stretch.course,
        None => Course::none(),
    }
}

/// The number of the latest use.
fn latest_use(stretches: &[Stretch]) -> u64 {
    let mut latest = 0;
    for stretch in stretches {
        latest = stretch.course.used.max(latest);
    }
    latest
}

/// The stretch used longest ago.
fn oldest(stretches: &[Stretch]) -> Option<usize> {
    let first = stretches.first()?;
    let (mut slot, mut used) = (0, first.course.used);
    for (k, stretch) in stretches.iter().enumerate() {
        if stretch.course.used < used {
            slot = k;
            used = stretch.course.used;
        }
    }
    Some(slot)
}

/// How many stretches may be kept if each holds at least such a cell.
fn stretches_for(rows: &Rows) -> usize {
    let size = rows.size().max(MAX_STRETCH_BYTES);
    (MAX_AHEAD_BYTES / size).max(1).min(MAX_STRETCHES)
}

impl<W: World> ReadAhead<W> {
    /// A stretch for a new course: a new one while there are fewer than `most` and memory is found,
    /// otherwise the one used longest ago.
    fn spare(&mut self, most: usize) -> Option<usize>
        ensures { self.new ≡ self.old }
    {
        let count = self.stretches.len();
        if count < most && self.stretches.push(Stretch::blank()).is_ok() {
            return Some(count);
        }
        oldest(&self.stretches)
    }

    /// The stretch into which missing rows of a cell are read, the number of cells to read, and the
    /// number of reads so far. It is twice as many cells as before if the cell continues a course
    /// to the right or below, otherwise the cell alone.
    fn begin(&mut self, cell: &CellRows) -> Option<(usize, u64, u64)>
        ensures { self.new ≡ self.old }
    {
        let at = cell.rows.at;
        if let Some(slot) = slot_left_of(&self.stretches, at) {
            let course = self.stretches[slot].course;
            return Some((slot, cell.cells_after(&course), course.reads));
        }
        let course = course_above(&self.stretches, at);
        let slot = self.spare(stretches_for(&cell.rows))?;
        Some((slot, cell.cells_after(&course), course.reads))
    }

    /// Records that this cell was the last one of a stretch, read with `cells` cells at once after
    /// `reads` reads.
    fn pass(&mut self, slot: usize, cell: &CellRows, cells: u64, reads: u64)
        ensures { self.new ≡ self.old }
    {
        let used = latest_use(&self.stretches).saturating_add(1);
        if slot < self.stretches.len() {
            self.stretches[slot].course = Course {
                next: cell.next(),
                below: cell.below,
                cells,
                reads: reads.saturating_add(1),
                used,
            };
        }
    }

    /// A stretch for windows, which serve short reads that lie close together, as those of
    /// directories. If memory runs out, there are no windows.
    pub fn window(&mut self) -> Band
        ensures { self.new ≡ self.old }
    {
        let slot = self.spare(MAX_STRETCHES).unwrap_or(MAX_STRETCHES);
        Band {
            slot,
            rows: None,
            is_window: true,
        }
    }

    /// The stretch from which the rows of a cell are cut, and what to read into it first. `None` if
    /// memory runs out.
    pub fn plan(&mut self, cell: &CellRows) -> Option<Band>
        ensures { self.new ≡ self.old }
    {
        if let Some(slot) = slot_with(&self.stretches, &cell.rows) {
            let course = self.stretches[slot].course;
            self.pass(slot, cell, course.cells, course.reads);
            return Some(Band {
                slot,
                rows: None,
                is_window: false,
            });
        }
        let (slot, cells, reads) = self.begin(cell)?;
        self.pass(slot, cell, cells, reads);
        Some(Band {
            slot,
            rows: cell.with(cells),
            is_window: false,
        })
    }
}
