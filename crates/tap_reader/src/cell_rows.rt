//! The bytes of a cell as rows in the file, and how many neighbours to read with it.
use crate::course::Course;
use crate::read_ahead::MAX_STRETCH_BYTES;
use crate::rows::Rows;

/// The most cells that are read at once.
const MAX_CELLS: u64 = 32;

/// A cell that is a single row is read alone until this many reads have followed one another.
/// Reading ahead saves little in that case.
const FIRST_READINGS: u64 = 32;

/// The rows of a cell, and where the cells to its right and below begin in the file.
#[derive(Clone, Copy, Debug)]
pub struct CellRows {
    pub rows: Rows,
    /// The bytes of a row, from the cell's left edge to the right edge of the level.
    pub rest: u64,
    /// Where the next row of cells begins in the file.
    pub below: u64,
}

impl CellRows {
    /// Where the cell's right neighbour begins in the file.
    pub(crate) fn next(&self) -> u64 {
        self.rows.at.saturating_add(self.rows.row as u64)
    }

    /// How many cells to read next in this course: twice as many as before.
    pub(crate) fn cells_after(&self, course: &Course) -> u64 {
        if self.rows.count == 1 && course.reads < FIRST_READINGS {
            return 1;
        }
        course.cells.saturating_mul(2).min(MAX_CELLS).max(1)
    }

    /// The rows of `cells` cells from this one on, up to the right edge and to the size of a
    /// stretch. `None` if that is a single row of this cell alone, which an ordinary read does as
    /// well.
    pub(crate) fn with(&self, cells: u64) -> Option<Rows> {
        let size = (self.rows.size() as u64).max(1);
        let few = cells.min(MAX_STRETCH_BYTES as u64 / size).max(1);
        let row = (self.rows.row as u64).saturating_mul(few).min(self.rest);
        if self.rows.count == 1 && row <= self.rows.row as u64 {
            return None;
        }
        Rows::new(
            self.rows.at,
            self.rows.stride,
            row as usize,
            self.rows.count,
        )
    }
}
