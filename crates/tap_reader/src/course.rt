//! A course: how reads of neighbouring cells have gone on so far.
/// A place that no byte has, so no read continues there.
const NO_PLACE: u64 = u64::MAX;

/// How reads of neighbouring cells continue in a file. Only for speed: no proof depends on it.
#[derive(Clone, Copy, Debug)]
pub(crate) struct Course {
    /// Where the right neighbour of the last cell begins in the file.
    pub(crate) next: u64,
    /// Where the row of cells below the last cell begins in the file.
    pub(crate) below: u64,
    /// How many cells were read at once.
    pub(crate) cells: u64,
    /// The number of reads so far; for a window, of short reads that did not find their bytes in
    /// it.
    pub(crate) reads: u64,
    /// When the stretch was used: the greatest number of a file was used last.
    pub(crate) used: u64,
}

impl Course {
    /// A course without reads.
    pub(crate) fn none() -> Course {
        Course {
            next: NO_PLACE,
            below: NO_PLACE,
            cells: 0,
            reads: 0,
            used: 0,
        }
    }
}
