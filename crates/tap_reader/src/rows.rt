//! Rows of bytes in a file, all the same distance apart.
ghost use Rattle.std.specs.Prelude.{◌≡◌, ◌+◌, ◌-◌, ◌*◌, ◌^◌, ◌<◌, ◌≤◌, ℕ, IsTrue, IfSome};
ghost use Rattle.tex_world.specs.Tap.{AreRows, place_in_rows};

/// Rows of bytes of a file that do not overlap: `count` rows of `row` bytes. The first is at `at`,
/// and each begins `stride` bytes after the one before.
#[derive(Clone, Copy, Debug)]
pub struct Rows {
    pub at: u64,
    pub stride: u64,
    pub row: usize,
    pub count: usize,
    ghost some: { 1 ≤ row },
    ghost apart: { row ≤ stride },
    ghost few: { row * count < 2 ^ 64 },
}

/// Whether the sum of `at`, `last` and `row` is at most `len`, without overflow.
fn ends_below(at: u64, last: u64, row: u64, len: u64) -> bool
    ensures { IsTrue result → at + last + row ≤ len }
{
    at <= len && last <= len - at && row <= len - at - last
}

impl Rows {
    /// Makes such rows. `None` if a row is empty, if rows overlap, or if they are too many.
    pub fn new(at: u64, stride: u64, row: usize, count: usize) -> Option<Rows>
        ensures at { IfSome result (λ rows. rows.at ≡ at) }
        ensures row { IfSome result (λ rows. rows.row ≡ row) }
    {
        if row == 0 || row as u64 > stride || row.checked_mul(count).is_none() {
            return None;
        }
        Some(Rows {
            at,
            stride,
            row,
            count,
        })
    }

    /// No rows.
    pub(crate) fn none() -> Rows {
        Rows {
            at: 0,
            stride: 1,
            row: 1,
            count: 0,
        }
    }

    /// The number of bytes in all rows.
    pub fn size(&self) -> usize
        ensures { result ≡ self.now.row * self.now.count }
    {
        self.row * self.count
    }

    /// The distance from the first row to the last one, in bytes.
    fn last(&self) -> Option<u64>
        ensures some { IfSome result (λ n. 1 ≤ self.now.count) }
        ensures value { IfSome result (λ n. n ≡ (self.now.count - 1) * self.now.stride) }
    {
        let before = (self.count as u64).checked_sub(1)?;
        before.checked_mul(self.stride)
    }

    /// Whether there is a row, and all rows lie below a length.
    pub fn lie_below(&self, len: u64) -> bool
        ensures { IsTrue result
            → AreRows self.now.at self.now.stride self.now.row (self.now.row * self.now.count) len }
    {
        match self.last() {
            Some(last) => ends_below(self.at, last, self.row as u64, len),
            None => false,
        }
    }

    /// The index, among the bytes of the rows, of `size` bytes at a place of the file. `None`
    /// unless one row has all of them.
    pub(crate) fn index(&self, at: u64, size: usize) -> Option<usize>
        ensures { IfSome result (λ k. (j : ℕ) → j < size
            → place_in_rows self.now.at self.now.stride self.now.row (k + j) ≡ at + j) }
    {
        let behind = at.checked_sub(self.at)?;
        let (line, column) = (behind / self.stride, behind % self.stride);
        if line >= self.count as u64 || column > self.row as u64 {
            return None;
        }
        if size > self.row - column as usize {
            return None;
        }
        Some(line as usize * self.row + column as usize)
    }

    /// Whether these rows contain all bytes of the others.
    pub(crate) fn have(&self, other: &Rows) -> bool {
        let Some(last) = other.last() else {
            return false;
        };
        let end = other.at.saturating_add(last);
        self.index(other.at, other.row).is_some() && self.index(end, other.row).is_some()
    }
}
