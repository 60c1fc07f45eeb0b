//! A stretch: one piece of a file's read-ahead.
ghost use Rattle.std.specs.Prelude.{◌≡◌, ℕ, List, [], length, IfOk, IfSome};
ghost use Rattle.tiff_format.specs.Bytes.{IsPartAt};
ghost use Rattle.tap_reader.specs.ReadAhead.{held_in, AreRowsOf};

use crate::course::Course;
use crate::rows::Rows;
use std::alloc::AllocError;
use std::sync::Arc;

/// Rows of a file, their bytes, which may be shared, and the course that they were read for. The
/// course is only for speed: no proof depends on it.
#[derive(Drop)]
pub(crate) struct Stretch {
    pub(crate) rows: Rows,
    pub(crate) bytes: Option<Arc<Vec<u8>>>,
    pub(crate) course: Course,
}

impl Stretch {
    /// No bytes, and no course.
    pub(crate) fn blank() -> Stretch
        ensures { held_in result ≡ [] }
    {
        Stretch {
            rows: Rows::none(),
            bytes: None,
            course: Course::none(),
        }
    }

    /// The bytes of the rows.
    pub(crate) fn bytes(&self) -> &[u8]
        ensures { result.now ≡ held_in self.now }
    {
        match &self.bytes {
            Some(bytes) => bytes,
            None => &[],
        }
    }

    /// A second reference to the same bytes.
    pub(crate) fn share(&self) -> Result<Stretch, AllocError>
        ensures rows { IfOk result (λ s. s.rows ≡ self.now.rows) }
        ensures bytes { IfOk result (λ s. held_in s ≡ held_in self.now) }
    {
        let bytes = match &self.bytes {
            Some(bytes) => Some(Arc::try_clone(bytes)?),
            None => None,
        };
        Ok(Stretch {
            rows: self.rows,
            bytes,
            course: self.course,
        })
    }

    /// Whether all bytes of these rows are there.
    pub(crate) fn has(&self, rows: &Rows) -> bool {
        self.bytes.is_some() && self.rows.have(rows)
    }

    /// The `size` bytes at a place, if one row has all of them.
    pub(crate) fn part(&self, at: u64, size: usize) -> Option<&[u8]>
        ensures long { IfSome result (λ part. length part.now ≡ size) }
        ensures told { IfSome result (λ part. (bytes : List ℕ)
            → AreRowsOf bytes self.now.rows (held_in self.now) → IsPartAt bytes at part.now) }
    {
        let start = self.rows.index(at, size)?;
        let bytes = self.bytes();
        if size > bytes.len() || start > bytes.len() - size {
            return None;
        }
        Some(&bytes[start..start + size])
    }
}
