//! Decides what to read into a stretch when wanted bytes are not there.
ghost use Rattle.std.specs.Prelude.{◌≡◌, ◌*◌, ◌≤◌, IfSome};
ghost use Rattle.tex_world.specs.Tap.{AreRows};

use crate::planning::Band;
use crate::read_ahead::{MAX_AHEAD_BYTES, ReadAhead};
use crate::rows::Rows;
use tex_world::World;

/// Rows to read at once into a stretch. The first row begins with the wanted bytes.
#[derive(Clone, Copy, Debug)]
pub(crate) struct Wanted {
    pub(crate) slot: usize,
    pub(crate) rows: Rows,
}

/// The rows of a band that begin with `size` bytes at `at`, if all rows lie below the file's
/// length.
fn rows_at(bands: &[Band], at: u64, size: usize, len: u64) -> Option<Wanted>
    ensures at { IfSome result (λ wanted. wanted.rows.at ≡ at) }
    ensures row { IfSome result (λ wanted. size ≤ wanted.rows.row) }
    ensures long { IfSome result (λ wanted. size ≤ wanted.rows.row * wanted.rows.count) }
    ensures below { IfSome result (λ wanted. AreRows wanted.rows.at wanted.rows.stride
        wanted.rows.row (wanted.rows.row * wanted.rows.count) len) }
{
    for band in bands {
        let Some(rows) = band.rows else {
            continue;
        };
        let begins = rows.at == at && size <= rows.row && size <= rows.size();
        if begins && rows.size() <= MAX_AHEAD_BYTES && rows.lie_below(len) {
            return Some(Wanted {
                slot: band.slot,
                rows,
            });
        }
    }
    None
}

impl<W: World> ReadAhead<W> {
    /// The rows to read when `size` bytes at `at` are missing: those of a band, or a window.
    pub(crate) fn wanted(
        &mut self,
        bands: &[Band],
        at: u64,
        size: usize,
        len: u64,
    ) -> Option<Wanted>
        ensures same { self.new ≡ self.old }
        ensures at { IfSome result (λ wanted. wanted.rows.at ≡ at) }
        ensures row { IfSome result (λ wanted. size ≤ wanted.rows.row) }
        ensures long { IfSome result (λ wanted. size ≤ wanted.rows.row * wanted.rows.count) }
        ensures below { IfSome result (λ wanted. AreRows wanted.rows.at wanted.rows.stride
            wanted.rows.row (wanted.rows.row * wanted.rows.count) len) }
    {
        match rows_at(bands, at, size, len) {
            Some(wanted) => Some(wanted),
            None => self.window_at(bands, at, size, len),
        }
    }
}
