//! Reads a file through its read-ahead, and through the tap for what is not there.
ghost use Rattle.std.specs.Prelude.{◌≡◌, ◌≤◌, ℕ, List, refl, length};
ghost use Rattle.tiff_format.specs.Bytes.{IsPartAt};
ghost use Rattle.std.proofs.Common.{◌∙◌, sym};
ghost use Rattle.tap_reader.specs.ReadAhead.{AreRowsOf};
ghost use Rattle.tap_reader.specs.TapReader.{lent_of, KeepsTap, RefusesTap};
ghost use Rattle.tap_reader.specs.TapReaderLaws.{KeepsTap-itself, KeepsTap-chains};
ghost use Rattle.tap_reader.specs.TapReaderLaws.{same_len, same_held};

use crate::planning::Band;
use crate::read_ahead::ReadAhead;
use crate::rows::Rows;
use tex_world::{ReadError, Tap, TapHandle};
use tiff_entries::ByteReader;

/// The reader of one file: a tap, a handle and the file's read-ahead, all borrowed. Bytes in the
/// read-ahead cost no call to the tap. Read errors are those of the tap, also if a read of more than
/// was asked for fails: no call of the tap is tried again.
#[derive(Drop)]
pub struct AheadReader<'t, 'h, 'a, 'b, T: Tap> {
    pub tap: &'t mut T,
    pub handle: &'h mut T::Handle,
    pub ahead: &'a mut ReadAhead<T::W>,
    pub bands: &'b [Band],
}

/// The first `size` bytes of a buffer of rows.
fn first_of(bytes: &[u8], rows: Rows, size: usize) -> &[u8]
    requires row { size ≤ rows.row }
    requires there { size ≤ length bytes.now }
    ensures long { length result.now ≡ size }
    ensures told { (all : List ℕ) → AreRowsOf all rows bytes.now → IsPartAt all rows.at result.now }
{
    &bytes[..size]
}

impl<'t, 'h, 'a, 'b, T: Tap> ByteReader for AheadReader<'t, 'h, 'a, 'b, T> {
    type Error = ReadError;

    ghost size = { λ r. (T.Handle.named r.handle.now).len };

    ghost bytes = { λ r. T.W.files.held
        (T.Handle.named r.handle.now).file (T.Handle.named r.handle.now).generation };

    ghost keeps = { λ old new.
        (new.tap.ghost_name ≡ old.tap.ghost_name)
        × (new.handle.ghost_name ≡ old.handle.ghost_name)
        × (new.ahead.ghost_name ≡ old.ahead.ghost_name)
        × KeepsTap (lent_of (T.Handle.named old.handle.now) (T.state old.tap.now))
        (lent_of (T.Handle.named new.handle.now) (T.state new.tap.now)) };

    ghost refuses = { λ old e new.
        (new.tap.ghost_name ≡ old.tap.ghost_name)
        × (new.handle.ghost_name ≡ old.handle.ghost_name)
        × (new.ahead.ghost_name ≡ old.ahead.ghost_name)
        × RefusesTap T.W.files (lent_of (T.Handle.named old.handle.now) (T.state old.tap.now))
        (lent_of (T.Handle.named new.handle.now) (T.state new.tap.now)) e };

    ghost lawful = { record {
      itself = λ r. (refl, refl, refl, KeepsTap-itself _);
      chains = λ r s t p q.
          (q.0 ∙ p.0, q.1 ∙ p.1, q.2 ∙ p.2, KeepsTap-chains _ _ _ p.3 q.3);
      same_size = λ r s p. same_len _ _ p.3.reads.handle;
      same_bytes = λ r s p. same_held T.W.files _ _ p.3.reads.handle;
      refused_size = λ r s e p. same_len _ _ p.3.reads.handle;
      refused_bytes = λ r s e p. same_held T.W.files _ _ p.3.reads.handle;
      told = λ r bytes is. sym ((T.Handle.honest r.handle.now).len bytes is);
    } };

    fn len(&self) -> u64 {
        self.handle.len()
    }

    fn read(&mut self, at: u64, buf: &mut [u8]) -> Result<(), ReadError> {
        let is_own = self
            .ahead
            .is_of(self.handle.file(), self.handle.generation());
        if !is_own {
            return self.tap.read_at(self.handle, at, buf);
        }
        if let Some(part) = self.ahead.part(self.bands, at, buf.len()) {
            buf.copy_from_slice(part);
            return Ok(());
        }
        let found = self
            .ahead
            .wanted(self.bands, at, buf.len(), self.handle.len());
        let Some(wanted) = found else {
            return self.tap.read_at(self.handle, at, buf);
        };
        let rows = wanted.rows;
        let Some(mut room) = self.ahead.room(rows.size()) else {
            return self.tap.read_at(self.handle, at, buf);
        };
        let read = self
            .tap
            .read_rows(self.handle, rows.at, rows.stride, rows.row, &mut room);
        match read {
            Ok(()) => {
                buf.copy_from_slice(first_of(&room, rows, buf.len()));
                self.ahead.put(wanted.slot, rows, room);
                Ok(())
            }
            Err(e) => Err(e),
        }
    }
}
