//! Reads one file through a tap and a handle, without read-ahead.
ghost use Rattle.std.specs.Prelude.{◌≡◌, refl};
ghost use Rattle.std.proofs.Common.{◌∙◌, sym};
ghost use Rattle.tap_reader.specs.TapReader.{lent_of, KeepsTap, RefusesTap};
ghost use Rattle.tap_reader.specs.TapReaderLaws.{KeepsTap-itself, KeepsTap-chains};
ghost use Rattle.tap_reader.specs.TapReaderLaws.{same_len, same_held};

use tex_world::{ReadError, Tap, TapHandle};
use tiff_entries::ByteReader;

/// The reader of one file: a borrowed tap and handle. Read errors are those of the tap.
#[derive(Drop)]
pub struct TapReader<'t, 'h, T: Tap> {
    pub tap: &'t mut T,
    pub handle: &'h mut T::Handle,
}

impl<'t, 'h, T: Tap> ByteReader for TapReader<'t, 'h, T> {
    type Error = ReadError;

    ghost size = { λ r. (T.Handle.named r.handle.now).len };

    ghost bytes = { λ r. T.W.files.held
        (T.Handle.named r.handle.now).file (T.Handle.named r.handle.now).generation };

    ghost keeps = { λ old new.
        (new.tap.ghost_name ≡ old.tap.ghost_name)
        × (new.handle.ghost_name ≡ old.handle.ghost_name)
        × KeepsTap (lent_of (T.Handle.named old.handle.now) (T.state old.tap.now))
        (lent_of (T.Handle.named new.handle.now) (T.state new.tap.now)) };

    ghost refuses = { λ old e new.
        (new.tap.ghost_name ≡ old.tap.ghost_name)
        × (new.handle.ghost_name ≡ old.handle.ghost_name)
        × RefusesTap T.W.files (lent_of (T.Handle.named old.handle.now) (T.state old.tap.now))
        (lent_of (T.Handle.named new.handle.now) (T.state new.tap.now)) e };

    ghost lawful = { record {
      itself = λ r. (refl, refl, KeepsTap-itself _);
      chains = λ r s t p q. (q.0 ∙ p.0, q.1 ∙ p.1, KeepsTap-chains _ _ _ p.2 q.2);
      same_size = λ r s p. same_len _ _ p.2.reads.handle;
      same_bytes = λ r s p. same_held T.W.files _ _ p.2.reads.handle;
      refused_size = λ r s e p. same_len _ _ p.2.reads.handle;
      refused_bytes = λ r s e p. same_held T.W.files _ _ p.2.reads.handle;
      told = λ r bytes is. sym ((T.Handle.honest r.handle.now).len bytes is);
    } };

    fn len(&self) -> u64 {
        self.handle.len()
    }

    fn read(&mut self, at: u64, buf: &mut [u8]) -> Result<(), ReadError> {
        self.tap.read_at(self.handle, at, buf)
    }
}
