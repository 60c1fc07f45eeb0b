//! A reader of bytes in memory, with a read that is planned to fail.

ghost use Rattle.std.specs.Prelude.{◌≡◌, length, Some, refl};
ghost use Rattle.std.proofs.Common.{sym, ◌∙◌, ap};
ghost use Rattle.std.proofs.lemmas.Option.{same_Some};

use tiff_entries::ByteReader;

/// The number of the read that failed.
#[derive(Clone, Copy, Debug)]
pub struct Failed(pub u64);

/// Bytes in memory. The read with the given number, counted from 1, fails.
#[derive(Drop)]
pub struct MemReader<'a> {
    bytes: &'a [u8],
    failing: u64,
    pub reads: u64,
    /// The number of bytes read.
    pub filled: u64,
}

impl<'a> MemReader<'a> {
    pub fn new(bytes: &'a [u8], failing: u64) -> Self
        ensures { result.bytes.now ≡ bytes.now }
    {
        MemReader {
            bytes,
            failing,
            reads: 0,
            filled: 0,
        }
    }
}

impl<'a> ByteReader for MemReader<'a> {
    type Error = Failed;

    ghost size = { λ r. length r.bytes.now };

    ghost bytes = { λ r. Some r.bytes.now };

    ghost keeps = { λ old new. new.bytes.now ≡ old.bytes.now };

    ghost refuses = { λ old e new. new.bytes.now ≡ old.bytes.now };

    ghost lawful = { record {
      itself = λ r. refl;
      chains = λ r s t p q. q ∙ p;
      same_size = λ r s p. ap length p;
      same_bytes = λ r s p. ap (λ b. Some b) p;
      refused_size = λ r s e p. ap length p;
      refused_bytes = λ r s e p. ap (λ b. Some b) p;
      told = λ r b is. sym (ap length (same_Some _ _ is));
    } };

    fn len(&self) -> u64 {
        self.bytes.len() as u64
    }

    fn read(&mut self, at: u64, buf: &mut [u8]) -> Result<(), Failed> {
        self.reads = self.reads.saturating_add(1);
        if self.reads == self.failing {
            return Err(Failed(self.reads));
        }
        self.filled = self.filled.saturating_add(buf.len() as u64);
        let at = at as usize;
        buf.copy_from_slice(&self.bytes[at..at + buf.len()]);
        Ok(())
    }
}
