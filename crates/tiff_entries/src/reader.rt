//! The trait for reading the bytes of a file.
ghost use Rattle.std.specs.Prelude.{◌≡◌, ℕ, ◌+◌, ◌≤◌, List, length, Option, OnOk, IfErr};
ghost use Rattle.std.specs.Option.{ForSome};
ghost use Rattle.tiff_format.specs.Bytes.{IsPartAt};
ghost use Rattle.tiff_entries.specs.Reader.{IsReader};
ghost use Rattle.tiff_entries.specs.Calls.{Reads, Leaves};

use crate::error::DirsError;

/// The most bytes that are read at once.
pub const MAX_READ_BYTES: usize = 65536;

/// The bytes of a file, read at places.
pub trait ByteReader {
    /// Why a read fails. There are no other errors.
    type Error;

    /// The number of bytes.
    ghost size: { Self → ℕ };

    /// The bytes, if they are modelled.
    ghost bytes: { Self → Option (List ℕ) };

    /// What successful reads leave, from an earlier state to a later one.
    ghost keeps: { Self → Self → Type 0 };

    /// What a read that failed leaves.
    ghost refuses: { Self → Self.Error → Self → Type 0 };

    /// The number of bytes.
    fn len(&self) -> u64
        ensures { result ≡ size self.now };

    /// Fills the whole buffer with the bytes at a place. After an error its content is undefined.
    fn read(&mut self, at: u64, buf: &mut [u8]) -> Result<(), Self::Error>
        requires { at + length buf.old ≤ size self.old }
        ensures ok { OnOk result (keeps self.old self.new) }
        ensures bytes { OnOk result (ForSome (bytes self.old) (λ b. IsPartAt b at buf.new)) }
        ensures err { IfErr result (λ e. refuses self.old e self.new) };

    /// Successful reads chain, and no read changes the length or the bytes.
    ghost lawful: { IsReader size bytes keeps refuses };
}

/// Fills the whole buffer with the bytes at a place, in one read.
pub fn read_at<B: ByteReader>(b: &mut B, at: u64, buf: &mut [u8]) -> Result<(), DirsError<B::Error>>
    requires { at + length buf.old ≤ B.size b.old }
    ensures told { ForSome (B.bytes b.old) (λ bytes.
        Reads (λ _. IsPartAt bytes at buf.new) result) }
    ensures reader { Leaves B.keeps B.refuses b.old b.new result }
{
    match b.read(at, buf) {
        Ok(()) => Ok(()),
        Err(e) => Err(DirsError::Reader(e)),
    }
}
