//! Reads the directories of a file.

ghost use Rattle.std.specs.Option.{ForSome};
ghost use Rattle.tiff_dirs.specs.Dirs.{Tells};
ghost use Rattle.tiff_entries.specs.Calls.{Leaves};

use crate::chain::read_levels;
use std::alloc::Global;
use tiff_entries::{ByteReader, DirsError, read_header};
use tiff_format::Dirs;

/// Reads the levels of a file, or its first fault.
///
/// The header takes one read (two in BigTIFF), and so does the number of entries of each directory.
/// Entries with the offset after them, offsets, BitsPerSample and SampleFormat are read in blocks
/// of 64 KiB. The first value of every other field takes one more read if it is not in its entry.
/// If the samples per pixel of a directory differ from those of the first, only its entries and
/// SamplesPerPixel are read. Memory is needed for the levels and their offsets, and for one block
/// of 64 KiB. The strips and tiles of a level are checked before the next directory is read.
pub fn read_dirs<B: ByteReader>(alloc: Global, b: &mut B) -> Result<Dirs, DirsError<B::Error>>
    ensures told { ForSome (B.bytes b.old) (λ bytes. Tells bytes result) }
    ensures reader { Leaves B.keeps B.refuses b.old b.new result }
{
    let first = read_header(b)?;
    let levels = read_levels(alloc, b, first)?;
    Ok(Dirs {
        big: first.form.big,
        levels,
    })
}
