//! Reads the level that a directory describes.

ghost use Rattle.std.specs.Prelude.{◌≡◌, ℕ, length, IfOk};
ghost use Rattle.std.specs.Option.{ForSome};
ghost use Rattle.tiff_format.specs.declared.form.Form.{Form};
ghost use Rattle.tiff_format.specs.Block.{shape_at};
ghost use Rattle.tiff_format.specs.DirectoryFault.{count_fault};
ghost use Rattle.tiff_entries.specs.Calls.{Finds, OfEntries, Leaves};
ghost use Rattle.tiff_entries.specs.Entries.{IsDirectoryAt};
ghost use Rattle.tiff_dirs.specs.Shape.{seen_shape};
ghost use Rattle.tiff_dirs.specs.Numbers.{numbers_fault, fields_fault};
ghost use Rattle.tiff_dirs.specs.ReadLevel.{IsLevelAt};

use crate::fields::read_numbers;
use crate::offsets::read_offsets;
use crate::read_level::ReadLevel;
use crate::sample_fields::{test_bits, test_formats};
use crate::shape::ReadShape;
use std::alloc::Global;
use tiff_entries::{ByteReader, Directory, DirsError, Found};

/// The shape given by the numbers of a directory.
fn shape_of_numbers<B: ByteReader>(
    alloc: Global,
    b: &mut B,
    found: &Found,
) -> Result<ReadShape, DirsError<B::Error>>
    ensures told { ForSome (B.bytes b.old) (λ bytes.
        OfEntries found.now.entries bytes (λ form at. Finds (numbers_fault form bytes at)
        (λ shape. seen_shape shape ≡ shape_at form bytes at) result)) }
    ensures reader { Leaves B.keeps B.refuses b.old b.new result }
{
    let numbers = read_numbers(b, found)?;
    test_bits(alloc, b, found, &numbers)?;
    numbers.test_values()?;
    test_formats(alloc, b, found, &numbers)?;
    Ok(numbers.shape()?)
}

/// Reads the shape of a directory. Here the faults of its fields are looked for in order, except
/// the last one.
pub fn read_shape<B: ByteReader>(
    alloc: Global,
    b: &mut B,
    found: &Found,
) -> Result<ReadShape, DirsError<B::Error>>
    ensures told { ForSome (B.bytes b.old) (λ bytes.
        OfEntries found.now.entries bytes (λ form at. Finds (fields_fault form bytes at)
        (λ shape. seen_shape shape ≡ shape_at form bytes at) result)) }
    ensures reader { Leaves B.keeps B.refuses b.old b.new result }
{
    found.test_fields(b.len())?;
    shape_of_numbers(alloc, b, found)
}

/// Reads the level of a directory with this shape, with its offsets, which may turn out to be too
/// few.
pub fn read_level<B: ByteReader>(
    alloc: Global,
    b: &mut B,
    directory: &Directory,
    shape: ReadShape,
) -> Result<ReadLevel, DirsError<B::Error>>
    ensures told { ForSome (B.bytes b.old) (λ bytes. (form : Form) (at : ℕ)
        → IsDirectoryAt form bytes at directory.now → seen_shape shape ≡ shape_at form bytes at
        → Finds (count_fault form bytes at) (IsLevelAt form bytes at) result) }
    ensures shape { IfOk result (λ read. read.shape ≡ shape) }
    ensures next { IfOk result (λ read. read.next ≡ directory.now.next) }
    ensures reader { Leaves B.keeps B.refuses b.old b.new result }
{
    let offsets = read_offsets(alloc, b, &directory.found, &shape)?;
    Ok(ReadLevel {
        shape,
        offsets,
        next: directory.next,
    })
}
