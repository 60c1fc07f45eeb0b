//! Reads the levels of a file: each directory names the place of the next.

ghost use Rattle.std.specs.Prelude.{◌≡◌, ℕ, length, map, IfOk, IfSome, IsTrue};
ghost use Rattle.std.specs.Prelude.{OnOk, ◌++◌, None, List, [], ◌∷◌, false};
ghost use Rattle.std.specs.Option.{ForSome};
ghost use Rattle.tiff_format.specs.Form.{form_of};
ghost use Rattle.tiff_format.specs.Block.{level_at};
ghost use Rattle.tiff_format.specs.DirectoryFault.{first_of, directory_fault, data_fault};
ghost use Rattle.tiff_format.specs.Level.{halved as spec_halved, directory_level, level_place};
ghost use Rattle.tiff_format.specs.Level.{is_single};
ghost use Rattle.tiff_format.specs.Fault.{data_faults};
ghost use Rattle.tiff_format.specs.Facts.{IsChain};
ghost use Rattle.tiff_entries.specs.Calls.{Finds, Reads, Leaves};
ghost use Rattle.tiff_entries.specs.Header.{IsHeader};
ghost use Rattle.tiff_entries.specs.Entries.{IsLinkAt};
ghost use Rattle.tiff_dirs.specs.Shape.{seen_shape};
ghost use Rattle.tiff_dirs.specs.ReadLevel.{IsLevelAt};
ghost use Rattle.tiff_dirs.specs.NextLevel.{is_half_of, FindsHalf, IsNext};
ghost use Rattle.tiff_dirs.specs.Chain.{IsEnd, AreAll};
ghost use Rattle.tiff_format.specs.Shown.{shown, shown_shape};

use crate::fields::first_value;
use crate::level::{read_level, read_shape};
use crate::read_level::ReadLevel;
use crate::shape::ReadShape;
use std::alloc::{AllocError, Global};
use tiff_entries::tag::SAMPLES_PER_PIXEL;
use tiff_entries::{ByteReader, DirsError, FilePlace, read_directory};
use tiff_format::Dir;

/// Sides are at most 131072 and halve from level to level, so there are at most 18 levels.
const MAX_LEVELS: usize = 18;

/// Half of a side, rounded down, and at least 1.
fn halved(side: u32) -> u32
    ensures { result ≡ spec_halved side }
{
    (side / 2).max(1)
}

/// Whether the shape has half the size of the last level, and the samples of the first.
fn is_half(shape: &ReadShape, first: &Dir, last: &Dir) -> bool
    ensures { result ≡ is_half_of (shown_shape first.now) (shown_shape last.now)
        (seen_shape shape.now) }
{
    shape.width == halved(last.width)
        && shape.height == halved(last.height)
        && shape.channels == first.channels
        && shape.depth == first.depth
}

/// Reads the directory at a place as a level, if it is half of the last one. If its samples per
/// pixel differ from those of the first, no other field is read.
fn half_at<B: ByteReader>(
    alloc: Global,
    b: &mut B,
    place: FilePlace,
    first: &Dir,
    last: &Dir,
) -> Result<Option<ReadLevel>, DirsError<B::Error>>
    ensures told { ForSome (B.bytes b.old) (λ bytes. FindsHalf place.form bytes place.at
        (shown_shape first.now) (shown_shape last.now) result) }
    ensures half { IfOk result (λ next. IfSome next (λ read. IsTrue (is_half_of
        (shown_shape first.now) (shown_shape last.now) (seen_shape read.shape)))) }
    ensures reader { Leaves B.keeps B.refuses b.old b.new result }
{
    let directory = read_directory(alloc, b, place)?;
    let channels = first_value(b, &directory.found, SAMPLES_PER_PIXEL)?;
    if channels != u64::from(first.channels) {
        return Ok(None);
    }
    let shape = read_shape(alloc, b, &directory.found)?;
    if !is_half(&shape, first, last) {
        return Ok(None);
    }
    let next = read_level(alloc, b, &directory, shape)?;
    Ok(Some(next))
}

/// Reads the level after the last one, at the place that its directory names. The first directory
/// that is not half of the one before ends the levels, whatever else it contains.
fn next_level<B: ByteReader>(
    alloc: Global,
    b: &mut B,
    next: FilePlace,
    first: &Dir,
    last: &Dir,
) -> Result<Option<ReadLevel>, DirsError<B::Error>>
    ensures told { ForSome (B.bytes b.old) (λ bytes. (one at : ℕ)
        → shown first.now ≡ level_at next.form bytes one
        → shown last.now ≡ level_at next.form bytes at
        → IsLinkAt next.form bytes at next
        → Reads (IsNext next.form bytes one at) result) }
    ensures half { IfOk result (λ next. IfSome next (λ read. IsTrue (is_half_of
        (shown_shape first.now) (shown_shape last.now) (seen_shape read.shape)))) }
    ensures more { IfOk result (λ next. IfSome next (λ _.
        is_single (shown_shape last.now) ≡ false)) }
    ensures reader { Leaves B.keeps B.refuses b.old b.new result }
{
    if last.width == 1 && last.height == 1 {
        return Ok(None);
    }
    if next.at == 0 {
        return Ok(None);
    }
    match half_at(alloc, b, next, first, last) {
        Ok(next) => Ok(next),
        Err(DirsError::Fault(_)) => Ok(None),
        Err(DirsError::Reader(e)) => Err(DirsError::Reader(e)),
        Err(DirsError::NoMemory) => Err(DirsError::NoMemory),
    }
}

/// Appends a level.
fn append(levels: &mut Vec<Dir>, dir: Dir) -> Result<(), AllocError>
    ensures ok { OnOk result (levels.new.items ≡ levels.old.items ++ dir ∷ []) }
{
    levels.push(dir)?;
    Ok(())
}

/// Appends the levels after the first. The strips or tiles of each are checked before the next
/// directory is read.
fn follow<B: ByteReader>(
    alloc: Global,
    b: &mut B,
    levels: &mut Vec<Dir>,
    first_next: FilePlace,
) -> Result<(), DirsError<B::Error>>
    requires one { length levels.old.items ≡ 1 }
    ensures told { ForSome (B.bytes b.old) (λ bytes.
        map shown levels.old.items ≡ directory_level bytes 0 ∷ []
        → data_fault (form_of bytes) bytes 0 (directory_level bytes 0) ≡ None
        → IsEnd bytes 0 first_next
        → Finds (data_faults bytes) (λ _. AreAll bytes (map shown levels.new.items)) result) }
    ensures chain { OnOk result (IsChain (map shown levels.new.items)) }
    ensures reader { Leaves B.keeps B.refuses b.old b.new result }
{
    let mut next = first_next;
    for last in 0..MAX_LEVELS - 1 {
        match next_level(alloc, b, next, &levels[0], &levels[last])? {
            None => return Ok(()),
            Some(read) => {
                next = read.next;
                let dir = read.tested(last as u32 + 1, b.len())?;
                append(levels, dir)?;
            }
        }
    }
    Ok(())
}

/// Reads the level of the first directory.
fn first_level<B: ByteReader>(
    alloc: Global,
    b: &mut B,
    place: FilePlace,
) -> Result<ReadLevel, DirsError<B::Error>>
    ensures told { ForSome (B.bytes b.old) (λ bytes.
        Finds (directory_fault place.form bytes place.at) (IsLevelAt place.form bytes place.at)
        result) }
    ensures reader { Leaves B.keeps B.refuses b.old b.new result }
{
    let directory = read_directory(alloc, b, place)?;
    let shape = read_shape(alloc, b, &directory.found)?;
    read_level(alloc, b, &directory, shape)
}

/// Reads the levels of a file whose header names this place. Each directory is read once, and none
/// after the first that is not a level.
pub fn read_levels<B: ByteReader>(
    alloc: Global,
    b: &mut B,
    place: FilePlace,
) -> Result<Vec<Dir>, DirsError<B::Error>>
    ensures told { ForSome (B.bytes b.old) (λ bytes. IsHeader bytes place → Finds
        (first_of (directory_fault (form_of bytes) bytes (level_place bytes 0)
        ∷ data_faults bytes ∷ []))
        (λ levels. AreAll bytes (map shown levels.items)) result) }
    ensures chain { IfOk result (λ levels. IsChain (map shown levels.items)) }
    ensures reader { Leaves B.keeps B.refuses b.old b.new result }
{
    let first = first_level(alloc, b, place)?;
    let next = first.next;
    let dir = first.tested(0, b.len())?;
    let mut levels = Vec::with_capacity(alloc, 1)?;
    levels.push_reserved(dir);
    follow(alloc, b, &mut levels, next)?;
    Ok(levels)
}
