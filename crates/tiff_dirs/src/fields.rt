//! Reads fields that have a single number.

ghost use Rattle.std.specs.Prelude.{◌≡◌, ℕ, ◌^◌, ◌<◌, ◌≤◌, List, IsTrue};
ghost use Rattle.std.specs.Option.{ForSome};
ghost use Rattle.tiff_format.specs.Field.{entry_value, field_value};
ghost use Rattle.tiff_format.specs.Block.{tile_of, strip_rows};
ghost use Rattle.tiff_entries.specs.Calls.{Reads, OfEntries, Leaves};
ghost use Rattle.tiff_entries.specs.Entries.{IsEntry, is_shaped, is_known};
ghost use Rattle.tiff_dirs.specs.Numbers.{numbers_at, AreNumbersAt};

use crate::numbers::Numbers;
use tiff_entries::tag::{
    ALL_ROWS, NUMBER_COUNT, NUMBERS, ROWS_PER_STRIP, TILE_LENGTH, TILE_WIDTH, default_value,
};
use tiff_entries::{ByteReader, DirsError, Entry, Found, LONG8_BYTES};

/// The first value of an entry. Reads at most once.
fn value_of_entry<B: ByteReader>(b: &mut B, entry: &Entry) -> Result<u64, DirsError<B::Error>>
    requires low { B.size b.old < 2 ^ 64 }
    requires shape { IsTrue (is_shaped (B.size b.old) entry.now) }
    ensures told { ForSome (B.bytes b.old) (λ bytes. (place : ℕ) → IsEntry bytes place entry.now
        → Reads (λ value. value ≡ entry_value entry.now.form bytes place 0) result) }
    ensures reader { Leaves B.keeps B.refuses b.old b.new result }
{
    let mut buffer = [0u8; LONG8_BYTES];
    let part = &mut buffer[..entry.value_size() as usize];
    entry.read_part(b, 0, part)?;
    Ok(entry.value_among(part, 0))
}

/// The first value of a field: that of its entry, or its default, or 0 if it has none.
pub fn first_value<B: ByteReader>(
    b: &mut B,
    found: &Found,
    tag: u16,
) -> Result<u64, DirsError<B::Error>>
    requires known { IsTrue (is_known tag) }
    ensures told { ForSome (B.bytes b.old) (λ bytes.
        OfEntries found.now.entries bytes (λ form at.
        Reads (λ value. value ≡ field_value form bytes at tag) result)) }
    ensures reader { Leaves B.keeps B.refuses b.old b.new result }
{
    match found.entry(tag) {
        None => Ok(default_value(tag).unwrap_or(0)),
        Some(entry) => {
            if entry.has_shape(b.len()) {
                value_of_entry(b, &entry)
            } else {
                Ok(0)
            }
        }
    }
}

/// The first values of the fields that every directory has, in the order of `NUMBERS`.
fn first_values<B: ByteReader>(
    b: &mut B,
    found: &Found,
) -> Result<[u64; NUMBER_COUNT], DirsError<B::Error>>
    ensures told { ForSome (B.bytes b.old) (λ bytes.
        OfEntries found.now.entries bytes (λ form at.
        Reads (λ values. values ≡ numbers_at form bytes at) result)) }
    ensures reader { Leaves B.keeps B.refuses b.old b.new result }
{
    let mut values = [0u64; NUMBER_COUNT];
    for i in 0..NUMBER_COUNT {
        values[i] = first_value(b, found, NUMBERS[i])?;
    }
    Ok(values)
}

/// The width and height of a tile, if the directory is tiled.
fn read_tile<B: ByteReader>(
    b: &mut B,
    found: &Found,
) -> Result<Option<(u64, u64)>, DirsError<B::Error>>
    ensures told { ForSome (B.bytes b.old) (λ bytes.
        OfEntries found.now.entries bytes (λ form at.
        Reads (λ tile. tile ≡ tile_of form bytes at) result)) }
    ensures reader { Leaves B.keeps B.refuses b.old b.new result }
{
    if !found.is_tiled() {
        return Ok(None);
    }
    let width = first_value(b, found, TILE_WIDTH)?;
    let height = first_value(b, found, TILE_LENGTH)?;
    Ok(Some((width, height)))
}

/// The rows per strip; 2^32 - 1, that is all rows, if the file says more. Not read in a tiled
/// directory.
fn read_rows<B: ByteReader>(b: &mut B, found: &Found) -> Result<u32, DirsError<B::Error>>
    ensures told { ForSome (B.bytes b.old) (λ bytes.
        OfEntries found.now.entries bytes (λ form at.
        Reads (λ rows. rows ≡ strip_rows form bytes at) result)) }
    ensures reader { Leaves B.keeps B.refuses b.old b.new result }
{
    if found.is_tiled() {
        return Ok(ALL_ROWS);
    }
    let rows = first_value(b, found, ROWS_PER_STRIP)?;
    Ok(rows.min(u64::from(ALL_ROWS)) as u32)
}

/// The numbers of a directory. Each one that is not in its entry costs one read.
pub fn read_numbers<B: ByteReader>(b: &mut B, found: &Found) -> Result<Numbers, DirsError<B::Error>>
    ensures told { ForSome (B.bytes b.old) (λ bytes.
        OfEntries found.now.entries bytes (λ form at.
        Reads (AreNumbersAt form bytes at) result)) }
    ensures reader { Leaves B.keeps B.refuses b.old b.new result }
{
    let [
        width,
        height,
        bits,
        compression,
        photometric,
        samples,
        planar,
    ] = first_values(b, found)?;
    let tile = read_tile(b, found)?;
    let rows_per_strip = read_rows(b, found)?;
    Ok(Numbers {
        width,
        height,
        bits,
        compression,
        photometric,
        samples,
        planar,
        tile,
        rows_per_strip,
    })
}
