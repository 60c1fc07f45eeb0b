//! Reads the offsets of the strips or tiles of a directory.

ghost use Rattle.std.specs.Prelude.{◌≡◌, ℕ, ◌+◌, ◌*◌, ◌^◌, ◌<◌, ◌≤◌, List, length, IsTrue, IfOk};
ghost use Rattle.std.specs.Prelude.{OnOk, min, vec_len, vec_capacity, take};
ghost use Rattle.std.specs.Option.{ForSome};
ghost use Rattle.tiff_format.specs.Block.{shape_at, blocks_of, offsets_tag};
ghost use Rattle.tiff_format.specs.DirectoryFault.{count_fault};
ghost use Rattle.tiff_entries.specs.Calls.{Finds, Reads, OfEntries, Leaves};
ghost use Rattle.tiff_format.specs.Field.{type_size, is_read, entry_value, field_values};
ghost use Rattle.tiff_entries.specs.Entries.{IsEntry, is_shaped, part_value};
ghost use Rattle.tiff_dirs.specs.Values.{AppendsNumbers, AreFirstValues, max_values as spec_values};
ghost use Rattle.tiff_dirs.specs.Shape.{seen_shape};

use crate::shape::ReadShape;
use std::alloc::Global;
use tiff_entries::{ByteReader, DirsError, Entry, Found, LONG_BYTES, LONG8_BYTES, MAX_READ_BYTES};
use tiff_format::{Form, TiffFault};

/// The number of values read at once: as many of the widest type as fit one read.
pub fn max_values(form: Form) -> u64
    ensures { result ≡ spec_values form }
{
    let widest = if form.wide { LONG8_BYTES } else { LONG_BYTES };
    (MAX_READ_BYTES / widest) as u64
}

/// Appends `more` values from their bytes.
fn append_values(values: &mut Vec<u64>, entry: &Entry, part: &[u8], more: usize)
    requires kind { IsTrue (is_read entry.now.form entry.now.kind) }
    requires room { type_size entry.now.form entry.now.kind * more ≤ length part.now }
    requires reserved { vec_len values.old + more ≤ vec_capacity values.old }
    ensures capacity { vec_capacity values.new ≡ vec_capacity values.old }
    ensures appends { AppendsNumbers more (part_value entry.now part.now)
        values.old.items values.new.items }
{
    for k in 0..more {
        values.push_reserved(entry.value_among(part, k));
    }
}

/// Reads `more` further values of an entry.
fn read_more<B: ByteReader>(
    values: &mut Vec<u64>,
    b: &mut B,
    entry: &Entry,
    buffer: &mut [u8],
    more: usize,
) -> Result<(), DirsError<B::Error>>
    requires low { B.size b.old < 2 ^ 64 }
    requires shape { IsTrue (is_shaped (B.size b.old) entry.now) }
    requires within { vec_len values.old + more ≤ entry.now.count }
    requires room { type_size entry.now.form entry.now.kind * more ≤ length buffer.old }
    requires reserved { vec_len values.old + more ≤ vec_capacity values.old }
    ensures told { ForSome (B.bytes b.old) (λ bytes. (place : ℕ)
        → IsEntry bytes place entry.now →
        let value = entry_value entry.now.form bytes place in
        AreFirstValues (length values.old.items) value values.old.items
        → Reads (λ _. AreFirstValues (length values.new.items) value values.new.items) result) }
    ensures grown { OnOk result (length values.new.items ≡ length values.old.items + more) }
    ensures capacity { vec_capacity values.new ≡ vec_capacity values.old }
    ensures reader { Leaves B.keeps B.refuses b.old b.new result }
{
    let part = &mut buffer[..more * entry.value_size() as usize];
    entry.read_part(b, values.len() as u64, part)?;
    append_values(values, entry, part, more);
    Ok(())
}

/// Reads the first `count` values of an entry.
fn read_all<B: ByteReader>(
    values: &mut Vec<u64>,
    b: &mut B,
    entry: &Entry,
    count: usize,
    buffer: &mut [u8],
) -> Result<(), DirsError<B::Error>>
    requires low { B.size b.old < 2 ^ 64 }
    requires shape { IsTrue (is_shaped (B.size b.old) entry.now) }
    requires enough { count ≤ entry.now.count }
    requires room { type_size entry.now.form entry.now.kind * min count (spec_values entry.now.form)
        ≤ length buffer.old }
    requires reserved { count ≤ vec_capacity values.old }
    requires none { length values.old.items ≡ 0 }
    ensures told { ForSome (B.bytes b.old) (λ bytes. (place : ℕ)
        → IsEntry bytes place entry.now → Reads
        (λ _. AreFirstValues count (entry_value entry.now.form bytes place)
        values.new.items) result) }
    ensures count { OnOk result (length values.new.items ≡ count) }
    ensures reader { Leaves B.keeps B.refuses b.old b.new result }
{
    let most = max_values(entry.form) as usize;
    'values: while values.len() < count {
        let more = (count - values.len()).min(most);
        read_more(values, b, entry, buffer, more)?;
    }
    Ok(())
}

/// The first `count` values of an entry. Later ones are not read.
fn first_of_entry<B: ByteReader>(
    alloc: Global,
    b: &mut B,
    entry: &Entry,
    count: usize,
) -> Result<Vec<u64>, DirsError<B::Error>>
    requires low { B.size b.old < 2 ^ 64 }
    requires shape { IsTrue (is_shaped (B.size b.old) entry.now) }
    requires enough { count ≤ entry.now.count }
    ensures told { ForSome (B.bytes b.old) (λ bytes. (place : ℕ)
        → IsEntry bytes place entry.now → Reads (λ values.
        AreFirstValues count (entry_value entry.now.form bytes place) values.items) result) }
    ensures count { IfOk result (λ values. length values.items ≡ count) }
    ensures reader { Leaves B.keeps B.refuses b.old b.new result }
{
    let size = entry.value_size() as usize;
    let mut values = Vec::with_capacity(alloc, count)?;
    let most = count.min(max_values(entry.form) as usize);
    let mut buffer = vec![in alloc; 0u8; size * most]?;
    read_all(&mut values, b, entry, count, &mut buffer)?;
    Ok(values)
}

/// The offset of each strip or tile in a level of this shape.
pub fn read_offsets<B: ByteReader>(
    alloc: Global,
    b: &mut B,
    found: &Found,
    shape: &ReadShape,
) -> Result<Vec<u64>, DirsError<B::Error>>
    ensures told { ForSome (B.bytes b.old) (λ bytes. OfEntries found.now.entries bytes (λ form at.
        seen_shape shape.now ≡ shape_at form bytes at
        → Finds (count_fault form bytes at) (λ offsets. offsets.items
        ≡ take (blocks_of (shape_at form bytes at))
        (field_values form bytes at (offsets_tag form bytes at))) result)) }
    ensures count { IfOk result (λ offsets.
        length offsets.items ≡ blocks_of (seen_shape shape.now)) }
    ensures reader { Leaves B.keeps B.refuses b.old b.new result }
{
    let blocks = shape.blocks();
    let Some(entry) = found.entry(shape.offsets_tag()) else {
        return Err(DirsError::Fault(TiffFault::OffsetCount));
    };
    if !entry.has_shape(b.len()) || entry.count < blocks {
        return Err(DirsError::Fault(TiffFault::OffsetCount));
    }
    first_of_entry(alloc, b, &entry, blocks as usize)
}
