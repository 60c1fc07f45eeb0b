//! Reads the entries of a directory.

ghost use Rattle.std.specs.Prelude.{◌≡◌, ◌+◌, ◌*◌, ◌^◌, ◌<◌, ◌≤◌, length, nat_le, IfOk};
ghost use Rattle.std.specs.Option.{ForSome};
ghost use Rattle.tiff_format.specs.Form.{count_bytes, entry_bytes, offset_bytes};
ghost use Rattle.tiff_format.specs.Directory.{entry_count, entry_place};
ghost use Rattle.tiff_entries.specs.Calls.{Finds, Reads, Leaves};
ghost use Rattle.tiff_entries.specs.Entries.{AddsBlock, AreEntriesAt, IsDirectoryAt};
ghost use Rattle.tiff_format.specs.DirectoryFault.{outside_fault};
ghost use Rattle.tiff_entries.specs.declared.reader.TheConstants.{MAX_READ_BYTES};

use crate::error::DirsError;
use crate::found::Found;
use crate::place::FilePlace;
use crate::reader::{ByteReader, MAX_READ_BYTES, read_at};
use std::alloc::Global;
use tiff_format::{Form, MAX_COUNT_BYTES, TiffFault};

/// The number of entries that are read at once, together with an offset after them.
fn max_entries(form: Form) -> u64
    ensures some { 1 ≤ result }
    ensures few { result ≤ MAX_READ_BYTES }
{
    (MAX_READ_BYTES as u64 - form.offset_bytes()) / form.entry_bytes()
}

/// The entries of a directory that matter, and the place of the next directory.
#[derive(Clone, Copy)]
pub struct Directory {
    pub found: Found,
    /// 0 if there is no next directory.
    pub next: FilePlace,
}

/// Whether `count` entries and an offset fit in `room` bytes.
fn has_room(form: Form, count: u64, room: u64) -> bool
    ensures { result ≡ nat_le (entry_bytes form * count + offset_bytes form) room }
{
    match form.entry_bytes().checked_mul(count) {
        Some(entries) => entries <= room && form.offset_bytes() <= room - entries,
        None => false,
    }
}

/// Reads a directory's number of entries.
fn read_count<B: ByteReader>(b: &mut B, place: FilePlace) -> Result<u64, DirsError<B::Error>>
    requires { place.at + count_bytes place.form ≤ B.size b.old }
    ensures told { ForSome (B.bytes b.old) (λ bytes.
        Reads (λ count. count ≡ entry_count place.form bytes place.at) result) }
    ensures reader { Leaves B.keeps B.refuses b.old b.new result }
{
    let mut buffer = [0u8; MAX_COUNT_BYTES];
    let head = &mut buffer[..place.form.count_bytes() as usize];
    read_at(b, place.at, head)?;
    Ok(place.form.count_at(head, 0))
}

/// Reads a directory's number of entries, and checks that all of it lies in the file. It compares
/// with the bytes left, because the sum of a place and a length may not fit 64 bits.
fn count_of_entries<B: ByteReader>(b: &mut B, place: FilePlace) -> Result<u64, DirsError<B::Error>>
    ensures told { ForSome (B.bytes b.old) (λ bytes.
        Finds (outside_fault place.form bytes place.at)
        (λ count. count ≡ entry_count place.form bytes place.at) result) }
    ensures inside { IfOk result (λ count.
        entry_place place.form place.at count + offset_bytes place.form ≤ B.size b.new) }
    ensures low { IfOk result (λ count. B.size b.new < 2 ^ 64) }
    ensures reader { Leaves B.keeps B.refuses b.old b.new result }
{
    let form = place.form;
    let file = b.len();
    let size = form.count_bytes();
    if place.at < form.header_bytes() || file < size || file - size < place.at {
        return Err(DirsError::Fault(TiffFault::DirOutside));
    }
    let count = read_count(b, place)?;
    if !has_room(form, count, file - size - place.at) {
        return Err(DirsError::Fault(TiffFault::DirOutside));
    }
    Ok(count)
}

/// The bytes of `more` entries and an offset.
fn bytes_of_entries(form: Form, more: u64) -> u64
    requires { entry_bytes form * more + offset_bytes form < 2 ^ 64 }
    ensures { result ≡ entry_bytes form * more + offset_bytes form }
{
    form.entry_bytes() * more + form.offset_bytes()
}

/// Reads a block of entries and the offset after them. Keeps the first entry of each tag, and
/// returns the offset.
fn read_block<B: ByteReader>(
    b: &mut B,
    place: FilePlace,
    found: &mut Found,
    buffer: &mut [u8],
    more: u64,
) -> Result<u64, DirsError<B::Error>>
    requires room { entry_bytes place.form * more + offset_bytes place.form ≤ length buffer.old }
    requires inside { place.at + (entry_bytes place.form * more + offset_bytes place.form)
        ≤ B.size b.old }
    requires low { B.size b.old < 2 ^ 64 }
    ensures told { ForSome (B.bytes b.old) (λ bytes.
        Reads (AddsBlock place bytes more found.old.entries found.new.entries) result) }
    ensures reader { Leaves B.keeps B.refuses b.old b.new result }
{
    let block = &mut buffer[..bytes_of_entries(place.form, more) as usize];
    read_at(b, place.at, block)?;
    found.scan(place, block, more);
    let end = place.form.entry_bytes() * more;
    Ok(place.form.offset_at(block, end as usize))
}

/// The first entry of each tag, and the offset after the entries.
fn read_entries<B: ByteReader>(
    alloc: Global,
    b: &mut B,
    first: FilePlace,
    count: u64,
) -> Result<Directory, DirsError<B::Error>>
    requires inside { first.at + entry_bytes first.form * count + offset_bytes first.form
        ≤ B.size b.old }
    requires low { B.size b.old < 2 ^ 64 }
    ensures told { ForSome (B.bytes b.old) (λ bytes.
        Reads (AreEntriesAt first.form bytes first.at count) result) }
    ensures reader { Leaves B.keeps B.refuses b.old b.new result }
{
    let form = first.form;
    let most = count.min(max_entries(form));
    let mut buffer = vec![in alloc; 0u8; bytes_of_entries(form, most) as usize]?;
    let mut found = Found::nothing();
    let mut done = 0;
    'reads: loop {
        let more = (count - done).min(most);
        let place = first.behind(form.entry_bytes() * done);
        let at = read_block(b, place, &mut found, &mut buffer, more)?;
        done += more;
        if done == count {
            let next = FilePlace { form, at };
            return Ok(Directory { found, next });
        }
    }
}

/// The first entry of each tag in the directory at a place, and the place of the next directory.
pub fn read_directory<B: ByteReader>(
    alloc: Global,
    b: &mut B,
    place: FilePlace,
) -> Result<Directory, DirsError<B::Error>>
    ensures told { ForSome (B.bytes b.old) (λ bytes.
        Finds (outside_fault place.form bytes place.at)
        (IsDirectoryAt place.form bytes place.at) result) }
    ensures reader { Leaves B.keeps B.refuses b.old b.new result }
{
    let form = place.form;
    let count = count_of_entries(b, place)?;
    read_entries(alloc, b, place.behind(form.count_bytes()), count)
}
