//! An entry of a directory.

ghost use Rattle.std.specs.Prelude.{◌≡◌, ℕ, ◌+◌, ◌*◌, ◌^◌, ◌<◌, ◌≤◌, List};
ghost use Rattle.std.specs.Prelude.{length, nat_le, slice_index, IsTrue};
ghost use Rattle.std.specs.Option.{ForSome};
ghost use Rattle.tiff_format.specs.Form.{entry_bytes, offset_bytes, value_field_at};
ghost use Rattle.tiff_format.specs.Field.{type_size, is_read, entry_value};
ghost use Rattle.tiff_format.specs.Bytes.{IsPartAt};
ghost use Rattle.tiff_entries.specs.Entries.{IsEntry, is_shaped, entry_size, part_value};
ghost use Rattle.tiff_entries.specs.Entries.{SpellValues};
ghost use Rattle.tiff_entries.specs.Calls.{Reads, Leaves};

use crate::error::DirsError;
use crate::place::FilePlace;
use crate::reader::{ByteReader, read_at};
use tiff_format::{Form, MAX_OFFSET_BYTES};

/// The field types that are read (TIFF 6.0, section 2, "Types").
const SHORT: u16 = 3;

const LONG: u16 = 4;

/// LONG8, 8 bytes. BigTIFF only.
const LONG8: u16 = 16;

/// The bytes per value of each type.
const SHORT_BYTES: usize = 2;

pub const LONG_BYTES: usize = 4;

pub const LONG8_BYTES: usize = 8;

/// Where in an entry its type is, after its tag.
const TYPE_AT: usize = 2;

/// Where in an entry its number of values is, after its type.
const VALUES_COUNT_AT: usize = TYPE_AT + 2;

/// A field's type and number of values, and where its values are.
#[derive(Clone, Copy)]
pub struct Entry {
    /// The form of the file.
    pub form: Form,
    pub kind: u16,
    pub count: u64,
    /// The place of the first value in the file.
    pub start: u64,
    /// The last bytes of the entry, as many as an offset has. They are the values, if these fit.
    pub inner: [u8; MAX_OFFSET_BYTES],
}

/// The bytes per value of a type; 0 for a type that is not read.
pub fn size_of_kind(form: Form, kind: u16) -> u64
    ensures value { result ≡ type_size form kind }
    ensures few { result ≤ 8 }
{
    match kind {
        SHORT => SHORT_BYTES as u64,
        LONG => LONG_BYTES as u64,
        LONG8 if form.wide => LONG8_BYTES as u64,
        _ => 0,
    }
}

/// Whether `count` values of `size` bytes fit in `most` bytes.
fn takes_at_most(count: u64, size: u64, most: u64) -> bool
    ensures { result ≡ nat_le (count * size) most }
{
    match count.checked_mul(size) {
        Some(all) => all <= most,
        None => false,
    }
}

/// The last bytes of an entry, as many as an offset has.
fn inner_of(form: Form, raw: &[u8]) -> [u8; MAX_OFFSET_BYTES]
    requires long { entry_bytes form ≤ length raw.now }
    ensures { (k : ℕ) → k < offset_bytes form
        → slice_index result k ≡ slice_index raw.now (value_field_at form + k) }
{
    let at = VALUES_COUNT_AT + form.offset_bytes() as usize;
    let mut inner = [0u8; MAX_OFFSET_BYTES];
    for k in 0..form.offset_bytes() as usize {
        inner[k] = raw[at + k];
    }
    inner
}

impl Entry {
    /// The entry at a place of a file, from its bytes.
    pub fn from_bytes(place: FilePlace, raw: &[u8]) -> Entry
        requires long { entry_bytes place.form ≤ length raw.now }
        requires low { place.at + entry_bytes place.form < 2 ^ 64 }
        ensures form { result.form ≡ place.form }
        ensures entry { (bytes : List ℕ) → IsPartAt bytes place.at raw.now
            → IsEntry bytes place.at result }
    {
        let form = place.form;
        let kind = form.short_at(raw, TYPE_AT);
        let count = form.offset_at(raw, VALUES_COUNT_AT);
        let width = form.offset_bytes();
        let field = VALUES_COUNT_AT as u64 + width;
        let start = if takes_at_most(count, size_of_kind(form, kind), width) {
            place.at + field
        } else {
            form.offset_at(raw, field as usize)
        };
        let inner = inner_of(form, raw);
        Entry {
            form,
            kind,
            count,
            start,
            inner,
        }
    }

    /// The bytes per value.
    pub fn value_size(&self) -> u64
        ensures value { result ≡ type_size self.now.form self.now.kind }
        ensures few { result ≤ 8 }
    {
        size_of_kind(self.form, self.kind)
    }

    /// Whether the values are in the entry itself.
    fn is_inner(&self) -> bool
        ensures { result ≡ nat_le (entry_size self.now) (offset_bytes self.now.form) }
    {
        takes_at_most(self.count, self.value_size(), self.form.offset_bytes())
    }

    /// Whether the values can be read in a file of this length. The sum of their place and their
    /// length is not computed, because it may not fit 64 bits.
    pub fn has_shape(&self, file: u64) -> bool
        ensures { result ≡ is_shaped file self.now }
    {
        let size = self.value_size();
        size != 0
            && self.count != 0
            && self.start <= file
            && takes_at_most(self.count, size, file - self.start)
    }

    /// Fills a buffer with the bytes of values, from one of them on. Reads at most once.
    pub fn read_part<B: ByteReader>(
        &self,
        b: &mut B,
        from: u64,
        part: &mut [u8],
    ) -> Result<(), DirsError<B::Error>>
        requires low { B.size b.old < 2 ^ 64 }
        requires shape { IsTrue (is_shaped (B.size b.old) self.now) }
        requires within { type_size self.now.form self.now.kind * from + length part.old
            ≤ entry_size self.now }
        ensures told { ForSome (B.bytes b.old) (λ bytes.
            (place : ℕ) → IsEntry bytes place self.now → Reads
            (λ _. SpellValues self.now part.new
            (λ k. entry_value self.now.form bytes place (from + k))) result) }
        ensures reader { Leaves B.keeps B.refuses b.old b.new result }
    {
        let skip = self.value_size() * from;
        if self.is_inner() {
            let at = skip as usize;
            part.copy_from_slice(&self.inner[at..at + part.len()]);
            return Ok(());
        }
        read_at(b, self.start + skip, part)
    }

    /// Value k among the bytes of values.
    pub fn value_among(&self, part: &[u8], k: usize) -> u64
        requires kind { IsTrue (is_read self.now.form self.now.kind) }
        requires room { type_size self.now.form self.now.kind * k
            + type_size self.now.form self.now.kind ≤ length part.now }
        ensures { result ≡ part_value self.now part.now k }
    {
        match self.kind {
            SHORT => u64::from(self.form.short_at(part, SHORT_BYTES * k)),
            LONG => u64::from(self.form.long_at(part, LONG_BYTES * k)),
            _ => self.form.long8_at(part, LONG8_BYTES * k),
        }
    }
}
