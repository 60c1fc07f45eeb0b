//! Checks the fields that have a value for each sample of a pixel.

ghost use Rattle.std.specs.Prelude.{◌≡◌, ℕ, ◌+◌, ◌*◌, ◌^◌, ◌<◌, ◌≤◌, List, length, IsTrue, OnOk};
ghost use Rattle.std.specs.Prelude.{take, find, not};
ghost use Rattle.std.specs.Option.{ForSome, option_map};
ghost use Rattle.tiff_format.specs.declared.form.Form.{Form};
ghost use Rattle.tiff_format.specs.declared.fault.TiffFault.TheVariants.{Unsupported};
ghost use Rattle.tiff_format.specs.Field.{type_size, is_read, entry_value, default_of};
ghost use Rattle.tiff_entries.specs.Calls.{Finds, Reads, OfEntries, Leaves};
ghost use Rattle.tiff_format.specs.Facts.{IsDepth};
ghost use Rattle.tiff_format.specs.DirectoryFault.{bits_fault, format_fault};
ghost use Rattle.tiff_entries.specs.Entries.{IsEntry, HasEntries, is_shaped, is_known, part_value};
ghost use Rattle.tiff_dirs.specs.Values.{is_allowed, IsFirstOther, first_other};
ghost use Rattle.tiff_dirs.specs.Numbers.{AreNumbersAt};

use crate::numbers::{Numbers, unsupported};
use crate::offsets::max_values;
use crate::shape::BYTE_BITS;
use std::alloc::Global;
use tiff_entries::tag::{BITS_PER_SAMPLE, SAMPLE_FORMAT, default_value};
use tiff_entries::{ByteReader, DirsError, Entry, Found};

/// The bits of a sample that takes two bytes.
const SHORT_BITS: u64 = 16;

/// SampleFormat of unsigned samples, the only ones that are read.
const UNSIGNED: u64 = 1;

const UNDEFINED: u64 = 4;

/// A field with a value for each sample of a pixel, and the two values that are allowed.
#[derive(Clone, Copy)]
pub struct SampleField {
    pub tag: u16,
    pub one: u64,
    pub other: u64,
}

/// Some values of an entry: `count` of them, from one of them on.
#[derive(Clone, Copy)]
struct ValueRange {
    from: u64,
    count: u64,
}

impl SampleField {
    /// Whether the field may have this value.
    fn allows(&self, value: u64) -> bool
        ensures { result ≡ is_allowed self.now value }
    {
        value == self.one || value == self.other
    }

    /// The first value among bytes that the field may not have.
    fn other_among(&self, entry: &Entry, part: &[u8], count: usize) -> Option<u64>
        requires kind { IsTrue (is_read entry.now.form entry.now.kind) }
        requires room { type_size entry.now.form entry.now.kind * count ≤ length part.now }
        ensures { IsFirstOther (is_allowed self.now) (part_value entry.now part.now) count result }
    {
        for k in 0..count {
            let value = entry.value_among(part, k);
            if !self.allows(value) {
                return Some(value);
            }
        }
        None
    }

    /// The first value in a stretch of an entry that the field may not have.
    fn other_in_stretch<B: ByteReader>(
        &self,
        b: &mut B,
        entry: &Entry,
        buffer: &mut [u8],
        stretch: ValueRange,
    ) -> Result<Option<u64>, DirsError<B::Error>>
        requires low { B.size b.old < 2 ^ 64 }
        requires shape { IsTrue (is_shaped (B.size b.old) entry.now) }
        requires within { stretch.from + stretch.count ≤ entry.now.count }
        requires room { type_size entry.now.form entry.now.kind * stretch.count
            ≤ length buffer.old }
        ensures told { ForSome (B.bytes b.old) (λ bytes. (place : ℕ)
            → IsEntry bytes place entry.now → Reads (IsFirstOther (is_allowed self.now)
            (λ k. entry_value entry.now.form bytes place (stretch.from + k)) stretch.count)
            result) }
        ensures reader { Leaves B.keeps B.refuses b.old b.new result }
    {
        let count = stretch.count as usize;
        let part = &mut buffer[..count * entry.value_size() as usize];
        entry.read_part(b, stretch.from, part)?;
        Ok(self.other_among(entry, part, count))
    }

    /// The first value of an entry that the field may not have.
    fn other_of_entry<B: ByteReader>(
        &self,
        alloc: Global,
        b: &mut B,
        entry: &Entry,
        count: u64,
    ) -> Result<Option<u64>, DirsError<B::Error>>
        requires low { B.size b.old < 2 ^ 64 }
        requires shape { IsTrue (is_shaped (B.size b.old) entry.now) }
        requires within { count ≤ entry.now.count }
        ensures told { ForSome (B.bytes b.old) (λ bytes. (place : ℕ)
            → IsEntry bytes place entry.now → Reads (IsFirstOther (is_allowed self.now)
            (entry_value entry.now.form bytes place) count) result) }
        ensures reader { Leaves B.keeps B.refuses b.old b.new result }
    {
        let most = count.min(max_values(entry.form));
        let mut buffer = vec![in alloc; 0u8; entry.value_size() as usize * most as usize]?;
        let mut done = 0;
        'blocks: while done < count {
            let more = (count - done).min(most);
            let stretch = ValueRange {
                from: done,
                count: more,
            };
            if let Some(value) = self.other_in_stretch(b, entry, &mut buffer, stretch)? {
                return Ok(Some(value));
            }
            done += more;
        }
        Ok(None)
    }

    /// The default of the field, if the field may not have it and a pixel has samples.
    fn other_default(&self, samples: u64) -> Option<u64>
        ensures { result
            ≡ find (λ v. not (is_allowed self.now v)) (take samples (default_of self.now.tag)) }
    {
        match default_value(self.tag) {
            Some(value) if samples != 0 && !self.allows(value) => Some(value),
            _ => None,
        }
    }

    /// The first value that the field may not have, among as many values as a pixel has samples.
    fn first_other<B: ByteReader>(
        &self,
        alloc: Global,
        b: &mut B,
        found: &Found,
        samples: u64,
    ) -> Result<Option<u64>, DirsError<B::Error>>
        requires known { IsTrue (is_known self.now.tag) }
        ensures told { ForSome (B.bytes b.old) (λ bytes.
            OfEntries found.now.entries bytes (λ form at.
            Reads (λ value. value ≡ first_other form bytes at self.now samples) result)) }
        ensures reader { Leaves B.keeps B.refuses b.old b.new result }
    {
        match found.entry(self.tag) {
            None => Ok(self.other_default(samples)),
            Some(entry) => {
                if entry.has_shape(b.len()) {
                    self.other_of_entry(alloc, b, &entry, samples.min(entry.count))
                } else {
                    Ok(None)
                }
            }
        }
    }

    /// Checks that the field has an allowed value for each sample.
    fn test<B: ByteReader>(
        &self,
        alloc: Global,
        b: &mut B,
        found: &Found,
        samples: u64,
    ) -> Result<(), DirsError<B::Error>>
        requires known { IsTrue (is_known self.now.tag) }
        ensures told { ForSome (B.bytes b.old) (λ bytes.
            OfEntries found.now.entries bytes (λ form at. Finds
            (option_map (Unsupported self.now.tag) (first_other form bytes at self.now samples))
            (λ _. Unit {0}) result)) }
        ensures reader { Leaves B.keeps B.refuses b.old b.new result }
    {
        match self.first_other(alloc, b, found, samples)? {
            None => Ok(()),
            Some(value) => Err(DirsError::Fault(unsupported(self.tag, value))),
        }
    }
}

/// Checks that every sample has as many bits as the first, 8 or 16.
pub fn test_bits<B: ByteReader>(
    alloc: Global,
    b: &mut B,
    found: &Found,
    numbers: &Numbers,
) -> Result<(), DirsError<B::Error>>
    ensures told { ForSome (B.bytes b.old) (λ bytes. (form : Form) (at : ℕ)
        → HasEntries form bytes at found.now.entries → AreNumbersAt form bytes at numbers.now
        → Finds (bits_fault form bytes at) (λ _. Unit {0}) result) }
    ensures depth { OnOk result (IsDepth numbers.now.bits) }
    ensures reader { Leaves B.keeps B.refuses b.old b.new result }
{
    let bits = numbers.bits;
    if bits != u64::from(BYTE_BITS) && bits != SHORT_BITS {
        return Err(DirsError::Fault(unsupported(BITS_PER_SAMPLE, bits)));
    }
    let field = SampleField {
        tag: BITS_PER_SAMPLE,
        one: bits,
        other: bits,
    };
    field.test(alloc, b, found, numbers.samples)
}

/// Checks that every sample is unsigned.
pub fn test_formats<B: ByteReader>(
    alloc: Global,
    b: &mut B,
    found: &Found,
    numbers: &Numbers,
) -> Result<(), DirsError<B::Error>>
    ensures told { ForSome (B.bytes b.old) (λ bytes. (form : Form) (at : ℕ)
        → HasEntries form bytes at found.now.entries → AreNumbersAt form bytes at numbers.now
        → Finds (format_fault form bytes at) (λ _. Unit {0}) result) }
    ensures reader { Leaves B.keeps B.refuses b.old b.new result }
{
    let field = SampleField {
        tag: SAMPLE_FORMAT,
        one: UNSIGNED,
        other: UNDEFINED,
    };
    field.test(alloc, b, found, numbers.samples)
}
