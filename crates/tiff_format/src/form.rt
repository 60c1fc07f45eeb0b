//! The form of a file's numbers, and how they are read from bytes.

ghost use Rattle.std.specs.Prelude.{◌≡◌, ◌+◌, ◌≤◌, length};
ghost use Rattle.tiff_format.specs.Bytes.{number_at};
ghost use Rattle.tiff_format.specs.Form.{header_bytes, count_bytes, entry_bytes, offset_bytes};
ghost use Rattle.tiff_format.specs.Form.{offset_at};

use byteorder::{BigEndian, ByteOrder, LittleEndian};

/// The bytes of the shortest header. In BigTIFF the header goes on after them.
pub const HEADER_BYTES: usize = 8;

/// The most bytes of a directory's number of entries.
pub const MAX_COUNT_BYTES: usize = 8;

/// The most bytes of an offset.
pub const MAX_OFFSET_BYTES: usize = 8;

/// The form of a file: its byte order, and the size of its offsets.
#[derive(Clone, Copy, Debug, PartialEq, Eq)]
pub struct Form {
    /// Whether numbers have their highest byte first (`MM`).
    pub big: bool,
    /// Whether offsets have 64 bits, as in BigTIFF.
    pub wide: bool,
}

impl Form {
    /// The bytes of the header.
    pub fn header_bytes(self) -> u64
        ensures value { result ≡ header_bytes self }
        ensures some { 8 ≤ result }
        ensures few { result ≤ 16 }
    {
        if self.wide { 16 } else { 8 }
    }

    /// The bytes of a directory's number of entries.
    pub fn count_bytes(self) -> u64
        ensures value { result ≡ count_bytes self }
        ensures some { 2 ≤ result }
        ensures few { result ≤ 8 }
    {
        if self.wide { 8 } else { 2 }
    }

    /// The bytes of an entry.
    pub fn entry_bytes(self) -> u64
        ensures value { result ≡ entry_bytes self }
        ensures some { 12 ≤ result }
        ensures few { result ≤ 20 }
    {
        if self.wide { 20 } else { 12 }
    }

    /// The bytes of an offset, and of an entry's number of values.
    pub fn offset_bytes(self) -> u64
        ensures value { result ≡ offset_bytes self }
        ensures some { 4 ≤ result }
        ensures few { result ≤ 8 }
    {
        if self.wide { 8 } else { 4 }
    }

    /// The number in the two bytes at `at`.
    pub fn short_at(self, bytes: &[u8], at: usize) -> u16
        requires { at + 2 ≤ length bytes.now }
        ensures value { result ≡ number_at self.big 2 bytes.now at }
    {
        let from = &bytes[at..];
        if self.big {
            BigEndian::read_u16(from)
        } else {
            LittleEndian::read_u16(from)
        }
    }

    /// The number in the four bytes at `at`.
    pub fn long_at(self, bytes: &[u8], at: usize) -> u32
        requires { at + 4 ≤ length bytes.now }
        ensures value { result ≡ number_at self.big 4 bytes.now at }
    {
        let from = &bytes[at..];
        if self.big {
            BigEndian::read_u32(from)
        } else {
            LittleEndian::read_u32(from)
        }
    }

    /// The number in the eight bytes at `at`.
    pub fn long8_at(self, bytes: &[u8], at: usize) -> u64
        requires { at + 8 ≤ length bytes.now }
        ensures value { result ≡ number_at self.big 8 bytes.now at }
    {
        let from = &bytes[at..];
        if self.big {
            BigEndian::read_u64(from)
        } else {
            LittleEndian::read_u64(from)
        }
    }

    /// A directory's number of entries, from the bytes at `at`.
    pub fn count_at(self, bytes: &[u8], at: usize) -> u64
        requires { at + count_bytes self ≤ length bytes.now }
        ensures value { result ≡ number_at self.big (count_bytes self) bytes.now at }
    {
        if self.wide {
            self.long8_at(bytes, at)
        } else {
            u64::from(self.short_at(bytes, at))
        }
    }

    /// The offset in the bytes at `at`.
    pub fn offset_at(self, bytes: &[u8], at: usize) -> u64
        requires { at + offset_bytes self ≤ length bytes.now }
        ensures value { result ≡ offset_at self bytes.now at }
    {
        if self.wide {
            self.long8_at(bytes, at)
        } else {
            u64::from(self.long_at(bytes, at))
        }
    }
}
