//! The form of a file, and the sizes of its parts.

ghost use Rattle.std.specs.Prelude.{◌≡◌, ◌<◌, ◌^◌};
ghost use Rattle.tiff_format.specs.Form as spec;

use crate::numbers::{has_wide_offsets, is_big, number_at};
use tiff_format::Form;

/// The bytes of an entry's tag.
pub const TAG_BYTES: u32 = 2;

/// The bytes of an entry's type.
pub const TYPE_BYTES: u32 = 2;

/// Where in an entry its number of values is.
pub const VALUES_COUNT_AT: u32 = TAG_BYTES + TYPE_BYTES;

/// The form of a file with these bytes.
pub fn form_of(bytes: &[u8]) -> Form
    ensures value { result ≡ spec.form_of bytes.now }
{
    Form {
        big: is_big(bytes),
        wide: has_wide_offsets(bytes),
    }
}

/// The bytes of the header.
pub fn header_bytes(form: Form) -> u32
    ensures { result ≡ spec.header_bytes form }
{
    if form.wide { 16 } else { 8 }
}

/// The bytes of a directory's number of entries.
pub fn count_bytes(form: Form) -> u32
    ensures { result ≡ spec.count_bytes form }
{
    if form.wide { 8 } else { 2 }
}

/// The bytes of an entry.
pub fn entry_bytes(form: Form) -> u32
    ensures { result ≡ spec.entry_bytes form }
{
    if form.wide { 20 } else { 12 }
}

/// The bytes of an offset, and of an entry's number of values.
pub fn offset_bytes(form: Form) -> u32
    ensures { result ≡ spec.offset_bytes form }
{
    if form.wide { 8 } else { 4 }
}

/// Where in an entry its values, or their place, are.
pub fn value_field_at(form: Form) -> u32
    ensures { result ≡ spec.value_field_at form }
{
    VALUES_COUNT_AT + offset_bytes(form)
}

/// The offset at a place.
pub fn offset_at(form: Form, bytes: &[u8], at: u128) -> u64
    requires { at < 2 ^ 110 }
    ensures { result ≡ spec.offset_at form bytes.now at }
{
    number_at(form.big, offset_bytes(form), bytes, at)
}

/// The place of the first directory.
pub fn first_place(form: Form, bytes: &[u8]) -> u64
    ensures { result ≡ spec.first_place form bytes.now }
{
    let at = header_bytes(form) - offset_bytes(form);
    offset_at(form, bytes, u128::from(at))
}
