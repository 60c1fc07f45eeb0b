//! Reads the values of a directory's fields. The place of an entry is below 2^101.

ghost use Rattle.std.specs.Prelude.{◌≡◌, ◌<◌, ◌*◌, ◌^◌, ◌==◌, ◌||◌, nat_le, length, slice_index};
ghost use Rattle.std.specs.Prelude.{IfSome, IfOk, IsTrue};
ghost use Rattle.std.specs.Option.{option_to_list};
ghost use Rattle.tiff_format.specs.Field as spec;

use crate::directories::{entry_count, entry_place};
use crate::form::{
    TAG_BYTES, TYPE_BYTES, VALUES_COUNT_AT, entry_bytes, offset_at, offset_bytes, value_field_at,
};
use crate::numbers::number_at;
use crate::tags::{
    BITS_PER_SAMPLE, COMPRESSION, PHOTOMETRIC, PLANAR_CONFIGURATION, ROWS_PER_STRIP, SAMPLE_FORMAT,
    SAMPLES_PER_PIXEL,
};
use std::alloc::{AllocError, Global};
use tiff_format::Form;

/// The types that are read.
const SHORT: u64 = 3;

const LONG: u64 = 4;

/// LONG8, 8 bytes. BigTIFF only.
const LONG8: u64 = 16;

/// RowsPerStrip if the directory does not have it: all rows are one strip.
pub const ALL_ROWS: u64 = 0xffff_ffff;

/// The place of the first entry with a tag, among n entries.
fn first_entry(form: Form, tag: u32, bytes: &[u8], place: u128, n: u64) -> Option<u128>
    requires { place < 2 ^ 100 }
    ensures value { result ≡ spec.first_entry form tag bytes.now place n }
    ensures fits { IfSome result (λ p. p < 2 ^ 101) }
{
    for i in 0..n {
        let entry = place + u128::from(entry_bytes(form)) * u128::from(i);
        if number_at(form.big, TAG_BYTES, bytes, entry) == u64::from(tag) {
            return Some(entry);
        }
    }
    None
}

/// The place of the first entry with a tag in the directory at a place.
#[tactic(auto, unfolding(tiff_format::specs::Field::field_place))]
pub fn field_place(form: Form, bytes: &[u8], at: u64, tag: u32) -> Option<u128>
    ensures value { result ≡ spec.field_place form bytes.now at tag }
    ensures fits { IfSome result (λ p. p < 2 ^ 101) }
{
    first_entry(
        form,
        tag,
        bytes,
        entry_place(form, at, 0),
        entry_count(form, bytes, at),
    )
}

/// Whether the directory has an entry with this tag.
pub fn has_field(form: Form, bytes: &[u8], at: u64, tag: u32) -> bool
    ensures value { result ≡ spec.has_field form bytes.now at tag }
{
    field_place(form, bytes, at, tag).is_some()
}

/// The type of the entry at a place.
fn type_of(form: Form, bytes: &[u8], place: u128) -> u64
    requires { place < 2 ^ 101 }
    ensures { result ≡ spec.type_of form bytes.now place }
{
    number_at(form.big, TYPE_BYTES, bytes, place + u128::from(TAG_BYTES))
}

/// The number of values of the entry.
fn count_of(form: Form, bytes: &[u8], place: u128) -> u64
    requires { place < 2 ^ 101 }
    ensures { result ≡ spec.count_of form bytes.now place }
{
    offset_at(form, bytes, place + u128::from(VALUES_COUNT_AT))
}

/// The bytes per value; 0 if the type is not read.
fn value_size(form: Form, bytes: &[u8], place: u128) -> u32
    requires { place < 2 ^ 101 }
    ensures value { result ≡ spec.value_size form bytes.now place }
    ensures few { IsTrue (nat_le result 4 || (result == 8)) }
{
    let kind = type_of(form, bytes, place);
    if kind == SHORT {
        2
    } else if kind == LONG {
        4
    } else if form.wide && kind == LONG8 {
        8
    } else {
        0
    }
}

/// The bytes of all values.
fn values_size(form: Form, bytes: &[u8], place: u128) -> u128
    requires { place < 2 ^ 101 }
    ensures value { result
        ≡ spec.count_of form bytes.now place * spec.value_size form bytes.now place }
    ensures small { result < 2 ^ 70 }
{
    u128::from(count_of(form, bytes, place)) * u128::from(value_size(form, bytes, place))
}

/// The place of the values.
#[tactic(auto, unfolding(tiff_format::specs::Field::values_place))]
fn values_place(form: Form, bytes: &[u8], place: u128) -> u128
    requires { place < 2 ^ 101 }
    ensures value { result ≡ spec.values_place form bytes.now place }
    ensures fits { result < 2 ^ 102 }
{
    let values = place + u128::from(value_field_at(form));
    if values_size(form, bytes, place) <= u128::from(offset_bytes(form)) {
        values
    } else {
        u128::from(offset_at(form, bytes, values))
    }
}

/// Value i of the entry.
#[tactic(auto, unfolding(tiff_format::specs::Field::entry_value))]
fn entry_value(form: Form, bytes: &[u8], place: u128, i: u64) -> u64
    requires { place < 2 ^ 101 }
    ensures { result ≡ spec.entry_value form bytes.now place i }
{
    let size = value_size(form, bytes, place);
    let start = values_place(form, bytes, place);
    number_at(
        form.big,
        size,
        bytes,
        start + u128::from(size) * u128::from(i),
    )
}

/// Whether the type is read, there is a value, and the values lie in the file.
#[tactic(auto, unfolding(tiff_format::specs::Field::has_shape))]
pub fn has_shape(form: Form, bytes: &[u8], place: u128) -> bool
    requires { place < 2 ^ 101 }
    ensures value { result ≡ spec.has_shape form bytes.now place }
{
    let kind = type_of(form, bytes, place);
    let end = values_place(form, bytes, place) + values_size(form, bytes, place);
    (kind == SHORT || kind == LONG || (form.wide && kind == LONG8))
        && 0 < count_of(form, bytes, place)
        && end <= bytes.len() as u128
}

/// The number of values; 0 if the entry cannot be read.
#[tactic(auto, using(crate::proofs::FieldLemmas::entry_lengths))]
fn entry_length(form: Form, bytes: &[u8], place: u128) -> u64
    requires { place < 2 ^ 101 }
    ensures { result ≡ length (spec.entry_values form bytes.now place) }
{
    if has_shape(form, bytes, place) {
        count_of(form, bytes, place)
    } else {
        0
    }
}

/// Value i; 0 if the entry cannot be read or has no such value.
#[tactic(auto, using(crate::proofs::FieldLemmas::entry_lists))]
fn entry_number(form: Form, bytes: &[u8], place: u128, i: u128) -> u64
    requires { place < 2 ^ 101 }
    ensures { result ≡ slice_index (spec.entry_values form bytes.now place) i }
{
    if i < u128::from(entry_length(form, bytes, place)) {
        entry_value(form, bytes, place, i as u64)
    } else {
        0
    }
}

/// The default of a tag, if it has one.
fn default_of(tag: u32) -> Option<u64>
    ensures { option_to_list result ≡ spec.default_of tag }
{
    match tag {
        BITS_PER_SAMPLE
        | COMPRESSION
        | PHOTOMETRIC
        | SAMPLES_PER_PIXEL
        | PLANAR_CONFIGURATION
        | SAMPLE_FORMAT => Some(1),
        ROWS_PER_STRIP => Some(ALL_ROWS),
        _ => None,
    }
}

/// The number of values of a field: of its first entry, or of its default.
#[tactic(auto, unfolding(tiff_format::specs::Field::field_values))]
pub fn field_length(form: Form, bytes: &[u8], at: u64, tag: u32) -> u64
    ensures { result ≡ length (spec.field_values form bytes.now at tag) }
{
    match field_place(form, bytes, at, tag) {
        Some(place) => entry_length(form, bytes, place),
        None if default_of(tag).is_some() => 1,
        None => 0,
    }
}

/// Value i of a field; 0 if it has no such value.
#[tactic(auto, unfolding(tiff_format::specs::Field::field_values))]
pub fn field_number(form: Form, bytes: &[u8], at: u64, tag: u32, i: u128) -> u64
    ensures { result ≡ slice_index (spec.field_values form bytes.now at tag) i }
{
    match field_place(form, bytes, at, tag) {
        Some(place) => entry_number(form, bytes, place, i),
        None if i == 0 => default_of(tag).unwrap_or(0),
        None => 0,
    }
}

/// The first value of a field.
pub fn field_value(form: Form, bytes: &[u8], at: u64, tag: u32) -> u64
    ensures value { result ≡ spec.field_value form bytes.now at tag }
{
    field_number(form, bytes, at, tag, 0)
}

/// The values of a field.
pub fn field_values(
    alloc: Global,
    form: Form,
    bytes: &[u8],
    at: u64,
    tag: u32,
) -> Result<Vec<u64>, AllocError>
    ensures ok { IfOk result (λ v. v.items ≡ spec.field_values form bytes.now at tag) }
{
    let mut values = Vec::new(alloc);
    for i in 0..field_length(form, bytes, at, tag) {
        values.push(field_number(form, bytes, at, tag, u128::from(i)))?;
    }
    Ok(values)
}
