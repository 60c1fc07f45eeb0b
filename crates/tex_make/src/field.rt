//! Writes the directories of a TIFF file.

ghost use Rattle.std.specs.Prelude.{◌≡◌, ◌+◌, ◌≤◌, ◌<◌, ◌^◌, ◌++◌, length, replicate, OnOk};
ghost use Rattle.std.specs.Int.{w16, w32, to_le_bytes};
ghost use Rattle.std.specs.List.{All, flat_map};
ghost use Rattle.tex_make.specs.Field as spec;

use std::alloc::AllocError;

/// The type of a field's values (TIFF 6.0, section 2).
#[derive(Clone, Copy, Debug, PartialEq, Eq)]
pub(crate) enum FieldKind {
    /// Two bytes each.
    Short,
    /// Four bytes each.
    Long,
}

/// A field whose values rise in equal steps, or are all the same.
#[derive(Clone, Copy, Debug, PartialEq, Eq)]
pub(crate) struct Field {
    pub(crate) tag: u16,
    pub(crate) kind: FieldKind,
    /// The number of values.
    pub(crate) count: u32,
    /// The first value.
    pub(crate) first: u32,
    /// The difference from each value to the next.
    pub(crate) step: u32,
}

/// The bytes of values that fit in an entry.
const ENTRY_ROOM: u32 = 4;

impl FieldKind {
    /// The number of the type in the file.
    fn number(self) -> u16
        ensures { result ≡ spec.type_number self }
    {
        match self {
            FieldKind::Short => 3,
            FieldKind::Long => 4,
        }
    }

    /// The bytes of a value.
    fn size(self) -> u32
        ensures { result ≡ spec.number_size self }
    {
        match self {
            FieldKind::Short => 2,
            FieldKind::Long => 4,
        }
    }
}

/// The bytes of a field's values.
fn field_size(field: &Field) -> u32
    requires { spec.IsField field.now }
    ensures { result ≡ spec.field_size field.now }
{
    field.count * field.kind.size()
}

/// The bytes of a field's values that come after the directory, because they do not fit in the
/// entry.
pub(crate) fn outside_size(field: &Field) -> u32
    requires { spec.IsField field.now }
    ensures { result ≡ spec.outside_size field.now }
{
    let size = field_size(field);
    if size <= ENTRY_ROOM { 0 } else { size }
}

/// Appends a two-byte number.
fn push_short(bytes: &mut Vec<u8>, number: u16) -> Result<(), AllocError>
    ensures { OnOk result (bytes.new.items ≡ bytes.old.items ++ to_le_bytes w16 number) }
{
    bytes.extend_from_slice(&number.to_le_bytes())
}

/// Appends a four-byte number.
fn push_long(bytes: &mut Vec<u8>, number: u32) -> Result<(), AllocError>
    ensures { OnOk result (bytes.new.items ≡ bytes.old.items ++ to_le_bytes w32 number) }
{
    bytes.extend_from_slice(&number.to_le_bytes())
}

/// Appends a value.
fn push_number(bytes: &mut Vec<u8>, kind: FieldKind, number: u32) -> Result<(), AllocError>
    requires { spec.FitsKind kind number }
    ensures { OnOk result (bytes.new.items ≡ bytes.old.items ++ spec.number_bytes kind number) }
{
    match kind {
        FieldKind::Short => push_short(bytes, number as u16),
        FieldKind::Long => push_long(bytes, number),
    }
}

/// Appends the values of a field.
fn push_values(bytes: &mut Vec<u8>, field: &Field) -> Result<(), AllocError>
    requires { spec.IsField field.now }
    ensures { OnOk result (bytes.new.items ≡ bytes.old.items ++ spec.field_bytes field.now) }
{
    for i in 0..field.count {
        push_number(bytes, field.kind, field.first + field.step * i)?;
    }
    Ok(())
}

/// Appends zeros.
fn push_zeros(bytes: &mut Vec<u8>, count: u32) -> Result<(), AllocError>
    ensures { OnOk result (bytes.new.items ≡ bytes.old.items ++ replicate count 0) }
{
    bytes.resize(bytes.len() + count as usize, 0)
}

/// Appends the last four bytes of an entry: the values if they fit, otherwise their place.
fn push_value_part(bytes: &mut Vec<u8>, field: &Field, place: u32) -> Result<(), AllocError>
    requires { spec.IsField field.now }
    ensures { OnOk result (bytes.new.items
        ≡ bytes.old.items ++ spec.value_part field.now place) }
{
    let size = field_size(field);
    if size > ENTRY_ROOM {
        return push_long(bytes, place);
    }
    push_values(bytes, field)?;
    push_zeros(bytes, ENTRY_ROOM - size)
}

/// Appends the entry of a field. `place` is where its values are, if they do not fit.
#[tactic(auto, unfolding(crate::specs::Field::entry_of))]
fn push_entry(bytes: &mut Vec<u8>, field: &Field, place: u32) -> Result<(), AllocError>
    requires { spec.IsField field.now }
    ensures { OnOk result (bytes.new.items ≡ bytes.old.items ++ spec.entry_of field.now place) }
{
    push_short(bytes, field.tag)?;
    push_short(bytes, field.kind.number())?;
    push_long(bytes, field.count)?;
    push_value_part(bytes, field, place)
}

/// Appends the entries of fields. `place` is where the values that do not fit begin.
fn push_entries(bytes: &mut Vec<u8>, place: u32, fields: &[Field]) -> Result<(), AllocError>
    requires fields { All spec.IsField fields.now }
    requires short { place + spec.all_outside fields.now < 2 ^ 32 }
    ensures { OnOk result (bytes.new.items
        ≡ bytes.old.items ++ spec.entries_of place fields.now) }
{
    let mut at = place;
    for field in fields {
        push_entry(bytes, field, at)?;
        at += outside_size(field);
    }
    Ok(())
}

/// Appends the values of a field, if they do not fit in its entry.
fn push_field_outside(bytes: &mut Vec<u8>, field: &Field) -> Result<(), AllocError>
    requires { spec.IsField field.now }
    ensures { OnOk result (bytes.new.items ≡ bytes.old.items ++ spec.outside_bytes field.now) }
{
    if field_size(field) <= ENTRY_ROOM {
        return Ok(());
    }
    push_values(bytes, field)
}

/// Appends the values of fields that do not fit in their entries.
fn push_outside(bytes: &mut Vec<u8>, fields: &[Field]) -> Result<(), AllocError>
    requires { All spec.IsField fields.now }
    ensures { OnOk result (bytes.new.items
        ≡ bytes.old.items ++ flat_map spec.outside_bytes fields.now) }
{
    for field in fields {
        push_field_outside(bytes, field)?;
    }
    Ok(())
}

/// The bytes of a directory with `count` entries, without values that do not fit.
fn directory_part(count: u32) -> u32
    requires { count < 2 ^ 16 }
    ensures { result ≡ spec.directory_part count }
{
    2 + 12 * count + 4
}

/// The bytes of a directory, including the values that do not fit.
pub(crate) fn directory_size(fields: &[Field]) -> u32
    requires fields { All spec.IsField fields.now }
    requires few { length fields.now < 2 ^ 16 }
    requires short { spec.directory_size fields.now < 2 ^ 32 }
    ensures { result ≡ spec.directory_size fields.now }
{
    let mut size = directory_part(fields.len() as u32);
    for field in fields {
        size += outside_size(field);
    }
    size
}

/// Appends the directory of these fields, which begins at `at`, and the values that do not fit.
#[tactic(auto, unfolding(crate::specs::Field::directory_bytes))]
pub(crate) fn push_directory(
    bytes: &mut Vec<u8>,
    at: u32,
    next: u32,
    fields: &[Field],
) -> Result<(), AllocError>
    requires fields { All spec.IsField fields.now }
    requires few { length fields.now < 2 ^ 16 }
    requires short { at + spec.directory_size fields.now < 2 ^ 32 }
    ensures { OnOk result (bytes.new.items
        ≡ bytes.old.items ++ spec.directory_bytes at next fields.now) }
{
    let count = fields.len() as u32;
    push_short(bytes, count as u16)?;
    push_entries(bytes, at + directory_part(count), fields)?;
    push_long(bytes, next)?;
    push_outside(bytes, fields)
}
