//! Finds the directories of a file.

ghost use Rattle.std.specs.Prelude.{◌≡◌, ◌<◌, ◌^◌};
ghost use Rattle.tiff_format.specs.Directory as spec;

use crate::form::{count_bytes, entry_bytes, first_place, header_bytes, offset_at, offset_bytes};
use crate::numbers::number_at;
use tiff_format::Form;

/// The number of entries in the directory at a place.
pub fn entry_count(form: Form, bytes: &[u8], at: u64) -> u64
    ensures { result ≡ spec.entry_count form bytes.now at }
{
    number_at(form.big, count_bytes(form), bytes, u128::from(at))
}

/// The place of its entry i.
pub fn entry_place(form: Form, at: u64, i: u64) -> u128
    ensures value { result ≡ spec.entry_place form at i }
    ensures fits { result < 2 ^ 100 }
{
    u128::from(at) + u128::from(count_bytes(form)) + u128::from(entry_bytes(form)) * u128::from(i)
}

/// The place of its offset of the next directory.
fn next_place(form: Form, bytes: &[u8], at: u64) -> u128
    ensures value { result ≡ spec.next_place form bytes.now at }
    ensures fits { result < 2 ^ 100 }
{
    entry_place(form, at, entry_count(form, bytes, at))
}

/// Whether the directory lies in the file, after the header.
#[tactic(auto, unfolding(tiff_format::specs::Directory::lies_inside))]
pub fn lies_inside(form: Form, bytes: &[u8], at: u64) -> bool
    ensures value { result ≡ spec.lies_inside form bytes.now at }
{
    let end = next_place(form, bytes, at) + u128::from(offset_bytes(form));
    u64::from(header_bytes(form)) <= at && end <= bytes.len() as u128
}

/// The place of the directory after the one at a place.
#[tactic(auto, unfolding(tiff_format::specs::Directory::next_directory))]
pub fn next_directory(form: Form, bytes: &[u8], at: u64) -> Option<u64>
    ensures value { result ≡ spec.next_directory form bytes.now at }
{
    if !lies_inside(form, bytes, at) {
        return None;
    }
    let next = offset_at(form, bytes, next_place(form, bytes, at));
    if next == 0 { None } else { Some(next) }
}

/// The place of directory k.
#[tactic(auto, unfolding(tiff_format::specs::Directory::directory_place))]
pub fn directory_place(form: Form, bytes: &[u8], k: u32) -> Option<u64>
    ensures value { result ≡ spec.directory_place form bytes.now k }
{
    if k == 0 {
        return Some(first_place(form, bytes));
    }
    match directory_place(form, bytes, k - 1) {
        Some(at) => next_directory(form, bytes, at),
        None => None,
    }
}
