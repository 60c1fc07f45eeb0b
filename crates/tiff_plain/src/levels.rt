//! Finds the levels of a file, and its first fault.

ghost use Rattle.std.specs.Prelude.{◌≡◌, ◌≤◌, ◌+◌, None, false, not, map};
ghost use Rattle.std.specs.Option.{option_map_or};
ghost use Rattle.std.specs.List.{range_with_len};
ghost use Rattle.tiff_format.specs.Directory as directory;
ghost use Rattle.tiff_format.specs.DirectoryFault as fault;
ghost use Rattle.tiff_format.specs.Fault as file;
ghost use Rattle.tiff_format.specs.Form as form;
ghost use Rattle.tiff_format.specs.Level as spec;

use crate::directories::{directory_place, next_directory};
use crate::faults::{data_fault, directory_fault, first_of};
use crate::form::{form_of, header_bytes};
use crate::numbers::{has_wide_offsets, is_big, is_marked, number_at, version};
use crate::shape::{has_half_size, has_samples_of, is_single, shape_at};
use tiff_format::{Form, TiffFault};

/// The most levels of a file.
const MAX_LEVELS: u32 = 18;

/// The version of a TIFF file.
const TIFF_VERSION: u64 = 42;

/// The bytes of the shortest header.
const LEAST_BYTES: usize = 8;

/// The place of directory k; 0 if none exists.
pub fn level_place(bytes: &[u8], k: u32) -> u64
    ensures value { result ≡ spec.level_place bytes.now k }
{
    directory_place(form_of(bytes), bytes, k).unwrap_or(0)
}

/// Whether the directory at `next` is the half-size image of the one at `at`, with the same samples
/// as the one at `first`.
#[tactic(auto, unfolding(tiff_format::specs::Level::is_next_level))]
fn is_next_level(form: Form, bytes: &[u8], first: u64, at: u64, next: u64) -> bool
    ensures { result ≡ spec.is_next_level form bytes.now first at next }
{
    let last = shape_at(form, bytes, at);
    if is_single(last) || directory_fault(form, bytes, next).is_some() {
        return false;
    }
    let shape = shape_at(form, bytes, next);
    has_half_size(last, shape) && has_samples_of(shape_at(form, bytes, first), shape)
}

/// Whether directory k is followed by one that is the next level.
fn has_next_level(bytes: &[u8], k: u32) -> bool
    ensures { result ≡ (let form = form.form_of bytes.now in
        let at = spec.level_place bytes.now k in
        option_map_or (spec.is_next_level form bytes.now (spec.level_place bytes.now 0) at)
        (directory.next_directory form bytes.now at) false) }
{
    let form = form_of(bytes);
    let at = level_place(bytes, k);
    match next_directory(form, bytes, at) {
        Some(next) => is_next_level(form, bytes, level_place(bytes, 0), at, next),
        None => false,
    }
}

/// Whether directory k is level k.
#[tactic(auto, unfolding(tiff_format::specs::Level::is_level))]
pub fn is_level(bytes: &[u8], k: u32) -> bool
    ensures value { result ≡ spec.is_level bytes.now k }
{
    k == 0 || (is_level(bytes, k - 1) && has_next_level(bytes, k - 1))
}

/// How many of n directories, from directory k on, are levels before the first that is not.
fn leading_levels(bytes: &[u8], k: u32, n: u32) -> u32
    requires { k + n ≤ spec.max_levels }
    ensures value { result ≡ spec.leading (spec.is_level bytes.now) k n }
    ensures bound { result ≤ n }
{
    if n == 0 || !is_level(bytes, k) {
        0
    } else {
        1 + leading_levels(bytes, k + 1, n - 1)
    }
}

/// The number of levels that the file stores.
#[tactic(auto, unfolding(tiff_format::specs::Level::stored_levels))]
pub fn stored_levels(bytes: &[u8]) -> u32
    ensures value { result ≡ spec.stored_levels bytes.now }
    ensures few { result ≤ spec.max_levels }
{
    leading_levels(bytes, 0, MAX_LEVELS)
}

/// Whether the directory after the last level is not a level.
pub fn is_whole_chain(bytes: &[u8]) -> bool
    ensures value { result ≡ not (spec.is_level bytes.now (spec.stored_levels bytes.now)) }
{
    !is_level(bytes, stored_levels(bytes))
}

/// Whether the header is incomplete.
fn is_short(bytes: &[u8]) -> bool
    ensures { result ≡ file.is_short bytes.now }
{
    bytes.len() < LEAST_BYTES
        || (is_marked(bytes) && bytes.len() < header_bytes(form_of(bytes)) as usize)
}

/// Whether the version is one that is read.
fn has_version(bytes: &[u8]) -> bool
    ensures { result ≡ file.has_version bytes.now }
{
    let big = is_big(bytes);
    version(bytes) == TIFF_VERSION
        || (has_wide_offsets(bytes)
            && number_at(big, 2, bytes, 4) == 8
            && number_at(big, 2, bytes, 6) == 0)
}

/// The fault of the header: incomplete, no valid mark, or another version.
#[tactic(auto, unfolding(tiff_format::specs::Fault::header_fault))]
pub fn header_fault(bytes: &[u8]) -> Option<TiffFault>
    ensures value { result ≡ file.header_fault bytes.now }
{
    first_of(&[
        is_short(bytes).then_some(TiffFault::Short),
        (!is_marked(bytes)).then_some(TiffFault::BadMark),
        (!has_version(bytes)).then_some(TiffFault::BadVersion),
    ])
}

/// The first fault of the blocks of n levels, from level k on.
fn first_data_fault(bytes: &[u8], k: u32, n: u32) -> Option<TiffFault>
    requires good { fault.directory_fault (form.form_of bytes.now) bytes.now
        (spec.level_place bytes.now 0) ≡ None }
    requires stored { k + n ≤ spec.stored_levels bytes.now }
    requires few { k + n ≤ spec.max_levels }
    ensures { result ≡ fault.first_of
        (map (λ k. fault.data_fault (form.form_of bytes.now) bytes.now k
        (spec.directory_level bytes.now k)) (range_with_len k n)) }
{
    if n == 0 {
        None
    } else {
        let fault = data_fault(form_of(bytes), bytes, k, level_place(bytes, k));
        fault.or(first_data_fault(bytes, k + 1, n - 1))
    }
}

/// The first block that does not lie in the file, level 0 first.
#[tactic(auto, unfolding(tiff_format::specs::Fault::data_faults))]
fn data_faults(bytes: &[u8]) -> Option<TiffFault>
    requires { fault.directory_fault (form.form_of bytes.now) bytes.now
        (spec.level_place bytes.now 0) ≡ None }
    ensures { result ≡ file.data_faults bytes.now }
{
    first_data_fault(bytes, 0, stored_levels(bytes))
}

/// The first fault of a file; `None` if it is valid. Levels are looked for only if the header and
/// the first directory are valid.
#[tactic(auto, unfolding(tiff_format::specs::Fault::first_fault))]
pub fn first_fault(bytes: &[u8]) -> Option<TiffFault>
    ensures value { result ≡ file.first_fault bytes.now }
{
    if let Some(fault) = header_fault(bytes) {
        return Some(fault);
    }
    if let Some(fault) = directory_fault(form_of(bytes), bytes, level_place(bytes, 0)) {
        return Some(fault);
    }
    data_faults(bytes)
}
