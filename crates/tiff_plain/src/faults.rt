//! Finds the first fault of a directory, and the first block of a level that does not lie in the
//! file.

ghost use Rattle.std.specs.Prelude.{◌≡◌, ◌==◌, ◌||◌, not, take, find};
ghost use Rattle.std.specs.List.{range_with_len};
ghost use Rattle.tiff_format.specs.Block as block;
ghost use Rattle.tiff_format.specs.DirectoryFault as spec;
ghost use Rattle.tiff_format.specs.Facts.{IsLevelShape};
ghost use Rattle.tiff_format.specs.Field as field;
ghost use Rattle.tiff_format.specs.Tag.{bits_per_sample_tag, sample_format_tag};
ghost use Rattle.tiff_plain.specs.Fault.{fields_fault};

use crate::directories::lies_inside;
use crate::fields::{field_length, field_number, field_place, field_value, has_field, has_shape};
use crate::form::header_bytes;
use crate::level::offset_of;
use crate::shape::{block_bytes, blocks_at, is_tiled, offsets_tag, shape_at};
use crate::tags::{
    BITS_PER_SAMPLE, COMPRESSION, IMAGE_LENGTH, IMAGE_WIDTH, PHOTOMETRIC, PLANAR_CONFIGURATION,
    ROWS_PER_STRIP, SAMPLE_FORMAT, SAMPLES_PER_PIXEL, STRIP_OFFSETS, TILE_LENGTH, TILE_OFFSETS,
    TILE_WIDTH,
};
use tiff_format::{Form, TiffFault};

/// The greatest side of an image or a tile.
const MAX_SIDE: u64 = 131_072;

/// The most samples per pixel.
const MAX_CHANNELS: u64 = 8;

/// The sides of a tile are multiples of this.
const TILE_STEP: u64 = 16;

/// The first fault in a list.
pub fn first_of(faults: &[Option<TiffFault>]) -> Option<TiffFault>
    ensures { result ≡ spec.first_of faults.now }
{
    match faults {
        [] => None,
        [fault, others @ ..] => fault.or(first_of(others)),
    }
}

#[tactic(auto, unfolding(tiff_format::specs::DirectoryFault::outside_fault))]
fn outside_fault(form: Form, bytes: &[u8], at: u64) -> Option<TiffFault>
    ensures { result ≡ spec.outside_fault form bytes.now at }
{
    (!lies_inside(form, bytes, at)).then_some(TiffFault::DirOutside)
}

/// The fields that a directory must have.
fn required_tags(form: Form, bytes: &[u8], at: u64) -> &'static [u32]
    ensures { result.now ≡ spec.required_tags form bytes.now at }
{
    if is_tiled(form, bytes, at) {
        &[IMAGE_WIDTH, IMAGE_LENGTH, TILE_LENGTH, TILE_OFFSETS]
    } else {
        &[IMAGE_WIDTH, IMAGE_LENGTH, STRIP_OFFSETS]
    }
}

/// The first of these fields that is missing.
fn first_absent(form: Form, bytes: &[u8], at: u64, tags: &[u32]) -> Option<u32>
    ensures { result ≡ find (λ tag. not (field.has_field form bytes.now at tag)) tags.now }
{
    tags.iter()
        .copied()
        .find(|tag| !has_field(form, bytes, at, *tag))
}

#[tactic(auto, unfolding(tiff_format::specs::DirectoryFault::missing_fault))]
fn missing_fault(form: Form, bytes: &[u8], at: u64) -> Option<TiffFault>
    ensures { result ≡ spec.missing_fault form bytes.now at }
{
    match first_absent(form, bytes, at, required_tags(form, bytes, at)) {
        Some(tag) => Some(TiffFault::FieldMissing { tag }),
        None => None,
    }
}

/// The fields that are read in a directory, by their tags.
fn read_tags(form: Form, bytes: &[u8], at: u64) -> &'static [u32]
    ensures { result.now ≡ spec.read_tags form bytes.now at }
{
    if is_tiled(form, bytes, at) {
        &[
            IMAGE_WIDTH,
            IMAGE_LENGTH,
            BITS_PER_SAMPLE,
            COMPRESSION,
            PHOTOMETRIC,
            SAMPLES_PER_PIXEL,
            PLANAR_CONFIGURATION,
            TILE_WIDTH,
            TILE_LENGTH,
            TILE_OFFSETS,
            SAMPLE_FORMAT,
        ]
    } else {
        &[
            IMAGE_WIDTH,
            IMAGE_LENGTH,
            BITS_PER_SAMPLE,
            COMPRESSION,
            PHOTOMETRIC,
            STRIP_OFFSETS,
            SAMPLES_PER_PIXEL,
            ROWS_PER_STRIP,
            PLANAR_CONFIGURATION,
            SAMPLE_FORMAT,
        ]
    }
}

/// Whether the field is there but cannot be read.
fn is_misshapen(form: Form, bytes: &[u8], at: u64, tag: u32) -> bool
    ensures { result ≡ spec.is_misshapen form bytes.now at tag }
{
    match field_place(form, bytes, at, tag) {
        Some(place) => !has_shape(form, bytes, place),
        None => false,
    }
}

/// The first of these fields that is there but cannot be read.
fn first_misshapen(form: Form, bytes: &[u8], at: u64, tags: &[u32]) -> Option<u32>
    ensures { result ≡ find (spec.is_misshapen form bytes.now at) tags.now }
{
    tags.iter()
        .copied()
        .find(|tag| is_misshapen(form, bytes, at, *tag))
}

#[tactic(auto, unfolding(tiff_format::specs::DirectoryFault::shape_fault))]
fn shape_fault(form: Form, bytes: &[u8], at: u64) -> Option<TiffFault>
    ensures { result ≡ spec.shape_fault form bytes.now at }
{
    match first_misshapen(form, bytes, at, read_tags(form, bytes, at)) {
        Some(tag) => Some(TiffFault::FieldShape { tag }),
        None => None,
    }
}

/// The first BitsPerSample of a pixel's samples that differs from `bits`.
fn first_other_bits(form: Form, bytes: &[u8], at: u64, bits: u64) -> Option<u64>
    ensures { result ≡ find (λ v. not (v == bits)) (take (spec.samples form bytes.now at)
        (field.field_values form bytes.now at bits_per_sample_tag)) }
{
    let samples = field_value(form, bytes, at, SAMPLES_PER_PIXEL);
    let count = samples.min(field_length(form, bytes, at, BITS_PER_SAMPLE));
    for i in 0..count {
        let value = field_number(form, bytes, at, BITS_PER_SAMPLE, u128::from(i));
        if value != bits {
            return Some(value);
        }
    }
    None
}

fn bits_fault(form: Form, bytes: &[u8], at: u64) -> Option<TiffFault>
    ensures { result ≡ spec.bits_fault form bytes.now at }
{
    let bits = field_value(form, bytes, at, BITS_PER_SAMPLE);
    let wrong = if bits == 8 || bits == 16 {
        first_other_bits(form, bytes, at, bits)
    } else {
        Some(bits)
    };
    match wrong {
        Some(value) => Some(TiffFault::Unsupported {
            tag: BITS_PER_SAMPLE,
            value,
        }),
        None => None,
    }
}

fn compression_fault(form: Form, bytes: &[u8], at: u64) -> Option<TiffFault>
    ensures { result ≡ spec.compression_fault form bytes.now at }
{
    let value = field_value(form, bytes, at, COMPRESSION);
    (value != 1).then_some(TiffFault::Unsupported {
        tag: COMPRESSION,
        value,
    })
}

fn photometric_fault(form: Form, bytes: &[u8], at: u64) -> Option<TiffFault>
    ensures { result ≡ spec.photometric_fault form bytes.now at }
{
    let value = field_value(form, bytes, at, PHOTOMETRIC);
    (value > 2).then_some(TiffFault::Unsupported {
        tag: PHOTOMETRIC,
        value,
    })
}

fn planar_fault(form: Form, bytes: &[u8], at: u64) -> Option<TiffFault>
    ensures { result ≡ spec.planar_fault form bytes.now at }
{
    let value = field_value(form, bytes, at, PLANAR_CONFIGURATION);
    (value != 1 && value != 2).then_some(TiffFault::Unsupported {
        tag: PLANAR_CONFIGURATION,
        value,
    })
}

/// The first SampleFormat of a pixel's samples that is neither 1 nor 4.
fn first_other_format(form: Form, bytes: &[u8], at: u64) -> Option<u64>
    ensures { result ≡ find (λ v. not ((v == 1) || (v == 4))) (take (spec.samples form bytes.now at)
        (field.field_values form bytes.now at sample_format_tag)) }
{
    let samples = field_value(form, bytes, at, SAMPLES_PER_PIXEL);
    let count = samples.min(field_length(form, bytes, at, SAMPLE_FORMAT));
    for i in 0..count {
        let value = field_number(form, bytes, at, SAMPLE_FORMAT, u128::from(i));
        if value != 1 && value != 4 {
            return Some(value);
        }
    }
    None
}

fn format_fault(form: Form, bytes: &[u8], at: u64) -> Option<TiffFault>
    ensures { result ≡ spec.format_fault form bytes.now at }
{
    match first_other_format(form, bytes, at) {
        Some(value) => Some(TiffFault::Unsupported {
            tag: SAMPLE_FORMAT,
            value,
        }),
        None => None,
    }
}

#[tactic(auto, unfolding(tiff_format::specs::DirectoryFault::unsupported_fault))]
fn unsupported_fault(form: Form, bytes: &[u8], at: u64) -> Option<TiffFault>
    ensures { result ≡ spec.unsupported_fault form bytes.now at }
{
    first_of(&[
        bits_fault(form, bytes, at),
        compression_fault(form, bytes, at),
        photometric_fault(form, bytes, at),
        planar_fault(form, bytes, at),
        format_fault(form, bytes, at),
    ])
}

#[tactic(auto, unfolding(tiff_format::specs::DirectoryFault::zero_fault))]
fn zero_fault(form: Form, bytes: &[u8], at: u64) -> Option<TiffFault>
    ensures { result ≡ spec.zero_fault form bytes.now at }
{
    let is_zero = field_value(form, bytes, at, IMAGE_WIDTH) == 0
        || field_value(form, bytes, at, IMAGE_LENGTH) == 0
        || field_value(form, bytes, at, SAMPLES_PER_PIXEL) == 0
        || (!is_tiled(form, bytes, at) && field_value(form, bytes, at, ROWS_PER_STRIP) == 0);
    is_zero.then_some(TiffFault::ZeroSize)
}

#[tactic(auto, unfolding(tiff_format::specs::DirectoryFault::large_fault))]
fn large_fault(form: Form, bytes: &[u8], at: u64) -> Option<TiffFault>
    ensures { result ≡ spec.large_fault form bytes.now at }
{
    let is_large = field_value(form, bytes, at, IMAGE_WIDTH) > MAX_SIDE
        || field_value(form, bytes, at, IMAGE_LENGTH) > MAX_SIDE
        || field_value(form, bytes, at, SAMPLES_PER_PIXEL) > MAX_CHANNELS;
    is_large.then_some(TiffFault::TooLarge)
}

/// Whether a tile may have this side.
fn is_tile_side(side: u64) -> bool
    ensures { result ≡ spec.is_tile_side side }
{
    0 < side && side <= MAX_SIDE && side % TILE_STEP == 0
}

#[tactic(auto, unfolding(tiff_format::specs::DirectoryFault::tile_fault))]
fn tile_fault(form: Form, bytes: &[u8], at: u64) -> Option<TiffFault>
    ensures { result ≡ spec.tile_fault form bytes.now at }
{
    let fits = is_tile_side(field_value(form, bytes, at, TILE_WIDTH))
        && is_tile_side(field_value(form, bytes, at, TILE_LENGTH));
    (is_tiled(form, bytes, at) && !fits).then_some(TiffFault::TileShape)
}

#[tactic(auto, unfolding(tiff_format::specs::DirectoryFault::count_fault))]
fn count_fault(form: Form, bytes: &[u8], at: u64) -> Option<TiffFault>
    requires { IsLevelShape (block.shape_at form bytes.now at) }
    ensures { result ≡ spec.count_fault form bytes.now at }
{
    let count = field_length(form, bytes, at, offsets_tag(form, bytes, at));
    (count < blocks_at(form, bytes, at)).then_some(TiffFault::OffsetCount)
}

/// The first fault of a directory's fields, except too few offsets.
fn fields_fault(form: Form, bytes: &[u8], at: u64) -> Option<TiffFault>
    ensures { result ≡ fields_fault form bytes.now at }
{
    first_of(&[
        missing_fault(form, bytes, at),
        shape_fault(form, bytes, at),
        unsupported_fault(form, bytes, at),
        zero_fault(form, bytes, at),
        large_fault(form, bytes, at),
        tile_fault(form, bytes, at),
    ])
}

/// The first fault of the directory at a place. If it does not lie in the file, nothing else is
/// checked; if its fields have a fault, its blocks are not counted.
pub fn directory_fault(form: Form, bytes: &[u8], at: u64) -> Option<TiffFault>
    ensures value { result ≡ spec.directory_fault form bytes.now at }
{
    if let Some(fault) = outside_fault(form, bytes, at) {
        return Some(fault);
    }
    if let Some(fault) = fields_fault(form, bytes, at) {
        return Some(fault);
    }
    count_fault(form, bytes, at)
}

/// Whether block i of the level at a place lies in the file, after the header.
#[tactic(auto, unfolding(tiff_format::specs::Block::level_at))]
fn block_inside(form: Form, bytes: &[u8], at: u64, i: u64) -> bool
    requires { IsLevelShape (block.shape_at form bytes.now at) }
    ensures { result ≡ spec.block_inside form bytes.now (block.level_at form bytes.now at) i }
{
    let offset = offset_of(form, bytes, at, u128::from(i));
    let end = u128::from(offset) + u128::from(block_bytes(shape_at(form, bytes, at), i));
    u64::from(header_bytes(form)) <= offset && end <= bytes.len() as u128
}

/// The first block of the level at a place that does not lie in the file.
fn first_outside(form: Form, bytes: &[u8], at: u64) -> Option<u32>
    requires { IsLevelShape (block.shape_at form bytes.now at) }
    ensures { result ≡ (let level = block.level_at form bytes.now at in
        find (λ i. not (spec.block_inside form bytes.now level i))
        (range_with_len 0 (block.blocks_of level.shape))) }
{
    for i in 0..blocks_at(form, bytes, at) {
        if !block_inside(form, bytes, at, i) {
            return Some(i as u32);
        }
    }
    None
}

/// The first fault of the blocks of level `number`, whose directory is at a place.
#[tactic(auto, unfolding(tiff_format::specs::DirectoryFault::data_fault))]
pub fn data_fault(form: Form, bytes: &[u8], number: u32, at: u64) -> Option<TiffFault>
    requires { IsLevelShape (block.shape_at form bytes.now at) }
    ensures value { result
        ≡ spec.data_fault form bytes.now number (block.level_at form bytes.now at) }
{
    match first_outside(form, bytes, at) {
        Some(index) => Some(TiffFault::DataOutside {
            level: number,
            index,
        }),
        None => None,
    }
}
