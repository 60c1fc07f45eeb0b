//! Finds the sample of a texel, and its 16-bit value.

ghost use Rattle.std.specs.Prelude.{◌≡◌, ◌≤◌, ◌<◌, ◌+◌, ◌*◌, ◌%◌, ◌^◌, None, slice_index};
ghost use Rattle.tiff_format.specs.Block as block;
ghost use Rattle.tiff_format.specs.Bytes as number;
ghost use Rattle.tiff_format.specs.Facts.{IsDepth, IsLevelShape};
ghost use Rattle.tiff_format.specs.Fault as fault;
ghost use Rattle.tiff_format.specs.Level as level;
ghost use Rattle.tiff_format.specs.Limits.{max_side};
ghost use Rattle.tiff_format.specs.Texel as spec;
ghost use Rattle.tiff_plain.specs.PlainLevel.{shown_shape};

use crate::form::form_of;
use crate::level::offset_of;
use crate::levels::level_place;
use crate::numbers::{is_big, number_at};
use crate::shape::{PlainShape, pieces_over, plane_blocks, sample_bytes, samples_aside, shape_at};

/// The block of a plane that holds texel (x, y).
fn block_index(shape: PlainShape, x: u32, y: u32) -> u64
    requires { IsLevelShape (shown_shape shape) }
    ensures value { result ≡ spec.block_index (shown_shape shape) x y }
    ensures fits { result < 2 ^ 50 }
{
    match shape.tile {
        Some((tile_width, tile_height)) => {
            let across = pieces_over(shape.width, tile_width);
            u64::from(y) / tile_height * across + u64::from(x) / tile_width
        }
        None => u64::from(y) / shape.rows_per_strip,
    }
}

/// The block that holds the sample of channel c of texel (x, y).
fn block_of_sample(shape: PlainShape, x: u32, y: u32, c: u32) -> u128
    requires { IsLevelShape (shown_shape shape) }
    ensures { result ≡ spec.plane_of (shown_shape shape) c
        * block.plane_blocks (shown_shape shape) + spec.block_index (shown_shape shape) x y }
{
    let plane = if shape.planes == 1 { 0 } else { c };
    u128::from(plane) * u128::from(plane_blocks(shape)) + u128::from(block_index(shape, x, y))
}

/// The place of a column in a row, if rows have this width.
fn place_in_rows(row: u32, width: u64, column: u32) -> u64
    requires { width ≤ max_side }
    ensures value { result ≡ row * width + column }
    ensures fits { result < 2 ^ 50 }
{
    u64::from(row) * width + u64::from(column)
}

/// The remainder of a number divided by another.
fn remainder(a: u32, b: u64) -> u32
    requires { 1 ≤ b }
    ensures { result ≡ a % b }
{
    (u64::from(a) % b) as u32
}

/// The number of texels before texel (x, y) in its block.
fn texels_before(shape: PlainShape, x: u32, y: u32) -> u64
    requires { IsLevelShape (shown_shape shape) }
    ensures value { result ≡ spec.texels_before (shown_shape shape) x y }
    ensures fits { result < 2 ^ 50 }
{
    match shape.tile {
        Some((tile_width, tile_height)) => {
            place_in_rows(
                remainder(y, tile_height),
                tile_width,
                remainder(x, tile_width),
            )
        }
        None => place_in_rows(remainder(y, shape.rows_per_strip), shape.width, x),
    }
}

/// The place, in its block, of the sample of channel c of texel (x, y).
fn place_in_block(shape: PlainShape, x: u32, y: u32, c: u32) -> u128
    requires { IsLevelShape (shown_shape shape) }
    ensures value { result ≡ (spec.texels_before (shown_shape shape) x y
        * block.samples_aside (shown_shape shape) + spec.samples_before (shown_shape shape) c)
        * block.sample_bytes shape.depth }
    ensures fits { result < 2 ^ 100 }
{
    let before = if shape.planes == 1 { c } else { 0 };
    (u128::from(texels_before(shape, x, y)) * u128::from(samples_aside(shape)) + u128::from(before))
        * u128::from(sample_bytes(shape.depth))
}

/// The greatest sample of a depth.
fn greatest_sample(depth: u64) -> u32
    requires { IsDepth depth }
    ensures { result ≡ spec.greatest_sample depth }
{
    if depth == 8 {
        u32::from(u8::MAX)
    } else {
        u32::from(u16::MAX)
    }
}

/// The sample for a stored number: inverted if the level is WhiteIsZero.
fn unwhite(is_white: bool, depth: u64, stored: u32) -> u32
    requires depth { IsDepth depth }
    requires stored { stored < 2 ^ depth }
    ensures value { result ≡ spec.unwhite is_white depth stored }
    ensures fits { result < 2 ^ depth }
{
    if is_white {
        greatest_sample(depth) - stored
    } else {
        stored
    }
}

/// The shape of stored level l of a valid file.
#[tactic(auto, unfolding(tiff_format::specs::Level::directory_level, tiff_format::specs::Block::level_at))]
fn stored_shape(bytes: &[u8], l: u32) -> PlainShape
    requires good { fault.first_fault bytes.now ≡ None }
    requires stored { l < level.stored_levels bytes.now }
    ensures value { shown_shape result ≡ (level.directory_level bytes.now l).shape }
    ensures shape { IsLevelShape (shown_shape result) }
{
    shape_at(form_of(bytes), bytes, level_place(bytes, l))
}

/// The offset of block i of level l.
#[tactic(auto, unfolding(tiff_format::specs::Level::directory_level))]
fn stored_offset(bytes: &[u8], l: u32, i: u128) -> u64
    requires good { fault.first_fault bytes.now ≡ None }
    requires stored { l < level.stored_levels bytes.now }
    ensures { result ≡ slice_index (level.directory_level bytes.now l).offsets i }
{
    offset_of(form_of(bytes), bytes, level_place(bytes, l), i)
}

/// The place of the sample of channel c of texel (x, y) in stored level l of a valid file.
#[tactic(auto, unfolding(tiff_format::specs::Texel::sample_place))]
fn sample_place(bytes: &[u8], l: u32, x: u32, y: u32, c: u32) -> u128
    requires good { fault.first_fault bytes.now ≡ None }
    requires stored { l < level.stored_levels bytes.now }
    ensures value { result ≡ spec.sample_place (level.directory_level bytes.now l) x y c }
    ensures fits { result < 2 ^ 110 }
{
    let shape = stored_shape(bytes, l);
    let offset = stored_offset(bytes, l, block_of_sample(shape, x, y, c));
    u128::from(offset) + place_in_block(shape, x, y, c)
}

/// The sample stored at a place.
fn number_stored(big: bool, depth: u64, bytes: &[u8], place: u128) -> u32
    requires depth { IsDepth depth }
    requires place { place < 2 ^ 110 }
    ensures value { result ≡ number.number_at big (block.sample_bytes depth) bytes.now place }
    ensures fits { result < 2 ^ depth }
{
    number_at(big, sample_bytes(depth), bytes, place) as u32
}

/// The sample of channel c of texel (x, y) in stored level l of a valid file.
#[tactic(auto, unfolding(tiff_format::specs::Texel::sample_in))]
pub fn sample_at(bytes: &[u8], l: u32, x: u32, y: u32, c: u32) -> u32
    requires good { fault.first_fault bytes.now ≡ None }
    requires stored { l < level.stored_levels bytes.now }
    ensures value { result ≡ spec.sample_at bytes.now l x y c }
    ensures fits { result < 2 ^ (level.directory_level bytes.now l).shape.depth }
{
    let shape = stored_shape(bytes, l);
    let place = sample_place(bytes, l, x, y, c);
    let stored = number_stored(is_big(bytes), shape.depth, bytes, place);
    unwhite(shape.white && c == 0, shape.depth, stored)
}

/// The 16-bit value of a sample. An 8-bit sample v becomes 257 * v.
fn value_of(depth: u64, sample: u32) -> u16
    requires depth { IsDepth depth }
    requires sample { sample < 2 ^ depth }
    ensures { result ≡ spec.value_of depth sample }
{
    if depth == 8 {
        (257 * sample) as u16
    } else {
        sample as u16
    }
}

/// The 16-bit value of channel c of texel (x, y) in stored level l of a valid file.
pub fn value_at(bytes: &[u8], l: u32, x: u32, y: u32, c: u32) -> u16
    requires good { fault.first_fault bytes.now ≡ None }
    requires stored { l < level.stored_levels bytes.now }
    ensures value { result
        ≡ spec.value_of (level.directory_level bytes.now l).shape.depth
        (spec.sample_at bytes.now l x y c) }
{
    let depth = stored_shape(bytes, l).depth;
    value_of(depth, sample_at(bytes, l, x, y, c))
}
