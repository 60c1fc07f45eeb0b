//! The shape of a level: everything except the offsets of its blocks.

ghost use Rattle.std.specs.Prelude.{◌≡◌, ◌≤◌, ◌-◌, ◌*◌, ◌%◌, min};
ghost use Rattle.tiff_format.specs.Block as spec;
ghost use Rattle.tiff_format.specs.Facts.{IsSide, IsLevelShape};
ghost use Rattle.tiff_format.specs.Limits.{max_side, max_channels};
ghost use Rattle.tiff_format.specs.Level as level;
ghost use Rattle.tiff_plain.specs.PlainLevel.{shown_shape};

use crate::fields::{ALL_ROWS, field_value, has_field};
use crate::tags::{
    BITS_PER_SAMPLE, IMAGE_LENGTH, IMAGE_WIDTH, PHOTOMETRIC, PLANAR_CONFIGURATION, ROWS_PER_STRIP,
    SAMPLES_PER_PIXEL, STRIP_OFFSETS, TILE_LENGTH, TILE_OFFSETS, TILE_WIDTH,
};
use tiff_format::Form;

/// The fields that say where a level's samples are, except the offsets.
#[derive(Clone, Copy, Debug, PartialEq, Eq)]
pub struct PlainShape {
    pub width: u64,
    pub height: u64,
    pub channels: u64,
    /// 1 if the samples of a pixel are stored together, otherwise one per channel.
    pub planes: u64,
    /// The bits per sample.
    pub depth: u64,
    /// Whether the photometric interpretation is WhiteIsZero.
    pub white: bool,
    /// Whether the photometric interpretation is RGB.
    pub rgb: bool,
    /// The width and height of a tile, if it is tiled.
    pub tile: Option<(u64, u64)>,
    /// RowsPerStrip; 2^32 - 1 if it is tiled.
    pub rows_per_strip: u64,
}

// ---- directories

/// Whether the directory is tiled.
pub fn is_tiled(form: Form, bytes: &[u8], at: u64) -> bool
    ensures value { result ≡ spec.is_tiled form bytes.now at }
{
    has_field(form, bytes, at, TILE_WIDTH)
}

/// The width and height of its tiles, if it is tiled.
fn tile_of(form: Form, bytes: &[u8], at: u64) -> Option<(u64, u64)>
    ensures { result ≡ spec.tile_of form bytes.now at }
{
    if is_tiled(form, bytes, at) {
        Some((
            field_value(form, bytes, at, TILE_WIDTH),
            field_value(form, bytes, at, TILE_LENGTH),
        ))
    } else {
        None
    }
}

/// The tag of the field with the offsets of its blocks.
pub fn offsets_tag(form: Form, bytes: &[u8], at: u64) -> u32
    ensures { result ≡ spec.offsets_tag form bytes.now at }
{
    if is_tiled(form, bytes, at) {
        TILE_OFFSETS
    } else {
        STRIP_OFFSETS
    }
}

/// The rows per strip; all rows if the file says more.
fn strip_rows(form: Form, bytes: &[u8], at: u64) -> u64
    ensures { result ≡ spec.strip_rows form bytes.now at }
{
    if is_tiled(form, bytes, at) {
        ALL_ROWS
    } else {
        ALL_ROWS.min(field_value(form, bytes, at, ROWS_PER_STRIP))
    }
}

/// The number of its planes.
fn planes_at(form: Form, bytes: &[u8], at: u64) -> u64
    ensures { result ≡ spec.planes_at form bytes.now at }
{
    if field_value(form, bytes, at, PLANAR_CONFIGURATION) == 2 {
        field_value(form, bytes, at, SAMPLES_PER_PIXEL)
    } else {
        1
    }
}

/// The shape of the directory at a place.
pub fn shape_at(form: Form, bytes: &[u8], at: u64) -> PlainShape
    ensures value { shown_shape result ≡ spec.shape_at form bytes.now at }
{
    PlainShape {
        width: field_value(form, bytes, at, IMAGE_WIDTH),
        height: field_value(form, bytes, at, IMAGE_LENGTH),
        channels: field_value(form, bytes, at, SAMPLES_PER_PIXEL),
        planes: planes_at(form, bytes, at),
        depth: field_value(form, bytes, at, BITS_PER_SAMPLE),
        white: field_value(form, bytes, at, PHOTOMETRIC) == 0,
        rgb: field_value(form, bytes, at, PHOTOMETRIC) == 2,
        tile: tile_of(form, bytes, at),
        rows_per_strip: strip_rows(form, bytes, at),
    }
}

// ---- blocks

/// The number of pieces of this length that cover a side.
pub fn pieces_over(side: u64, piece: u64) -> u64
    requires side { IsSide side }
    requires piece { 1 ≤ piece }
    ensures value { result ≡ spec.pieces_over side piece }
    ensures some { 1 ≤ result }
    ensures fits { result ≤ max_side }
{
    let pieces = (u128::from(side) + u128::from(piece) - 1) / u128::from(piece);
    pieces as u64
}

/// The number of blocks of a level.
pub fn blocks_of(shape: PlainShape) -> u64
    requires { IsLevelShape (shown_shape shape) }
    ensures value { result ≡ spec.blocks_of (shown_shape shape) }
{
    shape.planes * plane_blocks(shape)
}

/// The number of blocks of a plane.
pub fn plane_blocks(shape: PlainShape) -> u64
    requires { IsLevelShape (shown_shape shape) }
    ensures value { result ≡ spec.plane_blocks (shown_shape shape) }
    ensures fits { result ≤ max_side * max_side }
{
    match shape.tile {
        Some((tile_width, tile_height)) => {
            pieces_over(shape.width, tile_width) * pieces_over(shape.height, tile_height)
        }
        None => pieces_over(shape.height, shape.rows_per_strip),
    }
}

/// The number of blocks of the directory at a place.
pub fn blocks_at(form: Form, bytes: &[u8], at: u64) -> u64
    requires { IsLevelShape (spec.shape_at form bytes.now at) }
    ensures { result ≡ spec.blocks_of (spec.shape_at form bytes.now at) }
{
    blocks_of(shape_at(form, bytes, at))
}

/// The bytes of a sample.
pub fn sample_bytes(depth: u64) -> u32
    ensures value { result ≡ spec.sample_bytes depth }
    ensures small { result ≤ 2 }
{
    if depth == 8 { 1 } else { 2 }
}

/// The number of samples of a texel that are stored together.
pub fn samples_aside(shape: PlainShape) -> u64
    requires { IsLevelShape (shown_shape shape) }
    ensures value { result ≡ spec.samples_aside (shown_shape shape) }
    ensures fits { result ≤ max_channels }
{
    if shape.planes == 1 { shape.channels } else { 1 }
}

/// The bytes of those samples of a texel that are stored together.
fn texel_bytes(shape: PlainShape) -> u64
    requires { IsLevelShape (shown_shape shape) }
    ensures value { result ≡ spec.texel_bytes (shown_shape shape) }
    ensures fits { result ≤ max_channels * 2 }
{
    samples_aside(shape) * u64::from(sample_bytes(shape.depth))
}

/// The rows of strip i. The last strip of a plane may have fewer.
fn rows_left(shape: PlainShape, i: u64) -> u64
    requires { IsLevelShape (shown_shape shape) }
    ensures value { result ≡ min shape.rows_per_strip (shape.height
        - shape.rows_per_strip * (i % spec.pieces_over shape.height shape.rows_per_strip)) }
    ensures fits { result ≤ max_side }
{
    let strip = i % pieces_over(shape.height, shape.rows_per_strip);
    let before = u128::from(shape.rows_per_strip) * u128::from(strip);
    let left = u128::from(shape.height).saturating_sub(before);
    u128::from(shape.rows_per_strip).min(left) as u64
}

/// The number of texels of block i.
fn block_texels(shape: PlainShape, i: u64) -> u64
    requires { IsLevelShape (shown_shape shape) }
    ensures value { result
        ≡ (let shape = shown_shape shape in spec.block_texels_by shape shape.tile i) }
    ensures fits { result ≤ max_side * max_side }
{
    match shape.tile {
        Some((tile_width, tile_height)) => tile_width * tile_height,
        None => rows_left(shape, i) * shape.width,
    }
}

/// The bytes of block i.
pub fn block_bytes(shape: PlainShape, i: u64) -> u64
    requires { IsLevelShape (shown_shape shape) }
    ensures value { result ≡ spec.block_bytes (shown_shape shape) i }
{
    block_texels(shape, i) * texel_bytes(shape)
}

// ---- two levels

/// Half of a side, rounded down, and at least 1.
fn halved(side: u64) -> u64
    ensures { result ≡ level.halved side }
{
    (side / 2).max(1)
}

/// Whether the level has a single texel.
pub fn is_single(shape: PlainShape) -> bool
    ensures { result ≡ level.is_single (shown_shape shape) }
{
    shape.width == 1 && shape.height == 1
}

/// Whether the second level has half the size of the first.
pub fn has_half_size(last: PlainShape, next: PlainShape) -> bool
    ensures { result ≡ level.has_half_size (shown_shape last) (shown_shape next) }
{
    next.width == halved(last.width) && next.height == halved(last.height)
}

/// Whether both levels have the same channels and depth.
pub fn has_samples_of(first: PlainShape, next: PlainShape) -> bool
    ensures { result ≡ level.has_samples_of (shown_shape first) (shown_shape next) }
{
    next.channels == first.channels && next.depth == first.depth
}
