//! The texture of an image: its tiles, and the fields of its directories.

ghost use Rattle.std.specs.Prelude.{◌≡◌, ◌≤◌, ◌++◌, [], ◌∷◌, OnOk};
ghost use Rattle.tiff_format.specs.Block.{pieces_over};
ghost use Rattle.tiff_format.specs.Facts.{IsSide};
ghost use Rattle.tex_make.specs.Texture as spec;
ghost use Rattle.tex_make.specs.Pyramid.{seen};
ghost use Rattle.tex_make.specs.Side.{IsMadeSide, IsShort};

use crate::field::{Field, FieldKind};
use crate::level::Level;
use crate::picture::{Pyramid, RGB_COLOURS};
use std::alloc::{AllocError, Global};
use tiff_entries::tag::{
    BITS_PER_SAMPLE, COMPRESSION, EXTRA_SAMPLES, IMAGE_LENGTH, IMAGE_WIDTH, NEW_SUBFILE_TYPE,
    PHOTOMETRIC, PLANAR_CONFIGURATION, SAMPLES_PER_PIXEL, TILE_BYTE_COUNTS, TILE_LENGTH,
    TILE_OFFSETS, TILE_WIDTH,
};

/// Compression: none.
const UNCOMPRESSED: u32 = 1;

/// PhotometricInterpretation: the values of BlackIsZero and RGB.
const BLACK_IS_ZERO: u32 = 1;

const RGB: u32 = 2;

/// PlanarConfiguration: the samples of a pixel are stored together.
const CHUNKY: u32 = 1;

/// The texture of an image, with square tiles of a given side in texels.
#[derive(Drop)]
pub(crate) struct Texture<'a> {
    pub(crate) picture: &'a Pyramid,
    pub(crate) side: u32,
    ghost side_in: { IsMadeSide side },
    ghost short: { IsShort (seen picture.now) side },
}

impl<'a> Texture<'a> {
    ghost use Rattle.std.specs.Prelude.{◌*◌, ◌<◌, map};
    ghost use Rattle.tiff_format.specs.Block.{sample_bytes};
    ghost use Rattle.tex_make.specs.Level.{shown};
    ghost use Rattle.tex_make.specs.PlainLevel.{level_at};

    /// A level of the image.
    pub(crate) fn level(&self, level: usize) -> &Level
        requires { level < (seen self.now.picture.now).levels }
        ensures value { shown result.now
            ≡ level_at (map shown self.now.picture.now.levels.items) level }
        ensures depth { result.now.depth ≡ (seen self.now.picture.now).depth }
        ensures channels { result.now.channels ≡ (seen self.now.picture.now).channels }
    {
        &self.picture.levels[level]
    }

    /// The number of tiles across a level.
    pub(crate) fn tiles_across(&self, level: usize) -> u32
        requires { level < (seen self.now.picture.now).levels }
        ensures value { result ≡ spec.tiles_across (seen self.now.picture.now) self.now.side level }
        ensures some { 1 ≤ result }
        ensures few { result ≤ 8192 }
    {
        pieces(self.level(level).width, self.side)
    }

    /// The number of tiles down a level.
    fn tiles_down(&self, level: usize) -> u32
        requires { level < (seen self.now.picture.now).levels }
        ensures value { result ≡ spec.tiles_down (seen self.now.picture.now) self.now.side level }
        ensures some { 1 ≤ result }
        ensures few { result ≤ 8192 }
    {
        pieces(self.level(level).height, self.side)
    }

    /// The number of tiles of a level.
    pub(crate) fn tile_count(&self, level: usize) -> u32
        requires { level < (seen self.now.picture.now).levels }
        ensures value { result ≡ spec.tile_count (seen self.now.picture.now) self.now.side level }
    {
        self.tiles_across(level) * self.tiles_down(level)
    }

    /// The bytes of a row of a tile.
    pub(crate) fn row_size(&self) -> u32
        ensures value { result ≡ self.now.side * ((seen self.now.picture.now).channels
            * sample_bytes (seen self.now.picture.now).depth) }
        ensures few { result ≤ 4096 }
    {
        self.side * (self.picture.channels() * self.picture.sample_size())
    }

    /// The bytes of a tile.
    pub(crate) fn tile_size(&self) -> u32
        ensures value { result ≡ spec.tile_size (seen self.now.picture.now) self.now.side }
    {
        self.side * self.row_size()
    }
}

impl<'a> Texture<'a> {
    ghost use Rattle.std.specs.Prelude.{◌<◌, IfOk};

    /// The value of PhotometricInterpretation.
    fn photometric(&self) -> u32
        ensures { result ≡ spec.photometric (seen self.now.picture.now) }
    {
        if self.picture.colours() == RGB_COLOURS {
            RGB
        } else {
            BLACK_IS_ZERO
        }
    }

    /// The fields for the form of the samples, and for the sides of the level and of its tiles.
    fn own_fields(&self, level: usize) -> [Field; 10]
        requires { level < (seen self.now.picture.now).levels }
        ensures { result ≡ spec.own_fields (seen self.now.picture.now) self.now.side level }
    {
        let smaller = if level == 0 { 0 } else { 1 };
        let channels = self.picture.channels();
        let from = self.level(level);
        [
            equal(FieldKind::Long, NEW_SUBFILE_TYPE, 1, smaller),
            equal(FieldKind::Long, IMAGE_WIDTH, 1, from.width),
            equal(FieldKind::Long, IMAGE_LENGTH, 1, from.height),
            equal(
                FieldKind::Short,
                BITS_PER_SAMPLE,
                channels,
                self.picture.depth(),
            ),
            equal(FieldKind::Short, COMPRESSION, 1, UNCOMPRESSED),
            equal(FieldKind::Short, PHOTOMETRIC, 1, self.photometric()),
            equal(FieldKind::Short, SAMPLES_PER_PIXEL, 1, channels),
            equal(FieldKind::Short, PLANAR_CONFIGURATION, 1, CHUNKY),
            equal(FieldKind::Long, TILE_WIDTH, 1, self.side),
            equal(FieldKind::Long, TILE_LENGTH, 1, self.side),
        ]
    }

    /// The fields of a level's directory. Its tiles begin at a given place.
    #[tactic(auto, unfolding(crate::specs::Texture::fields_of))]
    pub(crate) fn fields(
        &self,
        alloc: Global,
        level: usize,
        first: u32,
    ) -> Result<Vec<Field>, AllocError>
        requires { level < (seen self.now.picture.now).levels }
        ensures { IfOk result (λ fields. fields.items
            ≡ spec.fields_of (seen self.now.picture.now) self.now.side level first) }
    {
        let count = self.tile_count(level);
        let size = self.tile_size();
        let mut fields = Vec::from_slice(alloc, &self.own_fields(level))?;
        push(&mut fields, places(count, first, size))?;
        push(
            &mut fields,
            equal(FieldKind::Long, TILE_BYTE_COUNTS, count, size),
        )?;
        push_extra(
            &mut fields,
            self.picture.channels() - self.picture.colours(),
        )?;
        Ok(fields)
    }
}

/// The number of tiles of this side that cover a side of the level.
fn pieces(side: u32, tile: u32) -> u32
    requires side { IsSide side }
    requires tile { IsMadeSide tile }
    ensures value { result ≡ pieces_over side tile }
    ensures some { 1 ≤ result }
    ensures few { result ≤ 8192 }
{
    (side + tile - 1) / tile
}

/// Appends a field.
fn push(fields: &mut Vec<Field>, field: Field) -> Result<(), AllocError>
    ensures { OnOk result (fields.new.items ≡ fields.old.items ++ field ∷ []) }
{
    fields.push(field)?;
    Ok(())
}

/// Appends the field for samples that are not colours, if there are any.
fn push_extra(fields: &mut Vec<Field>, count: u32) -> Result<(), AllocError>
    ensures { OnOk result (fields.new.items ≡ fields.old.items ++ spec.extra_field count) }
{
    if count == 0 {
        return Ok(());
    }
    push(fields, equal(FieldKind::Short, EXTRA_SAMPLES, count, 0))
}

/// The field with the places of tiles, which follow one another from `first` on.
fn places(count: u32, first: u32, size: u32) -> Field
    ensures { result ≡ spec.places count first size }
{
    Field {
        tag: TILE_OFFSETS,
        kind: FieldKind::Long,
        count,
        first,
        step: size,
    }
}

/// A field whose values are all the same.
fn equal(kind: FieldKind, tag: u16, count: u32, value: u32) -> Field
    ensures { result ≡ spec.equal kind tag count value }
{
    Field {
        tag,
        kind,
        count,
        first: value,
        step: 0,
    }
}
