//! Writes the part of a texture before its tiles.

ghost use Rattle.std.specs.Prelude.{◌≡◌, ◌+◌, ◌++◌, ◌<◌, IfOk, OnOk};
ghost use Rattle.tex_make.specs.Pyramid.{seen};
ghost use Rattle.tex_make.specs.Texture as spec;

use crate::field::{directory_size, push_directory};
use crate::texture::Texture;
use std::alloc::{AllocError, Global};

/// The bytes of the header.
const HEADER_BYTES: u32 = 8;

/// `II`, 42, and the place of the first directory.
const HEADER: [u8; 8] = [b'I', b'I', 42, 0, 8, 0, 0, 0];

/// The place after the directory of a level, which begins at `place`.
fn behind_directory(
    alloc: Global,
    texture: &Texture<'_>,
    level: usize,
    at: u32,
) -> Result<u32, AllocError>
    requires level { level < (seen texture.now.picture.now).levels }
    requires at { at ≡ spec.directory_at (seen texture.now.picture.now) texture.now.side level }
    ensures { IfOk result (λ behind. behind
        ≡ spec.directory_at (seen texture.now.picture.now) texture.now.side (level + 1)) }
{
    let fields = texture.fields(alloc, level, 0)?;
    Ok(at + directory_size(&fields))
}

/// The place after the last directory.
fn directories_end(alloc: Global, texture: &Texture<'_>) -> Result<u32, AllocError>
    ensures { IfOk result (λ end. end
        ≡ spec.tiles_at (seen texture.now.picture.now) texture.now.side 0) }
{
    let mut at = HEADER_BYTES;
    for level in 0..texture.picture.len() {
        at = behind_directory(alloc, texture, level, at)?;
    }
    Ok(at)
}

/// What a level's directory names as the place of the next one: `behind`, or 0 for the last level.
fn next_at(texture: &Texture<'_>, level: usize, behind: u32) -> u32
    requires level { level < (seen texture.now.picture.now).levels }
    requires behind { behind
        ≡ spec.directory_at (seen texture.now.picture.now) texture.now.side (level + 1) }
    ensures { result ≡ spec.next_at (seen texture.now.picture.now) texture.now.side level }
{
    if level + 1 < texture.picture.len() {
        behind
    } else {
        0
    }
}

/// Appends the directory of a level, whose tiles begin at a given place, and returns the place
/// after the directory.
#[tactic(auto, unfolding(crate::specs::Texture::directory_of))]
fn push_level(
    alloc: Global,
    texture: &Texture<'_>,
    level: usize,
    at: u32,
    tiles: u32,
    head: &mut Vec<u8>,
) -> Result<u32, AllocError>
    requires level { level < (seen texture.now.picture.now).levels }
    requires at { at ≡ spec.directory_at (seen texture.now.picture.now) texture.now.side level }
    requires tiles { tiles ≡ spec.tiles_at (seen texture.now.picture.now) texture.now.side level }
    ensures bytes { OnOk result (head.new.items ≡ head.old.items
        ++ spec.directory_of (seen texture.now.picture.now) texture.now.side level) }
    ensures behind { IfOk result (λ behind. behind
        ≡ spec.directory_at (seen texture.now.picture.now) texture.now.side (level + 1)) }
{
    let behind = behind_directory(alloc, texture, level, at)?;
    let fields = texture.fields(alloc, level, tiles)?;
    push_directory(head, at, next_at(texture, level, behind), &fields)?;
    Ok(behind)
}

/// The bytes before the tiles: the header, and a directory for each level with the values that do
/// not fit in its entries.
pub(crate) fn head_of(alloc: Global, texture: &Texture<'_>) -> Result<Vec<u8>, AllocError>
    ensures { IfOk result (λ head. head.items
        ≡ spec.head_of (seen texture.now.picture.now) texture.now.side) }
{
    let mut head = Vec::from_slice(alloc, &HEADER)?;
    let mut at = HEADER_BYTES;
    let mut tiles = directories_end(alloc, texture)?;
    for level in 0..texture.picture.len() {
        at = push_level(alloc, texture, level, at, tiles, &mut head)?;
        tiles += texture.tile_count(level) * texture.tile_size();
    }
    Ok(head)
}
