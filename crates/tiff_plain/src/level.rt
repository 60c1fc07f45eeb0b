//! What is known of one level.

ghost use Rattle.std.specs.Prelude.{◌≡◌, ◌<◌, None, IfOk, slice_index, take};
ghost use Rattle.tiff_format.specs.Block as spec;
ghost use Rattle.tiff_format.specs.Facts.{IsLevelShape};
ghost use Rattle.tiff_format.specs.Fault as fault;
ghost use Rattle.tiff_format.specs.Field as field;
ghost use Rattle.tiff_format.specs.Level as level;
ghost use Rattle.tiff_plain.specs.PlainLevel.{shown};

use crate::fields::{field_number, field_values};
use crate::form::form_of;
use crate::levels::level_place;
use crate::shape::{PlainShape, blocks_at, offsets_tag, shape_at};
use std::alloc::{AllocError, Global};
use tiff_format::Form;

/// A level: its shape, and the offset of each strip or tile.
#[derive(Debug, Drop)]
pub struct PlainLevel {
    pub shape: PlainShape,
    pub offsets: Vec<u64>,
}

/// The offset of block i of the directory at a place; 0 if there is no such block.
#[tactic(auto, unfolding(tiff_format::specs::Block::level_at))]
pub fn offset_of(form: Form, bytes: &[u8], at: u64, i: u128) -> u64
    requires { IsLevelShape (spec.shape_at form bytes.now at) }
    ensures { result ≡ slice_index (spec.level_at form bytes.now at).offsets i }
{
    if i < u128::from(blocks_at(form, bytes, at)) {
        field_number(form, bytes, at, offsets_tag(form, bytes, at), i)
    } else {
        0
    }
}

/// The offsets of the blocks. Further offsets are ignored.
fn block_offsets(alloc: Global, form: Form, bytes: &[u8], at: u64) -> Result<Vec<u64>, AllocError>
    requires { IsLevelShape (spec.shape_at form bytes.now at) }
    ensures { IfOk result (λ v. v.items
        ≡ take (spec.blocks_of (spec.shape_at form bytes.now at))
        (field.field_values form bytes.now at (spec.offsets_tag form bytes.now at))) }
{
    let mut offsets = field_values(alloc, form, bytes, at, offsets_tag(form, bytes, at))?;
    let blocks = blocks_at(form, bytes, at);
    if blocks < offsets.len() as u64 {
        offsets.truncate(blocks as usize);
        return Ok(offsets);
    }
    Ok(offsets)
}

/// The level of the directory at a place.
#[tactic(auto, unfolding(tiff_format::specs::Block::level_at))]
pub fn level_at(alloc: Global, form: Form, bytes: &[u8], at: u64) -> Result<PlainLevel, AllocError>
    requires { IsLevelShape (spec.shape_at form bytes.now at) }
    ensures ok { IfOk result (λ l. shown l ≡ spec.level_at form bytes.now at) }
{
    Ok(PlainLevel {
        shape: shape_at(form, bytes, at),
        offsets: block_offsets(alloc, form, bytes, at)?,
    })
}

/// Stored level k of a valid file.
#[tactic(auto, unfolding(tiff_format::specs::Level::directory_level))]
pub fn directory_level(alloc: Global, bytes: &[u8], k: u32) -> Result<PlainLevel, AllocError>
    requires good { fault.first_fault bytes.now ≡ None }
    requires stored { k < level.stored_levels bytes.now }
    ensures ok { IfOk result (λ l. shown l ≡ level.directory_level bytes.now k) }
{
    level_at(alloc, form_of(bytes), bytes, level_place(bytes, k))
}
