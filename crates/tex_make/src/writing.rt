//! Writes a texture, and returns the exit status.

ghost use Rattle.std.specs.Prelude.{◌≤◌};
ghost use Rattle.tex_make.specs.Picture.{samples_of, max_samples};
ghost use Rattle.tex_make.specs.Pyramid.{seen};
ghost use Rattle.tex_make.specs.Side.{IsMadeSide};
ghost use Rattle.tex_make.specs.Sink.{sink_state};
ghost use Rattle.tex_make.specs.Texture.{texture_of};
ghost use Rattle.tex_make.specs.Writing.{PutsPicture};

use crate::ending::{MADE, NO_MEMORY, NOT_WRITTEN};
use crate::head::head_of;
use crate::picture::Pyramid;
use crate::texture::Texture;
use crate::tiles::put_texture;
use std::alloc::Global;
use tex_world::Sink;

/// Writes the texture of an image, and returns the exit status.
pub(crate) fn put_picture<O: Sink>(alloc: Global, picture: &Pyramid, side: u32, out: &mut O) -> u8
    requires side { IsMadeSide side }
    requires small { samples_of (seen picture.now) ≤ max_samples }
    ensures { PutsPicture (texture_of (seen picture.now) side)
        (sink_state O.faults O.holds out.old) (sink_state O.faults O.holds out.new) result }
{
    let texture = Texture { picture, side };
    let Ok(head) = head_of(alloc, &texture) else {
        return NO_MEMORY;
    };
    let Ok(mut tile) = vec![in alloc; 0u8; texture.tile_size() as usize] else {
        return NO_MEMORY;
    };
    match put_texture(&texture, &head, &mut tile, out) {
        Ok(()) => MADE,
        Err(_failed) => NOT_WRITTEN,
    }
}
