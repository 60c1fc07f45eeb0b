//! Writes the tiles of a texture.

ghost use Rattle.std.specs.Prelude.{◌≡◌, ◌<◌, length};
ghost use Rattle.tex_make.specs.Joined.{joined};
ghost use Rattle.tex_make.specs.Pyramid.{seen};
ghost use Rattle.tex_make.specs.Texture as spec;
ghost use Rattle.tex_make.specs.Sink.{sink_state, Puts};

use crate::row::fill_row_at;
use crate::texture::Texture;
use tex_world::{Failed, Sink};

/// The most bytes written at once.
const MAX_PUT: usize = 1048576;

/// Fills a buffer with the bytes of a tile.
fn fill_tile(texture: &Texture<'_>, level: usize, index: u32, tile: &mut [u8])
    requires level { level < (seen texture.now.picture.now).levels }
    requires index { index < spec.tile_count (seen texture.now.picture.now) texture.now.side level }
    requires size { length tile.old
        ≡ spec.tile_size (seen texture.now.picture.now) texture.now.side }
    ensures long { length tile.new ≡ length tile.old }
    ensures bytes { tile.new
        ≡ spec.tile_bytes (seen texture.now.picture.now) texture.now.side level index }
{
    let across = texture.tiles_across(level);
    let x = index % across * texture.side;
    let y = index / across * texture.side;
    let size = texture.row_size() as usize;
    let from = texture.level(level);
    for row in 0..texture.side {
        let start = row as usize * size;
        let samples = from.part(x, y + row, texture.side);
        fill_row_at(from.depth, samples, start, start + size, tile);
    }
}

/// Writes the tiles of a level, one at a time.
fn put_level<O: Sink>(
    texture: &Texture<'_>,
    level: usize,
    tile: &mut [u8],
    out: &mut O,
) -> Result<(), Failed>
    requires level { level < (seen texture.now.picture.now).levels }
    requires size { length tile.old
        ≡ spec.tile_size (seen texture.now.picture.now) texture.now.side }
    ensures long { length tile.new ≡ length tile.old }
    ensures puts { Puts
        (spec.level_tiles (seen texture.now.picture.now) texture.now.side level)
        (sink_state O.faults O.holds out.old) (sink_state O.faults O.holds out.new) result }
{
    for index in 0..texture.tile_count(level) {
        fill_tile(texture, level, index, tile);
        out.put(tile)?;
    }
    Ok(())
}

/// Writes bytes, at most 1 MiB at a time.
fn put_bytes<O: Sink>(bytes: &[u8], out: &mut O) -> Result<(), Failed>
    ensures { Puts bytes.now
        (sink_state O.faults O.holds out.old) (sink_state O.faults O.holds out.new) result }
{
    let mut at = 0;
    'parts: while at < bytes.len() {
        let end = at + MAX_PUT.min(bytes.len() - at);
        out.put(&bytes[at..end])?;
        at = end;
    }
    Ok(())
}

/// Writes the tiles of all levels, through a buffer for one tile.
fn put_levels<O: Sink>(texture: &Texture<'_>, tile: &mut [u8], out: &mut O) -> Result<(), Failed>
    requires { length tile.old
        ≡ spec.tile_size (seen texture.now.picture.now) texture.now.side }
    ensures { Puts (joined
        (spec.level_tiles (seen texture.now.picture.now) texture.now.side)
        (seen texture.now.picture.now).levels)
        (sink_state O.faults O.holds out.old) (sink_state O.faults O.holds out.new) result }
{
    for level in 0..texture.picture.len() {
        put_level(texture, level, tile, out)?;
    }
    Ok(())
}

/// Writes a texture: the bytes before its tiles, then its tiles, through a buffer for one tile.
pub(crate) fn put_texture<O: Sink>(
    texture: &Texture<'_>,
    head: &[u8],
    tile: &mut [u8],
    out: &mut O,
) -> Result<(), Failed>
    requires size { length tile.old
        ≡ spec.tile_size (seen texture.now.picture.now) texture.now.side }
    requires head { head.now ≡ spec.head_of (seen texture.now.picture.now) texture.now.side }
    ensures { Puts (spec.texture_of (seen texture.now.picture.now) texture.now.side)
        (sink_state O.faults O.holds out.old) (sink_state O.faults O.holds out.new) result }
{
    put_bytes(head, out)?;
    put_levels(texture, tile, out)
}
