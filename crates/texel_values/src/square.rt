//! Reads the four texels of a square from one tile.
ghost use Rattle.std.specs.Prelude.{◌≡◌, ◌+◌, ◌≤◌, length};
ghost use Rattle.texel_filter.specs.Image.{IsChannelCount};
ghost use Rattle.tile_store.specs.SampleRow.{samples_of, top_of, bottom_of};
ghost use Rattle.texel_values.specs.Square.{HoldsSquare, AreToldCorners};
ghost use Rattle.texel_values.specs.Square.{HasEnds, AreCornersOf, texel_at};

use crate::values::NARROW_DEPTH;
use tex_world::World;
use texel_filter::{Corners, Square};
use tile_store::{SampleRow, Tile, TwoRows};

/// Writes the first channels of the square's four texels, which all lie in this tile, with 0 for
/// channels that it lacks. Records whether the samples have 8 bits.
#[inline(always)]
pub fn write_square<W: World>(
    tile: &Tile<W>,
    depth: u32,
    square: &Square,
    channels: usize,
    out: &mut Corners,
)
    requires inside { HoldsSquare tile.now.rect square.now }
    requires channels { IsChannelCount channels }
    ensures { AreToldCorners W.files tile.now depth square.now channels out.new }
{
    // needed by the proof: ties the tile's samples to its file
    let _ = tile.key();
    let from = square.left.min(square.right);
    let texels = square.left.max(square.right) - from + 1;
    let rows = tile.two_rows(from, square.top, square.bottom, texels);
    let wide = tile.channels() as usize;
    let left = (square.left - from) as usize * wide;
    let right = (square.right - from) as usize * wide;
    write_samples(&rows, (left, right), wide, channels, out);
    out.narrow = depth == NARROW_DEPTH;
}

/// Writes the samples of two texels in each of two rows, which begin at the given places. It has
/// one body for bytes and one for two-byte samples, so that the loops need no test.
#[inline(always)]
fn write_samples(
    rows: &TwoRows<'_>,
    places: (usize, usize),
    wide: usize,
    channels: usize,
    out: &mut Corners,
)
    requires top { HasEnds (top_of rows.now) places wide }
    requires bottom { HasEnds (bottom_of rows.now) places wide }
    requires channels { IsChannelCount channels }
    ensures { AreCornersOf rows.now places wide channels out.new }
{
    if rows.has_bytes() {
        write_corners(rows, places, wide, channels, out);
    } else {
        write_corners(rows, places, wide, channels, out);
    }
}

/// Does the work of `write_samples`; inlined where the size of a sample is known.
#[inline(always)]
fn write_corners(
    rows: &TwoRows<'_>,
    places: (usize, usize),
    wide: usize,
    channels: usize,
    out: &mut Corners,
)
    requires top { HasEnds (top_of rows.now) places wide }
    requires bottom { HasEnds (bottom_of rows.now) places wide }
    requires channels { IsChannelCount channels }
    ensures { AreCornersOf rows.now places wide channels out.new }
{
    let (left, right) = places;
    let (top, bottom) = (rows.top(), rows.bottom());
    'channels: for c in 0..channels {
        out.left_top[c] = channel_sample(&top, left, wide, c);
        out.right_top[c] = channel_sample(&top, right, wide, c);
        out.left_bottom[c] = channel_sample(&bottom, left, wide, c);
        out.right_bottom[c] = channel_sample(&bottom, right, wide, c);
    }
}

/// Channel c of the texel that begins at a place; 0 if the texel lacks it.
#[inline(always)]
fn channel_sample(samples: &SampleRow<'_>, from: usize, wide: usize, c: usize) -> u16
    requires { from + wide ≤ length (samples_of samples.now) }
    ensures { result ≡ texel_at (samples_of samples.now) from wide c }
{
    // needed by the proof: the index below fits in a word
    let _ = samples.count();
    if c < wide {
        samples.sample(from + c)
    } else {
        0
    }
}
