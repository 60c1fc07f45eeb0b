//! Where the texels of a level are in the file.

ghost use Rattle.std.specs.Prelude.{◌≡◌, ◌+◌, ◌*◌, ◌^◌, ◌<◌, ◌≤◌, ◌↔◌, length, IfSome, IsSome, IsTrue};
ghost use Rattle.tiff_format.specs.Block.{pieces_over, plane_blocks, samples_aside, texel_bytes};
ghost use Rattle.tiff_format.specs.Facts.{IsSide, IsChannelCount};
ghost use Rattle.tile_layout.specs.Plane.{plane_shape, plane_level};
ghost use Rattle.tiff_format.specs.Shown.{shown, shown_shape};
ghost use Rattle.tiff_format.specs.Texel.{block_index, texels_before, sample_place};
ghost use Rattle.tile_layout.specs.Pieces.{row_rest, LiesOn, LiesSideBySide};
ghost use Rattle.tile_layout.specs.WholeRows.{block_width, block_rows, HasWholeRows, RowFollows};
ghost use Rattle.tile_layout.specs.WholeRows.{RowsFollow, AreWholeRows, StandsWhole};

use crate::piece::Piece;
use tiff_format::{Dir, Rect};

/// The number of pieces of this length that cover a side.
fn pieces_over(side: u32, piece: u32) -> u64
    requires side { IsSide side }
    requires piece { 1 ≤ piece }
    ensures value { result ≡ pieces_over side piece }
    ensures few { result ≤ side }
{
    let piece = u64::from(piece);
    (u64::from(side) + piece - 1) / piece
}

/// The number of strips or tiles of a plane.
fn plane_blocks(dir: &Dir) -> u64
    ensures value { result ≡ plane_blocks (shown_shape dir.now) }
{
    match dir.tile {
        None => pieces_over(dir.height, dir.rows_per_strip),
        Some((width, height)) => pieces_over(dir.width, width) * pieces_over(dir.height, height),
    }
}

/// The number of strips or tiles in the planes before this one.
fn first_block(dir: &Dir, plane: u32) -> u64
    requires { plane < dir.now.planes }
    ensures value { result ≡ plane * plane_blocks (shown_shape dir.now) }
{
    if plane == 0 {
        return 0;
    }
    u64::from(plane) * plane_blocks(dir)
}

/// The index of the strip or tile that holds texel (x, y) of a plane.
fn block_index(dir: &Dir, plane: u32, x: u32, y: u32) -> u64
    requires plane { plane < dir.now.planes }
    requires across { x < dir.now.width }
    requires down { y < dir.now.height }
    ensures value { result ≡ plane * plane_blocks (shown_shape dir.now)
        + block_index (shown_shape dir.now) x y }
    ensures stored { result < length dir.now.offsets.items }
{
    first_block(dir, plane) + block_in_plane(dir, x, y)
}

/// The number of strips or tiles of the plane before the one that holds texel (x, y).
fn block_in_plane(dir: &Dir, x: u32, y: u32) -> u64
    requires across { x < dir.now.width }
    requires down { y < dir.now.height }
    ensures value { result ≡ block_index (shown_shape dir.now) x y }
    ensures below { result < plane_blocks (shown_shape dir.now) }
{
    match dir.tile {
        None => u64::from(y / dir.rows_per_strip),
        Some((width, height)) => {
            let row = u64::from(y / height);
            let column = u64::from(x / width);
            row * pieces_over(dir.width, width) + column
        }
    }
}

/// The number of texels before texel (x, y) in its strip or tile.
fn texels_before(dir: &Dir, x: u32, y: u32) -> u64
    ensures { result ≡ texels_before (shown_shape dir.now) x y }
{
    match dir.tile {
        None => u64::from(y % dir.rows_per_strip) * u64::from(dir.width) + u64::from(x),
        Some((width, height)) => u64::from(y % height) * u64::from(width) + u64::from(x % width),
    }
}

/// The number of samples of a texel that are stored together.
pub(crate) fn samples_aside(dir: &Dir) -> u32
    ensures value { result ≡ samples_aside (shown_shape dir.now) }
    ensures few { IsChannelCount result }
{
    if dir.planes == 1 { dir.channels } else { 1 }
}

/// Whether the first channel of a plane is inverted, as WhiteIsZero asks.
pub(crate) fn is_white(dir: &Dir, plane: u32) -> bool
    ensures { result ≡ (plane_shape (shown_shape dir.now) plane).white }
{
    dir.white && plane == 0
}

/// The bytes of those samples of a texel that are stored together.
pub(crate) fn texel_bytes(dir: &Dir) -> u64
    ensures { result ≡ texel_bytes (shown_shape dir.now) }
{
    let sample = if dir.depth == 8 { 1 } else { 2 };
    u64::from(samples_aside(dir)) * sample
}

/// The number of texels from texel x to the end of the row in its strip or tile.
fn row_rest(dir: &Dir, x: u32) -> u32
    requires { x < dir.now.width }
    ensures value { result ≡ row_rest (shown_shape dir.now) x }
    ensures some { 1 ≤ result }
{
    match dir.tile {
        None => dir.width - x,
        Some((width, _)) => width - x % width,
    }
}

/// The place of the first sample of texel (x, y) of a plane.
fn place(dir: &Dir, plane: u32, x: u32, y: u32) -> u64
    requires plane { plane < dir.now.planes }
    requires across { x < dir.now.width }
    requires down { y < dir.now.height }
    ensures { result ≡ sample_place (plane_level (shown dir.now) plane) x y 0 }
{
    let offset = dir.offsets[block_index(dir, plane, x, y) as usize];
    offset + texels_before(dir, x, y) * texel_bytes(dir)
}

/// The piece of a plane's row that begins at (x, y), and ends at or before column `right`.
pub(crate) fn piece_at(dir: &Dir, plane: u32, x: u32, y: u32, right: u32) -> Piece
    requires plane { plane < dir.now.planes }
    requires across { x < right × right ≤ dir.now.width }
    requires down { y < dir.now.height }
    ensures start { (result.x ≡ x) × (result.y ≡ y) }
    ensures lies { LiesSideBySide (plane_level (shown dir.now) plane) right result }
{
    Piece {
        at: place(dir, plane, x, y),
        x,
        y,
        n: row_rest(dir, x).min(right - x),
    }
}

/// The texels per row of a strip or tile.
pub(crate) fn block_width(dir: &Dir) -> u32
    ensures value { result ≡ block_width (shown_shape dir.now) }
    ensures some { 1 ≤ result }
{
    match dir.tile {
        None => dir.width,
        Some((width, _)) => width,
    }
}

/// The rows per strip or tile.
pub(crate) fn block_rows(dir: &Dir) -> u32
    ensures value { result ≡ block_rows (shown_shape dir.now) }
    ensures some { 1 ≤ result }
{
    match dir.tile {
        None => dir.rows_per_strip,
        Some((_, height)) => height,
    }
}

/// Whether the row below row `above` begins in the file where that one ends. The rectangle must
/// have whole rows.
fn row_follows(dir: &Dir, plane: u32, rect: Rect, above: u32) -> bool
    requires plane { plane < dir.now.planes }
    requires on { LiesOn dir.now.width dir.now.height rect }
    requires each { HasWholeRows (shown_shape dir.now) rect }
    requires below { above + 1 < rect.h }
    ensures value { IsTrue result ↔ RowFollows (plane_level (shown dir.now) plane) rect above }
{
    let end = place(dir, plane, rect.x, rect.y + above) + u64::from(rect.w) * texel_bytes(dir);
    place(dir, plane, rect.x, rect.y + (above + 1)) == end
}

/// Whether each row of a rectangle of whole rows begins in the file where the one above ends.
///
/// Within a strip or tile this is always so. Only the first row of each strip or tile is checked.
fn rows_follow(dir: &Dir, plane: u32, rect: Rect) -> bool
    requires plane { plane < dir.now.planes }
    requires on { LiesOn dir.now.width dir.now.height rect }
    requires each { HasWholeRows (shown_shape dir.now) rect }
    ensures value { IsTrue result ↔ RowsFollow (plane_level (shown dir.now) plane) rect }
{
    let rows = block_rows(dir);
    // the first row of the next strip or tile
    let mut row = rows - rect.y % rows;
    'below: while row < rect.h {
        if !row_follows(dir, plane, rect, row - 1) {
            return false;
        }
        row = row.saturating_add(rows);
    }
    true
}

/// Where a rectangle begins in the file, if it has whole rows that follow one another directly.
pub(crate) fn whole_rows(dir: &Dir, plane: u32, rect: Rect) -> Option<u64>
    requires plane { plane < dir.now.planes }
    requires on { LiesOn dir.now.width dir.now.height rect }
    requires some { 1 ≤ rect.h }
    ensures found { IsSome result ↔ AreWholeRows (plane_level (shown dir.now) plane) rect }
    ensures place { IfSome result (StandsWhole (plane_level (shown dir.now) plane) rect) }
{
    let width = block_width(dir);
    if rect.w == width && rect.x % width == 0 && rows_follow(dir, plane, rect) {
        Some(place(dir, plane, rect.x, rect.y))
    } else {
        None
    }
}
