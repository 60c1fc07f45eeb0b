//! Plans read-ahead for stored tiles that follow one another in the file.

use rect_read::PlaneRect;
use tap_reader::{CellRows, MAX_STRETCH_BYTES, Rows};
use tiff_format::Rect;

/// The most tiles that are treated as one run.
const MAX_TILES: u64 = 32;

/// A place at which nothing begins.
const NO_PLACE: u64 = u64::MAX;

/// Where the bytes of a texel begin in the file.
fn texel_start(place: &PlaneRect<'_>, x: u64, y: u64) -> Option<u64> {
    let (width, height) = place.layout.size(place.level);
    if x >= u64::from(width) || y >= u64::from(height) {
        return None;
    }
    let texel = Rect {
        x: x as u32,
        y: y as u32,
        w: 1,
        h: 1,
    };
    let first = place
        .layout
        .plane_pieces(place.level, texel, place.plane)
        .next()?;
    Some(first.at)
}

/// The bytes of the stored tile at a place. `None` if the place is not a whole stored tile, has no
/// right neighbour, or if two of them are too large to read at once.
fn tile_bytes(place: &PlaneRect<'_>, texel_bytes: u64) -> Option<u64> {
    let rect = place.rect;
    let (width, height) = place.layout.size(place.level);
    let wide = place.layout.block_width(place.level);
    let high = place.layout.block_rows(place.level);
    let is_tile = rect.x % wide == 0 && rect.y % high == 0 && rect.w <= wide && rect.h <= high;
    let is_whole = rect.h == high.min(height.saturating_sub(rect.y))
        && rect.w == wide.min(width.saturating_sub(rect.x));
    if !is_tile || !is_whole || width <= wide {
        return None;
    }
    let texels = u64::from(wide).checked_mul(u64::from(high))?;
    let bytes = texels.checked_mul(texel_bytes)?;
    if bytes > MAX_STRETCH_BYTES as u64 / 2 {
        None
    } else {
        Some(bytes)
    }
}

/// How many bytes of whole tiles follow one another in the file, from this tile to the right. Only
/// the first and the last tile are compared. That is enough, because no proof depends on the
/// result.
fn side_by_side(place: &PlaneRect<'_>, at: u64, bytes: u64) -> u64 {
    let (width, _) = place.layout.size(place.level);
    let wide = u64::from(place.layout.block_width(place.level));
    let right = u64::from(width).saturating_sub(u64::from(place.rect.x));
    let behind = (right.saturating_sub(1) / wide).min(MAX_TILES - 1);
    if stands_behind(place, at, behind, bytes) {
        bytes.saturating_mul(behind.saturating_add(1))
    } else if stands_behind(place, at, 1, bytes) {
        bytes.saturating_mul(2)
    } else {
        bytes
    }
}

/// Whether the tile `tiles` places to the right begins exactly that many tiles later in the file.
fn stands_behind(place: &PlaneRect<'_>, at: u64, tiles: u64, bytes: u64) -> bool {
    let wide = u64::from(place.layout.block_width(place.level));
    let x = u64::from(place.rect.x).saturating_add(tiles.saturating_mul(wide));
    let start = texel_start(place, x, u64::from(place.rect.y));
    start == at.checked_add(tiles.saturating_mul(bytes))
}

/// A stored tile as one row of bytes, which continues with the tiles to its right as far as they
/// follow one another in the file.
pub(crate) fn tile_row(place: &PlaneRect<'_>, texel_bytes: u64) -> Option<CellRows> {
    let bytes = tile_bytes(place, texel_bytes)?;
    let (x, y) = (u64::from(place.rect.x), u64::from(place.rect.y));
    let at = texel_start(place, x, y)?;
    let rest = side_by_side(place, at, bytes);
    let high = u64::from(place.layout.block_rows(place.level));
    Some(CellRows {
        rows: Rows::new(at, rest, bytes as usize, 1)?,
        rest,
        below: texel_start(place, 0, y.saturating_add(high)).unwrap_or(NO_PLACE),
    })
}
