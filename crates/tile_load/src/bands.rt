//! Plans read-ahead for cells whose rows are far apart in the file.

ghost use Rattle.std.specs.Prelude.{◌≡◌, ◌-◌, ◌<◌, ◌≤◌};

use crate::tiles::tile_row;
use rect_read::{MAX_GAP, PlaneRect};
use std::alloc::Global;
use tap_reader::{Band, CellRows, MAX_AHEAD_BYTES, MAX_STRETCH_BYTES, ReadAhead, Rows};
use tex_world::World;
use tiff_format::Rect;

/// The greatest number of parts in which a plane of a cell is read.
const MAX_PARTS: u32 = 64;

/// Where a row of a place begins in the file.
fn row_start(place: &PlaneRect<'_>, row: u32) -> Option<u64>
    requires { row < place.now.rect.h }
{
    let row = Rect {
        x: place.rect.x,
        y: place.rect.y.checked_add(row)?,
        w: place.rect.w,
        h: 1,
    };
    let first = place
        .layout
        .plane_pieces(place.level, row, place.plane)
        .next()?;
    Some(first.at)
}

/// Where the last row of a place begins, if the rows are `stride` bytes apart on average. Otherwise
/// `None`.
fn last_start(place: &PlaneRect<'_>, first: u64, stride: u64) -> Option<u64> {
    let rows = place.rect.h.checked_sub(1)?;
    let last = row_start(place, rows)?;
    let apart = u64::from(rows).checked_mul(stride)?;
    if last.checked_sub(first)? == apart {
        Some(last)
    } else {
        None
    }
}

/// The rows of a place in a stripped level, if more bytes lie between two rows than are read with
/// them.
fn cell_rows(place: &PlaneRect<'_>, texel_bytes: u64) -> Option<CellRows> {
    let rect = place.rect;
    let count = usize::try_from(rect.h).ok()?;
    if count == 0 {
        return None;
    }
    let width = u64::from(place.layout.block_width(place.level));
    let rest = width.checked_sub(u64::from(rect.x))?;
    let row = u64::from(rect.w).checked_mul(texel_bytes)?;
    let stride = width.checked_mul(texel_bytes)?;
    if rest < u64::from(rect.w) || stride.checked_sub(row)? <= MAX_GAP {
        return None;
    }
    let at = row_start(place, 0)?;
    let last = last_start(place, at, stride)?;
    let left = u64::from(rect.x).checked_mul(texel_bytes)?;
    let rows = Rows::new(at, stride, row as usize, count)?;
    if rows.size() > MAX_AHEAD_BYTES {
        return None;
    }
    Some(CellRows {
        rows,
        rest: rest.checked_mul(texel_bytes)?,
        below: last.checked_add(stride)?.checked_sub(left)?,
    })
}

/// The stretches from which the rows of each plane are cut, and what to read into them first.
/// Nothing is planned for rows that are close together, and for rows read one by one.
pub(crate) fn next_bands<W: World>(
    alloc: Global,
    ahead: &mut ReadAhead<W>,
    place: &PlaneRect<'_>,
) -> Vec<Band>
    ensures { ahead.new ≡ ahead.old }
{
    let planes = place.layout.planes(place.level);
    let mut bands = Vec::new(alloc);
    for plane in 0..planes {
        let alone = PlaneRect {
            layout: place.layout,
            level: place.level,
            plane,
            rect: place.rect,
        };
        match next_band(ahead, &alone) {
            Some(band) => {
                let _ = bands.push(band);
            }
            None => add_parts(ahead, &alone, &mut bands),
        }
    }
    bands
}

/// The stretch from which the rows of one plane are cut, if they are read all at once.
fn next_band<W: World>(ahead: &mut ReadAhead<W>, place: &PlaneRect<'_>) -> Option<Band>
    ensures { ahead.new ≡ ahead.old }
{
    let format = place.layout.format(place.level, place.plane);
    let texel_bytes = format.texel_bytes as u64;
    let cell = match cell_rows(place, texel_bytes) {
        Some(cell) => cell,
        None => tile_row(place, texel_bytes)?,
    };
    ahead.plan(&cell)
}

/// How many rows to read at once, after `done` rows: as many as are left in the strip and fit a
/// stretch. 0 if that is less than two.
fn rows_at_once(place: &PlaneRect<'_>, done: u32) -> u32
    ensures { result ≤ place.now.rect.h - done }
{
    let format = place.layout.format(place.level, place.plane);
    let row = (place.rect.w as usize).saturating_mul(format.texel_bytes);
    let most = (MAX_STRETCH_BYTES / row.max(1)).min(place.rect.h as usize) as u32;
    let in_block = place.layout.block_rows(place.level);
    let left = in_block - place.rect.y.saturating_add(done) % in_block;
    if most < 2 || in_block < 2 {
        return 0;
    }
    most.min(left).min(place.rect.h.saturating_sub(done))
}

/// The part of a place that is read at once, after `done` rows.
fn part_behind<'a>(place: &PlaneRect<'a>, done: u32) -> Option<PlaneRect<'a>> {
    let rows = rows_at_once(place, done);
    if rows == 0 {
        return None;
    }
    let rect = Rect {
        x: place.rect.x,
        y: place.rect.y.checked_add(done)?,
        w: place.rect.w,
        h: rows,
    };
    Some(PlaneRect {
        layout: place.layout,
        level: place.level,
        plane: place.plane,
        rect,
    })
}

/// Plans the stretches of a plane that is read in parts: in each strip, as many rows at once as fit
/// a stretch.
fn add_parts<W: World>(ahead: &mut ReadAhead<W>, place: &PlaneRect<'_>, bands: &mut Vec<Band>)
    ensures { ahead.new ≡ ahead.old }
{
    let mut done = 0u32;
    for _part in 0..MAX_PARTS {
        let Some(part) = part_behind(place, done) else {
            return;
        };
        done = done.saturating_add(part.rect.h);
        if let Some(band) = next_band(ahead, &part) {
            let _ = bands.push(band);
        }
    }
}
