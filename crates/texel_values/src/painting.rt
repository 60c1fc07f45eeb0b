//! Copies the texels of a tile to the values of a region.
ghost use Rattle.std.specs.Prelude.{◌≡◌, ◌⊎◌, ℕ, ◌+◌, ◌*◌, ◌<◌, ◌≤◌, ◌^◌, length, slice_index};
ghost use Rattle.tile_store.specs.SampleRow.{samples_of};
ghost use Rattle.tile_layout.specs.Pieces.{LiesOn};
ghost use Rattle.texel_values.specs.Values.{kept_value};
ghost use Rattle.texel_values.specs.RegionShape.{HasValues, Paints, PaintsTold};

use crate::values::{NARROW_DEPTH, value_of};
use crate::window::RegionShape;
use tex_world::World;
use tile_store::{SampleRow, Tile};

/// Writes those texels of a tile that lie in the region to their places among its values: row by
/// row, all channels of a texel together.
pub fn paint<W: World>(
    tile: &Tile<W>,
    depth: u32,
    window: &RegionShape,
    height: u32,
    values: &mut [u16],
)
    requires values { HasValues window.now height values.old }
    requires channels { tile.now.channels ≡ window.now.channels }
    requires right { tile.now.rect.x + tile.now.rect.w < 2 ^ 32 }
    requires bottom { tile.now.rect.y + tile.now.rect.h < 2 ^ 32 }
    requires columns { window.now.columns.first + window.now.columns.inside < 2 ^ 32 }
    requires rows { window.now.rows.first + window.now.rows.inside < 2 ^ 32 }
    ensures long { length values.new ≡ length values.old }
    ensures paints { Paints tile.now depth window.now height values.old values.new }
    ensures told { PaintsTold W.files tile.now depth window.now height values.new }
{
    // needed by the proof: ties the tile's samples to its file
    let _ = tile.key();
    paint_tile(tile, depth, window, height, values);
}

/// Does the work of `paint`, for any tile.
fn paint_tile<W: World>(
    tile: &Tile<W>,
    depth: u32,
    window: &RegionShape,
    height: u32,
    values: &mut [u16],
)
    requires values { HasValues window.now height values.old }
    requires channels { tile.now.channels ≡ window.now.channels }
    requires right { tile.now.rect.x + tile.now.rect.w < 2 ^ 32 }
    requires bottom { tile.now.rect.y + tile.now.rect.h < 2 ^ 32 }
    requires columns { window.now.columns.first + window.now.columns.inside < 2 ^ 32 }
    requires rows { window.now.rows.first + window.now.rows.inside < 2 ^ 32 }
    ensures long { length values.new ≡ length values.old }
    ensures paints { Paints tile.now depth window.now height values.old values.new }
{
    // needed by the proof: bounds the places of the values
    let _ = values.len();
    let rect = tile.rect();
    let (columns, rows) = (&window.columns, &window.rows);
    let left = rect.x.max(columns.first);
    let right = (rect.x + rect.w).min(columns.first + columns.inside);
    let top = rect.y.max(rows.first);
    let bottom = (rect.y + rect.h).min(rows.first + rows.inside);
    if left >= right {
        return;
    }
    let row = window.width as usize * window.channels as usize;
    let from = (columns.before + (left - columns.first)) as usize * window.channels as usize;
    for y in top..bottom {
        let start = (rows.before + (y - rows.first)) as usize * row;
        let samples = tile.row(left, y, right - left);
        paint_row(&samples, depth, start + from, values);
    }
}

/// Writes the values of a row of samples, from index `from` on.
fn paint_row(samples: &SampleRow<'_>, depth: u32, from: usize, values: &mut [u16])
    requires { from + length (samples_of samples.now) ≤ length values.old }
    ensures long { length values.new ≡ length values.old }
    ensures written { (k : ℕ) → k < length (samples_of samples.now)
        → slice_index values.new (from + k)
        ≡ kept_value depth (slice_index (samples_of samples.now) k) }
    ensures others { (k : ℕ) → (k < from) ⊎ (from + length (samples_of samples.now) ≤ k)
        → slice_index values.new k ≡ slice_index values.old k }
{
    let out = &mut values[from..from + samples.count()];
    // one loop for each of the four cases, so that no loop tests for them
    match (samples.has_bytes(), depth == NARROW_DEPTH) {
        (true, true) => write_samples(samples, NARROW_DEPTH, out),
        (false, true) => write_samples(samples, NARROW_DEPTH, out),
        (true, false) => write_samples(samples, depth, out),
        (false, false) => write_samples(samples, depth, out),
    }
}

/// Writes one value for each sample.
#[inline(always)]
fn write_samples(samples: &SampleRow<'_>, depth: u32, out: &mut [u16])
    requires { length (samples_of samples.now) ≡ length out.old }
    ensures long { length out.new ≡ length out.old }
    ensures values { (k : ℕ) → k < length out.new
        → slice_index out.new k ≡ kept_value depth (slice_index (samples_of samples.now) k) }
{
    let samples = *samples;
    for k in 0..out.len() {
        out[k] = value_of(depth, samples.sample(k));
    }
}
