//! Halves a source tile into the samples of a cell of a generated level.

ghost use Rattle.std.specs.Prelude.{◌≡◌, ◌+◌, ◌*◌, ◌<◌, ◌≤◌, ℕ, length, slice_index};
ghost use Rattle.tiff_format.specs.Level.{halved};
ghost use Rattle.tile_load.specs.PartPlace.{HalvesRows};
ghost use Rattle.tile_load.specs.CellSamples.{most_of, sample_bits, PutsRow};
ghost use Rattle.rect_read.specs.RectSamples.{samples_of};

use crate::part_place::PartPlace;
use half_rows::halve_row_at;
use rect_read::RectSamples;
use tex_world::World;
use tile_store::Tile;

/// Writes each sample as a byte, and one above 255 as 255.
fn narrow_row(row: &[u16], out: &mut [u8])
    requires { length out.old ≡ length row.now }
    ensures long { length out.new ≡ length out.old }
    ensures each { (k : ℕ) → k < length row.now → slice_index row.now k ≤ 255
        → slice_index out.new k ≡ slice_index row.now k }
{
    for (k, byte) in out.iter_mut().enumerate() {
        *byte = row[k].min(u16::from(u8::MAX)) as u8;
    }
}

/// Writes a row of samples from index `start` on, a byte each.
fn put_row(row: &[u16], start: usize, out: &mut [u8])
    requires { start + length row.now ≤ length out.old }
    ensures { PutsRow row.now start out.old out.new }
{
    narrow_row(row, &mut out[start..start + row.len()]);
}

/// Writes row j of a halved source cell. `scratch` has room for a row of the cell.
fn halve_row_of<W: World>(
    tile: &Tile<W>,
    place: &PartPlace,
    j: u32,
    scratch: &mut [u16],
    samples: &mut RectSamples,
)
    requires part { tile.now.rect ≡ place.now.part }
    requires channels { tile.now.channels ≡ place.now.channels }
    requires row { j < halved place.now.part.h }
    requires room { length scratch.old ≡ place.now.cell.w * place.now.channels }
    requires long { length (samples_of samples.old)
        ≡ place.now.cell.w * place.now.cell.h * place.now.channels }
    ensures halves { HalvesRows place.now.part place.now.cell place.now.channels tile.now.texels
        (most_of samples.old) j (j + 1) (samples_of samples.old) (samples_of samples.new) }
    ensures depth { sample_bits samples.new ≡ sample_bits samples.old }
    ensures room { length scratch.new ≡ length scratch.old }
{
    let part = place.part;
    let last = part.h - 1;
    let top = part.y + (2 * j).min(last);
    let bottom = part.y + (2 * j + 1).min(last);
    let rows = tile.two_rows(part.x, top, bottom, part.w);
    let (width, channels) = (part.w as usize, place.channels as usize);
    let start = place.start(j);
    match samples {
        RectSamples::Bytes(bytes) => {
            halve_row_at(&rows, width, channels, 0, scratch);
            put_row(&scratch[..place.row_samples()], start, bytes);
        }
        RectSamples::Shorts(shorts) => halve_row_at(&rows, width, channels, start, shorts),
    }
}

/// Writes a halved source tile to its place in the cell's samples. `scratch` has room for a row of
/// the cell.
pub(crate) fn halve_part<W: World>(
    tile: &Tile<W>,
    place: &PartPlace,
    scratch: &mut [u16],
    samples: &mut RectSamples,
)
    requires part { tile.now.rect ≡ place.now.part }
    requires channels { tile.now.channels ≡ place.now.channels }
    requires room { length scratch.old ≡ place.now.cell.w * place.now.channels }
    requires long { length (samples_of samples.old)
        ≡ place.now.cell.w * place.now.cell.h * place.now.channels }
    ensures halves { HalvesRows place.now.part place.now.cell place.now.channels tile.now.texels
        (most_of samples.old) 0 (halved place.now.part.h)
        (samples_of samples.old) (samples_of samples.new) }
    ensures depth { sample_bits samples.new ≡ sample_bits samples.old }
    ensures room { length scratch.new ≡ length scratch.old }
{
    for j in 0..place.rows() {
        halve_row_of(tile, place, j, scratch, samples);
    }
}
