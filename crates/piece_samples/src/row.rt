//! Reads texels of a row, piece by piece.

ghost use Rattle.std.specs.Prelude.{◌≡◌, ◌≢◌, ◌+◌, ◌*◌, ◌≤◌, ◌<◌, ℕ, length, slice_index, OnOk};
ghost use Rattle.std.specs.Option.{ForSome};
ghost use Rattle.tiff_format.specs.Texel.{sample_in};
ghost use Rattle.tile_layout.specs.Blocks.{HoldsBlocks};
ghost use Rattle.tile_layout.specs.Cell.{bit_depth_in};
ghost use Rattle.tile_layout.specs.Kept.{level_in};
ghost use Rattle.tile_layout.specs.Plane.{plane_in};
ghost use Rattle.tile_layout.specs.Texel.{AreTexelsOn, FitDepth};
ghost use Rattle.piece_samples.specs.Beyond.{CountAsZero, IsAllBeyond, IsPlaneBeyond};
ghost use Rattle.piece_samples.specs.TexelRow.{AfterReads, IsReadSample, IsRow, row_rect};

use crate::piece::read_piece;
use crate::places::Places;
use tiff_entries::ByteReader;
use tiff_format::Rect;
use tile_layout::Layout;

/// The most texels of a row that are read at once.
pub const MAX_ROW_TEXELS: u32 = 64;

/// Texels of a row of a stored level: n of them, at most 64, from (x, y) on.
#[derive(Drop)]
pub struct TexelRow<'a> {
    pub layout: &'a Layout,
    pub level: u32,
    pub x: u32,
    pub y: u32,
    pub n: u32,
    ghost known: { IsRow layout.now level x y n },
}

/// The rectangle of a row.
fn rect_of(row: &TexelRow<'_>) -> Rect
    ensures { result ≡ row_rect row.now.x row.now.y row.now.n }
{
    Rect {
        x: row.x,
        y: row.y,
        w: row.n,
        h: 1,
    }
}

/// Reads the samples of a row in one plane, each to its place among those of the other planes.
fn read_plane<B: ByteReader>(
    reader: &mut B,
    row: &TexelRow<'_>,
    plane: u32,
    samples: &mut [u16],
) -> Result<(), B::Error>
    requires plane { plane < (level_in row.now.layout.now row.now.level).shape.planes }
    requires room { row.now.n
        * (plane_in row.now.layout.now row.now.level plane).shape.channels
        * (level_in row.now.layout.now row.now.level).shape.planes ≤ length samples.old }
    ensures read { OnOk result ((i c : ℕ) → i < row.now.n
        → c < (plane_in row.now.layout.now row.now.level plane).shape.channels
        → IsReadSample (B.size reader.old) (B.bytes reader.old) row.now.layout.now.big
        (plane_in row.now.layout.now row.now.level plane) (row.now.x + row.now.n)
        (row.now.x + i) row.now.y c
        (slice_index samples.new
        ((i * (plane_in row.now.layout.now row.now.level plane).shape.channels + c)
        * (level_in row.now.layout.now row.now.level).shape.planes + plane))) }
    ensures others { OnOk result ((k q : ℕ)
        → q < (level_in row.now.layout.now row.now.level).shape.planes → q ≢ plane
        → slice_index samples.new
        (k * (level_in row.now.layout.now row.now.level).shape.planes + q)
        ≡ slice_index samples.old
        (k * (level_in row.now.layout.now row.now.level).shape.planes + q)) }
    ensures low { OnOk result (FitDepth (bit_depth_in row.now.layout.now) samples.old
        → FitDepth (bit_depth_in row.now.layout.now) samples.new) }
    ensures unread { IsPlaneBeyond (plane_in row.now.layout.now row.now.level plane)
        (B.size reader.old) (row_rect row.now.x row.now.y row.now.n) → reader.new ≡ reader.old }
    ensures reader { AfterReads B.keeps B.refuses reader.old reader.new result }
{
    let format = row.layout.format(row.level, plane);
    let planes = row.layout.planes(row.level) as usize;
    let mut pieces = row.layout.plane_pieces(row.level, rect_of(row), plane);
    let mut done = 0usize;
    'pieces: while let Some(piece) = pieces.next() {
        let places = Places {
            step: planes,
            first: plane as usize,
            done: done * format.channels,
        };
        match read_piece(reader, &format, &piece, &places, samples) {
            Ok(()) => {}
            Err(e) => return Err(e),
        }
        done += piece.n as usize;
    }
    Ok(())
}

/// Reads the samples of a row of texels, with the file's number of bits, all samples of a texel
/// together. A piece beyond the end of the file is not read, and its samples are 0; modelled files
/// have no such piece. The samples are in the range of that number of bits if what was there before
/// is. After an error they are undefined.
///
/// Allocates nothing.
pub fn read_row<B: ByteReader>(
    reader: &mut B,
    row: &TexelRow<'_>,
    samples: &mut [u16],
) -> Result<(), B::Error>
    requires { length samples.old
        ≡ row.now.n * (level_in row.now.layout.now row.now.level).shape.channels }
    ensures zeros { OnOk result (CountAsZero
        (level_in row.now.layout.now row.now.level) (B.size reader.old)
        (row_rect row.now.x row.now.y row.now.n) samples.new) }
    ensures unread { IsAllBeyond (level_in row.now.layout.now row.now.level)
        (B.size reader.old) (row_rect row.now.x row.now.y row.now.n) → reader.new ≡ reader.old }
    ensures told { ForSome (B.bytes reader.old) (λ bytes.
        HoldsBlocks bytes (level_in row.now.layout.now row.now.level)
        → OnOk result (AreTexelsOn
        (sample_in row.now.layout.now.big bytes (level_in row.now.layout.now row.now.level))
        (level_in row.now.layout.now row.now.level).shape.channels
        (row_rect row.now.x row.now.y row.now.n) samples.new)) }
    ensures low { OnOk result (FitDepth (bit_depth_in row.now.layout.now) samples.old
        → FitDepth (bit_depth_in row.now.layout.now) samples.new) }
    ensures reader { AfterReads B.keeps B.refuses reader.old reader.new result }
{
    let planes = row.layout.planes(row.level);
    'each: for plane in 0..planes {
        match read_plane(reader, row, plane, samples) {
            Ok(()) => {}
            Err(e) => return Err(e),
        }
    }
    Ok(())
}
