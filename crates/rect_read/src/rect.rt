//! Reads the samples of a rectangle of a level.

ghost use Rattle.std.specs.Prelude.{◌≡◌, ◌*◌, ◌<◌, length, IfOk, IsTrue};
ghost use Rattle.std.specs.Option.{ForSome};
ghost use Rattle.tiff_format.specs.Texel.{sample_in};
ghost use Rattle.tile_layout.specs.Blocks.{HoldsBlocks};
ghost use Rattle.tile_layout.specs.Cell.{bit_depth_in};
ghost use Rattle.tile_layout.specs.Kept.{stored_count, level_in};
ghost use Rattle.tile_layout.specs.Pieces.{LiesOnLevel};
ghost use Rattle.tile_layout.specs.Texel.{AreTexelsOn, FitDepth};
ghost use Rattle.rect_read.specs.RectRead.{LeavesReader};
ghost use Rattle.rect_read.specs.RectSamples.{are_wide, samples_of, AreBytes};
ghost use Rattle.piece_samples.specs.Beyond.{CountAsZero, IsFilled, IsAllBeyond};
ghost use Rattle.piece_samples.specs.Unpacked.{is_wide};

use crate::place::PlaneRect;
use crate::planes::{read_chunky, read_planes};
use crate::rect_error::RectError;
use crate::texels::{RectSamples, narrowed};
use std::alloc::Global;
use tiff_entries::ByteReader;
use tiff_format::Rect;
use tile_layout::{Layout, TexelFormat};

/// Reads the samples of a rectangle of a stored level, with the file's number of bits: row by row,
/// all samples of a texel together. A piece of a row beyond the end of the file is not read, and
/// its samples are 0; modelled files have no such piece.
///
/// Besides the samples, memory is needed for a row and for at most 256 KiB that are read ahead.
pub fn read_rect<B: ByteReader>(
    alloc: Global,
    reader: &mut B,
    layout: &Layout,
    level: u32,
    rect: Rect,
) -> Result<Vec<u16>, RectError<B::Error>>
    requires stored { level < stored_count layout.now }
    requires inside { LiesOnLevel layout.now level rect }
    ensures count { IfOk result (λ samples. length samples.items
        ≡ rect.w * rect.h * (level_in layout.now level).shape.channels) }
    ensures low { IfOk result (λ samples. FitDepth (bit_depth_in layout.now) samples.items) }
    ensures zeros { IfOk result (λ samples. CountAsZero
        (level_in layout.now level) (B.size reader.old) rect samples.items) }
    ensures unread { IsFilled rect
        → IsAllBeyond (level_in layout.now level) (B.size reader.old) rect
        → reader.new ≡ reader.old }
    ensures told { ForSome (B.bytes reader.old) (λ bytes.
        HoldsBlocks bytes (level_in layout.now level)
        → IfOk result (λ samples. AreTexelsOn
        (sample_in layout.now.big bytes (level_in layout.now level))
        (level_in layout.now level).shape.channels rect samples.items)) }
    ensures reader { LeavesReader B.keeps B.refuses reader.old reader.new result }
{
    let planes = layout.planes(level);
    let place = PlaneRect {
        layout,
        level,
        plane: 0,
        rect,
    };
    if planes == 1 {
        let format = layout.format(level, 0);
        let room = RectSamples::Shorts(Vec::new(alloc));
        let texels = read_chunky(alloc, reader, &place, &format, room)?;
        Ok(texels.into_shorts())
    } else {
        read_planes(alloc, reader, &place)
    }
}

/// The bits of a sample that fits a byte.
const BYTE_DEPTH: u32 = 8;

/// Whether the samples of this format are exactly the stored bytes.
fn are_bytes(format: &TexelFormat) -> bool
    ensures { IsTrue result → AreBytes format.now }
{
    format.depth == BYTE_DEPTH && format.invert == 0
}

/// Reads the samples of a rectangle of a stored level, like `read_rect`, in the size that they
/// need: one byte each for an 8-bit file, otherwise two (TIFF 6.0, section 8, BitsPerSample).
///
/// 8-bit samples of one plane are read straight into the result. Those of WhiteIsZero levels, and
/// of several planes, take two bytes each until all are read.
pub fn read_texels<B: ByteReader>(
    alloc: Global,
    reader: &mut B,
    layout: &Layout,
    level: u32,
    rect: Rect,
) -> Result<RectSamples, RectError<B::Error>>
    requires stored { level < stored_count layout.now }
    requires inside { LiesOnLevel layout.now level rect }
    ensures wide { IfOk result (λ texels. are_wide texels ≡ is_wide (bit_depth_in layout.now)) }
    ensures count { IfOk result (λ texels. length (samples_of texels)
        ≡ rect.w * rect.h * (level_in layout.now level).shape.channels) }
    ensures low { IfOk result (λ texels.
        FitDepth (bit_depth_in layout.now) (samples_of texels)) }
    ensures zeros { IfOk result (λ texels. CountAsZero
        (level_in layout.now level) (B.size reader.old) rect (samples_of texels)) }
    ensures unread { IsFilled rect
        → IsAllBeyond (level_in layout.now level) (B.size reader.old) rect
        → reader.new ≡ reader.old }
    ensures told { ForSome (B.bytes reader.old) (λ bytes.
        HoldsBlocks bytes (level_in layout.now level)
        → IfOk result (λ texels. AreTexelsOn
        (sample_in layout.now.big bytes (level_in layout.now level))
        (level_in layout.now level).shape.channels rect (samples_of texels))) }
    ensures reader { LeavesReader B.keeps B.refuses reader.old reader.new result }
{
    let planes = layout.planes(level);
    let place = PlaneRect {
        layout,
        level,
        plane: 0,
        rect,
    };
    let format = layout.format(level, 0);
    if planes == 1 && are_bytes(&format) {
        let room = RectSamples::Bytes(Vec::new(alloc));
        return read_chunky(alloc, reader, &place, &format, room);
    }
    let samples = read_rect(alloc, reader, layout, level, rect)?;
    if format.depth == BYTE_DEPTH {
        let bytes = narrowed(alloc, &samples)?;
        Ok(RectSamples::Bytes(bytes))
    } else {
        Ok(RectSamples::Shorts(samples))
    }
}
