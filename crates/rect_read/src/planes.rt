//! Reads the planes of a level one after another.

ghost use Rattle.std.specs.Prelude.{◌≡◌, ◌≢◌, ◌*◌, [], length, replicate, IfOk};
ghost use Rattle.std.specs.Option.{ForSome};
ghost use Rattle.tiff_format.specs.Texel.{sample_in};
ghost use Rattle.tile_layout.specs.Blocks.{HoldsBlocks};
ghost use Rattle.tile_layout.specs.Cell.{bit_depth_in};
ghost use Rattle.tile_layout.specs.FormatOf.{IsFormatOf};
ghost use Rattle.tile_layout.specs.Kept.{level_in};
ghost use Rattle.tile_layout.specs.Plane.{plane_in};
ghost use Rattle.tile_layout.specs.Texel.{AreTexelsOn, FitDepth};
ghost use Rattle.rect_read.specs.RectRead.{LeavesReader};
ghost use Rattle.piece_samples.specs.Beyond.{CountAsZero, IsFilled, IsAllBeyond, IsPlaneBeyond};
ghost use Rattle.rect_read.specs.Taken.{taken, FitsSamples, KeepsOthers};
ghost use Rattle.rect_read.specs.RectSamples.{are_wide, samples_of, FitsTexels};
ghost use Rattle.piece_samples.specs.Unpacked.{KeepsDepth};
ghost use Rattle.rect_read.specs.Zeros.{AreZerosBeyond};

use crate::place::PlaneRect;
use crate::reading::RectReader;
use crate::rect_error::RectError;
use crate::rows::RowLayout;
use crate::samples::Samples;
use crate::texels::RectSamples;
use std::alloc::{AllocError, Global};
use tiff_entries::ByteReader;
use tiff_format::Rect;
use tile_layout::TexelFormat;

/// Reads the samples of a rectangle in one plane, row by row, all samples of a texel together. None
/// may have been read before.
pub(crate) fn read_plane<B: ByteReader>(
    alloc: Global,
    reader: &mut B,
    place: &PlaneRect<'_>,
    format: &TexelFormat,
    samples: Samples,
) -> Result<Samples, RectError<B::Error>>
    requires none { taken samples ≡ [] }
    requires format { IsFormatOf place.now.layout.now.big
        (plane_in place.now.layout.now place.now.level place.now.plane).shape format.now }
    requires fits { FitsSamples samples format.now }
    ensures count { IfOk result (λ all. length (taken all)
        ≡ place.now.rect.w * place.now.rect.h
        * (plane_in place.now.layout.now place.now.level place.now.plane).shape.channels) }
    ensures low { IfOk result (λ all.
        KeepsDepth format.now (samples_of samples.values) (samples_of all.values)) }
    ensures zeros { IfOk result (λ all. AreZerosBeyond
        (plane_in place.now.layout.now place.now.level place.now.plane)
        (B.size reader.old) place.now.rect (taken all)) }
    ensures unread { IsFilled place.now.rect
        → IsPlaneBeyond (plane_in place.now.layout.now place.now.level place.now.plane)
        (B.size reader.old) place.now.rect → reader.new ≡ reader.old }
    ensures told { ForSome (B.bytes reader.old) (λ bytes.
        HoldsBlocks bytes (plane_in place.now.layout.now place.now.level place.now.plane)
        → IfOk result (λ all. AreTexelsOn (sample_in place.now.layout.now.big bytes
        (plane_in place.now.layout.now place.now.level place.now.plane))
        (plane_in place.now.layout.now place.now.level place.now.plane).shape.channels
        place.now.rect (taken all))) }
    ensures others { IfOk result (KeepsOthers samples) }
    ensures reader { LeavesReader B.keeps B.refuses reader.old reader.new result }
{
    let rect = place.rect;
    let bottom = rect.y.saturating_add(rect.h);
    let rows = RowLayout::of(place.layout, place.level, format, bottom);
    let mut reading = RectReader::new(alloc, samples, rows);
    reading.reserve(rect, format.channels)?;
    reading.read_place(reader, format, place)?;
    Ok(reading.samples)
}

/// Reads the samples of a rectangle of a level with one plane, all samples of a texel together. The
/// buffer must be empty.
pub(crate) fn read_chunky<B: ByteReader>(
    alloc: Global,
    reader: &mut B,
    place: &PlaneRect<'_>,
    format: &TexelFormat,
    room: RectSamples,
) -> Result<RectSamples, RectError<B::Error>>
    requires none { samples_of room ≡ [] }
    requires format { IsFormatOf place.now.layout.now.big
        (plane_in place.now.layout.now place.now.level place.now.plane).shape format.now }
    requires fits { FitsTexels room format.now }
    ensures wide { IfOk result (λ texels. are_wide texels ≡ are_wide room) }
    ensures count { IfOk result (λ texels. length (samples_of texels)
        ≡ place.now.rect.w * place.now.rect.h
        * (plane_in place.now.layout.now place.now.level place.now.plane).shape.channels) }
    ensures low { IfOk result (λ texels. FitDepth format.now.depth (samples_of texels)) }
    ensures zeros { IfOk result (λ texels. AreZerosBeyond
        (plane_in place.now.layout.now place.now.level place.now.plane)
        (B.size reader.old) place.now.rect (samples_of texels)) }
    ensures unread { IsFilled place.now.rect
        → IsPlaneBeyond (plane_in place.now.layout.now place.now.level place.now.plane)
        (B.size reader.old) place.now.rect → reader.new ≡ reader.old }
    ensures told { ForSome (B.bytes reader.old) (λ bytes.
        HoldsBlocks bytes (plane_in place.now.layout.now place.now.level place.now.plane)
        → IfOk result (λ texels. AreTexelsOn (sample_in place.now.layout.now.big bytes
        (plane_in place.now.layout.now place.now.level place.now.plane))
        (plane_in place.now.layout.now place.now.level place.now.plane).shape.channels
        place.now.rect (samples_of texels))) }
    ensures reader { LeavesReader B.keeps B.refuses reader.old reader.new result }
{
    let samples = Samples::of_texels(room);
    let all = read_plane(alloc, reader, place, format, samples)?;
    Ok(all.values)
}

/// A sample buffer for a rectangle, all 0.
fn blank(alloc: Global, rect: Rect, channels: u32) -> Result<Vec<u16>, AllocError>
    ensures { IfOk result (λ samples.
        samples.items ≡ replicate (rect.w * rect.h * channels) 0) }
{
    let texels = rect.w as usize * rect.h as usize;
    let count = texels.checked_mul(channels as usize).ok_or(AllocError)?;
    let samples = vec![in alloc; 0u16; count]?;
    Ok(samples)
}

/// Reads the samples of a rectangle of a level with several planes, plane by plane.
pub(crate) fn read_planes<B: ByteReader>(
    alloc: Global,
    reader: &mut B,
    place: &PlaneRect<'_>,
) -> Result<Vec<u16>, RectError<B::Error>>
    requires planar { (level_in place.now.layout.now place.now.level).shape.planes ≢ 1 }
    ensures count { IfOk result (λ samples. length samples.items ≡ place.now.rect.w
        * place.now.rect.h * (level_in place.now.layout.now place.now.level).shape.channels) }
    ensures low { IfOk result (λ samples.
        FitDepth (bit_depth_in place.now.layout.now) samples.items) }
    ensures zeros { IfOk result (λ samples. CountAsZero
        (level_in place.now.layout.now place.now.level) (B.size reader.old) place.now.rect
        samples.items) }
    ensures unread { IsFilled place.now.rect
        → IsAllBeyond (level_in place.now.layout.now place.now.level) (B.size reader.old)
        place.now.rect → reader.new ≡ reader.old }
    ensures told { ForSome (B.bytes reader.old) (λ bytes.
        HoldsBlocks bytes (level_in place.now.layout.now place.now.level)
        → IfOk result (λ samples. AreTexelsOn (sample_in place.now.layout.now.big bytes
        (level_in place.now.layout.now place.now.level))
        (level_in place.now.layout.now place.now.level).shape.channels place.now.rect
        samples.items)) }
    ensures reader { LeavesReader B.keeps B.refuses reader.old reader.new result }
{
    let planes = place.layout.planes(place.level);
    let mut values = blank(alloc, place.rect, planes)?;
    'each: for plane in 0..planes {
        let alone = PlaneRect {
            layout: place.layout,
            level: place.level,
            plane,
            rect: place.rect,
        };
        let format = place.layout.format(place.level, plane);
        let samples = Samples::of_plane(values, planes, plane);
        let own = read_plane(alloc, reader, &alone, &format, samples)?;
        values = own.values.into_shorts();
    }
    Ok(values)
}
