//! Reads texels that follow one another in the file, without going row by row.

ghost use Rattle.std.specs.Prelude.{◌≡◌, ◌+◌, ◌*◌, ◌^◌, ◌<◌, ◌≤◌, ℕ, List, length, IfOk, IfSome};
ghost use Rattle.std.specs.Prelude.{take, drop, OnOk};
ghost use Rattle.std.specs.Option.{ForSome};
ghost use Rattle.tiff_format.specs.Block.{Level};
ghost use Rattle.tiff_format.specs.Bytes.{IsPartAt};
ghost use Rattle.tile_layout.specs.FormatOf.{IsFormatOf};
ghost use Rattle.tile_layout.specs.Texel.{FitDepth};
ghost use Rattle.tile_layout.specs.Plane.{plane_in};
ghost use Rattle.tile_layout.specs.WholeRows.{StandsWhole};
ghost use Rattle.rect_read.specs.RectRead.{LeavesReader};
ghost use Rattle.rect_read.specs.Run.{AppendsRun, AppendsValues, StandSideBySide};
ghost use Rattle.rect_read.specs.Taken.{taken, FitsSamples, KeepsOthers};
ghost use Rattle.rect_read.specs.RectSamples.{samples_of};
ghost use Rattle.piece_samples.specs.Unpacked.{KeepsDepth};
ghost use Rattle.rect_read.specs.Window.{IsWindow};

use crate::place::PlaneRect;
use crate::reading::MAX_AHEAD;
use crate::rect_error::RectError;
use crate::rows::RowsBehind;
use crate::samples::Samples;
use crate::texels::RectSamples;
use crate::window::Window;
use piece_samples::Span;
use std::alloc::AllocError;
use tiff_entries::ByteReader;
use tile_layout::TexelFormat;

/// RectSamples that follow one another in the file: `texels` of them, from `at` on.
#[derive(Clone, Copy, Debug)]
pub(crate) struct Run {
    pub(crate) at: u64,
    pub(crate) texels: usize,
}

impl Run {
    /// The texels of a rectangle as one run, if all its rows follow one another in the file, below
    /// length `len`.
    pub(crate) fn of(place: &PlaneRect<'_>, format: &TexelFormat, len: u64) -> Option<Run>
        requires { IsFormatOf place.now.layout.now.big
            (plane_in place.now.layout.now place.now.level place.now.plane).shape format.now }
        ensures texels { IfSome result (λ run.
            run.texels ≡ place.now.rect.w * place.now.rect.h) }
        ensures whole { IfSome result (λ run. StandsWhole
            (plane_in place.now.layout.now place.now.level place.now.plane) place.now.rect run.at) }
        ensures below { IfSome result (λ run.
            run.at + run.texels * format.now.texel_bytes ≤ len) }
    {
        let rect = place.rect;
        if rect.h == 0 {
            return None;
        }
        let at = place.layout.whole_rows(place.level, place.plane, rect)?;
        let texels = rect.w as usize * rect.h as usize;
        let span = Span {
            at,
            size: texels * format.texel_bytes,
        };
        if span.lies_below(len) {
            Some(Run { at, texels })
        } else {
            None
        }
    }
}

/// A run has no later rows to read ahead.
const NO_ROWS: RowsBehind = RowsBehind {
    all: 0,
    in_block: 0,
    stride: 0,
};

/// How many texels fit into a window.
fn texels_at_once(format: &TexelFormat) -> usize
    ensures { 1 ≤ result }
{
    (MAX_AHEAD as usize / format.texel_bytes.max(1)).max(1)
}

/// Reads the bytes of a span, appended to those that are there.
fn read_behind<B: ByteReader>(
    reader: &mut B,
    span: &Span,
    bytes: &mut Vec<u8>,
) -> Result<(), RectError<B::Error>>
    requires { span.now.at + span.now.size ≤ B.size reader.old }
    ensures long { OnOk result (length bytes.new.items
        ≡ length bytes.old.items + span.now.size) }
    ensures before { OnOk result (take (length bytes.old.items) bytes.new.items
        ≡ bytes.old.items) }
    ensures low { OnOk result (FitDepth 8 bytes.new.items) }
    ensures told { ForSome (B.bytes reader.old) (λ file.
        OnOk result (IsPartAt file span.now.at
        (drop (length bytes.old.items) bytes.new.items))) }
    ensures reader { LeavesReader B.keeps B.refuses reader.old reader.new result }
{
    let old = bytes.len();
    bytes.reserve(span.size)?;
    bytes.resize(old + span.size, 0)?;
    match reader.read(span.at, &mut bytes[old..]) {
        Ok(()) => Ok(()),
        Err(e) => Err(RectError::Reader(e)),
    }
}

/// Appends the samples of a part of a run. Samples that are plain bytes are read straight into the
/// result, others through a window.
fn read_part<B: ByteReader>(
    reader: &mut B,
    format: &TexelFormat,
    part: &Run,
    window: &mut Window,
    samples: &mut Samples,
) -> Result<(), RectError<B::Error>>
    requires samples { FitsSamples samples.old format.now }
    requires fits { part.now.at + part.now.texels * format.now.texel_bytes < 2 ^ 64 }
    requires below { part.now.at + part.now.texels * format.now.texel_bytes
        ≤ B.size reader.old }
    ensures count { OnOk result (length (taken samples.new)
        ≡ length (taken samples.old) + part.now.texels * format.now.channels) }
    ensures low { OnOk result (KeepsDepth format.now
        (samples_of samples.old.values) (samples_of samples.new.values)) }
    ensures told { ForSome (B.bytes reader.old) (λ bytes.
        IsWindow bytes window.old → OnOk result (IsWindow bytes window.new
        × AppendsRun bytes format.now part.now (taken samples.old) (taken samples.new))) }
    ensures others { OnOk result (KeepsOthers samples.old samples.new) }
    ensures reader { LeavesReader B.keeps B.refuses reader.old reader.new result }
{
    let span = Span {
        at: part.at,
        size: part.texels * format.texel_bytes,
    };
    if let RectSamples::Bytes(bytes) = &mut samples.values {
        return read_behind(reader, &span, bytes);
    }
    window.fill(reader, &span, &NO_ROWS, 0)?;
    let count = part.texels * format.channels;
    samples.push(format, window.piece(&span), count)?;
    Ok(())
}

/// Reserves memory for the samples of a run.
fn reserve(samples: &mut Samples, format: &TexelFormat, run: &Run) -> Result<(), AllocError>
    ensures taken { taken samples.new ≡ taken samples.old }
    ensures values { samples_of samples.new.values ≡ samples_of samples.old.values }
    ensures places { samples.new.places ≡ samples.old.places }
    ensures others { KeepsOthers samples.old samples.new }
{
    let count = run.texels.checked_mul(format.channels).ok_or(AllocError)?;
    samples.reserve(count)?;
    Ok(())
}

/// Appends the samples of a run, all channels of a texel together.
///
/// Besides the samples it needs at most 256 KiB of memory.
pub(crate) fn read_run<B: ByteReader>(
    reader: &mut B,
    format: &TexelFormat,
    run: &Run,
    samples: &mut Samples,
) -> Result<(), RectError<B::Error>>
    requires samples { FitsSamples samples.old format.now }
    requires fits { run.now.at + run.now.texels * format.now.texel_bytes < 2 ^ 64 }
    requires below { run.now.at + run.now.texels * format.now.texel_bytes
        ≤ B.size reader.old }
    ensures count { OnOk result (length (taken samples.new)
        ≡ length (taken samples.old) + run.now.texels * format.now.channels) }
    ensures low { OnOk result (KeepsDepth format.now
        (samples_of samples.old.values) (samples_of samples.new.values)) }
    ensures told { ForSome (B.bytes reader.old) (λ bytes.
        (level : Level) → (x_of y_of : ℕ → ℕ)
        → IsFormatOf format.now.big level.shape format.now
        → StandSideBySide level run.now x_of y_of
        → OnOk result (AppendsValues bytes level format.now run.now.texels x_of y_of
        (taken samples.old) (taken samples.new))) }
    ensures others { OnOk result (KeepsOthers samples.old samples.new) }
    ensures reader { LeavesReader B.keeps B.refuses reader.old reader.new result }
{
    let size = format.texel_bytes;
    let most = texels_at_once(format);
    reserve(samples, format, run)?;
    let mut window = Window::new(samples.values.allocator());
    let mut done = 0usize;
    'parts: while done < run.texels {
        let part = Run {
            at: run.at + (done * size) as u64,
            texels: most.min(run.texels - done),
        };
        read_part(reader, format, &part, &mut window, samples)?;
        done += part.texels;
    }
    Ok(())
}
