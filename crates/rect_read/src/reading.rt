//! Reads the pieces of a level's rows: collects samples, and reads ahead.

ghost use Rattle.std.specs.Prelude.{◌≡◌, ◌+◌, ◌*◌, ◌≤◌, ◌<◌, ◌++◌, ℕ, [], length, replicate, OnOk};
ghost use Rattle.std.specs.List.{All};
ghost use Rattle.std.specs.Option.{ForSome};
ghost use Rattle.std.specs.List.{flat_map};
ghost use Rattle.tiff_format.specs.Block.{Level};
ghost use Rattle.tile_layout.specs.Plane.{plane_in};
ghost use Rattle.tile_layout.specs.Pieces.{LiesSideBySide, row_texels, rect_texels};
ghost use Rattle.tile_layout.specs.FormatOf.{IsFormatOf};
ghost use Rattle.tile_layout.specs.Blocks.{HoldsBlocks};
ghost use Rattle.rect_read.specs.Samples.{samples_at};
ghost use Rattle.rect_read.specs.Taken.{taken, FitsSamples, KeepsOthers};
ghost use Rattle.rect_read.specs.RectSamples.{samples_of};
ghost use Rattle.piece_samples.specs.Unpacked.{KeepsDepth};
ghost use Rattle.rect_read.specs.Window.{AreWindows};
ghost use Rattle.rect_read.specs.RectRead.{LeavesReader};
ghost use Rattle.piece_samples.specs.Beyond.{IsFilled, IsPlaneBeyond};
ghost use Rattle.rect_read.specs.Zeros.{AddsTexel, AddsTexels, AddsZeros, LiesBeyond};

use crate::place::PlaneRect;
use crate::rect_error::RectError;
use crate::rows::RowLayout;
use crate::run::{Run, read_run};
use crate::samples::Samples;
use crate::window::{Window, ready};
use piece_samples::Span;
use std::alloc::{AllocError, Global};
use tiff_entries::ByteReader;
use tiff_format::Rect;
use tile_layout::{Piece, Pieces, TexelFormat};

/// The most bytes that all windows of a row read ahead together: 256 KiB.
pub(crate) const MAX_AHEAD: u64 = 256 * 1024;

/// The samples read so far, and a window for each piece of a row.
#[derive(Drop)]
pub(crate) struct RectReader {
    pub(crate) samples: Samples,
    pub(crate) windows: Vec<Window>,
    /// The rows to read.
    rows: RowLayout,
}

/// The index of the window for a piece of row y: 0 at the start of a row, otherwise the next one.
fn window_of(row: &mut u32, y: u32, next: usize) -> usize
    ensures { result ≤ next }
{
    if y == *row {
        next
    } else {
        *row = y;
        0
    }
}

impl RectReader {
    /// A reading that continues after the samples already taken.
    pub(crate) fn new(alloc: Global, samples: Samples, rows: RowLayout) -> RectReader
        ensures samples { result.samples ≡ samples }
        ensures windows { result.windows.items ≡ [] }
    {
        RectReader {
            samples,
            windows: Vec::new(alloc),
            rows,
        }
    }

    /// Reserves memory for the samples of a rectangle.
    pub(crate) fn reserve(&mut self, rect: Rect, channels: usize) -> Result<(), AllocError>
        ensures taken { taken self.new.samples ≡ taken self.old.samples }
        ensures values { samples_of self.new.samples.values ≡ samples_of self.old.samples.values }
        ensures places { self.new.samples.places ≡ self.old.samples.places }
        ensures others { KeepsOthers self.old.samples self.new.samples }
        ensures windows { self.new.windows.items ≡ self.old.windows.items }
    {
        let texels = u64::from(rect.w) * u64::from(rect.h);
        let count = texels.checked_mul(channels as u64).ok_or(AllocError)?;
        self.samples.reserve(count as usize)?;
        Ok(())
    }

    /// Appends the samples of a piece that lies in the file, read through window k.
    fn read_span<B: ByteReader>(
        &mut self,
        reader: &mut B,
        format: &TexelFormat,
        piece: &Piece,
        k: usize,
    ) -> Result<(), RectError<B::Error>>
        requires samples { FitsSamples self.old.samples format.now }
        requires there { k < length self.old.windows.items }
        requires below { piece.now.at + piece.now.n * format.now.texel_bytes
            ≤ B.size reader.old }
        ensures next { OnOk result (length self.new.windows.items
            ≡ length self.old.windows.items) }
        ensures count { OnOk result (AddsTexel ⊥
            (piece.now.n * format.now.channels)
            (taken self.old.samples) (taken self.new.samples)) }
        ensures low { OnOk result (KeepsDepth format.now
            (samples_of self.old.samples.values) (samples_of self.new.samples.values)) }
        ensures told { ForSome (B.bytes reader.old) (λ bytes. (level : Level) → (right : ℕ)
            → AreWindows bytes self.old.windows.items
            → IsFormatOf format.now.big level.shape format.now
            → LiesSideBySide level right piece.now
            → OnOk result (AreWindows bytes self.new.windows.items
            × (taken self.new.samples ≡ taken self.old.samples
            ++ flat_map (samples_at format.now.big bytes level)
            (row_texels piece.now.x piece.now.y piece.now.n)))) }
        ensures others { OnOk result (KeepsOthers self.old.samples self.new.samples) }
        ensures reader { LeavesReader B.keeps B.refuses reader.old reader.new result }
    {
        let most = MAX_AHEAD / self.windows.len() as u64;
        let behind = self.rows.behind(piece.y);
        let window = &mut self.windows[k];
        let span = Span::of(piece, format);
        window.fill(reader, &span, &behind, most)?;
        let count = piece.n as usize * format.channels;
        self.samples.push(format, window.piece(&span), count)?;
        Ok(())
    }

    /// Appends the samples of a piece, read through window k. They are 0 if the piece lies beyond
    /// the end of the file.
    fn read_piece<B: ByteReader>(
        &mut self,
        reader: &mut B,
        format: &TexelFormat,
        piece: &Piece,
        k: usize,
    ) -> Result<(), RectError<B::Error>>
        requires samples { FitsSamples self.old.samples format.now }
        requires window { k ≤ length self.old.windows.items }
        ensures next { OnOk result (k < length self.new.windows.items) }
        ensures count { OnOk result (AddsTexel
            (B.size reader.old < piece.now.at + piece.now.n * format.now.texel_bytes)
            (piece.now.n * format.now.channels)
            (taken self.old.samples) (taken self.new.samples)) }
        ensures unread { B.size reader.old
            < piece.now.at + piece.now.n * format.now.texel_bytes
            → reader.new ≡ reader.old }
        ensures low { OnOk result (KeepsDepth format.now
            (samples_of self.old.samples.values) (samples_of self.new.samples.values)) }
        ensures told { ForSome (B.bytes reader.old) (λ bytes. (level : Level) → (right : ℕ)
            → AreWindows bytes self.old.windows.items
            → IsFormatOf format.now.big level.shape format.now
            → LiesSideBySide level right piece.now → HoldsBlocks bytes level
            → OnOk result (AreWindows bytes self.new.windows.items
            × (taken self.new.samples ≡ taken self.old.samples
            ++ flat_map (samples_at format.now.big bytes level)
            (row_texels piece.now.x piece.now.y piece.now.n)))) }
        ensures others { OnOk result (KeepsOthers self.old.samples self.new.samples) }
        ensures reader { LeavesReader B.keeps B.refuses reader.old reader.new result }
    {
        ready(&mut self.windows, k)?;
        let span = Span::of(piece, format);
        if span.lies_below(reader.len()) {
            return self.read_span(reader, format, piece, k);
        }
        let count = u64::from(piece.n) * format.channels as u64;
        self.samples.push_zeros(count)?;
        Ok(())
    }

    /// Appends the samples of the pieces of rows. The k-th piece of each row is read through window
    /// k.
    pub(crate) fn read_pieces<B: ByteReader>(
        &mut self,
        reader: &mut B,
        format: &TexelFormat,
        pieces: &mut Pieces<'_>,
    ) -> Result<(), RectError<B::Error>>
        requires samples { FitsSamples self.old.samples format.now }
        ensures count { OnOk result (length (taken self.new.samples) ≡ length (taken self.old.samples)
            + length pieces.old.texels * format.now.channels) }
        ensures zeros { IsFormatOf format.now.big pieces.old.level.shape
            format.now → OnOk result (AddsTexels
            (LiesBeyond pieces.old.level pieces.old.right (B.size reader.old))
            format.now.channels pieces.old.texels
            (taken self.old.samples) (taken self.new.samples)) }
        ensures unread { IsFormatOf format.now.big pieces.old.level.shape
            format.now
            → All (LiesBeyond pieces.old.level pieces.old.right (B.size reader.old))
            pieces.old.texels → reader.new ≡ reader.old }
        ensures low { OnOk result (KeepsDepth format.now
            (samples_of self.old.samples.values) (samples_of self.new.samples.values)) }
        ensures told { ForSome (B.bytes reader.old) (λ bytes.
            AreWindows bytes self.old.windows.items
            → IsFormatOf format.now.big pieces.old.level.shape format.now
            → HoldsBlocks bytes pieces.old.level
            → OnOk result (AreWindows bytes self.new.windows.items
            × (taken self.new.samples ≡ taken self.old.samples
            ++ flat_map (samples_at format.now.big bytes pieces.old.level) pieces.old.texels))) }
        ensures others { OnOk result (KeepsOthers self.old.samples self.new.samples) }
        ensures reader { LeavesReader B.keeps B.refuses reader.old reader.new result }
    {
        let mut k = 0usize;
        let mut row = 0;
        'pieces: while let Some(piece) = pieces.next() {
            let own = window_of(&mut row, piece.y, k);
            self.read_piece(reader, format, &piece, own)?;
            k = own + 1;
        }
        Ok(())
    }

    /// Appends the samples of a place, row by row. If its rows follow one another in the file, they
    /// are read together.
    pub(crate) fn read_place<B: ByteReader>(
        &mut self,
        reader: &mut B,
        format: &TexelFormat,
        place: &PlaneRect<'_>,
    ) -> Result<(), RectError<B::Error>>
        requires samples { FitsSamples self.old.samples format.now }
        requires format { IsFormatOf place.now.layout.now.big
            (plane_in place.now.layout.now place.now.level place.now.plane).shape format.now }
        ensures count { OnOk result (length (taken self.new.samples)
            ≡ length (taken self.old.samples)
            + place.now.rect.w * place.now.rect.h * format.now.channels) }
        ensures zeros { OnOk result (AddsZeros
            (plane_in place.now.layout.now place.now.level place.now.plane) (B.size reader.old) place.now.rect
            (taken self.old.samples) (taken self.new.samples)) }
        ensures unread { IsFilled place.now.rect → IsPlaneBeyond
            (plane_in place.now.layout.now place.now.level place.now.plane) (B.size reader.old) place.now.rect
            → reader.new ≡ reader.old }
        ensures low { OnOk result (KeepsDepth format.now
            (samples_of self.old.samples.values) (samples_of self.new.samples.values)) }
        ensures told { ForSome (B.bytes reader.old) (λ bytes.
            AreWindows bytes self.old.windows.items
            → HoldsBlocks bytes (plane_in place.now.layout.now place.now.level place.now.plane)
            → OnOk result (AreWindows bytes self.new.windows.items
            × (taken self.new.samples ≡ taken self.old.samples
            ++ flat_map (samples_at place.now.layout.now.big bytes
            (plane_in place.now.layout.now place.now.level place.now.plane))
            (rect_texels place.now.rect)))) }
        ensures others { OnOk result (KeepsOthers self.old.samples self.new.samples) }
        ensures reader { LeavesReader B.keeps B.refuses reader.old reader.new result }
    {
        match Run::of(place, format, reader.len()) {
            Some(run) => read_run(reader, format, &run, &mut self.samples),
            None => {
                let mut pieces = place
                    .layout
                    .plane_pieces(place.level, place.rect, place.plane);
                self.read_pieces(reader, format, &mut pieces)
            }
        }
    }
}
