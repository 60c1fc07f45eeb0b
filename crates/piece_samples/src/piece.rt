//! Reads one piece of a row, and writes its samples to their places.

ghost use Rattle.std.specs.Prelude.{◌≡◌, ◌≢◌, ◌+◌, ◌*◌, ◌≤◌, ◌<◌, ℕ, length, slice_index, take, OnOk};
ghost use Rattle.std.specs.Option.{ForSome};
ghost use Rattle.tiff_format.specs.Block.{Level};
ghost use Rattle.tiff_format.specs.Bytes.{IsPartAt};
ghost use Rattle.tile_layout.specs.FormatOf.{IsFormatOf};
ghost use Rattle.tile_layout.specs.Pieces.{LiesSideBySide};
ghost use Rattle.piece_samples.specs.Places.{FitsPlaces};
ghost use Rattle.piece_samples.specs.TexelRow.{IsReadSample, AfterReads, max_row_texels};
ghost use Rattle.piece_samples.specs.Unpacked.{KeepsDepth};

use crate::places::Places;
use crate::samples::{clear_to, unpack_to};
use crate::span::Span;
use tiff_entries::ByteReader;
use tile_layout::{Piece, TexelFormat};

/// The most bytes of a row: 64 texels of 8 samples of 16 bits.
const MAX_ROW_BYTES: usize = 1024;

/// Reads the bytes of a span to the front of `room`.
fn read_span<B: ByteReader>(reader: &mut B, span: &Span, room: &mut [u8]) -> Result<(), B::Error>
    requires fits { span.now.size ≤ length room.old }
    requires below { span.now.at + span.now.size ≤ B.size reader.old }
    ensures told { OnOk result (ForSome (B.bytes reader.old)
        (λ bytes. IsPartAt bytes span.now.at (take span.now.size room.new))) }
    ensures reader { AfterReads B.keeps B.refuses reader.old reader.new result }
{
    reader.read(span.at, &mut room[..span.size])
}

/// Reads a piece, and writes its samples to the next places. They are 0, and nothing is read, if
/// the piece lies beyond the end of the file. Allocates nothing.
pub(crate) fn read_piece<B: ByteReader>(
    reader: &mut B,
    format: &TexelFormat,
    piece: &Piece,
    places: &Places,
    samples: &mut [u16],
) -> Result<(), B::Error>
    requires few { piece.now.n ≤ max_row_texels }
    requires places { FitsPlaces places.now format.now }
    requires room { (places.now.done + piece.now.n * format.now.channels) * places.now.step
        ≤ length samples.old }
    ensures before { OnOk result ((k : ℕ) → k < places.now.done
        → slice_index samples.new (k * places.now.step + places.now.first)
        ≡ slice_index samples.old (k * places.now.step + places.now.first)) }
    ensures read { OnOk result ((level : Level) → (right : ℕ)
        → IsFormatOf format.now.big level.shape format.now → LiesSideBySide level right piece.now
        → (i c : ℕ) → i < piece.now.n → c < format.now.channels
        → IsReadSample (B.size reader.old) (B.bytes reader.old) format.now.big level right
        (piece.now.x + i) piece.now.y c
        (slice_index samples.new ((places.now.done + (i * format.now.channels + c))
        * places.now.step + places.now.first))) }
    ensures others { OnOk result ((k c : ℕ) → c < places.now.step → c ≢ places.now.first
        → slice_index samples.new (k * places.now.step + c)
        ≡ slice_index samples.old (k * places.now.step + c)) }
    ensures low { OnOk result (KeepsDepth format.now samples.old samples.new) }
    ensures unread { B.size reader.old < piece.now.at + piece.now.n * format.now.texel_bytes
        → reader.new ≡ reader.old }
    ensures reader { AfterReads B.keeps B.refuses reader.old reader.new result }
{
    let count = piece.n as usize * format.channels;
    let span = Span::of(piece, format);
    if !span.lies_below(reader.len()) {
        clear_to(count, places, samples);
        return Ok(());
    }
    let mut room = [0; MAX_ROW_BYTES];
    match read_span(reader, &span, &mut room) {
        Ok(()) => {
            unpack_to(format, &room[..span.size], count, places, samples);
            Ok(())
        }
        Err(e) => Err(e),
    }
}
