//! Reads the samples of a part through a tap.

ghost use Rattle.std.specs.Prelude.{◌≡◌, ◌+◌, ◌*◌, ◌<◌, ◌≤◌, ℕ, length, slice_index, OnOk};
ghost use Rattle.std.specs.Option.{ForSome};
ghost use Rattle.tap_reader.specs.TapReader.{lent_of};
ghost use Rattle.tile_layout.specs.Cell.{bit_depth_in};
ghost use Rattle.tile_layout.specs.Kept.{level_in};
ghost use Rattle.tile_layout.specs.Texel.{texel_at, FitDepth};
ghost use Rattle.piece_samples.specs.Beyond.{IsAllBeyond};
ghost use Rattle.piece_samples.specs.LayoutOf.{IsLayoutOf};
ghost use Rattle.piece_samples.specs.TexelRow.{row_rect};
ghost use Rattle.tile_slots.specs.FillError.{LeavesTap};
ghost use Rattle.tile_slots.specs.Slot.{AreRowZeros};

use crate::fill_error::{FillError, fill_error};
use piece_samples::{TexelRow, read_row};
use tap_reader::TapReader;
use tex_world::Tap;

/// Reads the samples of a row, all samples of a texel together, to the front of `samples`. After an
/// error their content is undefined.
pub(crate) fn read_samples<T: Tap>(
    tap: &mut T,
    h: &mut T::Handle,
    row: &TexelRow<'_>,
    samples: &mut [u16],
) -> Result<(), FillError>
    requires room { row.now.n * (level_in row.now.layout.now row.now.level).shape.channels
        ≤ length samples.old }
    requires layout { ForSome (T.W.files.held (T.Handle.named h.old).file
        (T.Handle.named h.old).generation) (λ bytes. IsLayoutOf bytes row.now.layout.now) }
    ensures told { ForSome (T.W.files.held (T.Handle.named h.old).file
        (T.Handle.named h.old).generation) (λ bytes. OnOk result ((i c : ℕ) → i < row.now.n
        → c < (level_in row.now.layout.now row.now.level).shape.channels
        → slice_index samples.new
        (i * (level_in row.now.layout.now row.now.level).shape.channels + c)
        ≡ texel_at bytes row.now.level (row.now.x + i) row.now.y c)) }
    ensures low { OnOk result (FitDepth (bit_depth_in row.now.layout.now) samples.old
        → FitDepth (bit_depth_in row.now.layout.now) samples.new) }
    ensures zeros { OnOk result (AreRowZeros (level_in row.now.layout.now row.now.level)
        (T.Handle.named h.old).len row.now.x row.now.y row.now.n samples.new) }
    ensures unread { IsAllBeyond (level_in row.now.layout.now row.now.level)
        (T.Handle.named h.old).len (row_rect row.now.x row.now.y row.now.n)
        → T.state tap.new ≡ T.state tap.old }
    ensures tap { LeavesTap T.W.files (lent_of (T.Handle.named h.old) (T.state tap.old))
        (lent_of (T.Handle.named h.new) (T.state tap.new)) result }
{
    let count = row.n as usize * row.layout.channels() as usize;
    let mut reader = TapReader { tap, handle: h };
    match read_row(&mut reader, row, &mut samples[..count]) {
        Ok(()) => Ok(()),
        Err(error) => Err(fill_error(error)),
    }
}
