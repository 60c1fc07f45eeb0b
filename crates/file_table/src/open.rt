//! Opens a file and makes its record.
ghost use Rattle.std.specs.Prelude.{◌≡◌, ◌≤◌, IfOk, IfErr, OnOk};
ghost use Rattle.tex_world.specs.World.{IsFile};
ghost use Rattle.tex_world.specs.Tap.{IsLeast};
ghost use Rattle.tiff_format.specs.Cut.{IsCut};
ghost use Rattle.file_table.specs.Calls.{OpensOnce, OpenedCause, ReadsOnly, IsFaultless};

use crate::error::FileError;
use crate::record::Record;
use std::alloc::Global;
use tap_reader::{AheadReader, ReadAhead};
use tex_world::{ReadError, Tap, TapHandle};
use tiff_dirs::read_dirs;
use tiff_entries::DirsError;
use tiff_format::Cut;
use tile_layout::Layout;

/// The result of opening and reading a file: its record and perhaps its handle. The handle is worth
/// keeping idle if the file is valid and its directories were read through a window.
#[derive(Drop)]
pub(crate) struct Opened<T: Tap> {
    pub(crate) record: Record<T::W>,
    pub(crate) idle: Option<T::Handle>,
}

/// Opens a file at a generation of at least `least`, and reads its record.
pub(crate) fn open_record<T: Tap, B>(
    alloc: Global,
    tap: &mut T,
    file: u32,
    least: u32,
    cut: Cut,
) -> Result<Opened<T>, FileError<B>>
    requires file { IsFile T.W.files file }
    requires least { IsLeast T.W.files file least }
    requires cut { IsCut cut }
    ensures ok { IfOk result (λ o.
        (o.record.file ≡ file) × (least ≤ o.record.generation) × (o.record.cut ≡ cut)) }
    ensures once { OpensOnce (T.state tap.old) (T.state tap.new) }
    ensures faultless { OnOk result (IsFaultless (T.state tap.old) (T.state tap.new)) }
    ensures cause { IfErr result
        (OpenedCause T.W.files file least (T.state tap.old) (T.state tap.new)) }
{
    let handle = tap.open(alloc, file, least)?;
    read_record(alloc, tap, handle, cut)
}

/// Reads the record of the handle's generation.
fn read_record<T: Tap, B>(
    alloc: Global,
    tap: &mut T,
    mut handle: T::Handle,
    cut: Cut,
) -> Result<Opened<T>, FileError<B>>
    requires told { IsFile T.W.files (T.Handle.named handle).file }
    requires cut { IsCut cut }
    ensures ok { let named = T.Handle.named handle in IfOk result (λ o. (o.record.file ≡ named.file)
        × (o.record.generation ≡ named.generation) × (o.record.cut ≡ cut)) }
    ensures reads { ReadsOnly (T.state tap.old) (T.state tap.new) }
    ensures faultless { OnOk result (IsFaultless (T.state tap.old) (T.state tap.new)) }
    ensures cause { let named = T.Handle.named handle in IfErr result (OpenedCause T.W.files
        named.file named.generation (T.state tap.old) (T.state tap.new)) }
{
    let file = handle.file();
    let generation = handle.generation();
    let mut ahead = ReadAhead::none(alloc, file, generation);
    let windows = [ahead.window()];
    let mut reader = AheadReader {
        tap,
        handle: &mut handle,
        ahead: &mut ahead,
        bands: &windows,
    };
    let layout = match read_dirs(alloc, &mut reader) {
        Ok(dirs) => Ok(Layout::of(dirs)),
        Err(DirsError::Fault(fault)) => Err(fault),
        Err(DirsError::Reader(ReadError::Failed)) => return Err(FileError::ReadFault),
        Err(DirsError::Reader(ReadError::Gone(to))) => {
            return Err(FileError::Again {
                from: generation,
                to,
            });
        }
        Err(DirsError::NoMemory) => return Err(FileError::NoMemory),
    };
    let idle = layout.is_ok() && ahead.len() > 0;
    Ok(Opened {
        record: Record::of(alloc, file, generation, cut, layout)?,
        idle: idle.then_some(handle),
    })
}
