//! Loads the cells of stored levels through a tap.

ghost use Rattle.std.specs.Prelude.{◌≡◌, ◌*◌, length, IfOk, IsOkAnd};
ghost use Rattle.std.specs.Option.{ForSome};
ghost use Rattle.tap_reader.specs.TapReader.{lent_of};
ghost use Rattle.tile_layout.specs.Cell.{CellsFit, bit_depth_in};
ghost use Rattle.tiff_format.specs.Cut.{IsCut};
ghost use Rattle.tile_layout.specs.Kept.{level_in};
ghost use Rattle.tile_layout.specs.Texel.{texel_at, AreTexelsOn, FitDepth};
ghost use Rattle.tile_load.specs.Load.{IsLayoutOf, IsReadBy, NamesCell};
ghost use Rattle.piece_samples.specs.Beyond.{CountAsZero, IsFilled, IsAllBeyond};
ghost use Rattle.tile_load.specs.CellTile.{IsCellTile, HasZeros, IsCellBeyond};
ghost use Rattle.tile_load.specs.LoadError.{LeavesTap};
ghost use Rattle.rect_read.specs.RectSamples.{samples_of};
ghost use Rattle.tile_store.specs.Tile.{cached_tile, IsTile};
ghost use Rattle.tile_store.specs.Told.{IsTold};

use crate::bands::next_bands;
use crate::load_error::{LoadError, load_error};
use file_table::Record;
use rect_read::{PlaneRect, RectSamples, read_texels};
use std::alloc::Global;
use tap_reader::{AheadReader, OpenFile};
use tex_world::{Tap, World};
use tiff_format::{Cut, Rect};
use tile_layout::{Layout, TileKey};
use tile_store::Tile;

/// Loads the tile of a stored level's cell, through a handle of the record's file and generation.
///
/// The file must be valid, and its cells small enough under `cut`, which may differ from the
/// record's own cut. A piece of a row beyond the end of the file is not read, and its samples are
/// 0. This can only happen if the world is not modelled.
pub fn load<T: Tap>(
    alloc: Global,
    tap: &mut T,
    file: &mut OpenFile<T>,
    known: &Record<T::W>,
    key: TileKey,
    cut: Cut,
) -> Result<Tile<T::W>, LoadError>
    requires reads { IsReadBy (T.Handle.named file.old.handle) known.now }
    requires cut { IsCut cut }
    requires cell { IsOkAnd known.now.layout (λ layout.
        NamesCell (T.Handle.named file.old.handle) layout cut key) }
    requires fits { IsOkAnd known.now.layout (λ layout. CellsFit layout cut) }
    ensures tile { IsOkAnd known.now.layout (λ layout.
        IfOk result (IsCellTile layout cut key)) }
    ensures told { IfOk result (IsTold T.W.files) }
    ensures zeros { IsOkAnd known.now.layout (λ layout.
        IfOk result (HasZeros layout (T.Handle.named file.old.handle).len)) }
    ensures unread { IfOk known.now.layout (λ layout.
        IsCellBeyond layout cut key (T.Handle.named file.old.handle).len
        → T.state tap.new ≡ T.state tap.old) }
    ensures tap { LeavesTap T.W.files
        (lent_of (T.Handle.named file.old.handle) (T.state tap.old))
        (lent_of (T.Handle.named file.new.handle) (T.state tap.new)) result }
{
    match known.layout() {
        Ok(layout) => load_at(alloc, tap, file, layout, key, cut),
        Err(_) => unreachable!(),
    }
}

/// Loads the tile of a stored level's cell, through a handle of its file and generation. The layout
/// must be that of the handle's bytes.
///
/// A cell whose rows are close together in the file takes one read for each 256 KiB. That includes
/// stored tiles, and whole rows of strips or tiles that follow each other. Besides the tile, memory
/// is needed for a row and for at most 256 KiB that are read ahead. A tile of an 8-bit file keeps
/// one byte per sample. A piece beyond the end of the file is not read, and its samples are 0.
pub fn load_at<T: Tap>(
    alloc: Global,
    tap: &mut T,
    file: &mut OpenFile<T>,
    layout: &Layout,
    key: TileKey,
    cut: Cut,
) -> Result<Tile<T::W>, LoadError>
    requires cell { NamesCell (T.Handle.named file.old.handle) layout.now cut key }
    requires cut { IsCut cut }
    requires fits { CellsFit layout.now cut }
    requires layout { ForSome (T.W.files.held (T.Handle.named file.old.handle).file
        (T.Handle.named file.old.handle).generation) (λ bytes. IsLayoutOf bytes layout.now) }
    ensures tile { IfOk result (IsCellTile layout.now cut key) }
    ensures told { IfOk result (IsTold T.W.files) }
    ensures zeros { IfOk result (HasZeros layout.now (T.Handle.named file.old.handle).len) }
    ensures unread { IsCellBeyond layout.now cut key (T.Handle.named file.old.handle).len
        → T.state tap.new ≡ T.state tap.old }
    ensures tap { LeavesTap T.W.files
        (lent_of (T.Handle.named file.old.handle) (T.state tap.old))
        (lent_of (T.Handle.named file.new.handle) (T.state tap.new)) result }
{
    // needed by the proof: the cells of every stored level are small enough
    let _ = layout.levels(cut);
    let level = key.level();
    let rect = layout.cell_rect(level, cut, key.index());
    // needed by the proof: each stored level has a first plane
    let _ = layout.planes(level);
    let place = PlaneRect {
        layout,
        level,
        plane: 0,
        rect,
    };
    match read_place(alloc, tap, file, &place) {
        Ok(texels) => Ok(tile_of(key, rect, layout.channels(), texels)),
        Err(error) => Err(error),
    }
}

/// The tile with this key, rectangle and texels.
pub(crate) fn tile_of<W: World>(
    key: TileKey,
    rect: Rect,
    channels: u32,
    texels: RectSamples,
) -> Tile<W>
    requires tile { IsTile (cached_tile key rect channels (samples_of texels)) }
    requires told { IsTold W.files (cached_tile key rect channels (samples_of texels)) }
    ensures { result ≡ cached_tile key rect channels (samples_of texels) }
{
    match texels {
        RectSamples::Bytes(texels) => Tile::of_bytes(key, rect, channels, texels),
        RectSamples::Shorts(texels) => Tile::new(key, rect, channels, texels),
    }
}

/// Reads the texels of a place, with the file's number of bits.
fn read_place<T: Tap>(
    alloc: Global,
    tap: &mut T,
    file: &mut OpenFile<T>,
    place: &PlaneRect<'_>,
) -> Result<RectSamples, LoadError>
    requires layout { ForSome (T.W.files.held (T.Handle.named file.old.handle).file
        (T.Handle.named file.old.handle).generation)
        (λ bytes. IsLayoutOf bytes place.now.layout.now) }
    ensures count { IfOk result (λ texels. length (samples_of texels) ≡ place.now.rect.w
        * place.now.rect.h * (level_in place.now.layout.now place.now.level).shape.channels) }
    ensures low { IfOk result (λ texels.
        FitDepth (bit_depth_in place.now.layout.now) (samples_of texels)) }
    ensures told { ForSome (T.W.files.held (T.Handle.named file.old.handle).file
        (T.Handle.named file.old.handle).generation) (λ bytes. IfOk result (λ texels.
        AreTexelsOn (texel_at bytes place.now.level)
        (level_in place.now.layout.now place.now.level).shape.channels
        place.now.rect (samples_of texels))) }
    ensures zeros { IfOk result (λ texels. CountAsZero
        (level_in place.now.layout.now place.now.level) (T.Handle.named file.old.handle).len
        place.now.rect (samples_of texels)) }
    ensures unread { IsFilled place.now.rect → IsAllBeyond
        (level_in place.now.layout.now place.now.level) (T.Handle.named file.old.handle).len
        place.now.rect → T.state tap.new ≡ T.state tap.old }
    ensures tap { LeavesTap T.W.files
        (lent_of (T.Handle.named file.old.handle) (T.state tap.old))
        (lent_of (T.Handle.named file.new.handle) (T.state tap.new)) result }
{
    let bands = next_bands(alloc, &mut file.ahead, place);
    let mut reader = AheadReader {
        tap,
        handle: &mut file.handle,
        ahead: &mut file.ahead,
        bands: &bands,
    };
    match read_texels(alloc, &mut reader, place.layout, place.level, place.rect) {
        Ok(texels) => Ok(texels),
        Err(error) => Err(load_error(error)),
    }
}
