//! Reads an image, and makes the levels that its file does not store.

ghost use Rattle.std.specs.Prelude.{◌≡◌, ◌-◌, ◌*◌, ◌≤◌, ◌<◌, ◌++◌, ◌∷◌, ◌↔◌, [], length, map, IfOk, OnOk};
ghost use Rattle.std.specs.Prelude.{IsTrue, List, ℕ};
ghost use Rattle.std.specs.Option.{ForSome};
ghost use Rattle.tiff_format.specs.Facts.{IsChain};
ghost use Rattle.tiff_format.specs.Shown.{shown as shown_dir};
ghost use Rattle.tiff_format.specs.Texel.{sample_in};
ghost use Rattle.tile_layout.specs.Blocks.{HoldsBlocks};
ghost use Rattle.tile_layout.specs.Cell.{bit_depth_in};
ghost use Rattle.tile_layout.specs.Kept.{AreDirsOf, kept_in, stored_count, level_in};
ghost use Rattle.tile_layout.specs.Texel.{AreTexelsOn, FitDepth};
ghost use Rattle.rect_read.specs.RectRead.{LeavesReader as LeavesRect};
ghost use Rattle.tex_make.specs.Level.{shown};
ghost use Rattle.tex_make.specs.Picture.{AreAlike, picture_of, samples_of, max_samples};
ghost use Rattle.tex_make.specs.PlainLevel.{level_at};
ghost use Rattle.tex_make.specs.Pyramid.{seen};
ghost use Rattle.tex_make.specs.Reading.{Pictures, LeavesReader};
ghost use Rattle.tex_make.specs.Stored.{whole_of, HasShape, HasTexels, AreLevelsOf, AreTexelsOf, EndsSingle};
ghost use Rattle.tex_make.specs.Stored.{HoldsAll, IsLarge, samples_kept};

use crate::level::Level;
use crate::picture::Pyramid;
use rect_read::{RectError, read_rect};
use std::alloc::{AllocError, Global};
use tiff_dirs::read_dirs;
use tiff_entries::{ByteReader, DirsError};
use tiff_format::{Dir, Dirs, Rect};
use tile_layout::Layout;

/// The most samples of level 0.
const MAX_SAMPLES: u64 = 67108864;

/// Why an image could not be read.
#[derive(Debug, Drop)]
pub(crate) enum PictureError<E> {
    /// The file has a fault.
    Fault,
    /// Level 0 has too many samples.
    TooLarge,
    /// The reader failed with this error.
    Reader(E),
    /// Out of memory.
    NoMemory,
}

/// Whether level 0 has more samples than are allowed.
fn is_large(dir: &Dir) -> bool
    ensures { IsTrue result ↔ IsLarge (shown_dir dir.now) }
{
    u64::from(dir.width) * u64::from(dir.height) * u64::from(dir.channels) > MAX_SAMPLES
}

/// Reads the samples of a stored level, row by row.
fn read_samples<B: ByteReader>(
    alloc: Global,
    reader: &mut B,
    layout: &Layout,
    level: u32,
) -> Result<Vec<u16>, RectError<B::Error>>
    requires { level < stored_count layout.now }
    ensures count { IfOk result (λ samples. length samples.items
        ≡ (whole_of layout.now level).w * (whole_of layout.now level).h
        * (level_in layout.now level).shape.channels) }
    ensures low { IfOk result (λ samples. FitDepth (bit_depth_in layout.now) samples.items) }
    ensures told { ForSome (B.bytes reader.old) (λ bytes. HoldsBlocks bytes (level_in layout.now level)
        → IfOk result (λ samples. AreTexelsOn
        (sample_in layout.now.big bytes (level_in layout.now level))
        (level_in layout.now level).shape.channels (whole_of layout.now level) samples.items)) }
    ensures reader { LeavesRect B.keeps B.refuses reader.old reader.new result }
{
    let (w, h) = layout.size(level);
    read_rect(alloc, reader, layout, level, Rect { x: 0, y: 0, w, h })
}

/// Reads a stored level.
fn read_level<B: ByteReader>(
    alloc: Global,
    reader: &mut B,
    layout: &Layout,
    level: u32,
) -> Result<Level, RectError<B::Error>>
    requires { level < stored_count layout.now }
    ensures shape { IfOk result (λ read. HasShape layout.now level (shown read)) }
    ensures told { ForSome (B.bytes reader.old) (λ bytes. HoldsAll bytes layout.now
        → IfOk result (λ read. HasTexels layout.now bytes level (shown read))) }
    ensures reader { LeavesRect B.keeps B.refuses reader.old reader.new result }
{
    let (width, height) = layout.size(level);
    let samples = read_samples(alloc, reader, layout, level)?;
    Ok(Level {
        width,
        height,
        channels: layout.channels(),
        depth: layout.depth(),
        samples,
    })
}

/// The last of these levels.
fn last_of(levels: &[Level]) -> &Level
    requires { 1 ≤ length levels.now }
    ensures { shown result.now ≡ level_at (map shown levels.now) (length levels.now - 1) }
{
    &levels[levels.len() - 1]
}

/// The level after these: read if it is stored, otherwise half of the last one.
fn next_level<B: ByteReader>(
    alloc: Global,
    reader: &mut B,
    layout: &Layout,
    levels: &[Level],
) -> Result<Level, RectError<B::Error>>
    requires { AreLevelsOf layout.now (map shown levels.now) }
    ensures shape { IfOk result (λ next.
        HasShape layout.now (length levels.now) (shown next)) }
    ensures told { ForSome (B.bytes reader.old) (λ bytes. HoldsAll bytes layout.now
        → AreTexelsOf layout.now bytes (map shown levels.now)
        → IfOk result (λ next. HasTexels layout.now bytes (length levels.now) (shown next))) }
    ensures reader { LeavesRect B.keeps B.refuses reader.old reader.new result }
{
    let number = levels.len();
    if number < layout.stored() as usize {
        return read_level(alloc, reader, layout, number as u32);
    }
    match last_of(levels).halved(alloc) {
        Ok(half) => Ok(half),
        Err(_) => Err(RectError::NoMemory),
    }
}

/// Appends a level.
fn push(levels: &mut Vec<Level>, level: Level) -> Result<(), AllocError>
    ensures { OnOk result (levels.new.items ≡ levels.old.items ++ level ∷ []) }
{
    levels.push(level)?;
    Ok(())
}

/// Reads or makes the levels down to one texel.
fn read_levels<B: ByteReader>(
    alloc: Global,
    reader: &mut B,
    layout: &Layout,
) -> Result<Vec<Level>, RectError<B::Error>>
    requires { IsChain layout.now.levels }
    ensures levels { IfOk result (λ levels. AreLevelsOf layout.now (map shown levels.items)) }
    ensures last { IfOk result (λ levels. EndsSingle (map shown levels.items)
        (length levels.items - 1)) }
    ensures told { ForSome (B.bytes reader.old) (λ bytes. HoldsAll bytes layout.now
        → IfOk result (λ levels. AreTexelsOf layout.now bytes (map shown levels.items))) }
    ensures reader { LeavesRect B.keeps B.refuses reader.old reader.new result }
{
    let mut levels = Vec::new(alloc);
    let first = read_level(alloc, reader, layout, 0)?;
    push(&mut levels, first)?;
    'down: while !last_of(&levels).is_single() {
        let next = next_level(alloc, reader, layout, &levels)?;
        push(&mut levels, next)?;
    }
    Ok(levels)
}

/// Reads the image with these directories.
fn read_pyramid<B: ByteReader>(
    alloc: Global,
    reader: &mut B,
    dirs: Dirs,
) -> Result<Pyramid, RectError<B::Error>>
    ensures small { IfOk result (λ pyramid. samples_of (seen pyramid)
        ≡ samples_kept (kept_in dirs)) }
    ensures told { ForSome (B.bytes reader.old) (λ bytes. AreDirsOf bytes dirs
        → HoldsAll bytes (kept_in dirs)
        → IfOk result (λ pyramid. AreAlike (seen pyramid) (picture_of bytes))) }
    ensures reader { LeavesRect B.keeps B.refuses reader.old reader.new result }
{
    let rgb = dirs.levels[0].rgb;
    let layout = Layout::of(dirs);
    let levels = read_levels(alloc, reader, &layout)?;
    Ok(Pyramid { levels, rgb })
}

/// Reads the image of a file: its directories, then each stored level. No byte of a strip or tile
/// is read twice.
pub(crate) fn read_picture<B: ByteReader>(
    alloc: Global,
    reader: &mut B,
) -> Result<Pyramid, PictureError<B::Error>>
    ensures small { IfOk result (λ pyramid. samples_of (seen pyramid) ≤ max_samples) }
    ensures told { ForSome (B.bytes reader.old) (λ bytes. Pictures bytes result) }
    ensures reader { LeavesReader B.keeps B.refuses reader.old reader.new result }
{
    let dirs = match read_dirs(alloc, reader) {
        Ok(dirs) => dirs,
        Err(DirsError::Fault(_)) => return Err(PictureError::Fault),
        Err(DirsError::Reader(e)) => return Err(PictureError::Reader(e)),
        Err(DirsError::NoMemory) => return Err(PictureError::NoMemory),
    };
    if is_large(&dirs.levels[0]) {
        return Err(PictureError::TooLarge);
    }
    match read_pyramid(alloc, reader, dirs) {
        Ok(pyramid) => Ok(pyramid),
        Err(RectError::Reader(e)) => Err(PictureError::Reader(e)),
        Err(RectError::NoMemory) => Err(PictureError::NoMemory),
    }
}
