//! Checks of a record that come before a cell of it is read.
ghost use Rattle.std.specs.Prelude.{◌≡◌, ◌<◌, OnOk, IfOk, IfErr, IsOkAnd};
ghost use Rattle.tile_layout.specs.Level.{level_count_in};
ghost use Rattle.tile_layout.specs.Cell.{CellsFit};
ghost use Rattle.file_table.specs.Record.{CutsLevel};
ghost use Rattle.file_table.specs.Picture.{MayServe};
ghost use Rattle.tile_source.specs.Texel.{IsTexelOf};
ghost use Rattle.image_cache.specs.Cause.{LookupRefuses, PixelsRefuses, TileRefuses};

use file_table::{Picture, Record};
use tex_world::World;
use texel_values::TexelAt;
use tile_layout::Grid;
use tile_source::CacheError;

/// The picture of a record. Fails unless the file is valid and all its cells are small enough.
pub fn picture_of<W: World, B>(known: &Record<W>) -> Result<Picture<'_, W>, CacheError<B>>
    ensures ok { IfOk result (λ picture. picture ≡ known.now) }
    ensures serves { OnOk result (MayServe known.now) }
    ensures err { IfErr result (LookupRefuses known.now) }
{
    Ok(known.picture()?)
}

/// The division of one level into cells. Fails unless the file is valid, its cells are small enough
/// and it has the level.
pub(crate) fn level_in<W: World, B>(known: &Record<W>, level: u32) -> Result<Grid, CacheError<B>>
    ensures ok { OnOk result (IsOkAnd known.now.layout (λ kept. CellsFit kept known.now.cut
        × (level < level_count_in kept known.now.cut.automip))) }
    ensures grid { IfOk result (CutsLevel known.now level) }
    ensures err { IfErr result (PixelsRefuses level known.now) }
{
    let picture = picture_of(known)?;
    let levels = picture.levels();
    if level < levels {
        return Ok(picture.grid(level));
    }
    Err(CacheError::NoLevel {
        generation: picture.generation(),
        levels,
    })
}

/// Fails unless the file is valid, its cells are small enough and the texel lies in one of its
/// levels.
pub(crate) fn inside<W: World, B>(known: &Record<W>, at: TexelAt) -> Result<(), CacheError<B>>
    ensures ok { OnOk result (IsOkAnd known.now.layout (λ kept.
        CellsFit kept known.now.cut × IsTexelOf kept known.now.cut at)) }
    ensures err { IfErr result (TileRefuses at known.now) }
{
    let grid = level_in(known, at.level)?;
    if at.x < grid.across.size && at.y < grid.down.size {
        return Ok(());
    }
    Err(CacheError::Outside {
        generation: known.generation(),
    })
}
