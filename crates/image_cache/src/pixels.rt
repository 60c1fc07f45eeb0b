//! Reads the values of a region of a level, cell by cell.
ghost use Rattle.std.specs.Prelude.{◌≡◌, ◌+◌, ◌*◌, ◌<◌, ◌≤◌, ◌++◌, [], ◌∷◌, length, replicate};
ghost use Rattle.std.specs.Prelude.{Err, IfOk, IfErr, IsOkAnd, IsTrue, OnOk, OnErr};
ghost use Rattle.std.specs.Option.{ForSome};
ghost use Rattle.tex_world.specs.World.{IsFile, max_files};
ghost use Rattle.tiff_format.specs.Facts.{IsChannelCount};
ghost use Rattle.texel_values.specs.Region.{max_texels, AreRegionValues};
ghost use Rattle.texel_values.specs.RegionShape.{HasValues, HasValuesOn, KeepsOthersOn};
ghost use Rattle.texel_values.specs.Area.{IsAreaOf, IsPainted, IsZeroBeside, area_cell, area_cells};
ghost use Rattle.tile_layout.specs.Grid.{shown_grid};
ghost use Rattle.tile_layout.specs.Key.{key_of, level_of};
ghost use Rattle.tile_layout.specs.Cell.{CellsFit, cell_rect};
ghost use Rattle.pinned_tiles.specs.Cell.{is_tile_of, StandsFirst};
ghost use Rattle.tile_source.specs.Pass.{IsPassOf};
ghost use Rattle.tile_source.specs.Texel.{IsGivenBy, IsCellOf};
ghost use Rattle.image_cache.specs.Caller.{call, caller_state};
ghost use Rattle.image_cache.specs.Reads.{ReadsPixels, LeavesPixels};
ghost use Rattle.tile_source.specs.Call.{Needs};
ghost use Rattle.image_cache.specs.Region.{ReadsRegion, HasAreaAt, HasAreaOf, IsWithin, area_keys};
ghost use Rattle.tile_source.specs.Source.{refusal, pass_tap, ReadsOn, IsSameCall, Reads};
ghost use Rattle.image_cache.specs.Cause.{PixelsRefuses};
ghost use Rattle.tile_source.specs.Cause.{StepCause};
ghost use Rattle.image_cache.specs.Cause.{KeepsRecentAt};

use crate::cache::Cache;
use crate::checks::level_in;
use file_table::{Picture, Record};
use pinned_tiles::CellAt;
use std::alloc::Global;
use tex_world::{NoMemory, Tap, World};
use texel_values::{Area, Region, paint};
use tile_source::{CacheError, Pass, TileSource};
use tile_store::Tile;
use waiter::Waiter;

/// What the values of a region were read from.
#[derive(Clone, Copy, Debug, PartialEq, Eq)]
pub struct Pixels {
    pub generation: u32,
    /// The number of values per texel.
    pub channels: u32,
}

/// The values of a region, row by row, and the number of values per texel.
#[derive(Drop)]
struct RegionValues {
    values: Vec<u16>,
    channels: u32,
}

impl<T: Tap> Cache<T> {
    /// Appends the 16-bit values of a region of a level, row by row, all channels of a texel
    /// together. Texels outside the level are 0.
    ///
    /// Each cell that the region meets is needed once, row by row.
    pub fn get_pixels<V: Waiter>(
        &self,
        waiter: &V,
        pass: &mut Pass<T::W>,
        tap: &mut T,
        file: u32,
        region: &Region,
        out: &mut Vec<u16>,
    ) -> Result<Pixels, CacheError<V::Busy>>
        requires pass { IsPassOf self.now pass.old }
        requires file { file < self.now.files.board.files }
        requires told { IsFile T.W.files file }
        ensures answers { ReadsPixels file region.now
            (call T.W.files T.state (caller_state self.now pass.old tap.old)
            (caller_state self.now pass.new tap.new))
            out.old.items out.new.items result }
        ensures leaves { LeavesPixels file
            (call T.W.files T.state (caller_state self.now pass.old tap.old)
            (caller_state self.now pass.new tap.new)) result }
    {
        if region.is_too_large() {
            return Err(CacheError::RegionTooLarge);
        }
        let known = self.open(waiter, pass, tap, file)?;
        let answer = self.read_region(waiter, pass, tap, &known, region);
        let generation = known.generation();
        self.keep(pass, known);
        let read = answer?;
        append(out, &read.values)?;
        Ok(Pixels {
            generation,
            channels: read.channels,
        })
    }

    /// Reads the values of a region from the level of a given record.
    fn read_region<V: Waiter>(
        &self,
        waiter: &V,
        pass: &mut Pass<T::W>,
        tap: &mut T,
        known: &Record<T::W>,
        region: &Region,
    ) -> Result<RegionValues, CacheError<V::Busy>>
        requires pass { IsPassOf self.now pass.old }
        requires known { IsGivenBy T.W.files self.now known.now }
        requires few { region.now.w * region.now.h ≤ max_texels }
        ensures ok { IfOk result (λ read.
            ReadsRegion T.W.files region.now read.channels pass.old pass.new known.now) }
        ensures count { IfOk result (λ read. length read.values.items
            ≡ region.now.h * (region.now.w * read.channels)) }
        ensures value { ForSome (T.W.files.held known.now.file known.now.generation) (λ bytes.
            IfOk result (λ read. AreRegionValues bytes region.now read.values.items)) }
        ensures cause { IfErr result (StepCause T.W.files known.now pass.new.view
            (T.state tap.old) (T.state tap.new) (PixelsRefuses region.now.level)) }
        ensures unread { IfErr result (KeepsRecentAt pass.old pass.new) }
        // The state after the call.
        ensures left { ReadsOn T.W.files self.now.gate known.now
            (pass_tap pass.old (T.state tap.old)) (pass_tap pass.new (T.state tap.new)) V.Busy }
    {
        pass.know();
        known.know();
        let area = area_of(known, region)?;
        let picture = Picture::of(known);
        let mut source = TileSource {
            store: self.store(),
            waiter,
            pass,
            tap,
            picture: &picture,
        };
        let values = values_of(&mut source, &area)?;
        Ok(RegionValues {
            values,
            channels: area.window.channels,
        })
    }
}

/// The values of an area.
fn values_of<V: Waiter, T: Tap>(
    source: &mut TileSource<'_, V, T>,
    area: &Area,
) -> Result<Vec<u16>, CacheError<V::Busy>>
    requires area { HasAreaAt area.now source.old.picture.now }
    requires few { area.now.window.width * area.now.height ≤ max_texels }
    requires channels { IsChannelCount area.now.window.channels }
    requires within { IsWithin area.now }
    ensures count { IfOk result (λ values. length values.items
        ≡ area.now.height * (area.now.window.width * area.now.window.channels)) }
    ensures beside { IfOk result (λ values. IsZeroBeside area.now values.items) }
    ensures value { IfOk result (λ values.
        ForSome (T.W.files.held source.old.picture.now.file source.old.picture.now.generation)
        (λ bytes. IsPainted bytes area.now values.items)) }
    ensures needs { OnOk result (Needs T.W.files
        (area_keys source.old.picture.now area.now (area_cells area.now))
        source.old.pass.now source.new.pass.now) }
    ensures call { IsSameCall source.old source.new }
    ensures left { Reads T.W.files source.old source.new (refusal result) }
{
    source.know();
    let store = source.store;
    let mut values = zeros(store.alloc, area)?;
    fill(source, area, values.as_mut_slice())?;
    Ok(values)
}

/// Writes the values of all texels of the region that lie in the level.
fn fill<V: Waiter, T: Tap>(
    source: &mut TileSource<'_, V, T>,
    area: &Area,
    values: &mut [u16],
) -> Result<(), CacheError<V::Busy>>
    requires area { HasAreaAt area.now source.old.picture.now }
    requires values { HasValues area.now.window area.now.height values.old }
    ensures long { length values.new ≡ length values.old }
    ensures beside { IsZeroBeside area.now values.old → IsZeroBeside area.now values.new }
    ensures value { OnOk result (ForSome
        (T.W.files.held source.old.picture.now.file source.old.picture.now.generation)
        (λ bytes. IsPainted bytes area.now values.new)) }
    ensures needs { OnOk result (Needs T.W.files
        (area_keys source.old.picture.now area.now (area_cells area.now))
        source.old.pass.now source.new.pass.now) }
    ensures left { Reads T.W.files source.old source.new (refusal result) }
{
    source.know();
    'cells: for k in 0..area.cells() {
        fill_cell(source, area, k, values)?;
    }
    Ok(())
}

/// Writes the values of the region's texels in one cell, which is needed once.
fn fill_cell<V: Waiter, T: Tap>(
    source: &mut TileSource<'_, V, T>,
    area: &Area,
    k: u64,
    values: &mut [u16],
) -> Result<(), CacheError<V::Busy>>
    requires area { HasAreaAt area.now source.old.picture.now }
    requires cell { k < area_cells area.now }
    requires values { HasValues area.now.window area.now.height values.old }
    ensures long { length values.new ≡ length values.old }
    ensures others { KeepsOthersOn (cell_rect (shown_grid area.now.grid) (area_cell area.now k))
        area.now.window area.now.height values.old values.new }
    ensures value { OnOk result (ForSome
        (T.W.files.held source.old.picture.now.file source.old.picture.now.generation)
        (λ bytes. HasValuesOn bytes area.now.level
        (cell_rect (shown_grid area.now.grid) (area_cell area.now k))
        area.now.window area.now.height values.new)) }
    ensures needs { OnOk result (Needs T.W.files (key_of source.old.picture.now.generation
        source.old.picture.now.file area.now.level (area_cell area.now k) ∷ [])
        source.old.pass.now source.new.pass.now) }
    ensures left { Reads T.W.files source.old source.new (refusal result) }
{
    let cell = cell_of(source, area, k);
    match source.need_counted(&cell)? {
        Some(alone) => paint_part(&alone, source.picture, &cell, area, values),
        None => paint_local(source, &cell, area, values),
    }
    Ok(())
}

/// The k-th cell that a region meets.
fn cell_of<V: Waiter, T: Tap>(source: &TileSource<'_, V, T>, area: &Area, k: u64) -> CellAt
    requires area { HasAreaAt area.now source.now.picture.now }
    requires cell { k < area_cells area.now }
    ensures of { IsCellOf source.now.picture.now result }
    ensures key { result.key ≡ key_of source.now.picture.now.generation source.now.picture.now.file
        area.now.level (area_cell area.now k) }
    ensures level { level_of result.key ≡ area.now.level }
    ensures rect { result.rect ≡ cell_rect (shown_grid area.now.grid) (area_cell area.now k) }
    ensures right { result.rect.x + result.rect.w ≤ area.now.grid.across.size }
    ensures bottom { result.rect.y + result.rect.h ≤ area.now.grid.down.size }
    ensures channels { result.channels ≡ area.now.window.channels }
{
    source.store.know();
    cell_met(source.picture, area, k)
}

/// Writes the values of the region's texels in one cell, whose tile is the first of the
/// microcache.
fn paint_local<V: Waiter, T: Tap>(
    source: &TileSource<'_, V, T>,
    cell: &CellAt,
    area: &Area,
    values: &mut [u16],
)
    requires first { StandsFirst cell.now source.now.pass.now.pinned.recent }
    requires cell { IsCellOf source.now.picture.now cell.now }
    requires right { cell.now.rect.x + cell.now.rect.w ≤ area.now.grid.across.size }
    requires bottom { cell.now.rect.y + cell.now.rect.h ≤ area.now.grid.down.size }
    requires channels { cell.now.channels ≡ area.now.window.channels }
    requires values { HasValues area.now.window area.now.height values.old }
    ensures long { length values.new ≡ length values.old }
    ensures others { KeepsOthersOn cell.now.rect area.now.window area.now.height
        values.old values.new }
    ensures value { ForSome
        (T.W.files.held source.now.picture.now.file source.now.picture.now.generation)
        (λ bytes. HasValuesOn bytes (level_of cell.now.key) cell.now.rect area.now.window
        area.now.height values.new) }
{
    let pass = &*source.pass;
    paint_part(pass.pinned.latest(cell), source.picture, cell, area, values);
}

/// The area of a region on a level. Fails unless the file is valid, its cells are small enough and
/// it has the level.
fn area_of<W: World, B>(known: &Record<W>, region: &Region) -> Result<Area, CacheError<B>>
    ensures area { IfOk result (λ area. HasAreaOf region.now area known.now) }
    ensures is { IfOk result (λ area. IsAreaOf (shown_grid area.grid) region.now
        area.window.channels area) }
    ensures channels { IfOk result (λ area. IsChannelCount area.window.channels) }
    ensures fits { IfOk result (λ area. IsOkAnd known.now.layout (λ kept.
        CellsFit kept known.now.cut)) }
    ensures err { IfErr result (PixelsRefuses region.now.level known.now) }
{
    let grid = level_in(known, region.level)?;
    Ok(Area::new(grid, region, Picture::of(known).channels()))
}

/// The values of an area, all 0.
fn zeros(alloc: Global, area: &Area) -> Result<Vec<u16>, NoMemory>
    requires few { area.now.window.width * area.now.height ≤ max_texels }
    requires channels { IsChannelCount area.now.window.channels }
    ensures count { IfOk result (λ values. length values.items
        ≡ area.now.height * (area.now.window.width * area.now.window.channels)) }
    ensures zero { IfOk result (λ values. IsZeroBeside area.now values.items) }
{
    let values = filled(alloc, area.count())?;
    Ok(values)
}

/// A vector of `count` zeros.
fn filled(alloc: Global, count: usize) -> Result<Vec<u16>, NoMemory>
    ensures { IfOk result (λ values. values.items ≡ replicate count 0) }
{
    let mut values = Vec::new(alloc);
    values.resize(count, 0u16)?;
    Ok(values)
}

/// Appends values to others.
fn append(out: &mut Vec<u16>, values: &Vec<u16>) -> Result<(), NoMemory>
    ensures ok { OnOk result (out.new.items ≡ out.old.items ++ values.now.items) }
    ensures err { OnErr result (out.new.items ≡ out.old.items) }
{
    Ok(out.extend_from_slice(values.as_slice())?)
}

/// The k-th cell that a region meets.
fn cell_met<W: World>(picture: &Picture<'_, W>, area: &Area, k: u64) -> CellAt
    requires file { picture.now.file < max_files }
    requires area { HasAreaAt area.now picture.now }
    requires cell { k < area_cells area.now }
    ensures of { IsCellOf picture.now result }
    ensures key { result.key ≡ key_of picture.now.generation picture.now.file area.now.level
        (area_cell area.now k) }
    ensures level { level_of result.key ≡ area.now.level }
    ensures rect { result.rect ≡ cell_rect (shown_grid area.now.grid) (area_cell area.now k) }
    ensures right { result.rect.x + result.rect.w ≤ area.now.grid.across.size }
    ensures bottom { result.rect.y + result.rect.h ≤ area.now.grid.down.size }
    ensures channels { result.channels ≡ area.now.window.channels }
{
    let (column, row) = area.place(k);
    CellAt {
        key: picture.key(area.level, area.grid.index(column, row)),
        rect: area.grid.rect(column, row),
        channels: area.window.channels,
    }
}

/// Writes the values of the region's texels in one cell, from a tile of that cell.
fn paint_part<W: World>(
    tile: &Tile<W>,
    picture: &Picture<'_, W>,
    cell: &CellAt,
    area: &Area,
    values: &mut [u16],
)
    requires keyed { tile.now.key ≡ cell.now.key }
    requires of_cell { IsTrue (is_tile_of cell.now tile.now) }
    requires cell { IsCellOf picture.now cell.now }
    requires right { cell.now.rect.x + cell.now.rect.w ≤ area.now.grid.across.size }
    requires bottom { cell.now.rect.y + cell.now.rect.h ≤ area.now.grid.down.size }
    requires channels { cell.now.channels ≡ area.now.window.channels }
    requires values { HasValues area.now.window area.now.height values.old }
    ensures long { length values.new ≡ length values.old }
    ensures others { KeepsOthersOn cell.now.rect area.now.window area.now.height
        values.old values.new }
    ensures value { ForSome (W.files.held picture.now.file picture.now.generation)
        (λ bytes. HasValuesOn bytes (level_of cell.now.key) cell.now.rect area.now.window
        area.now.height values.new) }
{
    let depth = picture.depth(cell.key.level());
    paint(tile, depth, &area.window, area.height, values);
}
