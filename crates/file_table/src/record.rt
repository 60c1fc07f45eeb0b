//! The record of one generation of a file.
ghost use Rattle.std.specs.Prelude.{◌≡◌, ◌^◌, ◌<◌, ◌≤◌, length, Ok, Err, MatchResult, IfOk, IfErr, OnOk};
ghost use Rattle.std.specs.Option.{ForSome};
ghost use Rattle.tex_world.specs.World.{IsFile, IsReal, last_generation, max_files};
ghost use Rattle.tiff_format.specs.Level.{max_levels};
ghost use Rattle.tiff_format.specs.Cut.{IsCut};
ghost use Rattle.tile_layout.specs.Grid.{shown_grid};
ghost use Rattle.tile_layout.specs.Halving.{HalvesWithinCells};
ghost use Rattle.tile_layout.specs.Key.{index_bits, index_of, key_of, HasParts};
ghost use Rattle.tile_layout.specs.Cell.{channels_in, bit_depth_in};
ghost use Rattle.tiff_format.specs.Facts.{IsChannelCount};
ghost use Rattle.file_table.specs.Record.{layout_of, HasCutLevel, CountsLevels, CutsLevel};
ghost use Rattle.file_table.specs.Record.{TellsFit, AreLevelsOf};
ghost use Rattle.file_table.specs.Picture.{MayServe, UnreadableCause};

use crate::known_level::KnownLevel;
use crate::picture::{Picture, Unreadable};
use std::alloc::{AllocError, Global};
use std::marker::{Model, PhantomData};
use tex_world::{MAX_FILES, World};
use tiff_format::{Cut, TiffFault};
use tile_layout::{Grid, Layout, TileKey};

/// The greatest file number of a folder.
const LAST_FILE: u32 = MAX_FILES - 1;

/// What is known of one generation of a file: its layout or its fault, and what lookups need to
/// know of each level under the cut.
#[derive(Drop)]
pub struct Record<W: World> {
    file: u32,
    generation: u32,
    cut: Cut,
    fits: bool,
    levels: Vec<KnownLevel>,
    layout: Result<Layout, TiffFault>,
    world: PhantomData<W>,
}

impl<W: World> Model for Record<W> {
    ghost use Rattle.file_table.specs.Record.{RecordState, record_state, IsRecord, HasLevels};
    ghost use Rattle.file_table.specs.Record.{TellsFit as Fits};

    ghost Value = { RecordState };

    ghost view = { λ r. record_state r.file r.generation r.cut r.layout };

    ghost invariant = { λ r.
        let state = record_state r.file r.generation r.cut r.layout in
        IsRecord W.files state × HasLevels state r.levels.items × Fits state r.fits };
}

/// The key of the first cell of a level. File numbers above 4095 do not fit into a key; such a file
/// gets the key of file 4095.
fn first_key(generation: u32, file: u32, level: u32) -> TileKey
    requires low { 1 ≤ generation }
    requires high { generation ≤ last_generation }
    requires level { level < max_levels }
    ensures first { index_of result ≡ 0 }
    ensures parts { file < max_files → HasParts generation file level 0 result }
{
    TileKey::new(generation, file.min(LAST_FILE), level, 0)
}

/// What lookups need to know of each level of a file.
fn levels_of(
    alloc: Global,
    file: u32,
    generation: u32,
    layout: &Layout,
    cut: Cut,
) -> Result<Vec<KnownLevel>, AllocError>
    requires low { 1 ≤ generation }
    requires high { generation ≤ last_generation }
    requires cut { IsCut cut }
    ensures value { IfOk result (λ levels.
        AreLevelsOf file generation cut layout.now levels.items) }
    ensures few { IfOk result (λ levels. length levels.items ≤ max_levels) }
{
    let count = layout.levels(cut);
    let mut levels = Vec::with_capacity(alloc, count as usize)?;
    for level in 0..count {
        levels.push(KnownLevel {
            grid: layout.grid(level, cut),
            first: first_key(generation, file, level),
            channels: layout.channels(),
            depth: layout.depth(),
        })?;
    }
    Ok(levels)
}

impl<W: World> Record<W> {
    ghost use Rattle.file_table.specs.Record.{IsRecord};

    /// The record of a generation, from what was read of its bytes.
    pub(crate) fn of(
        alloc: Global,
        file: u32,
        generation: u32,
        cut: Cut,
        layout: Result<Layout, TiffFault>,
    ) -> Result<Record<W>, AllocError>
        requires told { IsFile W.files file }
        requires real { IsReal W.files file generation }
        requires cut { IsCut cut }
        requires layout { ForSome (W.files.held file generation) (λ bytes.
            layout ≡ layout_of bytes) }
        ensures file { IfOk result (λ r. r.file ≡ file) }
        ensures generation { IfOk result (λ r. r.generation ≡ generation) }
        ensures cut { IfOk result (λ r. r.cut ≡ cut) }
    {
        let (fits, levels) = match &layout {
            Ok(layout) => (
                layout.fits(cut),
                levels_of(alloc, file, generation, layout, cut)?,
            ),
            Err(_) => (false, Vec::new(alloc)),
        };
        Ok(Record {
            file,
            generation,
            cut,
            fits,
            levels,
            layout,
            world: PhantomData,
        })
    }

    /// The number of the file.
    pub fn file(&self) -> u32
        ensures { result ≡ self.now.file }
    {
        self.file
    }

    /// The generation that the record describes.
    pub fn generation(&self) -> u32
        ensures value { result ≡ self.now.generation }
        ensures told { IsRecord W.files self.now }
    {
        self.generation
    }

    /// Does nothing; its contract gives the proof what is true of every record: if the world is
    /// modelled, its layout is that of its generation's bytes.
    #[inline(always)]
    pub fn know(&self)
        ensures told { IsRecord W.files self.now }
    {
        let _file = self.file;
    }

    /// The cut that the record is used under.
    pub fn cut(&self) -> Cut
        ensures { result ≡ self.now.cut }
    {
        self.cut
    }

    /// The levels of the file, or its first fault. If the world is modelled, they are those of this
    /// generation's bytes.
    pub fn layout(&self) -> Result<&Layout, &TiffFault>
        ensures value { MatchResult result (λ layout. self.now.layout ≡ Ok layout.now)
            (λ fault. self.now.layout ≡ Err fault.now) }
        ensures told { IsRecord W.files self.now }
    {
        self.layout.as_ref()
    }

    /// The number of levels under the cut; at least one if the file is valid.
    pub fn levels(&self) -> u32
        ensures value { CountsLevels self.now result }
        ensures some { IfOk self.now.layout (λ _. 1 ≤ result) }
    {
        self.levels.len() as u32
    }

    /// How a level is divided into cells. Each group of four texels that the next level averages
    /// lies in one cell.
    pub fn grid(&self, level: u32) -> Grid
        requires { HasCutLevel self.now level }
        ensures value { CutsLevel self.now level result }
        ensures halving { HalvesWithinCells (shown_grid result) }
        ensures few { level < max_levels }
    {
        self.levels[level as usize].grid
    }

    /// What lookups need to know of a level.
    pub fn level(&self, level: u32) -> &KnownLevel
        requires { HasCutLevel self.now level }
        ensures grid { CutsLevel self.now level result.now.grid }
        ensures first { index_of result.now.first ≡ 0 }
        ensures parts { self.now.file < max_files →
            HasParts self.now.generation self.now.file level 0 result.now.first }
        ensures channels { IfOk self.now.layout (λ kept. result.now.channels ≡ channels_in kept) }
        ensures in_range { IsChannelCount result.now.channels }
        ensures depth { IfOk self.now.layout (λ kept. result.now.depth ≡ bit_depth_in kept) }
        ensures few { level < max_levels }
    {
        &self.levels[level as usize]
    }

    /// The key of a cell of a level.
    pub fn key(&self, level: u32, index: u32) -> TileKey
        requires level { HasCutLevel self.now level }
        requires file { self.now.file < max_files }
        requires index { index < 2 ^ index_bits }
        ensures value { result ≡ key_of self.now.generation self.now.file level index }
        ensures parts { HasParts self.now.generation self.now.file level index result }
    {
        self.level(level).first.with_index(index)
    }

    /// Whether the file is valid and no cell of any level takes more than 33554432 bytes in memory.
    pub fn fits(&self) -> bool
        ensures { TellsFit self.now result }
    {
        self.fits
    }

    /// Its picture, if its texels can be read.
    pub fn picture(&self) -> Result<Picture<'_, W>, Unreadable>
        ensures ok { IfOk result (λ picture. picture ≡ self.now) }
        ensures serves { OnOk result (MayServe self.now) }
        ensures err { IfErr result (UnreadableCause self.now) }
    {
        let generation = self.generation();
        if let Err(fault) = self.layout() {
            return Err(Unreadable::BadFile {
                generation,
                fault: *fault,
            });
        }
        if self.fits() {
            return Ok(Picture::of(self));
        }
        Err(Unreadable::TileTooLarge { generation })
    }
}
