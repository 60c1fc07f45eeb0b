//! A record whose texels can be read.
ghost use Rattle.std.specs.Prelude.{◌≡◌, ◌^◌, ◌<◌, ◌≤◌, Ok, IfOk, IsTrue, IsFalse, IsOkAnd};
ghost use Rattle.tex_world.specs.World.{max_files};
ghost use Rattle.tiff_format.specs.Facts.{IsChannelCount};
ghost use Rattle.tiff_format.specs.Level.{max_levels};
ghost use Rattle.tile_layout.specs.Cell.{channels_in, bit_depth_in};
ghost use Rattle.tile_layout.specs.Grid.{shown_grid};
ghost use Rattle.tile_layout.specs.Halving.{HalvesWithinCells};
ghost use Rattle.tile_layout.specs.Kept.{stored_count};
ghost use Rattle.tile_layout.specs.Key.{index_bits, index_of, key_of, HasParts};
ghost use Rattle.file_table.specs.Record.{IsRecord, HasCutLevel, CountsLevels, CutsLevel};
ghost use Rattle.file_table.specs.Picture.{MayServe};

use crate::known_level::KnownLevel;
use crate::record::Record;
use std::marker::Model;
use tex_world::World;
use tiff_format::TiffFault;
use tile_layout::{Grid, Layout, TileKey};

/// Why the texels of a file cannot be read.
#[derive(Clone, Copy, Debug, PartialEq, Eq)]
pub enum Unreadable {
    /// The bytes of this generation have a fault.
    BadFile { generation: u32, fault: TiffFault },
    /// A cell of the file would take more than 33554432 bytes.
    TileTooLarge { generation: u32 },
}

/// A record whose texels can be read: the file is valid, and none of its cells is too large. It is
/// lent to a call. Clauses see the record.
#[derive(Drop)]
pub struct Picture<'a, W: World> {
    record: &'a Record<W>,
}

impl<'a, W: World> Model for Picture<'a, W> {
    ghost use Rattle.file_table.specs.Record.{RecordState};
    ghost use Rattle.file_table.specs.Picture.{MayServe};

    ghost Value = { RecordState };

    ghost view = { λ p. p.record.now };

    ghost invariant = { λ p. MayServe p.record.now };
}

impl<'a, W: World> Picture<'a, W> {
    /// The picture of a record that is known to be one.
    pub fn of(known: &'a Record<W>) -> Picture<'a, W>
        requires { MayServe known.now }
        ensures { result ≡ known.now }
    {
        Picture { record: known }
    }

    /// Its record.
    pub fn record(&self) -> &'a Record<W>
        ensures value { result.now ≡ self.now }
        ensures serves { MayServe self.now }
        ensures told { IsRecord W.files self.now }
    {
        self.record.know();
        self.record
    }

    /// Does nothing; its contract gives the proof what is true of every picture.
    #[inline(always)]
    pub fn know(&self)
        ensures serves { MayServe self.now }
        ensures told { IsRecord W.files self.now }
    {
        self.record.know();
    }

    /// The number of the file.
    pub fn file(&self) -> u32
        ensures { result ≡ self.now.file }
    {
        self.record.file()
    }

    /// The generation that it shows.
    pub fn generation(&self) -> u32
        ensures value { result ≡ self.now.generation }
        ensures serves { MayServe self.now }
        ensures told { IsRecord W.files self.now }
    {
        self.record.generation()
    }

    /// The levels of the file. If the world is modelled, they are those of this generation's bytes.
    pub fn layout(&self) -> &'a Layout
        ensures value { self.now.layout ≡ Ok result.now }
        ensures serves { MayServe self.now }
        ensures told { IsRecord W.files self.now }
    {
        match self.record.layout() {
            Ok(layout) => layout,
            Err(_) => unreachable!(),
        }
    }

    /// The number of samples per texel, 1 to 8.
    pub fn channels(&self) -> u32
        ensures value { IfOk self.now.layout (λ kept. result ≡ channels_in kept) }
        ensures in_range { IsChannelCount result }
    {
        self.layout().channels()
    }

    /// The number of levels under the cut, generated ones included.
    pub fn levels(&self) -> u32
        ensures value { CountsLevels self.now result }
        ensures some { 1 ≤ result }
    {
        self.record.levels()
    }

    /// Whether a level is stored in the file. Level 0 always is.
    pub fn is_stored(&self, level: u32) -> bool
        ensures stored { IsTrue result → IsOkAnd self.now.layout (λ kept.
            level < stored_count kept) }
        ensures generated { IsFalse result → IsOkAnd self.now.layout (λ kept.
            stored_count kept ≤ level) }
        ensures some { IsFalse result → 1 ≤ level }
    {
        level < self.layout().stored()
    }

    /// How a level is divided into cells. Each group of four texels that the next level averages
    /// lies in one cell.
    pub fn grid(&self, level: u32) -> Grid
        requires { HasCutLevel self.now level }
        ensures value { CutsLevel self.now level result }
        ensures halving { HalvesWithinCells (shown_grid result) }
        ensures few { level < max_levels }
    {
        self.record.grid(level)
    }

    /// What lookups need to know of a level.
    #[inline(always)]
    pub fn level(&self, level: u32) -> &'a KnownLevel
        requires { HasCutLevel self.now level }
        ensures grid { CutsLevel self.now level result.now.grid }
        ensures first { index_of result.now.first ≡ 0 }
        ensures parts { self.now.file < max_files →
            HasParts self.now.generation self.now.file level 0 result.now.first }
        ensures channels { IfOk self.now.layout (λ kept. result.now.channels ≡ channels_in kept) }
        ensures in_range { IsChannelCount result.now.channels }
        ensures depth { IfOk self.now.layout (λ kept. result.now.depth ≡ bit_depth_in kept) }
        ensures few { level < max_levels }
    {
        self.record.level(level)
    }

    /// The bits per sample, 8 or 16.
    #[inline(always)]
    pub fn depth(&self, level: u32) -> u32
        requires { HasCutLevel self.now level }
        ensures value { IfOk self.now.layout (λ kept. result ≡ bit_depth_in kept) }
        ensures told { IsRecord W.files self.now }
    {
        self.record.know();
        self.record.level(level).depth
    }

    /// The key of a cell of a level.
    #[inline(always)]
    pub fn key(&self, level: u32, index: u32) -> TileKey
        requires level { HasCutLevel self.now level }
        requires file { self.now.file < max_files }
        requires index { index < 2 ^ index_bits }
        ensures value { result ≡ key_of self.now.generation self.now.file level index }
        ensures parts { HasParts self.now.generation self.now.file level index result }
    {
        self.record.key(level, index)
    }
}
