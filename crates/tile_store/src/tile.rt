//! A cached tile: the texels of one cell.
ghost use Rattle.std.specs.Prelude.{◌≡◌, ◌≤◌, ◌<◌};
ghost use Rattle.tile_layout.specs.Cell.{HoldsTexel, max_cell_bytes};
ghost use Rattle.tile_store.specs.Tile.{cached_tile, tile_bytes, IsTile, place_in, kept_sample};
ghost use Rattle.tile_store.specs.Tile.{HoldsRow, AreSamples};
ghost use Rattle.tile_store.specs.SampleRow.{samples_of, top_of, bottom_of};
ghost use Rattle.tile_store.specs.Told.{IsTold, IsToldSample, AreToldSamples};

use crate::row::SampleRow;
use crate::texels::Texels;
use crate::two_rows::TwoRows;
use std::marker::{Model, PhantomData};
use tex_world::World;
use tiff_format::Rect;
use tile_layout::TileKey;

/// The texels of a cell, with the file's number of bits. In a modelled world they are those of the
/// level, file and generation that the key names.
#[derive(Drop)]
pub struct Tile<W: World> {
    key: TileKey,
    rect: Rect,
    channels: u32,
    texels: Texels,
    world: PhantomData<W>,
}

impl<W: World> Model for Tile<W> {
    ghost use Rattle.tile_store.specs.Tile.{CachedTile, cached_tile, IsTile};
    ghost use Rattle.tile_store.specs.Told.{IsTold};
    ghost use Rattle.tile_store.specs.Kept.{IsKept};
    ghost use Rattle.tile_store.specs.Texels.{kept_in};

    ghost Value = { CachedTile };

    ghost view = { λ a. cached_tile a.key a.rect a.channels (kept_in a.texels) };

    ghost invariant = { λ a. IsKept W.files
        (cached_tile a.key a.rect a.channels (kept_in a.texels)) };
}

impl<W: World> Tile<W> {
    /// A tile with these samples, row by row, all samples of a texel together.
    pub fn new(key: TileKey, rect: Rect, channels: u32, texels: Vec<u16>) -> Tile<W>
        requires tile { IsTile (cached_tile key rect channels texels.items) }
        requires told { IsTold W.files (cached_tile key rect channels texels.items) }
        ensures value { result ≡ cached_tile key rect channels texels.items }
    {
        Tile {
            key,
            rect,
            channels,
            texels: Texels::Shorts(texels),
            world: PhantomData,
        }
    }

    /// A tile with one byte per sample. It takes half the memory that the budget charges.
    pub fn of_bytes(key: TileKey, rect: Rect, channels: u32, texels: Vec<u8>) -> Tile<W>
        requires tile { IsTile (cached_tile key rect channels texels.items) }
        requires told { IsTold W.files (cached_tile key rect channels texels.items) }
        ensures value { result ≡ cached_tile key rect channels texels.items }
    {
        Tile {
            key,
            rect,
            channels,
            texels: Texels::Bytes(texels),
            world: PhantomData,
        }
    }

    /// The key of the cell.
    pub fn key(&self) -> TileKey
        ensures value { result ≡ self.now.key }
        ensures tile { IsTile self.now }
        ensures told { IsTold W.files self.now }
    {
        self.key
    }

    /// The rectangle of the level that it covers.
    pub fn rect(&self) -> Rect
        ensures value { result ≡ self.now.rect }
    {
        self.rect
    }

    /// The number of samples per texel.
    pub fn channels(&self) -> u32
        ensures value { result ≡ self.now.channels }
    {
        self.channels
    }

    /// Whether it has one byte per sample.
    #[inline(always)]
    pub fn has_bytes(&self) -> bool {
        self.texels.all().has_bytes()
    }

    /// The bytes that the budget charges: two per sample.
    pub fn bytes(&self) -> u64
        ensures value { result ≡ tile_bytes self.now }
        ensures in_range { result ≤ max_cell_bytes }
    {
        2 * self.texels.all().count() as u64
    }

    /// Sample c of texel (x, y) of the level.
    pub fn texel(&self, x: u32, y: u32, c: u32) -> u16
        requires inside { HoldsTexel self.now.rect x y }
        requires channel { c < self.now.channels }
        ensures value { result ≡ kept_sample self.now x y c }
        ensures told { IsToldSample W.files self.now x y c result }
    {
        self.texels.all().sample(self.place(x, y) + c as usize)
    }

    /// The samples of n texels of the level, side by side from (x, y) on.
    #[inline(always)]
    pub fn row(&self, x: u32, y: u32, n: u32) -> SampleRow<'_>
        requires { HoldsRow self.now x y n }
        ensures value { AreSamples self.now x y n (samples_of result) }
        ensures told { AreToldSamples W.files self.now x y n (samples_of result) }
    {
        let from = self.place(x, y);
        let samples = self.texels.all();
        samples.part(from, n as usize * self.channels as usize)
    }

    /// The samples of n texels of two rows of the level, side by side from column x on.
    #[inline(always)]
    pub fn two_rows(&self, x: u32, top: u32, bottom: u32, n: u32) -> TwoRows<'_>
        requires top { HoldsRow self.now x top n }
        requires bottom { HoldsRow self.now x bottom n }
        ensures top { AreSamples self.now x top n (top_of result) }
        ensures bottom { AreSamples self.now x bottom n (bottom_of result) }
        ensures told { AreToldSamples W.files self.now x top n (top_of result)
            × AreToldSamples W.files self.now x bottom n (bottom_of result) }
    {
        let (top, bottom) = (self.place(x, top), self.place(x, bottom));
        self.texels
            .two_parts(top, bottom, n as usize * self.channels as usize)
    }

    /// The index of the first sample of texel (x, y).
    #[inline(always)]
    fn place(&self, x: u32, y: u32) -> usize
        requires { HoldsRow self.now x y 0 }
        ensures value { result ≡ place_in self.now x y }
    {
        let above = (y - self.rect.y) as usize * self.rect.w as usize;
        (above + (x - self.rect.x) as usize) * self.channels as usize
    }
}
