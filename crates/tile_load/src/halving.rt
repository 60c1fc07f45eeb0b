//! A cell of a generated level, made from cells of the next larger level.

ghost use Rattle.std.specs.Prelude.{◌≡◌, ◌+◌, ◌*◌, ◌≤◌, ◌<◌, length, IfOk, IsOkAnd};
ghost use Rattle.tile_layout.specs.Cell.{CellsFit};
ghost use Rattle.tiff_format.specs.Cut.{IsCut};
ghost use Rattle.tile_load.specs.CellTile.{IsCellTile};
ghost use Rattle.tile_load.specs.Halving.{part_count, part_key, IsPartOf, NamesGenerated};
ghost use Rattle.tile_load.specs.Halving.{halving_state};
ghost use Rattle.tile_load.specs.CellSamples.{sample_bits};
ghost use Rattle.tile_load.specs.PartPlace.{max_cell_samples};
ghost use Rattle.tiff_format.specs.Facts.{IsDepth};
ghost use Rattle.rect_read.specs.RectSamples.{samples_of};
ghost use Rattle.rect_read.specs.Zeros.{AreZeros};
ghost use Rattle.tile_store.specs.Told.{IsTold};

use crate::halve_part::halve_part;
use crate::loading::tile_of;
use crate::part_place::PartPlace;
use crate::part_span::PartSpan;
use file_table::Record;
use rect_read::RectSamples;
use std::alloc::{AllocError, Global};
use std::marker::{Model, PhantomData};
use tex_world::{NoMemory, World};
use tiff_format::{Cut, Rect};
use tile_layout::{Grid, Layout, TileKey};
use tile_store::Tile;

/// The bits of a sample that takes one byte.
const BYTE_DEPTH: u32 = 8;

/// The tile of a generated level's cell while it is being made. Its parts, up to four cells of the
/// next larger level, are added one after another in order.
///
/// It borrows the layout of the file's record.
#[derive(Drop)]
pub struct Halving<'a, W: World> {
    layout: &'a Layout,
    cut: Cut,
    key: TileKey,
    /// The number of parts added so far.
    done: u32,
    /// How the next larger level is divided into cells.
    source: Grid,
    /// The columns and the rows of cells in which the parts lie.
    across: PartSpan,
    down: PartSpan,
    rect: Rect,
    channels: u32,
    /// Room for a row of 16-bit samples, which an 8-bit cell narrows to bytes.
    scratch: Vec<u16>,
    samples: RectSamples,
    world: PhantomData<W>,
}

impl<'a, W: World> Model for Halving<'a, W> {
    ghost use Rattle.tile_load.specs.Halving.{HalvingState, halving_state};
    ghost use Rattle.tile_load.specs.Halved.{IsHalving};

    ghost Value = { HalvingState };

    ghost view = { λ a. halving_state a.layout.now a.cut a.key a.done };

    ghost invariant = { λ a. IsHalving W.files a.layout.now a.cut a.key a.done a.source a.across
        a.down a.rect a.channels a.scratch.items a.samples };
}

impl<'a, W: World> Halving<'a, W> {
    /// Begins the cell of a generated level, without any part. Allocates the whole tile, for an
    /// 8-bit file with one byte per sample.
    pub fn new(
        alloc: Global,
        known: &'a Record<W>,
        key: TileKey,
        cut: Cut,
    ) -> Result<Halving<'a, W>, NoMemory>
        requires cut { IsCut cut }
        requires cell { IsOkAnd known.now.layout (λ layout.
            NamesGenerated known.now layout cut key) }
        requires fits { IsOkAnd known.now.layout (λ layout. CellsFit layout cut) }
        ensures ok { IsOkAnd known.now.layout (λ layout.
            IfOk result (λ h. h ≡ halving_state layout cut key 0)) }
    {
        let Ok(layout) = known.layout() else {
            unreachable!();
        };
        // needed by the proof: there is a stored level, and the key has a generation
        let _ = layout.stored();
        let _ = layout.levels(cut);
        let _ = key.generation();
        let level = key.level();
        let source = layout.grid(level - 1, cut);
        let rect = layout.cell_rect(level, cut, key.index());
        let channels = layout.channels();
        let samples = zeros(alloc, rect, channels, layout.depth())?;
        let scratch = zero_row(alloc, rect.w, channels)?;
        Ok(Halving {
            layout,
            cut,
            key,
            done: 0,
            source,
            across: PartSpan::of(&source.across, rect.x, rect.w),
            down: PartSpan::of(&source.down, rect.y, rect.h),
            rect,
            channels,
            scratch,
            samples,
            world: PhantomData,
        })
    }

    /// The number of parts, 1 to 4.
    pub fn parts(&self) -> u32
        ensures value { result ≡ part_count self.now.layout self.now.cut self.now.key }
        ensures in_range { 1 ≤ result × result ≤ 4 }
    {
        self.across.count * self.down.count
    }

    /// The key of part k. Parts are numbered row by row.
    pub fn part(&self, k: u32) -> TileKey
        requires { k < part_count self.now.layout self.now.cut self.now.key }
        ensures value { result ≡ part_key self.now.layout self.now.cut self.now.key k }
        ensures part { IsPartOf self.now.layout self.now.cut self.now.key result }
    {
        let column = self.across.first + k % self.across.count;
        let row = self.down.first + k / self.across.count;
        let index = self.source.index(column, row);
        TileKey::new(
            self.key.generation(),
            self.key.file(),
            self.key.level() - 1,
            index,
        )
    }

    /// Adds the tile of the next part.
    pub fn add(&mut self, tile: &Tile<W>)
        requires next { self.old.done < part_count self.old.layout self.old.cut self.old.key }
        requires tile { IsCellTile self.old.layout self.old.cut
            (part_key self.old.layout self.old.cut self.old.key self.old.done) tile.now }
        ensures added { self.new ≡ halving_state self.old.layout self.old.cut self.old.key
            (self.old.done + 1) }
    {
        // needed by the proof: ties the part's samples to its level
        let _ = tile.key();
        let place = PartPlace {
            part: tile.rect(),
            cell: self.rect,
            channels: self.channels,
        };
        halve_part(tile, &place, &mut self.scratch, &mut self.samples);
        self.done += 1;
    }

    /// The tile, after all parts were added.
    pub fn finish(self) -> Tile<W>
        requires done { self.done ≡ part_count self.layout self.cut self.key }
        ensures tile { IsCellTile self.entry.layout self.entry.cut self.entry.key result }
        ensures told { IsTold W.files result }
    {
        tile_of(self.key, self.rect, self.channels, self.samples)
    }
}

/// A row of this many texels, all 0.
fn zero_row(alloc: Global, width: u32, channels: u32) -> Result<Vec<u16>, AllocError>
    ensures { IfOk result (λ row. length row.items ≡ width * channels) }
{
    vec![in alloc; 0u16; width as usize * channels as usize]
}

/// A sample buffer for a rectangle of a file with this number of bits, all 0.
fn zeros(alloc: Global, rect: Rect, channels: u32, depth: u32) -> Result<RectSamples, AllocError>
    requires few { rect.w * rect.h * channels ≤ max_cell_samples }
    requires depth { IsDepth depth }
    ensures count { IfOk result (λ samples.
        length (samples_of samples) ≡ rect.w * rect.h * channels) }
    ensures zeros { IfOk result (λ samples. AreZeros (samples_of samples)) }
    ensures depth { IfOk result (λ samples. sample_bits samples ≡ depth) }
{
    let count = rect.w as usize * rect.h as usize * channels as usize;
    if depth == BYTE_DEPTH {
        let mut bytes = Vec::with_capacity(alloc, count)?;
        bytes.resize(count, 0u8)?;
        Ok(RectSamples::Bytes(bytes))
    } else {
        let mut shorts = Vec::with_capacity(alloc, count)?;
        shorts.resize(count, 0u16)?;
        Ok(RectSamples::Shorts(shorts))
    }
}
