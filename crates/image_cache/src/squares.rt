//! Reads four texels at once from one cell of the microcache.
ghost use Rattle.std.specs.Prelude.{◌≡◌, ◌↔◌, ◌<◌, IsTrue, IsFalse, IsSome, IfSome};
ghost use Rattle.std.specs.Option.{ForSome};
ghost use Rattle.texel_filter.specs.Image.{IsChannelCount};
ghost use Rattle.texel_filter.specs.Square.{AreCorners};
ghost use Rattle.tex_world.specs.World.{max_files};
ghost use Rattle.tile_layout.specs.Cell.{HoldsTexel};
ghost use Rattle.tile_layout.specs.Value.{channel_value_of};
ghost use Rattle.texel_values.specs.Square.{HoldsSquare};
ghost use Rattle.pinned_tiles.specs.Cell.{is_tile_of};
ghost use Rattle.tile_source.specs.Pass.{IsPassOf};
ghost use Rattle.tile_source.specs.Texel.{IsKnownTo, IsCellAt};
ghost use Rattle.image_cache.specs.Square.{left_top, IsSquareIn, LieInOneOf, HasSquareAt, AreShown};
ghost use Rattle.image_cache.specs.Square.{MeetsSquare, MeetsRest};

use crate::cache::Cache;
use file_table::{Picture, Record};
use pinned_tiles::CellAt;
use tex_world::{Tap, World};
use texel_filter::{Corners, Square};
use texel_values::{TexelAt, write_square};
use tiff_format::Rect;
use tile_layout::TileKey;
use tile_source::{Pass, cell_at};
use tile_store::Tile;

impl<T: Tap> Cache<T> {
    /// Does what four calls of `fetch_local` do with the texels of a square, if one cell of the
    /// microcache holds all four. Otherwise returns false and changes nothing.
    ///
    /// The corners get the values of the first `channels` channels. The upper row comes first.
    #[inline(always)]
    pub fn fetch_square_local(
        &self,
        pass: &mut Pass<T::W>,
        known: &Record<T::W>,
        square: &Square,
        channels: usize,
        out: &mut Corners,
    ) -> bool
        requires pass { IsPassOf self.now pass.old }
        requires known { IsKnownTo self.now known.now }
        requires inside { IsSquareIn known.now square.now }
        requires channels { IsChannelCount channels }
        ensures has { IsTrue result ↔ HasSquareAt known.now square.now pass.old.pinned.recent }
        ensures value { IsTrue result →
            ForSome (T.W.files.held known.now.file known.now.generation) (λ bytes.
            AreCorners (channel_value_of bytes) square.now channels out.new) }
        // The pass after the call, if the microcache has the cell.
        ensures met { IsTrue result →
            MeetsSquare T.W.files known.now square.now pass.old pass.new }
        // If the microcache does not have the cell, nothing changes.
        ensures same { IsFalse result → (pass.new ≡ pass.old) × (out.new ≡ out.old) }
    {
        self.store.know();
        let picture = Picture::of(known);
        let Some(cell) = cell_of_square(&picture, square) else {
            return false;
        };
        if !pass.pinned.turn_to(&cell) {
            return false;
        }
        pass.count_four();
        write_corners(
            pass.pinned.latest(&cell),
            &picture,
            &cell,
            square,
            channels,
            out,
        );
        true
    }

    /// Does what three calls of `fetch_local` do with the other texels of a square, after the first
    /// was read. False, and no change, unless one cell of the microcache holds all four.
    pub fn fetch_rest_local(
        &self,
        pass: &mut Pass<T::W>,
        known: &Record<T::W>,
        square: &Square,
        channels: usize,
        out: &mut Corners,
    ) -> bool
        requires pass { IsPassOf self.now pass.old }
        requires known { IsKnownTo self.now known.now }
        requires inside { IsSquareIn known.now square.now }
        requires channels { IsChannelCount channels }
        ensures value { IsTrue result →
            ForSome (T.W.files.held known.now.file known.now.generation) (λ bytes.
            AreCorners (channel_value_of bytes) square.now channels out.new) }
        // The pass after the call, if the microcache has the cell.
        ensures met { IsTrue result →
            MeetsRest T.W.files known.now square.now pass.old pass.new }
        // If the microcache does not have the cell, nothing changes.
        ensures same { IsFalse result → (pass.new ≡ pass.old) × (out.new ≡ out.old) }
    {
        self.store.know();
        let picture = Picture::of(known);
        let Some(cell) = cell_of_square(&picture, square) else {
            return false;
        };
        if !pass.pinned.turn_to(&cell) {
            return false;
        }
        pass.count_three();
        write_corners(
            pass.pinned.latest(&cell),
            &picture,
            &cell,
            square,
            channels,
            out,
        );
        true
    }

    /// Writes the values of a square's four texels if one cell of the microcache holds them all,
    /// and returns the cell's key. Counts nothing and moves no tile.
    #[inline(always)]
    pub fn show_square_local(
        &self,
        pass: &Pass<T::W>,
        known: &Record<T::W>,
        square: &Square,
        channels: usize,
        out: &mut Corners,
    ) -> Option<TileKey>
        requires pass { IsPassOf self.now pass.now }
        requires known { IsKnownTo self.now known.now }
        requires inside { IsSquareIn known.now square.now }
        requires channels { IsChannelCount channels }
        ensures has { IsSome result ↔ HasSquareAt known.now square.now pass.now.pinned.recent }
        ensures value { IsSome result →
            ForSome (T.W.files.held known.now.file known.now.generation) (λ bytes.
            AreCorners (channel_value_of bytes) square.now channels out.new) }
        ensures each { IfSome result (AreShown known.now square.now pass.now.pinned.recent) }
    {
        self.store.know();
        let picture = Picture::of(known);
        let Some(cell) = cell_of_square(&picture, square) else {
            return None;
        };
        let Some(tile) = pass.tile_of(&cell) else {
            return None;
        };
        write_corners(tile, &picture, &cell, square, channels, out);
        Some(cell.key)
    }
}

/// Writes the values of a square's texels from a tile of their cell.
#[inline(always)]
fn write_corners<W: World>(
    tile: &Tile<W>,
    picture: &Picture<'_, W>,
    cell: &CellAt,
    square: &Square,
    channels: usize,
    out: &mut Corners,
)
    requires keyed { tile.now.key ≡ cell.now.key }
    requires of_cell { IsTrue (is_tile_of cell.now tile.now) }
    requires cell { IsCellAt picture.now (left_top square.now) cell.now }
    requires inside { HoldsSquare cell.now.rect square.now }
    requires channels { IsChannelCount channels }
    ensures { ForSome (W.files.held picture.now.file picture.now.generation) (λ bytes.
        AreCorners (channel_value_of bytes) square.now channels out.new) }
{
    let depth = picture.depth(square.level);
    write_square(tile, depth, square, channels, out);
}

/// The cell that holds all four texels of a square, if there is one.
#[inline(always)]
fn cell_of_square<W: World>(picture: &Picture<'_, W>, square: &Square) -> Option<CellAt>
    requires inside { IsSquareIn picture.now square.now }
    requires file { picture.now.file < max_files }
    ensures cell { IfSome result (IsCellAt picture.now (left_top square.now)) }
    ensures holds { IfSome result (λ cell. HoldsSquare cell.rect square.now) }
    ensures one { IsSome result ↔ LieInOneOf picture.now square.now }
{
    // needed by the proof: no cell is empty
    let _ = picture.level(square.level);
    let first = TexelAt {
        level: square.level,
        x: square.left,
        y: square.top,
    };
    let cell = cell_at(picture, first);
    if holds(&cell.rect, square.right, square.bottom) {
        Some(cell)
    } else {
        None
    }
}

/// Whether a rectangle contains a texel.
fn holds(rect: &Rect, x: u32, y: u32) -> bool
    ensures { IsTrue result ↔ HoldsTexel rect.now x y }
{
    rect.x <= x && x - rect.x < rect.w && rect.y <= y && y - rect.y < rect.h
}
