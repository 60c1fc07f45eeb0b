//! A need that stays uncached because no memory was found for the tile of its cell.
ghost use Rattle.std.specs.Prelude.{◌≡◌, ℕ, ◌<◌, length, slice_get, Some, IsTrue, IsFalse, IsNone};
ghost use Rattle.std.specs.Prelude.{false, IfErr, IfSome, OnOk, OnErr, IsOkAnd, Ok, None};
ghost use Rattle.std.specs.List.{All};
ghost use Rattle.std.specs.Option.{ForSome};
ghost use Rattle.micro.specs.Items.{HasKey};
ghost use Rattle.tile_store.specs.Tile.{CachedTile};
ghost use Rattle.tile_store.specs.Lawful.{FitsCut};
ghost use Rattle.pinned_tiles.specs.Pinned.{key_in};
ghost use Rattle.pinned_tiles.specs.Cell.{is_tile_of};
ghost use Rattle.texel_values.specs.Values.{AreValuesAt};
ghost use Rattle.tile_source.specs.Pass.{counted};
ghost use Rattle.tile_source.specs.Texel.{IsCellAt, IsTexelIn, IsStoredAt, IsStoredTexel};
ghost use Rattle.tile_source.specs.Uncached.{AreSamplesAt};
ghost use Rattle.tile_source.specs.Cause.{WantsByOpening};
ghost use Rattle.tile_source.specs.Call.{NoneUncached};
ghost use Rattle.tile_source.specs.Source.{refusal, Reads, IsTakenUncached, IsReadUncached};
ghost use Rattle.tile_source.specs.Source.{WritesTexel, LacksMemory, pass_tap};

use crate::cell_load::StoredTexel;
use crate::error::CacheError;
use crate::pass::Pass;
use crate::source::TileSource;
use crate::texel::write_texel;
use pinned_tiles::{CellAt, is_tile_of};
use tex_world::{Tap, World};
use texel_values::{TexelAt, write_channels};
use tiff_format::MAX_CHANNELS;
use tile_store::Tile;
use waiter::Waiter;

impl<W: World> Pass<W> {
    /// The first held tile that is the tile of this cell.
    fn hold_of(&self, cell: &CellAt) -> Option<&Tile<W>>
        ensures keyed { IfSome result (λ tile. tile.now.key ≡ cell.now.key) }
        ensures of_cell { IfSome result (λ tile. IsTrue (is_tile_of cell.now tile.now)) }
        ensures none { IsNone result → (k : ℕ) (tile : CachedTile)
            → slice_get self.now.pinned.holds k ≡ Some tile → tile.key ≡ cell.now.key
            → is_tile_of cell.now tile ≡ false }
        ensures fits { All (FitsCut W.files self.now.pinned.cut) self.now.pinned.holds }
    {
        self.pinned.know();
        'holds: for place in 0..self.pinned.held_count() {
            if let Some(tile) = self.hold_at(place, cell) {
                return Some(tile);
            }
        }
        None
    }

    /// The held tile at this place, if it is the tile of this cell.
    fn hold_at(&self, place: usize, cell: &CellAt) -> Option<&Tile<W>>
        ensures keyed { IfSome result (λ tile. tile.now.key ≡ cell.now.key) }
        ensures of_cell { IfSome result (λ tile. IsTrue (is_tile_of cell.now tile.now)) }
        ensures none { IsNone result → (tile : CachedTile)
            → slice_get self.now.pinned.holds place ≡ Some tile → tile.key ≡ cell.now.key
            → is_tile_of cell.now tile ≡ false }
    {
        let tile = self.pinned.held(place)?;
        if tile.key() == cell.key && is_tile_of(tile, cell) {
            Some(tile)
        } else {
            None
        }
    }
}

impl<'a, V: Waiter, T: Tap> TileSource<'a, V, T> {
    /// Answers a texel for whose tile no memory was found: from a held tile or, in a stored level,
    /// from a slot or the file. The need is counted as uncached. Memory is allocated only to open
    /// the file.
    pub(crate) fn fetch_uncached(
        &mut self,
        cell: &CellAt,
        at: TexelAt,
        out: &mut [u16],
    ) -> Result<(), CacheError<V::Busy>>
        requires cell { IsCellAt self.old.picture.now at cell.now }
        requires inside { IsTexelIn self.old.picture.now at }
        ensures texel { WritesTexel T.W.files self.old.picture.now at out.old out.new result }
        ensures ok { OnOk result (self.new.pass.now.apart ≡ counted self.old.pass.now.apart) }
        ensures left { Reads T.W.files self.old self.new (refusal result) }
        ensures taken { IsTakenUncached self.old.pass.now self.new.pass.now }
        // If the need is not counted as uncached, the tap was not called.
        ensures uncounted { NoneUncached self.old.pass.now self.new.pass.now
            → self.new.tap.now ≡ self.old.tap.now }
        ensures memory { LacksMemory self.old.picture.now at
            (pass_tap self.old.pass.now (T.state self.old.tap.now))
            (pass_tap self.new.pass.now (T.state self.new.tap.now)) result }
        ensures held { IsTrue T.W.files.tells
            → HasKey key_in cell.now.key self.old.pass.now.pinned.holds
            → (result ≡ Ok tt) × (self.new.tap.now ≡ self.old.tap.now) }
    {
        if self.write_held(cell, at, out) {
            self.count_uncached();
            return Ok(());
        }
        self.know();
        if !self.is_stored(cell) {
            return Err(CacheError::NoMemory);
        }
        self.count_uncached();
        self.write_part(cell, at, out)
    }

    /// Writes the values of a texel from a held tile. False if no held tile is the cell's.
    fn write_held(&self, cell: &CellAt, at: TexelAt, out: &mut [u16]) -> bool
        requires cell { IsCellAt self.now.picture.now at cell.now }
        ensures value { IsTrue result → ForSome (T.W.files.held self.now.picture.now.file
            self.now.picture.now.generation) (λ bytes. AreValuesAt bytes at out.new) }
        ensures same { IsFalse result → out.new ≡ out.old }
        ensures told { IsTrue T.W.files.tells
            → HasKey key_in cell.now.key self.now.pass.now.pinned.holds → IsTrue result }
    {
        self.picture.know();
        let pass = &*self.pass;
        match pass.hold_of(cell) {
            Some(tile) => {
                write_texel(tile, self.picture, cell, at, out);
                true
            }
            None => false,
        }
    }

    /// Counts an uncached need.
    fn count_uncached(&mut self)
        ensures apart { self.new.pass.now.apart ≡ counted self.old.pass.now.apart }
        ensures tap { self.new.tap.now ≡ self.old.tap.now }
        ensures taken { IsTakenUncached self.old.pass.now self.new.pass.now }
        ensures left { Reads T.W.files self.old self.new None }
    {
        let pass = &mut *self.pass;
        pass.know();
        pass.count_uncached();
    }

    /// Writes the values of a texel of a stored level from its samples, which are in a slot or are
    /// read from the file.
    fn write_part(
        &mut self,
        cell: &CellAt,
        at: TexelAt,
        out: &mut [u16],
    ) -> Result<(), CacheError<V::Busy>>
        requires cell { IsCellAt self.old.picture.now at cell.now }
        requires inside { IsTexelIn self.old.picture.now at }
        requires stored { IsStoredAt self.old.picture.now at }
        ensures value { ForSome (T.W.files.held self.old.picture.now.file
            self.old.picture.now.generation) (λ bytes. OnOk result (AreValuesAt bytes at out.new)) }
        ensures err { OnErr result (out.new ≡ out.old) }
        ensures left { Reads T.W.files self.old self.new (refusal result) }
        ensures taken { IsReadUncached self.old.pass.now self.new.pass.now }
        ensures memory { IfErr result (WantsByOpening
            (T.state self.old.tap.now) (T.state self.new.tap.now)) }
    {
        let depth = self.picture.depth(at.level);
        let channels = self.picture.channels() as usize;
        let mut room = [0; MAX_CHANNELS];
        let samples = &mut room[..channels];
        self.take_samples(at, samples)?;
        write_channels(samples, depth, out);
        Ok(())
    }

    /// Reads the samples of a texel of a stored level from a slot or, failing that, from the file.
    fn take_samples(&mut self, at: TexelAt, samples: &mut [u16]) -> Result<(), CacheError<V::Busy>>
        requires texel { IsOkAnd self.old.picture.now.layout (λ kept.
            IsStoredTexel kept at (length samples.old)) }
        ensures told { OnOk result (AreSamplesAt T.W.files self.old.picture.now at samples.new) }
        ensures left { Reads T.W.files self.old self.new (refusal result) }
        ensures taken { IsReadUncached self.old.pass.now self.new.pass.now }
        ensures memory { IfErr result (WantsByOpening
            (T.state self.old.tap.now) (T.state self.new.tap.now)) }
    {
        self.know();
        let texel = StoredTexel {
            picture: self.picture,
            at,
        };
        if self.store.show_samples(&texel, samples) {
            return Ok(());
        }
        let (store, pass) = (self.store, &mut *self.pass);
        store.read_samples(self.waiter, &mut pass.view, self.tap, &texel, samples)
    }
}
