//! A cell that is not in the microcache: found in a shard, loaded from its file, or made from the
//! next larger level.
ghost use Rattle.std.specs.Prelude.{◌≡◌, ◌<◌, ◌≤◌, length, None, IsTrue, IsFalse, IsSomeAnd};
ghost use Rattle.std.specs.Prelude.{IfOk, IfErr, OnOk, IsOkAnd};
ghost use Rattle.micro.specs.Items.{HasKey};
ghost use Rattle.pinned_tiles.specs.Pinned.{key_in};
ghost use Rattle.tile_source.specs.Cause.{IsWanting, AnswersHeld};
ghost use Rattle.tile_layout.specs.Key.{level_of};
ghost use Rattle.tile_layout.specs.Kept.{stored_count};
ghost use Rattle.tile_load.specs.Halving.{part_count};
ghost use Rattle.tile_store.specs.Told.{IsTold};
ghost use Rattle.shard_gate.specs.Gate.{HasCellRect, IsTileOf};
ghost use Rattle.shard_gate.specs.Since.{Misses};
ghost use Rattle.pinned_tiles.specs.Cell.{is_tile_of};
ghost use Rattle.tile_source.specs.Pass.{max_count};
ghost use Rattle.tile_source.specs.Texel.{IsCellOf};
ghost use Rattle.tile_source.specs.Making.{IsGenerated, Halves, IsNextPart, AddsPart};
ghost use Rattle.tile_source.specs.Making.{IsMadeFor};
ghost use Rattle.tile_source.specs.Source.{refusal, IsSameCall, Makes, IsCold};

use crate::cell::cell_of_key;
use crate::error::CacheError;
use crate::source::TileSource;
use file_table::Picture;
use pinned_tiles::CellAt;
use tex_world::{NoMemory, Tap, World};
use tile_layout::TileKey;
use tile_load::Halving;
use tile_store::Tile;
use waiter::Waiter;

impl<'a, V: Waiter, T: Tap> TileSource<'a, V, T> {
    /// Pins the tile of a cell and takes it in hand. If no shard has it, it is made first.
    #[cycle(making)]
    pub fn take_in_hand(&mut self, cell: &CellAt) -> Result<(), CacheError<V::Busy>>
        requires cell { IsCellOf self.old.picture.now cell.now }
        ensures hand { OnOk result (IsSomeAnd self.new.pass.now.pinned.hand
            (IsTileOf T.W.files self.old.store.now.gate.cut cell.now.key)) }
        ensures call { IsSameCall self.old self.new }
        ensures made { Makes T.W.files self.old self.new (refusal result) }
        ensures missed { IsCold cell.now.key self.old self.new }
        ensures held { HasKey key_in cell.now.key self.old.pass.now.pinned.holds → AnswersHeld
            (T.state self.old.tap.now) (T.state self.new.tap.now) result }
    {
        if self.pin_kept(cell.key)? {
            return Ok(());
        }
        let tile = self.make(cell)?;
        self.pin_made(tile)
    }

    /// Pins the tile of a key and takes it in hand, if its shard has it.
    fn pin_kept(&mut self, key: TileKey) -> Result<bool, CacheError<V::Busy>>
        ensures found { IfOk result (λ found. IsTrue found → IsSomeAnd self.new.pass.now.pinned.hand
            (IsTileOf T.W.files self.old.store.now.gate.cut key)) }
        ensures none { IfOk result (λ found. IsFalse found →
            self.new.pass.now.pinned.hand ≡ None) }
        ensures missed { IfOk result (λ found. IsFalse found → Misses self.old.store.now.gate key
            self.old.pass.now.pinned.seat self.new.pass.now.pinned.seat) }
        // If the pass holds a tile of the key, the shard has it.
        ensures held { HasKey key_in key self.old.pass.now.pinned.holds
            → IfOk result (λ found. IsTrue found) }
        ensures wants { IfErr result IsWanting }
        ensures made { Makes T.W.files self.old self.new (refusal result) }
        ensures tap { self.new.tap.now ≡ self.old.tap.now }
    {
        let (store, pass) = (self.store, &mut *self.pass);
        let found = pass.pinned.pin_next(&store.gate, self.waiter, key)?;
        Ok(found)
    }

    /// Puts a new tile into its shard, pinned, and takes it in hand.
    fn pin_made(&mut self, tile: Tile<T::W>) -> Result<(), CacheError<V::Busy>>
        requires hand { self.old.pass.now.pinned.hand ≡ None }
        requires cell { HasCellRect T.W.files self.old.store.now.gate.cut tile }
        ensures hand { OnOk result (IsSomeAnd self.new.pass.now.pinned.hand
            (IsTileOf T.W.files self.old.store.now.gate.cut tile.key)) }
        ensures made { Makes T.W.files self.old self.new (refusal result) }
    {
        let (store, pass) = (self.store, &mut *self.pass);
        pass.pinned.pin_new(&store.gate, self.waiter, tile)?;
        Ok(())
    }

    /// Gives back the pin of the tile in hand.
    pub(crate) fn give_back(&mut self) -> Result<(), CacheError<V::Busy>>
        ensures hand { OnOk result (self.new.pass.now.pinned.hand ≡ None) }
        ensures made { Makes T.W.files self.old self.new (refusal result) }
    {
        let (store, pass) = (self.store, &mut *self.pass);
        match pass.pinned.release_hand(&store.gate, self.waiter) {
            Ok(()) => Ok(()),
            Err(busy) => Err(CacheError::Busy(busy)),
        }
    }

    /// Makes the tile of a cell: loads it if its level is stored, or halves tiles of the next
    /// larger level.
    #[cycle(making)]
    pub(crate) fn make(&mut self, cell: &CellAt) -> Result<Tile<T::W>, CacheError<V::Busy>>
        requires cell { IsCellOf self.old.picture.now cell.now }
        requires hand { self.old.pass.now.pinned.hand ≡ None }
        ensures tile { IfOk result (IsMadeFor T.W.files self.old.store.now.gate.cut cell.now) }
        ensures hand { OnOk result (self.new.pass.now.pinned.hand ≡ None) }
        ensures made { Makes T.W.files self.old self.new (refusal result) }
    {
        if self.is_stored(cell) {
            self.load(cell)
        } else {
            self.halve(cell)
        }
    }

    /// Whether a cell belongs to a stored level.
    pub(crate) fn is_stored(&self, cell: &CellAt) -> bool
        ensures stored { IsTrue result → IsOkAnd self.now.picture.now.layout (λ kept.
            level_of cell.now.key < stored_count kept) }
        ensures generated { IsFalse result → IsGenerated self.now.picture.now cell.now.key }
    {
        self.picture.is_stored(cell.key.level())
    }

    /// Loads the tile of a cell of a stored level.
    fn load(&mut self, cell: &CellAt) -> Result<Tile<T::W>, CacheError<V::Busy>>
        requires cell { IsCellOf self.old.picture.now cell.now }
        requires stored { IsOkAnd self.old.picture.now.layout (λ kept.
            level_of cell.now.key < stored_count kept) }
        requires hand { self.old.pass.now.pinned.hand ≡ None }
        ensures tile { IfOk result (IsMadeFor T.W.files self.old.store.now.gate.cut cell.now) }
        ensures hand { OnOk result (self.new.pass.now.pinned.hand ≡ None) }
        ensures made { Makes T.W.files self.old self.new (refusal result) }
    {
        self.know();
        let (store, pass) = (self.store, &mut *self.pass);
        store.load_cell(self.waiter, &mut pass.view, self.tap, self.picture, cell)
    }

    /// Makes the tile of a cell of a generated level. Only one source tile is pinned at a time.
    #[cycle(making)]
    fn halve(&mut self, cell: &CellAt) -> Result<Tile<T::W>, CacheError<V::Busy>>
        requires cell { IsCellOf self.old.picture.now cell.now }
        requires generated { IsGenerated self.old.picture.now cell.now.key }
        requires hand { self.old.pass.now.pinned.hand ≡ None }
        ensures tile { IfOk result (IsMadeFor T.W.files self.old.store.now.gate.cut cell.now) }
        ensures hand { OnOk result (self.new.pass.now.pinned.hand ≡ None) }
        ensures made { Makes T.W.files self.old self.new (refusal result) }
    {
        self.know();
        let mut halving = self.halving(cell)?;
        'parts: for k in 0..halving.parts() {
            let part = part_at(self.picture, cell, &halving, k);
            self.add_part(&part, &mut halving)?;
        }
        Ok(self.finished(cell, halving))
    }

    /// Adds the next source cell, `part`, of the next larger level.
    ///
    /// If the world is not modelled, the contracts allow a shard to have a different tile under the
    /// cell's key. Such a tile is not read; a tile made for this use is added instead.
    #[cycle(making)]
    fn add_part(
        &mut self,
        part: &CellAt,
        halving: &mut Halving<'_, T::W>,
    ) -> Result<(), CacheError<V::Busy>>
        requires part { IsCellOf self.old.picture.now part.now }
        requires next { IsNextPart halving.old part.now }
        ensures ok { OnOk result (AddsPart halving.old halving.new) }
        ensures hand { OnOk result (self.new.pass.now.pinned.hand ≡ None) }
        ensures made { Makes T.W.files self.old self.new (refusal result) }
    {
        self.take_in_hand(part)?;
        if self.add_in_hand(part, halving) {
            return self.give_back();
        }
        self.give_back()?;
        let alone = self.make(part)?;
        add_tile(&alone, part, halving);
        Ok(())
    }

    /// Adds the tile in hand. False if it is not the tile of the part.
    fn add_in_hand(&self, part: &CellAt, halving: &mut Halving<'_, T::W>) -> bool
        requires { IsNextPart halving.old part.now }
        ensures added { IsTrue result → AddsPart halving.old halving.new }
        ensures same { IsFalse result → halving.new ≡ halving.old }
        ensures next { IsFalse result → IsNextPart halving.new part.now }
    {
        let pass = &*self.pass;
        match pass.pinned.tile_in_hand(part) {
            Some(tile) => {
                add_tile(tile, part, halving);
                true
            }
            None => false,
        }
    }

    /// Does nothing; its contract gives the proof what is true of every pass.
    pub fn know(&self)
        ensures few { length self.now.pass.now.pinned.recent ≤ 2 }
        ensures needs { self.now.pass.now.needs ≤ max_count }
        ensures hits { self.now.pass.now.hits ≤ max_count }
    {
        self.pass.know();
    }

    /// The halving of a cell, without any source cell added yet.
    fn halving(&self, cell: &CellAt) -> Result<Halving<'a, T::W>, NoMemory>
        requires cell { IsCellOf self.now.picture.now cell.now }
        requires generated { IsGenerated self.now.picture.now cell.now.key }
        ensures halves { IfOk result (Halves self.now.picture.now) }
        ensures key { IfOk result (λ halving. halving.key ≡ cell.now.key) }
        ensures none { IfOk result (λ halving. halving.done ≡ 0) }
    {
        let store = self.store;
        Halving::new(store.alloc, self.picture.record(), cell.key, store.cut)
    }

    /// The tile of a cell, after all source cells were added.
    fn finished(&self, cell: &CellAt, halving: Halving<'_, T::W>) -> Tile<T::W>
        requires cell { IsCellOf self.now.picture.now cell.now }
        requires halves { Halves self.now.picture.now halving }
        requires key { halving.key ≡ cell.now.key }
        requires all { halving.done ≡ part_count halving.layout halving.cut halving.key }
        ensures keyed { result.key ≡ cell.now.key }
        ensures of_cell { IsTrue (is_tile_of cell.now result) }
        ensures rect { HasCellRect T.W.files self.now.store.now.gate.cut result }
        ensures told { IsTold T.W.files result }
    {
        self.picture.know();
        halving.finish()
    }
}

/// The cell of the next larger level that is the k-th source of a cell.
fn part_at<W: World>(
    picture: &Picture<'_, W>,
    cell: &CellAt,
    halving: &Halving<'_, W>,
    k: u32,
) -> CellAt
    requires cell { IsCellOf picture.now cell.now }
    requires generated { IsGenerated picture.now cell.now.key }
    requires halves { Halves picture.now halving.now }
    requires key { halving.now.key ≡ cell.now.key }
    requires done { halving.now.done ≡ k }
    requires next { k < part_count halving.now.layout halving.now.cut halving.now.key }
    ensures of { IsCellOf picture.now result }
    ensures next { IsNextPart halving.now result }
    ensures before { level_of result.key < level_of cell.now.key }
{
    cell_of_key(picture, halving.part(k))
}

/// Adds the tile of the next source cell.
fn add_tile<W: World>(tile: &Tile<W>, part: &CellAt, halving: &mut Halving<'_, W>)
    requires next { IsNextPart halving.old part.now }
    requires keyed { tile.now.key ≡ part.now.key }
    requires of_cell { IsTrue (is_tile_of part.now tile.now) }
    ensures { AddsPart halving.old halving.new }
{
    halving.add(tile);
}
