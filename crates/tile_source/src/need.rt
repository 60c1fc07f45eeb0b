//! Gets the cell that an answer needs: from the microcache, a shard or the file.
ghost use Rattle.std.specs.Prelude.{◌≡◌, ◌≤◌, ◌⊎◌, ◌∷◌, [], None, IfOk, OnOk, OnErr, IsTrue};
ghost use Rattle.std.specs.Prelude.{IsFalse};
ghost use Rattle.std.specs.Prelude.{IsSomeAnd};
ghost use Rattle.std.specs.List.{All};
ghost use Rattle.tile_store.specs.Lawful.{FitsCut};
ghost use Rattle.file_table.specs.Record.{IsRecord};
ghost use Rattle.micro.specs.Items.{HasKey};
ghost use Rattle.pinned_tiles.specs.Pinned.{key_in, AsksFor, IsAskedFor};
ghost use Rattle.pinned_tiles.specs.Cell.{has_cell, HasFirst, StandsFirst};
ghost use Rattle.tile_source.specs.Pass.{SameCounts, max_count};
ghost use Rattle.tile_source.specs.Texel.{IsCellOf};
ghost use Rattle.tile_source.specs.Call.{CountsNeed, Needs};
ghost use Rattle.tile_source.specs.Cause.{AnswersHeld};
ghost use Rattle.tile_source.specs.Making.{IsMadeFor};
ghost use Rattle.tile_source.specs.Source.{refusal, Steps, Makes, Brings, Reads, IsCold};
ghost use Rattle.tile_source.specs.Source.{IsTileAt, FindsKey, PlacesKey};

use crate::error::CacheError;
use crate::source::TileSource;
use pinned_tiles::CellAt;
use tex_world::Tap;
use tile_layout::TileKey;
use tile_store::Tile;
use waiter::Waiter;

impl<'a, V: Waiter, T: Tap> TileSource<'a, V, T> {
    /// Gets a cell and counts the need, as a hit if the microcache had it.
    pub fn need_counted(&mut self, cell: &CellAt) -> Result<Option<Tile<T::W>>, CacheError<V::Busy>>
        requires cell { IsCellOf self.old.picture.now cell.now }
        ensures tile { IfOk result (IsTileAt cell.now self.new.pass.now.pinned.recent) }
        ensures needs { OnOk result
            (Needs T.W.files (cell.now.key ∷ []) self.old.pass.now self.new.pass.now) }
        ensures left { Reads T.W.files self.old self.new (refusal result) }
    {
        self.count(self.has(cell));
        self.need_tile(cell)
    }

    /// Gets the tile of a cell. `None` if the tile is then the first of the microcache.
    ///
    /// If the world is not modelled, the contracts allow a shard to have a different tile under the
    /// cell's key. Such a tile is not read; a tile made for this one need is returned instead.
    pub(crate) fn need_tile(
        &mut self,
        cell: &CellAt,
    ) -> Result<Option<Tile<T::W>>, CacheError<V::Busy>>
        requires cell { IsCellOf self.old.picture.now cell.now }
        ensures tile { IfOk result (IsTileAt cell.now self.new.pass.now.pinned.recent) }
        ensures asked { OnOk result (AsksFor cell.now.key
            self.old.pass.now.pinned.recent self.new.pass.now.pinned.recent) }
        ensures turned { OnOk result (IsAskedFor cell.now.key
            self.old.pass.now.pinned.recent self.new.pass.now.pinned.recent) }
        ensures stays { OnErr result (IsTrue T.W.files.tells
            → self.new.pass.now.pinned.recent ≡ self.old.pass.now.pinned.recent) }
        ensures left { Brings T.W.files self.old self.new (refusal result) }
        ensures missed { IsTrue T.W.files.tells → IsCold cell.now.key self.old self.new }
        ensures held { IsTrue T.W.files.tells
            → HasKey key_in cell.now.key self.old.pass.now.pinned.holds → AnswersHeld
            (T.state self.old.tap.now) (T.state self.new.tap.now) result }
    {
        self.bring(cell)?;
        if self.is_latest(cell) {
            return Ok(None);
        }
        let alone = self.make_alone(cell)?;
        Ok(Some(alone))
    }

    /// Makes the tile of a cell for one need only.
    fn make_alone(&mut self, cell: &CellAt) -> Result<Tile<T::W>, CacheError<V::Busy>>
        requires cell { IsCellOf self.old.picture.now cell.now }
        ensures tile { IfOk result (IsMadeFor T.W.files self.old.store.now.gate.cut cell.now) }
        ensures hand { OnOk result (self.new.pass.now.pinned.hand ≡ None) }
        ensures made { Makes T.W.files self.old self.new (refusal result) }
    {
        // a pin that could not be given back earlier goes first
        self.give_back()?;
        self.make(cell)
    }

    /// Moves the tile of a cell's key to the front of the microcache, loading it if necessary.
    fn bring(&mut self, cell: &CellAt) -> Result<(), CacheError<V::Busy>>
        requires cell { IsCellOf self.old.picture.now cell.now }
        ensures asked { OnOk result (AsksFor cell.now.key
            self.old.pass.now.pinned.recent self.new.pass.now.pinned.recent) }
        ensures turned { OnOk result (IsAskedFor cell.now.key
            self.old.pass.now.pinned.recent self.new.pass.now.pinned.recent) }
        ensures first { OnOk result (HasFirst cell.now.key self.new.pass.now.pinned.recent) }
        ensures stays { OnErr result
            (self.new.pass.now.pinned.recent ≡ self.old.pass.now.pinned.recent) }
        ensures left { Brings T.W.files self.old self.new (refusal result) }
        ensures missed { IsCold cell.now.key self.old self.new }
        ensures held { HasKey key_in cell.now.key self.old.pass.now.pinned.holds → AnswersHeld
            (T.state self.old.tap.now) (T.state self.new.tap.now) result }
    {
        if self.find(cell.key) {
            return Ok(());
        }
        self.take_in_hand(cell)?;
        self.place(cell.key);
        Ok(())
    }

    /// Counts a need of a cell; `hit` says whether the microcache had it.
    pub(crate) fn count(&mut self, hit: bool)
        ensures counts { CountsNeed hit self.old.pass.now self.new.pass.now }
        ensures apart { self.new.pass.now.apart ≡ self.old.pass.now.apart }
        ensures low { self.old.pass.now.hits ≤ max_count }
        ensures told { IsRecord T.W.files self.old.picture.now }
        ensures fits { All (FitsCut T.W.files self.old.pass.now.pinned.cut)
            self.old.pass.now.pinned.recent }
        ensures recent { self.new.pass.now.pinned.recent ≡ self.old.pass.now.pinned.recent }
        ensures seat { self.new.pass.now.pinned.seat ≡ self.old.pass.now.pinned.seat }
        ensures tap { self.new.tap.now ≡ self.old.tap.now }
        ensures left { Reads T.W.files self.old self.new None }
    {
        self.picture.know();
        let pass = &mut *self.pass;
        pass.know();
        pass.count_need(hit);
    }

    /// Whether the microcache has a cell.
    fn has(&self, cell: &CellAt) -> bool
        ensures { result ≡ has_cell cell.now self.now.pass.now.pinned.recent }
    {
        let pass = &*self.pass;
        pass.pinned.has(cell)
    }

    /// Whether the microcache has a tile of the key. If so, moves it to the front.
    fn find(&mut self, key: TileKey) -> bool
        ensures some { IsTrue result → FindsKey key
            self.old.pass.now.pinned.recent self.new.pass.now.pinned.recent }
        ensures none { IsFalse result → (¬ HasKey key_in key self.old.pass.now.pinned.recent)
            × (self.new.pass.now.pinned.recent ≡ self.old.pass.now.pinned.recent) }
        ensures seat { self.new.pass.now.pinned.seat ≡ self.old.pass.now.pinned.seat }
        ensures tap { self.new.tap.now ≡ self.old.tap.now }
        ensures left { Brings T.W.files self.old self.new None }
    {
        let pass = &mut *self.pass;
        pass.pinned.find(key)
    }

    /// Puts the tile in hand, which has this key, first in the microcache.
    fn place(&mut self, key: TileKey)
        requires hand { IsSomeAnd self.old.pass.now.pinned.hand (λ t. t.key ≡ key) }
        requires absent { ¬ HasKey key_in key self.old.pass.now.pinned.recent }
        ensures placed { PlacesKey key
            self.old.pass.now.pinned.recent self.new.pass.now.pinned.recent }
        ensures hand { (self.new.pass.now.pinned.hand ≡ None) ⊎ V.Busy }
        ensures counts { SameCounts self.old.pass.now self.new.pass.now }
        ensures tap { self.new.tap.now ≡ self.old.tap.now }
        ensures left { Steps T.W.files self.old self.new None }
    {
        let (store, pass) = (self.store, &mut *self.pass);
        pass.pinned.place(&store.gate, self.waiter, key);
    }

    /// Whether the first tile of the microcache is the tile of the cell. If the world is modelled,
    /// comparing the keys is enough.
    fn is_latest(&self, cell: &CellAt) -> bool
        requires cell { IsCellOf self.now.picture.now cell.now }
        ensures is { IsTrue result → StandsFirst cell.now self.now.pass.now.pinned.recent }
        ensures told { IsTrue T.W.files.tells →
            HasFirst cell.now.key self.now.pass.now.pinned.recent → IsTrue result }
    {
        self.picture.know();
        let pass = &*self.pass;
        pass.pinned.know();
        pass.pinned.is_latest(cell)
    }
}
