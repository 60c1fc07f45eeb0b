//! Loads a cell that no shard has from its file, through a handle of the file table.
ghost use Rattle.std.specs.Prelude.{◌≡◌, ◌<◌, ◌≤◌, IfOk, IfErr, OnOk, IsOkAnd, IsTrue};
ghost use Rattle.std.specs.Prelude.{length, slice_index};
ghost use Rattle.tex_world.specs.World.{IsReal};
ghost use Rattle.file_table.specs.Calls.{OpensIfAtAll};
ghost use Rattle.tile_layout.specs.Key.{level_of};
ghost use Rattle.tile_layout.specs.Kept.{stored_count};
ghost use Rattle.tile_load.specs.Load.{IsReadBy};
ghost use Rattle.tile_source.specs.Texel.{IsUnder, IsCellOf, IsStoredTexel};
ghost use Rattle.tile_source.specs.declared.error.CacheError.TheVariants.{Again};
ghost use Rattle.tile_source.specs.Uncached.{part_at, AreSamplesAt};
ghost use Rattle.tile_source.specs.Call.{NoneFalls};
ghost use Rattle.tile_source.specs.Making.{IsMadeFor};
ghost use Rattle.tile_source.specs.Source.{KeepsOthers};
ghost use Rattle.tile_source.specs.Cause.{FetchCause, MovesOnlyAgain, WantsByOpening};

use crate::error::CacheError;
use crate::store::Store;
use file_table::Picture;
use gen_board::View;
use pinned_tiles::CellAt;
use tap_reader::OpenFile;
use tex_world::{Tap, World};
use texel_values::TexelAt;
use tile_load::{LoadError, load};
use tile_slots::{FillError, PART_TEXELS, PartKey};
use tile_store::Tile;
use waiter::Waiter;

/// A texel of a stored level.
#[derive(Drop)]
pub(crate) struct StoredTexel<'a, W: World> {
    pub(crate) picture: &'a Picture<'a, W>,
    pub(crate) at: TexelAt,
}

impl<T: Tap> Store<T> {
    /// Loads the tile of a cell of a stored level, through a handle of the record's generation.
    /// Unless a read fails, the handle is kept idle afterwards, with its read-ahead.
    pub(crate) fn load_cell<V: Waiter>(
        &self,
        waiter: &V,
        view: &mut View<T::W>,
        tap: &mut T,
        picture: &Picture<'_, T::W>,
        cell: &CellAt,
    ) -> Result<Tile<T::W>, CacheError<V::Busy>>
        requires view { view.old.board ≡ self.now.files.board }
        requires under { IsUnder self.now picture.now }
        requires cell { IsCellOf picture.now cell.now }
        requires stored { IsOkAnd picture.now.layout (λ kept.
            level_of cell.now.key < stored_count kept) }
        ensures tile { IfOk result (IsMadeFor T.W.files self.now.gate.cut cell.now) }
        ensures cause { IfErr result (FetchCause T.W.files picture.now view.new
            (T.state tap.old) (T.state tap.new)) }
        ensures moves { MovesOnlyAgain (T.state tap.old) (T.state tap.new) result }
        ensures keeps { KeepsOthers picture.now.file view.old view.new }
        ensures tap { NoneFalls (T.state tap.old) (T.state tap.new) }
    {
        picture.know();
        let mut file = self.lend(waiter, view, tap, picture)?;
        match load(
            self.alloc,
            tap,
            &mut file,
            picture.record(),
            cell.key,
            self.cut,
        ) {
            Ok(tile) => {
                // if the waiter gives up, the handle is closed instead of kept
                let _ = self.files.settle(waiter, file);
                Ok(tile)
            }
            Err(LoadError::NoMemory) => {
                let _ = self.files.settle(waiter, file);
                Err(CacheError::NoMemory)
            }
            Err(LoadError::ReadFault) => Err(CacheError::ReadFault),
            Err(LoadError::Gone(to)) => Err(self.outdated(view, picture, to)),
        }
    }

    /// Reads the samples of a texel of a stored level, through a handle of the record's generation.
    /// Unless a read fails, the handle is kept idle afterwards. Memory is allocated only to open
    /// the file.
    pub(crate) fn read_samples<V: Waiter>(
        &self,
        waiter: &V,
        view: &mut View<T::W>,
        tap: &mut T,
        texel: &StoredTexel<'_, T::W>,
        samples: &mut [u16],
    ) -> Result<(), CacheError<V::Busy>>
        requires view { view.old.board ≡ self.now.files.board }
        requires under { IsUnder self.now texel.now.picture.now }
        requires stored { IsOkAnd texel.now.picture.now.layout (λ kept.
            IsStoredTexel kept texel.now.at (length samples.old)) }
        ensures told { OnOk result (AreSamplesAt T.W.files texel.now.picture.now texel.now.at samples.new) }
        ensures cause { IfErr result (FetchCause T.W.files texel.now.picture.now view.new
            (T.state tap.old) (T.state tap.new)) }
        ensures memory { IfErr result (WantsByOpening (T.state tap.old) (T.state tap.new)) }
        ensures moves { MovesOnlyAgain (T.state tap.old) (T.state tap.new) result }
        ensures keeps { KeepsOthers texel.now.picture.now.file view.old view.new }
        ensures tap { NoneFalls (T.state tap.old) (T.state tap.new) }
    {
        let picture = texel.picture;
        let layout = picture.layout();
        let mut file = self.lend(waiter, view, tap, picture)?;
        let (part, x) = (texel.part(), texel.at.x);
        match self
            .slots
            .fill(tap, &mut file.handle, layout, part, x, samples)
        {
            Ok(_put) => {
                // if the waiter gives up, the handle is closed instead of kept
                let _ = self.files.settle(waiter, file);
                Ok(())
            }
            Err(FillError::ReadFault) => Err(CacheError::ReadFault),
            Err(FillError::Gone(to)) => Err(self.outdated(view, picture, to)),
        }
    }

    /// The samples of a texel of a stored level, if a slot has them.
    pub(crate) fn show_samples(&self, texel: &StoredTexel<'_, T::W>, samples: &mut [u16]) -> bool
        requires stored { IsOkAnd texel.now.picture.now.layout (λ kept.
            IsStoredTexel kept texel.now.at (length samples.old)) }
        ensures told { IsTrue result → AreSamplesAt T.W.files texel.now.picture.now texel.now.at samples.new }
    {
        texel.picture.know();
        self.slots.show(texel.part(), texel.at.x, samples)
    }

    /// The error after a read met a newer generation, which is published on the board.
    fn outdated<B>(
        &self,
        view: &mut View<T::W>,
        picture: &Picture<'_, T::W>,
        to: u32,
    ) -> CacheError<B>
        requires view { view.old.board ≡ self.now.files.board }
        requires number { picture.now.file < self.now.files.board.files }
        requires real { IsReal T.W.files picture.now.file to }
        ensures value { result ≡ Again picture.now.generation to }
        ensures seen { to ≤ slice_index view.new.seen picture.now.file }
        ensures keeps { KeepsOthers picture.now.file view.old view.new }
    {
        self.files.board().raise(view, picture.file(), to);
        CacheError::Again {
            from: picture.generation(),
            to,
        }
    }

    /// A handle of the record's file, open at the record's generation.
    fn lend<V: Waiter>(
        &self,
        waiter: &V,
        view: &mut View<T::W>,
        tap: &mut T,
        picture: &Picture<'_, T::W>,
    ) -> Result<OpenFile<T>, CacheError<V::Busy>>
        requires view { view.old.board ≡ self.now.files.board }
        requires under { IsUnder self.now picture.now }
        ensures ok { IfOk result (λ f. IsReadBy (T.Handle.named f.handle) picture.now) }
        ensures cause { IfErr result (FetchCause T.W.files picture.now view.new
            (T.state tap.old) (T.state tap.new)) }
        ensures memory { IfErr result (WantsByOpening (T.state tap.old) (T.state tap.new)) }
        ensures moves { MovesOnlyAgain (T.state tap.old) (T.state tap.new) result }
        ensures keeps { KeepsOthers picture.now.file view.old view.new }
        ensures tap { OpensIfAtAll (T.state tap.old) (T.state tap.new) }
    {
        let lent = self
            .files
            .lend(waiter, view, tap, picture.file(), picture.generation());
        Ok(lent?)
    }
}

impl<'a, W: World> StoredTexel<'a, W> {
    /// The key of the part of a row that has it.
    fn part(&self) -> PartKey
        ensures { result ≡ part_at self.now.picture.now self.now.at }
    {
        PartKey {
            generation: self.picture.generation(),
            file: self.picture.file(),
            level: self.at.level,
            part: self.at.x / PART_TEXELS,
            row: self.at.y,
        }
    }
}
