//! One texel: from the microcache, from a shard, or from the file.
ghost use Rattle.std.specs.Prelude.{◌≡◌, true, false, OnOk, OnErr, IsTrue};
ghost use Rattle.std.specs.Prelude.{IsFalse};
ghost use Rattle.std.specs.Option.{ForSome};
ghost use Rattle.tile_source.specs.Pass.{IsPassOf};
ghost use Rattle.tile_source.specs.Texel.{IsRecordOf, IsKnownTo, IsTexelIn, IsCellAt};
ghost use Rattle.tile_source.specs.Texel.{has_cell_at};
ghost use Rattle.texel_values.specs.Values.{AreValuesAt};
ghost use Rattle.image_cache.specs.Square.{MeetsAt};
ghost use Rattle.image_cache.specs.Fetches.{FetchesTexel};
ghost use Rattle.tile_source.specs.Source.{pass_tap};

use crate::cache::Cache;
use file_table::{Picture, Record};
use pinned_tiles::CellAt;
use tex_world::Tap;
use texel_values::TexelAt;
use tile_source::{CacheError, Pass, TileSource, cell_at, write_texel};
use waiter::Waiter;

impl<T: Tap> Cache<T> {
    /// Writes the 16-bit values of a texel's first channels, with 0 for channels that the file
    /// lacks. They come from the microcache, from a shard or from the file.
    ///
    /// Counts one need, and a hit if the microcache had the cell.
    pub fn fetch<V: Waiter>(
        &self,
        waiter: &V,
        pass: &mut Pass<T::W>,
        tap: &mut T,
        known: &Record<T::W>,
        at: TexelAt,
        out: &mut [u16],
    ) -> Result<(), CacheError<V::Busy>>
        requires pass { IsPassOf self.now pass.old }
        requires known { IsRecordOf T.W.files self.now known.now }
        requires inside { IsTexelIn known.now at }
        ensures value { ForSome (T.W.files.held known.now.file known.now.generation) (λ bytes.
            OnOk result (AreValuesAt bytes at out.new)) }
        ensures err { OnErr result (out.new ≡ out.old) }
        // The state after the call, also after an error, and its cause.
        ensures left { FetchesTexel T.W.files self.now.gate known.now at
            (pass_tap pass.old (T.state tap.old)) (pass_tap pass.new (T.state tap.new)) result }
    {
        let cell = self.cell(known, at);
        if self.fetch_kept(pass, known, &cell, at, out) {
            return Ok(());
        }
        let picture = Picture::of(known);
        let mut source = TileSource {
            store: self.store(),
            waiter,
            pass,
            tap,
            picture: &picture,
        };
        source.fetch_cold(&cell, at, out)
    }

    /// Whether the microcache has the cell that holds a texel. Changes nothing.
    pub fn has_local(&self, pass: &Pass<T::W>, known: &Record<T::W>, at: TexelAt) -> bool
        requires pass { IsPassOf self.now pass.now }
        requires known { IsKnownTo self.now known.now }
        requires inside { IsTexelIn known.now at }
        ensures { result ≡ has_cell_at known.now at pass.now.pinned.recent }
    {
        pass.pinned.tile_of(&self.cell(known, at)).is_some()
    }

    /// Does what `fetch` does if the microcache has the cell of the texel. Otherwise returns false
    /// and changes nothing.
    pub fn fetch_local(
        &self,
        pass: &mut Pass<T::W>,
        known: &Record<T::W>,
        at: TexelAt,
        out: &mut [u16],
    ) -> bool
        requires pass { IsPassOf self.now pass.old }
        requires known { IsKnownTo self.now known.now }
        requires inside { IsTexelIn known.now at }
        ensures has { result ≡ has_cell_at known.now at pass.old.pinned.recent }
        ensures value { IsTrue result →
            ForSome (T.W.files.held known.now.file known.now.generation) (λ bytes.
            AreValuesAt bytes at out.new) }
        // The pass after the call, if the microcache has the cell.
        ensures met { IsTrue result → MeetsAt T.W.files known.now at pass.old pass.new }
        // If the microcache does not have the cell, nothing changes.
        ensures same { IsFalse result → (pass.new ≡ pass.old) × (out.new ≡ out.old) }
    {
        let cell = self.cell(known, at);
        self.fetch_kept(pass, known, &cell, at, out)
    }

    /// Does the work of `fetch_local` once the cell of the texel is known.
    fn fetch_kept(
        &self,
        pass: &mut Pass<T::W>,
        known: &Record<T::W>,
        cell: &CellAt,
        at: TexelAt,
        out: &mut [u16],
    ) -> bool
        requires pass { IsPassOf self.now pass.old }
        requires known { IsKnownTo self.now known.now }
        requires cell { IsCellAt known.now at cell.now }
        ensures has { result ≡ has_cell_at known.now at pass.old.pinned.recent }
        ensures value { IsTrue result →
            ForSome (T.W.files.held known.now.file known.now.generation) (λ bytes.
            AreValuesAt bytes at out.new) }
        // The pass after the call, if the microcache has the cell.
        ensures met { IsTrue result → MeetsAt T.W.files known.now at pass.old pass.new }
        // If the microcache does not have the cell, nothing changes.
        ensures same { IsFalse result → (pass.new ≡ pass.old) × (out.new ≡ out.old) }
    {
        if !pass.pinned.turn_to(cell) {
            return false;
        }
        pass.count_need(true);
        write_texel(pass.pinned.latest(cell), &Picture::of(known), cell, at, out);
        true
    }

    /// The cell that holds a texel.
    pub(crate) fn cell(&self, known: &Record<T::W>, at: TexelAt) -> CellAt
        requires known { IsKnownTo self.now known.now }
        requires inside { IsTexelIn known.now at }
        ensures { IsCellAt known.now at result }
    {
        self.store.know();
        cell_at(&Picture::of(known), at)
    }
}
