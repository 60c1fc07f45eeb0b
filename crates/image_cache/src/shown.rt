//! Reads texels in place in the microcache, and counts them later all together.
ghost use Rattle.std.specs.Prelude.{◌≡◌, ◌↔◌, IsTrue, IsSome, IfSome};
ghost use Rattle.std.specs.Option.{ForSome};
ghost use Rattle.texel_values.specs.Values.{AreValuesAt};
ghost use Rattle.micro.specs.Items.{HasKey};
ghost use Rattle.pinned_tiles.specs.Pinned.{key_in};
ghost use Rattle.tile_source.specs.Pass.{IsPassOf, KeepsAllBut, recent_and_counts};
ghost use Rattle.tile_source.specs.Call.{CountsHits};
ghost use Rattle.image_cache.specs.Call.{turned_to};
ghost use Rattle.tile_source.specs.Texel.{IsKnownTo, IsTexelIn, has_cell_at};
ghost use Rattle.image_cache.specs.Square.{IsShownAt};

use crate::cache::Cache;
use file_table::{Picture, Record};
use tex_world::Tap;
use texel_values::TexelAt;
use tile_layout::TileKey;
use tile_source::{Pass, write_texel};

impl<T: Tap> Cache<T> {
    /// Writes the values of a texel if the microcache has its cell, and returns the cell's key.
    /// Counts nothing and moves no tile.
    pub fn show_local(
        &self,
        pass: &Pass<T::W>,
        known: &Record<T::W>,
        at: TexelAt,
        out: &mut [u16],
    ) -> Option<TileKey>
        requires pass { IsPassOf self.now pass.now }
        requires known { IsKnownTo self.now known.now }
        requires inside { IsTexelIn known.now at }
        ensures has { IsSome result ↔ IsTrue (has_cell_at known.now at pass.now.pinned.recent) }
        ensures value { IsSome result →
            ForSome (T.W.files.held known.now.file known.now.generation) (λ bytes.
            AreValuesAt bytes at out.new) }
        ensures each { IfSome result (IsShownAt known.now at pass.now.pinned.recent) }
    {
        let cell = self.cell(known, at);
        let Some(tile) = pass.tile_of(&cell) else {
            return None;
        };
        write_texel(tile, &Picture::of(known), &cell, at, out);
        Some(cell.key)
    }

    /// Counts `needs` hits, and moves the tile of the last key to the front. The result is the same
    /// as asking for the cells one by one.
    #[inline(always)]
    pub fn count_shown(&self, pass: &mut Pass<T::W>, needs: u64, latest: Option<TileKey>)
        requires pass { IsPassOf self.now pass.old }
        requires there { IfSome latest (λ key. HasKey key_in key pass.old.pinned.recent) }
        ensures counts { CountsHits needs pass.old pass.new }
        ensures moved { pass.new.pinned.recent ≡ turned_to latest pass.old.pinned.recent }
        ensures kept { KeepsAllBut recent_and_counts pass.old pass.new }
    {
        // needed by the proof: the microcache has at most two tiles
        pass.know();
        pass.count_hits(needs);
        if let Some(key) = latest {
            pass.pinned.find(key);
        }
    }
}
