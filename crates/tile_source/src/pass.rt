//! A pass: what one caller has of a cache.
ghost use Rattle.std.specs.Prelude.{◌≡◌, ◌↔◌, ◌<◌, ◌≤◌, length, None, slice_index, slice_get};
ghost use Rattle.std.specs.Prelude.{IsTrue, IsSome, IfSome};
ghost use Rattle.std.specs.List.{All};
ghost use Rattle.std.specs.Option.{option_copied};
ghost use Rattle.tile_store.specs.Lawful.{FitsCut};
ghost use Rattle.pinned_tiles.specs.Pinned.{ArePinned};
ghost use Rattle.tile_source.specs.Pass.{pass_state, no_counts, max_count, CountsAlone};
ghost use Rattle.tile_source.specs.Pass.{counted, counted_together};
ghost use Rattle.pinned_tiles.specs.Cell.{has_cell, is_tile_of};
ghost use Rattle.tile_source.specs.Call.{CountsNeed, CountsHits};

use file_table::Record;
use gen_board::View;
use pinned_tiles::{CellAt, Pinned};
use std::marker::Model;
use std::sync::Arc;
use tex_world::World;
use tile_store::Tile;

/// What one caller has of a cache: what it has seen of the files, its microcache, its holds, the
/// record of its last lookup, and its counts. It may move to another thread.
#[derive(Drop)]
pub struct Pass<W: World> {
    pub view: View<W>,
    pub pinned: Pinned<W>,
    pub latest: Option<Arc<Record<W>>>,
    pub needs: u64,
    pub hits: u64,
    pub apart: u64,
}

impl<W: World> Model for Pass<W> {
    ghost use Rattle.tile_source.specs.Pass.{PassState, kept_pass, pass_counts, IsPass};

    ghost Value = { PassState };

    ghost view = { λ p. kept_pass p.view p.pinned p.latest
        (pass_counts p.needs p.hits p.apart) };

    ghost invariant = { λ p.
        IsPass W.files (kept_pass p.view p.pinned p.latest
        (pass_counts p.needs p.hits p.apart)) };
}

impl<W: World> Pass<W> {
    /// A new pass without pins.
    pub fn of(view: View<W>, pinned: Pinned<W>) -> Pass<W>
        requires { ArePinned W.files pinned }
        ensures { result ≡ pass_state view pinned None no_counts }
    {
        Pass {
            view,
            pinned,
            latest: None,
            needs: 0,
            hits: 0,
            apart: 0,
        }
    }

    /// How many cells its answers needed. The count stays at 18446744073709551615, its greatest
    /// value.
    pub fn needs(&self) -> u64
        ensures { result ≡ self.now.needs }
    {
        self.needs
    }

    /// How many needs its microcache served. The count stays at 18446744073709551615, its greatest
    /// value.
    pub fn hits(&self) -> u64
        ensures value { result ≡ self.now.hits }
        ensures most { self.now.hits ≤ self.now.needs }
    {
        self.hits
    }

    /// How many needs were uncached because no memory was found for a tile: they were answered from
    /// a hold, a slot or the file. The count stays at 18446744073709551615, its greatest value.
    pub fn apart(&self) -> u64
        ensures { result ≡ self.now.apart }
    {
        self.apart
    }

    /// The newest generation that the pass has seen of a file, or 0.
    pub fn seen(&self, file: u32) -> u32
        requires { file < self.now.view.board.files }
        ensures { result ≡ slice_index self.now.view.seen file }
    {
        self.view.seen(file)
    }

    /// The held tile at a place; the oldest is at place 0.
    pub fn held(&self, place: usize) -> Option<&Tile<W>>
        ensures { option_copied result ≡ slice_get self.now.pinned.holds place }
    {
        self.pinned.held(place)
    }

    /// The number of held tiles.
    pub fn held_count(&self) -> usize
        ensures { result ≡ length self.now.pinned.holds }
    {
        self.pinned.held_count()
    }

    /// The tile of a cell, if the microcache has it.
    #[inline(always)]
    pub fn tile_of(&self, cell: &CellAt) -> Option<&Tile<W>>
        ensures some { IsSome result ↔ IsTrue (has_cell cell.now self.now.pinned.recent) }
        ensures keyed { IfSome result (λ tile. tile.now.key ≡ cell.now.key) }
        ensures of_cell { IfSome result (λ tile. IsTrue (is_tile_of cell.now tile.now)) }
    {
        // usually it is the first
        if self.pinned.is_latest(cell) {
            return Some(self.pinned.latest(cell));
        }
        self.pinned.tile_of(cell)
    }

    /// Does nothing; its contract gives the proof what is true of every pass.
    pub fn know(&self)
        ensures few { length self.now.pinned.recent ≤ 2 }
        ensures cells { All (FitsCut W.files self.now.pinned.cut) self.now.pinned.recent }
        ensures needs { self.now.needs ≤ max_count }
        ensures hits { self.now.hits ≤ max_count }
        ensures apart { self.now.apart ≤ max_count }
    {
        self.pinned.know();
        let _needs = self.needs;
        let _hits = self.hits;
        let _apart = self.apart;
    }

    /// Counts a need; `hit` says whether the microcache had the cell.
    pub fn count_need(&mut self, hit: bool)
        ensures counts { CountsNeed hit self.old self.new }
        ensures apart { self.new.apart ≡ self.old.apart }
        ensures kept { CountsAlone self.old self.new }
        ensures low { self.old.hits ≤ max_count }
    {
        self.needs = self.needs.saturating_add(1);
        if hit {
            self.hits = self.hits.saturating_add(1);
        }
    }

    /// Counts four needs, all of them hits.
    pub fn count_four(&mut self)
        ensures needs { self.new.needs ≡ counted_together self.old.needs 4 }
        ensures hits { self.new.hits ≡ counted_together self.old.hits 4 }
        ensures apart { self.new.apart ≡ self.old.apart }
        ensures kept { CountsAlone self.old self.new }
    {
        self.needs = self.needs.saturating_add(4);
        self.hits = self.hits.saturating_add(4);
    }

    /// Counts three needs, all of them hits.
    pub fn count_three(&mut self)
        ensures needs { self.new.needs ≡ counted_together self.old.needs 3 }
        ensures hits { self.new.hits ≡ counted_together self.old.hits 3 }
        ensures apart { self.new.apart ≡ self.old.apart }
        ensures kept { CountsAlone self.old self.new }
    {
        self.needs = self.needs.saturating_add(3);
        self.hits = self.hits.saturating_add(3);
    }

    /// Counts `needs` needs, all of them hits.
    pub fn count_hits(&mut self, needs: u64)
        ensures counts { CountsHits needs self.old self.new }
        ensures kept { CountsAlone self.old self.new }
    {
        self.needs = self.needs.saturating_add(needs);
        self.hits = self.hits.saturating_add(needs);
    }

    /// Counts an uncached need.
    pub fn count_uncached(&mut self)
        ensures apart { self.new.apart ≡ counted self.old.apart }
        ensures needs { self.new.needs ≡ self.old.needs }
        ensures hits { self.new.hits ≡ self.old.hits }
        ensures kept { CountsAlone self.old self.new }
    {
        self.apart = self.apart.saturating_add(1);
    }
}
