//! One texel whose cell is not in the microcache.
ghost use Rattle.std.specs.Prelude.{◌≡◌, ◌⊎◌, false, IsTrue};
ghost use Rattle.std.specs.Option.{ForSome};
ghost use Rattle.pinned_tiles.specs.Cell.{is_tile_of, has_cell, StandsFirst};
ghost use Rattle.tile_source.specs.Texel.{IsTexelIn, IsCellAt};
ghost use Rattle.texel_values.specs.Values.{AreValuesAt};
ghost use Rattle.tile_source.specs.Call.{HasNoCall, MissesCellAt};
ghost use Rattle.tile_source.specs.Call.{NoneUncached};
ghost use Rattle.tile_source.specs.Source.{refusal, IsSameCall, Reads, pass_tap};
ghost use Rattle.tile_source.specs.Source.{WritesTexel, CountsMiss, LacksMemory};
ghost use Rattle.tile_source.specs.Cause.{AnswersFromHold};
ghost use Rattle.micro.specs.Items.{HasKey};
ghost use Rattle.pinned_tiles.specs.Pinned.{key_in};

use crate::error::CacheError;
use crate::source::TileSource;
use file_table::Picture;
use pinned_tiles::CellAt;
use tex_world::{Tap, World};
use texel_values::{TexelAt, write_values};
use tile_store::Tile;
use waiter::Waiter;

impl<'a, V: Waiter, T: Tap> TileSource<'a, V, T> {
    /// Answers a texel whose cell is not in the microcache, and counts the need.
    pub fn fetch_cold(
        &mut self,
        cell: &CellAt,
        at: TexelAt,
        out: &mut [u16],
    ) -> Result<(), CacheError<V::Busy>>
        requires cell { IsCellAt self.old.picture.now at cell.now }
        requires inside { IsTexelIn self.old.picture.now at }
        requires lacks { has_cell cell.now self.old.pass.now.pinned.recent ≡ false }
        ensures texel { WritesTexel T.W.files self.old.picture.now at out.old out.new result }
        ensures need { CountsMiss T.W.files self.old.picture.now at
            self.old.pass.now self.new.pass.now result }
        ensures call { IsSameCall self.old self.new }
        ensures left { Reads T.W.files self.old self.new (refusal result) }
        ensures missed { IsTrue T.W.files.tells → NoneUncached self.old.pass.now self.new.pass.now
            → HasNoCall (T.state self.old.tap.now) (T.state self.new.tap.now)
            ⊎ MissesCellAt self.old.store.now.gate self.old.picture.now at
            self.old.pass.now self.new.pass.now }
        ensures held { IsTrue T.W.files.tells
            → HasKey key_in cell.now.key self.old.pass.now.pinned.holds → AnswersFromHold
            (T.state self.old.tap.now) (T.state self.new.tap.now) result }
        ensures memory { LacksMemory self.old.picture.now at
            (pass_tap self.old.pass.now (T.state self.old.tap.now))
            (pass_tap self.new.pass.now (T.state self.new.tap.now)) result }
    {
        self.count(false);
        match self.need_tile(cell) {
            Ok(Some(alone)) => {
                write_texel(&alone, self.picture, cell, at, out);
                Ok(())
            }
            Ok(None) => {
                self.write_first(cell, at, out);
                Ok(())
            }
            Err(e) => match e {
                CacheError::NoMemory => self.fetch_uncached(cell, at, out),
                e => Err(e),
            },
        }
    }

    /// Writes the values of a texel from the first tile of the microcache, which is that of its
    /// cell.
    fn write_first(&self, cell: &CellAt, at: TexelAt, out: &mut [u16])
        requires first { StandsFirst cell.now self.now.pass.now.pinned.recent }
        requires cell { IsCellAt self.now.picture.now at cell.now }
        ensures { ForSome (T.W.files.held self.now.picture.now.file self.now.picture.now.generation) (λ bytes.
            AreValuesAt bytes at out.new) }
    {
        let pass = &*self.pass;
        write_texel(pass.pinned.latest(cell), self.picture, cell, at, out);
    }
}

/// Writes the values of a texel from a tile of its cell.
#[inline(always)]
pub fn write_texel<W: World>(
    tile: &Tile<W>,
    picture: &Picture<'_, W>,
    cell: &CellAt,
    at: TexelAt,
    out: &mut [u16],
)
    requires keyed { tile.now.key ≡ cell.now.key }
    requires of_cell { IsTrue (is_tile_of cell.now tile.now) }
    requires cell { IsCellAt picture.now at cell.now }
    ensures { ForSome (W.files.held picture.now.file picture.now.generation) (λ bytes.
        AreValuesAt bytes at out.new) }
{
    let depth = picture.depth(at.level);
    write_values(tile, depth, at, out);
}
