//! A source of texels that reads the microcache alone.
ghost use Rattle.std.specs.Prelude.{◌≡◌};
ghost use Rattle.tile_source.specs.Pass.{IsPassOf};
ghost use Rattle.tile_source.specs.Texel.{IsUnder};
ghost use Rattle.image_cache.specs.Sizes.{sizes_known, values_known};
ghost use Rattle.texture_sys.specs.Fetches.{walk_of, ShowsTexel, LacksTexel};

use file_table::Picture;
use image_cache::{Cache, Pass, TexelAt};
use tex_world::Tap;
use texel_filter::{Corners, Fetch, Square};
use tile_layout::TileKey;

/// The error of a texel whose cell is not in the microcache.
#[derive(Drop)]
pub(crate) struct Lacking;

/// The texels of one record that are in the microcache. They are read in place: the pass does not
/// change until the lookup has all of them.
#[derive(Drop)]
pub(crate) struct KeptTexels<'a, T: Tap> {
    pub(crate) cache: &'a Cache<T>,
    pub(crate) pass: &'a Pass<T::W>,
    pub(crate) picture: &'a Picture<'a, T::W>,
    /// How many texels were read, and the key of the cell that was read last.
    pub(crate) reads: u64,
    pub(crate) latest: Option<TileKey>,
    ghost of_cache: { IsPassOf cache.now pass.now },
    ghost under: { IsUnder cache.now picture.now },
}

impl<'a, T: Tap> Fetch for KeptTexels<'a, T> {
    ghost use Rattle.std.proofs.Common.{ap};

    type Error = Lacking;

    ghost sizes = { λ f. sizes_known f.picture.now };

    ghost values = { λ f. values_known T.W.files f.picture.now };

    ghost leaves = { λ old texel new. (new.picture.now ≡ old.picture.now)
        × ShowsTexel old.picture.now (walk_of old.pass.now old.reads old.latest) texel
        (walk_of new.pass.now new.reads new.latest) };

    ghost refuses = { λ old texel e new. (new.picture.now ≡ old.picture.now)
        × LacksTexel old.picture.now (walk_of old.pass.now old.reads old.latest) texel e
        (walk_of new.pass.now new.reads new.latest) };

    fn levels(&self) -> u32 {
        self.picture.know();
        self.picture.levels()
    }

    fn size(&self, level: u32) -> (u32, u32) {
        self.picture.know();
        let grid = self.picture.grid(level);
        (grid.across.size, grid.down.size)
    }

    fn texel(&mut self, level: u32, x: u32, y: u32, out: &mut [u16]) -> Result<(), Lacking> {
        let at = TexelAt { level, x, y };
        match self
            .cache
            .show_local(self.pass, self.picture.record(), at, out)
        {
            Some(key) => {
                self.reads = self.reads.saturating_add(1);
                self.latest = Some(key);
                Ok(())
            }
            None => Err(Lacking),
        }
    }

    #[inline(always)]
    fn square(
        &mut self,
        square: &Square,
        channels: usize,
        out: &mut Corners,
    ) -> Result<(), Lacking> {
        // usually one cell holds all four, and is searched for once
        if let Some(key) = self
            .cache
            .show_square_local(self.pass, self.picture.record(), square, channels, out)
        {
            self.reads = self.reads.saturating_add(4);
            self.latest = Some(key);
            return Ok(());
        }
        let Square {
            level,
            left,
            right,
            top,
            bottom,
        } = *square;
        out.narrow = false;
        self.texel(level, left, top, &mut out.left_top[..channels])?;
        self.texel(level, right, top, &mut out.right_top[..channels])?;
        self.texel(level, left, bottom, &mut out.left_bottom[..channels])?;
        self.texel(level, right, bottom, &mut out.right_bottom[..channels])
    }

    ghost lawful = { record {
      same_sizes = λ s t at p. ap sizes_known p.0;
      same_values = λ s t at p. ap (values_known T.W.files) p.0;
      sizes_refused = λ s t at e p. ap sizes_known p.0;
      values_refused = λ s t at e p. ap (values_known T.W.files) p.0;
    } };
}
