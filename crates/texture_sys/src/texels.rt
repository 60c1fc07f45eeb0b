//! The texels of a picture, fetched through the cache.
ghost use Rattle.std.specs.Prelude.{length, OnOk, IfOk, IfErr};
ghost use Rattle.std.specs.Option.{ForSome};
ghost use Rattle.texel_filter.specs.Image.{IsInside, IsChannelCount, AreValues, texel_of};
ghost use Rattle.texel_filter.specs.Square.{texels_of, HasSquare, AreCorners};
ghost use Rattle.texel_filter.specs.Calls.{LeftBy};
ghost use Rattle.image_cache.specs.Sizes.{sizes_known, values_known};
ghost use Rattle.image_cache.specs.Square.{rest_of, HasLeftTop};
ghost use Rattle.texture_sys.specs.Texels.{FetchesBy, RefusesBy};

use crate::cached_texels::CachedTexels;
use image_cache::{CacheError, TexelAt};
use tex_world::Tap;
use texel_filter::{Corners, Fetch, Square};
use waiter::Waiter;

impl<'a, V: Waiter, T: Tap> Fetch for CachedTexels<'a, V, T> {
    ghost use Rattle.std.proofs.Common.{ap};

    type Error = CacheError<V::Busy>;

    ghost sizes = { λ r. sizes_known r.picture.now };

    ghost values = { λ r. values_known T.W.files r.picture.now };

    ghost leaves = { λ old texel new. FetchesBy T.W.files old texel new };

    ghost refuses = { λ old texel e new. RefusesBy T.W.files old texel e new };

    fn levels(&self) -> u32 {
        self.picture.know();
        self.picture.levels()
    }

    fn size(&self, level: u32) -> (u32, u32) {
        self.picture.know();
        let grid = self.picture.grid(level);
        (grid.across.size, grid.down.size)
    }

    fn texel(
        &mut self,
        level: u32,
        x: u32,
        y: u32,
        out: &mut [u16],
    ) -> Result<(), CacheError<V::Busy>> {
        self.fetch_at(level, x, y, out)
    }

    #[inline(always)]
    fn square(
        &mut self,
        square: &Square,
        channels: usize,
        out: &mut Corners,
    ) -> Result<(), CacheError<V::Busy>> {
        // usually one cell of the microcache holds all four
        if self
            .cache
            .fetch_square_local(self.pass, self.picture.record(), square, channels, out)
        {
            return Ok(());
        }
        self.fetch_four(square, channels, out)
    }

    ghost lawful = { record {
      same_sizes = λ s t at p. ap sizes_known (ap (λ k. k.now) p.call.picture);
      same_values = λ s t at p. ap (values_known T.W.files) (ap (λ k. k.now) p.call.picture);
      sizes_refused = λ s t at e p. ap sizes_known (ap (λ k. k.now) p.call.picture);
      values_refused = λ s t at e p. ap (values_known T.W.files) (ap (λ k. k.now) p.call.picture);
    } };
}

impl<'a, V: Waiter, T: Tap> CachedTexels<'a, V, T> {
    /// Writes the first channels of a texel: from the microcache, a shard or the file.
    fn fetch_at(
        &mut self,
        level: u32,
        x: u32,
        y: u32,
        out: &mut [u16],
    ) -> Result<(), CacheError<V::Busy>>
        requires inside { IsInside (sizes_known self.old.picture.now) (texel_of level x y) }
        requires channels { IsChannelCount (length out.old) }
        ensures told { ForSome (values_known T.W.files self.old.picture.now) (λ v.
            OnOk result (AreValues (v level x y) out.new)) }
        ensures ok { OnOk result (FetchesBy T.W.files self.old (texel_of level x y) self.new) }
        ensures err { IfErr result (λ e.
            RefusesBy T.W.files self.old (texel_of level x y) e self.new) }
    {
        let at = TexelAt { level, x, y };
        let (cache, known) = (self.cache, self.picture.record());
        cache.fetch(self.waiter, self.pass, self.tap, known, at, out)
    }

    /// Fetches the four texels of a square one after another, the upper row first.
    #[inline(always)]
    fn fetch_four(
        &mut self,
        square: &Square,
        channels: usize,
        out: &mut Corners,
    ) -> Result<(), CacheError<V::Busy>>
        requires inside { HasSquare (sizes_known self.old.picture.now) square.now }
        requires channels { IsChannelCount channels }
        ensures told { ForSome (values_known T.W.files self.old.picture.now) (λ v.
            OnOk result (AreCorners v square.now channels out.new)) }
        ensures left { LeftBy (FetchesBy T.W.files) (RefusesBy T.W.files)
            self.old (texels_of square.now) self.new result }
    {
        *out = self.four_corners(*square, channels)?;
        Ok(())
    }

    /// Fetches the four texels of a square and returns them by value, so that the corners need not
    /// lie in memory on the common path, where one cell holds the square.
    #[inline(never)]
    fn four_corners(
        &mut self,
        square: Square,
        channels: usize,
    ) -> Result<Corners, CacheError<V::Busy>>
        requires inside { HasSquare (sizes_known self.old.picture.now) square }
        requires channels { IsChannelCount channels }
        ensures told { ForSome (values_known T.W.files self.old.picture.now) (λ v.
            IfOk result (AreCorners v square channels)) }
        ensures left { LeftBy (FetchesBy T.W.files) (RefusesBy T.W.files)
            self.old (texels_of square) self.new result }
    {
        let mut corners = Corners::BLACK;
        self.fetch_in_turn(&square, channels, &mut corners)?;
        Ok(corners)
    }

    /// Fetches the first texel of a square, and then the others. If the first brings in a cell that
    /// holds all four, the others are read from it at once.
    fn fetch_in_turn(
        &mut self,
        square: &Square,
        channels: usize,
        out: &mut Corners,
    ) -> Result<(), CacheError<V::Busy>>
        requires inside { HasSquare (sizes_known self.old.picture.now) square.now }
        requires channels { IsChannelCount channels }
        ensures told { ForSome (values_known T.W.files self.old.picture.now) (λ v.
            OnOk result (AreCorners v square.now channels out.new)) }
        ensures left { LeftBy (FetchesBy T.W.files) (RefusesBy T.W.files)
            self.old (texels_of square.now) self.new result }
    {
        let Square {
            level,
            left,
            top,
            ..
        } = *square;
        self.fetch_at(level, left, top, &mut out.left_top[..channels])?;
        self.fetch_rest(square, channels, out)
    }

    /// Fetches the other three texels of a square. The first one's values are already in `out`.
    fn fetch_rest(
        &mut self,
        square: &Square,
        channels: usize,
        out: &mut Corners,
    ) -> Result<(), CacheError<V::Busy>>
        requires inside { HasSquare (sizes_known self.old.picture.now) square.now }
        requires channels { IsChannelCount channels }
        ensures told { ForSome (values_known T.W.files self.old.picture.now) (λ v.
            HasLeftTop v square.now channels out.old
            → OnOk result (AreCorners v square.now channels out.new)) }
        ensures left { LeftBy (FetchesBy T.W.files) (RefusesBy T.W.files)
            self.old (rest_of square.now) self.new result }
    {
        if self
            .cache
            .fetch_rest_local(self.pass, self.picture.record(), square, channels, out)
        {
            return Ok(());
        }
        self.fetch_three(square, channels, out)
    }

    /// Fetches the other three texels of a square one after another.
    fn fetch_three(
        &mut self,
        square: &Square,
        channels: usize,
        out: &mut Corners,
    ) -> Result<(), CacheError<V::Busy>>
        requires inside { HasSquare (sizes_known self.old.picture.now) square.now }
        requires channels { IsChannelCount channels }
        ensures told { ForSome (values_known T.W.files self.old.picture.now) (λ v.
            HasLeftTop v square.now channels out.old
            → OnOk result (AreCorners v square.now channels out.new)) }
        ensures left { LeftBy (FetchesBy T.W.files) (RefusesBy T.W.files)
            self.old (rest_of square.now) self.new result }
    {
        let Square {
            level,
            left,
            right,
            top,
            bottom,
        } = *square;
        out.narrow = false;
        self.fetch_at(level, right, top, &mut out.right_top[..channels])?;
        self.fetch_at(level, left, bottom, &mut out.left_bottom[..channels])?;
        self.fetch_at(level, right, bottom, &mut out.right_bottom[..channels])
    }
}
