//! A level of an image in memory.

ghost use Rattle.std.specs.Prelude.{◌≡◌};
ghost use Rattle.tiff_format.specs.Level.{halved};
ghost use Rattle.tex_make.specs.PlainLevel.{IsPlainLevel, plain_level};

use half_rows::halve_row_at;
use std::alloc::{AllocError, Global};
use tile_store::TwoRows;

/// The samples of a level, row by row, all samples of a texel together.
#[derive(Debug, Drop)]
pub(crate) struct Level {
    pub(crate) width: u32,
    pub(crate) height: u32,
    /// The number of samples per texel.
    pub(crate) channels: u32,
    /// The bits per sample, 8 or 16.
    pub(crate) depth: u32,
    pub(crate) samples: Vec<u16>,
    ghost known: { IsPlainLevel (plain_level width height channels depth samples.items) },
}

/// Half of a side, rounded down, and at least 1.
fn half_side(side: u32) -> u32
    ensures { result ≡ halved side }
{
    (side / 2).max(1)
}

impl Level {
    ghost use Rattle.std.specs.Prelude.{◌+◌, ◌-◌, ◌*◌, ◌≤◌, ◌<◌, ℕ, [], min, length, slice_index};
    ghost use Rattle.std.specs.Prelude.{IsTrue, ◌↔◌, IfOk};
    ghost use Rattle.tile_layout.specs.Texel.{clamped, FitDepth};
    ghost use Rattle.tex_make.specs.PlainLevel.{IsHalfOf, place_in, sample_in};
    ghost use Rattle.tex_make.specs.Level.{shown};
    ghost use Rattle.tex_make.specs.HalfRows.{AreHalfRows, half_sample};

    /// Whether it has a single texel.
    pub(crate) fn is_single(&self) -> bool
        ensures { IsTrue result ↔ ((self.now.width ≡ 1) × (self.now.height ≡ 1)) }
    {
        self.width == 1 && self.height == 1
    }

    /// The samples of row y; of the last row if y is greater.
    fn row(&self, y: u32) -> &[u16]
        ensures long { length result.now ≡ self.now.width * self.now.channels }
        ensures each { (x c : ℕ) → x < self.now.width → c < self.now.channels
            → slice_index result.now (x * self.now.channels + c)
            ≡ sample_in (shown self.now) x (clamped self.now.height y) c }
    {
        let size = self.width as usize * self.channels as usize;
        let start = y.min(self.height - 1) as usize * size;
        &self.samples[start..start + size]
    }

    /// The samples of at most `most` texels of a row, from column x on; none if the row does not
    /// exist.
    pub(crate) fn part(&self, x: u32, y: u32, most: u32) -> &[u16]
        requires { x < self.now.width }
        ensures long { y < self.now.height
            → length result.now ≡ min most (self.now.width - x) * self.now.channels }
        ensures each { y < self.now.height → (k : ℕ) → k < length result.now
            → slice_index result.now k
            ≡ slice_index self.now.samples.items (place_in (shown self.now) x y 0 + k) }
        ensures none { self.now.height ≤ y → result.now ≡ [] }
        ensures fit { FitDepth self.now.depth result.now }
    {
        if y >= self.height {
            return &self.samples[..0];
        }
        let start = (y as usize * self.width as usize + x as usize) * self.channels as usize;
        let size = most.min(self.width - x) as usize * self.channels as usize;
        &self.samples[start..start + size]
    }

    /// Writes row y of the next smaller level.
    fn halve_row_at(&self, y: u32, out: &mut [u16])
        requires row { y < halved self.now.height }
        requires size { length out.old
            ≡ halved self.now.width * halved self.now.height * self.now.channels }
        ensures long { length out.new ≡ length out.old }
        ensures before { (k : ℕ) → k < y * (halved self.now.width * self.now.channels)
            → slice_index out.new k ≡ slice_index out.old k }
        ensures row { (x c : ℕ) → x < halved self.now.width → c < self.now.channels
            → slice_index out.new (y * (halved self.now.width * self.now.channels)
            + (x * self.now.channels + c)) ≡ half_sample (shown self.now) x y c }
    {
        let rows = TwoRows::Shorts(self.row(2 * y), self.row(2 * y + 1));
        let channels = self.channels as usize;
        let start = y as usize * (half_side(self.width) as usize * channels);
        halve_row_at(&rows, self.width as usize, channels, start, out);
    }

    /// Writes the rows of the next smaller level.
    fn halve_rows(&self, out: &mut [u16])
        requires { length out.old
            ≡ halved self.now.width * halved self.now.height * self.now.channels }
        ensures long { length out.new ≡ length out.old }
        ensures rows { AreHalfRows (shown self.now) (halved self.now.height) out.new }
    {
        for y in 0..half_side(self.height) {
            self.halve_row_at(y, out);
        }
    }

    /// The next smaller level.
    pub(crate) fn halved(&self, alloc: Global) -> Result<Level, AllocError>
        ensures { IfOk result (λ half. IsHalfOf (shown self.now) (shown half)) }
    {
        let width = half_side(self.width);
        let height = half_side(self.height);
        let count = width as usize * height as usize * self.channels as usize;
        let mut samples = vec![in alloc; 0u16; count]?;
        self.halve_rows(&mut samples);
        Ok(Level {
            width,
            height,
            channels: self.channels,
            depth: self.depth,
            samples,
        })
    }
}
