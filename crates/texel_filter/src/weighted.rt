//! Four texels with their bilinear weights, and the sums of their channels.
ghost use Rattle.std.specs.Prelude.{◌≡◌, ◌<◌, ◌≤◌, OnOk, IfOk, true, false};
ghost use Rattle.std.specs.Option.{ForSome};
ghost use Rattle.texel_filter.specs.Image.{IsChannelCount, AreFirst, image_of};
ghost use Rattle.texel_filter.specs.Filter.{bilinear_sum};
ghost use Rattle.tiff_format.specs.Limits.{max_channels};
ghost use Rattle.texel_filter.specs.Visits.{square_visits};
ghost use Rattle.texel_filter.specs.Calls.{LeftBy};
ghost use Rattle.texel_filter.specs.Fine.{IsFinePlace};
ghost use Rattle.texel_filter.specs.Weighted.{sum_of, max_sum, HasSums, AreLevelSums};

use crate::coordinate::Between;
use crate::fetch::Fetch;
use crate::request::FineRequest;
use crate::round::wrapped_corners;
use crate::square::{Corners, NARROW_NUMBERS, NARROW_SCALE, Square};
use crate::weights::Weights;
use tiff_format::MAX_CHANNELS;

// The numbers of four texels, with their weights.
#[derive(Drop)]
struct Weighted {
    corners: Corners,
    weights: Weights,
}

impl Weighted {
    // The value 0 four times.
    #[inline(always)]
    fn black() -> Weighted {
        Weighted {
            corners: Corners::BLACK,
            weights: Weights::of(0, 0),
        }
    }

    // Takes the four texels round the coordinates of a lookup, in a level.
    #[inline(always)]
    fn fetch<F: Fetch>(
        &mut self,
        f: &mut F,
        r: &FineRequest,
        level: u32,
        channels: usize,
    ) -> Result<(), F::Error>
        requires place { IsFinePlace r.now }
        requires level { level < (F.sizes f.old).levels }
        requires channels { IsChannelCount channels }
        ensures told { ForSome (F.values f.old) (λ v. OnOk result
            (HasSums (image_of (F.sizes f.old) v) r.now level channels self.new)) }
        ensures left { LeftBy F.leaves F.refuses f.old
            (square_visits (F.sizes f.old) r.now level) f.new result }
    {
        let (width, height) = f.size(level);
        let across = Between::at(r.s, width);
        let down = Between::at(r.t, height);
        self.weights = Weights::of(across.fraction, down.fraction);
        // Mostly all four are there, and no wrap is asked.
        match (across.first_inside(width), down.first_inside(height)) {
            (Some(left), Some(top)) => {
                let square = Square {
                    level,
                    left,
                    right: left + 1,
                    top,
                    bottom: top + 1,
                };
                f.square(&square, channels, &mut self.corners)
            }
            _ => {
                self.corners = wrapped_corners(f, r, level, channels)?;
                Ok(())
            }
        }
    }

    // The weighted sums of the first n channels. It has a body for samples of 8 bits and one for
    // values, so that none asks at each channel.
    #[inline(always)]
    fn channel_sums(&self, n: usize) -> [u64; MAX_CHANNELS]
        requires { n ≤ max_channels }
        ensures value { AreFirst n (sum_of self.now) result }
        ensures high { AreLevelSums n result }
    {
        let mut sums = [0; MAX_CHANNELS];
        if self.corners.narrow {
            'narrow: for c in 0..n {
                sums[c] = self.narrow_sum(c);
            }
        } else {
            'wide: for c in 0..n {
                sums[c] = self.wide_sum(c);
            }
        }
        sums
    }

    // The sum of a channel of 8-bit samples: the sum is multiplied by 257 once, instead of each
    // sample.
    #[inline(always)]
    fn narrow_sum(&self, c: usize) -> u64
        requires channel { c < max_channels }
        requires narrow { self.now.corners.narrow ≡ true }
        ensures value { result ≡ sum_of self.now c }
        ensures high { result ≤ max_sum }
    {
        let sum = self.weights.left_top * u64::from(self.corners.left_top[c] % NARROW_NUMBERS)
            + self.weights.right_top * u64::from(self.corners.right_top[c] % NARROW_NUMBERS)
            + self.weights.left_bottom * u64::from(self.corners.left_bottom[c] % NARROW_NUMBERS)
            + self.weights.right_bottom * u64::from(self.corners.right_bottom[c] % NARROW_NUMBERS);
        u64::from(NARROW_SCALE) * sum
    }

    // The sum of a channel of 16-bit values.
    #[inline(always)]
    fn wide_sum(&self, c: usize) -> u64
        requires channel { c < max_channels }
        requires wide { self.now.corners.narrow ≡ false }
        ensures value { result ≡ sum_of self.now c }
        ensures high { result ≤ max_sum }
    {
        self.weights.left_top * u64::from(self.corners.left_top[c])
            + self.weights.right_top * u64::from(self.corners.right_top[c])
            + self.weights.left_bottom * u64::from(self.corners.left_bottom[c])
            + self.weights.right_bottom * u64::from(self.corners.right_bottom[c])
    }
}

/// The weighted sums of the first n channels of the four texels round the coordinates of a lookup,
/// in a level.
#[inline(never)]
pub fn level_sums<F: Fetch>(
    f: &mut F,
    r: &FineRequest,
    level: u32,
    n: usize,
) -> Result<[u64; MAX_CHANNELS], F::Error>
    requires place { IsFinePlace r.now }
    requires level { level < (F.sizes f.old).levels }
    requires channels { IsChannelCount n }
    ensures told { ForSome (F.values f.old) (λ v. IfOk result
        (AreFirst n (bilinear_sum (image_of (F.sizes f.old) v) r.now level))) }
    ensures high { IfOk result (AreLevelSums n) }
    ensures left { LeftBy F.leaves F.refuses f.old (square_visits (F.sizes f.old) r.now level)
        f.new result }
{
    match n {
        1 => sums_upto(f, r, level, 1),
        2 => sums_upto(f, r, level, 2),
        3 => sums_upto(f, r, level, 3),
        4 => sums_upto(f, r, level, 4),
        n => sums_upto(f, r, level, n),
    }
}

/// The weighted sums of the first n channels in a level. It is inlined, for callers whose n is a
/// constant.
#[inline(always)]
pub fn sums_upto<F: Fetch>(
    f: &mut F,
    r: &FineRequest,
    level: u32,
    n: usize,
) -> Result<[u64; MAX_CHANNELS], F::Error>
    requires place { IsFinePlace r.now }
    requires level { level < (F.sizes f.old).levels }
    requires channels { IsChannelCount n }
    ensures told { ForSome (F.values f.old) (λ v. IfOk result
        (AreFirst n (bilinear_sum (image_of (F.sizes f.old) v) r.now level))) }
    ensures high { IfOk result (AreLevelSums n) }
    ensures left { LeftBy F.leaves F.refuses f.old (square_visits (F.sizes f.old) r.now level)
        f.new result }
{
    let mut four = Weighted::black();
    four.fetch(f, r, level, n)?;
    Ok(four.channel_sums(n))
}
