//! The four texels around a place in a level, as the wraps choose them.
ghost use Rattle.std.specs.Prelude.{◌<◌, IfSome, IfOk, length, OnOk};
ghost use Rattle.std.specs.Option.{ForSome};
ghost use Rattle.texel_filter.specs.Image.{IsChannelCount, AreValues, image_of};
ghost use Rattle.texel_filter.specs.Filter.{value_in};
ghost use Rattle.texel_filter.specs.Visits.{visit_in, square_visits};
ghost use Rattle.texel_filter.specs.Calls.{LeftBy};
ghost use Rattle.texel_filter.specs.Fine.{IsFinePlace};
ghost use Rattle.texel_filter.specs.Round.{IsRoundAt, visits_round, AreRound, IsRoundInside};
ghost use Rattle.texel_filter.specs.Round.{AreWrapped};

use crate::coordinate::Pair;
use crate::fetch::Fetch;
use crate::request::FineRequest;
use crate::square::{Corners, Square};

/// The columns and rows round the coordinates of a lookup, in a level.
#[derive(Drop)]
pub struct Round {
    pub level: u32,
    pub columns: Pair,
    pub rows: Pair,
}

impl Round {
    pub fn at<F: Fetch>(f: &F, r: &FineRequest, level: u32) -> Round
        requires place { IsFinePlace r.now }
        requires level { level < (F.sizes f.now).levels }
        ensures { IsRoundAt (F.sizes f.now) r.now level result }
    {
        let (width, height) = f.size(level);
        Round {
            level,
            columns: Pair::at(r.swrap, r.s, width),
            rows: Pair::at(r.twrap, r.t, height),
        }
    }

    /// Reads the four texels, in one call if no wrap leaves one out.
    pub fn fetch<F: Fetch>(
        &self,
        f: &mut F,
        channels: usize,
        out: &mut Corners,
    ) -> Result<(), F::Error>
        requires inside { IsRoundInside (F.sizes f.old) self.now }
        requires channels { IsChannelCount channels }
        ensures told { ForSome (F.values f.old) (λ v.
            OnOk result (AreRound v self.now channels out.new)) }
        ensures left { LeftBy F.leaves F.refuses f.old (visits_round self.now) f.new result }
    {
        match (
            self.columns.first,
            self.columns.second,
            self.rows.first,
            self.rows.second,
        ) {
            (Some(left), Some(right), Some(top), Some(bottom)) => {
                let square = Square {
                    level: self.level,
                    left,
                    right,
                    top,
                    bottom,
                };
                f.square(&square, channels, out)
            }
            _ => self.fetch_each(f, channels, out),
        }
    }

    // Reads the texels one after another; a texel that the wrap leaves out is 0.
    fn fetch_each<F: Fetch>(
        &self,
        f: &mut F,
        channels: usize,
        out: &mut Corners,
    ) -> Result<(), F::Error>
        requires inside { IsRoundInside (F.sizes f.old) self.now }
        requires channels { IsChannelCount channels }
        ensures told { ForSome (F.values f.old) (λ v.
            OnOk result (AreRound v self.now channels out.new)) }
        ensures left { LeftBy F.leaves F.refuses f.old (visits_round self.now) f.new result }
    {
        let (left, right) = (self.columns.first, self.columns.second);
        let (top, bottom) = (self.rows.first, self.rows.second);
        out.narrow = false;
        fetch_one(f, self.level, (left, top), &mut out.left_top[..channels])?;
        fetch_one(f, self.level, (right, top), &mut out.right_top[..channels])?;
        fetch_one(
            f,
            self.level,
            (left, bottom),
            &mut out.left_bottom[..channels],
        )?;
        fetch_one(
            f,
            self.level,
            (right, bottom),
            &mut out.right_bottom[..channels],
        )
    }
}

/// The four texels round the coordinates of a lookup, in a level, as its wraps have it. Not
/// inlined, so that the common case stays short, and answered by value, so that the corners of that
/// case need no memory.
#[inline(never)]
pub fn wrapped_corners<F: Fetch>(
    f: &mut F,
    r: &FineRequest,
    level: u32,
    channels: usize,
) -> Result<Corners, F::Error>
    requires place { IsFinePlace r.now }
    requires level { level < (F.sizes f.old).levels }
    requires channels { IsChannelCount channels }
    ensures told { ForSome (F.values f.old) (λ v. IfOk result
        (AreWrapped (image_of (F.sizes f.old) v) r.now level channels)) }
    ensures left { LeftBy F.leaves F.refuses f.old (square_visits (F.sizes f.old) r.now level)
        f.new result }
{
    let round = Round::at(f, r, level);
    let mut corners = Corners::BLACK;
    round.fetch(f, channels, &mut corners)?;
    Ok(corners)
}

/// The values of the texel in a column and a row, or 0 where there is no such column or row.
#[inline]
pub fn fetch_one<F: Fetch>(
    f: &mut F,
    level: u32,
    at: (Option<u32>, Option<u32>),
    out: &mut [u16],
) -> Result<(), F::Error>
    requires level { level < (F.sizes f.old).levels }
    requires column { IfSome at.0 (λ x. x < (F.sizes f.old).width level) }
    requires row { IfSome at.1 (λ y. y < (F.sizes f.old).height level) }
    requires channels { IsChannelCount (length out.old) }
    ensures told { ForSome (F.values f.old) (λ v.
        OnOk result (AreValues (value_in (v level) at.0 at.1) out.new)) }
    ensures left { LeftBy F.leaves F.refuses f.old (visit_in level at.0 at.1) f.new result }
{
    match at {
        (Some(x), Some(y)) => f.texel(level, x, y, out),
        _ => {
            out.fill(0);
            Ok(())
        }
    }
}
