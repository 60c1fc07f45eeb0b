//! The sums over two levels that are written to the buffer of a caller. A refusal leaves what the
//! caller had.
ghost use Rattle.std.specs.Prelude.{◌≡◌, ◌+◌, ◌^◌, ◌<◌, length, OnOk, OnErr};
ghost use Rattle.std.specs.Option.{ForSome};
ghost use Rattle.texel_filter.specs.Image.{IsChannelCount, AreValues, image_of};
ghost use Rattle.texel_filter.specs.Coordinate.{unit};
ghost use Rattle.texel_filter.specs.Filter.{AreSums};
ghost use Rattle.texel_filter.specs.Visits.{square_visits};
ghost use Rattle.texel_filter.specs.Calls.{LeftBy};
ghost use Rattle.texel_filter.specs.Fine.{IsFinePlace};
ghost use Rattle.texel_filter.specs.LevelPair.{alone_sum, between_sum, between_visits};

use crate::coordinate::LevelPair;
use crate::fetch::Fetch;
use crate::request::FineRequest;
use crate::sums::{write_sums, write_whole};
use crate::weighted::level_sums;

/// Writes the sums of one level, as if it had the whole weight of two.
#[inline]
pub fn sum_level<F: Fetch>(
    f: &mut F,
    r: &FineRequest,
    level: u32,
    out: &mut [u64],
) -> Result<(), F::Error>
    requires place { IsFinePlace r.now }
    requires level { level < (F.sizes f.old).levels }
    requires channels { IsChannelCount (length out.old) }
    ensures told { ForSome (F.values f.old) (λ v. OnOk result
        (AreValues (alone_sum (image_of (F.sizes f.old) v) r.now level) out.new)) }
    ensures high { OnOk result (AreSums out.new) }
    ensures left { LeftBy F.leaves F.refuses f.old (square_visits (F.sizes f.old) r.now level)
        f.new result }
    ensures same { OnErr result (out.new ≡ out.old) }
{
    let sums = level_sums(f, r, level, out.len())?;
    write_whole(&sums, out);
    Ok(())
}

/// Writes the sums of two levels, by the fraction of the second one.
#[inline]
pub fn sum_between<F: Fetch>(
    f: &mut F,
    r: &FineRequest,
    levels: LevelPair,
    out: &mut [u64],
) -> Result<(), F::Error>
    requires place { IsFinePlace r.now }
    requires room { levels.first + 1 < 2 ^ 32 }
    requires levels { levels.first + 1 < (F.sizes f.old).levels }
    requires fraction { levels.fraction < unit }
    requires channels { IsChannelCount (length out.old) }
    ensures told { ForSome (F.values f.old) (λ v. OnOk result
        (AreValues (between_sum (image_of (F.sizes f.old) v) r.now levels) out.new)) }
    ensures high { OnOk result (AreSums out.new) }
    ensures left { LeftBy F.leaves F.refuses f.old (between_visits (F.sizes f.old) r.now levels)
        f.new result }
    ensures same { OnErr result (out.new ≡ out.old) }
{
    let n = out.len();
    let first = level_sums(f, r, levels.first, n)?;
    let second = level_sums(f, r, levels.first + 1, n)?;
    write_sums(&first, &second, levels.fraction, out);
    Ok(())
}
