//! What is written to the buffer of a caller, by the number of channels. A refusal leaves what the
//! caller had. Each function has a body for each small number, where the compiler then knows it:
//! the texels of a fetch that is inlined need no memory, and no loop is left.
ghost use Rattle.std.specs.Prelude.{◌≡◌, ◌+◌, ◌^◌, ◌<◌, length, [], ◌∷◌};
ghost use Rattle.std.specs.Prelude.{IfSome, OnOk, OnErr};
ghost use Rattle.std.specs.Option.{ForSome};
ghost use Rattle.texel_filter.specs.Image.{IsChannelCount, AreValues, image_of};
ghost use Rattle.texel_filter.specs.Image.{IsInside, texel_of};
ghost use Rattle.texel_filter.specs.Filter.{value_in, bilinear_in_level};
ghost use Rattle.texel_filter.specs.Visits.{visit_in, square_visits};
ghost use Rattle.texel_filter.specs.Calls.{LeftBy};
ghost use Rattle.texel_filter.specs.Fine.{IsFinePlace};
ghost use Rattle.texel_filter.specs.Coordinate.{unit};
ghost use Rattle.texel_filter.specs.LevelPair.{between_value, between_visits};

use crate::coordinate::LevelPair;
use crate::fetch::Fetch;
use crate::request::FineRequest;
use crate::sums::{write_blend, write_means};
use crate::weighted::{level_sums, sums_upto};
use tiff_format::MAX_CHANNELS;

/// Writes the texel in a column and a row.
#[inline(always)]
pub fn write_texel<F: Fetch>(
    f: &mut F,
    level: u32,
    at: (u32, u32),
    out: &mut [u16],
) -> Result<(), F::Error>
    requires inside { IsInside (F.sizes f.old) (texel_of level at.0 at.1) }
    requires channels { IsChannelCount (length out.old) }
    ensures told { ForSome (F.values f.old) (λ v.
        OnOk result (AreValues (v level at.0 at.1) out.new)) }
    ensures left { LeftBy F.leaves F.refuses f.old (texel_of level at.0 at.1 ∷ []) f.new result }
    ensures same { OnErr result (out.new ≡ out.old) }
{
    match out.len() {
        1 => texel_upto(f, level, at, 1, out),
        2 => texel_upto(f, level, at, 2, out),
        3 => texel_upto(f, level, at, 3, out),
        4 => texel_upto(f, level, at, 4, out),
        n => texel_upto(f, level, at, n, out),
    }
}

#[inline(always)]
fn texel_upto<F: Fetch>(
    f: &mut F,
    level: u32,
    at: (u32, u32),
    n: usize,
    out: &mut [u16],
) -> Result<(), F::Error>
    requires inside { IsInside (F.sizes f.old) (texel_of level at.0 at.1) }
    requires channels { IsChannelCount n }
    requires count { length out.old ≡ n }
    ensures told { ForSome (F.values f.old) (λ v.
        OnOk result (AreValues (v level at.0 at.1) out.new)) }
    ensures left { LeftBy F.leaves F.refuses f.old (texel_of level at.0 at.1 ∷ []) f.new result }
    ensures same { OnErr result (out.new ≡ out.old) }
{
    let mut texel = [0; MAX_CHANNELS];
    f.texel(level, at.0, at.1, &mut texel[..n])?;
    out.copy_from_slice(&texel[..n]);
    Ok(())
}

/// Writes the texel in a column and a row, or 0 if the wrap leaves no such column or row.
pub fn write_one<F: Fetch>(
    f: &mut F,
    level: u32,
    at: (Option<u32>, Option<u32>),
    out: &mut [u16],
) -> Result<(), F::Error>
    requires level { level < (F.sizes f.old).levels }
    requires column { IfSome at.0 (λ x. x < (F.sizes f.old).width level) }
    requires row { IfSome at.1 (λ y. y < (F.sizes f.old).height level) }
    requires channels { IsChannelCount (length out.old) }
    ensures told { ForSome (F.values f.old) (λ v.
        OnOk result (AreValues (value_in (v level) at.0 at.1) out.new)) }
    ensures left { LeftBy F.leaves F.refuses f.old (visit_in level at.0 at.1) f.new result }
    ensures same { OnErr result (out.new ≡ out.old) }
{
    match at {
        (Some(x), Some(y)) => write_texel(f, level, (x, y), out),
        _ => {
            out.fill(0);
            Ok(())
        }
    }
}

/// Bilinear in a level. Not inlined, so that the code of the other filters stays short.
#[inline(never)]
pub fn write_level<F: Fetch>(
    f: &mut F,
    r: &FineRequest,
    level: u32,
    out: &mut [u16],
) -> Result<(), F::Error>
    requires place { IsFinePlace r.now }
    requires level { level < (F.sizes f.old).levels }
    requires channels { IsChannelCount (length out.old) }
    ensures told { ForSome (F.values f.old) (λ v. OnOk result
        (AreValues (bilinear_in_level (image_of (F.sizes f.old) v) r.now level) out.new)) }
    ensures left { LeftBy F.leaves F.refuses f.old (square_visits (F.sizes f.old) r.now level)
        f.new result }
    ensures same { OnErr result (out.new ≡ out.old) }
{
    match out.len() {
        1 => level_upto(f, r, level, 1, out),
        2 => level_upto(f, r, level, 2, out),
        3 => level_upto(f, r, level, 3, out),
        4 => level_upto(f, r, level, 4, out),
        n => level_upto(f, r, level, n, out),
    }
}

#[inline(always)]
fn level_upto<F: Fetch>(
    f: &mut F,
    r: &FineRequest,
    level: u32,
    n: usize,
    out: &mut [u16],
) -> Result<(), F::Error>
    requires place { IsFinePlace r.now }
    requires level { level < (F.sizes f.old).levels }
    requires channels { IsChannelCount n }
    requires count { length out.old ≡ n }
    ensures told { ForSome (F.values f.old) (λ v. OnOk result
        (AreValues (bilinear_in_level (image_of (F.sizes f.old) v) r.now level) out.new)) }
    ensures left { LeftBy F.leaves F.refuses f.old (square_visits (F.sizes f.old) r.now level)
        f.new result }
    ensures same { OnErr result (out.new ≡ out.old) }
{
    let sums = sums_upto(f, r, level, n)?;
    write_means(&sums, n, out);
    Ok(())
}

/// Bilinear in two levels, and between them. Not inlined, for the same reason.
#[inline(never)]
pub fn write_between<F: Fetch>(
    f: &mut F,
    r: &FineRequest,
    levels: LevelPair,
    out: &mut [u16],
) -> Result<(), F::Error>
    requires place { IsFinePlace r.now }
    requires room { levels.first + 1 < 2 ^ 32 }
    requires levels { levels.first + 1 < (F.sizes f.old).levels }
    requires fraction { levels.fraction < unit }
    requires channels { IsChannelCount (length out.old) }
    ensures told { ForSome (F.values f.old) (λ v. OnOk result
        (AreValues (between_value (image_of (F.sizes f.old) v) r.now levels) out.new)) }
    ensures left { LeftBy F.leaves F.refuses f.old (between_visits (F.sizes f.old) r.now levels)
        f.new result }
    ensures same { OnErr result (out.new ≡ out.old) }
{
    match out.len() {
        1 => between_of::<F, 1>(f, r, levels, out),
        2 => between_of::<F, 2>(f, r, levels, out),
        3 => between_of::<F, 3>(f, r, levels, out),
        4 => between_of::<F, 4>(f, r, levels, out),
        _ => between_any(f, r, levels, out),
    }
}

/// Trilinear for exactly N channels. The body is too large for `#[inline(always)]`, which the
/// compiler then ignores, so N is a const parameter.
fn between_of<F: Fetch, const N: usize>(
    f: &mut F,
    r: &FineRequest,
    levels: LevelPair,
    out: &mut [u16],
) -> Result<(), F::Error>
    requires place { IsFinePlace r.now }
    requires room { levels.first + 1 < 2 ^ 32 }
    requires levels { levels.first + 1 < (F.sizes f.old).levels }
    requires fraction { levels.fraction < unit }
    requires channels { IsChannelCount N }
    requires count { length out.old ≡ N }
    ensures told { ForSome (F.values f.old) (λ v. OnOk result
        (AreValues (between_value (image_of (F.sizes f.old) v) r.now levels) out.new)) }
    ensures left { LeftBy F.leaves F.refuses f.old (between_visits (F.sizes f.old) r.now levels)
        f.new result }
    ensures same { OnErr result (out.new ≡ out.old) }
{
    let first = sums_upto(f, r, levels.first, N)?;
    let second = sums_upto(f, r, levels.first + 1, N)?;
    write_blend(&first, &second, levels.fraction, N, out);
    Ok(())
}

/// Trilinear for any number of channels.
fn between_any<F: Fetch>(
    f: &mut F,
    r: &FineRequest,
    levels: LevelPair,
    out: &mut [u16],
) -> Result<(), F::Error>
    requires place { IsFinePlace r.now }
    requires room { levels.first + 1 < 2 ^ 32 }
    requires levels { levels.first + 1 < (F.sizes f.old).levels }
    requires fraction { levels.fraction < unit }
    requires channels { IsChannelCount (length out.old) }
    ensures told { ForSome (F.values f.old) (λ v. OnOk result
        (AreValues (between_value (image_of (F.sizes f.old) v) r.now levels) out.new)) }
    ensures left { LeftBy F.leaves F.refuses f.old (between_visits (F.sizes f.old) r.now levels)
        f.new result }
    ensures same { OnErr result (out.new ≡ out.old) }
{
    let n = out.len();
    let first = level_sums(f, r, levels.first, n)?;
    let second = level_sums(f, r, levels.first + 1, n)?;
    write_blend(&first, &second, levels.fraction, n, out);
    Ok(())
}
