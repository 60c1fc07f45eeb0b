//! Where coordinates lie in a level, and which levels an LOD means.
ghost use Rattle.std.specs.Prelude.{◌≡◌, ℕ, ◌+◌, ◌^◌, ◌<◌, ◌≤◌, pos, neg_ℤ, ◌≤ℤ◌, IfSome};
ghost use Rattle.texel_filter.specs.Image.{IsSide};
ghost use Rattle.texel_filter.specs.Fine.{IsFineNumber};
ghost use Rattle.texel_filter.specs.Coordinate.{unit, rounded_down, left_over};
ghost use Rattle.texel_filter.specs.Coordinate.{from_first_edge, index_at, index_before};
ghost use Rattle.texel_filter.specs.Coordinate.{fraction_of_next, nearest_level};
ghost use Rattle.texel_filter.specs.WrapMode.{wrapped_index};
ghost use Rattle.texel_filter.specs.Round.{IsPairAt};
ghost use Rattle.texel_filter.specs.LevelPair.{AreLevelsAt};

use crate::index::wrap;
use crate::mode::Wrap;

/// 1 in a coordinate, an LOD and a fraction.
pub const UNIT: u64 = 65536;

const HALF_UNIT: u64 = 32768;

// UNIT and its half for signed numbers, and how many bits lie below the unit.
const SIGNED_UNIT: i64 = 65536;

const SIGNED_HALF_UNIT: i64 = 32768;

const UNIT_BITS: u32 = 16;

// A number in 1/65536, split into whole units and the rest.
#[derive(Drop)]
struct WholeAndRest {
    whole: i64,
    rest: u32,
}

#[inline(always)]
fn parts_of(z: i64) -> WholeAndRest
    requires low { neg_ℤ (pos (2 ^ 62)) ≤ℤ z }
    requires high { z ≤ℤ pos (2 ^ 62) }
    ensures whole { result.whole ≡ rounded_down z unit }
    ensures high { result.whole ≤ℤ pos (2 ^ 62) }
    ensures rest { result.rest ≡ left_over z unit }
{
    let whole = z >> UNIT_BITS;
    WholeAndRest {
        whole,
        rest: (z - whole * SIGNED_UNIT) as u32,
    }
}

/// How far a coordinate lies from the edge of the first of `side` texels, in 1/65536 of a texel:
/// rounded down.
#[inline(always)]
pub fn texels_from_edge(coordinate: i64, side: u32) -> i64
    requires coordinate { IsFineNumber coordinate }
    requires side { IsSide side }
    ensures value { result ≡ from_first_edge coordinate side }
    ensures low { neg_ℤ (pos (2 ^ 48)) ≤ℤ result }
    ensures high { result ≤ℤ pos (2 ^ 48) }
{
    ((i128::from(coordinate) * i128::from(side)) >> UNIT_BITS) as i64
}

/// The column or row in which a coordinate lies, of `side` columns or rows. None if the wrap is
/// black and the coordinate lies beside them.
#[inline(always)]
pub fn place_of(mode: Wrap, coordinate: i64, side: u32) -> Option<u32>
    requires coordinate { IsFineNumber coordinate }
    requires side { IsSide side }
    ensures value { result ≡ wrapped_index mode (index_at coordinate side) side }
    ensures inside { IfSome result (λ x. x < side) }
{
    wrap(
        mode,
        parts_of(texels_from_edge(coordinate, side)).whole,
        side,
    )
}

/// The column or row in which a coordinate lies, if it lies inside the level, where no wrap
/// matters.
#[inline(always)]
pub fn place_inside(coordinate: i64, side: u32) -> Option<u32>
    requires coordinate { IsFineNumber coordinate }
    requires side { IsSide side }
    ensures value { IfSome result (λ x. index_at coordinate side ≡ pos x) }
    ensures inside { IfSome result (λ x. x < side) }
{
    let i = parts_of(texels_from_edge(coordinate, side)).whole;
    if i >= 0 && i < i64::from(side) {
        Some(i as u32)
    } else {
        None
    }
}

/// Where a coordinate lies between the middles of texels.
#[derive(Drop)]
pub struct Between {
    /// The index of the texel before it.
    pub before: i64,
    /// How far it lies from there to the next, in 1/65536.
    pub fraction: u32,
}

impl Between {
    #[inline(always)]
    pub fn at(coordinate: i64, side: u32) -> Between
        requires coordinate { IsFineNumber coordinate }
        requires side { IsSide side }
        ensures before { result.before ≡ index_before coordinate side }
        ensures fraction { result.fraction ≡ fraction_of_next coordinate side }
        ensures high { result.before ≤ℤ pos (2 ^ 62) }
    {
        let parts = parts_of(texels_from_edge(coordinate, side) - SIGNED_HALF_UNIT);
        Between {
            before: parts.whole,
            fraction: parts.rest,
        }
    }

    /// The texel before the place, if it and the next one are both inside the level.
    #[inline(always)]
    pub fn first_inside(&self, side: u32) -> Option<u32>
        requires { self.now.before ≤ℤ pos (2 ^ 62) }
        ensures before { IfSome result (λ x. self.now.before ≡ pos x) }
        ensures inside { IfSome result (λ x. x + 1 < side) }
    {
        if self.before >= 0 && self.before + 1 < i64::from(side) {
            Some(self.before as u32)
        } else {
            None
        }
    }
}

/// The two columns or rows between whose middles a coordinate lies, as the wrap chooses them.
#[derive(Drop)]
pub struct Pair {
    pub first: Option<u32>,
    pub second: Option<u32>,
}

impl Pair {
    pub fn at(mode: Wrap, coordinate: i64, side: u32) -> Pair
        requires coordinate { IsFineNumber coordinate }
        requires side { IsSide side }
        ensures { IsPairAt mode coordinate side result }
    {
        let before = Between::at(coordinate, side).before;
        Pair {
            first: wrap(mode, before, side),
            second: wrap(mode, before + 1, side),
        }
    }
}

/// The level nearest to an LOD.
#[inline(always)]
pub fn level_near(lod: u32, levels: u32) -> u32
    requires { 1 ≤ levels }
    ensures value { result ≡ nearest_level lod levels }
    ensures inside { result < levels }
{
    let nearest = (u64::from(lod) + HALF_UNIT) / UNIT;
    (nearest as u32).min(levels - 1)
}

/// The two levels between which an LOD lies: the first, and the one after it.
#[derive(Drop)]
pub struct LevelPair {
    pub first: u32,
    /// How far the LOD lies from the first to the second, in 1/65536.
    pub fraction: u32,
}

impl LevelPair {
    #[inline(always)]
    pub fn at(lod: u32, levels: u32) -> LevelPair
        requires { 1 ≤ levels }
        ensures { AreLevelsAt lod levels result }
    {
        let within = u64::from(lod).min(UNIT * u64::from(levels - 1));
        LevelPair {
            first: (within / UNIT) as u32,
            fraction: (within % UNIT) as u32,
        }
    }
}
