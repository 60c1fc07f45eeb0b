//! How many probes lie along the longer axis of a footprint, how far apart, and how much each
//! counts.
ghost use Rattle.std.specs.Prelude.{◌≡◌, ◌+◌, ◌-◌, ◌*◌, ◌/◌, ◌^◌, ◌<◌, ◌≤◌};
ghost use Rattle.texel_filter.specs.Coordinate.{unit};
ghost use Rattle.tex_aniso.specs.Bell.{probe_step, half_step, reach_of, side_count, bell_area};
ghost use Rattle.tex_aniso.specs.Ellipse.{weights_by, side_weight};
ghost use Rattle.tex_aniso.specs.Bell.{bell_part, bell_whole, bell_cut, bell_weight, used_count};

use crate::probe_line::MAX_LINE_PROBES;
use crate::shape::digits;

const UNIT: u64 = 65536;

// Half a step, where a step is 32768.
const HALF_STEP: u64 = 16384;

const STEP: u64 = 32768;

// The binary digits of a weight.
const WEIGHT_DIGITS: u32 = 16;

/// How far a probe lies from the next one, in 1/65536 of a texel.
pub(crate) fn probe_step(major: u64, minor: u64, arm: u32) -> u64
    requires arm { arm ≤ 15 }
    requires low { unit ≤ major }
    requires high { major ≤ 2 ^ 51 }
    requires minor { minor ≤ major }
    ensures value { result ≡ probe_step major minor arm }
    ensures low { unit ≤ result }
    ensures high { result ≤ major }
    ensures enough { 24 * major ≤ (32 * arm + 27) * result }
{
    let least = (24 * major).div_ceil(u64::from(32 * arm + 27));
    minor.max(UNIT).max(least)
}

/// How far the bell goes from the middle, in 1/32768 of a step.
pub(crate) fn reach_of(major: u64, step: u64, arm: u32) -> u64
    requires arm { arm ≤ 15 }
    requires some { unit ≤ step }
    requires short { step < 2 ^ 33 }
    requires step { step ≤ major }
    requires enough { 24 * major ≤ (32 * arm + 27) * step }
    ensures value { result ≡ reach_of major step }
    ensures high { result ≤ (2 * arm + 1) * half_step }
{
    1024 * (24 * major - 11 * step) / step
}

/// How many probes on each side have a part of their step below the bell.
pub(crate) fn side_count(reach: u64, arm: u32) -> u32
    requires arm { arm ≤ 15 }
    requires high { reach ≤ (2 * arm + 1) * half_step }
    ensures value { result ≡ side_count reach }
    ensures few { result ≤ arm }
{
    ((reach + (HALF_STEP - 1)) / STEP) as u32
}

/// The bell of a reach with at least one probe on each side.
#[derive(Clone, Copy, Debug, PartialEq, Eq)]
pub(crate) struct Bell {
    pub(crate) reach: u64,
    // By how many binary digits its areas are shortened.
    pub(crate) cut: u32,
    ghost low: { half_step < reach },
    ghost high: { reach < 2 ^ 19 },
    ghost is_cut: { cut ≡ bell_cut reach },
    ghost few: { cut ≤ 43 },
}

impl Bell {
    pub(crate) fn of(reach: u64) -> Bell
        requires low { half_step < reach }
        requires high { reach < 2 ^ 19 }
        ensures { result.reach ≡ reach }
    {
        let whole = 4 * (reach * reach * reach);
        Bell {
            reach,
            cut: digits(whole).saturating_sub(WEIGHT_DIGITS),
        }
    }

    // The area from the middle to x.
    fn area(&self, x: u64) -> u64
        requires { x ≤ self.now.reach }
        ensures value { result ≡ bell_area self.now.reach x }
        ensures high { result ≤ 2 * (self.now.reach * self.now.reach * self.now.reach) }
    {
        3 * self.reach * self.reach * x - x * x * x
    }

    // The area over the step of probe j from the middle.
    fn part(&self, j: u32) -> u64
        requires { j ≤ side_count self.now.reach }
        ensures value { result ≡ bell_part self.now.reach j }
        ensures high { result ≤ bell_whole self.now.reach }
    {
        if j == 0 {
            return 2 * self.area(HALF_STEP);
        }
        let j = u64::from(j);
        let end = self.reach.min((2 * j + 1) * HALF_STEP);
        self.area(end) - self.area((2 * j - 1) * HALF_STEP)
    }

    /// The weight of probe j from the middle.
    pub(crate) fn weight(&self, j: u32) -> u16
        requires { j ≤ side_count self.now.reach }
        ensures value { result ≡ bell_weight self.now.reach j }
    {
        (self.part(j) >> self.cut) as u16
    }

    /// How many of `sides` probes on each side are used: a last one of weight 0 is dropped.
    pub(crate) fn used(&self, sides: u32) -> u32
        requires some { 1 ≤ sides }
        requires sides { sides ≡ side_count self.now.reach }
        ensures value { result ≡ used_count self.now.reach }
    {
        if self.weight(sides) == 0 {
            sides - 1
        } else {
            sides
        }
    }

    /// The weights of a line with `sides` probes on each side of the middle one.
    pub(crate) fn weights(&self, sides: u32) -> [u16; MAX_LINE_PROBES]
        requires within { sides ≤ side_count self.now.reach }
        requires few { sides ≤ 15 }
        ensures value { result ≡ weights_by (side_weight self.now.reach sides) }
    {
        let mut weights = [0; MAX_LINE_PROBES];
        for j in 0..sides + 1 {
            let weight = self.weight(j);
            weights[(sides - j) as usize] = weight;
            weights[(sides + j) as usize] = weight;
        }
        weights
    }
}
