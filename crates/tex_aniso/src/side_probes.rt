//! The probes on both sides of the middle one of a footprint.
ghost use Rattle.std.specs.Prelude.{◌≡◌, ◌+◌, ◌*◌, ◌<◌, ◌≤◌, IsNone, IfSome};
ghost use Rattle.texel_filter.specs.Coordinate.{unit};
ghost use Rattle.tex_aniso.specs.Bell.{reach_of, side_count, used_count};

use crate::bell::{Bell, reach_of, side_count};

// A step of 131072 texels, in 1/65536 of a texel.
const LONGEST_STEP: u64 = 1 << 33;

/// The probes on both sides, and the bell of all weights.
#[derive(Clone, Copy, Debug, PartialEq, Eq)]
pub(crate) struct SideProbes {
    pub(crate) bell: Bell,
    /// How many lie on each side: 1 to 15.
    pub(crate) count: u32,
    ghost some: { 1 ≤ count },
    ghost few: { count ≤ 15 },
    ghost is_used: { count ≡ used_count bell.reach },
}

impl SideProbes {
    ghost use Rattle.tex_aniso.specs.Ellipse.{near_sides};
    ghost use Rattle.tex_aniso.specs.Sides.{HasSides};

    /// Those of a footprint with this longer axis, when a probe lies a step from the next one.
    pub(crate) fn of(major: u64, step: u64, arm: u32) -> Option<SideProbes>
        requires arm { arm ≤ 15 }
        requires some { unit ≤ step }
        requires step { step ≤ major }
        requires enough { 24 * major ≤ (32 * arm + 27) * step }
        ensures none { IsNone result → near_sides step (reach_of major step) ≡ 0 }
        ensures some { IfSome result (HasSides major step arm) }
    {
        if step >= LONGEST_STEP {
            return None;
        }
        let reach = reach_of(major, step, arm);
        let sides = side_count(reach, arm);
        if sides == 0 {
            return None;
        }
        let bell = Bell::of(reach);
        let count = bell.used(sides);
        if count == 0 {
            return None;
        }
        Some(SideProbes { bell, count })
    }
}
