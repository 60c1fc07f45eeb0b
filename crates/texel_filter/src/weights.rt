//! The bilinear weights of four texels.
ghost use Rattle.std.specs.Prelude.{◌≡◌, ◌+◌, ◌-◌, ◌*◌, ◌^◌, ◌<◌};
ghost use Rattle.texel_filter.specs.Coordinate.{unit};

use crate::coordinate::UNIT;

/// The weights of four texels, which are 2^32 together.
#[derive(Drop)]
pub struct Weights {
    pub left_top: u64,
    pub right_top: u64,
    pub left_bottom: u64,
    pub right_bottom: u64,
    ghost whole: { left_top + right_top + left_bottom + right_bottom ≡ 2 ^ 32 },
}

impl Weights {
    /// By the fraction of the right column and that of the lower row.
    #[inline(always)]
    pub fn of(across: u32, down: u32) -> Weights
        requires across { across < unit }
        requires down { down < unit }
        ensures left_top { result.left_top ≡ (unit - across) * (unit - down) }
        ensures right_top { result.right_top ≡ across * (unit - down) }
        ensures left_bottom { result.left_bottom ≡ (unit - across) * down }
        ensures right_bottom { result.right_bottom ≡ across * down }
    {
        let (right, bottom) = (u64::from(across), u64::from(down));
        let (left, top) = (UNIT - right, UNIT - bottom);
        Weights {
            left_top: left * top,
            right_top: right * top,
            left_bottom: left * bottom,
            right_bottom: right * bottom,
        }
    }
}
