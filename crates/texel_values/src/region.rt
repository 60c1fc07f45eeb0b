//! A region of a level: the rectangle that a caller asks for.
ghost use Rattle.std.specs.Prelude.{◌≡◌, ◌↔◌, ◌*◌, ◌<◌, IsTrue};
ghost use Rattle.texel_values.specs.Region.{max_texels};

/// A region of a level: w by h texels from (x, y) on. It may lie outside the level, partly or
/// wholly.
#[derive(Clone, Copy, Debug, PartialEq, Eq)]
pub struct Region {
    pub level: u32,
    pub x: i32,
    pub y: i32,
    pub w: u32,
    pub h: u32,
}

/// The most texels that a region may have.
const MAX_TEXELS: u64 = 1048576;

impl Region {
    /// Whether it has more than 1048576 texels.
    pub fn is_too_large(&self) -> bool
        ensures { IsTrue result ↔ max_texels < self.now.w * self.now.h }
    {
        u64::from(self.w) * u64::from(self.h) > MAX_TEXELS
    }
}
