//! The cut: how levels are divided into cells.
/// The sides of the cells of stripped levels are multiples of this.
pub const AUTOTILE_STEP: u32 = 16;

/// The greatest side of the cells of stripped levels.
pub const MAX_AUTOTILE: u32 = 4096;

/// How the levels of a file are divided into cells, and whether levels are generated.
#[derive(Clone, Copy, Debug, PartialEq, Eq)]
pub struct Cut {
    /// The side of the cells of stripped levels, in texels: a multiple of 16 up to 4096, or 0 for a
    /// single cell per level.
    pub autotile: u32,
    /// Whether a file with one stored level also gets levels down to 1 by 1, each half of the one
    /// before.
    pub automip: bool,
}
