//! The directories of a TIFF file.
ghost use Rattle.std.specs.Prelude.{map};
ghost use Rattle.tiff_format.specs.Facts.{IsChain};
ghost use Rattle.tiff_format.specs.Shown.{shown};

use crate::dir::Dir;

/// The levels of a valid file, the largest first.
#[derive(Debug, Drop)]
pub struct Dirs {
    /// Whether the file is big-endian (`MM`).
    pub big: bool,
    /// 1 to 18 levels. The sides halve from level to level, and all levels have the same channels
    /// and depth.
    pub levels: Vec<Dir>,
    ghost chain: { IsChain (map shown levels.items) },
}
