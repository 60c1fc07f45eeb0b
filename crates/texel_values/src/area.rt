//! A region of a level, prepared for reading cell by cell.
ghost use Rattle.texel_values.specs.Met.{IsMet};

use crate::window::RegionShape;
use tile_layout::Grid;

/// How a region lies on its level, and which cells it meets.
#[derive(Clone, Copy, Debug, PartialEq, Eq)]
pub struct Area {
    pub level: u32,
    /// How the level is divided into cells.
    pub grid: Grid,
    pub window: RegionShape,
    /// The height of the region, in texels.
    pub height: u32,
    pub(crate) across: u32,
    pub(crate) down: u32,
    ghost met: { IsMet grid window across down },
}
