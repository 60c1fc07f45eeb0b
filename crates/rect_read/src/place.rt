//! A rectangle in one plane of a stored level.
ghost use Rattle.rect_read.specs.PlaneRect.{IsPlace};

use tiff_format::Rect;
use tile_layout::Layout;

/// A rectangle in one plane of a stored level.
#[derive(Drop)]
pub struct PlaneRect<'a> {
    pub layout: &'a Layout,
    pub level: u32,
    pub plane: u32,
    pub rect: Rect,
    ghost known: { IsPlace layout.now level plane rect },
}
