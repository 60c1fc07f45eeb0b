//! A rectangle of texels.
/// A rectangle of texels of a level.
#[derive(Clone, Copy, Debug, PartialEq, Eq)]
pub struct Rect {
    /// The top left texel.
    pub x: u32,
    pub y: u32,
    /// The width and height, in texels. Either may be 0.
    pub w: u32,
    pub h: u32,
}
