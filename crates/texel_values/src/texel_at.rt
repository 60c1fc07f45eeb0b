//! A place in a file: a texel of a level.
/// A texel of a level of a file.
#[derive(Clone, Copy, Debug, PartialEq, Eq)]
pub struct TexelAt {
    pub level: u32,
    /// The column, counted from 0.
    pub x: u32,
    /// The row, counted from 0.
    pub y: u32,
}
