//! A piece: texels of a row that the file stores together.
/// Texels of a row that follow one another in the file: n of them from (x, y) on.
#[derive(Clone, Copy, Debug, PartialEq, Eq)]
pub struct Piece {
    /// The place in the file of the first texel's sample of channel 0.
    pub at: u64,
    pub x: u32,
    pub y: u32,
    pub n: u32,
}
