//! Four texels of a level, and their numbers.
use tiff_format::MAX_CHANNELS;

/// How many values 8 bits have.
pub const NARROW_NUMBERS: u16 = 256;

/// An 8-bit sample is multiplied by this to become a 16-bit value.
pub const NARROW_SCALE: u16 = 257;

/// Four texels of a level, in two columns and two rows, which need not lie side by side.
#[derive(Clone, Copy, Debug)]
pub struct Square {
    /// The level.
    pub level: u32,
    /// The first column.
    pub left: u32,
    /// The second column.
    pub right: u32,
    /// The first row.
    pub top: u32,
    /// The second row.
    pub bottom: u32,
}

/// The numbers of the four texels of a square, each from channel 0 on.
#[derive(Clone, Copy, Debug)]
pub struct Corners {
    /// Whether they are samples of 8 bits, each of which counts 257 times. Else they are values.
    pub narrow: bool,
    /// In the first column and the first row.
    pub left_top: [u16; MAX_CHANNELS],
    /// In the second column and the first row.
    pub right_top: [u16; MAX_CHANNELS],
    /// In the first column and the second row.
    pub left_bottom: [u16; MAX_CHANNELS],
    /// In the second column and the second row.
    pub right_bottom: [u16; MAX_CHANNELS],
}

impl Corners {
    /// The value 0 everywhere.
    pub const BLACK: Corners = Corners {
        narrow: false,
        left_top: [0; MAX_CHANNELS],
        right_top: [0; MAX_CHANNELS],
        left_bottom: [0; MAX_CHANNELS],
        right_bottom: [0; MAX_CHANNELS],
    };
}
