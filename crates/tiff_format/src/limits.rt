//! The limits of images and tiles.
/// The greatest side of an image or a tile, in texels.
pub const MAX_SIDE: u32 = 131072;

/// The most samples per pixel, and the most channels of a lookup.
pub const MAX_CHANNELS: usize = 8;

/// The sides of a tile are multiples of this.
pub const TILE_STEP: u32 = 16;
