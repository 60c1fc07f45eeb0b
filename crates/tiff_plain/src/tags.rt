//! The tags that are read (TIFF 6.0, section 8, and section 15 for tiles).

pub const IMAGE_WIDTH: u32 = 256;

pub const IMAGE_LENGTH: u32 = 257;

pub const BITS_PER_SAMPLE: u32 = 258;

pub const COMPRESSION: u32 = 259;

pub const PHOTOMETRIC: u32 = 262;

pub const STRIP_OFFSETS: u32 = 273;

pub const SAMPLES_PER_PIXEL: u32 = 277;

pub const ROWS_PER_STRIP: u32 = 278;

pub const PLANAR_CONFIGURATION: u32 = 284;

pub const TILE_WIDTH: u32 = 322;

pub const TILE_LENGTH: u32 = 323;

pub const TILE_OFFSETS: u32 = 324;

pub const SAMPLE_FORMAT: u32 = 339;
