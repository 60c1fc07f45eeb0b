//! The tags that are read or written, and the defaults of their fields (TIFF 6.0, section 8).

ghost use Rattle.std.specs.Prelude.{◌≡◌};
ghost use Rattle.std.specs.Option.{option_to_list};
ghost use Rattle.tiff_format.specs.Field.{default_of};

/// Written only.
pub const NEW_SUBFILE_TYPE: u16 = 254;

pub const IMAGE_WIDTH: u16 = 256;

pub const IMAGE_LENGTH: u16 = 257;

pub const BITS_PER_SAMPLE: u16 = 258;

pub const COMPRESSION: u16 = 259;

pub const PHOTOMETRIC: u16 = 262;

pub const STRIP_OFFSETS: u16 = 273;

pub const SAMPLES_PER_PIXEL: u16 = 277;

pub const ROWS_PER_STRIP: u16 = 278;

pub const PLANAR_CONFIGURATION: u16 = 284;

pub const TILE_WIDTH: u16 = 322;

pub const TILE_LENGTH: u16 = 323;

pub const TILE_OFFSETS: u16 = 324;

/// Written only.
pub const TILE_BYTE_COUNTS: u16 = 325;

/// Written only.
pub const EXTRA_SAMPLES: u16 = 338;

pub const SAMPLE_FORMAT: u16 = 339;

/// The number of tags that are read.
pub const TAG_COUNT: usize = 13;

/// All tags that are read.
pub const TAGS: [u16; TAG_COUNT] = [
    IMAGE_WIDTH,
    IMAGE_LENGTH,
    BITS_PER_SAMPLE,
    COMPRESSION,
    PHOTOMETRIC,
    STRIP_OFFSETS,
    SAMPLES_PER_PIXEL,
    ROWS_PER_STRIP,
    PLANAR_CONFIGURATION,
    TILE_WIDTH,
    TILE_LENGTH,
    TILE_OFFSETS,
    SAMPLE_FORMAT,
];

/// The tags that a stripped directory must have.
pub const STRIPPED_REQUIRED: [u16; 3] = [IMAGE_WIDTH, IMAGE_LENGTH, STRIP_OFFSETS];

/// The tags that a tiled directory must have, besides TileWidth.
pub const TILED_REQUIRED: [u16; 4] = [IMAGE_WIDTH, IMAGE_LENGTH, TILE_LENGTH, TILE_OFFSETS];

/// The tags that are read in a stripped directory.
pub const STRIPPED_READ: [u16; 10] = [
    IMAGE_WIDTH,
    IMAGE_LENGTH,
    BITS_PER_SAMPLE,
    COMPRESSION,
    PHOTOMETRIC,
    STRIP_OFFSETS,
    SAMPLES_PER_PIXEL,
    ROWS_PER_STRIP,
    PLANAR_CONFIGURATION,
    SAMPLE_FORMAT,
];

/// The tags that are read in a tiled directory.
pub const TILED_READ: [u16; 11] = [
    IMAGE_WIDTH,
    IMAGE_LENGTH,
    BITS_PER_SAMPLE,
    COMPRESSION,
    PHOTOMETRIC,
    SAMPLES_PER_PIXEL,
    PLANAR_CONFIGURATION,
    TILE_WIDTH,
    TILE_LENGTH,
    TILE_OFFSETS,
    SAMPLE_FORMAT,
];

/// The number of tags in `NUMBERS`.
pub const NUMBER_COUNT: usize = 7;

/// The tags whose first value is read in every directory.
pub const NUMBERS: [u16; NUMBER_COUNT] = [
    IMAGE_WIDTH,
    IMAGE_LENGTH,
    BITS_PER_SAMPLE,
    COMPRESSION,
    PHOTOMETRIC,
    SAMPLES_PER_PIXEL,
    PLANAR_CONFIGURATION,
];

/// RowsPerStrip if the directory does not have it: all rows are one strip.
pub const ALL_ROWS: u32 = u32::MAX;

/// The value of a missing field, if it has a default.
pub fn default_value(tag: u16) -> Option<u64>
    ensures { option_to_list result ≡ default_of tag }
{
    match tag {
        BITS_PER_SAMPLE
        | COMPRESSION
        | PHOTOMETRIC
        | SAMPLES_PER_PIXEL
        | PLANAR_CONFIGURATION
        | SAMPLE_FORMAT => Some(1),
        ROWS_PER_STRIP => Some(u64::from(ALL_ROWS)),
        _ => None,
    }
}
