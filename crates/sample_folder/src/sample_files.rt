//! Eight textures whose bytes are computed.
ghost use Rattle.std.specs.Prelude.{◌≡◌, ◌+◌, ◌*◌, ◌^◌, ◌<◌, ◌≤◌, refl};
ghost use Rattle.std.proofs.Common.{arith, lit≤};
ghost use Rattle.tex_world.specs.Names.{name_at, distinct_names};
ghost use Rattle.sample_folder.specs.Sample.{sample_count, sample_names, sample_width, strip_size};
ghost use Rattle.sample_folder.specs.Sample.{half_of, strips_word, strips_byte, tiles_across};
ghost use Rattle.sample_folder.specs.Sample.{tile_count, first_tile, tiles_word, tiles_number};
ghost use Rattle.sample_folder.specs.Sample.{byte_of_word, byte_of_strips, byte_of_tiles};
ghost use Rattle.sample_folder.specs.Sample.{sample_len_of, sample_byte};

use tex_world::FileTable;

/// The header and the directory of a stripped file, in units of two bytes. The width, and what
/// follows the directory, are computed.
static STRIPS: [u16; 61] = [
    0x4949, 42, 8, 0, 9, // nine entries
    256, 3, 1, 0, 0, 0, // ImageWidth
    257, 3, 1, 0, 192, 0, // ImageLength
    258, 3, 3, 0, 122, 0, // BitsPerSample
    259, 3, 1, 0, 1, 0, // Compression
    262, 3, 1, 0, 2, 0, // RGB
    273, 4, 12, 0, 128, 0, // StripOffsets
    277, 3, 1, 0, 3, 0, // SamplesPerPixel
    278, 3, 1, 0, 16, 0, // RowsPerStrip
    279, 3, 12, 0, 176, 0, // StripByteCounts
    0, 0, // no further directory
];

/// The header and the directory of a tiled file, in units of two bytes. The width, the two counts
/// of tiles and the place of TileByteCounts are computed.
static TILES: [u16; 73] = [
    0x4d4d, 42, 0, 8, 11, // eleven entries
    256, 3, 0, 1, 0, 0, // ImageWidth
    257, 3, 0, 1, 192, 0, // ImageLength
    258, 3, 0, 1, 16, 0, // BitsPerSample
    259, 3, 0, 1, 1, 0, // Compression
    262, 3, 0, 1, 1, 0, // BlackIsZero
    277, 3, 0, 1, 1, 0, // SamplesPerPixel
    284, 3, 0, 1, 1, 0, // PlanarConfiguration
    322, 3, 0, 1, 64, 0, // TileWidth
    323, 3, 0, 1, 64, 0, // TileLength
    324, 4, 0, 0, 0, 146, // TileOffsets
    325, 3, 0, 0, 0, 0, // TileByteCounts
    0, 0, // no further directory
];

/// The number of texels in a row.
fn width(n: u64) -> u64
    requires { n < sample_count }
    ensures value { result ≡ sample_width n }
{
    256 + 32 * n
}

/// The lower or the upper half of a four-byte number.
fn half(lower: bool, value: u64) -> u64
    requires { value < 2 ^ 32 }
    ensures value { result ≡ half_of lower value }
    ensures low { result < 65536 }
{
    if lower { value % 65536 } else { value / 65536 }
}

/// Unit j of a stripped file's header.
#[tactic(auto, unfolding(crate::specs::Sample::strips_word))]
fn strips_word(n: u64, j: u64) -> u64
    requires file { n < sample_count }
    requires place { j < 100 }
    ensures value { result ≡ strips_word n j }
    ensures low { result < 65536 }
{
    let strip = 48 * width(n);
    if j == 9 {
        width(n)
    } else if j < 61 {
        u64::from(STRIPS[j as usize])
    } else if j < 64 {
        8
    } else if j < 88 {
        half(j % 2 == 0, 200 + strip * ((j - 64) / 2))
    } else {
        strip
    }
}

/// The byte at place k after a stripped file's header.
#[tactic(auto, unfolding(crate::specs::Sample::strips_byte))]
fn strips_byte(n: u64, k: u64) -> u64
    requires file { n < sample_count }
    requires place { k < 12 * strip_size n }
    ensures value { result ≡ strips_byte n k }
    ensures low { result < 256 }
{
    let row = 3 * width(n);
    let (x, y, c) = (k % row / 3, k / row, k % row % 3);
    (7 * x + 13 * y + 29 * c + n) % 256
}

/// The number of tiles in a row of tiles.
fn tiles_across(n: u64) -> u64
    requires { n < sample_count }
    ensures value { result ≡ tiles_across n }
    ensures some { 4 ≤ result × result ≤ 8 }
{
    (width(n) + 63) / 64
}

/// Unit j of a tiled file's header.
#[tactic(auto, unfolding(crate::specs::Sample::tiles_word))]
fn tiles_word(n: u64, j: u64) -> u64
    requires file { n < sample_count }
    requires place { 2 * j < first_tile n }
    ensures value { result ≡ tiles_word n j }
    ensures low { result < 65536 }
{
    let tiles = 3 * tiles_across(n);
    if j == 9 {
        width(n)
    } else if j == 62 || j == 68 {
        tiles
    } else if j == 70 {
        146 + 4 * tiles
    } else if j < 73 {
        u64::from(TILES[j as usize])
    } else if j < 73 + 2 * tiles {
        half(j % 2 == 0, 146 + 6 * tiles + 8192 * ((j - 73) / 2))
    } else {
        8192
    }
}

/// Sample k of the tiles, counted through all tiles.
#[tactic(auto, unfolding(crate::specs::Sample::tiles_number))]
fn tiles_number(n: u64, k: u64) -> u64
    requires file { n < sample_count }
    requires place { k < 4096 * tile_count n }
    ensures value { result ≡ tiles_number n k }
    ensures low { result < 65536 }
{
    let (tile, across) = (k / 4096, tiles_across(n));
    let x = 64 * (tile % across) + k % 64;
    let y = 64 * (tile / across) + k % 4096 / 64;
    if x < width(n) {
        (x * y + 257 * n) % 65536
    } else {
        0
    }
}

/// The lower or the upper byte of a two-byte unit.
fn byte_of_word(lower: bool, word: u64) -> u8
    requires { word < 65536 }
    ensures { result ≡ byte_of_word lower word }
{
    if lower {
        (word % 256) as u8
    } else {
        (word / 256) as u8
    }
}

/// The byte at a place of a stripped file.
fn byte_of_strips(n: u64, at: u64) -> u8
    requires file { n < sample_count }
    requires place { at < 200 + 12 * strip_size n }
    ensures { result ≡ byte_of_strips n at }
{
    if at < 200 {
        byte_of_word(at % 2 == 0, strips_word(n, at / 2))
    } else {
        strips_byte(n, at - 200) as u8
    }
}

/// The byte at a place of a tiled file.
fn byte_of_tiles(n: u64, at: u64) -> u8
    requires file { n < sample_count }
    requires place { at < first_tile n + 8192 * tile_count n }
    ensures { result ≡ byte_of_tiles n at }
{
    let first = 146 + 18 * tiles_across(n);
    let word = if at < first {
        tiles_word(n, at / 2)
    } else {
        tiles_number(n, (at - first) / 2)
    };
    byte_of_word(at % 2 == 1, word)
}

/// `sample0.tif` to `sample7.tif`, each in generation 1 only.
///
/// Even numbers are 8-bit RGB in strips, odd ones are one 16-bit channel in tiles.
#[derive(Drop)]
pub struct SampleFiles;

impl FileTable for SampleFiles {
    ghost count_of = { sample_count };

    ghost name_of = { name_at sample_names };

    ghost len_of = { sample_len_of };

    ghost byte_of = { λ n g at. sample_byte n at };

    ghost few = { lit≤ tt };

    ghost distinct = { distinct_names sample_names refl };

    fn count() -> u32 {
        8
    }

    fn name(n: u32) -> &'static str {
        match n {
            0 => "sample0.tif",
            1 => "sample1.tif",
            2 => "sample2.tif",
            3 => "sample3.tif",
            4 => "sample4.tif",
            5 => "sample5.tif",
            6 => "sample6.tif",
            _ => "sample7.tif",
        }
    }

    fn len(n: u32, g: u32) -> Option<u64> {
        let n = u64::from(n);
        if g != 1 {
            None
        } else if n % 2 == 0 {
            Some(200 + 576 * width(n))
        } else {
            Some(146 + 24594 * tiles_across(n))
        }
    }

    fn byte(n: u32, _g: u32, at: u64) -> u8 {
        let n = u64::from(n);
        if n % 2 == 0 {
            byte_of_strips(n, at)
        } else {
            byte_of_tiles(n, at)
        }
    }

    ghost first = { λ n low. Prim.grind arith };
}
