//! Bytes of small TIFF files, written out, which the files of the tests are made of.

/// 4 by 4 texels, 8 bits, one channel, one strip at 122, lowest byte first; texel (x, y) is
/// 16 * y + x.
pub static SMALL: [u8; 138] = [
    0x49, 0x49, 0x2a, 0, 8, 0, 0, 0, // header, the directory at 8
    9, 0, // entries
    0x00, 1, 3, 0, 1, 0, 0, 0, 4, 0, 0, 0, // at 10: ImageWidth 4
    0x01, 1, 3, 0, 1, 0, 0, 0, 4, 0, 0, 0, // at 22: ImageLength 4
    0x02, 1, 3, 0, 1, 0, 0, 0, 8, 0, 0, 0, // at 34: BitsPerSample 8
    0x03, 1, 3, 0, 1, 0, 0, 0, 1, 0, 0, 0, // at 46: Compression 1
    0x06, 1, 3, 0, 1, 0, 0, 0, 1, 0, 0, 0, // at 58: BlackIsZero
    0x11, 1, 4, 0, 1, 0, 0, 0, 122, 0, 0, 0, // at 70: StripOffsets 122
    0x15, 1, 3, 0, 1, 0, 0, 0, 1, 0, 0, 0, // at 82: SamplesPerPixel 1
    0x16, 1, 3, 0, 1, 0, 0, 0, 4, 0, 0, 0, // at 94: RowsPerStrip 4
    0x17, 1, 4, 0, 1, 0, 0, 0, 16, 0, 0, 0, // at 106: StripByteCounts 16
    0, 0, 0, 0, // at 118: no further directory
    0x00, 0x01, 0x02, 0x03, 0x10, 0x11, 0x12, 0x13, // at 122: samples
    0x20, 0x21, 0x22, 0x23, 0x30, 0x31, 0x32, 0x33,
];

/// `SMALL`, highest byte first.
pub static SMALL_BIG: [u8; 138] = [
    0x4d, 0x4d, 0, 0x2a, 0, 0, 0, 8, // header, the directory at 8
    0, 9, // entries
    1, 0x00, 0, 3, 0, 0, 0, 1, 0, 4, 0, 0, // at 10: ImageWidth 4
    1, 0x01, 0, 3, 0, 0, 0, 1, 0, 4, 0, 0, // at 22: ImageLength 4
    1, 0x02, 0, 3, 0, 0, 0, 1, 0, 8, 0, 0, // at 34: BitsPerSample 8
    1, 0x03, 0, 3, 0, 0, 0, 1, 0, 1, 0, 0, // at 46: Compression 1
    1, 0x06, 0, 3, 0, 0, 0, 1, 0, 1, 0, 0, // at 58: BlackIsZero
    1, 0x11, 0, 4, 0, 0, 0, 1, 0, 0, 0, 122, // at 70: StripOffsets 122
    1, 0x15, 0, 3, 0, 0, 0, 1, 0, 1, 0, 0, // at 82: SamplesPerPixel 1
    1, 0x16, 0, 3, 0, 0, 0, 1, 0, 4, 0, 0, // at 94: RowsPerStrip 4
    1, 0x17, 0, 4, 0, 0, 0, 1, 0, 0, 0, 16, // at 106: StripByteCounts 16
    0, 0, 0, 0, // at 118: no further directory
    0x00, 0x01, 0x02, 0x03, 0x10, 0x11, 0x12, 0x13, // at 122: samples
    0x20, 0x21, 0x22, 0x23, 0x30, 0x31, 0x32, 0x33,
];

/// A second directory for `SMALL`, to be placed at 138: 2 by 2, 8 bits, one strip at 204,
/// everything else by default.
pub static HALF: [u8; 70] = [
    5, 0, // entries
    0x00, 1, 3, 0, 1, 0, 0, 0, 2, 0, 0, 0, // at 140: ImageWidth 2
    0x01, 1, 3, 0, 1, 0, 0, 0, 2, 0, 0, 0, // at 152: ImageLength 2
    0x02, 1, 3, 0, 1, 0, 0, 0, 8, 0, 0, 0, // at 164: BitsPerSample 8
    0x11, 1, 3, 0, 1, 0, 0, 0, 204, 0, 0, 0, // at 176: StripOffsets 204
    0x11, 1, 3, 0, 1, 0, 0, 0, 6, 0, 0, 0, // at 188: the same tag again, which does not count
    0, 0, 0, 0, // at 200: no further directory
    200, 201, 202, 203, // at 204: samples
];

/// `SMALL` as BigTIFF.
pub static WIDE: [u8; 228] = [
    0x49, 0x49, 43, 0, 8, 0, 0, 0, // header, the bytes of an offset, 0
    16, 0, 0, 0, 0, 0, 0, 0, // the directory at 16
    9, 0, 0, 0, 0, 0, 0, 0, // entries
    0, 1, 3, 0, 1, 0, 0, 0, 0, 0, 0, 0, // at 24: ImageWidth 4
    4, 0, 0, 0, 0, 0, 0, 0, //
    1, 1, 3, 0, 1, 0, 0, 0, 0, 0, 0, 0, // at 44: ImageLength 4
    4, 0, 0, 0, 0, 0, 0, 0, //
    2, 1, 3, 0, 1, 0, 0, 0, 0, 0, 0, 0, // at 64: BitsPerSample 8
    8, 0, 0, 0, 0, 0, 0, 0, //
    3, 1, 3, 0, 1, 0, 0, 0, 0, 0, 0, 0, // at 84: Compression 1
    1, 0, 0, 0, 0, 0, 0, 0, //
    6, 1, 3, 0, 1, 0, 0, 0, 0, 0, 0, 0, // at 104: BlackIsZero
    1, 0, 0, 0, 0, 0, 0, 0, //
    17, 1, 16, 0, 1, 0, 0, 0, 0, 0, 0, 0, // at 124: StripOffsets 212, LONG8
    212, 0, 0, 0, 0, 0, 0, 0, //
    21, 1, 3, 0, 1, 0, 0, 0, 0, 0, 0, 0, // at 144: SamplesPerPixel 1
    1, 0, 0, 0, 0, 0, 0, 0, //
    22, 1, 3, 0, 1, 0, 0, 0, 0, 0, 0, 0, // at 164: RowsPerStrip 4
    4, 0, 0, 0, 0, 0, 0, 0, //
    23, 1, 4, 0, 1, 0, 0, 0, 0, 0, 0, 0, // at 184: StripByteCounts 16
    16, 0, 0, 0, 0, 0, 0, 0, //
    0, 0, 0, 0, 0, 0, 0, 0, // at 204: no further directory
    0x00, 0x01, 0x02, 0x03, 0x10, 0x11, 0x12, 0x13, // at 212: samples
    0x20, 0x21, 0x22, 0x23, 0x30, 0x31, 0x32, 0x33,
];

/// `SMALL` as BigTIFF, highest byte first.
pub static WIDE_BIG: [u8; 228] = [
    0x4d, 0x4d, 0, 43, 0, 8, 0, 0, // header, the bytes of an offset, 0
    0, 0, 0, 0, 0, 0, 0, 16, // the directory at 16
    0, 0, 0, 0, 0, 0, 0, 9, // entries
    1, 0, 0, 3, 0, 0, 0, 0, 0, 0, 0, 1, // at 24: ImageWidth 4
    0, 4, 0, 0, 0, 0, 0, 0, //
    1, 1, 0, 3, 0, 0, 0, 0, 0, 0, 0, 1, // at 44: ImageLength 4
    0, 4, 0, 0, 0, 0, 0, 0, //
    1, 2, 0, 3, 0, 0, 0, 0, 0, 0, 0, 1, // at 64: BitsPerSample 8
    0, 8, 0, 0, 0, 0, 0, 0, //
    1, 3, 0, 3, 0, 0, 0, 0, 0, 0, 0, 1, // at 84: Compression 1
    0, 1, 0, 0, 0, 0, 0, 0, //
    1, 6, 0, 3, 0, 0, 0, 0, 0, 0, 0, 1, // at 104: BlackIsZero
    0, 1, 0, 0, 0, 0, 0, 0, //
    1, 17, 0, 16, 0, 0, 0, 0, 0, 0, 0, 1, // at 124: StripOffsets 212, LONG8
    0, 0, 0, 0, 0, 0, 0, 212, //
    1, 21, 0, 3, 0, 0, 0, 0, 0, 0, 0, 1, // at 144: SamplesPerPixel 1
    0, 1, 0, 0, 0, 0, 0, 0, //
    1, 22, 0, 3, 0, 0, 0, 0, 0, 0, 0, 1, // at 164: RowsPerStrip 4
    0, 4, 0, 0, 0, 0, 0, 0, //
    1, 23, 0, 4, 0, 0, 0, 0, 0, 0, 0, 1, // at 184: StripByteCounts 16
    0, 0, 0, 16, 0, 0, 0, 0, //
    0, 0, 0, 0, 0, 0, 0, 0, // at 204: no further directory
    0x00, 0x01, 0x02, 0x03, 0x10, 0x11, 0x12, 0x13, // at 212: samples
    0x20, 0x21, 0x22, 0x23, 0x30, 0x31, 0x32, 0x33,
];

/// A second BigTIFF directory for `WIDE`, to be placed at 228: 2 by 2, 8 bits, one strip at 344,
/// everything else by default.
pub static WIDE_HALF: [u8; 120] = [
    5, 0, 0, 0, 0, 0, 0, 0, // entries
    0, 1, 16, 0, 1, 0, 0, 0, 0, 0, 0, 0, // at 236: ImageWidth 2, LONG8
    2, 0, 0, 0, 0, 0, 0, 0, //
    1, 1, 4, 0, 1, 0, 0, 0, 0, 0, 0, 0, // at 256: ImageLength 2, LONG
    2, 0, 0, 0, 0, 0, 0, 0, //
    2, 1, 3, 0, 1, 0, 0, 0, 0, 0, 0, 0, // at 276: BitsPerSample 8
    8, 0, 0, 0, 0, 0, 0, 0, //
    17, 1, 16, 0, 1, 0, 0, 0, 0, 0, 0, 0, // at 296: StripOffsets 344, LONG8
    88, 1, 0, 0, 0, 0, 0, 0, //
    17, 1, 3, 0, 1, 0, 0, 0, 0, 0, 0, 0, // at 316: the same tag again, which does not count
    6, 0, 0, 0, 0, 0, 0, 0, //
    0, 0, 0, 0, 0, 0, 0, 0, // at 336: no further directory
    200, 201, 202, 203, // at 344: samples
];

/// The bytes before the tiles of an image of 80 by 48, 16 bits, three channels, highest byte first,
/// in four tiles of 64 by 32 at 184, 12472, 24760 and 37048.
pub static TILED_HEAD: [u8; 184] = [
    0x4d, 0x4d, 0, 0x2a, 0, 0, 0, 8, // header, the directory at 8
    0, 11, // entries
    1, 0x00, 0, 3, 0, 0, 0, 1, 0, 80, 0, 0, // ImageWidth 80
    1, 0x01, 0, 3, 0, 0, 0, 1, 0, 48, 0, 0, // ImageLength 48
    1, 0x02, 0, 3, 0, 0, 0, 3, 0, 0, 0, 146, // BitsPerSample, three values at 146
    1, 0x03, 0, 3, 0, 0, 0, 1, 0, 1, 0, 0, // Compression 1
    1, 0x06, 0, 3, 0, 0, 0, 1, 0, 2, 0, 0, // RGB
    1, 0x15, 0, 3, 0, 0, 0, 1, 0, 3, 0, 0, // SamplesPerPixel 3
    1, 0x1c, 0, 3, 0, 0, 0, 1, 0, 1, 0, 0, // chunky
    1, 0x42, 0, 3, 0, 0, 0, 1, 0, 64, 0, 0, // TileWidth 64
    1, 0x43, 0, 3, 0, 0, 0, 1, 0, 32, 0, 0, // TileLength 32
    1, 0x44, 0, 4, 0, 0, 0, 4, 0, 0, 0, 152, // TileOffsets, four values at 152
    1, 0x45, 0, 4, 0, 0, 0, 4, 0, 0, 0, 168, // TileByteCounts
    0, 0, 0, 0, // at 142: no further directory
    0, 16, 0, 16, 0, 16, // at 146
    0, 0, 0, 0xb8, 0, 0, 0x30, 0xb8, // at 152: 184, 12472,
    0, 0, 0x60, 0xb8, 0, 0, 0x90, 0xb8, // 24760, 37048
    0, 0, 0x30, 0, 0, 0, 0x30, 0, 0, 0, 0x30, 0, 0, 0, 0x30, 0, // at 168: 12288 each
];

/// 3 by 1 texels of one channel, in one strip: 10, 21, 30.
pub static THREE: [u8; 125] = [
    0x49, 0x49, 0x2a, 0x00, 0x08, 0x00, 0x00, 0x00, 0x09, 0x00, //
    0x00, 0x01, 0x03, 0x00, 0x01, 0x00, 0x00, 0x00, 0x03, 0x00, 0x00, 0x00, //
    0x01, 0x01, 0x03, 0x00, 0x01, 0x00, 0x00, 0x00, 0x01, 0x00, 0x00, 0x00, //
    0x02, 0x01, 0x03, 0x00, 0x01, 0x00, 0x00, 0x00, 0x08, 0x00, 0x00, 0x00, //
    0x03, 0x01, 0x03, 0x00, 0x01, 0x00, 0x00, 0x00, 0x01, 0x00, 0x00, 0x00, //
    0x06, 0x01, 0x03, 0x00, 0x01, 0x00, 0x00, 0x00, 0x01, 0x00, 0x00, 0x00, //
    0x11, 0x01, 0x03, 0x00, 0x01, 0x00, 0x00, 0x00, 0x7a, 0x00, 0x00, 0x00, //
    0x15, 0x01, 0x03, 0x00, 0x01, 0x00, 0x00, 0x00, 0x01, 0x00, 0x00, 0x00, //
    0x16, 0x01, 0x03, 0x00, 0x01, 0x00, 0x00, 0x00, 0x01, 0x00, 0x00, 0x00, //
    0x17, 0x01, 0x03, 0x00, 0x01, 0x00, 0x00, 0x00, 0x03, 0x00, 0x00, 0x00, //
    0x00, 0x00, 0x00, 0x00, //
    0x0a, 0x15, 0x1e,
];

/// 18 by 2 texels of one channel, in two tiles of 16 by 16 at 256 and 512: the bytes before them.
pub static EDGE_TILES_HEAD: [u8; 150] = [
    0x49, 0x49, 0x2a, 0x00, 0x08, 0x00, 0x00, 0x00, 0x0a, 0x00, //
    0x00, 0x01, 0x03, 0x00, 0x01, 0x00, 0x00, 0x00, 0x12, 0x00, 0x00, 0x00, //
    0x01, 0x01, 0x03, 0x00, 0x01, 0x00, 0x00, 0x00, 0x02, 0x00, 0x00, 0x00, //
    0x02, 0x01, 0x03, 0x00, 0x01, 0x00, 0x00, 0x00, 0x08, 0x00, 0x00, 0x00, //
    0x03, 0x01, 0x03, 0x00, 0x01, 0x00, 0x00, 0x00, 0x01, 0x00, 0x00, 0x00, //
    0x06, 0x01, 0x03, 0x00, 0x01, 0x00, 0x00, 0x00, 0x01, 0x00, 0x00, 0x00, //
    0x15, 0x01, 0x03, 0x00, 0x01, 0x00, 0x00, 0x00, 0x01, 0x00, 0x00, 0x00, //
    0x42, 0x01, 0x03, 0x00, 0x01, 0x00, 0x00, 0x00, 0x10, 0x00, 0x00, 0x00, //
    0x43, 0x01, 0x03, 0x00, 0x01, 0x00, 0x00, 0x00, 0x10, 0x00, 0x00, 0x00, //
    0x44, 0x01, 0x04, 0x00, 0x02, 0x00, 0x00, 0x00, 0x86, 0x00, 0x00, 0x00, //
    0x45, 0x01, 0x04, 0x00, 0x02, 0x00, 0x00, 0x00, 0x8e, 0x00, 0x00, 0x00, //
    0x00, 0x00, 0x00, 0x00, //
    0x00, 0x01, 0x00, 0x00, 0x00, 0x02, 0x00, 0x00, //
    0x00, 0x01, 0x00, 0x00, 0x00, 0x01, 0x00, 0x00,
];

/// 65536 by 1025 texels of one channel, in one strip at 122: the bytes before it.
pub static LARGE_HEAD: [u8; 122] = [
    0x49, 0x49, 0x2a, 0x00, 0x08, 0x00, 0x00, 0x00, 0x09, 0x00, //
    0x00, 0x01, 0x04, 0x00, 0x01, 0x00, 0x00, 0x00, 0x00, 0x00, 0x01, 0x00, //
    0x01, 0x01, 0x04, 0x00, 0x01, 0x00, 0x00, 0x00, 0x01, 0x04, 0x00, 0x00, //
    0x02, 0x01, 0x03, 0x00, 0x01, 0x00, 0x00, 0x00, 0x08, 0x00, 0x00, 0x00, //
    0x03, 0x01, 0x03, 0x00, 0x01, 0x00, 0x00, 0x00, 0x01, 0x00, 0x00, 0x00, //
    0x06, 0x01, 0x03, 0x00, 0x01, 0x00, 0x00, 0x00, 0x01, 0x00, 0x00, 0x00, //
    0x11, 0x01, 0x04, 0x00, 0x01, 0x00, 0x00, 0x00, 0x7a, 0x00, 0x00, 0x00, //
    0x15, 0x01, 0x03, 0x00, 0x01, 0x00, 0x00, 0x00, 0x01, 0x00, 0x00, 0x00, //
    0x16, 0x01, 0x04, 0x00, 0x01, 0x00, 0x00, 0x00, 0x01, 0x04, 0x00, 0x00, //
    0x17, 0x01, 0x04, 0x00, 0x01, 0x00, 0x00, 0x00, 0x00, 0x00, 0x01, 0x04, //
    0x00, 0x00, 0x00, 0x00, //
];
