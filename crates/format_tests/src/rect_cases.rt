//! The cases of reading rectangles: each with its file, its place, and the samples and reads that are
//! expected.
use crate::files::{
    BLACK_PLANES, BYTES, GAP, PLANES, SHUFFLED, SMALL, SMALL_BIG, STRIPS, TILED, TWO_CHANNELS,
    TWO_LEVELS, WHITE, WHITE_WORDS, WORDS, WORDS_BIG,
};
use crate::layouts::Place;
use crate::rect_cases::Wanted::{Any, OfStrips, OfTiles, These};
use test_files::Edit::{Append, Put, Resize};
use test_files::{Base, ImageFile};

/// The expected samples of a rectangle.
#[derive(Clone, Copy)]
pub enum Wanted {
    These(&'static [u16]),
    /// Those of `TILED`.
    OfTiles,
    /// Those of the files with three strips.
    OfStrips,
    /// No sample is compared.
    Any,
}

/// A rectangle of a level, read once as numbers of two bytes and once in the size that its samples
/// need.
#[derive(Clone, Copy)]
pub struct RectCase {
    pub name: &'static str,
    pub file: ImageFile,
    /// The file is cut off after this many bytes, behind its directories.
    pub kept: usize,
    pub level: u32,
    pub place: Place,
    pub samples: Wanted,
    /// The bytes per sample in memory.
    pub size: u64,
    /// The number of reads. Each of them fails in turn.
    pub reads: u64,
    /// The number of bytes read, where it was worked out.
    pub filled: Option<u64>,
}

/// What most cases have: a file that is not cut off, level 0, 8 bits, and one read.
const CASE: RectCase = RectCase {
    name: "",
    file: SMALL,
    kept: usize::MAX,
    level: 0,
    place: (0, 0, 4, 4),
    samples: Any,
    size: 1,
    reads: 1,
    filled: None,
};

pub static CASES: &[RectCase] = &[
    RectCase {
        name: "a whole strip",
        file: SMALL,
        place: (0, 0, 4, 4),
        samples: These(&[0, 1, 2, 3, 16, 17, 18, 19, 32, 33, 34, 35, 48, 49, 50, 51]),
        ..CASE
    },
    RectCase {
        name: "the middle of a strip",
        file: SMALL,
        place: (1, 1, 2, 2),
        samples: These(&[17, 18, 33, 34]),
        ..CASE
    },
    RectCase {
        name: "the last texel",
        file: SMALL_BIG,
        place: (3, 3, 1, 1),
        samples: These(&[51]),
        ..CASE
    },
    RectCase {
        name: "16 bits, lowest byte first",
        file: WORDS,
        place: (1, 3, 1, 1),
        samples: These(&[0x3332]),
        size: 2,
        ..CASE
    },
    RectCase {
        name: "16 bits, highest byte first",
        file: WORDS_BIG,
        place: (0, 0, 2, 1),
        samples: These(&[0x0001, 0x0203]),
        size: 2,
        ..CASE
    },
    RectCase {
        name: "WhiteIsZero",
        file: WHITE,
        place: (1, 2, 2, 1),
        samples: These(&[222, 221]),
        ..CASE
    },
    RectCase {
        name: "WhiteIsZero of 16 bits",
        file: WHITE_WORDS,
        place: (0, 0, 1, 1),
        samples: These(&[65279]),
        size: 2,
        ..CASE
    },
    RectCase {
        name: "WhiteIsZero of two channels",
        file: TWO_CHANNELS,
        place: (0, 0, 2, 1),
        samples: These(&[245, 20, 5, 60]),
        ..CASE
    },
    RectCase {
        name: "level 1",
        file: TWO_LEVELS,
        place: (0, 0, 2, 2),
        samples: These(&[200, 201, 202, 203]),
        level: 1,
        ..CASE
    },
    // strips that follow one another
    RectCase {
        name: "from the middle of the first strip to that of the last",
        file: STRIPS,
        place: (0, 1, 4, 4),
        samples: These(&[
            16, 17, 18, 19, 32, 33, 34, 35, 48, 49, 50, 51, 64, 65, 66, 67,
        ]),
        ..CASE
    },
    RectCase {
        name: "a tile",
        file: TILED,
        place: (0, 0, 64, 32),
        samples: OfTiles,
        size: 2,
        filled: Some(12288),
        ..CASE
    },
    RectCase {
        name: "a tile of 8 bits",
        file: BYTES,
        place: (0, 0, 64, 32),
        samples: Any,
        filled: Some(6144),
        ..CASE
    },
    // 32 rows of 96 bytes, 384 bytes apart, without the padding after the last
    RectCase {
        name: "an edge tile",
        file: TILED,
        place: (64, 0, 16, 32),
        samples: OfTiles,
        size: 2,
        filled: Some(31 * 384 + 96),
        ..CASE
    },
    RectCase {
        name: "another",
        file: TILED,
        place: (0, 32, 64, 16),
        samples: OfTiles,
        size: 2,
        filled: Some(16 * 384),
        ..CASE
    },
    RectCase {
        name: "the corner",
        file: TILED,
        place: (64, 32, 16, 16),
        samples: OfTiles,
        size: 2,
        filled: Some(15 * 384 + 96),
        ..CASE
    },
    RectCase {
        name: "a texel",
        file: TILED,
        place: (79, 47, 1, 1),
        samples: OfTiles,
        size: 2,
        filled: Some(6),
        ..CASE
    },
    RectCase {
        name: "no texel",
        file: TILED,
        place: (5, 5, 0, 9),
        samples: OfTiles,
        size: 2,
        reads: 0,
        filled: Some(0),
        ..CASE
    },
    RectCase {
        name: "all four tiles",
        file: TILED,
        place: (0, 0, 80, 48),
        samples: OfTiles,
        size: 2,
        reads: 4,
        filled: Some(12288 + 12000 + 6144 + 5856),
        ..CASE
    },
    // rows of 4000 bytes: the 3990 bytes between two pieces are read too
    RectCase {
        name: "close rows",
        file: ImageFile {
            name: "close rows",
            base: Base::Small,
            edits: &[Resize(16122), Put(18, &[160, 15])],
        },
        place: (100, 0, 10, 4),
        samples: Any,
        filled: Some(3 * 4000 + 10),
        ..CASE
    },
    // 65 whole rows of 4096 bytes: 256 KiB at once
    RectCase {
        name: "a large strip",
        file: ImageFile {
            name: "a large strip",
            base: Base::Small,
            edits: &[
                Resize(266362),
                Put(18, &[0, 16]),
                Put(30, &[65]),
                Put(102, &[65]),
            ],
        },
        place: (0, 0, 4096, 65),
        samples: Any,
        reads: 2,
        filled: Some(266_240),
        ..CASE
    },
    // six rows in three strips
    RectCase {
        name: "strips side by side",
        file: STRIPS,
        place: (0, 0, 4, 6),
        samples: OfStrips,
        filled: Some(24),
        ..CASE
    },
    RectCase {
        name: "from the middle of a strip on",
        file: STRIPS,
        place: (0, 3, 4, 2),
        samples: OfStrips,
        filled: Some(8),
        ..CASE
    },
    // First the first strip with its rows, then the others. Twice the 4 bytes read ahead, plus the
    // distance to the last row, covers the three rows to come.
    RectCase {
        name: "three columns of them",
        file: STRIPS,
        place: (0, 0, 3, 6),
        samples: OfStrips,
        reads: 2,
        filled: Some(7 + 15),
        ..CASE
    },
    // First the first strip with its rows, then the second and what follows closely: twice what was
    // read ahead before plus the distance to the last row, or the rows to come. That ends within
    // the last row, which takes another read.
    RectCase {
        name: "a gap before the last",
        file: GAP,
        place: (0, 0, 4, 6),
        samples: OfStrips,
        reads: 3,
        filled: Some(8 + 16 + 4),
        ..CASE
    },
    // The first strip, then the second and what follows it in the file, and the last.
    RectCase {
        name: "strips in another order",
        file: SHUFFLED,
        place: (0, 0, 4, 6),
        samples: OfStrips,
        reads: 3,
        filled: Some(8 + 14 + 8),
        ..CASE
    },
    RectCase {
        name: "the first two of them",
        file: GAP,
        place: (0, 0, 4, 4),
        samples: OfStrips,
        filled: Some(16),
        ..CASE
    },
    // five strips of 13 rows of 4096 bytes: 256 KiB at once
    RectCase {
        name: "large strips side by side",
        file: ImageFile {
            name: "large strips side by side",
            base: Base::Small,
            edits: &[
                Resize(266362),
                Append(122, 1),
                Append(0, 1),
                Append(53370, 1),
                Append(0, 1),
                Append(41082, 1),
                Append(1, 1),
                Append(28794, 1),
                Append(2, 1),
                Append(16506, 1),
                Append(3, 1),
                Put(18, &[0, 16]),
                Put(30, &[65]),
                Put(72, &[4]),
                Put(74, &[5]),
                Put(78, &[122, 16, 4, 0]),
                Put(102, &[13]),
            ],
        },
        place: (0, 0, 4096, 65),
        samples: Any,
        reads: 2,
        filled: Some(266_240),
        ..CASE
    },
    // rows of 8192 bytes: each piece is one read
    RectCase {
        name: "distant rows",
        file: ImageFile {
            name: "distant rows",
            base: Base::Small,
            edits: &[Resize(32890), Put(18, &[0, 32])],
        },
        place: (100, 0, 10, 4),
        samples: Any,
        reads: 4,
        filled: Some(40),
        ..CASE
    },
    RectCase {
        name: "a file of 137 bytes",
        file: SMALL,
        place: (0, 0, 4, 4),
        samples: These(&[0, 1, 2, 3, 16, 17, 18, 19, 32, 33, 34, 35, 0, 0, 0, 0]),
        kept: 137,
        ..CASE
    },
    RectCase {
        name: "a file of 137 bytes, WhiteIsZero",
        file: WHITE,
        place: (0, 0, 4, 4),
        samples: These(&[
            255, 254, 253, 252, 239, 238, 237, 236, 223, 222, 221, 220, 0, 0, 0, 0,
        ]),
        kept: 137,
        ..CASE
    },
    RectCase {
        name: "a file of 125 bytes, WhiteIsZero",
        file: WHITE,
        place: (0, 0, 4, 4),
        samples: These(&[0; 16]),
        kept: 125,
        reads: 0,
        ..CASE
    },
    RectCase {
        name: "the middle of a strip",
        file: SMALL,
        place: (1, 1, 2, 2),
        samples: These(&[17, 18, 33, 34]),
        ..CASE
    },
    RectCase {
        name: "strips side by side",
        file: STRIPS,
        place: (0, 1, 4, 4),
        samples: These(&[
            16, 17, 18, 19, 32, 33, 34, 35, 48, 49, 50, 51, 64, 65, 66, 67,
        ]),
        ..CASE
    },
    RectCase {
        name: "a strip apart",
        file: GAP,
        place: (2, 3, 2, 2),
        samples: These(&[50, 51, 66, 67]),
        reads: 2,
        ..CASE
    },
    // the samples 0, 20000, 40000 and 1, 20001, 40001 in 12 bytes
    RectCase {
        name: "a tile",
        file: BYTES,
        place: (0, 0, 4, 1),
        samples: These(&[0, 0, 78, 32, 156, 64, 0, 1, 78, 33, 156, 65]),
        ..CASE
    },
    // the last three bytes of a row of the first tile, from the samples 20031 and 40031, and the
    // first three of the next
    RectCase {
        name: "over two tiles",
        file: BYTES,
        place: (63, 0, 2, 1),
        samples: These(&[63, 156, 95, 0, 64, 78]),
        reads: 2,
        ..CASE
    },
    // the rows of a tile of 64 texels begin with the samples of row 0 from column 32 * row on
    RectCase {
        name: "rows of a tile",
        file: BYTES,
        place: (1, 0, 1, 2),
        samples: These(&[32, 156, 64, 64, 156, 96]),
        ..CASE
    },
    RectCase {
        name: "no texel",
        file: SMALL,
        place: (2, 2, 0, 2),
        samples: These(&[]),
        reads: 0,
        ..CASE
    },
    RectCase {
        name: "WhiteIsZero",
        file: WHITE,
        place: (1, 2, 2, 1),
        samples: These(&[222, 221]),
        ..CASE
    },
    RectCase {
        name: "WhiteIsZero of two channels",
        file: TWO_CHANNELS,
        place: (0, 0, 2, 1),
        samples: These(&[245, 20, 5, 60]),
        ..CASE
    },
    RectCase {
        name: "planes",
        file: BLACK_PLANES,
        place: (1, 0, 2, 2),
        samples: These(&[1, 201, 2, 202, 17, 205, 18, 206]),
        reads: 2,
        ..CASE
    },
    RectCase {
        name: "planes with 0 as white",
        file: PLANES,
        place: (1, 0, 2, 2),
        samples: These(&[254, 201, 253, 202, 238, 205, 237, 206]),
        reads: 2,
        ..CASE
    },
    RectCase {
        name: "16 bits, lowest byte first",
        file: WORDS,
        place: (1, 3, 1, 1),
        samples: These(&[0x3332]),
        size: 2,
        ..CASE
    },
    RectCase {
        name: "16 bits, highest byte first",
        file: WORDS_BIG,
        place: (0, 0, 2, 1),
        samples: These(&[0x0001, 0x0203]),
        size: 2,
        ..CASE
    },
    RectCase {
        name: "WhiteIsZero of 16 bits",
        file: WHITE_WORDS,
        place: (0, 0, 1, 1),
        samples: These(&[65279]),
        size: 2,
        ..CASE
    },
    RectCase {
        name: "a tile of 16 bits",
        file: TILED,
        place: (64, 1, 1, 1),
        samples: These(&[164, 20164, 40164]),
        size: 2,
        ..CASE
    },
];
