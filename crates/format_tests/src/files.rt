//! The files that several tables read.

use test_files::Edit::{Append, Put, Resize};
use test_files::{Base, ImageFile};

/// 4 by 4, 8 bits, one channel, in one strip at 122; texel (x, y) is 16 * y + x.
pub(crate) const SMALL: ImageFile = ImageFile {
    name: "4 by 4",
    base: Base::Small,
    edits: &[],
};

/// `SMALL`, highest byte first.
pub(crate) const SMALL_BIG: ImageFile = ImageFile {
    name: "4 by 4, highest byte first",
    base: Base::SmallBig,
    edits: &[],
};

/// `SMALL`, and a level of half its size: 200 + 2 * y + x.
pub(crate) const TWO_LEVELS: ImageFile = ImageFile {
    name: "two levels",
    base: Base::TwoLevels,
    edits: &[],
};

/// `SMALL` as BigTIFF.
pub(crate) const WIDE: ImageFile = ImageFile {
    name: "BigTIFF",
    base: Base::Wide,
    edits: &[],
};

/// `SMALL` as BigTIFF, highest byte first.
pub(crate) const WIDE_BIG: ImageFile = ImageFile {
    name: "BigTIFF, highest byte first",
    base: Base::WideBig,
    edits: &[],
};

/// `TWO_LEVELS` as BigTIFF.
pub(crate) const WIDE_TWO: ImageFile = ImageFile {
    name: "BigTIFF of two levels",
    base: Base::WideTwoLevels,
    edits: &[],
};

/// 80 by 48, 16 bits, three channels, highest byte first, in tiles of 64 by 32; channel c of texel
/// (x, y) is 20000 * c + 100 * y + x.
pub(crate) const TILED: ImageFile = ImageFile {
    name: "tiles",
    base: Base::Tiled,
    edits: &[],
};

/// 100 by 80 in a strip, and a second page of that size.
pub(crate) const PAGES: ImageFile = ImageFile {
    name: "two pages",
    base: Base::Pages,
    edits: &[],
};

/// `SMALL` with WhiteIsZero.
pub(crate) const WHITE: ImageFile = ImageFile {
    name: "WhiteIsZero",
    base: Base::Small,
    edits: &[Put(66, &[0])],
};

/// 2 by 4, 16 bits, lowest byte first: the bytes of `SMALL`.
pub(crate) const WORDS: ImageFile = ImageFile {
    name: "16 bits, lowest byte first",
    base: Base::Small,
    edits: &[Put(18, &[2]), Put(42, &[16])],
};

/// 2 by 4, 16 bits, highest byte first: the bytes of `SMALL`.
pub(crate) const WORDS_BIG: ImageFile = ImageFile {
    name: "16 bits, highest byte first",
    base: Base::SmallBig,
    edits: &[Put(19, &[2]), Put(43, &[16])],
};

/// `WORDS` with WhiteIsZero.
pub(crate) const WHITE_WORDS: ImageFile = ImageFile {
    name: "WhiteIsZero of 16 bits",
    base: Base::Small,
    edits: &[Put(18, &[2]), Put(42, &[16]), Put(66, &[0])],
};

/// 3 by 1: 10, 21, 30.
pub(crate) const ROW: ImageFile = ImageFile {
    name: "3 by 1",
    base: Base::Small,
    edits: &[Put(18, &[3]), Put(30, &[1]), Put(122, &[10, 21, 30])],
};

/// 2 by 1, two channels, WhiteIsZero: 10 20, 250 60.
pub(crate) const TWO_CHANNELS: ImageFile = ImageFile {
    name: "WhiteIsZero of two channels",
    base: Base::Small,
    edits: &[
        Put(18, &[2]),
        Put(30, &[1]),
        Put(38, &[2]),
        Put(44, &[8]),
        Put(66, &[0]),
        Put(90, &[2]),
        Put(122, &[10, 20, 250, 60]),
    ],
};

/// 131072 by 1.
pub(crate) const WIDEST: ImageFile = ImageFile {
    name: "131072 by 1",
    base: Base::Small,
    edits: &[
        Resize(131194),
        Put(12, &[4]),
        Put(18, &[0, 0, 2, 0]),
        Put(30, &[1]),
        Put(102, &[1]),
    ],
};

/// 5 by 4, 16 bits, three channels, WhiteIsZero, in strips of two rows at 100 and 300. A row has 30
/// bytes.
pub(crate) const RGB_STRIPS: ImageFile = ImageFile {
    name: "three channels in strips",
    base: Base::Small,
    edits: &[
        Resize(400),
        Put(18, &[5]),
        Put(42, &[16]),
        Put(66, &[0]),
        Put(72, &[3]),
        Put(74, &[2]),
        Put(78, &[100, 0, 44, 1]),
        Put(90, &[3]),
        Put(102, &[2]),
    ],
};

/// 20 by 17, 16 bits, two channels, in tiles of 16 by 16 at 184, 12472, 24760 and 37048. A row of a
/// tile has 64 bytes.
pub(crate) const EDGES: ImageFile = ImageFile {
    name: "edge tiles",
    base: Base::Tiled,
    edits: &[
        Put(19, &[20]),
        Put(31, &[17]),
        Put(79, &[2]),
        Put(103, &[16]),
        Put(115, &[16]),
    ],
};

/// 4 by 6 in three strips of two rows, at 122, 130 and 138; texel (x, y) is 16 * y + x.
pub(crate) const STRIPS: ImageFile = ImageFile {
    name: "three strips",
    base: Base::Small,
    edits: &[
        Append(16704, 1),
        Append(17218, 1),
        Append(20816, 1),
        Append(21330, 1),
        Append(122, 1),
        Append(130, 1),
        Append(138, 1),
        Put(30, &[6]),
        Put(72, &[3]),
        Put(74, &[3]),
        Put(78, &[146]),
        Put(102, &[2]),
    ],
};

/// `STRIPS` with its last strip one byte later, at 139.
pub(crate) const GAP: ImageFile = ImageFile {
    name: "a gap before the last strip",
    base: Base::Small,
    edits: &[
        Append(16639, 1),
        Append(16961, 1),
        Append(20547, 1),
        Append(21073, 1),
        Append(83, 1),
        Append(122, 1),
        Append(130, 1),
        Append(139, 1),
        Put(30, &[6]),
        Put(72, &[3]),
        Put(74, &[3]),
        Put(78, &[148]),
        Put(102, &[2]),
    ],
};

/// `STRIPS` with its last strip at 130, before the second at 138.
pub(crate) const SHUFFLED: ImageFile = ImageFile {
    name: "strips in another order",
    base: Base::Small,
    edits: &[
        Resize(130),
        Append(16704, 1),
        Append(17218, 1),
        Append(20816, 1),
        Append(21330, 1),
        Append(8480, 1),
        Append(8994, 1),
        Append(12592, 1),
        Append(13106, 1),
        Append(122, 1),
        Append(138, 1),
        Append(130, 1),
        Put(30, &[6]),
        Put(72, &[3]),
        Put(74, &[3]),
        Put(78, &[146]),
        Put(102, &[2]),
    ],
};

/// `TILED` with 8 bits: the bytes of its samples one after another, highest first. So a tile is the
/// first half of one of `TILED`.
pub(crate) const BYTES: ImageFile = ImageFile {
    name: "tiles of 8 bits",
    base: Base::Tiled,
    edits: &[Put(147, &[8]), Put(149, &[8]), Put(151, &[8])],
};

/// Two planes of two strips each, the second strip with one row, WhiteIsZero.
pub(crate) const PLANES: ImageFile = ImageFile {
    name: "planes, WhiteIsZero",
    base: Base::Small,
    edits: &[
        Put(66, &[0]),
        Put(74, &[4]),
        Put(78, &[138]),
        Put(90, &[2]),
        Put(102, &[3]),
        Put(106, &[28]),
        Put(114, &[2]),
        Resize(170),
        Put(
            138,
            &[
                122, 0, 0, 0, 134, 0, 0, 0, 154, 0, 0, 0, 166, 0, 0, 0, 200, 201, 202, 203, 204,
                205, 206, 207, 208, 209, 210, 211, 212,
            ],
        ),
    ],
};

/// `PLANES` with BlackIsZero.
pub(crate) const BLACK_PLANES: ImageFile = ImageFile {
    name: "planes",
    base: Base::Small,
    edits: &[
        Put(74, &[4]),
        Put(78, &[138]),
        Put(90, &[2]),
        Put(102, &[3]),
        Put(106, &[28]),
        Put(114, &[2]),
        Resize(170),
        Put(
            138,
            &[
                122, 0, 0, 0, 134, 0, 0, 0, 154, 0, 0, 0, 166, 0, 0, 0, 200, 201, 202, 203, 204,
                205, 206, 207, 208, 209, 210, 211, 212,
            ],
        ),
    ],
};

/// 8192 by 4096, one channel of 8 bits.
pub(crate) const LARGE: ImageFile = ImageFile {
    name: "8192 by 4096",
    base: Base::Small,
    edits: &[
        Resize(33554554),
        Put(18, &[0, 32]),
        Put(30, &[0, 16]),
        Put(102, &[0, 16]),
    ],
};
