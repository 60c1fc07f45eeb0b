//! The levels of a file, how their samples are stored, and where the texels of a rectangle are.

ghost use Rattle.std.specs.Prelude.{◌+◌, ◌<◌, ◌≤◌, ◌↔◌, IfSome, IsTrue};
ghost use Rattle.tiff_format.specs.Cut.{IsCut};
ghost use Rattle.tile_layout.specs.Kept.{stored_count};
ghost use Rattle.tile_layout.specs.Pieces.{LiesOnLevel};

use crate::files::{EDGES, PAGES, RGB_STRIPS, SMALL, TILED, TWO_LEVELS, WIDEST};
use std::alloc::Global;
use std::test::Fail;
use test_files::Edit::{Put, Resize};
use test_files::{Base, Checks, ImageFile, MemReader};
use tiff_dirs::read_dirs;
use tiff_format::{Cut, Rect};
use tile_layout::{Layout, Piece};

/// The cut with squares of this side, if that is allowed.
pub(crate) fn cut_of(autotile: u32, automip: bool) -> Option<Cut>
    ensures { IfSome result (λ cut. IsCut cut) }
{
    if autotile % 16 != 0 || autotile > 4096 {
        return None;
    }
    Some(Cut { autotile, automip })
}

/// The layout of a file with these bytes.
pub(crate) fn layout_in(alloc: Global, bytes: &[u8]) -> Result<Layout, Fail> {
    match read_dirs(alloc, &mut MemReader::new(bytes, 0)) {
        Ok(dirs) => Ok(Layout::of(dirs)),
        Err(error) => Err(error.into()),
    }
}

pub(crate) fn layout_of(alloc: Global, file: &ImageFile) -> Result<Layout, Fail> {
    let bytes = file.bytes(alloc)?;
    layout_in(alloc, &bytes)
}

/// A file, the number of stored levels, and the sizes of all levels.
struct LevelsCase {
    file: ImageFile,
    stored: u32,
    sizes: &'static [(u32, u32)],
}

static LEVELS: &[LevelsCase] = &[
    LevelsCase {
        file: SMALL,
        stored: 1,
        sizes: &[(4, 4), (2, 2), (1, 1)],
    },
    LevelsCase {
        file: ImageFile {
            name: "5 by 4",
            base: Base::Small,
            edits: &[Resize(142), Put(18, &[5])],
        },
        stored: 1,
        sizes: &[(5, 4), (2, 2), (1, 1)],
    },
    LevelsCase {
        file: TWO_LEVELS,
        stored: 2,
        sizes: &[(4, 4), (2, 2)],
    },
    LevelsCase {
        file: PAGES,
        stored: 1,
        sizes: &[
            (100, 80),
            (50, 40),
            (25, 20),
            (12, 10),
            (6, 5),
            (3, 2),
            (1, 1),
        ],
    },
    LevelsCase {
        file: WIDEST,
        stored: 1,
        sizes: &[
            (131072, 1),
            (65536, 1),
            (32768, 1),
            (16384, 1),
            (8192, 1),
            (4096, 1),
            (2048, 1),
            (1024, 1),
            (512, 1),
            (256, 1),
            (128, 1),
            (64, 1),
            (32, 1),
            (16, 1),
            (8, 1),
            (4, 1),
            (2, 1),
            (1, 1),
        ],
    },
];

fn check_levels(checks: &mut Checks, layout: &Layout, case: &LevelsCase) {
    let halved = Cut {
        autotile: 64,
        automip: true,
    };
    let as_stored = Cut {
        autotile: 0,
        automip: false,
    };
    let stored = u64::from(case.stored);
    checks.equal("stored levels", u64::from(layout.stored()), stored);
    let levels = layout.levels(as_stored);
    checks.equal("levels without automip", u64::from(levels), stored);
    let levels = layout.levels(halved);
    checks.equal("levels", u64::from(levels), case.sizes.len() as u64);
    let mut level = 0;
    for size in case.sizes {
        if level < levels {
            let (width, height) = layout.size(level);
            checks.equal("a level's width", u64::from(width), u64::from(size.0));
            checks.equal("a level's height", u64::from(height), u64::from(size.1));
            level += 1;
        }
    }
}

/// A file, and how level 0 stores its samples. `big` is whether numbers have their highest byte
/// first, `invert` how many channels are inverted.
struct SamplesCase {
    file: ImageFile,
    depth: u32,
    channels: u32,
    white: bool,
    big: bool,
    invert: usize,
    texel_bytes: usize,
}

static SAMPLES: &[SamplesCase] = &[
    SamplesCase {
        file: SMALL,
        depth: 8,
        channels: 1,
        white: false,
        big: false,
        invert: 0,
        texel_bytes: 1,
    },
    SamplesCase {
        file: ImageFile {
            name: "two channels, WhiteIsZero",
            base: Base::Small,
            edits: &[Put(18, &[2]), Put(30, &[1]), Put(66, &[0]), Put(90, &[2])],
        },
        depth: 8,
        channels: 2,
        white: true,
        big: false,
        invert: 2,
        texel_bytes: 2,
    },
    SamplesCase {
        file: RGB_STRIPS,
        depth: 16,
        channels: 3,
        white: true,
        big: false,
        invert: 3,
        texel_bytes: 6,
    },
    SamplesCase {
        file: TILED,
        depth: 16,
        channels: 3,
        white: false,
        big: true,
        invert: 0,
        texel_bytes: 6,
    },
    SamplesCase {
        file: EDGES,
        depth: 16,
        channels: 2,
        white: false,
        big: true,
        invert: 0,
        texel_bytes: 4,
    },
];

fn check_samples(checks: &mut Checks, layout: &Layout, case: &SamplesCase) {
    if layout.stored() == 0 || layout.planes(0) == 0 {
        checks.holds("a stored level", false);
        return;
    }
    let (depth, channels) = (u64::from(case.depth), u64::from(case.channels));
    checks.equal("depth", u64::from(layout.depth()), depth);
    checks.equal("channels", u64::from(layout.channels()), channels);
    checks.holds("white", layout.white(0) == case.white);
    checks.holds("big", layout.big() == case.big);
    let format = layout.format(0, 0);
    checks.part("format");
    checks.equal("depth", u64::from(format.depth), depth);
    checks.equal("channels", format.channels as u64, channels);
    checks.holds("big", format.big == case.big);
    checks.equal("invert", format.invert as u64, case.invert as u64);
    checks.equal(
        "texel_bytes",
        format.texel_bytes as u64,
        case.texel_bytes as u64,
    );
}

/// The column, the row, the width and the height of a rectangle.
pub(crate) type Place = (u32, u32, u32, u32);

pub(crate) fn rect_of((x, y, w, h): Place) -> Rect {
    Rect { x, y, w, h }
}

/// A file, a level, a rectangle, and its pieces.
struct PiecesCase {
    file: ImageFile,
    level: u32,
    place: Place,
    pieces: &'static [Piece],
}

static PIECES: &[PiecesCase] = &[
    PiecesCase {
        file: SMALL,
        level: 0,
        place: (0, 0, 4, 4),
        pieces: &[
            Piece {
                at: 122,
                x: 0,
                y: 0,
                n: 4,
            },
            Piece {
                at: 126,
                x: 0,
                y: 1,
                n: 4,
            },
            Piece {
                at: 130,
                x: 0,
                y: 2,
                n: 4,
            },
            Piece {
                at: 134,
                x: 0,
                y: 3,
                n: 4,
            },
        ],
    },
    PiecesCase {
        file: SMALL,
        level: 0,
        place: (3, 2, 1, 1),
        pieces: &[Piece {
            at: 133,
            x: 3,
            y: 2,
            n: 1,
        }],
    },
    PiecesCase {
        file: SMALL,
        level: 0,
        place: (1, 1, 0, 3),
        pieces: &[],
    },
    PiecesCase {
        file: SMALL,
        level: 0,
        place: (1, 1, 3, 0),
        pieces: &[],
    },
    PiecesCase {
        file: SMALL,
        level: 0,
        place: (4, 4, 0, 0),
        pieces: &[],
    },
    PiecesCase {
        file: TWO_LEVELS,
        level: 1,
        place: (0, 0, 2, 2),
        pieces: &[
            Piece {
                at: 204,
                x: 0,
                y: 0,
                n: 2,
            },
            Piece {
                at: 206,
                x: 0,
                y: 1,
                n: 2,
            },
        ],
    },
    // texel (1, 1) is the seventh of strip 0, (1, 2) the second of strip 1
    PiecesCase {
        file: RGB_STRIPS,
        level: 0,
        place: (1, 1, 3, 2),
        pieces: &[
            Piece {
                at: 136,
                x: 1,
                y: 1,
                n: 3,
            },
            Piece {
                at: 306,
                x: 1,
                y: 2,
                n: 3,
            },
        ],
    },
    // texel (79, 47) is in tile 3, at column 15 and row 15 of it
    PiecesCase {
        file: TILED,
        level: 0,
        place: (79, 47, 1, 1),
        pieces: &[Piece {
            at: 42898,
            x: 79,
            y: 47,
            n: 1,
        }],
    },
    // around the corner where the four tiles meet
    PiecesCase {
        file: TILED,
        level: 0,
        place: (60, 31, 20, 2),
        pieces: &[
            Piece {
                at: 12448,
                x: 60,
                y: 31,
                n: 4,
            },
            Piece {
                at: 24376,
                x: 64,
                y: 31,
                n: 16,
            },
            Piece {
                at: 25120,
                x: 60,
                y: 32,
                n: 4,
            },
            Piece {
                at: 37048,
                x: 64,
                y: 32,
                n: 16,
            },
        ],
    },
    PiecesCase {
        file: EDGES,
        level: 0,
        place: (0, 16, 20, 1),
        pieces: &[
            Piece {
                at: 24760,
                x: 0,
                y: 16,
                n: 16,
            },
            Piece {
                at: 37048,
                x: 16,
                y: 16,
                n: 4,
            },
        ],
    },
    // column 2 and row 3 of tile 1
    PiecesCase {
        file: EDGES,
        level: 0,
        place: (18, 3, 2, 1),
        pieces: &[Piece {
            at: 12672,
            x: 18,
            y: 3,
            n: 2,
        }],
    },
];

/// Whether `count` texels from `from` on lie on a side.
fn lies_on(from: u32, count: u32, side: u32) -> bool
    ensures { IsTrue result ↔ from + count ≤ side }
{
    from <= side && count <= side - from
}

/// Whether the level is stored and contains the rectangle.
pub(crate) fn has_rect(layout: &Layout, level: u32, rect: Rect) -> bool
    ensures stored { IsTrue result → level < stored_count layout.now }
    ensures inside { IsTrue result → LiesOnLevel layout.now level rect }
{
    if level >= layout.stored() {
        return false;
    }
    let (width, height) = layout.size(level);
    lies_on(rect.x, rect.w, width) && lies_on(rect.y, rect.h, height)
}

fn check_pieces(checks: &mut Checks, layout: &Layout, case: &PiecesCase) {
    let mut count = 0;
    let rect = rect_of(case.place);
    if has_rect(layout, case.level, rect) {
        for piece in layout.pieces(case.level, rect) {
            if let Some(wanted) = case.pieces.get(count) {
                checks.equal("a piece's place", piece.at, wanted.at);
                checks.equal("a piece's column", u64::from(piece.x), u64::from(wanted.x));
                checks.equal("a piece's row", u64::from(piece.y), u64::from(wanted.y));
                checks.equal("a piece's texels", u64::from(piece.n), u64::from(wanted.n));
            }
            count = count.saturating_add(1);
        }
    } else {
        checks.holds("a stored level with the rectangle", false);
    }
    checks.equal("pieces", count as u64, case.pieces.len() as u64);
}

#[test]
fn lays_out_levels_samples_and_pieces(rt: HostRuntime) -> Result<(), Fail> {
    let mut checks = Checks::new();
    for case in LEVELS {
        checks.case(case.file.name);
        check_levels(&mut checks, &layout_of(rt.alloc(), &case.file)?, case);
    }
    for case in SAMPLES {
        checks.case(case.file.name);
        check_samples(&mut checks, &layout_of(rt.alloc(), &case.file)?, case);
    }
    for case in PIECES {
        checks.case(case.file.name);
        check_pieces(&mut checks, &layout_of(rt.alloc(), &case.file)?, case);
    }
    checks.result()
}
