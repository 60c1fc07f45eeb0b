//! The cells of levels: how many there are, which one holds a texel, and its rectangle.

use crate::files::{EDGES, LARGE, PAGES, SMALL, TILED, WIDEST};
use crate::layouts::{Place, cut_of, layout_of};
use std::test::Fail;
use test_files::Edit::{Put, Resize};
use test_files::{Base, Checks, ImageFile};
use tile_layout::Layout;

/// A texel of a level of a file that is cut into squares of the side `autotile`: the numbers of
/// cells across and down, and the index and the rectangle of the texel's cell.
struct CellCase {
    file: ImageFile,
    level: u32,
    autotile: u32,
    texel: (u32, u32),
    cells: (u32, u32),
    index: u32,
    place: Place,
}

static CELLS: &[CellCase] = &[
    CellCase {
        file: SMALL,
        level: 0,
        autotile: 64,
        texel: (3, 3),
        cells: (1, 1),
        index: 0,
        place: (0, 0, 4, 4),
    },
    CellCase {
        file: SMALL,
        level: 1,
        autotile: 16,
        texel: (1, 0),
        cells: (1, 1),
        index: 0,
        place: (0, 0, 2, 2),
    },
    // 100 by 80 in strips
    CellCase {
        file: PAGES,
        level: 0,
        autotile: 64,
        texel: (63, 63),
        cells: (2, 2),
        index: 0,
        place: (0, 0, 64, 64),
    },
    CellCase {
        file: PAGES,
        level: 0,
        autotile: 64,
        texel: (64, 0),
        cells: (2, 2),
        index: 1,
        place: (64, 0, 36, 64),
    },
    CellCase {
        file: PAGES,
        level: 0,
        autotile: 64,
        texel: (63, 64),
        cells: (2, 2),
        index: 2,
        place: (0, 64, 64, 16),
    },
    CellCase {
        file: PAGES,
        level: 0,
        autotile: 64,
        texel: (99, 79),
        cells: (2, 2),
        index: 3,
        place: (64, 64, 36, 16),
    },
    CellCase {
        file: PAGES,
        level: 0,
        autotile: 32,
        texel: (99, 79),
        cells: (4, 3),
        index: 11,
        place: (96, 64, 4, 16),
    },
    CellCase {
        file: PAGES,
        level: 0,
        autotile: 32,
        texel: (31, 32),
        cells: (4, 3),
        index: 4,
        place: (0, 32, 32, 32),
    },
    CellCase {
        file: PAGES,
        level: 0,
        autotile: 0,
        texel: (99, 79),
        cells: (1, 1),
        index: 0,
        place: (0, 0, 100, 80),
    },
    CellCase {
        file: PAGES,
        level: 0,
        autotile: 4096,
        texel: (99, 79),
        cells: (1, 1),
        index: 0,
        place: (0, 0, 100, 80),
    },
    // its level of 50 by 40
    CellCase {
        file: PAGES,
        level: 1,
        autotile: 32,
        texel: (32, 31),
        cells: (2, 2),
        index: 1,
        place: (32, 0, 18, 32),
    },
    CellCase {
        file: PAGES,
        level: 1,
        autotile: 0,
        texel: (49, 39),
        cells: (1, 1),
        index: 0,
        place: (0, 0, 50, 40),
    },
    // 80 by 48 in tiles of 64 by 32, whatever the cut is
    CellCase {
        file: TILED,
        level: 0,
        autotile: 16,
        texel: (63, 31),
        cells: (2, 2),
        index: 0,
        place: (0, 0, 64, 32),
    },
    CellCase {
        file: TILED,
        level: 0,
        autotile: 0,
        texel: (64, 31),
        cells: (2, 2),
        index: 1,
        place: (64, 0, 16, 32),
    },
    CellCase {
        file: TILED,
        level: 0,
        autotile: 16,
        texel: (63, 32),
        cells: (2, 2),
        index: 2,
        place: (0, 32, 64, 16),
    },
    CellCase {
        file: TILED,
        level: 0,
        autotile: 16,
        texel: (79, 47),
        cells: (2, 2),
        index: 3,
        place: (64, 32, 16, 16),
    },
    // its level of 40 by 24, divided like level 0
    CellCase {
        file: TILED,
        level: 1,
        autotile: 16,
        texel: (39, 23),
        cells: (1, 1),
        index: 0,
        place: (0, 0, 40, 24),
    },
    CellCase {
        file: EDGES,
        level: 0,
        autotile: 64,
        texel: (19, 0),
        cells: (2, 2),
        index: 1,
        place: (16, 0, 4, 16),
    },
    CellCase {
        file: EDGES,
        level: 0,
        autotile: 64,
        texel: (0, 16),
        cells: (2, 2),
        index: 2,
        place: (0, 16, 16, 1),
    },
    CellCase {
        file: EDGES,
        level: 0,
        autotile: 64,
        texel: (16, 16),
        cells: (2, 2),
        index: 3,
        place: (16, 16, 4, 1),
    },
    CellCase {
        file: WIDEST,
        level: 0,
        autotile: 16,
        texel: (131_071, 0),
        cells: (8192, 1),
        index: 8191,
        place: (131_056, 0, 16, 1),
    },
];

/// Checks the cell of a texel, if there is such a cut, level and texel.
fn check_cell(checks: &mut Checks, layout: &Layout, case: &CellCase) -> Option<()> {
    let cut = cut_of(case.autotile, true)?;
    if case.level >= layout.levels(cut) {
        return None;
    }
    let (width, height) = layout.size(case.level);
    let (x, y) = case.texel;
    if x >= width || y >= height {
        return None;
    }
    let index = layout.cell_at(case.level, cut, x, y);
    let rect = layout.cell_rect(case.level, cut, index);
    let (across, down) = layout.cells(case.level, cut);
    let (x, y, w, h) = case.place;
    checks.equal("cells across", u64::from(across), u64::from(case.cells.0));
    checks.equal("cells down", u64::from(down), u64::from(case.cells.1));
    checks.equal("index", u64::from(index), u64::from(case.index));
    checks.equal("x", u64::from(rect.x), u64::from(x));
    checks.equal("y", u64::from(rect.y), u64::from(y));
    checks.equal("w", u64::from(rect.w), u64::from(w));
    checks.equal("h", u64::from(rect.h), u64::from(h));
    Some(())
}

/// A file, the side of the cut, and whether each cell takes at most 32 MiB.
struct FitsCase {
    file: ImageFile,
    autotile: u32,
    fits: bool,
}

static FITS: &[FitsCase] = &[
    // 8192 by 4096, one channel of 8 bits
    FitsCase {
        file: LARGE,
        autotile: 0,
        fits: false,
    },
    FitsCase {
        file: LARGE,
        autotile: 64,
        fits: true,
    },
    FitsCase {
        file: LARGE,
        autotile: 4096,
        fits: true,
    },
    // 4096 by 4096, and one row more
    FitsCase {
        file: ImageFile {
            name: "4096 by 4096",
            base: Base::Small,
            edits: &[
                Resize(16777338),
                Put(18, &[0, 16]),
                Put(30, &[0, 16]),
                Put(102, &[0, 16]),
            ],
        },
        autotile: 0,
        fits: true,
    },
    FitsCase {
        file: ImageFile {
            name: "4096 by 4097",
            base: Base::Small,
            edits: &[
                Resize(16781434),
                Put(18, &[0, 16]),
                Put(30, &[1, 16]),
                Put(102, &[255, 255]),
            ],
        },
        autotile: 0,
        fits: false,
    },
    FitsCase {
        file: TILED,
        autotile: 0,
        fits: true,
    },
];

/// Whether there is such a cut, and its cells are small enough as expected.
fn fits_as(layout: &Layout, case: &FitsCase) -> bool {
    match cut_of(case.autotile, true) {
        Some(cut) => layout.fits(cut) == case.fits,
        None => false,
    }
}

#[test]
fn cuts_levels_into_cells(rt: HostRuntime) -> Result<(), Fail> {
    let mut checks = Checks::new();
    for case in CELLS {
        checks.case(case.file.name);
        let layout = layout_of(rt.alloc(), &case.file)?;
        let is_there = check_cell(&mut checks, &layout, case).is_some();
        checks.holds("such a cut, level and texel", is_there);
    }
    for case in FITS {
        checks.case(case.file.name);
        let layout = layout_of(rt.alloc(), &case.file)?;
        checks.holds("whether its cells fit", fits_as(&layout, case));
    }
    checks.result()
}
