//! Tiles loaded for records of a file in memory.

use crate::seat::Seat;
use file_table::{Files, Record};
use std::alloc::Global;
use std::test::Fail;
use tap_reader::OpenFile;
use test_files::{Checks, Pictures, Planned, taps_of};
use tex_world::{MemTap, TableWorld, Tap, TapHandle, World};
use tiff_format::{Cut, Rect};
use tile_layout::TileKey;
use tile_load::{LoadError, load};
use tile_store::{SampleRow, Tile};
use waiter::Tries;

type Source = MemTap<Pictures>;

type Told = TableWorld<Pictures>;

/// `B.tif`.
const B: u32 = 3;

/// Tap 1 knows generation 2, a read of byte 272 fails for tap 2, and at byte 512 tap 3 meets
/// generation 2.
const PLAN: &[Planned] = &[
    Planned::Newest {
        tap: 1,
        file: B,
        generation: 2,
    },
    Planned::FailByte {
        tap: 2,
        file: B,
        at: 272,
    },
    Planned::Rise {
        tap: 3,
        file: B,
        at: 512,
        to: 2,
    },
];

/// Loads the tile of the cell at a column of the first row.
fn loaded<T: Tap>(
    alloc: Global,
    tap: &mut T,
    open: &mut OpenFile<T>,
    known: &Record<T::W>,
    x: u32,
) -> Result<Result<Tile<T::W>, LoadError>, Fail> {
    let Ok(layout) = known.layout() else {
        return Err("a bad file".into());
    };
    let generation = known.generation();
    let cut = known.cut();
    if known.file() != B || open.handle.file() != B || open.handle.generation() != generation {
        return Err("another file".into());
    }
    if cut.autotile != 16 || !known.fits() {
        return Err("another cut".into());
    }
    // needed by the proof: level 0 is stored, and one of the levels
    let _stored = layout.stored();
    let _levels = layout.levels(cut);
    let (width, _height) = layout.size(0);
    if x >= width {
        return Err("no such texel".into());
    }
    let key = TileKey::new(generation, B, 0, layout.cell_at(0, cut, x, 0));
    Ok(load(alloc, tap, open, known, key, cut))
}

/// A tile: its generation and index, its rectangle, and its samples.
#[derive(Clone, Copy)]
struct LoadedTile {
    generation: u32,
    index: u32,
    rect: Rect,
    samples: &'static [u16],
}

/// The expected result of loading.
#[derive(Clone, Copy)]
enum Wanted {
    Tile(LoadedTile),
    Fault,
    Gone(u32),
}

/// Whether the row has these samples.
fn is_row(row: &SampleRow<'_>, samples: &[u16]) -> bool {
    if row.count() != samples.len() {
        return false;
    }
    for k in 0..samples.len() {
        if row.sample(k) != samples[k] {
            return false;
        }
    }
    true
}

/// Whether the rows of a tile of one channel have these samples, one row after another.
fn has_samples<W: World>(tile: &Tile<W>, samples: &[u16]) -> bool {
    let rect = tile.rect();
    if tile.channels() != 1 || rect.y > 99 || rect.h > 99 {
        return false;
    }
    let mut rest = samples;
    for k in 0..rect.h {
        let row = tile.row(rect.x, rect.y + k, rect.w);
        let Some(samples) = rest.get(..row.count()) else {
            return false;
        };
        if !is_row(&row, samples) {
            return false;
        }
        rest = &rest[row.count()..];
    }
    rest.is_empty()
}

/// Whether the tile has this generation, index and rectangle.
fn is_cell<W: World>(tile: &Tile<W>, wanted: LoadedTile) -> bool {
    let (key, rect) = (tile.key(), tile.rect());
    key.generation() == wanted.generation
        && key.index() == wanted.index
        && rect.x == wanted.rect.x
        && rect.y == wanted.rect.y
        && rect.w == wanted.rect.w
        && rect.h == wanted.rect.h
}

fn is_wanted<W: World>(answer: Result<Tile<W>, LoadError>, wanted: Wanted) -> bool {
    match (answer, wanted) {
        (Ok(tile), Wanted::Tile(wanted)) => {
            is_cell(&tile, wanted) && has_samples(&tile, wanted.samples)
        }
        (Err(LoadError::ReadFault), Wanted::Fault) => true,
        (Err(LoadError::Gone(to)), Wanted::Gone(met)) => to == met,
        _ => false,
    }
}

/// What loading answers for the record that a table reads through this tap.
fn load_first(
    alloc: Global,
    seat: &mut Seat<'_, Source>,
    tap: &mut Source,
    x: u32,
) -> Result<Result<Tile<Told>, LoadError>, Fail> {
    let waiter = Tries::new(9);
    let Ok(known) = seat.record(&waiter, tap, B) else {
        return Err("no record".into());
    };
    let Ok(mut open) = seat.lend(&waiter, tap, B, &known) else {
        return Err("no handle".into());
    };
    loaded(alloc, tap, &mut open, &known, x)
}

/// What loading answers for a new table.
fn answer(alloc: Global, tap: &mut Source, x: u32) -> Result<Result<Tile<Told>, LoadError>, Fail> {
    let cut = Cut {
        autotile: 16,
        automip: false,
    };
    let (files, view) = Files::<Source>::new(alloc, 4, 1, cut)?;
    let mut seat = Seat {
        files: &files,
        view,
    };
    load_first(alloc, &mut seat, tap, x)
}

/// Loading the cell at a column of the first row through a tap.
struct LoadCase {
    name: &'static str,
    tap: usize,
    x: u32,
    wanted: Wanted,
}

static CASES: &[LoadCase] = &[
    LoadCase {
        name: "a tile, without the rows below the level",
        tap: 0,
        x: 15,
        wanted: Wanted::Tile(LoadedTile {
            generation: 1,
            index: 0,
            rect: Rect {
                x: 0,
                y: 0,
                w: 16,
                h: 2,
            },
            samples: &[
                5, 6, 7, 8, 9, 10, 11, 12, 13, 14, 15, 16, 17, 18, 19, 20, 21, 22, 23, 24, 25, 26,
                27, 28, 29, 30, 31, 32, 33, 34, 35, 36,
            ],
        }),
    },
    LoadCase {
        name: "an edge tile",
        tap: 0,
        x: 17,
        wanted: Wanted::Tile(LoadedTile {
            generation: 1,
            index: 1,
            rect: Rect {
                x: 16,
                y: 0,
                w: 2,
                h: 2,
            },
            samples: &[10, 11, 26, 27],
        }),
    },
    LoadCase {
        name: "a cell of a strip",
        tap: 1,
        x: 2,
        wanted: Wanted::Tile(LoadedTile {
            generation: 2,
            index: 0,
            rect: Rect {
                x: 0,
                y: 0,
                w: 3,
                h: 1,
            },
            samples: &[10, 21, 30],
        }),
    },
    LoadCase {
        name: "a read that fails",
        tap: 2,
        x: 0,
        wanted: Wanted::Fault,
    },
    LoadCase {
        name: "the byte that fails is in another tile",
        tap: 2,
        x: 16,
        wanted: Wanted::Tile(LoadedTile {
            generation: 1,
            index: 1,
            rect: Rect {
                x: 16,
                y: 0,
                w: 2,
                h: 2,
            },
            samples: &[10, 11, 26, 27],
        }),
    },
    LoadCase {
        name: "a read that meets a newer generation",
        tap: 3,
        x: 16,
        wanted: Wanted::Gone(2),
    },
];

fn check_load(alloc: Global, checks: &mut Checks, case: &LoadCase) -> Result<(), Fail> {
    let mut taps = taps_of(alloc, PLAN, 4)?;
    let Some(source) = taps.get_mut(case.tap) else {
        return Err("no such tap".into());
    };
    let answer = answer(alloc, source, case.x)?;
    checks.holds("the answer", is_wanted(answer, case.wanted));
    Ok(())
}

#[test]
fn loads_as_each_case_says(rt: HostRuntime) -> Result<(), Fail> {
    let mut checks = Checks::new();
    for case in CASES {
        checks.case(case.name);
        check_load(rt.alloc(), &mut checks, case)?;
    }
    checks.result()
}
