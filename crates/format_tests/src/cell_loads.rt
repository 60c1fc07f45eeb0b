//! Cells of a file in memory, loaded through taps and put into a shard.
ghost use Rattle.std.specs.Prelude.{◌≡◌, IfOk};
ghost use Rattle.std.specs.Option.{ForSome};
ghost use Rattle.tile_load.specs.Load.{IsLayoutOf};

use crate::layouts::cut_of;
use crate::shard_calls::{check_counts, find, insert, release};
use crate::tiles::is_row;
use std::alloc::Global;
use std::test::Fail;
use tap_reader::{OpenFile, ReadAhead, TapReader};
use test_files::{Checks, Planned, TiledFile, plan_of};
use tex_world::{Folder, MemFolder, MemTap, TableWorld, Tap, TapHandle, World};
use tiff_dirs::read_dirs;
use tiff_format::Rect;
use tile_layout::{Layout, TileKey};
use tile_load::{LoadError, load_at};
use tile_store::{Shard, Tile};

/// The layout of a handle's bytes.
fn layout_of<T: Tap>(alloc: Global, tap: &mut T, handle: &mut T::Handle) -> Result<Layout, Fail>
    ensures same { IfOk result (λ layout.
        T.Handle.named handle.new ≡ T.Handle.named handle.old) }
    ensures told { IfOk result (λ layout. ForSome (T.W.files.held
        (T.Handle.named handle.old).file (T.Handle.named handle.old).generation)
        (λ bytes. IsLayoutOf bytes layout)) }
{
    let mut reader = TapReader { tap, handle };
    match read_dirs(alloc, &mut reader) {
        Ok(dirs) => Ok(Layout::of(dirs)),
        Err(_) => Err("no layout".into()),
    }
}

/// What loading the cell of a texel answers.
fn load_cell<T: Tap>(
    alloc: Global,
    tap: &mut T,
    open: &mut OpenFile<T>,
    (x, y): (u32, u32),
) -> Result<Result<Tile<T::W>, LoadError>, Fail> {
    let layout = layout_of(alloc, tap, &mut open.handle)?;
    let cut = cut_of(16, false).ok_or("no such cut")?;
    let (width, height) = layout.size(0);
    let (file, generation) = (open.handle.file(), open.handle.generation());
    if x >= width || y >= height || file > 4095 || generation < 1 || generation > 1_048_575 {
        return Err("no such texel".into());
    }
    if !layout.fits(cut) {
        return Err("a large cell".into());
    }
    let key = TileKey::new(generation, file, 0, layout.cell_at(0, cut, x, y));
    Ok(load_at(alloc, tap, open, &layout, key, cut))
}

/// A cell: its index, its rectangle, and the samples of its first and last texel.
#[derive(Clone, Copy)]
struct Cell {
    index: u32,
    rect: Rect,
    first: &'static [u16],
    last: &'static [u16],
}

/// The expected result of loading a cell.
#[derive(Clone, Copy)]
enum Wanted {
    Cell(Cell),
    Fault,
    Gone(u32),
}

/// Whether the first and the last texel of a tile have these samples.
fn has_ends<W: World>(tile: &Tile<W>, first: &[u16], last: &[u16]) -> bool {
    let rect = tile.rect();
    if rect.w < 1 || rect.h < 1 || rect.x > 99 || rect.y > 99 || rect.w > 99 || rect.h > 99 {
        return false;
    }
    let (right, bottom) = (rect.x + rect.w - 1, rect.y + rect.h - 1);
    is_row(&tile.row(rect.x, rect.y, 1), first) && is_row(&tile.row(right, bottom, 1), last)
}

fn is_cell<W: World>(tile: &Tile<W>, cell: Cell) -> bool {
    let (rect, wanted) = (tile.rect(), cell.rect);
    tile.key().index() == cell.index
        && rect.x == wanted.x
        && rect.y == wanted.y
        && rect.w == wanted.w
        && rect.h == wanted.h
        && has_ends(tile, cell.first, cell.last)
}

fn is_wanted<W: World>(answer: Result<Tile<W>, LoadError>, wanted: Wanted) -> bool {
    match (answer, wanted) {
        (Ok(tile), Wanted::Cell(cell)) => is_cell(&tile, cell),
        (Err(LoadError::ReadFault), Wanted::Fault) => true,
        (Err(LoadError::Gone(to)), Wanted::Gone(met)) => to == met,
        _ => false,
    }
}

/// A tap, and the file open at its first generation.
#[derive(Drop)]
struct Opened {
    tap: MemTap<TiledFile>,
    open: OpenFile<MemTap<TiledFile>>,
}

/// Opens the file through the only tap of a plan.
fn open_first(alloc: Global, plan: &[Planned]) -> Result<Opened, Fail> {
    let mut folder = MemFolder::new(plan_of(alloc, plan)?);
    let mut tap = folder.tap(alloc)?;
    let Ok(handle) = tap.open(alloc, 0, 1) else {
        return Err("not open".into());
    };
    let ahead = ReadAhead::none(alloc, 0, handle.generation());
    Ok(Opened {
        tap,
        open: OpenFile { handle, ahead },
    })
}

/// What loading the cell of a texel answers.
struct LoadCase {
    name: &'static str,
    plan: &'static [Planned],
    texel: (u32, u32),
    wanted: Wanted,
}

/// Cell 0.
const FIRST: Wanted = Wanted::Cell(Cell {
    index: 0,
    rect: Rect {
        x: 0,
        y: 0,
        w: 64,
        h: 32,
    },
    first: &[47289, 47803, 48317],
    last: &[42920, 43434, 43948],
});

/// Cell 1.
const SECOND: Wanted = Wanted::Cell(Cell {
    index: 1,
    rect: Rect {
        x: 64,
        y: 0,
        w: 16,
        h: 32,
    },
    first: &[44462, 44976, 45490],
    last: &[30584, 31098, 31612],
});

/// Cell 2.
const THIRD: Wanted = Wanted::Cell(Cell {
    index: 2,
    rect: Rect {
        x: 0,
        y: 32,
        w: 64,
        h: 16,
    },
    first: &[41635, 42149, 42663],
    last: &[6426, 6940, 7454],
});

/// Cell 3.
const FOURTH: Wanted = Wanted::Cell(Cell {
    index: 3,
    rect: Rect {
        x: 64,
        y: 32,
        w: 16,
        h: 16,
    },
    first: &[38808, 39322, 39836],
    last: &[58597, 59111, 59625],
});

/// The read of cell 0 fails.
const FAILS: &[Planned] = &[Planned::FailByte {
    tap: 0,
    file: 0,
    at: 184,
}];

/// The read of cell 1 meets generation 2.
const RISES: &[Planned] = &[Planned::Rise {
    tap: 0,
    file: 0,
    at: 12472,
    to: 2,
}];

static CASES: &[LoadCase] = &[
    LoadCase {
        name: "cell 0",
        plan: &[],
        texel: (63, 31),
        wanted: FIRST,
    },
    LoadCase {
        name: "cell 1",
        plan: &[],
        texel: (64, 31),
        wanted: SECOND,
    },
    LoadCase {
        name: "cell 2",
        plan: &[],
        texel: (0, 32),
        wanted: THIRD,
    },
    LoadCase {
        name: "cell 3",
        plan: &[],
        texel: (79, 47),
        wanted: FOURTH,
    },
    LoadCase {
        name: "a read that fails",
        plan: FAILS,
        texel: (0, 0),
        wanted: Wanted::Fault,
    },
    LoadCase {
        name: "the byte that fails is in another cell",
        plan: FAILS,
        texel: (64, 0),
        wanted: SECOND,
    },
    LoadCase {
        name: "the newer generation appears in another cell",
        plan: RISES,
        texel: (0, 0),
        wanted: FIRST,
    },
    LoadCase {
        name: "a read that meets a newer generation",
        plan: RISES,
        texel: (64, 0),
        wanted: Wanted::Gone(2),
    },
];

// Each cell is one read. Before come the opening and six reads of the directory.
fn check_load(alloc: Global, checks: &mut Checks, case: &LoadCase) -> Result<(), Fail> {
    let Opened { mut tap, mut open } = open_first(alloc, case.plan)?;
    let answer = load_cell(alloc, &mut tap, &mut open, case.texel)?;
    checks.holds("the answer", is_wanted(answer, case.wanted));
    checks.equal("calls", tap.calls(), 8);
    Ok(())
}

#[test]
fn loads_cells_as_each_case_says(rt: HostRuntime) -> Result<(), Fail> {
    let mut checks = Checks::new();
    for case in CASES {
        checks.case(case.name);
        check_load(rt.alloc(), &mut checks, case)?;
    }
    checks.result()
}

const SHARE: u64 = 4000;

const SLOTS: u32 = 1031;

type OneShard = Shard<TableWorld<TiledFile>>;

// Loads cells 0 and 1 into a shard, and returns how many are kept.
fn load_two(alloc: Global, shard: &mut OneShard) -> Result<u64, Fail> {
    let Opened { mut tap, mut open } = open_first(alloc, &[])?;
    let mut kept = 0u64;
    for texel in [(0, 0), (64, 0)] {
        let Ok(tile) = load_cell(alloc, &mut tap, &mut open, texel)? else {
            return Err("not loaded".into());
        };
        if insert(shard, tile, SLOTS) {
            kept = kept.saturating_add(1);
        }
    }
    Ok(kept)
}

// Cells 0 and 1, of 12288 and 3072 bytes, in a shard with a share of 4000.
#[test]
fn keeps_what_fits_the_share(rt: HostRuntime) -> Result<(), Fail> {
    let mut checks = Checks::new();
    let mut shard = OneShard::with_slots(rt.alloc(), SLOTS)?;
    let (large, small) = (TileKey::new(1, 0, 0, 0), TileKey::new(1, 0, 0, 1));
    checks.case("both are loaded");
    checks.equal("tiles that are kept", load_two(rt.alloc(), &mut shard)?, 2);
    check_counts(&mut checks, &shard, [2, 2, 0]);
    checks.case("the small one is released");
    checks.holds("it was pinned", release(&mut shard, small, SHARE));
    check_counts(&mut checks, &shard, [2, 1, 3072]);
    checks.case("the large one, the last unpinned, is released");
    checks.holds("it was pinned", release(&mut shard, large, SHARE));
    check_counts(&mut checks, &shard, [1, 0, 3072]);
    checks.case("what is found");
    checks.holds("the large one is gone", !find(&mut shard, large));
    checks.holds("the small one is there", find(&mut shard, small));
    check_counts(&mut checks, &shard, [1, 1, 0]);
    checks.result()
}
