//! A file table over files in memory, with five taps.
ghost use Rattle.std.specs.Prelude.{◌≡◌, ◌<◌};

use file_table::Files;
use gen_board::View;
use std::alloc::Global;
use std::test::Fail;
use test_files::{Pictures, Planned, taps_of};
use tex_world::{MemTap, Tap};
use tiff_format::Cut;

/// A table of all four files, its first view, and some taps.
#[derive(Drop)]
pub(crate) struct Bench<T: Tap> {
    pub(crate) files: Files<T>,
    pub(crate) view: View<T::W>,
    pub(crate) taps: Vec<T>,
    ghost count: { files.board.files ≡ 4 },
    ghost board: { view.board ≡ files.board },
}

/// For tap 1 the newest generation of `A.tif` is 2; the first call of tap 2 fails; and tap 3 meets
/// generation 2 when it first reads byte 9 of `A.tif`.
const PLAN: &[Planned] = &[
    Planned::Newest {
        tap: 1,
        file: 0,
        generation: 2,
    },
    Planned::FailCall { tap: 2, call: 1 },
    Planned::Rise {
        tap: 3,
        file: 0,
        at: 9,
        to: 2,
    },
];

/// Makes a table with five taps.
pub(crate) fn memory_bench(alloc: Global, cap: usize) -> Result<Bench<MemTap<Pictures>>, Fail>
    requires { 0 < cap }
{
    Bench::new(alloc, cap, taps_of(alloc, PLAN, 5)?)
}

impl<T: Tap + Drop> Bench<T> {
    /// Makes the table, with at most `cap` idle handles.
    fn new(alloc: Global, cap: usize, taps: Vec<T>) -> Result<Bench<T>, Fail>
        requires { 0 < cap }
    {
        let cut = Cut {
            autotile: 64,
            automip: true,
        };
        let (files, view) = Files::new(alloc, 4, cap, cut)?;
        Ok(Bench { files, view, taps })
    }
}
