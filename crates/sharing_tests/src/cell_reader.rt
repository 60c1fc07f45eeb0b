//! Loads cells of files in memory, call by call, and checks each answer and the number of calls to
//! the tap.
ghost use Rattle.std.specs.Prelude.{ℕ, ◌^◌, ◌<◌, ◌≤◌};
ghost use Rattle.tex_world.specs.World.{IsFile};

use crate::cell_reader::Answer::{Again, Cell, Done, Fault, Gone, Kept, Wrong};
use crate::cell_reader::Call::{Aheads, Forget, Hold, Load, Scan, Settle};
use crate::script::Shows;
use crate::seat::Seat;
use file_table::{FileError, Record};
use std::alloc::Global;
use std::sync::Arc;
use tap_reader::OpenFile;
use test_files::Checks;
use tex_world::{Tap, TapHandle, World};
use tile_layout::TileKey;
use tile_load::{LoadError, load};
use tile_store::Tile;
use waiter::Tries;

/// A call, of a tap or of the table. Files are numbered from 0.
#[derive(Clone, Copy)]
pub(crate) enum Call {
    /// Loads the cell of a texel of a file, given by column and row, through a tap and a handle
    /// that the table lends. The handle is settled unless the load fails.
    Load(usize, u32, (u32, u32)),
    /// Loads this many cells of a file one after another, out of eight in a row, each 16 by 16.
    Scan(usize, u32, u32),
    /// Lends a file through a tap, for the record of its newest known generation.
    Hold(usize, u32),
    /// Settles the file that `Hold` lent.
    Settle,
    /// Drops what is idle of a file.
    Forget(u32),
    /// The number of files whose read-ahead is kept.
    Aheads,
}

/// What a call answers.
#[derive(Clone, Copy, PartialEq, Eq)]
pub(crate) enum Answer {
    /// The cell in this generation, with the texels of the file.
    Cell(u32),
    Fault,
    /// A read met this generation.
    Gone(u32),
    /// The file was opened in this generation, which is newer than its record.
    Again(u32),
    /// The number of files with read-ahead.
    Kept(usize),
    Done,
    /// Anything else.
    Wrong,
}

impl Answer {
    fn word(self) -> &'static str {
        match self {
            Cell(_) => "Cell",
            Fault => "Fault",
            Gone(_) => "Gone",
            Again(_) => "Again",
            Kept(_) => "Kept",
            Done => "Done",
            Wrong => "Wrong",
        }
    }

    /// The number in the answer.
    fn number(self) -> u64 {
        match self {
            Cell(generation) => u64::from(generation),
            Gone(to) => u64::from(to),
            Again(to) => u64::from(to),
            Kept(count) => count as u64,
            _ => 0,
        }
    }
}

/// A call, its answer, and how many calls its tap gets.
pub(crate) type Step = (Call, Answer, u64);

/// The place of sample c of a texel in the file of nine levels.
fn place_in_levels(x: u64, y: u64, c: u64) -> u64
    requires { (x ≤ 2 ^ 32) × (y ≤ 2 ^ 32) × (c ≤ 2 ^ 32) }
{
    let tile = y / 64 * 4 + x / 64;
    1186 + tile * 12288 + (y % 64 * 64 + x % 64) * 3 + c
}

/// The place of a texel in the tiled file.
fn place_in_tiles(x: u64, y: u64) -> u64
    requires { (x ≤ 2 ^ 32) × (y ≤ 2 ^ 32) }
{
    let tile = y / 16 * 8 + x / 16;
    314 + tile * 256 + y % 16 * 16 + x % 16
}

/// The place of a texel in the file of four strips.
fn place_in_strips(x: u64, y: u64) -> u64
    requires { (x ≤ 2 ^ 32) × (y ≤ 2 ^ 32) }
{
    let strip = match y / 8 {
        0 => 138,
        1 => 67338,
        2 => 33738,
        _ => 100938,
    };
    strip + y % 8 * 4200 + x
}

/// Sample c of a texel of a file: the byte at its place.
fn sample_of(key: TileKey, x: u32, y: u32, c: u32) -> u16 {
    let (x, y, c) = (u64::from(x), u64::from(y), u64::from(c));
    let at = match key.file() {
        5 => 164 + c * 134400 + y * 4200 + x,
        6 => place_in_levels(x, y, c),
        7 => place_in_strips(x, y),
        8 => place_in_tiles(x, y),
        _ => 122 + c * 134400 + y * 4200 + x,
    };
    let modulus = if key.generation() == 2 { 241 } else { 251 };
    (at % modulus) as u16
}

/// Whether the texels of the cell are those of its file, one byte each.
fn is_told<W: World>(tile: &Tile<W>) -> bool {
    let (key, rect, channels) = (tile.key(), tile.rect(), tile.channels());
    if !tile.has_bytes() || rect.x > 4200 || rect.y > 256 || rect.w > 64 || rect.h > 64 {
        return false;
    }
    for k in 0..rect.h {
        for i in 0..rect.w {
            for c in 0..channels {
                let (x, y) = (rect.x + i, rect.y + k);
                if tile.texel(x, y, c) != sample_of(key, x, y, c) {
                    return false;
                }
            }
        }
    }
    channels
        == if key.file() == 5 || key.file() == 6 {
            3
        } else {
            1
        }
}

/// A table with a view, some taps, and a lent file.
#[derive(Drop)]
pub(crate) struct Visitor<'a, T: Tap + Drop> {
    pub(crate) alloc: Global,
    pub(crate) seat: Seat<'a, T>,
    pub(crate) taps: Vec<T>,
    pub(crate) held: Option<OpenFile<T>>,
}

/// Loads the cell of a texel of level 0 of an open file.
fn load_cell<T: Tap>(
    alloc: Global,
    tap: &mut T,
    open: &mut OpenFile<T>,
    known: &Record<T::W>,
    (x, y): (u32, u32),
) -> Option<Result<Tile<T::W>, LoadError>> {
    let (file, generation) = (known.file(), known.generation());
    let cut = known.cut();
    let layout = match known.layout() {
        Ok(layout) => layout,
        Err(_) => return None,
    };
    let is_other = open.handle.file() != file || open.handle.generation() != generation;
    if is_other || file > 4095 || cut.autotile != 16 || !known.fits() {
        return None;
    }
    // needed by the proof: level 0 is stored, and one of the levels
    let _stored = layout.stored();
    let _levels = layout.levels(cut);
    let (width, height) = layout.size(0);
    if x >= width || y >= height {
        return None;
    }
    let key = TileKey::new(generation, file, 0, layout.cell_at(0, cut, x, y));
    Some(load(alloc, tap, open, known, key, cut))
}

/// What loading a cell gave.
fn answer_of<W: World>(loaded: Option<Result<Tile<W>, LoadError>>) -> Answer {
    match loaded {
        Some(Ok(tile)) if is_told(&tile) => Cell(tile.key().generation()),
        Some(Err(LoadError::ReadFault)) => Fault,
        Some(Err(LoadError::Gone(to))) => Gone(to),
        _ => Wrong,
    }
}

impl<T: Tap + Drop + Shows> Visitor<'_, T> {
    /// Makes the calls, each as a part of the case.
    pub(crate) fn check(&mut self, checks: &mut Checks, steps: &[Step])
        requires { (file : ℕ) → file < 9 → IsFile T.W.files file }
    {
        for (call, wanted, calls) in steps {
            let before = self.calls(*call);
            let answer = self.answer(*call);
            let rise = self.calls(*call).saturating_sub(before);
            checks.part("a call");
            checks.word("the answer", answer.word(), wanted.word());
            checks.equal("the answer's number", answer.number(), wanted.number());
            checks.equal("calls of the tap", rise, *calls);
        }
    }

    /// The number of calls of a call's tap so far.
    fn calls(&self, call: Call) -> u64 {
        let tap = match call {
            Load(tap, _, _) => tap,
            Scan(tap, _, _) => tap,
            Hold(tap, _) => tap,
            _ => 0,
        };
        match self.taps.get(tap) {
            Some(tap) => tap.shown()[0],
            None => 0,
        }
    }

    fn answer(&mut self, call: Call) -> Answer
        requires { (file : ℕ) → file < 9 → IsFile T.W.files file }
    {
        match call {
            Load(tap, file, texel) if file < 9 => self.load(tap, file, texel),
            Scan(tap, file, cells) if file < 9 => self.scan(tap, file, cells),
            Hold(tap, file) if file < 9 => self.hold(tap, file),
            Settle => self.settle(),
            Forget(file) => match self.seat.forget(&Tries::new(9), file) {
                Ok(()) => Done,
                Err(_) => Wrong,
            },
            Aheads => match self.seat.files.aheads(&Tries::new(9)) {
                Ok(count) => Kept(count),
                Err(_) => Wrong,
            },
            _ => Wrong,
        }
    }

    /// Lends a file for its record.
    fn lend(&mut self, tap: usize, file: u32) -> Result<(Arc<Record<T::W>>, OpenFile<T>), Answer>
        requires { IsFile T.W.files file }
    {
        let Some(tap) = self.taps.get_mut(tap) else {
            return Err(Wrong);
        };
        let known = match self.seat.record(&Tries::new(9), tap, file) {
            Ok(known) => known,
            Err(FileError::ReadFault) => return Err(Fault),
            Err(_) => return Err(Wrong),
        };
        match self.seat.lend(&Tries::new(9), tap, file, &known) {
            Ok(open) => Ok((known, open)),
            Err(FileError::Again { from: _, to }) => Err(Again(to)),
            Err(_) => Err(Wrong),
        }
    }

    /// The answer for the last of these cells, or for the first with another answer.
    fn scan(&mut self, tap: usize, file: u32, cells: u32) -> Answer
        requires { IsFile T.W.files file }
    {
        let mut answer = Wrong;
        for cell in 0..cells.min(48) {
            answer = self.load(tap, file, (cell % 8 * 16, cell / 8 * 16));
            if answer != Cell(1) {
                return answer;
            }
        }
        answer
    }

    fn hold(&mut self, tap: usize, file: u32) -> Answer
        requires { IsFile T.W.files file }
    {
        match self.lend(tap, file) {
            Ok((_known, open)) => {
                self.held = Some(open);
                Done
            }
            Err(answer) => answer,
        }
    }

    fn settle(&mut self) -> Answer {
        match self.held.take() {
            Some(open) => self.settle_file(open),
            None => Wrong,
        }
    }

    fn settle_file(&self, open: OpenFile<T>) -> Answer {
        match self.seat.files.settle(&Tries::new(9), open) {
            Ok(()) => Done,
            Err(_busy) => Wrong,
        }
    }

    fn load(&mut self, tap: usize, file: u32, texel: (u32, u32)) -> Answer
        requires { IsFile T.W.files file }
    {
        match self.lend(tap, file) {
            Ok((known, mut open)) => match self.load_open(tap, &known, &mut open, texel) {
                Cell(generation) => self.settled_cell(open, generation),
                answer => answer,
            },
            Err(answer) => answer,
        }
    }

    /// Loads a cell of an open file.
    fn load_open(
        &mut self,
        tap: usize,
        known: &Record<T::W>,
        open: &mut OpenFile<T>,
        texel: (u32, u32),
    ) -> Answer {
        match self.taps.get_mut(tap) {
            Some(tap) => answer_of(load_cell(self.alloc, tap, open, known, texel)),
            None => Wrong,
        }
    }

    /// Settles the file of a cell that was loaded.
    fn settled_cell(&self, open: OpenFile<T>, generation: u32) -> Answer {
        match self.settle_file(open) {
            Done => Cell(generation),
            _ => Wrong,
        }
    }
}
