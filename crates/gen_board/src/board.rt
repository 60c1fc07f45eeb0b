//! The board: the newest known generation of each file, shared by all threads.
ghost use Rattle.std.specs.Prelude.{◌≡◌, ◌<◌, ◌≤◌, IfOk};
ghost use Rattle.tex_world.specs.World.{IsReal};
ghost use Rattle.tex_world.specs.Tap.{IsLeast};
ghost use Rattle.gen_board.specs.View.{IsNewView, AfterStep, CountsLook, KeepsLooks};
ghost use Rattle.gen_board.specs.View.{IsSameView, ViewAfterJoin};

use crate::later::take_later;
use crate::rule::Generations;
use crate::sight::Sight;
use crate::steps::{Copied, JoinSights, LoadNumber, Raise};
use crate::view::View;
use atomic_table::Table;
use std::alloc::{AllocError, Global};
use std::cmp::max;
use std::marker::{Model, PhantomData};
use tex_world::{NoMemory, World};

/// The newest known generation of each file; 0 if none is known yet. Clauses see which board it is.
#[derive(Drop)]
pub struct Board<W: World> {
    table: Table<(), Sight, u32, Generations<W>, Global>,
    files: u32,
}

impl<W: World> Model for Board<W> {
    ghost use Rattle.gen_board.specs.View.{BoardId};
    ghost use Rattle.gen_board.specs.Seated.{IsLaid};

    ghost Value = { BoardId };

    ghost view = { λ b. record { files = b.files; table = b.table.shared.table_id } };

    ghost invariant = { λ b. IsLaid b.files b.table.shared.key b.table.shared.table_id.words };
}

fn made<W: World>(alloc: Global, files: u32) -> Result<(Board<W>, View<W>), AllocError>
    ensures { IfOk result (λ made. IsNewView files made.0 made.1) }
{
    let words = vec![in alloc; 0u64; max(1, files) as usize]?;
    let seen = vec![in alloc; 0u32; files as usize]?;
    let (table, seat) = Table::of_words(alloc, words.as_slice(), &files)?;
    let view = View {
        seat,
        seen,
        world: PhantomData,
    };
    Ok((Board { table, files }, view))
}

impl<W: World> Board<W> {
    /// A board of `files` files, none of them known, and its first view.
    pub fn new(alloc: Global, files: u32) -> Result<(Board<W>, View<W>), NoMemory>
        ensures ok { IfOk result (λ made. IsNewView files made.0 made.1) }
    {
        Ok(made(alloc, files)?)
    }

    /// The number of files.
    pub fn files(&self) -> u32
        ensures { result ≡ self.now.files }
    {
        self.files
    }

    /// The newest known generation of a file, or 0. Costs one atomic load.
    pub fn look(&self, v: &mut View<W>, file: u32) -> u32
        requires board { v.old.board ≡ self.now }
        requires file { file < self.now.files }
        ensures real { IsLeast W.files file result }
        ensures seen { AfterStep file result v.old v.new }
        ensures looked { CountsLook file result v.old v.new }
    {
        let shared = &self.table.shared;
        let found = shared.load::<LoadNumber<W>>(&mut v.seat, file as usize) as u32;
        v.seen[file as usize] = found;
        found
    }

    /// Raises a file's generation to at least `g`, and returns the newest one then known. Costs one
    /// atomic fetch-and-max.
    pub fn raise(&self, v: &mut View<W>, file: u32, g: u32) -> u32
        requires board { v.old.board ≡ self.now }
        requires file { file < self.now.files }
        requires real { IsReal W.files file g }
        ensures real { IsReal W.files file result }
        ensures least { g ≤ result }
        ensures seen { AfterStep file result v.old v.new }
        ensures looked { KeepsLooks v.old v.new }
    {
        let shared = &self.table.shared;
        let found = shared.fetch_max::<Raise<W>>(&mut v.seat, file as usize, g as u64) as u32;
        let newest = max(found, g);
        v.seen[file as usize] = newest;
        newest
    }

    /// Makes a second view, which starts with what `v` has seen and counted.
    pub fn split(&self, v: &mut View<W>) -> Result<View<W>, NoMemory>
        requires board { v.old.board ≡ self.now }
        ensures ok { IfOk result (IsSameView v.old) }
        ensures same { IsSameView v.old v.new }
    {
        let seen = v.seen.clone()?;
        let seat = self.table.shared.split_seat::<Copied>(&mut v.seat);
        Ok(View {
            seat,
            seen,
            world: PhantomData,
        })
    }

    /// Ends the other view: `v` has then seen the newer generation of each file.
    pub fn join(&self, v: &mut View<W>, other: View<W>)
        requires board { v.old.board ≡ self.now }
        requires other { other.board ≡ self.now }
        ensures seen { ViewAfterJoin other v.old v.new }
    {
        let View {
            seat,
            seen,
            world: _,
        } = other;
        take_later(&mut v.seen, seen.as_slice());
        self.table.shared.join_seat::<JoinSights>(&mut v.seat, seat);
    }
}
