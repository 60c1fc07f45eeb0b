//! A folder in memory, for tests.
ghost use Rattle.std.specs.Prelude.{◌≡◌, ◌↔◌, ◌⊎◌, ◌+◌, ◌-◌, ◌^◌, min, [], false};
ghost use Rattle.std.specs.Prelude.{Err, IfOk, IfErr, IsOk};
ghost use Rattle.tex_world.specs.Counts.{last_count};
ghost use Rattle.tex_world.specs.Tap.{IsNew};
ghost use Rattle.tex_world.specs.Folder.{IsNewFolder, EnterCause, AfterEnter, AfterTap, AfterBack};
ghost use Rattle.tex_world.specs.MemTap.{tap_state, tap_plan};
ghost use Rattle.tex_world.specs.MemFolder.{folder_state, calls_returned, folder_plan, is_tried};
ghost use Rattle.tex_world.specs.MemFolder.{next_share, IsNextUnnamed, IsPlannedEnter};
ghost use Rattle.tex_world.specs.MemFolder.{CountsEnter, IsSteady, KeepsPlan};
ghost use Rattle.tex_world.specs.FolderLaws.{folder_is_lawful};

use crate::fault::{EnterError, NoMemory};
use crate::folder::Folder;
use crate::mem_tap::MemTap;
use crate::plan::Plan;
use crate::table::{FileTable, TableWorld, number_of};
use crate::world::World;
use std::alloc::Global;
use std::marker::PhantomData;

/// A folder with the files of a table, under any path. Its plan says which calls fail, its own and
/// those of its taps, and which files change.
#[derive(Drop)]
pub struct MemFolder<T: FileTable> {
    plan: Plan,
    tried: bool,
    entered: Option<String>,
    faults: u64,
    moves: u64,
    made: u64,
    returned: u64,
    calls: u64,
    table: PhantomData<T>,
}

impl<T: FileTable> MemFolder<T> {
    /// A folder that has not been entered.
    pub fn new(plan: Plan) -> Self
        ensures new { IsNewFolder (folder_state T.count_of T.name_of result) }
        ensures calls { calls_returned result ≡ 0 }
        ensures plan { folder_plan result ≡ plan }
        ensures tried { is_tried result ≡ false }
    {
        MemFolder {
            plan,
            tried: false,
            entered: None,
            faults: 0,
            moves: 0,
            made: 0,
            returned: 0,
            calls: 0,
            table: PhantomData,
        }
    }

    /// The number of failed calls, including those of taps given back.
    pub fn faults(&self) -> u64
        ensures { result ≡ (folder_state T.count_of T.name_of self.now).faults }
    {
        self.faults
    }

    /// How often taps given back met a newer generation.
    pub fn moves(&self) -> u64
        ensures { result ≡ (folder_state T.count_of T.name_of self.now).moves }
    {
        self.moves
    }

    /// The number of taps made.
    pub fn made(&self) -> u64
        ensures { result ≡ (folder_state T.count_of T.name_of self.now).made }
    {
        self.made
    }

    /// The number of taps given back.
    pub fn returned(&self) -> u64
        ensures { result ≡ (folder_state T.count_of T.name_of self.now).returned }
    {
        self.returned
    }

    /// The number of calls of all taps given back.
    pub fn calls(&self) -> u64
        ensures { result ≡ calls_returned self.now }
    {
        self.calls
    }
}

impl<T: FileTable> Folder for MemFolder<T> {
    type W = TableWorld<T>;

    type Tap = MemTap<T>;

    ghost state = { folder_state T.count_of T.name_of };

    /// Keeps a copy of the path, which is allocated.
    fn enter(&mut self, alloc: Global, path: &str) -> Result<(), EnterError>
        ensures cause { let state = folder_state T.count_of T.name_of in
            IfErr result (EnterCause ⟦<TableWorld<T> as World>⟧.files
            (state self.old) (state self.new)) }
        ensures after { let state = folder_state T.count_of T.name_of in
            AfterEnter path.now (state self.old) (state self.new) result }

        // It fails if and only if it is the first and planned to fail. Otherwise only memory can
        // run out.
        ensures planned { (result ≡ Err EnterError.Failed) ↔ IsPlannedEnter self.old }
        ensures err { IfErr result (λ e.
            (e ≡ EnterError.Failed) ⊎ (e ≡ EnterError.NoMemory)) }
        ensures counts { CountsEnter self.old self.new result }
    {
        let first = !self.tried;
        self.tried = true;
        self.entered = None;
        if first && self.plan.fail_enter {
            self.faults = self.faults.saturating_add(1);
            return Err(EnterError::Failed);
        }
        match String::from_str(alloc, path) {
            Ok(kept) => {
                self.entered = Some(kept);
                Ok(())
            }
            Err(_) => Err(EnterError::NoMemory),
        }
    }

    fn count(&self) -> u32 {
        match &self.entered {
            Some(_) => T::count(),
            None => 0,
        }
    }

    fn find(&self, name: &str) -> Option<u32> {
        match &self.entered {
            Some(_) => number_of::<T>(name),
            None => None,
        }
    }

    /// Allocates only for entries of the plan that name the tap.
    fn tap(&mut self, alloc: Global) -> Result<MemTap<T>, NoMemory>
        ensures new { IfOk result (λ t. IsNew (tap_state t)) }
        ensures after { let state = folder_state T.count_of T.name_of in
            AfterTap (state self.old) (state self.new) result }

        // The tap gets the plan's entries for its number. If there are none, the call succeeds.
        ensures planned { IfOk result (λ t. tap_plan t ≡ next_share self.old) }
        ensures answers { IsNextUnnamed self.old → IsOk result }
        ensures steady { IsSteady self.old self.new }
        ensures plan { KeepsPlan self.old self.new }
    {
        let share = self.plan.share(alloc, self.made)?;
        self.made = self.made.saturating_add(1);
        Ok(MemTap::new(share))
    }

    fn back(&mut self, tap: MemTap<T>)
        ensures after { let state = folder_state T.count_of T.name_of in
            AfterBack (tap_state tap) (state self.old) (state self.new) }

        // Its counts are its own and the tap's together.
        ensures faults { let state = folder_state T.count_of T.name_of in
            (state self.new).faults
            ≡ min ((state self.old).faults + (tap_state tap).faults) last_count }
        ensures calls { calls_returned self.new
            ≡ min (calls_returned self.old + (tap_state tap).calls) last_count }
        ensures plan { KeepsPlan self.old self.new }
    {
        self.faults = self.faults.saturating_add(tap.faults());
        self.moves = self.moves.saturating_add(tap.moves());
        self.calls = self.calls.saturating_add(tap.calls());
        self.returned = self.returned.saturating_add(1);
    }

    ghost lawful = { λ folder.
        folder_is_lawful T.count_of T.name_of T.len_of T.byte_of T.few folder };
}
