//! A tap of a folder in memory.
ghost use Rattle.std.specs.Prelude.{◌≡◌, ◌↔◌, ℕ, ◌+◌, ◌<◌, ◌≤◌, max, slice_index, length};
ghost use Rattle.std.specs.Prelude.{IfOk, IfErr, IsErr, OnOk};
ghost use Rattle.std.specs.List.{EachIndex};
ghost use Rattle.std.specs.Option.{ForSome};
ghost use Rattle.tex_world.specs.Counts.{Rises};
ghost use Rattle.tex_world.specs.World.{IsFile, IsReal};
ghost use Rattle.tex_world.specs.Tap.{IsNew, IsLeast, Opens, OpenCause, AfterOpen};
ghost use Rattle.tex_world.specs.Tap.{AfterNewest, ReadCause, AfterRead, AreRows, HoldsRows};
ghost use Rattle.tex_world.specs.Tap.{place_in_rows};
ghost use Rattle.tex_world.specs.MemHandle.{handle_named};
ghost use Rattle.tex_world.specs.MemTap.{tap_state, tap_plan, IsPlannedCall};
ghost use Rattle.tex_world.specs.MemTap.{AfterTapCall, reading, rows_reading, IsReadOf};
ghost use Rattle.tex_world.specs.TapCounters.{CountsMove, CountsRead};
ghost use Rattle.tex_world.specs.Share.{share_plan};
ghost use Rattle.tex_world.specs.TapPlan.{newest_of, planned_read, after_read};

use crate::fault::{Failed, OpenError, ReadError};
use crate::mem_handle::MemHandle;
use crate::reading::ReadRequest;
use crate::share::Share;
use crate::table::{FileTable, TableWorld};
use crate::tap::{Tap, TapHandle};
use crate::tap_counters::TapCounters;
use crate::world::World;
use std::alloc::Global;
use std::marker::PhantomData;

/// Reads the bytes of a table. Its calls fail where its share of the plan says so, and its reads
/// meet the newer generations that are planned.
#[derive(Drop)]
pub struct MemTap<T: FileTable> {
    share: Share,
    counters: TapCounters,
    table: PhantomData<T>,
}

impl<T: FileTable> MemTap<T> {
    /// A tap without calls so far.
    pub(crate) fn new(share: Share) -> Self
        ensures new { IsNew (tap_state result) }
        ensures plan { tap_plan result ≡ share_plan share }
    {
        MemTap {
            share,
            counters: TapCounters::new(),
            table: PhantomData,
        }
    }

    // Opens the greater of `least` and the newest generation, or fails as planned.
    fn open_as_planned(&self, file: u32, least: u32) -> Result<MemHandle<T>, OpenError>
        requires file { IsFile ⟦<TableWorld<T> as World>⟧.files file }
        requires least { IsLeast ⟦<TableWorld<T> as World>⟧.files file least }
        ensures ok { IfOk result (λ h.
            Opens ⟦<TableWorld<T> as World>⟧.files file least (handle_named h)) }
        ensures planned { IsErr result ↔ IsPlannedCall self.now }
        ensures err { IfErr result (λ e. e ≡ OpenError.Failed) }
        ensures newest { IfOk result (λ h. (handle_named h).generation
            ≡ max least (newest_of ⟦<TableWorld<T> as World>⟧.files (tap_plan self.now) file)) }
    {
        if self.share.fails_after(self.counters.calls()) {
            return Err(OpenError::Failed);
        }
        let generation = least.max(self.share.newest_of::<T>(file));
        match T::len(file, generation) {
            Some(len) => Ok(MemHandle::new(file, generation, len)),
            None => unreachable!(),
        }
    }

    // The greater of `least` and the newest generation, unless the call is planned to fail.
    fn newest_as_planned(&self, file: u32, least: u32) -> Result<u32, Failed>
        requires file { IsFile ⟦<TableWorld<T> as World>⟧.files file }
        requires least { IsLeast ⟦<TableWorld<T> as World>⟧.files file least }
        ensures real { IfOk result (IsReal ⟦<TableWorld<T> as World>⟧.files file) }
        ensures planned { IsErr result ↔ IsPlannedCall self.now }
        ensures newest { IfOk result (λ g. g
            ≡ max least (newest_of ⟦<TableWorld<T> as World>⟧.files (tap_plan self.now) file)) }
    {
        if self.share.fails_after(self.counters.calls()) {
            return Err(Failed);
        }
        Ok(least.max(self.share.newest_of::<T>(file)))
    }

    // Answers a read as planned, and counts it.
    fn answer(&mut self, h: &MemHandle<T>, read: ReadRequest) -> Result<(), ReadError>
        requires { IsReadOf (handle_named h.now) read }
        ensures cause { IfErr result
            (ReadCause ⟦<TableWorld<T> as World>⟧.files (handle_named h.now)
            (tap_state self.old) (tap_state self.new)) }
        ensures counts { AfterRead (tap_state self.old) (tap_state self.new) result }
        ensures planned { result
            ≡ planned_read ⟦<TableWorld<T> as World>⟧.files (tap_plan self.old)
            (tap_state self.old).calls read }
        ensures plan { tap_plan self.new
            ≡ after_read ⟦<TableWorld<T> as World>⟧.files read (tap_plan self.old) }
        ensures exact { CountsRead (tap_state self.old) (tap_state self.new) result }
    {
        let met = self.share.meet::<T>(self.counters.calls(), read);
        self.counters.count_read(met);
        met
    }

    /// How many calls failed.
    pub fn faults(&self) -> u64
        ensures { result ≡ (tap_state self.now).faults }
    {
        self.counters.faults()
    }

    /// How often the tap met a newer generation.
    pub fn moves(&self) -> u64
        ensures { result ≡ (tap_state self.now).moves }
    {
        self.counters.moves()
    }

    /// The number of calls.
    pub fn calls(&self) -> u64
        ensures { result ≡ (tap_state self.now).calls }
    {
        self.counters.calls()
    }

    /// The number of calls that opened a file.
    pub fn opens(&self) -> u64
        ensures { result ≡ (tap_state self.now).opens }
    {
        self.counters.opens()
    }

    /// The number of successful calls that asked for a newest generation.
    pub fn asks(&self) -> u64
        ensures { result ≡ (tap_state self.now).asks }
    {
        self.counters.asks()
    }
}

impl<T: FileTable> Tap for MemTap<T> {
    type W = TableWorld<T>;

    type Handle = MemHandle<T>;

    ghost state = { tap_state };

    /// Allocates nothing.
    fn open(&mut self, _alloc: Global, file: u32, least: u32) -> Result<MemHandle<T>, OpenError>
        requires file { IsFile ⟦<TableWorld<T> as World>⟧.files file }
        requires least { IsLeast ⟦<TableWorld<T> as World>⟧.files file least }
        ensures ok { IfOk result (λ h.
            Opens ⟦<TableWorld<T> as World>⟧.files file least (handle_named h)) }
        ensures cause { IfErr result (OpenCause (tap_state self.old) (tap_state self.new)) }
        ensures counts { AfterOpen handle_named least
            (tap_state self.old) (tap_state self.new) result }

        // It fails if and only if that is planned. It opens the greater of `least` and its newest
        // generation.
        ensures planned { IsErr result ↔ IsPlannedCall self.old }
        ensures after { AfterTapCall self.old self.new result }
        ensures err { IfErr result (λ e. e ≡ OpenError.Failed) }
        ensures newest { IfOk result (λ h. (handle_named h).generation
            ≡ max least (newest_of ⟦<TableWorld<T> as World>⟧.files (tap_plan self.old) file)) }
        ensures moves { IfOk result (λ h.
            CountsMove least (tap_state self.old) (tap_state self.new) (handle_named h)) }
    {
        let opened = self.open_as_planned(file, least);
        self.counters.count_open(least, &opened);
        opened
    }

    fn newest(&mut self, file: u32, least: u32) -> Result<u32, Failed>
        requires file { IsFile ⟦<TableWorld<T> as World>⟧.files file }
        requires least { IsLeast ⟦<TableWorld<T> as World>⟧.files file least }
        ensures real { IfOk result (IsReal ⟦<TableWorld<T> as World>⟧.files file) }
        ensures least { IfOk result (λ g. least ≤ g) }
        ensures cause { IfErr result
            (λ _. Rises (tap_state self.old).faults (tap_state self.new).faults) }
        ensures counts { AfterNewest file (tap_state self.old) (tap_state self.new) result }

        // It fails if and only if that is planned. It returns the greater of `least` and its newest
        // generation.
        ensures planned { IsErr result ↔ IsPlannedCall self.old }
        ensures after { AfterTapCall self.old self.new result }
        ensures newest { IfOk result (λ g. g
            ≡ max least (newest_of ⟦<TableWorld<T> as World>⟧.files (tap_plan self.old) file)) }
    {
        let newest = self.newest_as_planned(file, least);
        self.counters.count_newest(file, newest);
        newest
    }

    fn read_at(&mut self, h: &mut MemHandle<T>, at: u64, buf: &mut [u8]) -> Result<(), ReadError>
        requires { at + length buf.old ≤ (handle_named h.old).len }
        ensures bytes { OnOk result (ForSome
            (⟦<TableWorld<T> as World>⟧.files.held
            (handle_named h.old).file (handle_named h.old).generation)
            (λ bytes. EachIndex buf.new (λ k.
            slice_index buf.new k ≡ slice_index bytes (at + k)))) }
        ensures handle { handle_named h.new ≡ handle_named h.old }
        ensures cause { IfErr result
            (ReadCause ⟦<TableWorld<T> as World>⟧.files (handle_named h.old)
            (tap_state self.old) (tap_state self.new)) }
        ensures counts { AfterRead (tap_state self.old) (tap_state self.new) result }

        // It answers exactly as planned. The entries that name this read are then used up.
        ensures planned { result
            ≡ planned_read ⟦<TableWorld<T> as World>⟧.files (tap_plan self.old)
            (tap_state self.old).calls (reading (handle_named h.old) at buf.old) }
        ensures plan { tap_plan self.new
            ≡ after_read ⟦<TableWorld<T> as World>⟧.files
            (reading (handle_named h.old) at buf.old) (tap_plan self.old) }
        ensures exact { CountsRead (tap_state self.old) (tap_state self.new) result }
    {
        let read = ReadRequest {
            file: h.file(),
            generation: h.generation(),
            at,
            stride: 1,
            row: 1,
            count: buf.len() as u64,
        };
        self.answer(h, read)?;
        fill(h, at, buf);
        Ok(())
    }

    fn read_rows(
        &mut self,
        h: &mut MemHandle<T>,
        at: u64,
        stride: u64,
        row: usize,
        buf: &mut [u8],
    ) -> Result<(), ReadError>
        requires { AreRows at stride row (length buf.old) (handle_named h.old).len }
        ensures bytes { OnOk result (ForSome
            (⟦<TableWorld<T> as World>⟧.files.held
            (handle_named h.old).file (handle_named h.old).generation)
            (λ bytes. HoldsRows bytes at stride row buf.new)) }
        ensures handle { handle_named h.new ≡ handle_named h.old }
        ensures cause { IfErr result
            (ReadCause ⟦<TableWorld<T> as World>⟧.files (handle_named h.old)
            (tap_state self.old) (tap_state self.new)) }
        ensures counts { AfterRead (tap_state self.old) (tap_state self.new) result }

        // It answers exactly as planned. The entries that name this read are then used up.
        ensures planned { result
            ≡ planned_read ⟦<TableWorld<T> as World>⟧.files (tap_plan self.old)
            (tap_state self.old).calls
            (rows_reading (handle_named h.old) at stride row (length buf.old)) }
        ensures plan { tap_plan self.new
            ≡ after_read ⟦<TableWorld<T> as World>⟧.files
            (rows_reading (handle_named h.old) at stride row (length buf.old))
            (tap_plan self.old) }
        ensures exact { CountsRead (tap_state self.old) (tap_state self.new) result }
    {
        let read = ReadRequest {
            file: h.file(),
            generation: h.generation(),
            at,
            stride,
            row: row as u64,
            count: (buf.len() / row) as u64,
        };
        self.answer(h, read)?;
        fill_rows(h, at, stride, row, buf);
        Ok(())
    }
}

/// Fills the buffer with the bytes of the handle's generation at `at`.
pub fn fill<T: FileTable>(h: &MemHandle<T>, at: u64, buf: &mut [u8])
    requires { at + length buf.old ≤ h.now.len }
    ensures { (k : ℕ) → k < length buf.new →
        slice_index buf.new k ≡ T.byte_of h.now.file h.now.generation (at + k) }
{
    let file = h.file();
    let generation = h.generation();
    for i in 0..buf.len() {
        buf[i] = T::byte(file, generation, at + i as u64);
    }
}

/// Fills the buffer with rows of the handle's generation. The first is at `at`, and each begins
/// `stride` bytes after the one before.
pub fn fill_rows<T: FileTable>(h: &MemHandle<T>, at: u64, stride: u64, row: usize, buf: &mut [u8])
    requires { AreRows at stride row (length buf.old) h.now.len }
    ensures { (k : ℕ) → k < length buf.new → slice_index buf.new k
        ≡ T.byte_of h.now.file h.now.generation (place_in_rows at stride row k) }
{
    let file = h.file();
    let generation = h.generation();
    for k in 0..buf.len() {
        let place = at + (k / row) as u64 * stride + (k % row) as u64;
        buf[k] = T::byte(file, generation, place);
    }
}
