//! A tap of the sample files.
ghost use Rattle.std.specs.Prelude.{◌≡◌, ◌+◌, ◌≤◌, length, slice_index, Ok, IfOk, IfErr, IsOk, OnOk};
ghost use Rattle.std.specs.List.{EachIndex};
ghost use Rattle.std.specs.Option.{ForSome};
ghost use Rattle.tex_world.specs.Counts.{Rises};
ghost use Rattle.tex_world.specs.World.{IsFile, IsReal};
ghost use Rattle.tex_world.specs.Tap.{IsNew, IsLeast, Opens, OpenCause, AfterOpen};
ghost use Rattle.tex_world.specs.Tap.{AfterNewest, ReadCause, AfterRead, AreRows, HoldsRows};
ghost use Rattle.tex_world.specs.TapCounters.{counted};
ghost use Rattle.tex_world.specs.MemHandle.{handle_named};

use crate::sample_files::SampleFiles;
use std::alloc::Global;
use tex_world::{
    FIRST_GENERATION, Failed, FileTable, MemHandle, OpenError, ReadError, TableWorld, Tap,
    TapCounters, World, fill, fill_rows,
};

/// Reads the sample files. No call fails, and nothing is allocated.
#[derive(Debug, Drop)]
pub struct SampleTap {
    counters: TapCounters,
    ghost faultless: { (counted counters).faults ≡ 0 },
    ghost unmoved: { (counted counters).moves ≡ 0 },
}

impl SampleTap {
    /// A tap without calls so far.
    pub(crate) fn new() -> Self
        ensures { IsNew (counted result.counters) }
    {
        SampleTap {
            counters: TapCounters::new(),
        }
    }
}

impl Tap for SampleTap {
    ghost use Rattle.sample_folder.specs.SampleFolder.{sample_tap};

    type W = TableWorld<SampleFiles>;

    type Handle = MemHandle<SampleFiles>;

    ghost state = { sample_tap };

    fn open(
        &mut self,
        _alloc: Global,
        file: u32,
        least: u32,
    ) -> Result<MemHandle<SampleFiles>, OpenError>
        requires file { IsFile ⟦<TableWorld<SampleFiles> as World>⟧.files file }
        requires least { IsLeast ⟦<TableWorld<SampleFiles> as World>⟧.files file least }
        ensures ok { IfOk result (λ h.
            Opens ⟦<TableWorld<SampleFiles> as World>⟧.files file least (handle_named h)) }
        ensures cause { IfErr result (OpenCause (sample_tap self.old) (sample_tap self.new)) }
        ensures counts { AfterOpen handle_named least
            (sample_tap self.old) (sample_tap self.new) result }
        ensures answers { IsOk result }
    {
        let opened = match SampleFiles::len(file, FIRST_GENERATION) {
            Some(len) => Ok(MemHandle::new(file, FIRST_GENERATION, len)),
            None => unreachable!(),
        };
        self.counters.count_open(least, &opened);
        opened
    }

    fn newest(&mut self, file: u32, least: u32) -> Result<u32, Failed>
        requires file { IsFile ⟦<TableWorld<SampleFiles> as World>⟧.files file }
        requires least { IsLeast ⟦<TableWorld<SampleFiles> as World>⟧.files file least }
        ensures real { IfOk result (IsReal ⟦<TableWorld<SampleFiles> as World>⟧.files file) }
        ensures least { IfOk result (λ g. least ≤ g) }
        ensures cause { IfErr result
            (λ _. Rises (sample_tap self.old).faults (sample_tap self.new).faults) }
        ensures counts { AfterNewest file (sample_tap self.old) (sample_tap self.new) result }
        ensures answers { IsOk result }
    {
        self.counters.count_newest(file, Ok(FIRST_GENERATION));
        Ok(FIRST_GENERATION)
    }

    fn read_at(
        &mut self,
        h: &mut MemHandle<SampleFiles>,
        at: u64,
        buf: &mut [u8],
    ) -> Result<(), ReadError>
        requires { at + length buf.old ≤ (handle_named h.old).len }
        ensures bytes { OnOk result (ForSome
            (⟦<TableWorld<SampleFiles> as World>⟧.files.held
            (handle_named h.old).file (handle_named h.old).generation)
            (λ bytes. EachIndex buf.new (λ k.
            slice_index buf.new k ≡ slice_index bytes (at + k)))) }
        ensures handle { handle_named h.new ≡ handle_named h.old }
        ensures cause { IfErr result
            (ReadCause ⟦<TableWorld<SampleFiles> as World>⟧.files (handle_named h.old)
            (sample_tap self.old) (sample_tap self.new)) }
        ensures counts { AfterRead (sample_tap self.old) (sample_tap self.new) result }
        ensures answers { IsOk result }
    {
        self.counters.count_read(Ok(()));
        fill(h, at, buf);
        Ok(())
    }

    fn read_rows(
        &mut self,
        h: &mut MemHandle<SampleFiles>,
        at: u64,
        stride: u64,
        row: usize,
        buf: &mut [u8],
    ) -> Result<(), ReadError>
        requires { AreRows at stride row (length buf.old) (handle_named h.old).len }
        ensures bytes { OnOk result (ForSome
            (⟦<TableWorld<SampleFiles> as World>⟧.files.held
            (handle_named h.old).file (handle_named h.old).generation)
            (λ bytes. HoldsRows bytes at stride row buf.new)) }
        ensures handle { handle_named h.new ≡ handle_named h.old }
        ensures cause { IfErr result
            (ReadCause ⟦<TableWorld<SampleFiles> as World>⟧.files (handle_named h.old)
            (sample_tap self.old) (sample_tap self.new)) }
        ensures counts { AfterRead (sample_tap self.old) (sample_tap self.new) result }
        ensures answers { IsOk result }
    {
        self.counters.count_read(Ok(()));
        fill_rows(h, at, stride, row, buf);
        Ok(())
    }
}
