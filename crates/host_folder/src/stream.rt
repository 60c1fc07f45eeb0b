//! Standard input as feed, and standard output as sink.
ghost use Rattle.std.specs.Prelude.{◌≡◌, ◌≤◌, None, IfOk, OnErr};
ghost use Rattle.tex_world.specs.Counts.{Rises};

use std::alloc::Global;
use std::io;
use std::io::{BufWriter, ErrorKind, Read, Write};
use tex_world::{Failed, Feed, Sink};

/// A reader as feed. Its bytes are not modelled. It counts the reads that fail.
#[derive(Drop)]
pub struct RealFeed<I> {
    input: I,
    faults: u64,
}

impl<I> RealFeed<I> {
    /// A feed of a reader's bytes.
    pub fn new(input: I) -> Self
        ensures { result.faults ≡ 0 }
    {
        RealFeed { input, faults: 0 }
    }
}

impl<I: Read> Feed for RealFeed<I> {
    ghost left = { λ _. None };

    ghost faults = { λ f. f.faults };

    fn read(&mut self, buf: &mut [u8]) -> Result<usize, Failed> {
        match self.input.read(buf) {
            Ok(n) => Ok(n),
            Err(_) => {
                self.faults = self.faults.saturating_add(1);
                Err(Failed)
            }
        }
    }
}

/// The most bytes that the sink buffers, so that small lines are written together.
const HELD_BACK: usize = 65536;

/// A writer as sink. Its bytes are not modelled. It buffers bytes until `flush`, and counts the
/// writes that fail.
#[derive(Drop)]
pub struct RealSink<W: Write + Drop> {
    out: BufWriter<W>,
    faults: u64,
}

impl<W: Write + Drop> RealSink<W> {
    /// A sink that writes everything to the writer.
    pub fn new(alloc: Global, out: W) -> io::Result<Self>
        ensures { IfOk result (λ s. s.faults ≡ 0) }
    {
        let out = BufWriter::with_capacity(alloc, HELD_BACK, out)?;
        Ok(RealSink { out, faults: 0 })
    }

    /// Writes the buffered bytes.
    pub fn flush(&mut self) -> Result<(), Failed>
        ensures faults { self.old.faults ≤ self.new.faults }
        ensures cause { OnErr result (Rises self.old.faults self.new.faults) }
    {
        match self.out.flush() {
            Ok(()) => Ok(()),
            Err(_) => Err(self.failed()),
        }
    }

    /// Counts a failure.
    fn failed(&mut self) -> Failed
        ensures { Rises self.old.faults self.new.faults }
    {
        self.faults = self.faults.saturating_add(1);
        Failed
    }
}

impl<W: Write + Drop> Sink for RealSink<W> {
    ghost holds = { λ _. None };

    ghost faults = { λ s. s.faults };

    /// If it fails, as much as possible of the buffered bytes has been written.
    fn put(&mut self, bytes: &[u8]) -> Result<(), Failed> {
        match self.out.write_all(bytes) {
            Ok(()) => Ok(()),
            Err(_) => Err(self.failed()),
        }
    }
}
