//! A sink in memory, for tests.
ghost use Rattle.std.specs.Prelude.{◌≡◌, ◌⊎◌, ◌+◌, ◌<◌, ◌≤◌, [], length, Some, OnOk, OnErr, IsErr};
ghost use Rattle.tex_world.specs.Counts.{Rises};
ghost use Rattle.tex_world.specs.Memory.{IsPlanned, AfterCall};
ghost use Rattle.tex_world.specs.Stream.{Appends, AppendsPart};

use crate::fault::Failed;
use crate::planned::Planned;
use crate::sink::Sink;
use std::alloc::Global;
use std::marker::Model;

/// Bytes in memory that grow at the end. One of its calls can be planned to fail.
#[derive(Drop)]
pub struct MemSink {
    bytes: Vec<u8>,
    planned: Planned,
}

impl Model for MemSink {
    ghost use Rattle.tex_world.specs.Memory.{SinkView};

    ghost Value = { SinkView };

    ghost view = { λ s. record {
      holds = s.bytes.items;
      planned = s.planned;
    } };
}

impl MemSink {
    /// An empty sink. Call number `fail`, counted from 1, fails.
    pub fn new(alloc: Global, fail: Option<u64>) -> Self
        ensures holds { result.holds ≡ [] }
        ensures fail { result.planned.fail ≡ fail }
        ensures calls { result.planned.calls ≡ 0 }
        ensures faults { result.planned.faults ≡ 0 }
    {
        MemSink {
            bytes: Vec::new(alloc),
            planned: Planned::new(fail),
        }
    }

    /// The bytes written so far.
    pub fn bytes(&self) -> &[u8]
        ensures { result.now ≡ self.now.holds }
    {
        &self.bytes
    }

    /// How many writes have failed.
    pub fn faults(&self) -> u64
        ensures { result ≡ self.now.planned.faults }
    {
        self.planned.faults
    }
}

impl Sink for MemSink {
    ghost holds = { λ s. Some s.holds };

    ghost faults = { λ s. s.planned.faults };

    /// Appends the bytes. Out of memory is reported like a planned failure. A failed call appends
    /// nothing.
    fn put(&mut self, bytes: &[u8]) -> Result<(), Failed>
        ensures ok { OnOk result (Appends bytes.now (Some self.old.holds) (Some self.new.holds)) }
        ensures part { OnErr result
            (AppendsPart bytes.now (Some self.old.holds) (Some self.new.holds)) }
        ensures faults { self.old.planned.faults ≤ self.new.planned.faults }
        ensures cause { OnErr result (Rises self.old.planned.faults self.new.planned.faults) }

        // The planned call fails. Another call fails only if memory runs out, which writing nothing
        // never does.
        ensures planned { IsPlanned self.old.planned → IsErr result }
        ensures only { IsErr result → IsPlanned self.old.planned ⊎ (0 < length bytes.now) }
        ensures same { OnErr result (self.new.holds ≡ self.old.holds) }
        ensures after { AfterCall self.old.planned self.new.planned result }
    {
        if self.planned.fails() {
            self.planned.failed();
            return Err(Failed);
        }
        if let Err(_full) = self.bytes.extend_from_slice(bytes) {
            self.planned.failed();
            return Err(Failed);
        }
        Ok(())
    }
}
