//! A feed in memory, for tests.
ghost use Rattle.std.specs.Prelude.{◌≡◌, ◌↔◌, ℕ, ◌+◌, ◌<◌, ◌≤◌, min, List, length, drop};
ghost use Rattle.std.specs.Prelude.{Option, Some, IfOk, OnErr, IsErr};
ghost use Rattle.tex_world.specs.Counts.{Rises};
ghost use Rattle.tex_world.specs.Memory.{IsPlanned, AfterCall};
ghost use Rattle.tex_world.specs.Stream.{Feeds};

use crate::fault::Failed;
use crate::feed::Feed;
use crate::planned::Planned;
use std::marker::Model;

/// Bytes in memory that are read from front to back. One of its calls can be planned to fail.
#[derive(Drop)]
pub struct MemFeed {
    bytes: Vec<u8>,
    at: usize,
    planned: Planned,
}

impl Model for MemFeed {
    ghost use Rattle.std.specs.Prelude.{◌≤◌, drop, length};
    ghost use Rattle.tex_world.specs.Memory.{FeedView};

    ghost Value = { FeedView };

    ghost view = { λ f. record {
      left = drop f.at f.bytes.items;
      planned = f.planned;
    } };

    ghost invariant = { λ f. f.at ≤ length f.bytes.items };
}

impl MemFeed {
    /// A feed with these bytes. Call number `fail`, counted from 1, fails.
    pub fn new(bytes: Vec<u8>, fail: Option<u64>) -> Self
        ensures left { result.left ≡ bytes.items }
        ensures fail { result.planned.fail ≡ fail }
        ensures calls { result.planned.calls ≡ 0 }
        ensures faults { result.planned.faults ≡ 0 }
    {
        MemFeed {
            bytes,
            at: 0,
            planned: Planned::new(fail),
        }
    }

    /// How many reads have failed.
    pub fn faults(&self) -> u64
        ensures { result ≡ self.now.planned.faults }
    {
        self.planned.faults
    }
}

impl Feed for MemFeed {
    ghost left = { λ f. Some f.left };

    ghost faults = { λ f. f.planned.faults };

    /// Returns as many bytes as fit the buffer and are left. A failed call reads none.
    fn read(&mut self, buf: &mut [u8]) -> Result<usize, Failed>
        requires { 0 < length buf.old }
        ensures ok { IfOk result (λ n. Feeds n buf.new (Some self.old.left) (Some self.new.left)) }
        ensures faults { self.old.planned.faults ≤ self.new.planned.faults }
        ensures cause { OnErr result (Rises self.old.planned.faults self.new.planned.faults) }

        // Only the planned call fails, and the plan does not change.
        ensures planned { IsErr result ↔ IsPlanned self.old.planned }
        ensures value { IfOk result (λ n. n ≡ min (length buf.old) (length self.old.left)) }
        ensures same { OnErr result (self.new.left ≡ self.old.left) }
        ensures after { AfterCall self.old.planned self.new.planned result }
    {
        if self.planned.fails() {
            self.planned.failed();
            return Err(Failed);
        }
        let n = buf.len().min(self.bytes.len() - self.at);
        buf[..n].copy_from_slice(&self.bytes[self.at..self.at + n]);
        self.at += n;
        Ok(n)
    }
}
