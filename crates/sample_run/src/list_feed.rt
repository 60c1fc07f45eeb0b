//! A feed of a list in memory.

ghost use Rattle.std.specs.Prelude.{◌≡◌, ◌<◌, ◌≤◌, length, Some, IfOk, OnErr};
ghost use Rattle.tex_world.specs.Counts.{Rises};
ghost use Rattle.tex_world.specs.Stream.{Feeds};

use std::marker::Model;
use tex_world::{Failed, Feed};

/// A list that is read from front to back. No call fails.
#[derive(Drop)]
pub(crate) struct ListFeed {
    bytes: Vec<u8>,
    at: usize,
}

impl Model for ListFeed {
    ghost use Rattle.std.specs.Prelude.{ℕ, List, ◌≤◌, drop, length};

    ghost Value = { List ℕ };

    ghost view = { λ feed. drop feed.at feed.bytes.items };

    ghost invariant = { λ feed. feed.at ≤ length feed.bytes.items };
}

impl ListFeed {
    /// A feed of these bytes.
    pub(crate) fn new(bytes: Vec<u8>) -> ListFeed
        ensures { result ≡ bytes.items }
    {
        ListFeed { bytes, at: 0 }
    }
}

impl Feed for ListFeed {
    ghost left = { λ feed. Some feed };

    ghost faults = { λ _. 0 };

    /// Returns as many bytes as fit the buffer and are left.
    fn read(&mut self, buf: &mut [u8]) -> Result<usize, Failed>
        requires { 0 < length buf.old }
        ensures ok { IfOk result (λ n. Feeds n buf.new (Some self.old) (Some self.new)) }
        ensures faults { 0 ≤ 0 }
        ensures cause { OnErr result (Rises 0 0) }
    {
        let n = buf.len().min(self.bytes.len() - self.at);
        buf[..n].copy_from_slice(&self.bytes[self.at..self.at + n]);
        self.at += n;
        Ok(n)
    }
}
