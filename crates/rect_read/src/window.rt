//! A window: bytes of the file that are read ahead for the rows to come.

ghost use Rattle.std.specs.Prelude.{◌≡◌, ◌+◌, ◌<◌, ◌≤◌, ℕ, List, length, OnOk, IsTrue};
ghost use Rattle.std.specs.Option.{ForSome};
ghost use Rattle.tiff_format.specs.Bytes.{IsPartAt};
ghost use Rattle.rect_read.specs.RectRead.{LeavesReader};
ghost use Rattle.rect_read.specs.Window.{IsWindow, AreWindows, HoldsSpan};

use crate::rect_error::RectError;
use crate::rows::RowsBehind;
use piece_samples::Span;
use std::alloc::{AllocError, Global};
use tiff_entries::ByteReader;

/// The most bytes between the pieces of two rows that are still read together. RectReader that many
/// costs about as much as another call.
pub const MAX_GAP: u64 = 4096;

/// A place of no piece, so that no piece follows it.
const NO_PLACE: u64 = u64::MAX;

/// Bytes of the file from a place on: a piece of a row and what was read ahead with it.
#[derive(Debug, Drop)]
pub(crate) struct Window {
    /// The place of the first byte.
    at: u64,
    bytes: Vec<u8>,
    /// The place of the piece that was last asked for.
    last: u64,
    /// The number of bytes that the last read read ahead.
    ahead: u64,
}

impl Window {
    /// An empty window.
    pub(crate) fn new(alloc: Global) -> Window
        ensures { (bytes : List ℕ) → IsWindow bytes result }
    {
        Window {
            at: 0,
            bytes: Vec::new(alloc),
            last: NO_PLACE,
            ahead: 0,
        }
    }

    /// The bytes of a span that lies in the window.
    pub(crate) fn piece(&self, span: &Span) -> &[u8]
        requires { HoldsSpan self.now span.now }
        ensures long { length result.now ≡ span.now.size }
        ensures told { (bytes : List ℕ) → IsWindow bytes self.now
            → IsPartAt bytes span.now.at result.now }
    {
        let start = (span.at - self.at) as usize;
        &self.bytes[start..start + span.size]
    }

    /// Whether the window has the bytes of a span.
    fn holds(&self, span: &Span) -> bool
        ensures { IsTrue result → HoldsSpan self.now span.now }
    {
        let len = self.bytes.len();
        span.at >= self.at && span.size <= len && span.at - self.at <= (len - span.size) as u64
    }

    /// How many bytes to read ahead of a piece of `size` bytes. It is the rest of its strip or
    /// tile; if the pieces go on at the same distance beyond, twice as much each time. `most` and
    /// the rows to come limit it.
    fn more(&self, stride: u64, size: u64, behind: &RowsBehind, most: u64) -> u64
        ensures { result ≤ most }
    {
        let twice = self.ahead.saturating_mul(2).saturating_add(stride);
        let beyond = twice.min(bytes_of_rows(stride, size, behind.all));
        beyond
            .max(bytes_of_rows(behind.stride, size, behind.in_block))
            .min(most)
    }

    /// Makes sure that the window has the bytes of a piece that lies in the file. If it must read,
    /// it reads up to `most` bytes more, for the rows to come.
    pub(crate) fn fill<B: ByteReader>(
        &mut self,
        reader: &mut B,
        span: &Span,
        behind: &RowsBehind,
        most: u64,
    ) -> Result<(), RectError<B::Error>>
        requires { span.now.at + span.now.size ≤ B.size reader.old }
        ensures holds { OnOk result (HoldsSpan self.new span.now) }
        ensures told { ForSome (B.bytes reader.old) (λ bytes.
            IsWindow bytes self.old → OnOk result (IsWindow bytes self.new)) }
        ensures reader { LeavesReader B.keeps B.refuses reader.old reader.new result }
    {
        let stride = span.at.saturating_sub(self.last);
        self.last = span.at;
        if self.holds(span) {
            return Ok(());
        }
        self.at = span.at;
        let size = span.size as u64;
        self.ahead = self.more(stride, size, behind, most);
        let long = span.size + self.ahead.min(reader.len() - span.at - size) as usize;
        self.bytes.resize(long, 0)?;
        match reader.read(span.at, &mut self.bytes) {
            Ok(()) => Ok(()),
            Err(e) => Err(RectError::Reader(e)),
        }
    }
}

/// The bytes from a piece to the end of the last of `rows` pieces after it. 0 if the gap between
/// rows is too large to read.
fn bytes_of_rows(stride: u64, size: u64, rows: u32) -> u64 {
    if stride < size || stride - size > MAX_GAP {
        0
    } else {
        stride.saturating_mul(u64::from(rows))
    }
}

/// Makes sure that window k exists.
pub(crate) fn ready(windows: &mut Vec<Window>, k: usize) -> Result<(), AllocError>
    requires { k ≤ length windows.old.items }
    ensures some { OnOk result (k < length windows.new.items) }
    ensures told { OnOk result ((bytes : List ℕ)
        → AreWindows bytes windows.old.items → AreWindows bytes windows.new.items) }
{
    if k == windows.len() {
        windows.reserve(1)?;
        windows.push_reserved(Window::new(*windows.allocator()));
    }
    Ok(())
}
