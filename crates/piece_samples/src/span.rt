//! A range of bytes in a file.
ghost use Rattle.std.specs.Prelude.{◌≡◌, ◌+◌, ◌*◌, ◌≤◌, ◌↔◌, IsTrue};

use tile_layout::{Piece, TexelFormat};

/// A range of bytes of a file: `size` bytes at `at`.
#[derive(Clone, Copy, Debug)]
pub struct Span {
    pub at: u64,
    pub size: usize,
}

impl Span {
    /// The bytes of a piece.
    pub fn of(piece: &Piece, format: &TexelFormat) -> Span
        ensures at { result.at ≡ piece.now.at }
        ensures size { result.size ≡ piece.now.n * format.now.texel_bytes }
    {
        Span {
            at: piece.at,
            size: piece.n as usize * format.texel_bytes,
        }
    }

    /// Whether the bytes lie below a length of the file.
    pub fn lies_below(&self, len: u64) -> bool
        ensures { IsTrue result ↔ (self.now.at + self.now.size ≤ len) }
    {
        self.at <= len && self.size as u64 <= len - self.at
    }
}
