//! Short texts that are stored without allocating.

ghost use Rattle.std.specs.Prelude.{◌≡◌, ◌≤◌, length};

use std::marker::Model;
use std::str::from_utf8_unchecked;

/// The most bytes of a short text.
pub const MAX_SHORT: usize = 22;

/// A text of at most 22 bytes. Clauses see its bytes, which are UTF-8.
#[derive(Drop)]
pub struct ShortText {
    bytes: [u8; MAX_SHORT],
    // two bytes, so that the text begins at an even address and is moved in few pieces
    count: u16,
}

impl Model for ShortText {
    ghost use Rattle.std.specs.Prelude.{List, ℕ, ◌≡◌, ◌≤◌, take, true};
    ghost use Rattle.std.specs.Str.{is_utf8};

    ghost Value = { List ℕ };

    ghost view = { λ text. take text.count text.bytes };

    ghost invariant = { λ text.
        (text.count ≤ 22) × (is_utf8 (take text.count text.bytes) ≡ true) };
}

impl ShortText {
    /// A copy of a text that is short enough.
    #[tactic(auto, using(crate::proofs::TextLemmas::utf8_tests))]
    pub fn of(text: &str) -> ShortText
        requires { length text.now ≤ MAX_SHORT }
        ensures { result ≡ text.now }
    {
        let count = text.len();
        let mut bytes = [0; MAX_SHORT];
        bytes[..count].copy_from_slice(text.as_bytes());
        ShortText {
            bytes,
            count: count as u16,
        }
    }

    /// The text.
    #[tactic(auto, using(crate::proofs::TextLemmas::utf8_tests))]
    pub fn as_str(&self) -> &str
        ensures { result.now ≡ self.now }
    {
        let count = usize::from(self.count);
        unsafe { from_utf8_unchecked(&self.bytes[..count]) }
    }
}
