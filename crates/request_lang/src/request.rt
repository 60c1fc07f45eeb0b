//! A request: what one line of the list asks for.

ghost use Rattle.std.specs.Prelude.{◌≡◌, List, ℕ, IfOk};
ghost use Rattle.std.specs.String.{string_bytes};

use short_text::{MAX_SHORT, ShortText};
use std::alloc::{AllocError, Global};
use std::marker::Model;
use texel_filter::{DerivRequest, TexRequest};

/// The text of a name.
#[derive(Drop)]
pub(crate) enum NameText {
    /// A short text, as most names are, stored in place without allocating.
    Short(ShortText),
    /// A text of any length.
    Long(String),
}

/// The name of a file. Clauses see its bytes, which are UTF-8.
#[derive(Drop)]
pub struct Name {
    text: NameText,
}

impl Model for Name {
    ghost use Rattle.std.specs.Prelude.{List, ℕ};
    ghost use Rattle.request_lang.specs.NameText.{bytes_of};

    ghost Value = { List ℕ };

    ghost view = { λ name. bytes_of name.text };
}

impl Name {
    /// A name with this text.
    pub fn new(text: String) -> Name
        ensures { result ≡ string_bytes text }
    {
        Name {
            text: NameText::Long(text),
        }
    }

    /// A name with a copy of this text.
    #[inline(always)]
    pub(crate) fn copied(alloc: Global, text: &str) -> Result<Name, AllocError>
        ensures { IfOk result (λ name. name ≡ text.now) }
    {
        if text.len() <= MAX_SHORT {
            return Ok(Name {
                text: NameText::Short(ShortText::of(text)),
            });
        }
        Name::long(alloc, text)
    }

    /// A name with a copy of a long text.
    fn long(alloc: Global, text: &str) -> Result<Name, AllocError>
        ensures { IfOk result (λ name. name ≡ text.now) }
    {
        Ok(Name::new(String::from_str(alloc, text)?))
    }

    /// The text of the name.
    pub fn as_str(&self) -> &str
        ensures { result.now ≡ self.now }
    {
        match &self.text {
            NameText::Short(text) => text.as_str(),
            NameText::Long(text) => text.as_str(),
        }
    }
}

/// What a line of the list asks for.
#[derive(Drop)]
pub enum Request {
    /// A lookup in a file.
    Tex {
        request: TexRequest,
        name: Name,
    },
    /// A lookup in a file along a footprint.
    Texd {
        request: DerivRequest,
        name: Name,
    },
    /// A region of a level: w by h texels from (x, y) on.
    Pixels {
        level: u32,
        x: i32,
        y: i32,
        w: u32,
        h: u32,
        name: Name,
    },
    /// The size and the levels of a file.
    Info {
        name: Name,
    },
    /// Hold the cell of the texel (x, y) of a level.
    Hold {
        level: u32,
        x: u32,
        y: u32,
        name: Name,
    },
    /// Release the worker's oldest hold.
    Drop,
    /// Check a file, and drop what is kept of it if it has changed.
    Invalidate {
        name: Name,
    },
    /// Drop what is kept of a file, and read it again.
    Renew {
        name: Name,
    },
    /// `Invalidate` for every file that was opened so far.
    InvalidateAll,
    /// The counts of each shard of the cache.
    Stat,
    /// The end of the round.
    Sync,
}
