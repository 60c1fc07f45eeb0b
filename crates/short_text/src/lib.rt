//! Short texts, and numbers and words in texts: how they are stored, read and printed.
#![tactic(auto)]

mod digits;
mod number;
mod short_text;
mod value_texts;
mod words;

pub use digits::digits_number;
pub use number::{push_numbers, push_text};
pub use short_text::{MAX_SHORT, ShortText};
pub use value_texts::{COUNT_AT, PADDED_BYTES, ValueTexts};
pub use words::{behind_space, behind_word, number_field};
