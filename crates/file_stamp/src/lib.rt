//! How a changed file is recognized: what a look at a file shows, and which generation follows from
//! it. No call here looks at a file itself.
#![tactic(auto)]

mod stamp;
mod version;
mod word;

pub use stamp::{STAMPS, stamp_of};
pub use version::{FileStamp, FileVersion, KNOWN, NEWER, USED_UP};
pub use word::{generation_after, generation_in, generation_of, settle_word, settled};
