//! The two items that one caller used last, by key. A caller that alternates between two cells
//! finds them here, without a lock.
#![tactic(auto)]

mod keyed;
mod micro;
mod runs;

pub use keyed::Keyed;
pub use micro::Micro;
pub use runs::answers_are_hits;
