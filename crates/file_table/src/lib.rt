//! The files of a folder, used by many workers: a shared record of each file's newest known
//! generation, and idle handles that are lent.
#![tactic(auto)]

mod aheads;
mod error;
mod files;
mod idle;
mod idle_files;
mod known;
mod known_level;
mod lending;
mod open;
mod picture;
mod put_back;
mod record;

pub use aheads::Aheads;
pub use error::{FileError, NotSettled};
pub use files::Files;
pub use idle::IdleHandles;
pub use known_level::KnownLevel;
pub use picture::{Picture, Unreadable};
pub use record::Record;
