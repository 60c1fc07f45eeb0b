//! The top call `run`: it reads a list of requests and answers it from the files of a folder,
//! through the cache.
#![tactic(auto)]

mod answering;
mod closing;
mod crew;
mod dealing;
mod hook;
mod list;
mod prepare;
mod question;
mod round;
mod status;
mod top;
mod worker;

pub use hook::{Hook, NoHook};
pub use request_lang::{Answer, Name, Request, Values};
pub use status::{BAD_LIST, BAD_WORDS, NO_MEMORY, NOT_WRITTEN, WITH_REFUSALS};
pub use top::run;
