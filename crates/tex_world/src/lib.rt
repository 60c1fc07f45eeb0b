//! The outside world as traits, each with an implementation in memory: folders, taps that read
//! files, a feed for the requests and a sink for the answers.
#![tactic(auto)]

mod fault;
mod feed;
mod folder;
mod mem_feed;
mod mem_folder;
mod mem_handle;
mod mem_sink;
mod mem_tap;
mod plan;
mod plan_entry;
mod planned;
mod reading;
mod rises;
mod share;
mod sink;
mod table;
mod tap;
mod tap_counters;
mod world;

pub use fault::{EnterError, Failed, NoMemory, OpenError, ReadError};
pub use feed::Feed;
pub use folder::Folder;
pub use mem_feed::MemFeed;
pub use mem_folder::MemFolder;
pub use mem_handle::MemHandle;
pub use mem_sink::MemSink;
pub use mem_tap::{MemTap, fill, fill_rows};
pub use plan::{FailByte, FailCall, Newest, Plan, Rise};
pub use sink::Sink;
pub use table::{FIRST_GENERATION, FileTable, LAST_GENERATION, TableWorld, number_of};
pub use tap::{Tap, TapHandle};
pub use tap_counters::TapCounters;
pub use world::{MAX_FILES, World};
