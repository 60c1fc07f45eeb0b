//! A caller of the cache for programs that do the input and output themselves. A call says which bytes
//! it needs; they are supplied, and the call is made again.
#![tactic(auto)]

mod answer;
mod batch;
mod bytes;
mod client;
mod holds;
mod request;
mod rounds;
mod saying;
mod saying_batch;
mod supplying;

pub use answer::{
    ANSWERED, BAD_OPTIONS, BAD_REQUEST, BUSY, NEEDED, NO_FILE, NO_MEMORY, NO_PART, NO_PERMIT,
    NOT_LOCAL, NOTHING_HELD, SMALL_BUFFER, TexAnswer,
};
pub use batch::{TexBatch, TexBatchAnswer};
pub use bytes::Bytes;
pub use client::Client;
pub use holds::{TexCounts, TexShard, TexTexel, TexTile};
pub use request::TexLookup;
pub use saying::{TexInfo, TexRegion};
