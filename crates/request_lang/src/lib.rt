//! The language of requests and answers: parses a list of requests, and prints the line of each
//! answer.
#![tactic(auto)]

mod answer;
mod cause;
mod closing;
mod line;
mod line_field;
mod list;
mod request;
mod request_form;
mod values;

pub use answer::{Answer, Shards, Values};
pub use cause::{BadList, ParseError};
pub use closing::{Counts, total_text, worker_text};
pub use line::{bad_list_text, head_text, line_text, short_line_text};
pub use list::{MAX_LIST_BYTES, MAX_REQUESTS, parse};
pub use request::{Name, Request};
pub use values::{FEW_VALUES, MAX_PART_BYTES, PART_VALUES, values_text};
