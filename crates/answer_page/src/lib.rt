//! Buffers the lines of answers on a page, and writes the page when it is full.
#![tactic(auto)]

mod page;

pub use page::Page;
