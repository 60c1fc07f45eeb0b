//! Makes requests from a number and answers them from the sample files, by the top call of
//! texcache.
#![tactic(auto)]

mod draws;
mod list_feed;
mod lookup;
mod made_list;
mod size;
mod summary;
mod top;

pub use top::sample;
