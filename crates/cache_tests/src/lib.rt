//! Tests of the cache and of lookups, on files in memory. They cover regions, holds, records,
//! fetches, lookups, batches, invalidated files, generated levels, errors, passes that are joined, two
//! threads, and a locked shard.
#![tactic(auto)]

#[cfg(test)]
mod apart;
#[cfg(test)]
mod asks;
#[cfg(test)]
mod batches;
#[cfg(test)]
mod busy;
#[cfg(test)]
mod caller;
#[cfg(test)]
mod calls;
#[cfg(test)]
mod folder;
#[cfg(test)]
mod generated;
#[cfg(test)]
mod invalid;
#[cfg(test)]
mod lookups;
#[cfg(test)]
mod opened;
#[cfg(test)]
mod passes;
#[cfg(test)]
mod planned;
#[cfg(test)]
mod records;
#[cfg(test)]
mod refusals;
#[cfg(test)]
mod refused;
#[cfg(test)]
mod small_files;
#[cfg(test)]
mod steps;
#[cfg(test)]
mod taken;
#[cfg(test)]
mod threads;
#[cfg(test)]
mod unread;
#[cfg(test)]
mod worker;
