//! Tests of what threads share: a lock, the board, shards with up to four threads, and the file
//! table with records and idle handles. The files are in memory or in a real folder, and change
//! between calls. Also tested: two taps of one folder, loading tiles, read-ahead, and texels in
//! slots.
#![tactic(auto)]

#[cfg(test)]
mod bench;
#[cfg(test)]
mod boards;
#[cfg(test)]
mod cell_reader;
#[cfg(test)]
mod gate_calls;
#[cfg(test)]
mod gate_pins;
#[cfg(test)]
mod gate_steps;
#[cfg(test)]
mod gate_threads;
#[cfg(test)]
mod locks;
#[cfg(test)]
mod read_ahead;
#[cfg(test)]
mod real_folder;
#[cfg(test)]
mod real_reads;
#[cfg(test)]
mod real_taps;
#[cfg(test)]
mod record_rows;
#[cfg(test)]
mod script;
#[cfg(test)]
mod seat;
#[cfg(test)]
mod shared_table;
#[cfg(test)]
mod slots;
#[cfg(test)]
mod tile_loads;
#[cfg(test)]
mod waiters;
#[cfg(test)]
mod worker;
