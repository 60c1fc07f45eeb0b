//! Tests around requests. They cover lines with large numbers, the texels that lookups visit,
//! footprints, folders in memory and real folders with their taps, feeds and sinks, and the sample
//! files. They also cover whole runs in which something fails, a file changes or several workers
//! answer. Runs without failures, and invalid arguments and lists, are tested by the program's
//! stored run and by lists that CI gives to it.
#![tactic(auto)]

#[cfg(test)]
mod answers;
#[cfg(test)]
mod changing_file;
#[cfg(test)]
mod each_in_turn;
#[cfg(test)]
mod ellipses;
#[cfg(test)]
mod failures;
#[cfg(test)]
mod footprints;
#[cfg(test)]
mod letters;
#[cfg(test)]
mod memory;
#[cfg(test)]
mod picture;
#[cfg(test)]
mod plans;
#[cfg(test)]
mod ran;
#[cfg(test)]
mod real_folder;
#[cfg(test)]
mod samples;
#[cfg(test)]
mod small_files;
#[cfg(test)]
mod streams;
#[cfg(test)]
mod stress;
#[cfg(test)]
mod visits;
#[cfg(test)]
mod workers;
