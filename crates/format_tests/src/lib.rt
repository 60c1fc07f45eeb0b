//! Tests of reading small files in memory: levels and faults, samples, the number of reads, the
//! places of texels, keys, loading cells, tiles, shards, and the microcache. Expected values were
//! worked out by hand from the rules; none comes from a program's output.
#![tactic(auto)]

#[cfg(test)]
mod cell_loads;
#[cfg(test)]
mod cells;
#[cfg(test)]
mod files;
#[cfg(test)]
mod keys;
#[cfg(test)]
mod latest_items;
#[cfg(test)]
mod layouts;
#[cfg(test)]
mod made_textures;
#[cfg(test)]
mod plain_rects;
#[cfg(test)]
mod plain_shard;
#[cfg(test)]
mod reads;
#[cfg(test)]
mod rect_cases;
#[cfg(test)]
mod rects;
#[cfg(test)]
mod shard_calls;
#[cfg(test)]
mod shards;
#[cfg(test)]
mod texels;
#[cfg(test)]
mod tiles;
#[cfg(test)]
mod unpacking;
