//! The counts of a shard.
/// The counts and the memory of one shard of the cache.
#[derive(Clone, Copy, Debug, PartialEq, Eq)]
pub struct ShardCount {
    /// The number of tiles.
    pub tiles: u32,
    /// The number of pins on them.
    pub pins: u32,
    /// The bytes of its unpinned tiles.
    pub loose: u64,
    /// The most bytes that its unpinned tiles may take.
    pub share: u64,
}
