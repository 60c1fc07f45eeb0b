//! The options of a new cache, as C writes them.
ghost use Rattle.std.specs.Prelude.{◌≡◌};
ghost use Rattle.tex_c.specs.Exports.{large_of};

use image_cache::{LargeOptions, Options};
use tiff_format::Cut;

/// The options of a new cache.
#[repr(C)]
#[derive(Clone, Copy, Debug, PartialEq, Eq)]
pub struct TexOptions {
    /// The most bytes of unpinned tiles, 0 to 2^40.
    pub budget: u64,
    /// The number of shards, 1 to 64.
    pub shards: u32,
    /// The greatest number of passes at one time, 1 to 1024.
    pub passes: u32,
    /// The greatest number of idle handles, 1 to 1024.
    pub handles: u32,
    /// The side of the cells of stripped levels, in texels: 0, or a multiple of 16 up to 4096.
    pub autotile: u32,
    /// The number of slots for parts of rows whose tiles find no memory, 0 to 65536.
    pub slots: u32,
    /// How many tiles each shard can keep, up to 65536; at least 1024 and 7 for each pass.
    pub tiles_per_shard: u32,
    /// Whether smaller levels are generated.
    pub automip: bool,
}

impl TexOptions {
    /// Converts them to the options of a large cache.
    pub(crate) fn large(&self) -> LargeOptions
        ensures { result ≡ large_of self.now }
    {
        let cut = Cut {
            autotile: self.autotile,
            automip: self.automip,
        };
        LargeOptions {
            options: Options {
                budget: self.budget,
                shards: self.shards,
                passes: self.passes,
                handles: self.handles,
                cut,
                slots: self.slots,
            },
            tiles_per_shard: self.tiles_per_shard,
        }
    }
}
