//! The name of a part of a row.
ghost use Rattle.std.specs.Prelude.{◌≡◌, ◌<◌, ◌≢◌};
ghost use Rattle.tile_slots.specs.RowPart.{slot_of};

/// The texels of a part. Only the last part of a row can have fewer.
pub const PART_TEXELS: u32 = 64;

/// A part of a row in a level of a file's generation: texels `64 * part` to `64 * part + 63`, as
/// far as the level goes.
#[derive(Clone, Copy, Debug, PartialEq, Eq)]
pub struct PartKey {
    pub generation: u32,
    pub file: u32,
    pub level: u32,
    pub part: u32,
    pub row: u32,
}

impl PartKey {
    /// Its slot, if there are `count` slots.
    pub(crate) fn slot(&self, count: u64) -> u64
        requires { count ≢ 0 }
        ensures value { result ≡ slot_of self.now count }
        ensures in_range { result < count }
    {
        let sum = u64::from(self.part)
            + 31 * u64::from(self.row)
            + 7 * u64::from(self.level)
            + 13 * u64::from(self.file)
            + 17 * u64::from(self.generation);
        sum % count
    }
}
