//! What a call needs, and what the caller can supply.
ghost use Rattle.std.specs.Prelude.{◌≡◌, ◌≤◌, length, IfSome, IsNone};
ghost use Rattle.tex_world.specs.World.{last_generation};
ghost use Rattle.supplied_tap.specs.Truth.{IsTrueLook, AreTrueBytes, AreTrueRows};

use crate::handle::SuppliedHandle;
use tex_world::TapHandle;

/// Rows of one generation of a file. The first begins at `at`, each has `row` bytes, and each
/// begins `stride` bytes after the one before.
#[repr(C)]
#[derive(Clone, Copy, Debug, PartialEq, Eq)]
pub struct RowsAt {
    pub file: u32,
    pub generation: u32,
    pub at: u64,
    pub stride: u64,
    pub row: u64,
}

/// What a call needs to go on.
#[derive(Clone, Copy, Debug, PartialEq, Eq)]
pub enum Need {
    /// The generation and the length of a file. The generation must be at least the one named.
    Look {
        file: u32,
        least: u32,
    },
    /// Bytes of this generation of a file from a place on. At least `least`; at most `most`, which
    /// reaches to the end of the file.
    Bytes {
        file: u32,
        generation: u32,
        at: u64,
        least: u64,
        most: u64,
    },
    /// Rows, `size` bytes together.
    Rows {
        rows: RowsAt,
        size: u64,
    },
}

/// Why a supply is not accepted. Nothing changes then.
#[derive(Clone, Copy, Debug, PartialEq, Eq)]
pub enum SupplyError {
    /// No call needs anything of this kind.
    NotNeeded,
    /// It is for another file or another place than what is needed.
    OtherPlace,
    /// Its generation is older than the one needed.
    Older,
    /// Its generation is a different, newer one, or not a number from 1 to 1048575.
    OtherGeneration,
    /// It has fewer bytes than needed.
    Short,
    /// It reaches past the end of the file, or has more bytes than the rows that are needed.
    Long,
    /// Out of memory.
    NoMemory,
}

/// A file's generation and its length, as a caller reports them.
#[repr(C)]
#[derive(Clone, Copy, Debug, PartialEq, Eq)]
pub struct Seen {
    pub file: u32,
    pub generation: u32,
    pub len: u64,
}

/// A file's generation and its length, as the tap keeps them.
#[derive(Clone, Copy, Debug)]
pub struct FileVersion {
    pub file: u32,
    pub generation: u32,
    pub len: u64,
    ghost low: { 1 ≤ generation },
    ghost high: { generation ≤ last_generation },
    ghost told: { IsTrueLook file generation len },
}

/// Supplied bytes of one generation of a file, from a place on.
#[derive(Drop)]
pub struct SuppliedBytes {
    pub file: u32,
    pub generation: u32,
    pub at: u64,
    pub bytes: Vec<u8>,
    ghost told: { AreTrueBytes file generation at bytes.items },
}

impl SuppliedBytes {
    ghost use Rattle.supplied_tap.specs.SuppliedTap.{Covers};

    /// The `size` bytes of a handle's file at `at`, if this part has all of them.
    pub(crate) fn slice(&self, handle: &SuppliedHandle, at: u64, size: usize) -> Option<&[u8]>
        ensures long { IfSome result (λ bytes. length bytes.now ≡ size) }
        ensures told { IfSome result (λ bytes.
            AreTrueBytes handle.now.file handle.now.generation at bytes.now) }
        ensures none { IsNone result
            → ¬ Covers self.now handle.now.file handle.now.generation at size }
    {
        if self.file != handle.file() || self.generation != handle.generation() {
            return None;
        }
        let bytes = &self.bytes[..];
        if at < self.at || size > bytes.len() || at - self.at > (bytes.len() - size) as u64 {
            return None;
        }
        let start = (at - self.at) as usize;
        Some(&bytes[start..start + size])
    }
}

/// Supplied rows.
#[derive(Drop)]
pub struct SuppliedRows {
    pub place: RowsAt,
    pub bytes: Vec<u8>,
    ghost told: { AreTrueRows place bytes.items },
}

impl SuppliedRows {
    ghost use Rattle.supplied_tap.specs.SuppliedTap.{HasRows};

    /// The bytes, if they are those of these rows, `size` together.
    pub(crate) fn all(&self, place: &RowsAt, size: usize) -> Option<&[u8]>
        ensures long { IfSome result (λ bytes. length bytes.now ≡ size) }
        ensures told { IfSome result (λ bytes. AreTrueRows place.now bytes.now) }
        ensures none { IsNone result → ¬ HasRows self.now place.now size }
    {
        if self.place != *place {
            return None;
        }
        let bytes = &self.bytes[..];
        if bytes.len() != size {
            return None;
        }
        Some(bytes)
    }
}
