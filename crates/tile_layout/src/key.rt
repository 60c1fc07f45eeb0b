//! The key of a cell: a number that identifies it in the whole cache.
ghost use Rattle.std.specs.Prelude.{◌≡◌, ℕ, ◌+◌, ◌^◌, ◌<◌, ◌≤◌};
ghost use Rattle.tile_layout.specs.Key.{key_of, generation_of, file_of, level_of, index_of};
ghost use Rattle.tile_layout.specs.Key.{FitsKey, HasParts, IsKey, index_bits};

use std::marker::Model;

/// The numbers of bits for the cell's index, the level and the file. The generation has the rest.
const INDEX_BITS: u32 = 27;

const LEVEL_BITS: u32 = 5;

const FILE_BITS: u32 = 12;

/// The lowest bits of the level, the file and the generation.
const LEVEL_SHIFT: u32 = INDEX_BITS;

const FILE_SHIFT: u32 = LEVEL_SHIFT + LEVEL_BITS;

const GENERATION_SHIFT: u32 = FILE_SHIFT + FILE_BITS;

/// Identifies a cell: generation, file, level and index in one number. Clauses see this number,
/// which is never 0.
#[derive(Clone, Copy, Debug, PartialEq, Eq, Hash)]
pub struct TileKey {
    number: u64,
}

impl Model for TileKey {
    ghost use Rattle.tile_layout.specs.Key.{IsKey};
    ghost use Rattle.std.specs.Prelude.{ℕ};

    ghost Value = { ℕ };

    ghost view = { λ key. key.number };

    ghost invariant = { λ key. IsKey key.number };

    ghost inverse = { λ n. record { number = n } };
}

impl TileKey {
    /// The key of a cell. Different cells have different keys.
    pub fn new(generation: u32, file: u32, level: u32, index: u32) -> TileKey
        requires { FitsKey generation file level index }
        ensures value { result ≡ key_of generation file level index }
        ensures parts { HasParts generation file level index result }
        ensures only { (key : ℕ) → HasParts generation file level index key → key ≡ result }
        ensures valid { IsKey result }
    {
        let file_number = ((generation as u64) << FILE_BITS) + file as u64;
        let level_number = (file_number << LEVEL_BITS) + level as u64;
        TileKey {
            number: (level_number << INDEX_BITS) + index as u64,
        }
    }

    /// The key of another cell of the same level. This key must be that of the level's first cell.
    pub fn with_index(&self, index: u32) -> TileKey
        requires first { index_of self.now ≡ 0 }
        requires index { index < 2 ^ index_bits }
        ensures value { result ≡ self.now + index }
        ensures parts { HasParts (generation_of self.now) (file_of self.now) (level_of self.now)
            index result }
        ensures valid { IsKey result }
    {
        TileKey {
            number: self.number + u64::from(index),
        }
    }

    /// The key as a number.
    pub fn number(&self) -> u64
        ensures value { result ≡ self.now }
        ensures some { 1 ≤ result }
    {
        self.number
    }

    /// The generation of the file.
    #[tactic(auto, unfolding(crate::specs::Key::generation_of))]
    pub fn generation(&self) -> u32
        ensures value { result ≡ generation_of self.now }
        ensures valid { IsKey self.now }
    {
        (self.number >> GENERATION_SHIFT) as u32
    }

    /// The number of the file.
    #[tactic(auto, unfolding(crate::specs::Key::file_of))]
    pub fn file(&self) -> u32
        ensures value { result ≡ file_of self.now }
    {
        ((self.number >> FILE_SHIFT) % (1 << FILE_BITS)) as u32
    }

    /// The level of the file.
    #[tactic(auto, unfolding(crate::specs::Key::level_of))]
    pub fn level(&self) -> u32
        ensures value { result ≡ level_of self.now }
    {
        ((self.number >> LEVEL_SHIFT) % (1 << LEVEL_BITS)) as u32
    }

    /// The index of the cell in its level.
    #[tactic(auto, unfolding(crate::specs::Key::index_of))]
    pub fn index(&self) -> u32
        ensures value { result ≡ index_of self.now }
    {
        (self.number % (1 << INDEX_BITS)) as u32
    }
}
