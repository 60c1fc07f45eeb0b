//! A trait for items that a microcache can keep.
ghost use Rattle.std.specs.Prelude.{◌≡◌, ℕ};

use tile_layout::TileKey;

/// An item with the key of a cell.
pub trait Keyed {
    /// The key of the item's cell.
    ghost own_key: { Self → ℕ };

    /// The key of the item's cell.
    fn key(&self) -> TileKey
        ensures value { result ≡ own_key self.now };
}
