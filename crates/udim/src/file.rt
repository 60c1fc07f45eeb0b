//! The file that a name with a UDIM mark means.
use request_lang::Name;

/// Which file a name means for a lookup.
#[derive(Drop)]
pub enum Udim {
    /// The file with this name, which has no mark.
    Plain,
    /// No file: the lookup is outside all tiles.
    Outside,
    /// The file with this name: the tile that contains the lookup, which is at s and t there.
    Tile { name: Name, s: i32, t: i32 },
}
