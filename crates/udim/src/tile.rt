//! Finds the UDIM tile that contains a lookup.

ghost use Rattle.std.specs.Prelude.{◌≡◌};
ghost use Rattle.texel_filter.specs.Coordinate.{rounded_down, unit};
ghost use Rattle.udim.specs.Udim as spec;

/// The number of bits of a coordinate that say where it is within its tile.
const UNIT_BITS: u32 = 16;

/// The side of a tile, in 1/65536.
const UNIT: i32 = 65536;

/// The number of the first tile.
const FIRST_NUMBER: u32 = 1001;

/// The number of tiles in a row.
const TILES_ACROSS: u32 = 10;

/// The greatest number of a tile.
const MAX_NUMBER: u32 = 9999;

/// The index of the tile that contains a coordinate, along one axis. Negative before the first
/// tile.
fn tiles_before(z: i32) -> i32
    ensures { result ≡ rounded_down z unit }
{
    z >> UNIT_BITS
}

/// Where a coordinate is within its tile.
pub(crate) fn within_tile(z: i32) -> i32
    ensures value { result ≡ spec.within_tile z }
    ensures within { spec.IsWithinTile result }
{
    z - tiles_before(z) * UNIT
}

/// The number of the tile that contains the coordinates, if there is one.
#[tactic(auto, unfolding(crate::specs::Udim::tile_number))]
pub(crate) fn tile_number(s: i32, t: i32) -> Option<u32>
    ensures { result ≡ spec.tile_number s t }
{
    let (utile, vtile) = (tiles_before(s), tiles_before(t));
    if utile < 0 || vtile < 0 || utile as u32 >= TILES_ACROSS {
        return None;
    }
    let number = FIRST_NUMBER + utile as u32 + TILES_ACROSS * vtile as u32;
    if number > MAX_NUMBER {
        return None;
    }
    Some(number)
}
