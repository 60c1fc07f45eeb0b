//! A world that is not modelled, and tiles of it.
ghost use Rattle.std.specs.Prelude.{◌≡◌, ◌*◌, ◌≤◌, IfOk};
ghost use Rattle.test_files.specs.Untold.{untold, untold_is_world};

use std::alloc::{AllocError, Global};
use tex_world::World;
use tiff_format::Rect;
use tile_layout::TileKey;
use tile_store::Tile;

/// The world that is not modelled.
#[derive(Drop)]
pub struct Untold;

impl World for Untold {
    ghost files = { untold };

    ghost lawful = { untold_is_world };
}

/// A tile of this width and height with three samples per texel, all 0.
pub fn gray(alloc: Global, key: TileKey, w: u32, h: u32) -> Result<Tile<Untold>, AllocError>
    requires size { w * h * 3 ≤ 16777216 }
    ensures key { IfOk result (λ tile. tile.key ≡ key) }
{
    let texels = vec![in alloc; 0u16; (w * h * 3) as usize]?;
    Ok(Tile::new(key, Rect { x: 0, y: 0, w, h }, 3, texels))
}
