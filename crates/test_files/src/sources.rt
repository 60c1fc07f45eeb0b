//! Modelled files of which textures are made, one of them too large.
ghost use Rattle.std.specs.Prelude.{◌&&◌, ◌==◌, slice_index, nat_lt};
ghost use Rattle.std.specs.Prelude.{[], ◌∷◌, Some, None, refl, if◌then◌else◌, codes};
ghost use Rattle.std.proofs.Common.{arith, lit≤};
ghost use Rattle.tex_world.specs.Names.{name_at, distinct_names};
ghost use Rattle.test_files.specs.declared.bytes.TheConstants.{LARGE_HEAD, SMALL};

use crate::bytes::{LARGE_HEAD, SMALL};
use tex_world::FileTable;

/// `small.tif` has 4 by 4 texels and two generations with the same bytes. `large.tif` has 65536 by
/// 1025 texels, all 0, which are 65536 too many. Both have their strip at 122.
#[derive(Drop)]
pub struct Sources;

impl FileTable for Sources {
    ghost count_of = { 2 };

    ghost name_of = { name_at (codes "small.tif" ∷ codes "large.tif" ∷ []) };

    ghost len_of = { λ n g.
        if g == 1 then Some (if n == 0 then 138 else 67174522)
        else if g == 2 && n == 0 then Some 138 else None };

    ghost byte_of = { λ n g at.
        if n == 0 then slice_index SMALL at
        else (if nat_lt at 122 then slice_index LARGE_HEAD at else 0) };

    ghost few = { lit≤ tt };

    ghost distinct = { distinct_names (codes "small.tif" ∷ codes "large.tif" ∷ []) refl };

    fn count() -> u32 {
        2
    }

    fn name(n: u32) -> &'static str {
        match n {
            0 => "small.tif",
            _ => "large.tif",
        }
    }

    fn len(n: u32, g: u32) -> Option<u64> {
        let first = match n {
            0 => 138,
            _ => 67174522,
        };
        if g == 1 {
            Some(first)
        } else if g == 2 && n == 0 {
            Some(138)
        } else {
            None
        }
    }

    fn byte(n: u32, _g: u32, at: u64) -> u8 {
        if n == 0 {
            SMALL[at as usize]
        } else if at < 122 {
            LARGE_HEAD[at as usize]
        } else {
            0
        }
    }

    ghost first = { λ n low. Prim.grind arith };
}
