//! A modelled file in tiles.
ghost use Rattle.std.specs.Prelude.{◌&&◌, ◌==◌, ◌%◌, slice_index, nat_lt};
ghost use Rattle.std.specs.Prelude.{[], ◌∷◌, Some, None, refl, if◌then◌else◌, codes};
ghost use Rattle.std.proofs.Common.{arith, lit≤};
ghost use Rattle.tex_world.specs.Names.{name_at, distinct_names};
ghost use Rattle.test_files.specs.declared.bytes.TheConstants.{TILED_HEAD};

use crate::bytes::TILED_HEAD;
use tex_world::FileTable;

/// `B.tif` has 80 by 48 texels, 16 bits and three channels in four tiles of 64 by 32 at 184, 12472,
/// 24760 and 37048. Each of its bytes from 184 on is its place modulo 251. Both generations have the
/// same bytes.
#[derive(Drop)]
pub struct TiledFile;

impl FileTable for TiledFile {
    ghost count_of = { 1 };

    ghost name_of = { name_at (codes "B.tif" ∷ []) };

    ghost len_of = { λ n g. if n == 0 && nat_lt g 3 then Some 49336 else None };

    ghost byte_of = { λ n g at. if nat_lt at 184 then slice_index TILED_HEAD at else at % 251 };

    ghost few = { lit≤ tt };

    ghost distinct = { distinct_names (codes "B.tif" ∷ []) refl };

    fn count() -> u32 {
        1
    }

    fn name(n: u32) -> &'static str {
        match n {
            _ => "B.tif",
        }
    }

    fn len(n: u32, g: u32) -> Option<u64> {
        if n == 0 && g < 3 { Some(49336) } else { None }
    }

    fn byte(n: u32, g: u32, at: u64) -> u8 {
        if at < 184 {
            TILED_HEAD[at as usize]
        } else {
            (at % 251) as u8
        }
    }

    ghost first = { λ n low. Prim.grind arith };
}
