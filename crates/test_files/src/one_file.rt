//! A modelled file of one byte.
ghost use Rattle.std.specs.Prelude.{◌&&◌, ◌==◌, nat_le, Some, None, if◌then◌else◌};
ghost use Rattle.std.specs.Prelude.{codes, [], ◌∷◌, refl};
ghost use Rattle.std.proofs.Common.{arith, lit≤};
ghost use Rattle.tex_world.specs.Names.{name_at, distinct_names};

use tex_world::FileTable;

/// `A.tif` has one byte, 0, in generations 1 and 2.
#[derive(Drop)]
pub struct OneFile;

impl FileTable for OneFile {
    ghost count_of = { 1 };

    ghost name_of = { name_at (codes "A.tif" ∷ []) };

    ghost len_of = { λ n g. if n == 0 && (nat_le 1 g && nat_le g 2) then Some 1 else None };

    ghost byte_of = { λ n g at. 0 };

    ghost few = { lit≤ tt };

    ghost distinct = { distinct_names (codes "A.tif" ∷ []) refl };

    fn count() -> u32 {
        1
    }

    fn name(_n: u32) -> &'static str {
        "A.tif"
    }

    fn len(n: u32, g: u32) -> Option<u64> {
        if n == 0 && 1 <= g && g <= 2 {
            Some(1)
        } else {
            None
        }
    }

    fn byte(_n: u32, _g: u32, _at: u64) -> u8 {
        0
    }

    ghost first = { λ n low. Prim.grind arith };
}
