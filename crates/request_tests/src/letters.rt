//! Two small files, the first with three generations.
ghost use Rattle.std.specs.Prelude.{◌+◌, ◌*◌, ◌&&◌, ◌==◌, nat_le, [], ◌∷◌, Some, None, refl};
ghost use Rattle.std.specs.Prelude.{if◌then◌else◌, codes};
ghost use Rattle.std.proofs.Common.{arith, lit≤};
ghost use Rattle.tex_world.specs.Names.{name_at, distinct_names};

use tex_world::FileTable;

/// `A.tif` has 4 bytes in generations 1, 2 and 3, and `short.tif` has 3 bytes in one. The byte at a
/// place is the place plus ten times the generation.
#[derive(Drop)]
pub(crate) struct Letters;

impl FileTable for Letters {
    ghost count_of = { 2 };

    ghost name_of = { name_at (codes "A.tif" ∷ codes "short.tif" ∷ []) };

    ghost len_of = { λ n g.
        if n == 0 && (nat_le 1 g && nat_le g 3) then Some 4
        else if n == 1 && g == 1 then Some 3 else None };

    ghost byte_of = { λ n g at. 10 * g + at };

    ghost few = { lit≤ tt };

    ghost distinct = { distinct_names (codes "A.tif" ∷ codes "short.tif" ∷ []) refl };

    fn count() -> u32 {
        2
    }

    fn name(n: u32) -> &'static str {
        if n == 0 { "A.tif" } else { "short.tif" }
    }

    fn len(n: u32, g: u32) -> Option<u64> {
        if n == 0 && g >= 1 && g <= 3 {
            Some(4)
        } else if n == 1 && g == 1 {
            Some(3)
        } else {
            None
        }
    }

    fn byte(_n: u32, g: u32, at: u64) -> u8 {
        10 * g as u8 + at as u8
    }

    ghost first = { λ n low. Prim.grind arith };
}
