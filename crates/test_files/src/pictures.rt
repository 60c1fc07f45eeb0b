//! Four files, two of them with two generations.
ghost use Rattle.std.specs.Prelude.{◌≡◌, ◌%◌, ◌&&◌, ◌||◌, ◌==◌, nat_lt, slice_index};
ghost use Rattle.std.specs.Prelude.{Some, None, refl, if◌then◌else◌};
ghost use Rattle.std.proofs.Common.{arith, lit≤};
ghost use Rattle.tex_world.specs.Names.{name_at, distinct_names};
ghost use Rattle.test_files.specs.declared.bytes.TheConstants.{SMALL, THREE, EDGE_TILES_HEAD};
ghost use Rattle.test_files.specs.Names.{file_names};

use crate::bytes::{EDGE_TILES_HEAD, SMALL, THREE};
use tex_world::FileTable;

fn byte_of_tiled(at: u64) -> u8
    ensures { result ≡ (if nat_lt at 150 then slice_index EDGE_TILES_HEAD at else at % 251) }
{
    if at < 150 {
        EDGE_TILES_HEAD[at as usize]
    } else {
        (at % 251) as u8
    }
}

/// `A.tif` has 4 by 4 texels, and 3 by 1 in generation 2. `three.tif` has 3 by 1, and `short.tif`
/// ends in its header. `B.tif` has two tiles, in which each byte is its place in the file modulo
/// 251; in generation 2 it has 3 by 1 texels in a strip.
#[derive(Drop)]
pub struct Pictures;

impl FileTable for Pictures {
    ghost count_of = { 4 };

    ghost name_of = { name_at file_names };

    ghost len_of = { λ n g.
        if g == 1 then Some (if n == 0 then 138 else if n == 1 then 125 else if n == 2 then 7 else 768)
        else if g == 2 && (n == 0 || n == 3) then Some 125 else None };

    ghost byte_of = { λ n g at.
        if g == 2 || n == 1 then slice_index THREE at
        else if n == 3 then (if nat_lt at 150 then slice_index EDGE_TILES_HEAD at else at % 251)
        else slice_index SMALL at };

    ghost few = { lit≤ tt };

    ghost distinct = { distinct_names file_names refl };

    fn count() -> u32 {
        4
    }

    fn name(n: u32) -> &'static str {
        match n {
            0 => "A.tif",
            1 => "three.tif",
            2 => "short.tif",
            _ => "B.tif",
        }
    }

    fn len(n: u32, g: u32) -> Option<u64> {
        let first = match n {
            0 => 138,
            1 => 125,
            2 => 7,
            _ => 768,
        };
        if g == 1 {
            Some(first)
        } else if g == 2 && (n == 0 || n == 3) {
            Some(125)
        } else {
            None
        }
    }

    fn byte(n: u32, g: u32, at: u64) -> u8 {
        if g == 2 || n == 1 {
            THREE[at as usize]
        } else if n == 3 {
            byte_of_tiled(at)
        } else {
            SMALL[at as usize]
        }
    }

    ghost first = { λ n low. Prim.grind arith };
}
