//! Replaces the UDIM mark in a name by the number of a tile.

ghost use Rattle.std.specs.Prelude.{◌≡◌, ◌++◌, None, IfOk, OnErr, IfNone, IfSome, true};
ghost use Rattle.std.specs.Fmt.{decimal};
ghost use Rattle.udim.specs.Udim as spec;
ghost use Rattle.udim.specs.Parts.{AreRoundMark};

use crate::file::Udim;
use crate::tile::{tile_number, within_tile};
use request_lang::Name;
use std::alloc::{AllocError, Global};
use tex_world::NoMemory;

/// The mark: what a name has in place of a tile's number.
const MARK: &str = "<UDIM>";

/// The parts of a name before and after its first mark.
#[tactic(auto, using(crate::proofs::MarkLemmas::mark_lacking))]
fn round_mark(name: &str) -> Option<(&str, &str)>
    ensures none { IfNone result (spec.mark_at name.now ≡ None) }
    ensures some { IfSome result (λ parts. AreRoundMark name.now parts.0.now parts.1.now) }
{
    name.split_once(MARK)
}

/// The name with a number between two texts.
fn numbered(alloc: Global, before: &str, number: u32, behind: &str) -> Result<Name, AllocError>
    ensures { IfOk result (λ name. name ≡ before.now ++ (decimal number ++ behind.now)) }
{
    Ok(Name::new(format!(in alloc; "{before}{number}{behind}")?))
}

/// Which file a name means for a lookup at s and t, in 1/65536. Allocates only the name of a tile.
#[tactic(auto, using(crate::proofs::NameLemmas::meanings))]
pub fn udim(alloc: Global, name: &str, s: i32, t: i32) -> Result<Udim, NoMemory>
    ensures value { IfOk result (λ u. u ≡ spec.udim_of name.now s t) }
    ensures within { IfOk result spec.LiesWithin }
    ensures plain { spec.mark_at name.now ≡ None → result ≡ Ok Udim.Plain }
    ensures err { OnErr result (spec.is_tile (spec.udim_of name.now s t) ≡ true) }
{
    let Some((before, behind)) = round_mark(name) else {
        return Ok(Udim::Plain);
    };
    let Some(number) = tile_number(s, t) else {
        return Ok(Udim::Outside);
    };
    match numbered(alloc, before, number, behind) {
        Ok(name) => Ok(Udim::Tile {
            name,
            s: within_tile(s),
            t: within_tile(t),
        }),
        Err(_) => Err(NoMemory),
    }
}
