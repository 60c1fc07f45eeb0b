//! Makes the shards of a new gate.
ghost use Rattle.std.specs.Prelude.{◌≡◌, ◌≤◌, length, map, IfOk};
ghost use Rattle.tiff_format.specs.Cut.{IsCut};
ghost use Rattle.tile_store.specs.Tag.{tag_of};
ghost use Rattle.shard_gate.specs.Seated.{AreMadeBy, first_seat};
ghost use Rattle.shard_gate.specs.Gate.{max_budget, max_permits};

use crate::rule::Terms;
use crate::shard_table::{ShardSeat, ShardTable};
use crate::turn_table::TurnTable;
use crossbeam_utils::CachePadded;
use std::alloc::{AllocError, Global};
use tex_world::World;
use tiff_format::{AUTOTILE_STEP, Cut};
use tile_store::Shard;

/// The number of tags per share: a tag is the share times this, plus the cut.
const SHARE_STEP: u64 = 1024;

/// The tag of a shard, which encodes its share and its cut.
#[tactic(auto, unfolding(tile_store::specs::Tag::tag_of))]
pub(crate) fn tag_for(share: u64, cut: Cut) -> u64
    requires share { share ≤ max_budget }
    requires cut { IsCut cut }
    ensures { result ≡ tag_of share cut }
{
    let side = (cut.autotile / AUTOTILE_STEP) as u64;
    SHARE_STEP * share + 2 * side + if cut.automip { 1 } else { 0 }
}

/// Makes `shards` empty shards, and a seat at each. The seat has all permits.
pub(crate) fn laid<W: World>(
    alloc: Global,
    shards: usize,
    terms: &Terms,
) -> Result<(Vec<ShardTable<W>>, Vec<ShardSeat<W>>), AllocError>
    requires few { terms.now.passes ≤ max_permits }
    requires some { 1 ≤ terms.now.passes }
    ensures made { IfOk result (λ made. AreMadeBy terms.now made.0.items) }
    ensures count { IfOk result (λ made. length made.0.items ≡ shards) }
    ensures seats { IfOk result (λ made. made.1.items ≡ map first_seat made.0.items) }
{
    let mut tables = Vec::with_capacity(alloc, shards)?;
    let mut seats = Vec::with_capacity(alloc, shards)?;
    for _shard in 0..shards {
        let Ok(shard) = Shard::with_slots(alloc, terms.slots()) else {
            return Err(AllocError);
        };
        // needed by the proof: each tile is in a slot
        let _ = shard.tiles();
        let (table, seat) = TurnTable::new(alloc, terms, CachePadded::new(shard))?;
        tables.push_reserved(table);
        seats.push_reserved(seat);
    }
    Ok((tables, seats))
}
