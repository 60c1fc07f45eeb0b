//! As many pins as a permit allows, given back one after another.
ghost use Rattle.std.specs.Prelude.{◌≡◌, ◌<◌, ◌≤◌, ◌+◌, ◌*◌, length, OnOk, IfOk};
ghost use Rattle.shard_gate.specs.Gate.{max_pins, OnePinMore};
ghost use Rattle.sharing_tests.specs.Held.{SameKeys};

use crate::gate_calls::{CUT, OneGate, OnePin, OneSeat, Stop, check_counts, counts, gray};
use std::alloc::Global;
use std::test::Fail;
use test_files::Checks;
use tile_layout::TileKey;
use waiter::Tries;

// Puts a cell of a level into its shard, with a pin.
fn kept(gate: &OneGate, alloc: Global, seat: &mut OneSeat, index: u32) -> Result<OnePin, Stop>
    requires gate { seat.old.gate ≡ gate.now.id }
    requires room { length seat.old.pins < max_pins * seat.old.permits }
    requires index { index < 100 }
    ensures { IfOk result (λ pin. OnePinMore pin.tile.key seat.old seat.new) }
{
    let tile = gray(alloc, TileKey::new(1, 1, 0, index))?;
    match gate.pin_new(&Tries::new(1), seat, tile) {
        Ok(pin) => Ok(pin),
        Err(_) => Err(Stop::NoMemory),
    }
}

#[tactic(auto, using(crate::proofs::HeldLemmas::same_keys))]
// The counts while this many cells are pinned, each call nested in another.
fn counts_inside(
    gate: &OneGate,
    alloc: Global,
    seat: &mut OneSeat,
    left: u32,
) -> Result<[u64; 4], Stop>
    requires gate { seat.old.gate ≡ gate.now.id }
    requires shards { length gate.now.id ≡ 1 }
    requires few { left < 100 }
    requires room { length seat.old.pins + left ≤ max_pins * seat.old.permits }
    ensures { OnOk result (SameKeys seat.old seat.new) }
{
    if left == 0 {
        return counts(gate, &Tries::new(1), seat, 1);
    }
    let pin = kept(gate, alloc, seat, left)?;
    let inside = counts_inside(gate, alloc, seat, left - 1)?;
    match gate.unpin(&Tries::new(1), seat, pin) {
        Ok(()) => Ok(inside),
        Err(_) => Err(Stop::Busy),
    }
}

#[test]
fn counts_all_pins_of_a_permit(rt: HostRuntime) -> Result<(), Fail> {
    let (gate, mut seat) = OneGate::new(rt.alloc(), 1, 1, 1, CUT)?;
    let mut checks = Checks::new();
    checks.case("while all are pinned");
    let inside = counts_inside(&gate, rt.alloc(), &mut seat, 7)?;
    check_counts(&mut checks, inside, [7, 7, 0, 1]);
    checks.case("after all came back");
    let left = counts(&gate, &Tries::new(1), &mut seat, 1)?;
    check_counts(&mut checks, left, [0, 0, 0, 1]);
    checks.result()
}
