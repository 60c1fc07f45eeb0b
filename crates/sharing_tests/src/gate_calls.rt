//! The calls of a gate as the tests make them, with a seat that has at most one pin.
ghost use Rattle.std.specs.Prelude.{◌≡◌, length, IfOk, OnOk};
ghost use Rattle.shard_gate.specs.Gate.{SamePins, IfFound, IfNotFound};
ghost use Rattle.sharing_tests.specs.Held.{IsIdleAt, HoldsAt};

use shard_gate::{Gate, NotPinned, Pin, PinError, PinSeat};
use std::alloc::Global;
use test_files::{Checks, Untold};
use tiff_format::Cut;
use tile_layout::TileKey;
use tile_store::Tile;
use waiter::Waiter;

pub type OneGate = Gate<Untold>;

pub type OneSeat = PinSeat<Untold>;

pub type OnePin = Pin<Untold>;

// a cut; no test depends on it
pub const CUT: Cut = Cut {
    autotile: 16,
    automip: false,
};

// Why a test ends early.
#[derive(Clone, Copy, Debug, PartialEq, Eq)]
pub enum Stop {
    NoMemory,
    Busy,
}

// the bytes of each tile
pub const TILE_BYTES: u64 = 1536;

// A tile of 16 by 16 texels with three samples each, all 0.
pub fn gray(alloc: Global, key: TileKey) -> Result<Tile<Untold>, Stop> {
    match test_files::gray(alloc, key, 16, 16) {
        Ok(tile) => Ok(tile),
        Err(_) => Err(Stop::NoMemory),
    }
}

// Pins the tile of a key, if it is there.
#[tactic(auto, using(crate::proofs::HeldLemmas::has_room, crate::proofs::HeldLemmas::held_one))]
pub fn find<T: Waiter>(
    gate: &OneGate,
    waiter: &T,
    seat: &mut OneSeat,
    key: TileKey,
) -> Result<Option<OnePin>, Stop>
    requires { IsIdleAt gate.now.id seat.old }
    ensures one { IfFound result (λ pin. HoldsAt gate.now.id pin.tile.key seat.new) }
    ensures none { IfNotFound result (IsIdleAt gate.now.id seat.new) }
{
    seat.permits();
    match gate.pin(waiter, seat, key) {
        Ok(found) => Ok(found),
        Err(PinError::NoMemory) => Err(Stop::NoMemory),
        Err(PinError::Busy(_)) => Err(Stop::Busy),
    }
}

// Puts a tile into its shard, with a pin.
#[tactic(auto, using(crate::proofs::HeldLemmas::has_room, crate::proofs::HeldLemmas::held_one))]
pub fn keep<T: Waiter>(
    gate: &OneGate,
    waiter: &T,
    seat: &mut OneSeat,
    tile: Tile<Untold>,
) -> Result<OnePin, Stop>
    requires { IsIdleAt gate.now.id seat.old }
    ensures { IfOk result (λ pin. HoldsAt gate.now.id pin.tile.key seat.new) }
{
    seat.permits();
    match gate.pin_new(waiter, seat, tile) {
        Ok(pin) => Ok(pin),
        Err(NotPinned::NoMemory) => Err(Stop::NoMemory),
        Err(NotPinned::Busy { tile: _, busy: _ }) => Err(Stop::Busy),
    }
}

// Gives back the only pin.
#[tactic(auto, using(crate::proofs::HeldLemmas::held_key, crate::proofs::HeldLemmas::held_none))]
pub fn unpin<T: Waiter>(
    gate: &OneGate,
    waiter: &T,
    seat: &mut OneSeat,
    pin: OnePin,
) -> Result<(), Stop>
    requires { HoldsAt gate.now.id pin.tile.key seat.old }
    ensures { OnOk result (IsIdleAt gate.now.id seat.new) }
{
    match gate.unpin(waiter, seat, pin) {
        Ok(()) => Ok(()),
        Err(_) => Err(Stop::Busy),
    }
}

// The tiles, the pins, the unpinned bytes and the shares, each summed over all shards.
pub fn counts<T: Waiter>(
    gate: &OneGate,
    waiter: &T,
    seat: &mut OneSeat,
    shards: u32,
) -> Result<[u64; 4], Stop>
    requires gate { seat.old.gate ≡ gate.now.id }
    requires shards { shards ≡ length gate.now.id }
    ensures { SamePins seat.old seat.new }
{
    let mut sums = [0u64; 4];
    for shard in 0..shards {
        let Ok(count) = gate.count(waiter, seat, shard) else {
            return Err(Stop::Busy);
        };
        sums[0] = sums[0].saturating_add(count.tiles as u64);
        sums[1] = sums[1].saturating_add(count.pins as u64);
        sums[2] = sums[2].saturating_add(count.loose);
        sums[3] = sums[3].saturating_add(count.share);
    }
    Ok(sums)
}

// Compares the counts of all shards.
pub fn check_counts(checks: &mut Checks, found: [u64; 4], wanted: [u64; 4]) {
    checks.equal("tiles", found[0], wanted[0]);
    checks.equal("pins", found[1], wanted[1]);
    checks.equal("unpinned bytes", found[2], wanted[2]);
    checks.equal("shares", found[3], wanted[3]);
}
