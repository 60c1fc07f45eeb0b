//! What one caller has of a gate: permits and pins.
ghost use Rattle.std.specs.Prelude.{◌≡◌, ◌*◌, ◌≤◌, length};
ghost use Rattle.shard_gate.specs.Gate.{max_permits, max_pins};

use crate::shard_table::ShardSeat;
use std::marker::Model;
use tex_world::World;

/// What one caller has of a gate: its permits, and a seat at each shard. Clauses see the permits,
/// the keys of its pins, the gate, and its visits to each shard. Pins and visits exist only for the
/// proof and take no memory.
#[derive(Drop)]
pub struct PinSeat<W: World> {
    pub(crate) seats: Vec<ShardSeat<W>>,
    pub(crate) permits: u32,
}

impl<W: World> Model for PinSeat<W> {
    ghost use Rattle.shard_gate.specs.Gate.{PinSeatState};
    ghost use Rattle.shard_gate.specs.Kept.{seat_state, IsPinSeat};

    ghost Value = { PinSeatState };

    ghost view = { λ p. seat_state p.seats.items p.permits };

    ghost invariant = { λ p. IsPinSeat p.seats.items p.permits };
}

impl<W: World> PinSeat<W> {
    /// The number of permits. For each, seven pins are allowed.
    pub fn permits(&self) -> u32
        ensures value { result ≡ self.now.permits }
        ensures some { 1 ≤ result }
        ensures few { result ≤ max_permits }
        ensures pins { length self.now.pins ≤ max_pins * result }
    {
        self.permits
    }
}
