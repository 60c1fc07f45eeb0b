//! A seat at one shard, while it does not have the lock.
use crate::standing::Standing;
use atomic_table::Seat;
use std::marker::Model;

/// A seat at one table, while it does not have the lock. Clauses see the table, its permits and its
/// visits.
#[derive(Drop)]
pub(crate) struct TurnSeat<S> {
    pub(crate) seat: Seat<S, Standing>,
    /// The seat's permits.
    pub(crate) permits: u32,
}

impl<S> Model for TurnSeat<S> {
    ghost use Rattle.shard_gate.specs.Seated.{SeatAt, seat_at, IsSeated};

    ghost Value = { SeatAt };

    ghost view = { λ s. seat_at s.seat };

    ghost invariant = { λ s. IsSeated s.seat.me s.permits };
}
