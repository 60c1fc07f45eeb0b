//! The seats of one caller, one at each shard.
ghost use Rattle.std.specs.Prelude.{◌≡◌, ◌-◌, ◌*◌, ◌<◌, ◌≤◌, [], length, map, All};
ghost use Rattle.std.specs.Prelude.{vec_capacity};
ghost use Rattle.shard_gate.specs.Words.{max_pins};
ghost use Rattle.shard_gate.specs.Seated.{shard_of_seat, kept_seat, new_seat, joined_seats};

use crate::rule::BodyRule;
use crate::turn_seat::TurnSeat;
use crate::turn_table::TurnTable;

/// Gives one permit of each seat to a second seat at the same shard.
pub(crate) fn split_seats<S: Drop, L: BodyRule<S>>(
    tables: &[TurnTable<S, L>],
    seats: &mut [TurnSeat<S>],
    others: &mut Vec<TurnSeat<S>>,
)
    requires tables { map shard_of_seat seats.old ≡ tables.now }
    requires permits { All (λ s. 1 < s.permits) seats.old }
    requires pins { All (λ s. length s.pins ≤ max_pins * (s.permits - 1)) seats.old }
    requires empty { others.old.items ≡ [] }
    requires room { length seats.old ≤ vec_capacity others.old }
    ensures kept { seats.new ≡ map kept_seat seats.old }
    ensures others { others.new.items ≡ map new_seat seats.old }
{
    for k in 0..tables.len() {
        others.push_reserved(tables[k].split(&mut seats[k]));
    }
}

/// Gives each seat the permits of the other seat at the same shard.
pub(crate) fn join_seats<S: Drop, L: BodyRule<S>>(
    tables: &[TurnTable<S, L>],
    seats: &mut [TurnSeat<S>],
    mut others: Vec<TurnSeat<S>>,
)
    requires tables { map shard_of_seat seats.old ≡ tables.now }
    requires others { map shard_of_seat others.items ≡ tables.now }
    requires pins { All (λ s. s.pins ≡ []) others.items }
    ensures joined { seats.new ≡ joined_seats seats.old others.items }
    ensures few { All (λ s. s.permits ≤ s.shard.passes) seats.new }
{
    'left: while let Some(other) = others.pop() {
        let k = others.len();
        tables[k].join(&mut seats[k], other);
    }
}
