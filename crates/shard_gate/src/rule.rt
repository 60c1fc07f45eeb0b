//! The rule that a shard's lock guards, and the limits of a table.
ghost use Rattle.std.specs.Prelude.{◌≡◌, ◌≤◌};
ghost use Rattle.tile_store.specs.CachedTile.{Entries};
ghost use Rattle.shard_gate.specs.Words.{SlotWords, max_permits, slots_of};
ghost use Rattle.shard_gate.specs.Turn.{OneTurn, first_standing};

use crate::standing::Standing;
use atomic_table::TableRule;
use std::marker::PhantomData;

/// Which bodies a table may have, what a visit sees of one, and what the words of its slots say. It
/// is a type without data.
pub(crate) trait BodyRule<S> {
    ghost use Rattle.shard_gate.specs.declared.rule.Terms.{Terms};

    /// The table with these terms may have this body.
    ghost lawful: { Terms → S → Type 0 };

    /// The entries of the body.
    ghost shown: { S → Entries };

    /// The key and the pins of each slot of the body.
    ghost words: { S → SlotWords };
}

/// The number of pins that a seat may hold for each of its permits.
pub const PINS_PER_PERMIT: u32 = 7;

/// The number of slots of a shard in addition to those that all seats together may pin.
pub const MORE_SLOTS: u32 = 1024;

/// The parameters of a new table.
#[derive(Drop)]
pub(crate) struct Terms {
    /// It encodes which bodies the table may have.
    pub tag: u64,
    /// The permits of all live seats together.
    pub passes: u32,
}

impl Terms {
    /// The number of slots of the body.
    pub(crate) fn slots(&self) -> u32
        requires { self.now.passes ≤ max_permits }
        ensures { result ≡ slots_of self.now.passes }
    {
        PINS_PER_PERMIT * self.passes + MORE_SLOTS
    }
}

/// The invariant between atomic steps. At most one seat has the lock. While no seat has it, a
/// lawful body is in the table. The words of the slots say which keys and pins they have.
pub(crate) struct Turns<L> {
    rule: PhantomData<L>,
}

impl<S, L: BodyRule<S>> TableRule<S, Standing, Terms> for Turns<L> {
    ghost holds = { OneTurn L.lawful L.shown L.words };

    ghost first = { first_standing };
}
