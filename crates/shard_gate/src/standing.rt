//! The proof's record of what a seat knows and may do. Nothing here takes memory.
use std::marker::Model;

/// The visits of a seat to its table, the last one first. They exist only for contracts and take no
/// memory.
pub(crate) struct Visits {}

impl Model for Visits {
    ghost use Rattle.std.specs.Prelude.{List, []};
    ghost use Rattle.shard_gate.specs.Visit.{Visit};

    ghost Value = { List Visit };

    ghost view = { λ v. [] };
}

/// The pins of a seat at its table, each with its slot and key. They take no memory.
pub(crate) struct Pins {}

impl Model for Pins {
    ghost use Rattle.std.specs.Prelude.{ℕ, List, []};

    ghost Value = { List (ℕ × ℕ) };

    ghost view = { λ p. [] };
}

/// What a seat that has the lock knows of the words of all slots. It takes no memory.
pub(crate) struct KnownWords {}

impl Model for KnownWords {
    ghost use Rattle.shard_gate.specs.Words.{SlotWords, no_words};

    ghost Value = { SlotWords };

    ghost view = { λ k. no_words };
}

/// Slots that a seat has changed since it took the lock. They take no memory.
pub(crate) struct Changed {}

impl Model for Changed {
    ghost use Rattle.std.specs.Prelude.{ℕ, List, []};

    ghost Value = { List ℕ };

    ghost view = { λ c. [] };
}

/// The visits of the seats that a seat has taken over, a list for each seat. They take no memory.
pub(crate) struct JoinedVisits {}

impl Model for JoinedVisits {
    ghost use Rattle.std.specs.Prelude.{List, []};
    ghost use Rattle.shard_gate.specs.Visit.{Visit};

    ghost Value = { List (List Visit) };

    ghost view = { λ j. [] };
}

/// What a seat at a table knows and may do. No value of it is ever made.
pub(crate) struct Standing {
    /// Whether the seat exists, that is, no other seat has taken it over.
    pub live: bool,
    /// The tag of the table.
    pub tag: u64,
    /// The permits of all live seats together.
    pub passes: u32,
    /// The seat's own permits.
    pub permits: u32,
    /// Whether the seat has the lock, and so the body.
    pub has_turn: bool,
    /// The seat's pins, at most seven for each permit.
    pub pins: Pins,
    /// The words of the slots while the seat has the lock, when no other seat changes them.
    pub known: KnownWords,
    /// The slots whose keys the seat has written since it took the lock.
    pub filled: Changed,
    /// The slots whose pins the seat has changed since it took the lock.
    pub repinned: Changed,
    /// The visits. A visit begins when the lock is taken, and ends when it is given back.
    pub visits: Visits,
    /// The visits of the seats that this seat has taken over.
    pub joined: JoinedVisits,
}
