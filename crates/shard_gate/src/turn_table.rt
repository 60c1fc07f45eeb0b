//! The lock of a shard, and the words that describe its slots.
ghost use Rattle.std.specs.Prelude.{◌≡◌, ℕ, ◌-◌, ◌*◌, ◌<◌, ◌≤◌, true, false, [], length, slice_index};
ghost use Rattle.std.specs.Prelude.{IfOk, OnOk, OnErr};
ghost use Rattle.shard_gate.specs.Words.{turn_word, tag_word, first_word, word_count};
ghost use Rattle.shard_gate.specs.Words.{max_permits, max_pins, AreBlank};
ghost use Rattle.shard_gate.specs.Steps.{HasBody, AreLawful, MayLook, MayPin, MayUnpin, MayFill};
ghost use Rattle.shard_gate.specs.Turn.{without_turn, with_pin, without_pin, with_key};
ghost use Rattle.shard_gate.specs.Steps.{entries_of};
ghost use Rattle.shard_gate.specs.Seated.{IsIdle, seat_at, IsMadeBy, first_seat};
ghost use Rattle.shard_gate.specs.Seated.{kept_seat, new_seat, both_seats};

use crate::rule::{BodyRule, Terms, Turns};
use crate::standing::Standing;
use crate::steps::{
    AllPermits, Count, FillSlot, Give, LoadKey, OnePermit, PinSlot, Take, UnpinSlot,
};
use crate::turn_seat::TurnSeat;
use atomic_table::{Refused, Seat, Table};
use std::alloc::{AllocError, Global};
use std::marker::Model;
use waiter::Waiter;

/// The index of the lock word: 1 while a seat has the lock. The 128 bytes around it, which a
/// processor fetches at once, contain nothing that is written without the lock.
const TURN: usize = 16;

/// The index of the table's tag.
const TAG: usize = 17;

/// The index of the first slot's key. Its pins follow, and then the next slot.
const KEYS: usize = 32;

/// The index of the first slot's pins.
const PINS: usize = 33;

/// The words of a new table: unlocked, with its tag, and no slot with a key or a pin.
fn words_of(alloc: Global, terms: &Terms) -> Result<Vec<u64>, AllocError>
    requires { terms.now.passes ≤ max_permits }
    ensures count { IfOk result (λ words. length words.items ≡ word_count terms.now.passes) }
    ensures turn { IfOk result (λ words. slice_index words.items turn_word ≡ 0) }
    ensures tag { IfOk result (λ words. slice_index words.items tag_word ≡ terms.now.tag) }
    ensures slots { IfOk result (λ words.
        (k : ℕ) → first_word ≤ k → slice_index words.items k ≡ 0) }
{
    let mut words = vec![in alloc; 0; KEYS + 2 * terms.slots() as usize]?;
    words[TAG] = terms.tag;
    Ok(words)
}

/// A body that one thread at a time works on. Clauses see which table it is.
#[derive(Drop)]
pub(crate) struct TurnTable<S, L: BodyRule<S>> {
    pub(crate) table: Table<S, Standing, Terms, Turns<L>, Global>,
}

impl<S, L: BodyRule<S>> Model for TurnTable<S, L> {
    ghost use Rattle.shard_gate.specs.Seated.{ShardId, shard_id, IsLaid};

    ghost Value = { ShardId };

    ghost view = { λ t. shard_id t.table.shared.key t.table.shared.table_id };

    ghost invariant = { λ t. IsLaid t.table.shared.key.passes t.table.shared.table_id };
}

impl<S: Drop, L: BodyRule<S>> TurnTable<S, L> {
    /// Makes a table with this body, and its first seat, which has all permits.
    pub(crate) fn new(
        alloc: Global,
        terms: &Terms,
        body: S,
    ) -> Result<(TurnTable<S, L>, TurnSeat<S>), AllocError>
        requires few { terms.now.passes ≤ max_permits }
        requires some { 1 ≤ terms.now.passes }
        requires lawful { L.lawful terms.now body }
        requires blank { AreBlank terms.now.passes (L.words body) }
        requires empty { L.shown body ≡ [] }
        ensures terms { IfOk result (λ made. IsMadeBy terms.now.tag terms.now.passes made.0) }
        ensures seat { IfOk result (λ made. made.1 ≡ first_seat made.0) }
    {
        let words = words_of(alloc, terms)?;
        let mut slots = Vec::with_capacity(alloc, 1)?;
        slots.push_reserved(body);
        match Table::new(alloc, words.as_slice(), slots, terms) {
            Ok((table, seat)) => {
                let permits = terms.passes;
                Ok((TurnTable { table }, TurnSeat { seat, permits }))
            }
            Err(Refused { slots: _ }) => Err(AllocError),
        }
    }

    /// Takes the lock, and tries again while another seat has it.
    pub(crate) fn take<T: Waiter>(
        &self,
        waiter: &T,
        seat: &mut Seat<S, Standing>,
    ) -> Result<(), T::Busy>
        requires table { (seat_at seat.old).shard ≡ self.now }
        requires idle { IsIdle seat.old.me }
        ensures ok { OnOk result (HasBody L.lawful L.shown L.words seat.old.me.0 seat.new.me) }
        ensures err { OnErr result (seat.new.me ≡ seat.old.me) }
        ensures table { seat.new.table_id ≡ seat.old.table_id }
    {
        for failed in 0..waiter.tries() {
            if self.try_take(seat) {
                return Ok(());
            }
            waiter.pause(failed);
        }
        Err(waiter.busy())
    }

    /// Tries once. It writes the lock word only if it has just read that it is free, so that
    /// waiting threads do not fetch the cache line for writing.
    fn try_take(&self, seat: &mut Seat<S, Standing>) -> bool
        requires table { (seat_at seat.old).shard ≡ self.now }
        requires idle { IsIdle seat.old.me }
        ensures won { result ≡ true → HasBody L.lawful L.shown L.words seat.old.me.0 seat.new.me }
        ensures lost { result ≡ false → seat.new.me ≡ seat.old.me }
        ensures table { seat.new.table_id ≡ seat.old.table_id }
    {
        let shared = &self.table.shared;
        shared.peek(TURN) == 0 && shared.compare_exchange::<Take<L>>(seat, TURN, 0, 1) == 0
    }

    /// Gives back the lock. The body must be lawful.
    pub(crate) fn give(&self, seat: &mut Seat<S, Standing>)
        requires table { (seat_at seat.old).shard ≡ self.now }
        requires turn { (seat.old.me.0.live ≡ true) × (seat.old.me.0.has_turn ≡ true) }
        requires lawful { AreLawful L.lawful L.words seat.old.me.0 seat.old.me.1 }
        ensures view { seat.new.me.0
            ≡ without_turn (entries_of L.shown seat.old.me.1) seat.old.me.0 }
        ensures slots { seat.new.me.1 ≡ [] }
        ensures table { seat.new.table_id ≡ seat.old.table_id }
    {
        self.table.shared.store::<Give<L>>(seat, TURN, 0);
    }

    /// The key of a slot as the seat knows it, or 0.
    pub(crate) fn key_in(&self, seat: &mut Seat<S, Standing>, slot: u32) -> u64
        requires table { (seat_at seat.old).shard ≡ self.now }
        requires may { MayLook slot seat.old.me.0 }
        ensures value { result ≡ slice_index seat.old.me.0.known.keys slot }
        ensures seat { seat.new.me ≡ seat.old.me }
        ensures table { seat.new.table_id ≡ seat.old.table_id }
    {
        self.table
            .shared
            .load::<LoadKey>(seat, KEYS + 2 * slot as usize)
    }

    /// Adds a pin of the seat to this slot.
    pub(crate) fn pin_slot(&self, seat: &mut Seat<S, Standing>, slot: u32)
        requires table { (seat_at seat.old).shard ≡ self.now }
        requires may { MayPin slot seat.old.me.0 }
        ensures seat { seat.new.me ≡ (with_pin slot seat.old.me.0, seat.old.me.1) }
        ensures table { seat.new.table_id ≡ seat.old.table_id }
    {
        self.table
            .shared
            .fetch_add::<PinSlot>(seat, PINS + 2 * slot as usize, 1);
    }

    /// Takes a pin of the seat from this slot.
    pub(crate) fn unpin_slot(&self, seat: &mut Seat<S, Standing>, slot: u32)
        requires table { (seat_at seat.old).shard ≡ self.now }
        requires may { MayUnpin slot seat.old.me.0 }
        ensures seat { seat.new.me ≡ (without_pin slot seat.old.me.0, seat.old.me.1) }
        ensures table { seat.new.table_id ≡ seat.old.table_id }
    {
        self.table
            .shared
            .fetch_sub::<UnpinSlot>(seat, PINS + 2 * slot as usize, 1);
    }

    /// Gives a slot without pins this key, or none if it is 0.
    pub(crate) fn fill_slot(&self, seat: &mut Seat<S, Standing>, slot: u32, key: u64)
        requires table { (seat_at seat.old).shard ≡ self.now }
        requires may { MayFill slot seat.old.me.0 }
        ensures seat { seat.new.me ≡ (with_key slot key seat.old.me.0, seat.old.me.1) }
        ensures table { seat.new.table_id ≡ seat.old.table_id }
    {
        self.table
            .shared
            .store::<FillSlot>(seat, KEYS + 2 * slot as usize, key);
    }

    /// Gives one permit to a second seat.
    pub(crate) fn split(&self, seat: &mut TurnSeat<S>) -> TurnSeat<S>
        requires shard { seat.old.shard ≡ self.now }
        requires permits { 1 < seat.old.permits }
        requires pins { length seat.old.pins ≤ max_pins * (seat.old.permits - 1) }
        ensures kept { seat.new ≡ kept_seat seat.old }
        ensures new { result ≡ new_seat seat.old }
    {
        let new = self.table.shared.split_seat::<OnePermit>(&mut seat.seat);
        seat.permits -= 1;
        TurnSeat {
            seat: new,
            permits: 1,
        }
    }

    /// Takes over the permits of the other seat, which ends. All seats together have no more
    /// permits than there may be passes.
    pub(crate) fn join(&self, seat: &mut TurnSeat<S>, other: TurnSeat<S>)
        requires shard { seat.old.shard ≡ self.now }
        requires other { other.shard ≡ self.now }
        requires pins { other.pins ≡ [] }
        ensures both { seat.new ≡ both_seats seat.old other }
        ensures few { seat.new.permits ≤ seat.new.shard.passes }
    {
        let TurnSeat {
            seat: other,
            permits,
        } = other;
        let shared = &self.table.shared;
        shared.join_seat::<AllPermits>(&mut seat.seat, other);
        shared.load::<Count>(&mut seat.seat, TURN);
        seat.permits += permits;
    }
}
