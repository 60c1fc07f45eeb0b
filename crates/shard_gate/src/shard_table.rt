//! Visits to one shard: lock it, work on its tiles, write the changes into the words of the slots,
//! and unlock it.
ghost use Rattle.std.specs.Prelude.{◌≡◌, ◌*◌, ◌<◌, ◌≤◌, ◌∷◌, length};
ghost use Rattle.std.specs.Prelude.{IfOk, IfErr, IfNone, IsSome, OnOk, OnErr, OnSome};
ghost use Rattle.std.specs.Prelude.{option_map, Contains, IsPermutation};
ghost use Rattle.std.specs.Arc.{arc_value};
ghost use Rattle.crossbeam_utils.specs.Padded.{padded_value};
ghost use Rattle.tile_store.specs.Tag.{share_in_tag, cut_of};
ghost use Rattle.tile_store.specs.Lawful.{FitsCut};
ghost use Rattle.shard_gate.specs.Words.{max_pins, slots_of};
ghost use Rattle.shard_gate.specs.Given.{Finds, Inserts, Releases, Purges, Counts, FitsShare};
ghost use Rattle.shard_gate.specs.Everyone.{ArePinsOfAll, taken_last};
ghost use Rattle.shard_gate.specs.Work.{IsSeatOf, FoundUnder, KeptUnder, MayKeep};
ghost use Rattle.shard_gate.specs.Work.{IsTellingOf, HasToldOf, with_kept};
ghost use Rattle.shard_gate.specs.Calls.{IfNotPinned, IfNotInserted};
ghost use Rattle.shard_gate.specs.Gate.{GivesBackIfBusy};
ghost use Rattle.shard_gate.specs.Seated.{seat_at};

use crate::error::{NotPinned, PinError};
use crate::rule::BodyRule;
use crate::standing::Standing;
use crate::turn_seat::TurnSeat;
use crate::turn_table::TurnTable;
use crate::work::{InSlot, Stale, count_in, find_in, insert_in, purge_in, release_in};
use atomic_table::Seat;
use crossbeam_utils::CachePadded;
use std::marker::PhantomData;
use std::sync::Arc;
use tex_world::World;
use tiff_format::ShardCount;
use tile_layout::TileKey;
use tile_store::{Shard, Tile};
use waiter::Waiter;

/// The tiles of a shard, alone on their cache lines.
pub(crate) type Slot<W> = CachePadded<Shard<W>>;

pub(crate) type ShardTable<W> = TurnTable<Slot<W>, LawfulShards<W>>;

pub(crate) type ShardSeat<W> = TurnSeat<Slot<W>>;

/// The rule of a shard: its tiles are lawful for its tag, and its words say which slots have them.
pub(crate) struct LawfulShards<W> {
    world: PhantomData<W>,
}

impl<W: World> BodyRule<Slot<W>> for LawfulShards<W> {
    ghost use Rattle.crossbeam_utils.specs.Padded.{padded_value};
    ghost use Rattle.shard_gate.specs.Home.{IsHome, words_of};

    ghost lawful = { λ terms slot. IsHome W.files terms (padded_value slot) };

    ghost shown = { λ slot. (padded_value slot).entries };

    ghost words = { λ slot. words_of (padded_value slot) };
}

impl<W: World> ShardTable<W> {
    /// Pins the tile of a key, if it is there.
    pub(crate) fn find<T: Waiter>(
        &self,
        waiter: &T,
        seat: &mut ShardSeat<W>,
        key: TileKey,
    ) -> Result<Option<Arc<Tile<W>>>, PinError<T::Busy>>
        requires shard { seat.old.shard ≡ self.now }
        requires room { length seat.old.pins < max_pins * seat.old.permits }
        ensures some { FoundUnder arc_value W.files self.now.tag key result }
        ensures held { IfOk result (λ tile. Contains seat.old.pins key → IsSome tile) }
        ensures seat { IsSeatOf seat.old seat.new }
        ensures pinned { IfOk result (λ tile. OnSome tile (seat.new.pins ≡ key ∷ seat.old.pins)) }
        ensures none { IfOk result (λ tile. IfNone tile (seat.new.pins ≡ seat.old.pins)) }
        ensures same { OnErr result (seat.new.pins ≡ seat.old.pins) }
        ensures ok { IfOk result (λ tile.
            Finds key (option_map arc_value tile) seat.old.visits seat.new.visits) }
        ensures err { IfErr result (λ e. IfNotPinned e seat.old.visits seat.new.visits) }
    {
        if let Err(busy) = self.take(waiter, &mut seat.seat) {
            return Err(PinError::Busy(busy));
        }
        let slot = seat.seat.slot_mut(&self.table.shared, 0);
        match find_in(slot, key) {
            Ok(Some(InSlot { tile, slot })) => {
                self.pin_slot(&mut seat.seat, slot);
                self.give(&mut seat.seat);
                Ok(Some(tile))
            }
            Ok(None) => {
                self.give(&mut seat.seat);
                Ok(None)
            }
            Err(_) => {
                self.give(&mut seat.seat);
                Err(PinError::NoMemory)
            }
        }
    }

    /// Puts a tile into the shard, pinned.
    pub(crate) fn insert<T: Waiter>(
        &self,
        waiter: &T,
        seat: &mut ShardSeat<W>,
        tile: Tile<W>,
    ) -> Result<Arc<Tile<W>>, NotPinned<W, T::Busy>>
        requires shard { seat.old.shard ≡ self.now }
        requires room { length seat.old.pins < max_pins * seat.old.permits }
        requires fits { FitsCut W.files (cut_of self.now.tag) tile }
        ensures some { KeptUnder arc_value W.files self.now.tag tile.key result }
        ensures back { IfErr result (GivesBackIfBusy tile) }
        ensures seat { IsSeatOf seat.old seat.new }
        ensures pinned { OnOk result (seat.new.pins ≡ tile.key ∷ seat.old.pins) }
        ensures same { OnErr result (seat.new.pins ≡ seat.old.pins) }
        ensures ok { IfOk result (λ kept.
            Inserts (slots_of self.now.passes) tile (arc_value kept)
            seat.old.visits seat.new.visits) }
        ensures err { IfErr result (λ e. IfNotInserted e seat.old.visits seat.new.visits) }
    {
        if let Err(busy) = self.take(waiter, &mut seat.seat) {
            return Err(NotPinned::Busy { tile, busy });
        }
        let key = tile.key().number();
        let slot = seat.seat.slot_mut(&self.table.shared, 0);
        match insert_in(slot, tile) {
            Ok(InSlot { tile, slot }) => {
                self.keep_slot(&mut seat.seat, slot, key);
                self.give(&mut seat.seat);
                Ok(tile)
            }
            Err(_) => {
                self.give(&mut seat.seat);
                Err(NotPinned::NoMemory)
            }
        }
    }

    /// Gives the slot this key and one more pin. Before, it must have had the key or no pin.
    fn keep_slot(&self, seat: &mut Seat<Slot<W>, Standing>, slot: u32, key: u64)
        requires table { (seat_at seat.old).shard ≡ self.now }
        requires may { MayKeep slot key seat.old.me.0 }
        ensures seat { seat.new.me
            ≡ (with_kept slot key seat.new.me.0.filled seat.old.me.0, seat.old.me.1) }
        ensures table { seat.new.table_id ≡ seat.old.table_id }
    {
        if self.key_in(seat, slot) != key {
            self.fill_slot(seat, slot, key);
        }
        self.pin_slot(seat, slot);
    }

    /// Gives back a pin of the seat on the tile of a key.
    pub(crate) fn release<T: Waiter>(
        &self,
        waiter: &T,
        seat: &mut ShardSeat<W>,
        key: TileKey,
        share: u64,
    ) -> Result<(), T::Busy>
        requires shard { seat.old.shard ≡ self.now }
        requires made { Contains seat.old.pins key }
        requires share { share_in_tag self.now.tag ≡ share }
        ensures seat { IsSeatOf seat.old seat.new }
        ensures pins { OnOk result (IsPermutation seat.old.pins (key ∷ seat.new.pins)) }
        ensures ok { OnOk result (Releases share key seat.old.visits seat.new.visits) }
        ensures err { OnErr result (seat.new ≡ seat.old) }
    {
        self.take(waiter, &mut seat.seat)?;
        let slot = seat.seat.slot_mut(&self.table.shared, 0);
        let unpinned = release_in(slot, key, share);
        self.unpin_slot(&mut seat.seat, unpinned);
        self.tell_left(&mut seat.seat);
        self.give(&mut seat.seat);
        Ok(())
    }

    /// Clears the key words of the slots whose tiles were removed.
    fn tell_left(&self, seat: &mut Seat<Slot<W>, Standing>)
        requires table { (seat_at seat.old).shard ≡ self.now }
        requires telling { IsTellingOf padded_value W.files seat.old.me }
        ensures told { HasToldOf padded_value W.files seat.old.me seat.new.me }
        ensures table { seat.new.table_id ≡ seat.old.table_id }
    {
        let slots = seat.slot_mut(&self.table.shared, 0).slots();
        'telling: while let Some(slot) = seat.slot_mut(&self.table.shared, 0).left() {
            if slot < slots {
                self.fill_slot(seat, slot, 0);
            }
        }
    }

    /// Purges the stale tiles.
    pub(crate) fn purge<T: Waiter>(
        &self,
        waiter: &T,
        seat: &mut ShardSeat<W>,
        stale: Stale,
    ) -> Result<(), T::Busy>
        requires shard { seat.old.shard ≡ self.now }
        ensures seat { IsSeatOf seat.old seat.new }
        ensures pins { seat.new.pins ≡ seat.old.pins }
        ensures ok { OnOk result
            (Purges stale.file stale.below seat.old.visits seat.new.visits) }
        ensures err { OnErr result (seat.new ≡ seat.old) }
    {
        self.take(waiter, &mut seat.seat)?;
        let slot = seat.seat.slot_mut(&self.table.shared, 0);
        purge_in(slot, stale);
        self.tell_left(&mut seat.seat);
        self.give(&mut seat.seat);
        Ok(())
    }

    /// Counts the tiles and the pins of the shard.
    pub(crate) fn count<T: Waiter>(
        &self,
        waiter: &T,
        seat: &mut ShardSeat<W>,
        share: u64,
    ) -> Result<ShardCount, T::Busy>
        requires shard { seat.old.shard ≡ self.now }
        requires share { share_in_tag self.now.tag ≡ share }
        ensures fits { IfOk result (FitsShare share) }
        ensures own { IfOk result (λ count. length seat.old.pins ≤ count.pins) }
        ensures alone { IfOk result (λ count. seat.old.permits ≡ self.now.passes
            → count.pins ≡ length seat.old.pins) }
        ensures seat { IsSeatOf seat.old seat.new }
        ensures pins { seat.new.pins ≡ seat.old.pins }
        ensures ok { IfOk result (λ count.
            Counts W.files self.now.tag count seat.old.visits seat.new.visits) }
        ensures everyone { OnOk result
            (ArePinsOfAll seat.old.pins (taken_last seat.new.visits)) }
        ensures err { OnErr result (seat.new ≡ seat.old) }
    {
        self.take(waiter, &mut seat.seat)?;
        let slot = seat.seat.slot_mut(&self.table.shared, 0);
        let count = count_in(slot, share);
        self.give(&mut seat.seat);
        Ok(count)
    }
}
