//! The gate: all tiles in memory, in shards that threads share.
ghost use Rattle.std.specs.Prelude.{◌≡◌, ◌-◌, ◌*◌, ◌<◌, ◌≤◌, [], length, Contains};
ghost use Rattle.std.specs.Prelude.{IfOk, IfErr, OnOk, OnErr, OnSome, IsSome, option_map};
ghost use Rattle.shard_gate.specs.Gate.{max_pins, shard_of, AreLimits, IsNewGate, IsFirstSeat};
ghost use Rattle.shard_gate.specs.Gate.{IsTileOf, HasCellRect, SamePins, OnePinMore, OnePinLess};
ghost use Rattle.shard_gate.specs.Gate.{IsSameSeat, slots_of, own_pins};
ghost use Rattle.shard_gate.specs.Given.{Finds, Inserts, Releases, Purges, Counts, FitsShare};
ghost use Rattle.shard_gate.specs.Given.{AtShard, AtFirst, AtSome};
ghost use Rattle.shard_gate.specs.Everyone.{FindsPinsOfAll};
ghost use Rattle.shard_gate.specs.Calls.{tile_of, VisitsAt, IfNotPinned, IfNotInserted};
ghost use Rattle.shard_gate.specs.Gate.{IfFound, IfNotFound};
ghost use Rattle.shard_gate.specs.Gate.{IsSecondSeat, AfterSplit, AfterJoin, GivesBackIfBusy};
ghost use Rattle.std.specs.Arc.{arc_value};
ghost use Rattle.tile_store.specs.Lawful.{FitsCut};
ghost use Rattle.tile_store.specs.Tag.{tag_of};

use crate::error::{NotPinned, NotUnpinned, PinError};
use crate::laid::{laid, tag_for};
use crate::pin::Pin;
use crate::pin_seat::PinSeat;
use crate::rule::Terms;
use crate::seats::{join_seats, split_seats};
use crate::shard_table::ShardTable;
use crate::work::Stale;
use std::alloc::Global;
use std::marker::Model;
use std::sync::Arc;
use tex_world::{NoMemory, World};
use tiff_format::{Cut, ShardCount};
use tile_layout::TileKey;
use tile_store::Tile;
use waiter::Waiter;

/// All tiles in memory, in shards. Clauses see which gate it is, the share of each shard, the cut,
/// and the permits of all seats together.
#[derive(Drop)]
pub struct Gate<W: World> {
    alloc: Global,
    tables: Vec<ShardTable<W>>,
    share: u64,
    cut: Cut,
    passes: u32,
}

impl<W: World> Model for Gate<W> {
    ghost use Rattle.shard_gate.specs.Gate.{GateState};
    ghost use Rattle.shard_gate.specs.Kept.{gate_state, IsGate};

    ghost Value = { GateState };

    ghost view = { λ a. gate_state a.tables.items a.share a.cut a.passes };

    ghost invariant = { λ a. IsGate a.tables.items a.share a.cut a.passes };
}

impl<W: World> Gate<W> {
    /// A gate without tiles, whose shards share the budget equally, and its first seat.
    pub fn new(
        alloc: Global,
        budget: u64,
        shards: u32,
        passes: u32,
        cut: Cut,
    ) -> Result<(Gate<W>, PinSeat<W>), NoMemory>
        requires { AreLimits budget shards passes cut }
        ensures gate { IfOk result (λ made. IsNewGate budget shards passes cut made.0) }
        ensures seat { IfOk result (λ made. IsFirstSeat made.0 made.1) }
    {
        let share = budget / shards as u64;
        let tag = tag_for(share, cut);
        let terms = Terms { tag, passes };
        let Ok((tables, seats)) = laid(alloc, shards as usize, &terms) else {
            return Err(NoMemory);
        };
        let seat = PinSeat {
            seats,
            permits: passes,
        };
        let gate = Gate {
            alloc,
            tables,
            share,
            cut,
            passes,
        };
        Ok((gate, seat))
    }

    /// Pins the tile of a key. `None` if the shard did not have it.
    pub fn pin<T: Waiter>(
        &self,
        waiter: &T,
        p: &mut PinSeat<W>,
        key: TileKey,
    ) -> Result<Option<Pin<W>>, PinError<T::Busy>>
        requires gate { p.old.gate ≡ self.now.id }
        requires room { length p.old.pins < max_pins * p.old.permits }
        ensures some { IfFound result (λ pin. IsTileOf W.files self.now.cut key pin.tile) }
        // The shard has every tile that the seat has pinned.
        ensures held { IfOk result (λ found. Contains p.old.pins key → IsSome found) }
        // The seat after the call.
        ensures pinned { IfOk result (λ found. OnSome found (OnePinMore key p.old p.new)) }
        ensures none { IfNotFound result (SamePins p.old p.new) }
        ensures err { OnErr result (SamePins p.old p.new) }
        // Which entries the visit found, and which it left.
        ensures visits { IfOk result (λ found.
            VisitsAt self.now key (Finds key (option_map tile_of found)) p.old p.new) }
        ensures refused { IfErr result (λ e. VisitsAt self.now key (IfNotPinned e) p.old p.new) }
    {
        match self.find(waiter, p, key)? {
            Some(tile) => Ok(Some(Pin { tile })),
            None => Ok(None),
        }
    }

    /// Puts a tile into its shard and pins it. If the shard already has a tile of the key, that one
    /// is pinned and the new one is dropped.
    pub fn pin_new<T: Waiter>(
        &self,
        waiter: &T,
        p: &mut PinSeat<W>,
        tile: Tile<W>,
    ) -> Result<Pin<W>, NotPinned<W, T::Busy>>
        requires gate { p.old.gate ≡ self.now.id }
        requires room { length p.old.pins < max_pins * p.old.permits }
        requires cell { HasCellRect W.files self.now.cut tile }
        ensures ok { IfOk result (λ pin. IsTileOf W.files self.now.cut tile.key pin.tile) }
        ensures back { IfErr result (GivesBackIfBusy tile) }
        // The seat after the call.
        ensures pinned { OnOk result (OnePinMore tile.key p.old p.new) }
        ensures err { OnErr result (SamePins p.old p.new) }
        // Which entries the visit found, and which it left.
        ensures visits { IfOk result (λ pin. VisitsAt self.now tile.key
            (Inserts (slots_of self.now.passes) tile pin.tile) p.old p.new) }
        ensures refused { IfErr result (λ e.
            VisitsAt self.now tile.key (IfNotInserted e) p.old p.new) }
    {
        let key = tile.key();
        let tile = self.insert(waiter, p, key, tile)?;
        Ok(Pin { tile })
    }

    /// Gives back a pin. The tile stays in its shard while the unpinned tiles fit its share.
    /// Allocates nothing.
    pub fn unpin<T: Waiter>(
        &self,
        waiter: &T,
        p: &mut PinSeat<W>,
        pin: Pin<W>,
    ) -> Result<(), NotUnpinned<W, T::Busy>>
        requires gate { p.old.gate ≡ self.now.id }
        requires made { Contains p.old.pins pin.tile.key }
        ensures ok { OnOk result (OnePinLess pin.tile.key p.old p.new) }
        ensures visits { OnOk result (VisitsAt self.now pin.tile.key
            (Releases self.now.share pin.tile.key) p.old p.new) }
        ensures err { OnErr result (IsSameSeat p.old p.new) }
        ensures back { IfErr result (λ e. e.pin ≡ pin) }
    {
        let key = pin.tile.key();
        match self.release(waiter, p, key) {
            Ok(()) => Ok(()),
            Err(busy) => Err(NotUnpinned { pin, busy }),
        }
    }

    /// Purges the file's unpinned tiles whose generation is below the bound, shard by shard.
    /// Allocates nothing.
    pub fn purge<T: Waiter>(
        &self,
        waiter: &T,
        p: &mut PinSeat<W>,
        file: u32,
        below: u32,
    ) -> Result<(), T::Busy>
        requires { p.old.gate ≡ self.now.id }
        ensures visits { OnOk result
            (AtFirst (length self.now.id) (Purges file below) p.old.visits p.new.visits) }
        ensures err { OnErr result
            (AtSome (length self.now.id) (Purges file below) p.old.visits p.new.visits) }
        ensures same { SamePins p.old p.new }
    {
        for shard in 0..self.tables.len() {
            if let Err(busy) = self.purge_shard(waiter, p, shard, Stale { file, below }) {
                return Err(busy);
            }
        }
        Ok(())
    }

    /// Counts the tiles and the pins of one shard. Allocates nothing.
    pub fn count<T: Waiter>(
        &self,
        waiter: &T,
        p: &mut PinSeat<W>,
        shard: u32,
    ) -> Result<ShardCount, T::Busy>
        requires gate { p.old.gate ≡ self.now.id }
        requires shard { shard < length self.now.id }
        // One record ties together the counts, the entries counted, and the visit that found them.
        ensures lawful { IfOk result (λ count. AtShard shard
            (Counts W.files (tag_of self.now.share self.now.cut) count) p.old.visits p.new.visits) }
        ensures fits { IfOk result (FitsShare self.now.share) }
        // The seat's own pins are among them. If it has all permits, there are no others.
        ensures own { IfOk result (λ count.
            own_pins (length self.now.id) shard p.old.pins ≤ count.pins) }
        ensures alone { IfOk result (λ count. p.old.permits ≡ self.now.passes
            → count.pins ≡ own_pins (length self.now.id) shard p.old.pins) }
        // Each entry has as many pins as all callers' seats have on its key, and no seat has others.
        ensures everyone { OnOk result (FindsPinsOfAll shard p.old p.new) }
        // The seat after the call.
        ensures same { SamePins p.old p.new }
        ensures err { OnErr result (IsSameSeat p.old p.new) }
    {
        let shard = shard as usize;
        self.tables[shard].count(waiter, &mut p.seats[shard], self.share)
    }

    /// Makes a second seat, which gets one permit of this one.
    pub fn split(&self, p: &mut PinSeat<W>) -> Result<PinSeat<W>, NoMemory>
        requires gate { p.old.gate ≡ self.now.id }
        requires permits { 1 < p.old.permits }
        requires pins { length p.old.pins ≤ max_pins * (p.old.permits - 1) }
        ensures ok { IfOk result (IsSecondSeat p.old) }
        ensures kept { OnOk result (AfterSplit p.old p.new) }
        ensures err { OnErr result (IsSameSeat p.old p.new) }
    {
        let Ok(mut seats) = Vec::with_capacity(self.alloc, self.tables.len()) else {
            return Err(NoMemory);
        };
        split_seats(self.tables.as_slice(), p.seats.as_mut_slice(), &mut seats);
        p.permits -= 1;
        Ok(PinSeat { seats, permits: 1 })
    }

    /// Takes over the permits of another seat, which has no pin and ends. Allocates nothing.
    pub fn join(&self, p: &mut PinSeat<W>, other: PinSeat<W>)
        requires gate { p.old.gate ≡ self.now.id }
        requires other { other.gate ≡ self.now.id }
        requires pins { other.pins ≡ [] }
        ensures joined { AfterJoin other p.old p.new }
        ensures few { p.new.permits ≤ self.now.passes }
    {
        let PinSeat { seats, permits } = other;
        join_seats(self.tables.as_slice(), p.seats.as_mut_slice(), seats);
        p.permits += permits;
    }

    /// The shard of a key.
    fn shard_of(&self, key: TileKey) -> usize
        ensures value { result ≡ shard_of (length self.now.id) key }
        ensures low { result < length self.now.id }
    {
        let level = key.index() as u64 + 7 * key.level() as u64;
        let file = 13 * key.file() as u64 + 31 * key.generation() as u64;
        ((level + file) % self.tables.len() as u64) as usize
    }

    /// Purges the stale tiles of one shard.
    fn purge_shard<T: Waiter>(
        &self,
        waiter: &T,
        p: &mut PinSeat<W>,
        shard: usize,
        stale: Stale,
    ) -> Result<(), T::Busy>
        requires gate { p.old.gate ≡ self.now.id }
        requires shard { shard < length self.now.id }
        ensures same { SamePins p.old p.new }
        ensures visits { OnOk result
            (AtShard shard (Purges stale.file stale.below) p.old.visits p.new.visits) }
        ensures err { OnErr result (IsSameSeat p.old p.new) }
    {
        self.tables[shard].purge(waiter, &mut p.seats[shard], stale)
    }

    /// Pins the tile of a key in its shard, if it is there.
    fn find<T: Waiter>(
        &self,
        waiter: &T,
        p: &mut PinSeat<W>,
        key: TileKey,
    ) -> Result<Option<Arc<Tile<W>>>, PinError<T::Busy>>
        requires gate { p.old.gate ≡ self.now.id }
        requires room { length p.old.pins < max_pins * p.old.permits }
        ensures some { IfFound result (λ tile. IsTileOf W.files self.now.cut key (arc_value tile)) }
        ensures held { IfOk result (λ tile. Contains p.old.pins key → IsSome tile) }
        ensures pinned { IfOk result (λ tile. OnSome tile (OnePinMore key p.old p.new)) }
        ensures none { IfNotFound result (SamePins p.old p.new) }
        ensures err { OnErr result (SamePins p.old p.new) }
        ensures visits { IfOk result (λ tile.
            VisitsAt self.now key (Finds key (option_map arc_value tile)) p.old p.new) }
        ensures refused { IfErr result (λ e. VisitsAt self.now key (IfNotPinned e) p.old p.new) }
    {
        let shard = self.shard_of(key);
        self.tables[shard].find(waiter, &mut p.seats[shard], key)
    }

    /// Puts a tile into its shard, pinned.
    fn insert<T: Waiter>(
        &self,
        waiter: &T,
        p: &mut PinSeat<W>,
        key: TileKey,
        tile: Tile<W>,
    ) -> Result<Arc<Tile<W>>, NotPinned<W, T::Busy>>
        requires gate { p.old.gate ≡ self.now.id }
        requires room { length p.old.pins < max_pins * p.old.permits }
        requires key { tile.key ≡ key }
        requires fits { FitsCut W.files self.now.cut tile }
        ensures ok { IfOk result (λ kept. IsTileOf W.files self.now.cut tile.key (arc_value kept)) }
        ensures back { IfErr result (GivesBackIfBusy tile) }
        ensures pinned { OnOk result (OnePinMore key p.old p.new) }
        ensures err { OnErr result (SamePins p.old p.new) }
        ensures visits { IfOk result (λ kept. VisitsAt self.now key
            (Inserts (slots_of self.now.passes) tile (arc_value kept)) p.old p.new) }
        ensures refused { IfErr result (λ e. VisitsAt self.now key (IfNotInserted e) p.old p.new) }
    {
        let shard = self.shard_of(key);
        self.tables[shard].insert(waiter, &mut p.seats[shard], tile)
    }

    /// Takes a pin from the tile of a key in its shard.
    fn release<T: Waiter>(
        &self,
        waiter: &T,
        p: &mut PinSeat<W>,
        key: TileKey,
    ) -> Result<(), T::Busy>
        requires gate { p.old.gate ≡ self.now.id }
        requires made { Contains p.old.pins key }
        ensures ok { OnOk result (OnePinLess key p.old p.new) }
        ensures visits { OnOk result
            (VisitsAt self.now key (Releases self.now.share key) p.old p.new) }
        ensures err { OnErr result (IsSameSeat p.old p.new) }
    {
        let shard = self.shard_of(key);
        self.tables[shard].release(waiter, &mut p.seats[shard], key, self.share)
    }
}
