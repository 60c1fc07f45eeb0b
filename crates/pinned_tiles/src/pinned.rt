//! What a pass has pinned: its microcache, its holds, and one tile in hand.
ghost use Rattle.std.specs.Prelude.{◌≡◌, ◌+◌, ◌-◌, ◌<◌, ◌≤◌, [], length, vec_capacity, None};
ghost use Rattle.std.specs.Prelude.{OnOk, OnErr, IfOk};
ghost use Rattle.tile_store.specs.Tag.{tag_of};
ghost use Rattle.shard_gate.specs.Gate.{IsSameSeat, JoinsVisits};
ghost use Rattle.shard_gate.specs.Everyone.{FindsPinsOfAll};
ghost use Rattle.shard_gate.specs.Given.{AtShard, AtFirst, AtSome, Counts, FitsShare, Purges};
ghost use Rattle.pinned_tiles.specs.Pinned.{max_holds, ArePinned, PinsAt, KeepsTiles, KeepsPinned, tiles_at};
ghost use Rattle.pinned_tiles.specs.Pinned.{IsNewPart, IsSecondPart, KeepsAllButPermits};

use crate::recent_tile::RecentTile;
use micro::Micro;
use shard_gate::{Gate, Pin, PinSeat};
use std::alloc::Global;
use std::marker::Model;
use tex_world::{NoMemory, World};
use tiff_format::{Cut, ShardCount};
use waiter::Waiter;

/// The greatest number of tiles that a pass may hold.
pub const MAX_HOLDS: usize = 4;

/// What a pass has pinned.
///
/// A newly pinned tile is first in hand, and goes from there into the microcache or to the holds. A
/// tile that leaves is in hand until its pin is given back. If the waiter gives up, it stays in
/// hand, and the next call that pins gives it back first.
#[derive(Drop)]
pub struct Pinned<W: World> {
    pub(crate) seat: PinSeat<W>,
    pub(crate) cut: Cut,
    pub(crate) recent: Micro<RecentTile<W>>,
    pub(crate) holds: Vec<Pin<W>>,
    pub(crate) hand: Option<Pin<W>>,
}

impl<W: World> Model for Pinned<W> {
    ghost use Rattle.std.specs.Prelude.{◌≤◌, vec_capacity};
    ghost use Rattle.pinned_tiles.specs.Pinned.{PinnedState, max_holds};
    ghost use Rattle.pinned_tiles.specs.Pinned.{pinned_state, ArePinned};

    ghost Value = { PinnedState };

    ghost view = { λ p. pinned_state p.seat p.cut p.recent p.holds.items p.hand };

    ghost invariant = { λ p.
        ArePinned W.files (pinned_state p.seat p.cut p.recent p.holds.items p.hand)
        × (max_holds ≤ vec_capacity p.holds) };
}

/// Memory for the tiles that a pass will hold.
fn room_for_holds<W: World>(alloc: Global) -> Result<Vec<Pin<W>>, NoMemory>
    ensures empty { IfOk result (λ holds. holds.items ≡ []) }
    ensures room { IfOk result (λ holds. max_holds ≤ vec_capacity holds) }
{
    Ok(Vec::with_capacity(alloc, MAX_HOLDS)?)
}

impl<W: World> Pinned<W> {
    /// Nothing pinned yet. Allocates the memory for the holds.
    pub fn new(alloc: Global, seat: PinSeat<W>, cut: Cut) -> Result<Pinned<W>, NoMemory>
        requires pins { seat.pins ≡ [] }
        requires permits { 1 ≤ seat.permits }
        ensures { IfOk result (IsNewPart seat cut) }
    {
        let holds = room_for_holds(alloc)?;
        Ok(Pinned::of(seat, cut, holds))
    }

    /// Nothing pinned yet, with memory for the holds.
    fn of(seat: PinSeat<W>, cut: Cut, holds: Vec<Pin<W>>) -> Pinned<W>
        requires pins { seat.pins ≡ [] }
        requires permits { 1 ≤ seat.permits }
        requires empty { holds.items ≡ [] }
        requires room { max_holds ≤ vec_capacity holds }
        ensures { IsNewPart seat cut result }
    {
        Pinned {
            seat,
            cut,
            recent: Micro::new(),
            holds,
            hand: None,
        }
    }

    /// Does nothing; its contract gives the proof that the pins are those of the tiles.
    pub fn know(&self)
        ensures { ArePinned W.files self.now }
    {
        let _ = self.seat.permits();
    }

    /// The permits of the seat.
    pub fn permits(&self) -> u32
        ensures value { result ≡ self.now.seat.permits }
        ensures some { 1 ≤ result }
    {
        self.seat.permits()
    }

    /// Counts the tiles and the pins of one shard.
    pub fn count<V: Waiter>(
        &mut self,
        gate: &Gate<W>,
        waiter: &V,
        shard: u32,
    ) -> Result<ShardCount, V::Busy>
        requires gate { PinsAt gate.now self.old }
        requires shard { shard < length gate.now.id }
        ensures lawful { IfOk result (λ count. AtShard shard
            (Counts W.files (tag_of gate.now.share gate.now.cut) count)
            self.old.seat.visits self.new.seat.visits) }
        ensures fits { IfOk result (FitsShare gate.now.share) }
        // The pins of its own tiles are among them. If it has all permits, there are no others.
        ensures own { IfOk result (λ count.
            tiles_at (length gate.now.id) shard self.old ≤ count.pins) }
        ensures alone { IfOk result (λ count. self.old.seat.permits ≡ gate.now.passes
            → count.pins ≡ tiles_at (length gate.now.id) shard self.old) }
        // Each entry has as many pins as all callers' seats have on its key, and no seat has others.
        ensures everyone { OnOk result (FindsPinsOfAll shard self.old.seat self.new.seat) }
        // The state after the call.
        ensures kept { KeepsPinned self.old self.new }
        ensures err { OnErr result (IsSameSeat self.old.seat self.new.seat) }
        ensures are { ArePinned W.files self.new }
    {
        gate.count(waiter, &mut self.seat, shard)
    }

    /// Purges the file's unpinned tiles whose generation is below the bound, shard by shard.
    pub fn purge<V: Waiter>(
        &mut self,
        gate: &Gate<W>,
        waiter: &V,
        file: u32,
        below: u32,
    ) -> Result<(), V::Busy>
        requires gate { PinsAt gate.now self.old }
        ensures visits { OnOk result (AtFirst (length gate.now.id) (Purges file below)
            self.old.seat.visits self.new.seat.visits) }
        ensures err { OnErr result (AtSome (length gate.now.id) (Purges file below)
            self.old.seat.visits self.new.seat.visits) }
        ensures hand { self.new.hand ≡ self.old.hand }
        ensures same { KeepsTiles self.old self.new }
        ensures are { ArePinned W.files self.new }
    {
        gate.purge(waiter, &mut self.seat, file, below)
    }

    /// Makes what a second pass has pinned: nothing yet. It gets one permit of this seat.
    pub fn split(&mut self, alloc: Global, gate: &Gate<W>) -> Result<Pinned<W>, NoMemory>
        requires gate { PinsAt gate.now self.old }
        requires permits { 1 < self.old.seat.permits }
        ensures ok { IfOk result (IsSecondPart self.old) }
        ensures permits { OnOk result (self.new.seat.permits ≡ self.old.seat.permits - 1) }
        ensures joined { self.new.seat.joined ≡ self.old.seat.joined }
        ensures err { OnErr result (self.new.seat.permits ≡ self.old.seat.permits) }
        ensures same { KeepsAllButPermits self.old self.new }
        ensures are { ArePinned W.files self.new }
    {
        self.know();
        let holds = room_for_holds(alloc)?;
        let seat = gate.split(&mut self.seat)?;
        Ok(Pinned::of(seat, self.cut, holds))
    }

    /// Takes over the permits of another pass, which has nothing pinned and ends.
    pub fn join(&mut self, gate: &Gate<W>, other: Pinned<W>)
        requires gate { PinsAt gate.now self.old }
        requires other { other.seat.gate ≡ gate.now.id }
        requires none { other.seat.pins ≡ [] }
        ensures permits { self.new.seat.permits ≡ self.old.seat.permits + other.seat.permits }
        ensures pins { self.new.seat.pins ≡ self.old.seat.pins }
        ensures visits { self.new.seat.visits ≡ self.old.seat.visits }
        ensures joined { JoinsVisits other.seat self.old.seat self.new.seat }
        ensures same { KeepsAllButPermits self.old self.new }
        ensures are { ArePinned W.files self.new }
    {
        gate.join(&mut self.seat, other.seat);
    }
}
