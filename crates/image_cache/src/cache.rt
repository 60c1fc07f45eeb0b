//! The cache, and how passes are made, split and joined.
ghost use Rattle.std.specs.Prelude.{◌≡◌, ◌<◌, ◌≤◌, [], None, length, IfOk, IfErr, OnOk, OnErr};
ghost use Rattle.tex_world.specs.World.{max_files};
ghost use Rattle.tile_store.specs.Tag.{tag_of};
ghost use Rattle.shard_gate.specs.Gate.{IsSameSeat, JoinsVisits, max_shards};
ghost use Rattle.shard_gate.specs.Given.{AtShard, Counts};
ghost use Rattle.image_cache.specs.Options.{NewCause, first_bad, IsWithin};
ghost use Rattle.image_cache.specs.Options.{LargeCause, first_bad_large, opened_as};
ghost use Rattle.tile_source.specs.Pass.{IsPassOf};
ghost use Rattle.image_cache.specs.Pass.{IsNewCache, IsFirstPass, IsSecondPass};
ghost use Rattle.image_cache.specs.Pass.{PassAfterSplit, PassAfterJoin, SeesBoth, JoinsReleased};
ghost use Rattle.shard_gate.specs.Everyone.{FindsPinsOfAll};
ghost use Rattle.shard_gate.specs.Since.{PurgesNone};
ghost use Rattle.tile_source.specs.Pass.{KeepsAllBut, nothing, the_view, its_visits, its_tiles};
ghost use Rattle.image_cache.specs.Cause.{SplitCause};
ghost use Rattle.pinned_tiles.specs.Pinned.{LeavesPart, tiles_at};

use crate::error::{NotJoined, SplitError};
use crate::options::{LargeOptions, NewError, Options};
use file_table::Files;
use pinned_tiles::Pinned;
use shard_gate::Gate;
use std::alloc::Global;
use std::marker::Model;
use tex_world::{NoMemory, Tap};
use tiff_format::{Cut, ShardCount};
use tile_slots::Slots;
use tile_source::{Pass, Store};
use waiter::Waiter;

/// The texels of a folder's files, shared by many passes. Clauses see its files and its tiles. It
/// owns no tap: `T` only names the world and the kind of idle handles.
#[derive(Drop)]
pub struct Cache<T: Tap> {
    pub(crate) store: Store<T>,
    shards: u32,
}

impl<T: Tap> Model for Cache<T> {
    ghost use Rattle.std.specs.Prelude.{◌≡◌, ◌<◌, ◌≤◌, length};
    ghost use Rattle.shard_gate.specs.Gate.{max_shards};
    ghost use Rattle.tile_source.specs.Pass.{CacheState};

    ghost Value = { CacheState };

    ghost view = { λ c. c.store };

    ghost invariant = { λ c.
        (c.shards ≡ length c.store.gate.id) × ((0 < c.shards) × (c.shards ≤ max_shards)) };
}

impl<T: Tap> Cache<T> {
    /// Makes a cache for `files` files, and its first pass, which has all permits.
    pub fn new(
        alloc: Global,
        options: Options,
        files: u32,
    ) -> Result<(Cache<T>, Pass<T::W>), NewError>
        requires files { files ≤ max_files }
        ensures cache { IfOk result (λ made. IsNewCache options files made.0) }
        ensures pass { IfOk result (λ made. IsFirstPass made.0 made.1) }
        ensures good { OnOk result (first_bad options ≡ None) }
        ensures cause { IfErr result (NewCause options) }
    {
        if let Some(bad) = options.first_bad() {
            return Err(NewError::BadOptions(bad));
        }
        let made = made(alloc, options, files)?;
        Ok(made)
    }

    /// Makes a cache like `new`, for up to 1024 passes, a budget up to 2^40 bytes and up to 65536
    /// tiles in each shard.
    ///
    /// A shard has 1024 slots and 7 for each permit. More permits than passes are therefore made if
    /// `tiles_per_shard` needs them, and `split` can make that many passes.
    pub fn new_large(
        alloc: Global,
        large: LargeOptions,
        files: u32,
    ) -> Result<(Cache<T>, Pass<T::W>), NewError>
        requires files { files ≤ max_files }
        ensures cache { IfOk result (λ made. IsNewCache (opened_as large) files made.0) }
        ensures pass { IfOk result (λ made. IsFirstPass made.0 made.1) }
        ensures good { OnOk result (first_bad_large large ≡ None) }
        ensures cause { IfErr result (LargeCause large) }
    {
        if let Some(bad) = large.first_bad() {
            return Err(NewError::BadOptions(bad));
        }
        let made = made(alloc, large.opened(), files)?;
        Ok(made)
    }

    /// What its passes share.
    #[inline(always)]
    pub(crate) fn store(&self) -> &Store<T>
        ensures { result.now ≡ self.now }
    {
        &self.store
    }

    /// The cut: how the levels of its files are divided into cells.
    pub fn cut(&self) -> Cut
        ensures { result ≡ self.now.gate.cut }
    {
        self.store.cut
    }

    /// The number of shards, 1 to 64.
    pub fn shards(&self) -> u32
        ensures value { result ≡ length self.now.gate.id }
        ensures some { 0 < result }
        ensures few { result ≤ max_shards }
    {
        self.shards
    }

    /// Counts the tiles and the pins of one shard. Allocates nothing.
    pub fn count<V: Waiter>(
        &self,
        waiter: &V,
        pass: &mut Pass<T::W>,
        shard: u32,
    ) -> Result<ShardCount, V::Busy>
        requires pass { IsPassOf self.now pass.old }
        requires shard { shard < length self.now.gate.id }
        // One record ties together the counts, the entries counted, and the visit that found them.
        ensures lawful { IfOk result (λ count. AtShard shard
            (Counts T.W.files (tag_of self.now.gate.share self.now.gate.cut) count)
            pass.old.pinned.seat.visits pass.new.pinned.seat.visits) }
        ensures share { IfOk result (λ count. count.share ≡ self.now.gate.share) }
        ensures within { IfOk result (λ count. count.loose ≤ count.share) }
        // The pass's own pins are among them. If it has all permits, there are no others.
        ensures own { IfOk result (λ count.
            tiles_at (length self.now.gate.id) shard pass.old.pinned ≤ count.pins) }
        ensures alone { IfOk result (λ count.
            pass.old.pinned.seat.permits ≡ self.now.gate.passes
            → count.pins ≡ tiles_at (length self.now.gate.id) shard pass.old.pinned) }
        // Each entry has as many pins as all passes have on its key, and no pass has others.
        ensures everyone { OnOk result
            (FindsPinsOfAll shard pass.old.pinned.seat pass.new.pinned.seat) }
        ensures err { OnErr result (IsSameSeat pass.old.pinned.seat pass.new.pinned.seat) }
        ensures same { KeepsAllBut its_visits pass.old pass.new }
    {
        pass.pinned.count(&self.store.gate, waiter, shard)
    }

    /// Makes a second pass. It gets one permit of `pass` and starts with what `pass` has seen.
    pub fn split(&self, pass: &mut Pass<T::W>) -> Result<Pass<T::W>, SplitError>
        requires pass { IsPassOf self.now pass.old }
        ensures ok { IfOk result (IsSecondPass pass.old) }
        ensures kept { OnOk result (PassAfterSplit pass.old pass.new) }
        ensures cause { IfErr result (SplitCause pass.old.pinned.seat.permits) }
        ensures err { OnErr result (KeepsAllBut nothing pass.old pass.new) }
    {
        if pass.pinned.permits() < 2 {
            return Err(SplitError::NoPermit);
        }
        let second = self.second(pass)?;
        Ok(second)
    }

    /// Hands on what `from` has seen: `to` has then seen the newer generation of each file. Never
    /// waits.
    pub fn carry(&self, from: &mut Pass<T::W>, to: &mut Pass<T::W>) -> Result<(), NoMemory>
        requires from { IsPassOf self.now from.old }
        requires to { IsPassOf self.now to.old }
        ensures seen { OnOk result (SeesBoth from.old to.old to.new) }
        ensures kept { KeepsAllBut the_view to.old to.new }
        ensures steps { to.new.view.steps ≡ to.old.view.steps }
        ensures same { KeepsAllBut nothing from.old from.new }
        ensures err { OnErr result (KeepsAllBut nothing to.old to.new) }
    {
        let board = self.store.files.board();
        let seen = board.split(&mut from.view)?;
        board.join(&mut to.view, seen);
        Ok(())
    }

    /// Ends the other pass: its tiles are unpinned, and `pass` gets its permits, its counts and
    /// what it has seen. Allocates nothing.
    ///
    /// If the waiter gives up, the other pass is returned with the tiles that it still has.
    pub fn join<V: Waiter>(
        &self,
        waiter: &V,
        keep: &mut Pass<T::W>,
        mut other: Pass<T::W>,
    ) -> Result<(), NotJoined<T::W, V::Busy>>
        requires keep { IsPassOf self.now keep.old }
        requires other { IsPassOf self.now other }
        ensures ok { OnOk result (PassAfterJoin other keep.old keep.new) }
        ensures joined { OnOk result (JoinsReleased self.now.gate other keep.old keep.new) }
        ensures err { OnErr result (KeepsAllBut nothing keep.old keep.new) }
        // The other pass, if the waiter gives up.
        ensures back { IfErr result (λ e. KeepsAllBut its_tiles other e.other) }
        ensures part { IfErr result (λ e. LeavesPart other.pinned e.other.pinned) }
        ensures visits { IfErr result (λ e.
            PurgesNone self.now.gate other.pinned.seat e.other.pinned.seat) }
    {
        let released = other.pinned.release_all(&self.store.gate, waiter);
        if let Err(busy) = released {
            return Err(NotJoined { other, busy });
        }
        self.take_in(keep, other);
        Ok(())
    }

    /// Ends another pass that has no tiles.
    fn take_in(&self, keep: &mut Pass<T::W>, other: Pass<T::W>)
        requires keep { IsPassOf self.now keep.old }
        requires other { IsPassOf self.now other }
        requires pins { other.pinned.seat.pins ≡ [] }
        ensures after { PassAfterJoin other keep.old keep.new }
        ensures joined { JoinsVisits other.pinned.seat keep.old.pinned.seat keep.new.pinned.seat }
    {
        let Pass {
            view,
            pinned,
            latest: _,
            needs,
            hits,
            apart,
        } = other;
        self.store.files.board().join(&mut keep.view, view);
        keep.pinned.join(&self.store.gate, pinned);
        keep.needs = keep.needs.saturating_add(needs);
        keep.hits = keep.hits.saturating_add(hits);
        keep.apart = keep.apart.saturating_add(apart);
    }

    /// Makes a second pass.
    fn second(&self, pass: &mut Pass<T::W>) -> Result<Pass<T::W>, NoMemory>
        requires pass { IsPassOf self.now pass.old }
        requires permits { 1 < pass.old.pinned.seat.permits }
        ensures ok { IfOk result (IsSecondPass pass.old) }
        ensures kept { OnOk result (PassAfterSplit pass.old pass.new) }
        ensures err { OnErr result (KeepsAllBut nothing pass.old pass.new) }
    {
        let view = self.store.files.board().split(&mut pass.view)?;
        let pinned = pass.pinned.split(self.store.alloc, &self.store.gate)?;
        pinned.know();
        Ok(Pass::of(view, pinned))
    }
}

/// Makes a cache with these options, and its first pass.
fn made<T: Tap>(
    alloc: Global,
    options: Options,
    files: u32,
) -> Result<(Cache<T>, Pass<T::W>), NoMemory>
    requires options { IsWithin options }
    requires files { files ≤ max_files }
    ensures cache { IfOk result (λ made. IsNewCache options files made.0) }
    ensures pass { IfOk result (λ made. IsFirstPass made.0 made.1) }
{
    let cut = options.cut;
    let (files, view) = Files::new(alloc, files, options.handles as usize, cut)?;
    let (gate, seat) = Gate::new(alloc, options.budget, options.shards, options.passes, cut)?;
    let pinned = Pinned::new(alloc, seat, cut)?;
    pinned.know();
    let slots = Slots::new(alloc, options.slots)?;
    let cache = Cache {
        store: Store {
            alloc,
            files,
            gate,
            slots,
            cut,
        },
        shards: options.shards,
    };
    Ok((cache, Pass::of(view, pinned)))
}
