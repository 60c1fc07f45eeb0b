//! What the passes of a cache share.
use file_table::Files;
use shard_gate::Gate;
use std::alloc::Global;
use std::marker::Model;
use tex_world::Tap;
use tiff_format::Cut;
use tile_slots::Slots;

/// What the passes of a cache share: its files, the gate to its tiles, the slots for parts of rows,
/// and the cut. It owns no tap: `T` only names the world and the kind of idle handles.
#[derive(Drop)]
pub struct Store<T: Tap> {
    pub alloc: Global,
    pub files: Files<T>,
    pub gate: Gate<T::W>,
    pub slots: Slots<T::W>,
    pub cut: Cut,
}

impl<T: Tap> Model for Store<T> {
    ghost use Rattle.std.specs.Prelude.{◌≡◌};
    ghost use Rattle.tile_source.specs.Pass.{CacheState, cache_state, IsCache};

    ghost Value = { CacheState };

    ghost view = { λ s. cache_state s.files s.gate s.slots };

    ghost invariant = { λ s.
        IsCache (cache_state s.files s.gate s.slots) × (s.cut ≡ s.gate.cut) };
}

impl<T: Tap> Store<T> {
    ghost use Rattle.std.specs.Prelude.{◌≤◌};
    ghost use Rattle.tex_world.specs.World.{max_files};

    /// Does nothing; its contract gives the proof what is true of every store.
    #[inline(always)]
    pub fn know(&self)
        ensures few { self.now.files.board.files ≤ max_files }
    {
        let _ = self.files.board();
    }
}
