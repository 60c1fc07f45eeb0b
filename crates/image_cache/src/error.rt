//! Why a pass is not split or joined, and why a hold is not released.
use std::fmt::Debug;
use tex_world::{NoMemory, World};
use thiserror::Error;
use tile_source::Pass;

/// Why a hold was not released.
#[derive(Clone, Copy, Debug, PartialEq, Eq, Error)]
#[error_bound(B: Debug)]
pub enum NotReleased<B> {
    /// The pass holds no tile at that place.
    #[error("NothingHeld")]
    NothingHeld,
    /// The waiter gave up on a lock.
    #[error("Busy")]
    Busy(B),
}

/// Why a pass cannot be split.
#[derive(Clone, Copy, Debug, PartialEq, Eq, Error)]
pub enum SplitError {
    /// The pass has only one permit.
    #[error("NoPermit")]
    NoPermit,
    /// Out of memory.
    #[error("NoMemory")]
    NoMemory,
}

impl From<NoMemory> for SplitError {
    ghost use Rattle.std.specs.Prelude.{◌≡◌};
    ghost use Rattle.image_cache.specs.declared.error.SplitError.TheVariants.{NoMemory};

    ghost from_gives = { λ _ e. e ≡ NoMemory };

    fn from(_e: NoMemory) -> SplitError {
        SplitError::NoMemory
    }
}

/// The waiter gave up before all tiles of the other pass were unpinned. That pass comes back with
/// the tiles that it still has.
#[derive(Drop)]
pub struct NotJoined<W: World, B> {
    pub other: Pass<W>,
    pub busy: B,
}
