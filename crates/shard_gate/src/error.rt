//! Why a tile cannot be pinned, or a pin not be given back.
use crate::pin::Pin;
use tex_world::World;
use tile_store::Tile;

/// Why the tile of a key could not be looked for and pinned.
#[derive(Debug, Drop)]
pub enum PinError<B> {
    /// Out of memory.
    NoMemory,
    /// The caller's waiter gave up on a lock.
    Busy(B),
}

/// Why a new tile was not pinned.
#[derive(Drop)]
pub enum NotPinned<W: World, B> {
    /// Out of memory. The tile is dropped.
    NoMemory,
    /// The caller's waiter gave up on a lock. The tile comes back.
    Busy { tile: Tile<W>, busy: B },
}

/// The caller's waiter gave up on a lock. The pin comes back.
#[derive(Drop)]
pub struct NotUnpinned<W: World, B> {
    pub pin: Pin<W>,
    pub busy: B,
}
