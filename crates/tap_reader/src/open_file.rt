//! An open file with its read-ahead.
use crate::read_ahead::ReadAhead;
use tex_world::Tap;

/// An open file: its handle, and read-ahead of the same generation.
#[derive(Drop)]
pub struct OpenFile<T: Tap> {
    pub handle: T::Handle,
    pub ahead: ReadAhead<T::W>,
}
