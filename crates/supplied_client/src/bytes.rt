//! A buffer of bytes that a C caller fills.

/// A buffer of bytes that a C caller fills.
#[derive(Drop)]
pub struct Bytes {
    pub items: Vec<u8>,
}
