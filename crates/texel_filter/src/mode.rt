//! The four wraps.
/// What an index beside the n texels of a row or column means.
#[derive(Clone, Copy, Debug, PartialEq, Eq)]
pub enum Wrap {
    /// No texel, and the value 0.
    Black,
    /// The nearest texel, the first or the last.
    Clamp,
    /// The texel at the index modulo n, as if the row were repeated.
    Periodic,
    /// As if the row were repeated, every second time from its end to its begin.
    Mirror,
}
