//! How a range of places overlaps the side of a level.

ghost use Rattle.texel_values.specs.Overlap.{IsOverlap};

/// A range of places, split into those before the side, those on it, and those after it.
#[derive(Clone, Copy, Debug, PartialEq, Eq)]
pub struct Overlap {
    /// The number of places before the side.
    pub before: u32,
    /// The place on the side where the overlap begins.
    pub first: u32,
    /// The number of places on the side.
    pub inside: u32,
    /// The number of places after the side.
    pub after: u32,
}

impl Overlap {
    /// How `count` places from `start` on overlap a side of `size` places.
    pub fn new(start: i32, count: u32, size: u32) -> Overlap
        ensures { IsOverlap start count size result }
    {
        let (before, first) = if start < 0 {
            (start.unsigned_abs().min(count), 0)
        } else {
            (0, (start as u32).min(size))
        };
        let inside = (count - before).min(size - first);
        Overlap {
            before,
            first,
            inside,
            after: count - before - inside,
        }
    }
}
