//! The trait that ties a lock's tag to its value.
ghost use Rattle.std.specs.Prelude.{ℕ};

/// Which values fit a tag. It is a type without data.
pub trait TagRule<T> {
    /// Whether the value fits the tag. It holds of every value in a lock with that tag.
    ghost fits: { ℕ → T → Type 0 };
}
