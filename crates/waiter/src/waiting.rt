//! The trait for how a call waits for a lock.
ghost use Rattle.std.specs.Prelude.{◌≡◌, ℕ, ◌<◌};

/// How a call waits. A call tries, pauses after each failed try, and answers `busy` when its tries
/// are used up:
///
/// ```text
/// for failed in 0..waiter.tries() {
///     if let Some(x) = self.try_once() {
///         return Ok(x);
///     }
///     waiter.pause(failed);
/// }
/// Err(waiter.busy())
/// ```
pub trait Waiter {
    /// What a call answers if it gives up.
    type Busy: Drop;

    /// The number of tries, the first one included.
    ghost tries_of: { Self → ℕ };

    /// The number of tries, the first one included.
    fn tries(&self) -> u64
        ensures value { result ≡ tries_of self.now }
        ensures some { 0 < result };

    /// Lets other threads run after a failed try. `failed` tries had failed before it.
    fn pause(&self, failed: u64);

    /// What a call answers when its tries are used up.
    fn busy(&self) -> Self::Busy;
}
