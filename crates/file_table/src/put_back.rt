//! Puts back a value that was taken out of its lock.

use tag_lock::{NotPut, TagLock, TagRule};
use waiter::Waiter;

/// Puts back what was taken. Only a taker puts back, so the lock is empty and the first try
/// succeeds.
pub(crate) fn put_back<X: Drop, F: TagRule<X>, V: Waiter>(
    lock: &TagLock<X, F>,
    waiter: &V,
    value: X,
)
    requires { F.fits lock.now value }
{
    match lock.put(waiter, value) {
        Ok(()) => {}
        Err(NotPut { value: _, busy: _ }) => {}
    }
}
