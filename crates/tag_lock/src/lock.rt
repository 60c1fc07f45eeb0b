//! The lock.
ghost use Rattle.std.specs.Prelude.{◌≡◌, ℕ, IfSome, IfOk, IfErr};

use crate::place::LockedValue;
use crate::rule::TagRule;
use counted_slot::{Counted, FREE, TAKEN};
use std::marker::Model;
use waiter::Waiter;

/// The lock word while the value is in the lock. A new lock has it.
const HOME: u64 = FREE;

/// The lock word while the value is out. It differs only in its high half, so a waiting taker reads
/// the word and leaves the value alone.
const OUT: u64 = 0x1_0000_0000;

/// A value that threads take out and put back, one at a time. Clauses see its tag. The proof does
/// not depend on the word to know whether the value is in the lock.
#[derive(Drop)]
pub struct TagLock<T, F: TagRule<T>> {
    tag: u64,
    slot: Counted<LockedValue<T, F>>,
}

/// A `put` gave up, and returns the value. It has no `Drop`, so that no caller can lose the value
/// unnoticed.
pub struct NotPut<T, B> {
    pub value: T,
    pub busy: B,
}

impl<T, F: TagRule<T>> Model for TagLock<T, F> {
    ghost Value = { ℕ };

    ghost view = { λ lock. lock.tag };

    ghost invariant = { λ lock. lock.slot ≡ lock.tag };
}

impl<T, F: TagRule<T>> TagLock<T, F> {
    /// A lock with this value. Allocates nothing.
    pub fn new(tag: u64, value: T) -> TagLock<T, F>
        requires { F.fits tag value }
        ensures { result ≡ tag }
    {
        TagLock {
            tag,
            slot: Counted::new(LockedValue::of(value), &tag),
        }
    }

    /// The tag that the lock was made with.
    pub fn tag(&self) -> u64
        ensures { result ≡ self.now }
    {
        self.tag
    }

    /// Ends the lock, and returns the value if it is in the lock.
    pub fn into_inner(self) -> Option<T>
        ensures some { IfSome result (F.fits self) }
    {
        let TagLock { tag: _, slot } = self;
        slot.into_inner().into_value()
    }

    /// Takes the value out, and tries again while another thread has it. The taker must put a value
    /// back.
    pub fn take<W: Waiter>(&self, waiter: &W) -> Result<T, W::Busy>
        ensures ok { IfOk result (F.fits self.now) }
    {
        for failed in 0..waiter.tries() {
            if let Some(value) = self.try_take() {
                return Ok(value);
            }
            waiter.pause(failed);
        }
        Err(waiter.busy())
    }

    /// Puts a value back, and tries again while the lock has one. By convention only a taker puts a
    /// value back, so the lock is empty and the first try succeeds. `T` need not be `Drop`, so that
    /// no code can lose the value.
    pub fn put<W: Waiter>(&self, waiter: &W, value: T) -> Result<(), NotPut<T, W::Busy>>
        requires fits { F.fits self.now value }
        ensures err { IfErr result (λ e. F.fits self.now e.value) }
    {
        let mut value = value;
        for failed in 0..waiter.tries() {
            match self.try_put(value) {
                Ok(()) => return Ok(()),
                Err(back) => value = back,
            }
            waiter.pause(failed);
        }
        Err(NotPut {
            value,
            busy: waiter.busy(),
        })
    }

    /// Tries once. It writes the word only if it has just read that the value is in the lock.
    fn try_take(&self) -> Option<T>
        ensures some { IfSome result (F.fits self.now) }
    {
        if self.slot.load() != HOME {
            return None;
        }
        let (found, claim) = self.slot.turn(HOME, TAKEN);
        if found != HOME {
            claim.done();
            return None;
        }
        claim.put(LockedValue::empty(), OUT).into_value()
    }

    /// Tries once. It writes the word only if it has just read that the value is out.
    fn try_put(&self, value: T) -> Result<(), T>
        requires fits { F.fits self.now value }
        ensures err { IfErr result (F.fits self.now) }
    {
        if self.slot.load() != OUT {
            return Err(value);
        }
        let (found, claim) = self.slot.turn(OUT, TAKEN);
        if found != OUT {
            claim.done();
            return Err(value);
        }
        match claim.put(LockedValue::of(value), HOME).into_value() {
            None => Ok(()),
            // cannot happen: the lock is empty while it has that word
            Some(other) => Err(other),
        }
    }
}
