//! The place inside a lock.
ghost use Rattle.std.specs.Prelude.{◌≡◌, Some, None, IfSome};

use crate::rule::TagRule;
use counted_slot::Fits;
use std::marker::PhantomData;

/// The value in the lock; `None` while it is taken out.
#[derive(Drop)]
pub(crate) struct LockedValue<T, F: TagRule<T>> {
    value: Option<T>,
    rule: PhantomData<F>,
}

impl<T, F: TagRule<T>> Fits for LockedValue<T, F> {
    type Tag = u64;

    ghost fits = { λ tag place. IfSome place.value (F.fits tag) };
}

impl<T, F: TagRule<T>> LockedValue<T, F> {
    pub(crate) fn of(value: T) -> LockedValue<T, F>
        ensures { result.value ≡ Some value }
    {
        LockedValue {
            value: Some(value),
            rule: PhantomData,
        }
    }

    pub(crate) fn empty() -> LockedValue<T, F>
        ensures { result.value ≡ None }
    {
        LockedValue {
            value: None,
            rule: PhantomData,
        }
    }

    pub(crate) fn into_value(self) -> Option<T>
        ensures { result ≡ self.value }
    {
        let LockedValue { value, rule: _ } = self;
        value
    }
}
