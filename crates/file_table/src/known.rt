//! The value inside the lock of a file's record.
ghost use Rattle.std.specs.Prelude.{◌≡◌, ◌⊎◌, ◌≤◌, Some, None, IfSome, IsSome, IsSomeAnd};

use crate::record::Record;
use std::marker::PhantomData;
use std::mem;
use std::sync::Arc;
use tag_lock::TagRule;
use tex_world::World;
use tiff_format::Cut;

/// The newest known record of a file, if there is one.
#[derive(Drop)]
pub(crate) struct KnownRecord<W: World> {
    record: Option<Arc<Record<W>>>,
}

/// The lock's rule: the record is that of the file whose number is the tag.
pub(crate) struct SameFile<W> {
    world: PhantomData<W>,
}

impl<W: World> TagRule<KnownRecord<W>> for SameFile<W> {
    ghost fits = { λ file known. IfSome known.record (λ r. r.value.file ≡ file) };
}

impl<W: World> KnownRecord<W> {
    pub(crate) fn none() -> KnownRecord<W>
        ensures { result.record ≡ None }
    {
        KnownRecord { record: None }
    }

    /// The record, if its generation is at least this one. All records of a table have the same
    /// cut, so one of another cut is never found.
    pub(crate) fn at_least(&self, least: u32, cut: Cut) -> Option<Arc<Record<W>>>
        ensures known { IfSome result (λ r. IfSome self.now.record (λ k. r.value ≡ k.value)) }
        ensures there { IsSome result → IsSome self.now.record }
        ensures least { IfSome result (λ r. least ≤ r.value.generation) }
        ensures cut { IfSome result (λ r. r.value.cut ≡ cut) }
    {
        match &self.record {
            Some(record) if least <= record.generation() && record.cut() == cut => {
                Arc::try_clone(record).ok()
            }
            _ => None,
        }
    }

    /// Drops the record, which is returned.
    pub(crate) fn forget(&mut self) -> Option<Arc<Record<W>>>
        ensures gone { self.new.record ≡ None }
        ensures back { result ≡ self.old.record }
    {
        self.record.take()
    }

    /// Keeps a record unless the known one is newer. The one that is not kept is returned.
    pub(crate) fn keep(&mut self, read: Arc<Record<W>>) -> Option<Arc<Record<W>>>
        ensures kept { (self.new.record ≡ Some read) ⊎ (self.new.record ≡ self.old.record) }
        ensures newest { IsSomeAnd self.new.record (λ kept.
            read.value.generation ≤ kept.value.generation) }
        ensures newer { IfSome self.old.record (λ known. IfSome self.new.record (λ kept.
            known.value.generation ≤ kept.value.generation)) }
    {
        match &self.record {
            Some(known) if read.generation() < known.generation() => Some(read),
            _ => mem::replace(&mut self.record, Some(read)),
        }
    }
}
