//! Answers batches of lookups.
ghost use Rattle.supplied_client.specs.Client.{LeavesFile};
ghost use Rattle.supplied_client.specs.Batch.{SaysBatch};

use crate::answer::{ANSWERED, BAD_REQUEST, NO_FILE, SMALL_BUFFER};
use crate::batch::{TexBatch, TexBatchAnswer};
use crate::client::Client;
use texture_sys::{Batch, FileLookups, LookupPoint, Lookups};

impl Client {
    /// Answers `texture_many`.
    pub fn say_many(
        &mut self,
        batch: &TexBatch,
        places: &[LookupPoint],
        out: &mut [u16],
        answer: &mut TexBatchAnswer,
    ) -> u32
        ensures says { SaysBatch batch.now places.entry result answer.new out.old out.new
            self.old self.new }
        ensures left { LeavesFile batch.now.file result self.old self.new }
    {
        *answer = TexBatchAnswer::blank();
        if self.files() <= batch.file {
            self.end();
            return NO_FILE;
        }
        let Some(options) = batch.options() else {
            self.end();
            return BAD_REQUEST;
        };
        let asked = Batch { options, places };
        if let Some(i) = asked.first_out_of_range() {
            answer.done = i as u64;
            self.end();
            return BAD_REQUEST;
        }
        let Some(count) = places.len().checked_mul(options.channels() as usize) else {
            self.end();
            return SMALL_BUFFER;
        };
        if out.len() < count {
            self.end();
            return SMALL_BUFFER;
        }
        let at = FileLookups {
            file: batch.file,
            lookups: Lookups::Many(asked),
        };
        match self.texture_many(&at, &mut out[..count]) {
            Ok(generation) => {
                answer.generation = generation;
                self.end();
                ANSWERED
            }
            Err(stopped) => {
                answer.done = stopped.done as u64;
                answer.generation = stopped.generation;
                self.refuse(&stopped.error, &mut answer.error)
            }
        }
    }
}
