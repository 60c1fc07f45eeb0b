//! The call for C that answers many lookups of one file.
ghost use Rattle.std.specs.Prelude.{IsSome};
ghost use Rattle.supplied_client.specs.Calls.{Hands};
ghost use Rattle.supplied_client.specs.Batch.{SaysBatch};
ghost use Rattle.supplied_client.specs.Client.{LeavesFile};

use crate::held::Held;
use supplied_client::{TexBatch, TexBatchAnswer};
use texture_sys::LookupPoint;

/// Looks up the values at several places of one file, on one generation. The values of each lookup
/// follow those of the one before.
#[unsafe(no_mangle)]
pub extern "C" fn tex_c_texture_many(
    from: Held,
    to: &mut Held,
    batch: &TexBatch,
    places: &[LookupPoint],
    out: &mut [u16],
    answer: &mut TexBatchAnswer,
) -> u32
    requires from { IsSome from.value }
    ensures { Hands from.value to.new.value (λ old new.
        SaysBatch batch.now places.entry result answer.new out.old out.new old new
        × LeavesFile batch.now.file result old new) }
{
    let mut client = from.into_box();
    let code = client.say_many(batch, places, out, answer);
    *to = Held::of(client);
    code
}
