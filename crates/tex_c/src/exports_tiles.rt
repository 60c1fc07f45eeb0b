//! The calls for C on held tiles and on counts.
ghost use Rattle.std.specs.Prelude.{◌≡◌, IsSome};
ghost use Rattle.supplied_client.specs.Calls.{Hands, SaysTile, SaysHeld, SaysRow, SaysRelease};
ghost use Rattle.supplied_client.specs.Calls.{SaysCounts, SaysShard};
ghost use Rattle.supplied_client.specs.Client.{LeavesFile};
ghost use Rattle.supplied_client.specs.Request.{texel_of};

use crate::held::Held;
use supplied_client::{TexAnswer, TexCounts, TexShard, TexTexel, TexTile};

/// Pins the tile that holds a texel, as the latest hold of the pass.
#[unsafe(no_mangle)]
pub extern "C" fn tex_c_get_tile(
    from: Held,
    to: &mut Held,
    file: u32,
    at: &TexTexel,
    answer: &mut TexAnswer,
) -> u32
    requires from { IsSome from.value }
    ensures { Hands from.value to.new.value (λ old new.
        SaysTile file (texel_of at.now) result answer.new old new
        × LeavesFile file result old new) }
{
    let mut client = from.into_box();
    let code = client.say_get_tile(file, at.texel(), answer);
    *to = Held::of(client);
    code
}

/// Describes the tile that is held at a place.
#[unsafe(no_mangle)]
pub extern "C" fn tex_c_tile(from: Held, to: &mut Held, place: usize, out: &mut TexTile) -> u32
    requires from { IsSome from.value }
    ensures { Hands from.value to.new.value (λ old new.
        SaysHeld place result out.new old new) }
{
    let mut client = from.into_box();
    let code = client.say_tile(place, out);
    *to = Held::of(client);
    code
}

/// Copies the samples of one row of the tile that is held at a place.
#[unsafe(no_mangle)]
pub extern "C" fn tex_c_tile_row(
    from: Held,
    to: &mut Held,
    place: usize,
    row: u32,
    out: &mut [u16],
) -> u32
    requires from { IsSome from.value }
    ensures { Hands from.value to.new.value (λ old new.
        SaysRow place row result out.old out.new old new) }
{
    let mut client = from.into_box();
    let code = client.say_row(place, row, out);
    *to = Held::of(client);
    code
}

/// Releases the hold at a place.
#[unsafe(no_mangle)]
pub extern "C" fn tex_c_release_tile(from: Held, to: &mut Held, place: usize) -> u32
    requires from { IsSome from.value }
    ensures { Hands from.value to.new.value (λ old new.
        SaysRelease place result old new) }
{
    let mut client = from.into_box();
    let code = client.say_release(place);
    *to = Held::of(client);
    code
}

/// The counts of the pass.
#[unsafe(no_mangle)]
pub extern "C" fn tex_c_counts(from: Held, to: &mut Held, out: &mut TexCounts)
    requires from { IsSome from.value }
    ensures { Hands from.value to.new.value (λ old new. SaysCounts out.new old × (new ≡ old)) }
{
    let mut client = from.into_box();
    client.say_counts(out);
    *to = Held::of(client);
}

/// The counts and the memory of one shard.
#[unsafe(no_mangle)]
pub extern "C" fn tex_c_shard(from: Held, to: &mut Held, shard: u32, out: &mut TexShard) -> u32
    requires from { IsSome from.value }
    ensures { Hands from.value to.new.value (λ old new.
        SaysShard shard result out.old out.new old new) }
{
    let mut client = from.into_box();
    let code = client.say_shard(shard, out);
    *to = Held::of(client);
    code
}
