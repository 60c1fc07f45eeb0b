//! The calls for C on files and lookups. Each takes a handle by value and returns it through `to`.
ghost use Rattle.std.specs.Prelude.{◌≡◌, IsNone, IsSome, IsSomeAnd};
ghost use Rattle.texture_sys.specs.Asked.{one_point, one_footprint};
ghost use Rattle.supplied_client.specs.Calls.{Hands, SaysLookup, SaysLocally, SaysInfo, SaysRegion};
ghost use Rattle.supplied_client.specs.Calls.{SaysInvalid, SaysAllInvalid, SaysDropped, files_of};
ghost use Rattle.tex_c.specs.Exports.{IsMade, IsNotMade, IsSplitOff, SaysSplit};
ghost use Rattle.supplied_client.specs.Client.{LeavesFile, LeavesChecked};
ghost use Rattle.supplied_client.specs.Request.{IsPoint, IsFootprint, point_of, footprint_of};

use crate::held::Held;
use crate::options::TexOptions;
use image_cache::{NewError, SplitError};
use std::alloc::Global;
use supplied_client::{
    ANSWERED, BAD_OPTIONS, BAD_REQUEST, Client, NO_MEMORY, NO_PERMIT, TexAnswer, TexInfo,
    TexLookup, TexRegion,
};
use tex_world::MAX_FILES;

/// Makes a cache of `files` files, and its first pass.
#[unsafe(no_mangle)]
pub extern "C" fn tex_c_new(
    alloc: Global,
    to: &mut Held,
    options: &TexOptions,
    files: u32,
    answer: &mut TexAnswer,
) -> u32
    requires none { IsNone to.old.value }
    ensures ok { result ≡ 0 → IsSomeAnd to.new.value (IsMade options.now files) }
    ensures err { ¬ (result ≡ 0) → IsNone to.new.value }
    ensures cause { ¬ (result ≡ 0) → IsNotMade options.now files result answer.new }
{
    *answer = TexAnswer::blank();
    if MAX_FILES < files {
        return BAD_REQUEST;
    }
    match Client::new(alloc, options.large(), files) {
        Ok(client) => match Box::new(alloc, client) {
            Ok(client) => {
                *to = Held::of(client);
                ANSWERED
            }
            Err(_) => NO_MEMORY,
        },
        Err(NewError::BadOptions(k)) => {
            answer.detail = k;
            BAD_OPTIONS
        }
        Err(NewError::NoMemory) => NO_MEMORY,
    }
}

/// Makes a second pass of the same cache, for another thread.
#[unsafe(no_mangle)]
pub extern "C" fn tex_c_split(alloc: Global, from: Held, to: &mut Held, second: &mut Held) -> u32
    requires from { IsSome from.value }
    requires none { IsNone second.old.value }
    ensures same { Hands from.value to.new.value (λ old new. SaysSplit result old new) }
    ensures ok { result ≡ 0 → Hands from.value second.new.value IsSplitOff }
    ensures err { ¬ (result ≡ 0) → IsNone second.new.value }
{
    let mut client = from.into_box();
    let split = client.split();
    *to = Held::of(client);
    match split {
        Ok(other) => match Box::new(alloc, other) {
            Ok(other) => {
                *second = Held::of(other);
                ANSWERED
            }
            Err(_) => NO_MEMORY,
        },
        Err(SplitError::NoPermit) => NO_PERMIT,
        Err(SplitError::NoMemory) => NO_MEMORY,
    }
}

/// Frees a handle. The caller passes an empty handle as `none`, which is returned in its place.
#[unsafe(no_mangle)]
pub extern "C" fn tex_c_free(from: Held, none: Held, to: &mut Held)
    requires from { IsSome from.value }
    requires none { IsNone none.value }
    ensures { IsNone to.new.value }
{
    drop(from.into_box());
    *to = none;
}

/// The size, depth, channels and levels of a file.
#[unsafe(no_mangle)]
pub extern "C" fn tex_c_info(
    from: Held,
    to: &mut Held,
    file: u32,
    info: &mut TexInfo,
    answer: &mut TexAnswer,
) -> u32
    requires from { IsSome from.value }
    ensures { Hands from.value to.new.value (λ old new.
        SaysInfo file result answer.new info.new old new
        × LeavesFile file result old new) }
{
    let mut client = from.into_box();
    let code = client.say_info(file, info, answer);
    *to = Held::of(client);
    code
}

/// Looks up the values at a place.
#[unsafe(no_mangle)]
pub extern "C" fn tex_c_texture(
    from: Held,
    to: &mut Held,
    file: u32,
    lookup: &TexLookup,
    out: &mut [u16],
    answer: &mut TexAnswer,
) -> u32
    requires from { IsSome from.value }
    ensures { Hands from.value to.new.value (λ old new.
        SaysLookup file (IsPoint lookup.now) (one_point (point_of lookup.now))
        lookup.now.channels result answer.new out.old out.new old new
        × LeavesFile file result old new) }
{
    let mut client = from.into_box();
    let code = client.say_texture(file, lookup, out, answer);
    *to = Held::of(client);
    code
}

/// Looks up the mean over a pixel's footprint.
#[unsafe(no_mangle)]
pub extern "C" fn tex_c_texture_d(
    from: Held,
    to: &mut Held,
    file: u32,
    lookup: &TexLookup,
    out: &mut [u16],
    answer: &mut TexAnswer,
) -> u32
    requires from { IsSome from.value }
    ensures { Hands from.value to.new.value (λ old new.
        SaysLookup file (IsFootprint lookup.now) (one_footprint (footprint_of lookup.now))
        lookup.now.channels result answer.new out.old out.new old new
        × LeavesFile file result old new) }
{
    let mut client = from.into_box();
    let code = client.say_texture_d(file, lookup, out, answer);
    *to = Held::of(client);
    code
}

/// Looks up the values at a place if the microcache has every cell needed. It needs no supplies.
#[unsafe(no_mangle)]
pub extern "C" fn tex_c_texture_local(
    from: Held,
    to: &mut Held,
    file: u32,
    lookup: &TexLookup,
    out: &mut [u16],
    answer: &mut TexAnswer,
) -> u32
    requires from { IsSome from.value }
    ensures { Hands from.value to.new.value (λ old new.
        SaysLocally file (IsPoint lookup.now) (one_point (point_of lookup.now))
        lookup.now.channels result answer.new out.old out.new old new) }
{
    let mut client = from.into_box();
    let code = client.say_texture_local(file, lookup, out, answer);
    *to = Held::of(client);
    code
}

/// Reads the values of a region of a level.
#[unsafe(no_mangle)]
pub extern "C" fn tex_c_pixels(
    from: Held,
    to: &mut Held,
    file: u32,
    region: &TexRegion,
    out: &mut [u16],
    answer: &mut TexAnswer,
) -> u32
    requires from { IsSome from.value }
    ensures { Hands from.value to.new.value (λ old new.
        SaysRegion file region.now result answer.new out.old out.new old new
        × LeavesFile file result old new) }
{
    let mut client = from.into_box();
    let code = client.say_pixels(file, region, out, answer);
    *to = Held::of(client);
    code
}

/// Checks one file for a newer generation; with `force` its cached tiles go in any case.
#[unsafe(no_mangle)]
pub extern "C" fn tex_c_invalidate(
    from: Held,
    to: &mut Held,
    file: u32,
    force: bool,
    answer: &mut TexAnswer,
) -> u32
    requires from { IsSome from.value }
    ensures { Hands from.value to.new.value (λ old new.
        SaysInvalid file force result answer.new old new × LeavesChecked result old new) }
{
    let mut client = from.into_box();
    let code = client.say_invalidate(file, force, answer);
    *to = Held::of(client);
    code
}

/// Drops what is kept of a file beside its tiles: what its directories say, and bytes read ahead.
/// The next call on the file reads its directories again.
#[unsafe(no_mangle)]
pub extern "C" fn tex_c_drop_record(from: Held, to: &mut Held, file: u32) -> u32
    requires from { IsSome from.value }
    ensures { Hands from.value to.new.value (λ old new.
        SaysDropped file (files_of old) result × (new ≡ old)) }
{
    let client = from.into_box();
    let code = client.drop_record(file);
    *to = Held::of(client);
    code
}

/// Checks every known file for a newer generation.
#[unsafe(no_mangle)]
pub extern "C" fn tex_c_invalidate_all(from: Held, to: &mut Held, answer: &mut TexAnswer) -> u32
    requires from { IsSome from.value }
    ensures { Hands from.value to.new.value (λ old new.
        SaysAllInvalid result answer.new old new × LeavesChecked result old new) }
{
    let mut client = from.into_box();
    let code = client.say_invalidate_all(answer);
    *to = Held::of(client);
    code
}
