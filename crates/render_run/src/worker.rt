//! Answers what a worker is given, through the cache.

ghost use Rattle.std.specs.Prelude.{◌≡◌, ◌+◌, ◌<◌, ◌≤◌, None, IfSome, IfOk, length, slice_get};
ghost use Rattle.tile_source.specs.Pass.{KeepsAllBut, its_visits};
ghost use Rattle.request_lang.specs.Appending.{max_shards};
ghost use Rattle.caller.specs.Caller.{KeepsAllButPass};
ghost use Rattle.render_run.specs.Around.{terms_of};
ghost use Rattle.texel_filter.specs.Image.{IsChannelCount};
ghost use Rattle.texel_filter.specs.Deriv.{IsDerivRequest};
ghost use Rattle.render_run.specs.Question.{MayBeAsked};
ghost use Rattle.render_run.specs.Pins.{HavePins};
ghost use Rattle.render_run.specs.Refusal.{refusal_of};
ghost use Rattle.render_run.specs.Reply.{AreShardsOf};
ghost use Rattle.render_run.specs.Answering.{AreFiles, MayBeGiven};
ghost use Rattle.render_run.specs.Posts.{MayAnswer, WorkerAnswers};

use crate::question::{Question, Task};
use caller::Caller;
use image_cache::{CacheError, NotReleased, Pass};
use request_lang::{Answer, Shards, Values};
use std::alloc::{AllocError, Global};
use std::convert::Infallible;
use std::sync::Wait;
use tex_world::{Tap, World};
use texel_filter::{DerivRequest, TexRequest};
use texel_values::{Region, TexelAt};
use texture_sys::LookupRequest;
use tiff_format::{MAX_CHANNELS, Rect, ShardCount};
use waiter::Forever;

/// Answers what a worker is given for a request. Memory for values comes from `alloc`.
pub(crate) fn answer<R: Wait, T: Tap>(
    caller: &mut Caller<Forever<R>, T>,
    alloc: Global,
    task: &Task,
) -> Answer
    requires given { MayBeGiven T.W.files caller.old.cache.files.board.files task.now }
    requires files { AreFiles T.W.files caller.old.cache.files.board.files }
    ensures { WorkerAnswers T.state T.W.files task.now caller.old caller.new result }
{
    match task {
        Task::Ask(Some(file), question) => answer_on(caller, alloc, *file, question),
        Task::Ask(None, _) => Answer::NoSuchFile,
        Task::Tile(Some(file), question) => answer_on(caller, alloc, *file, question),
        Task::Tile(None, _) => Answer::NoSuchFile,
        Task::Unnamed => Answer::NoMemory,
        Task::Release => release(caller),
        Task::RenewAll => renewal_of_all(caller),
        Task::Count => shards(caller, alloc),
        Task::Sync => Answer::Synced,
    }
}

/// Answers a question about a file.
fn answer_on<R: Wait, T: Tap>(
    caller: &mut Caller<Forever<R>, T>,
    alloc: Global,
    file: u32,
    question: &Question,
) -> Answer
    requires by { MayAnswer T.W.files caller.old.cache file }
    requires asked { MayBeAsked question.now }
    ensures { WorkerAnswers T.state T.W.files (Task.Ask (Some file) question.now)
        caller.old caller.new result }
{
    match question {
        Question::Facts => facts(caller, file),
        Question::Values(region) => values(caller, alloc, file, region),
        Question::Lookup(LookupRequest::Point(request)) => look(caller, file, request),
        Question::Lookup(LookupRequest::Footprint(request)) => lookup_along(caller, file, request),
        Question::Hold(at) => hold(caller, file, *at),
        Question::Renewal(force) => renewal(caller, file, *force),
    }
}

/// Answers with the size and the levels of a file.
fn facts<R: Wait, T: Tap>(caller: &mut Caller<Forever<R>, T>, file: u32) -> Answer
    requires { MayAnswer T.W.files caller.old.cache file }
    ensures { WorkerAnswers T.state T.W.files (Task.Ask (Some file) Question.Facts)
        caller.old caller.new result }
{
    match caller.info(file) {
        Ok(info) => Answer::Info(info),
        Err(e) => refusal(e),
    }
}

/// Answers with the values of a region.
fn values<R: Wait, T: Tap>(
    caller: &mut Caller<Forever<R>, T>,
    alloc: Global,
    file: u32,
    region: &Region,
) -> Answer
    requires { MayAnswer T.W.files caller.old.cache file }
    ensures { WorkerAnswers T.state T.W.files
        (Task.Ask (Some file) (Question.Values region.now)) caller.old caller.new result }
{
    let mut values = Vec::new(alloc);
    match caller.pixels(file, region, &mut values) {
        Ok(pixels) => Answer::Pixels {
            generation: pixels.generation,
            channels: pixels.channels,
            values: Values::new(values),
        },
        Err(e) => refusal(e),
    }
}

/// Answers with the values of a lookup.
fn look<R: Wait, T: Tap>(
    caller: &mut Caller<Forever<R>, T>,
    file: u32,
    request: &TexRequest,
) -> Answer
    requires by { MayAnswer T.W.files caller.old.cache file }
    requires channels { IsChannelCount request.now.nch }
    ensures { WorkerAnswers T.state T.W.files
        (Task.Ask (Some file) (Question.Lookup (LookupRequest.Point request.now)))
        caller.old caller.new result }
{
    let count = request.nch as usize;
    let mut places = [0u16; MAX_CHANNELS];
    match caller.texture(file, request, &mut places[..count]) {
        Ok(generation) => Answer::Tex {
            generation,
            values: Values::few(places, count),
        },
        Err(e) => refusal(e),
    }
}

/// Answers with the values of a lookup along a footprint.
fn lookup_along<R: Wait, T: Tap>(
    caller: &mut Caller<Forever<R>, T>,
    file: u32,
    request: &DerivRequest,
) -> Answer
    requires by { MayAnswer T.W.files caller.old.cache file }
    requires asked { IsDerivRequest request.now }
    ensures { WorkerAnswers T.state T.W.files
        (Task.Ask (Some file) (Question.Lookup (LookupRequest.Footprint request.now)))
        caller.old caller.new result }
{
    let count = request.nch as usize;
    let mut places = [0u16; MAX_CHANNELS];
    match caller.texture_d(file, request, &mut places[..count]) {
        Ok(generation) => Answer::Texd {
            generation,
            values: Values::few(places, count),
        },
        Err(e) => refusal(e),
    }
}

/// Holds the cell of a texel.
fn hold<R: Wait, T: Tap>(caller: &mut Caller<Forever<R>, T>, file: u32, at: TexelAt) -> Answer
    requires { MayAnswer T.W.files caller.old.cache file }
    ensures { WorkerAnswers T.state T.W.files (Task.Ask (Some file) (Question.Hold at))
        caller.old caller.new result }
{
    let place = caller.pass().held_count();
    match caller.hold(file, at) {
        Ok(generation) => Answer::Held {
            generation,
            rect: held_rect(caller.pass(), place),
        },
        Err(e) => refusal(e),
    }
}

/// Checks a file for a newer generation, with force or without.
fn renewal<R: Wait, T: Tap>(caller: &mut Caller<Forever<R>, T>, file: u32, force: bool) -> Answer
    requires { MayAnswer T.W.files caller.old.cache file }
    ensures { WorkerAnswers T.state T.W.files (Task.Ask (Some file) (Question.Renewal force))
        caller.old caller.new result }
{
    match caller.invalidate(file, force) {
        Ok(generation) if force => Answer::Renewed { generation },
        Ok(generation) => Answer::Invalidated { generation },
        Err(e) => refusal(e),
    }
}

/// Releases the oldest hold.
fn release<R: Wait, T: Tap>(caller: &mut Caller<Forever<R>, T>) -> Answer
    ensures { WorkerAnswers T.state T.W.files Task.Release caller.old caller.new result }
{
    match caller.release(0) {
        Ok(()) => Answer::Dropped,
        Err(NotReleased::NothingHeld) => Answer::NothingHeld,
        Err(NotReleased::Busy(never)) => match never {},
    }
}

/// Checks every known file for a newer generation.
fn renewal_of_all<R: Wait, T: Tap>(caller: &mut Caller<Forever<R>, T>) -> Answer
    requires { AreFiles T.W.files caller.old.cache.files.board.files }
    ensures { WorkerAnswers T.state T.W.files Task.RenewAll caller.old caller.new result }
{
    match caller.invalidate_all() {
        Ok(()) => Answer::InvalidatedAll,
        Err(e) => refusal(e),
    }
}

/// Answers with the counts of each shard. A tile in hand is unpinned first.
fn shards<R: Wait, T: Tap>(caller: &mut Caller<Forever<R>, T>, alloc: Global) -> Answer
    ensures { WorkerAnswers T.state T.W.files Task.Count caller.old caller.new result }
{
    match caller.release_hand() {
        Ok(()) => {}
        Err(never) => match never {},
    }
    match counts_of_shards(caller, alloc) {
        Ok(counts) => Answer::Stat {
            shards: Shards::new(counts),
        },
        Err(_refused) => Answer::NoMemory,
    }
}

/// The rectangle of the held tile at a place.
fn held_rect<W: World>(pass: &Pass<W>, place: usize) -> Rect
    requires { place < length pass.now.pinned.holds }
    ensures { IfSome (slice_get pass.now.pinned.holds place) (λ tile. result ≡ tile.rect) }
{
    match pass.held(place) {
        Some(tile) => tile.rect(),
        None => unreachable!(),
    }
}

/// The counts of each shard, in order. Nothing may be in hand.
fn counts_of_shards<R: Wait, T: Tap>(
    caller: &mut Caller<Forever<R>, T>,
    alloc: Global,
) -> Result<Vec<ShardCount>, AllocError>
    requires { caller.old.pass.pinned.hand ≡ None }
    ensures shards { IfOk result
        (λ counts. AreShardsOf (terms_of caller.old.cache.gate) counts.items) }
    ensures pins { IfOk result (λ counts. HavePins (length caller.old.pass.pinned.holds
        + length caller.old.pass.pinned.recent)
        (caller.old.pass.pinned.seat.permits ≡ caller.old.cache.gate.passes) counts.items) }
    ensures few { IfOk result (λ counts. length counts.items ≤ max_shards) }
    ensures same { KeepsAllBut its_visits caller.old.pass caller.new.pass }
    ensures rest { KeepsAllButPass caller.old caller.new }
{
    let shards = caller.cache().shards();
    let mut counts = Vec::with_capacity(alloc, shards as usize)?;
    for shard in 0..shards {
        match caller.count(shard) {
            Ok(count) => counts.push(count)?,
            Err(never) => match never {},
        }
    }
    Ok(counts)
}

/// The line for an error of the cache. A waiter that waits for ever never gives up.
fn refusal(error: CacheError<Infallible>) -> Answer
    ensures { result ≡ refusal_of error }
{
    match error {
        CacheError::BadFile { generation, fault } => Answer::BadFile { generation, fault },
        CacheError::TileTooLarge { generation } => Answer::TileTooLarge { generation },
        CacheError::NoLevel { generation, levels } => Answer::NoLevel { generation, levels },
        CacheError::Outside { generation } => Answer::Outside { generation },
        CacheError::RegionTooLarge => Answer::RegionTooLarge,
        CacheError::HoldsFull => Answer::HoldsFull,
        CacheError::Again { from, to } => Answer::Again { from, to },
        CacheError::ReadFault => Answer::ReadFault,
        CacheError::NoMemory => Answer::NoMemory,
        CacheError::Busy(never) => match never {},
    }
}
