//! The top call `run`, and its exit statuses.

ghost use Rattle.std.specs.Prelude.{◌≡◌, ◌≤◌, length, IfOk, OnOk, IsSome, IsTrue};
ghost use Rattle.request_lang.specs.Grammar.{max_requests};
ghost use Rattle.std.specs.Arc.{arc_value};
ghost use Rattle.std.specs.List.{All};
ghost use Rattle.render_run.specs.Question.{MayAsk};
ghost use Rattle.tex_world.specs.World.{max_files};
ghost use Rattle.command_line.specs.RunOptions.{IsInRange};
ghost use Rattle.image_cache.specs.Pass.{IsFirstPass};
ghost use Rattle.render_run.specs.Around.{feed_state, around_of, progress_of};
ghost use Rattle.answer_page.specs.Page.{sink_state, sink_of};
ghost use Rattle.render_run.specs.Around.{source_of_folder, setup_of, terms_for, terms_of};
ghost use Rattle.render_run.specs.RunError.{asked_by};
ghost use Rattle.render_run.specs.Run.{MakesTaps, Runs};
ghost use Rattle.render_run.specs.Complete.{HasAList, IsCalm, Completes};
ghost use Rattle.render_run.specs.Written.{StatusWritten, EndedAs, Leaves, LeavesTaps, list_status};

use crate::answering::{Unfinished, answer_list};
use crate::crew::{crew_of, give_back};
use crate::hook::Hook;
use crate::prepare::{Prepared, RunError, prepare};
use crate::round::Setting;
use crate::status::{
    ALL_ANSWERED, BAD_LIST, BAD_WORDS, INPUT_FAULT, NO_MEMORY, NOT_WRITTEN, WITH_REFUSALS,
};
use answer_page::Page;
use command_line::RunOptions;
use image_cache::{Cache, NewError, Options, Pass};
use request_lang::{BadList, bad_list_text};
use std::alloc::Global;
use std::sync::{Arc, Wait};
use std::thread::Threads;
use tex_world::{Feed, Folder, NoMemory, Sink, Tap};

/// Writes a text and returns `status`, or the status of an output that failed.
fn put_status<O: Sink>(out: &mut O, text: &[u8], status: u8) -> u8
    ensures { StatusWritten text.now status (sink_of O.Sink out.old) (sink_of O.Sink out.new)
        result }
{
    match out.put(text) {
        Ok(()) => status,
        Err(_failed) => NOT_WRITTEN,
    }
}

/// Writes why the list is not valid.
#[tactic(auto, unfolding(crate::specs::RunError::ending_text))]
fn put_bad_list<O: Sink>(alloc: Global, out: &mut O, bad: BadList) -> u8
    ensures { EndedAs (RunError.NotAList bad) (sink_of O.Sink out.old) (sink_of O.Sink out.new)
        result }
{
    let mut text = Vec::new(alloc);
    match bad_list_text(bad, &mut text) {
        Ok(()) => put_status(out, &text, BAD_LIST),
        Err(_) => NO_MEMORY,
    }
}

/// Writes the text of an ending and returns its status, or that of an output that failed, or of out
/// of memory.
fn put_ending<O: Sink>(alloc: Global, out: &mut O, ending: RunError) -> u8
    ensures { EndedAs ending (sink_of O.Sink out.old) (sink_of O.Sink out.new) result }
{
    match ending {
        RunError::BadWords => put_status(out, b"bad words\n", BAD_WORDS),
        RunError::FolderFault => put_status(out, b"folder fault\n", INPUT_FAULT),
        RunError::TooManyFiles => put_status(out, b"too many files\n", INPUT_FAULT),
        RunError::ListFault => put_status(out, b"list fault\n", INPUT_FAULT),
        RunError::NotAList(bad) => put_bad_list(alloc, out, bad),
        RunError::NoMemory => NO_MEMORY,
    }
}

/// A shared cache for the files of a folder, with the given options, and its first pass.
fn cache_of<T: Tap>(
    alloc: Global,
    options: &RunOptions,
    files: u32,
) -> Result<(Arc<Cache<T>>, Pass<T::W>), NoMemory>
    requires options { IsInRange options.now }
    requires files { files ≤ max_files }
    ensures files { IfOk result (λ made. (arc_value made.0).files.board.files ≡ files) }
    ensures terms { IfOk result (λ made.
        terms_of (arc_value made.0).gate ≡ terms_for options.now) }
    ensures pass { IfOk result (λ made. IsFirstPass (arc_value made.0) made.1) }
{
    let options = Options {
        budget: options.budget,
        shards: options.shards,
        passes: options.workers,
        handles: options.handles,
        cut: options.cut,
        slots: options.slots,
    };
    match Cache::new(alloc, options, files) {
        Ok((cache, pass)) => match Arc::new(alloc, cache) {
            Ok(cache) => Ok((cache, pass)),
            Err(_) => Err(NoMemory),
        },
        Err(NewError::NoMemory) => Err(NoMemory),
        Err(NewError::BadOptions(_)) => unreachable!(),
    }
}

/// Answers the requests through taps of the folder, gives the taps back, and returns whether any
/// line is a refusal.
fn answer_through_taps<R: Threads + Wait + Sync, F: Folder, O: Sink, K: Hook + Sync>(
    rt: &R,
    alloc: Global,
    folder: &mut F,
    asked: &Prepared,
    out: &mut O,
    hook: &K,
) -> Result<bool, Unfinished>
where
    F::Tap: Send + Drop,
    <F::Tap as Tap>::Handle: Send + Sync,
    F::W: Send + Sync,
    requires entered { IsSome (F.state folder.old).entered }
    requires options { IsInRange asked.now.options }
    requires may { All MayAsk asked.now.requests.items }
    requires few { length asked.now.requests.items ≤ max_requests }
    ensures left { Leaves (setup_of F.W.files (F.state folder.new)
        (terms_for asked.now.options) asked.now.options.workers) asked.now.requests.items
        (progress_of (source_of_folder (F.state folder.old)) (sink_of O.Sink out.old))
        (progress_of (source_of_folder (F.state folder.new)) (sink_of O.Sink out.new)) result }
    ensures made { OnOk result
        (MakesTaps asked.now.options.workers (F.state folder.old) (F.state folder.new)) }
    ensures taps { LeavesTaps (F.state folder.old) (F.state folder.new) }
{
    let Ok(mut page) = Page::new(alloc) else {
        return Err(Unfinished::NoMemory);
    };
    let Ok((cache, pass)) = cache_of(alloc, &asked.options, folder.count()) else {
        return Err(Unfinished::NoMemory);
    };
    let workers = asked.options.workers as usize;
    let Ok(mut posts) = crew_of(rt, alloc, &cache, pass, folder, workers) else {
        return Err(Unfinished::NoMemory);
    };
    let shared: &Cache<F::Tap> = &cache;
    let setting = Setting {
        rt,
        alloc,
        cache: shared,
        hook,
    };
    let answered = answer_list(
        &setting,
        folder,
        &mut posts,
        &asked.requests,
        &mut page,
        out,
    );
    give_back(folder, posts);
    answered
}

/// The status of a list, answered to its end or not.
fn status_of(answered: Result<bool, Unfinished>) -> u8
    ensures { result ≡ list_status answered }
{
    match answered {
        Ok(true) => WITH_REFUSALS,
        Ok(false) => ALL_ANSWERED,
        Err(Unfinished::NotWritten) => NOT_WRITTEN,
        Err(Unfinished::NoMemory) => NO_MEMORY,
    }
}

/// Reads a list of requests from the feed, answers it from the files of the folder named in the
/// arguments, and writes the answers to the sink.
///
/// The status is 0 if everything was written and no line is a refusal, and 1 if some line is. It is
/// 2 for wrong arguments, and 3 for an invalid list. It is 4 if the folder or the feed failed or
/// the folder has too many files, 5 if the sink failed, and 6 if memory ran out.
///
/// Each worker answers its requests through its own pass and tap, in its own thread if one can be
/// made. The hook is called before and after each request.
pub fn run<R: Threads + Wait + Sync, F: Folder, I: Feed, O: Sink, K: Hook + Sync>(
    rt: &R,
    alloc: Global,
    words: &[String],
    folder: &mut F,
    feed: &mut I,
    out: &mut O,
    hook: &K,
) -> u8
where
    F::Tap: Send + Drop,
    <F::Tap as Tap>::Handle: Send + Sync,
    F::W: Send + Sync,
    ensures runs { Runs F.W.files (asked_by words.now)
        (around_of (F.state folder.old) (feed_state I.faults I.left feed.old)
        (sink_state O.faults O.holds out.old))
        (around_of (F.state folder.new) (feed_state I.faults I.left feed.new)
        (sink_state O.faults O.holds out.new)) result }
    ensures complete { IsTrue F.W.files.tells
        → HasAList (asked_by words.now) (feed_state I.faults I.left feed.old)
        → IsCalm (around_of (F.state folder.old) (feed_state I.faults I.left feed.old)
        (sink_state O.faults O.holds out.old)) (around_of (F.state folder.new)
        (feed_state I.faults I.left feed.new) (sink_state O.faults O.holds out.new))
        → Completes F.W.files (asked_by words.now)
        (around_of (F.state folder.old) (feed_state I.faults I.left feed.old)
        (sink_state O.faults O.holds out.old))
        (around_of (F.state folder.new) (feed_state I.faults I.left feed.new)
        (sink_state O.faults O.holds out.new)) result }
{
    match prepare(alloc, words, folder, feed) {
        Ok(asked) => status_of(answer_through_taps(rt, alloc, folder, &asked, out, hook)),
        Err(ending) => put_ending(alloc, out, ending),
    }
}
