//! Answers a list, round by round.

ghost use Rattle.std.specs.Prelude.{◌≡◌, ◌+◌, ◌<◌, ◌≤◌, [], length};
ghost use Rattle.std.specs.Prelude.{IfOk, IfErr, OnOk, OnErr, IsSome};
ghost use Rattle.std.specs.List.{All};
ghost use Rattle.request_lang.specs.Grammar.{max_requests};
ghost use Rattle.render_run.specs.Around.{setup_of, terms_of};
ghost use Rattle.answer_page.specs.Page.{sink_of};
ghost use Rattle.render_run.specs.Question.{MayAsk};
ghost use Rattle.render_run.specs.Answering.{AreDealt, HasAllAlone, MayBeAnswered, SoFar};
ghost use Rattle.render_run.specs.Crew.{max_workers, AnswersRound, AreCarried, AreIdle, SeeNoLess};
ghost use Rattle.render_run.specs.Posts.{AreCallersOf, HaveRoom, answers_of, progress_by, sights_of};
ghost use Rattle.render_run.specs.Written.{EndsEarly, Leaves};

use crate::closing::close;
use crate::crew::carry_all;
use crate::dealing::round_len;
use crate::hook::Hook;
use crate::question::Task;
use crate::round::{Post, Setting, answer_round, deal, make_room, write_round};
use answer_page::Page;
use image_cache::Cache;
use request_lang::Request;
use std::sync::Wait;
use std::thread::Threads;
use tex_world::{Folder, NoMemory, Sink, Tap};

/// Why a list was not answered to its end.
#[derive(Clone, Copy, Debug, PartialEq, Eq)]
pub(crate) enum Unfinished {
    /// The output failed.
    NotWritten,
    /// Out of memory for a round. All rounds before it were written.
    NoMemory,
}

/// Answers the requests in order, round by round. Writes the line of each and the closing lines,
/// and returns whether any line is a refusal. The page must be empty.
pub(crate) fn answer_list<R: Threads + Wait + Sync, F: Folder, O: Sink, K: Hook + Sync>(
    setting: &Setting<'_, R, F::Tap, K>,
    folder: &F,
    posts: &mut [Post<&R, F::Tap>],
    requests: &[Request],
    page: &mut Page,
    out: &mut O,
) -> Result<bool, Unfinished>
where
    F::Tap: Send,
    <F::Tap as Tap>::Handle: Send + Sync,
    F::W: Send + Sync,
    requires may { MayBeAnswered (F.state folder.now) setting.now.cache.now requests.now }
    requires callers { AreCallersOf setting.now.cache.now posts.old }
    requires crew { (0 < length posts.old) × (length posts.old ≤ max_workers) }
    requires idle { AreIdle (sights_of F.Tap.state posts.old) }
    requires alone { HasAllAlone setting.now.cache.now.gate.passes
        (sights_of F.Tap.state posts.old) }
    requires empty { page.old ≡ [] }
    ensures { Leaves (setup_of F.W.files (F.state folder.now)
        (terms_of setting.now.cache.now.gate) (length posts.old)) requests.now
        (progress_by F.Tap.state posts.old (sink_of O.Sink out.old))
        (progress_by F.Tap.state posts.new (sink_of O.Sink out.new)) result }
{
    match answer_rounds(setting, folder, posts, requests, page, out) {
        Ok(refused) => match close(page, posts, requests.len(), refused, out) {
            Ok(()) => Ok(refused > 0),
            Err(_failed) => Err(Unfinished::NotWritten),
        },
        Err(Unfinished::NoMemory) => match page.put(out) {
            Ok(()) => Err(Unfinished::NoMemory),
            Err(_failed) => Err(Unfinished::NotWritten),
        },
        Err(Unfinished::NotWritten) => Err(Unfinished::NotWritten),
    }
}

/// Answers the requests, writes their lines to the page, and counts the refusals.
fn answer_rounds<R: Threads + Wait + Sync, F: Folder, O: Sink, K: Hook + Sync>(
    setting: &Setting<'_, R, F::Tap, K>,
    folder: &F,
    posts: &mut [Post<&R, F::Tap>],
    requests: &[Request],
    page: &mut Page,
    out: &mut O,
) -> Result<usize, Unfinished>
where
    F::Tap: Send,
    <F::Tap as Tap>::Handle: Send + Sync,
    F::W: Send + Sync,
    requires may { MayBeAnswered (F.state folder.now) setting.now.cache.now requests.now }
    requires callers { AreCallersOf setting.now.cache.now posts.old }
    requires crew { (0 < length posts.old) × (length posts.old ≤ max_workers) }
    requires idle { AreIdle (sights_of F.Tap.state posts.old) }
    requires alone { HasAllAlone setting.now.cache.now.gate.passes
        (sights_of F.Tap.state posts.old) }
    requires empty { page.old ≡ [] }
    ensures ok { IfOk result (SoFar (setup_of F.W.files (F.state folder.now)
        (terms_of setting.now.cache.now.gate) (length posts.old)) requests.now
        (length requests.now) (sights_of F.Tap.state posts.new)
        (progress_by F.Tap.state posts.old (sink_of O.Sink out.old))
        (progress_by F.Tap.state posts.new (sink_of O.Sink out.new)) page.new) }
    ensures err { IfErr result (EndsEarly (setup_of F.W.files (F.state folder.now)
        (terms_of setting.now.cache.now.gate) (length posts.old)) requests.now
        (sights_of F.Tap.state posts.new)
        (progress_by F.Tap.state posts.old (sink_of O.Sink out.old))
        (progress_by F.Tap.state posts.new (sink_of O.Sink out.new)) page.new) }
{
    let mut tasks = Vec::new(setting.alloc);
    let mut refused = 0;
    let mut done = 0;
    'rounds: while done < requests.len() {
        let count = round_len(&requests[done..]);
        if let Err(NoMemory) = answer_next(
            setting,
            folder,
            posts,
            &requests[done..done + count],
            done,
            &mut tasks,
        ) {
            return Err(Unfinished::NoMemory);
        }
        match write_round(page, posts, count, out) {
            Ok(said) => refused += said,
            Err(_failed) => return Err(Unfinished::NotWritten),
        }
        done += count;
    }
    Ok(refused)
}

/// Answers the round of these requests, whose first has this place in the list. `tasks` is a buffer
/// for what the workers are given.
fn answer_next<R: Threads + Wait + Sync, F: Folder, K: Hook + Sync>(
    setting: &Setting<'_, R, F::Tap, K>,
    folder: &F,
    posts: &mut [Post<&R, F::Tap>],
    requests: &[Request],
    first: usize,
    tasks: &mut Vec<Task>,
) -> Result<(), NoMemory>
where
    F::Tap: Send,
    <F::Tap as Tap>::Handle: Send + Sync,
    F::W: Send + Sync,
    requires entered { IsSome (F.state folder.now).entered }
    requires files { setting.now.cache.now.files.board.files ≡ (F.state folder.now).size }
    requires callers { AreCallersOf setting.now.cache.now posts.old }
    requires crew { (0 < length posts.old) × (length posts.old ≤ max_workers) }
    requires asked { All MayAsk requests.now }
    requires few { first + length requests.now ≤ max_requests }
    ensures ok { OnOk result (AnswersRound (setup_of F.W.files (F.state folder.now)
        (terms_of setting.now.cache.now.gate) (length posts.old)) requests.now
        (answers_of posts.new) (sights_of F.Tap.state posts.old)
        (sights_of F.Tap.state posts.new)) }
    ensures err { OnErr result (SeeNoLess (sights_of F.Tap.state posts.old)
        (sights_of F.Tap.state posts.new)) }
    ensures callers { AreCallersOf setting.now.cache.now posts.new }
{
    begin(setting.cache, folder, posts, requests, tasks)?;
    answer_round(setting, posts, tasks, first);
    Ok(())
}

/// Begins a round: the workers exchange what they have seen, the names of the requests are looked
/// up, and memory for the answers is reserved.
fn begin<R: Wait, F: Folder>(
    cache: &Cache<F::Tap>,
    folder: &F,
    posts: &mut [Post<R, F::Tap>],
    requests: &[Request],
    tasks: &mut Vec<Task>,
) -> Result<(), NoMemory>
    requires entered { IsSome (F.state folder.now).entered }
    requires callers { AreCallersOf cache.now posts.old }
    requires some { 0 < length posts.old }
    requires asked { All MayAsk requests.now }
    requires few { length requests.now ≤ max_requests }
    ensures dealt { OnOk result
        (AreDealt F.W.files (F.state folder.now) requests.now tasks.new.items) }
    ensures room { OnOk result (HaveRoom (length posts.old) (length requests.now) posts.new) }
    ensures ok { OnOk result (AreCarried (sights_of F.Tap.state posts.old)
        (sights_of F.Tap.state posts.new)) }
    ensures kept { SeeNoLess (sights_of F.Tap.state posts.old) (sights_of F.Tap.state posts.new) }
    ensures callers { AreCallersOf cache.now posts.new }
{
    carry_all(cache, posts)?;
    let Ok(()) = deal(folder, requests, tasks) else {
        return Err(NoMemory);
    };
    let Ok(()) = make_room(posts, requests.len()) else {
        return Err(NoMemory);
    };
    Ok(())
}
