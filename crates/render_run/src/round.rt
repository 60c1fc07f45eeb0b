//! A round: its requests are dealt to the workers, each worker answers its share in its own thread,
//! and then the lines are written.

ghost use Rattle.std.specs.Prelude.{◌≡◌, ◌+◌, ◌*◌, ◌<◌, ◌≤◌, [], length, map, vec_capacity};
ghost use Rattle.std.specs.Prelude.{IfOk, OnOk, IsSome};
ghost use Rattle.std.specs.List.{All, count_by};
ghost use Rattle.request_lang.specs.Basis.{is_refusal};
ghost use Rattle.request_lang.specs.Grammar.{max_requests};
ghost use Rattle.render_run.specs.Around.{terms_of};
ghost use Rattle.render_run.specs.Question.{MayAsk};
ghost use Rattle.render_run.specs.Answering.{AnswersEach, AreDealt, MayBeGiven, AreFiles, share_of};
ghost use Rattle.render_run.specs.Answering.{answers_text, in_turn, AreInTurn};
ghost use Rattle.render_run.specs.Crew.{max_workers, AnswersShares};
ghost use Rattle.answer_page.specs.Page.{outgoing, PassesOn};
ghost use Rattle.render_run.specs.Posts.{AreCallersOf, HaveRoom, WorkerAnswers, answers_of};
ghost use Rattle.render_run.specs.Posts.{sight, sights_of};

use crate::hook::Hook;
use crate::question::{Task, next_task};
use crate::worker::answer;
use answer_page::Page;
use caller::Caller;
use image_cache::Cache;
use request_lang::{Answer, Request};
use std::alloc::{AllocError, Global};
use std::sync::Wait;
use std::thread::{Threads, for_each_mut};
use tex_world::{Failed, Folder, Sink, Tap};
use waiter::Forever;

/// A worker: a caller of the cache that waits for ever, and its answers of a round.
#[derive(Drop)]
pub(crate) struct Post<R: Wait, T: Tap> {
    pub(crate) caller: Caller<Forever<R>, T>,
    pub(crate) answers: Vec<Answer>,
}

/// What the workers of a run share: the runtime, the allocator, the cache, and the hook. The cache
/// is read by clauses alone: each worker's caller has it.
#[derive(Drop)]
pub(crate) struct Setting<'a, R, T: Tap, K> {
    pub(crate) rt: &'a R,
    pub(crate) alloc: Global,
    pub(crate) cache: &'a Cache<T>,
    pub(crate) hook: &'a K,
}

/// Which requests of a round belong to a worker: every `workers`-th one, from number `worker` on.
/// The first request of the round is number `first` in the list.
#[derive(Clone, Copy, Debug)]
pub(crate) struct Turn {
    pub(crate) worker: usize,
    pub(crate) workers: usize,
    pub(crate) first: usize,
}

/// Looks up the names of these requests, and fills in what each worker is given.
pub(crate) fn deal<F: Folder>(
    folder: &F,
    requests: &[Request],
    tasks: &mut Vec<Task>,
) -> Result<(), AllocError>
    requires entered { IsSome (F.state folder.now).entered }
    requires asked { All MayAsk requests.now }
    ensures { OnOk result
        (AreDealt F.W.files (F.state folder.now) requests.now tasks.new.items) }
{
    let alloc = *tasks.allocator();
    tasks.clear();
    tasks.reserve(requests.len())?;
    let mut known = None;
    for request in requests {
        tasks.push(next_task(alloc, folder, request, &mut known))?;
    }
    Ok(())
}

/// Reserves memory for the answers to `count` requests, which the workers take in turn.
pub(crate) fn make_room<R: Wait, T: Tap>(
    posts: &mut [Post<R, T>],
    count: usize,
) -> Result<(), AllocError>
    requires some { 0 < length posts.old }
    requires few { count ≤ max_requests }
    ensures room { OnOk result (HaveRoom (length posts.old) count posts.new) }
    ensures same { map (λ p. p.caller) posts.new ≡ map (λ p. p.caller) posts.old }
{
    let each = count / posts.len() + 1;
    for post in posts.iter_mut() {
        post.answers.clear();
        post.answers.reserve(each)?;
    }
    Ok(())
}

/// The number of threads for a round. If at most one request is dealt, it is answered in the
/// calling thread. `sync` is dealt to nobody.
fn threads_for(workers: usize, tasks: &[Task]) -> usize
    requires { 0 < workers }
    ensures { 0 < result }
{
    let dealt = tasks.iter().filter(|task| !matches!(task, Task::Sync));
    if dealt.take(2).count() < 2 {
        1
    } else {
        workers
    }
}

/// Lets each worker answer its share of a round, in its own thread if one can be made and more than
/// one request is dealt.
pub(crate) fn answer_round<R: Threads + Wait + Sync, T: Tap + Send, K: Hook + Sync>(
    setting: &Setting<'_, R, T, K>,
    posts: &mut [Post<&R, T>],
    tasks: &[Task],
    first: usize,
)
where
    T::Handle: Send + Sync,
    T::W: Send + Sync,
    requires callers { AreCallersOf setting.now.cache.now posts.old }
    requires room { HaveRoom (length posts.old) (length tasks.now) posts.old }
    requires given { All (MayBeGiven T.W.files setting.now.cache.now.files.board.files) tasks.now }
    requires files { AreFiles T.W.files setting.now.cache.now.files.board.files }
    requires some { (0 < length posts.old) × (length posts.old ≤ max_workers) }
    requires few { first + length tasks.now ≤ max_requests }
    ensures shares { AnswersShares T.W.files (terms_of setting.now.cache.now.gate) tasks.now
        (answers_of posts.new) (sights_of T.state posts.old) (sights_of T.state posts.new) }
    ensures callers { AreCallersOf setting.now.cache.now posts.new }
{
    let workers = posts.len();
    for_each_mut(
        setting.rt,
        posts,
        threads_for(workers, tasks),
        &|worker, post|
            requires { (worker < workers) × (workers ≤ max_workers)
                × (post.old.caller.cache ≡ setting.now.cache.now)
                × (post.old.answers.items ≡ [])
                × (length tasks.now ≤ workers * vec_capacity post.old.answers)
                × All (MayBeGiven T.W.files setting.now.cache.now.files.board.files) tasks.now
                × AreFiles T.W.files setting.now.cache.now.files.board.files
                × (first + length tasks.now ≤ max_requests) }
            ensures { AnswersEach T.W.files (terms_of setting.entry.now.cache.now.gate)
                (share_of workers worker tasks.entry.now) post.new.answers.items
                (sight T.state post.old.caller) (sight T.state post.new.caller)
                × (post.new.caller.cache ≡ setting.entry.now.cache.now) }
        {
            let turn = Turn {
                worker,
                workers,
                first,
            };
            answer_share(setting, post, tasks, turn)
        },
    );
}

/// Answers a worker's share of a round, one request after another. Memory for the answers is
/// already reserved.
fn answer_share<R: Wait, T: Tap, K: Hook>(
    setting: &Setting<'_, R, T, K>,
    post: &mut Post<&R, T>,
    tasks: &[Task],
    turn: Turn,
)
    requires caller { post.old.caller.cache ≡ setting.now.cache.now }
    requires empty { post.old.answers.items ≡ [] }
    requires room { length tasks.now ≤ turn.workers * vec_capacity post.old.answers }
    requires given { All (MayBeGiven T.W.files setting.now.cache.now.files.board.files) tasks.now }
    requires files { AreFiles T.W.files setting.now.cache.now.files.board.files }
    requires turn { (turn.worker < turn.workers) × (turn.workers ≤ max_workers) }
    requires few { turn.first + length tasks.now ≤ max_requests }
    ensures each { AnswersEach T.W.files (terms_of setting.now.cache.now.gate)
        (share_of turn.workers turn.worker tasks.now) post.new.answers.items
        (sight T.state post.old.caller) (sight T.state post.new.caller) }
    ensures caller { post.new.caller.cache ≡ setting.now.cache.now }
{
    let mut k = turn.worker;
    'share: while k < tasks.len() {
        let (number, index) = (turn.worker as u32, (turn.first + k) as u32);
        let answer = answer_hooked(setting, &mut post.caller, &tasks[k], number, index);
        if let Err(_refused) = post.answers.push(answer) {
            unreachable!()
        }
        k += turn.workers;
    }
}

/// Answers one request, and calls the hook before and after, except for `sync`.
fn answer_hooked<R: Wait, T: Tap, K: Hook>(
    setting: &Setting<'_, R, T, K>,
    caller: &mut Caller<Forever<&R>, T>,
    task: &Task,
    number: u32,
    index: u32,
) -> Answer
    requires given { MayBeGiven T.W.files caller.old.cache.files.board.files task.now }
    requires files { AreFiles T.W.files caller.old.cache.files.board.files }
    ensures { WorkerAnswers T.state T.W.files task.now caller.old caller.new result }
{
    if let Task::Sync = task {
        return Answer::Synced;
    }
    setting.hook.before(setting.rt, number, index);
    let answer = answer(caller, setting.alloc, task);
    setting.hook.after(setting.rt, number, index);
    answer
}

/// Writes the lines of a round, and counts the refusals. The workers took its requests in turn.
pub(crate) fn write_round<R: Wait, T: Tap, O: Sink>(
    page: &mut Page,
    posts: &[Post<R, T>],
    count: usize,
    out: &mut O,
) -> Result<usize, Failed>
    requires some { 0 < length posts.now }
    requires there { AreInTurn (length posts.now) count (answers_of posts.now) }
    ensures passed { PassesOn
        (answers_text (in_turn (length posts.now) 0 count (answers_of posts.now)))
        (outgoing O.Sink page.old out.old) (outgoing O.Sink page.new out.new) result }
    ensures refusal { IfOk result (λ refused. refused ≡ count_by is_refusal
        (in_turn (length posts.now) 0 count (answers_of posts.now))) }
    ensures few { IfOk result (λ refused. refused ≤ count) }
{
    let workers = posts.len();
    let mut refused = 0;
    for i in 0..count {
        let answer = &posts[i % workers].answers[i / workers];
        if let Err(failed) = page.pass(out, answer) {
            return Err(failed);
        }
        refused += usize::from(answer.is_refusal());
    }
    Ok(refused)
}
