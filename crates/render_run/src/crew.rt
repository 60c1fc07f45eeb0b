//! The workers of a run, each with its own caller of the cache. Between rounds they exchange what
//! they have seen.

ghost use Rattle.std.specs.Prelude.{◌≡◌, ◌<◌, [], length};
ghost use Rattle.std.specs.Prelude.{IfOk, OnOk, OnErr};
ghost use Rattle.std.specs.Arc.{arc_value};
ghost use Rattle.tex_world.specs.Folder.{AfterBack};
ghost use Rattle.std.specs.List.{All};
ghost use Rattle.tile_source.specs.Pass.{IsPassOf};
ghost use Rattle.image_cache.specs.Pass.{IsFresh};
ghost use Rattle.caller.specs.Caller.{KeepsAllButPass};
ghost use Rattle.render_run.specs.Around.{source_of_crew};
ghost use Rattle.render_run.specs.Answering.{SeesNoLess};
ghost use Rattle.render_run.specs.Crew.{IsNewPost, SeeNoLess, SeesOn, SightsOn, AreCarried};
ghost use Rattle.render_run.specs.Crew.{GivesOn, MakesMore, TakesBack};
ghost use Rattle.render_run.specs.Posts.{AddsPost, AreCallersOf, AreNew, HasPermitsAlone, sight};
ghost use Rattle.render_run.specs.Posts.{sights_of};
ghost use Rattle.render_run.specs.Written.{LeavesTaps};

use crate::round::Post;
use caller::{Caller, again};
use image_cache::{Cache, Pass};
use std::alloc::Global;
use std::sync::{Arc, Wait};
use tex_world::{Folder, NoMemory, Tap};
use waiter::Forever;

/// Lets all workers exchange what they have seen. `cache` is read by clauses alone.
pub(crate) fn carry_all<R: Wait, T: Tap>(
    cache: &Cache<T>,
    posts: &mut [Post<R, T>],
) -> Result<(), NoMemory>
    requires callers { AreCallersOf cache.now posts.old }
    ensures ok { OnOk result (AreCarried (sights_of T.state posts.old)
        (sights_of T.state posts.new)) }
    ensures kept { SeeNoLess (sights_of T.state posts.old) (sights_of T.state posts.new) }
    ensures callers { AreCallersOf cache.now posts.new }
{
    let Some((first, others)) = posts.split_first_mut() else {
        return Ok(());
    };
    gather(&mut first.caller, others)?;
    spread(&mut first.caller, others)
}

/// Merges what other workers have seen into one.
fn gather<R: Wait, T: Tap>(
    first: &mut Caller<Forever<R>, T>,
    others: &mut [Post<R, T>],
) -> Result<(), NoMemory>
    requires { AreCallersOf first.old.cache others.old }
    ensures ok { OnOk result (All (λ s. SeesNoLess s.seen first.new.pass.view.seen)
        (sights_of T.state others.old)) }
    ensures kept { SeesOn first.old.pass first.new.pass }
    ensures rest { KeepsAllButPass first.old first.new }
    ensures same { sights_of T.state others.new ≡ sights_of T.state others.old }
    ensures callers { AreCallersOf first.old.cache others.new }
{
    for post in others.iter_mut() {
        carry_from(post, first)?;
    }
    Ok(())
}

/// Merges what one worker has seen into another.
fn carry_from<R: Wait, T: Tap>(
    post: &mut Post<R, T>,
    to: &mut Caller<Forever<R>, T>,
) -> Result<(), NoMemory>
    requires { post.old.caller.cache ≡ to.old.cache }
    ensures ok { OnOk result
        (SeesNoLess post.old.caller.pass.view.seen to.new.pass.view.seen) }
    ensures kept { SeesOn to.old.pass to.new.pass }
    ensures rest { KeepsAllButPass to.old to.new }
    ensures same { sight T.state post.new.caller ≡ sight T.state post.old.caller }
    ensures of { post.new.caller.cache ≡ to.old.cache }
{
    post.caller.carry(to)
}

/// Merges what a worker has seen into others.
fn spread<R: Wait, T: Tap>(
    first: &mut Caller<Forever<R>, T>,
    others: &mut [Post<R, T>],
) -> Result<(), NoMemory>
    requires { AreCallersOf first.old.cache others.old }
    ensures ok { OnOk result (All (λ s. SeesNoLess first.old.pass.view.seen s.seen)
        (sights_of T.state others.new)) }
    ensures gives { GivesOn first.old.pass first.new.pass }
    ensures rest { KeepsAllButPass first.old first.new }
    ensures kept { SeeNoLess (sights_of T.state others.old) (sights_of T.state others.new) }
    ensures callers { AreCallersOf first.old.cache others.new }
{
    for post in others.iter_mut() {
        carry_to(first, post)?;
    }
    Ok(())
}

/// Merges what a worker has seen into one other.
fn carry_to<R: Wait, T: Tap>(
    from: &mut Caller<Forever<R>, T>,
    post: &mut Post<R, T>,
) -> Result<(), NoMemory>
    requires { post.old.caller.cache ≡ from.old.cache }
    ensures ok { OnOk result
        (SeesNoLess from.old.pass.view.seen post.new.caller.pass.view.seen) }
    ensures gives { GivesOn from.old.pass from.new.pass }
    ensures rest { KeepsAllButPass from.old from.new }
    ensures kept { SightsOn (sight T.state post.old.caller) (sight T.state post.new.caller) }
    ensures of { post.new.caller.cache ≡ from.old.cache }
{
    from.carry(&mut post.caller)
}

/// Makes the workers. The first gets this pass, the others split passes off it, and each gets its
/// own tap. If memory runs out, the taps made so far are given back.
pub(crate) fn crew_of<R: Wait + Copy, F: Folder>(
    rt: R,
    alloc: Global,
    cache: &Arc<Cache<F::Tap>>,
    pass: Pass<F::W>,
    folder: &mut F,
    workers: usize,
) -> Result<Vec<Post<R, F::Tap>>, NoMemory>
where
    F::Tap: Drop,
    requires pass { IsPassOf (arc_value cache.now) pass }
    requires fresh { IsFresh pass }
    requires some { 0 < workers }
    ensures count { IfOk result (λ posts. length posts.items ≡ workers) }
    ensures new { IfOk result (λ posts. AreNew F.Tap.state (arc_value cache.now) posts.items) }
    ensures alone { IfOk result (λ posts. HasPermitsAlone workers pass posts.items) }
    ensures made { OnOk result (MakesMore workers (F.state folder.old) (F.state folder.new)) }
    ensures back { OnErr result (LeavesTaps (F.state folder.old) (F.state folder.new)) }
{
    let mut posts = Vec::new(alloc);
    match fill_crew(rt, cache, pass, folder, &mut posts, workers) {
        Ok(()) => Ok(posts),
        Err(NoMemory) => {
            give_back(folder, posts);
            Err(NoMemory)
        }
    }
}

/// Adds the workers to an empty list. If memory runs out, some have been added.
fn fill_crew<R: Wait + Copy, F: Folder>(
    rt: R,
    cache: &Arc<Cache<F::Tap>>,
    pass: Pass<F::W>,
    folder: &mut F,
    posts: &mut Vec<Post<R, F::Tap>>,
    workers: usize,
) -> Result<(), NoMemory>
    requires pass { IsPassOf (arc_value cache.now) pass }
    requires fresh { IsFresh pass }
    requires empty { posts.old.items ≡ [] }
    requires some { 0 < workers }
    ensures count { OnOk result (length posts.new.items ≡ workers) }
    ensures new { AreNew F.Tap.state (arc_value cache.now) posts.new.items }
    ensures alone { HasPermitsAlone workers pass posts.new.items }
    ensures made { MakesMore (length posts.new.items) (F.state folder.old) (F.state folder.new) }
{
    add(rt, folder, posts, again(cache)?, pass)?;
    'posts: while posts.len() < workers {
        let made = split_off(&mut posts[0])?;
        add(rt, folder, posts, made.0, made.1)?;
    }
    Ok(())
}

/// Splits a pass off that of a worker.
fn split_off<R: Wait, T: Tap>(
    post: &mut Post<R, T>,
) -> Result<(Arc<Cache<T>>, Pass<T::W>), NoMemory>
    requires { IsNewPost post.old.caller.pass (T.state post.old.caller.tap) }
    ensures cache { IfOk result (λ made. arc_value made.0 ≡ post.old.caller.cache) }
    ensures of { IfOk result (λ made. IsPassOf post.old.caller.cache made.1) }
    ensures fresh { IfOk result (λ made. IsFresh made.1) }
    ensures new { IsNewPost post.new.caller.pass (T.state post.new.caller.tap) }
    ensures same { post.new.caller.cache ≡ post.old.caller.cache }
{
    match post.caller.split_pass() {
        Ok(made) => Ok(made),
        Err(_) => Err(NoMemory),
    }
}

/// Adds one worker with this cache and pass.
fn add<R: Wait + Copy, F: Folder>(
    rt: R,
    folder: &mut F,
    posts: &mut Vec<Post<R, F::Tap>>,
    cache: Arc<Cache<F::Tap>>,
    pass: Pass<F::W>,
) -> Result<(), NoMemory>
    requires { IsPassOf (arc_value cache) pass }
    ensures ok { OnOk result (AddsPost F.Tap.state (arc_value cache) pass
        posts.old.items posts.new.items) }
    ensures err { OnErr result (posts.new.items ≡ posts.old.items) }
    ensures made { OnOk result (MakesMore 1 (F.state folder.old) (F.state folder.new)) }
    ensures none { OnErr result (MakesMore 0 (F.state folder.old) (F.state folder.new)) }
{
    let alloc = *posts.allocator();
    let Ok(()) = posts.reserve(1) else {
        return Err(NoMemory);
    };
    let tap = folder.tap(alloc)?;
    let caller = Caller::of(cache, pass, Forever::new(rt), tap);
    let answers = Vec::new(alloc);
    if let Err(_refused) = posts.push(Post { caller, answers }) {
        unreachable!()
    }
    Ok(())
}

/// Gives back the taps of all workers.
pub(crate) fn give_back<R: Wait + Drop, F: Folder>(folder: &mut F, mut posts: Vec<Post<R, F::Tap>>)
where
    F::Tap: Drop,
    ensures { TakesBack (length posts.items)
        (source_of_crew (sights_of F.Tap.state posts.items))
        (F.state folder.old) (F.state folder.new) }
{
    'posts: while let Some(post) = posts.pop() {
        give_one(folder, post);
    }
}

/// Gives back the tap of one worker.
fn give_one<R: Wait + Drop, F: Folder>(folder: &mut F, post: Post<R, F::Tap>)
    ensures { AfterBack (F.Tap.state post.caller.tap) (F.state folder.old) (F.state folder.new) }
{
    let Post { caller, answers: _ } = post;
    folder.back(caller.into_tap());
}
