//! The closing lines of a run.

ghost use Rattle.std.specs.Prelude.{◌≡◌, ◌≤◌, [], length, OnOk};
ghost use Rattle.std.specs.List.{All};
ghost use Rattle.request_lang.specs.Closing.{closing_lines, worker_lines};
ghost use Rattle.render_run.specs.Crew.{max_workers};
ghost use Rattle.answer_page.specs.Page.{outgoing, PassesOn};
ghost use Rattle.render_run.specs.Posts.{all_counts};

use crate::round::Post;
use answer_page::Page;
use request_lang::Counts;
use std::sync::Wait;
use tex_world::{Failed, Sink, Tap};

/// Writes the closing lines, and then all that is still on the page. For each worker: the numbers
/// of needs, hits and uncached needs. Then the numbers of lines and of refusals.
pub(crate) fn close<R: Wait, T: Tap, O: Sink>(
    page: &mut Page,
    posts: &[Post<R, T>],
    total: usize,
    refused: usize,
    out: &mut O,
) -> Result<(), Failed>
    requires { length posts.now ≤ max_workers }
    ensures passed { PassesOn (closing_lines (all_counts posts.now) total refused)
        (outgoing O.Sink page.old out.old) (outgoing O.Sink page.new out.new) result }
    ensures empty { OnOk result (page.new ≡ []) }
    ensures few { All (λ p. p.caller.pass.hits ≤ p.caller.pass.needs) posts.now }
{
    know_counts(posts);
    if let Err(failed) = pass_workers(page, posts, out) {
        return Err(failed);
    }
    if let Err(failed) = page.pass_total(out, total as u64, refused as u64) {
        return Err(failed);
    }
    page.put(out)
}

/// Does nothing; its contract gives the proof what is true of each worker's counts.
fn know_counts<R: Wait, T: Tap>(posts: &[Post<R, T>])
    ensures { All (λ p. p.caller.pass.hits ≤ p.caller.pass.needs) posts.now }
{
    for post in posts {
        let _ = post.caller.pass().hits();
    }
}

/// Writes the lines of the workers.
fn pass_workers<R: Wait, T: Tap, O: Sink>(
    page: &mut Page,
    posts: &[Post<R, T>],
    out: &mut O,
) -> Result<(), Failed>
    requires { length posts.now ≤ max_workers }
    ensures { PassesOn (worker_lines 0 (all_counts posts.now))
        (outgoing O.Sink page.old out.old) (outgoing O.Sink page.new out.new) result }
{
    for w in 0..posts.len() {
        let pass = posts[w].caller.pass();
        let counts = Counts {
            needs: pass.needs(),
            hits: pass.hits(),
            apart: pass.apart(),
        };
        if let Err(failed) = page.pass_worker(out, w as u32, counts) {
            return Err(failed);
        }
    }
    Ok(())
}
