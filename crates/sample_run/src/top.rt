//! The top call `sample`, and its exit statuses.

ghost use Rattle.std.specs.Prelude.{◌≡◌, ◌≤◌, map, length, string_bytes, Some, IfOk};
ghost use Rattle.request_lang.specs.Grammar.{max_list_bytes};
ghost use Rattle.answer_page.specs.Page.{sink_state};
ghost use Rattle.sample_run.specs.Size.{IsInRange, run_words};
ghost use Rattle.sample_run.specs.MadeList as spec_list;
ghost use Rattle.render_run.specs.Status.{with_refusals};
ghost use Rattle.sample_run.specs.Sample as spec;

use crate::list_feed::ListFeed;
use crate::made_list::made_list;
use crate::size::{Size, size_in};
use crate::summary::summary;
use render_run::{BAD_LIST, BAD_WORDS, NO_MEMORY, NOT_WRITTEN, NoHook, WITH_REFUSALS, run};
use request_lang::MAX_LIST_BYTES;
use sample_folder::SampleFolder;
use std::alloc::{AllocError, Global};
use std::sync::Wait;
use std::thread::Threads;
use tex_world::{MemSink, NoMemory, Sink};

/// What a run over the sample files wrote, and its status.
#[derive(Drop)]
pub(crate) struct Outcome {
    written: MemSink,
    status: u8,
}

/// Writes a text and returns `status`, or the status of an output that failed.
fn put_status<O: Sink>(out: &mut O, text: &[u8], status: u8) -> u8
    ensures { spec.Puts text.now status (sink_state O.faults O.holds out.old)
        (sink_state O.faults O.holds out.new) result }
{
    match out.put(text) {
        Ok(()) => status,
        Err(_failed) => NOT_WRITTEN,
    }
}

/// The arguments of the run: its folder, and the number of workers.
fn run_words(alloc: Global, workers: u32) -> Result<Vec<String>, AllocError>
    ensures { IfOk result (λ words. map string_bytes words.items ≡ run_words workers) }
{
    let folder = String::from_str(alloc, ".")?;
    let option = String::from_str(alloc, "--workers")?;
    let workers = format!(in alloc; "{workers}")?;
    Ok(vec![in alloc; folder, option, workers]?)
}

/// Runs a list over the sample files. If memory never ran out for the output, the outcome is that
/// of such a run.
fn run_outcome<R: Threads + Wait + Sync>(
    rt: &R,
    alloc: Global,
    words: &[String],
    size: Size,
    list: Vec<u8>,
) -> Outcome
    requires size { IsInRange size }
    requires words { map string_bytes words.now ≡ run_words size.workers }
    requires made { list.items ≡ spec_list.made_list size.requests }
    requires short { length list.items ≤ max_list_bytes }
    ensures { result.written.planned.faults ≡ 0
        → spec.RunsSample size result.written.holds result.status }
{
    let mut folder = SampleFolder::new();
    let mut feed = ListFeed::new(list);
    let mut written = MemSink::new(alloc, None);
    let status = run(
        rt,
        alloc,
        words,
        &mut folder,
        &mut feed,
        &mut written,
        &NoHook,
    );
    Outcome { written, status }
}

/// Answers a list over the sample files.
fn answered<R: Threads + Wait + Sync>(
    rt: &R,
    alloc: Global,
    size: Size,
    list: Vec<u8>,
) -> Result<Outcome, NoMemory>
    requires size { IsInRange size }
    requires made { list.items ≡ spec_list.made_list size.requests }
    requires short { length list.items ≤ max_list_bytes }
    ensures run { IfOk result (λ a. spec.RunsSample size a.written.holds a.status) }
    ensures status { IfOk result (λ a. a.status ≤ with_refusals) }
{
    let words = run_words(alloc, size.workers)?;
    let outcome = run_outcome(rt, alloc, &words, size, list);
    // memory ran out for the output of the run
    if outcome.written.faults() > 0 {
        return Err(NoMemory);
    }
    match outcome.status {
        0..=WITH_REFUSALS => Ok(outcome),
        NO_MEMORY => Err(NoMemory),
        _ => unreachable!(),
    }
}

/// Makes as many requests as the arguments say, answers them from the sample files with as many
/// workers as they say, and prints the number of lines and bytes of the answers and the sum of the
/// bytes. The status is that of the run if all this was printed. It is 2 for wrong arguments, 3 if
/// the list has too many bytes, 5 if the output failed, and 6 if memory ran out.
pub fn sample<R: Threads + Wait + Sync, O: Sink>(
    rt: &R,
    alloc: Global,
    words: &[String],
    out: &mut O,
) -> u8
    ensures samples { spec.Samples (map string_bytes words.now)
        (sink_state O.faults O.holds out.old) (sink_state O.faults O.holds out.new) result }
{
    let Some(size) = size_in(words) else {
        return put_status(out, b"bad words\n", BAD_WORDS);
    };
    let Ok(list) = made_list(alloc, size.requests) else {
        return NO_MEMORY;
    };
    if list.len() > MAX_LIST_BYTES {
        return BAD_LIST;
    }
    let Ok(outcome) = answered(rt, alloc, size, list) else {
        return NO_MEMORY;
    };
    let Ok(line) = summary(alloc, outcome.written.bytes()) else {
        return NO_MEMORY;
    };
    put_status(out, line.as_str().as_bytes(), outcome.status)
}
