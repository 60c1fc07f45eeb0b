//! The steps before the first answer: arguments, folder and list.

ghost use Rattle.std.specs.Prelude.{◌≡◌, ◌≤◌, length, IfOk, IfErr, OnOk, Ok};
ghost use Rattle.request_lang.specs.Grammar.{max_requests};
ghost use Rattle.std.specs.List.{All};
ghost use Rattle.render_run.specs.Question.{MayAsk};
ghost use Rattle.render_run.specs.Around.{feed_state, inputs_of};
ghost use Rattle.render_run.specs.ListRead.{FeedSays};
ghost use Rattle.command_line.specs.RunOptions.{IsInRange};
ghost use Rattle.render_run.specs.RunError.{asked_by, path_in, HasOptions, WordsCause};
ghost use Rattle.render_run.specs.RunError.{IsEntered, EnterEnds, ListEnds};
ghost use Rattle.render_run.specs.RunError.{IsPrepared, IsEnded, HasNoMark, MarksAs};
ghost use Rattle.render_run.specs.Written.{KeepsTaps};

use crate::list::{ListError, read_list};
use command_line::{Invocation, RunOptions, WordsError, invocation_of};
use request_lang::{BadList, ParseError, Request, parse};
use std::alloc::Global;
use tex_world::{EnterError, Feed, Folder};

/// Why no list is answered.
#[derive(Clone, Copy, Debug, PartialEq, Eq)]
pub(crate) enum RunError {
    /// The arguments are not those of the command.
    BadWords,
    /// The folder failed.
    FolderFault,
    /// The folder has too many files.
    TooManyFiles,
    /// The feed failed.
    ListFault,
    /// The bytes of the feed are not a valid list.
    NotAList(BadList),
    /// Out of memory.
    NoMemory,
}

/// What to answer: the requests of a list, under the options in the arguments.
#[derive(Drop)]
pub(crate) struct Prepared {
    pub(crate) options: RunOptions,
    pub(crate) requests: Vec<Request>,
}

/// What the arguments ask for.
fn invocation<'a>(alloc: Global, words: &'a [String]) -> Result<Invocation<'a>, WordsError>
    ensures ok { IfOk result (λ i. path_in (asked_by words.entry.now) ≡ Some i.folder.now) }
    ensures options { IfOk result (λ i. HasOptions (asked_by words.entry.now) i.options) }
    ensures in_range { IfOk result (λ i. IsInRange i.options) }
    ensures cause { IfErr result (WordsCause (path_in (asked_by words.entry.now))) }
{
    let invocation = invocation_of(alloc, words)?;
    Ok(invocation)
}

/// Enters the folder that the arguments name, and returns their options.
fn enter_folder<F: Folder>(
    alloc: Global,
    words: &[String],
    folder: &mut F,
) -> Result<RunOptions, RunError>
    ensures entered { OnOk result
        (IsEntered (path_in (asked_by words.now)) (F.state folder.new)) }
    ensures options { IfOk result (HasOptions (asked_by words.now)) }
    ensures in_range { IfOk result IsInRange }
    ensures cause { IfErr result (EnterEnds F.W.files (path_in (asked_by words.now))
        (F.state folder.old) (F.state folder.new)) }
    ensures no_mark { OnOk result (HasNoMark (F.state folder.new)) }
    ensures mark { IfErr result (MarksAs (F.state folder.old) (F.state folder.new)) }
    ensures taps { KeepsTaps (F.state folder.old) (F.state folder.new) }
{
    let asked = match invocation(alloc, words) {
        Ok(asked) => asked,
        Err(WordsError::Bad) => return Err(RunError::BadWords),
        Err(WordsError::NoMemory) => return Err(RunError::NoMemory),
    };
    match folder.enter(alloc, asked.folder) {
        Ok(()) => Ok(asked.options),
        Err(EnterError::Failed) => Err(RunError::FolderFault),
        Err(EnterError::TooMany) => Err(RunError::TooManyFiles),
        Err(EnterError::NoMemory) => Err(RunError::NoMemory),
    }
}

/// Reads and checks the requests of the list.
fn read_requests<I: Feed>(alloc: Global, feed: &mut I) -> Result<Vec<Request>, RunError>
    ensures asked { IfOk result (λ requests. All MayAsk requests.items) }
    ensures few { IfOk result (λ requests. length requests.items ≤ max_requests) }
    ensures listed { IfOk result (λ requests. FeedSays (Ok requests.items)
        (feed_state I.faults I.left feed.old) (feed_state I.faults I.left feed.new)) }
    ensures cause { IfErr result (ListEnds
        (feed_state I.faults I.left feed.old) (feed_state I.faults I.left feed.new)) }
{
    let bytes = match read_list(alloc, feed) {
        Ok(bytes) => bytes,
        Err(ListError::Failed) => return Err(RunError::ListFault),
        Err(ListError::NoMemory) => return Err(RunError::NoMemory),
    };
    match parse(alloc, &bytes) {
        Ok(requests) => Ok(requests),
        Err(ParseError::Bad { line, why }) => Err(RunError::NotAList(BadList { line, why })),
        Err(ParseError::NoMemory) => Err(RunError::NoMemory),
    }
}

/// Enters the folder, reads the list, and returns its requests and the options.
pub(crate) fn prepare<F: Folder, I: Feed>(
    alloc: Global,
    words: &[String],
    folder: &mut F,
    feed: &mut I,
) -> Result<Prepared, RunError>
    ensures prepared { IfOk result (λ p. IsPrepared (path_in (asked_by words.now))
        (inputs_of (F.state folder.old) (feed_state I.faults I.left feed.old))
        (inputs_of (F.state folder.new) (feed_state I.faults I.left feed.new)) p.requests.items) }
    ensures options { IfOk result (λ p. HasOptions (asked_by words.now) p.options) }
    ensures in_range { IfOk result (λ p. IsInRange p.options) }
    ensures asked { IfOk result (λ p. All MayAsk p.requests.items) }
    ensures few { IfOk result (λ p. length p.requests.items ≤ max_requests) }
    ensures ended { IfErr result (IsEnded F.W.files (path_in (asked_by words.now))
        (inputs_of (F.state folder.old) (feed_state I.faults I.left feed.old))
        (inputs_of (F.state folder.new) (feed_state I.faults I.left feed.new))) }
    ensures taps { KeepsTaps (F.state folder.old) (F.state folder.new) }
{
    let options = enter_folder(alloc, words, folder)?;
    let requests = read_requests(alloc, feed)?;
    Ok(Prepared { options, requests })
}
