//! What a request asks of its worker.

ghost use Rattle.std.specs.Prelude.{◌≡◌, IsSome, IfSome, IsTrue};
ghost use Rattle.udim.specs.Udim.{udim_of};
ghost use Rattle.texture_sys.specs.Asked.{MayBeLookedUp, s_asked, t_asked};
ghost use Rattle.render_run.specs.Question as spec;
ghost use Rattle.render_run.specs.Answering.{MayBeGiven, IsKnown};

use request_lang::{Name, Request};
use std::alloc::Global;
use tex_world::{Folder, NoMemory};
use texel_values::{Region, TexelAt};
use texture_sys::LookupRequest;
use udim::{Udim, udim};

/// What is asked about a file.
#[derive(Clone, Copy, Debug)]
pub(crate) enum Question {
    /// Its size and its levels.
    Facts,
    /// The values of a region.
    Values(Region),
    /// The values of a lookup.
    Lookup(LookupRequest),
    /// The cell of a texel, to be held.
    Hold(TexelAt),
    /// Its newest generation, with force or without.
    Renewal(bool),
}

/// What a worker is given for a request.
#[derive(Clone, Copy, Debug)]
pub(crate) enum Task {
    /// A question about the file with the request's name. `None` if the folder does not have it.
    Ask(Option<u32>, Question),
    /// A question about a UDIM tile's file, whose number is part of its name.
    Tile(Option<u32>, Question),
    /// Memory ran out for the name of a UDIM tile. Nothing is asked.
    Unnamed,
    /// The oldest hold is released.
    Release,
    /// Every known file is checked for a newer generation.
    RenewAll,
    /// The counts of each shard.
    Count,
    /// The round ends. Nothing is asked.
    Sync,
}

impl Task {
    /// What a worker is given for a request.
    pub(crate) fn of<F: Folder>(alloc: Global, folder: &F, request: &Request) -> Task
        requires entered { IsSome (F.state folder.now).entered }
        requires asked { spec.MayAsk request.now }
        ensures value { spec.IsGivenOf (F.state folder.now).number_of request.now result }
        ensures given { MayBeGiven F.W.files (F.state folder.now).size result }
    {
        match request {
            Request::Tex { request, name } => {
                look(alloc, folder, name, &LookupRequest::Point(*request))
            }
            Request::Texd { request, name } => {
                look(alloc, folder, name, &LookupRequest::Footprint(*request))
            }
            Request::Pixels {
                level,
                x,
                y,
                w,
                h,
                name,
            } => {
                let (level, x, y, w, h) = (*level, *x, *y, *w, *h);
                ask(folder, name, Question::Values(Region { level, x, y, w, h }))
            }
            Request::Info { name } => ask(folder, name, Question::Facts),
            Request::Hold { level, x, y, name } => {
                let (level, x, y) = (*level, *x, *y);
                ask(folder, name, Question::Hold(TexelAt { level, x, y }))
            }
            Request::Invalidate { name } => ask(folder, name, Question::Renewal(false)),
            Request::Renew { name } => ask(folder, name, Question::Renewal(true)),
            Request::Drop => Task::Release,
            Request::InvalidateAll => Task::RenewAll,
            Request::Stat => Task::Count,
            Request::Sync => Task::Sync,
        }
    }
}

/// A name without a UDIM mark, and the number of its file.
#[derive(Clone, Copy)]
pub(crate) struct KnownName<'a> {
    pub(crate) name: &'a str,
    pub(crate) file: u32,
}

impl<'a> KnownName<'a> {
    /// The name of a lookup that was given to a worker, if its own file is asked.
    fn of<F: Folder>(_folder: &F, request: &'a Request, task: &Task) -> Option<KnownName<'a>>
        requires value { spec.IsGivenOf (F.state _folder.now).number_of request.now task.now }
        requires given { MayBeGiven F.W.files (F.state _folder.now).size task.now }
        ensures { IfSome result (λ k. IsKnown F.W.files (F.state _folder.now) k.name.now k.file) }
    {
        let Some(file) = own_file(task) else {
            return None;
        };
        match request {
            Request::Tex { name, .. } => Some(KnownName::named(name, file)),
            Request::Texd { name, .. } => Some(KnownName::named(name, file)),
            _ => None,
        }
    }

    /// A name and the number of its file.
    fn named(name: &'a Name, file: u32) -> KnownName<'a>
        ensures name { result.name.now ≡ name.now }
        ensures file { result.file ≡ file }
    {
        let name = name.as_str();
        KnownName { name, file }
    }

    /// What a worker is given for a request, if that is a lookup in the file of this name.
    #[inline(always)]
    fn task<F: Folder>(self, _folder: &F, request: &Request) -> Option<Task>
        requires known { IsKnown F.W.files (F.state _folder.now) self.name.now self.file }
        requires asked { spec.MayAsk request.now }
        ensures value { IfSome result
            (spec.IsGivenOf (F.state _folder.now).number_of request.now) }
        ensures given { IfSome result (MayBeGiven F.W.files (F.state _folder.now).size) }
    {
        match request {
            Request::Tex { request, name } if self.is_of(name) => {
                Some(self.look(LookupRequest::Point(*request)))
            }
            Request::Texd { request, name } if self.is_of(name) => {
                Some(self.look(LookupRequest::Footprint(*request)))
            }
            _ => None,
        }
    }

    /// Whether this is the same name.
    #[inline(always)]
    fn is_of(self, name: &Name) -> bool
        ensures { IsTrue result → name.now ≡ self.entry.name.now }
    {
        name.as_str() == self.name
    }

    /// A lookup in this file.
    #[inline(always)]
    fn look(self, request: LookupRequest) -> Task
        ensures { result ≡ Task.Ask (Some self.entry.file) (Question.Lookup request) }
    {
        Task::Ask(Some(self.file), Question::Lookup(request))
    }
}

/// The file that is asked, if it has the request's own name.
fn own_file(task: &Task) -> Option<u32>
    ensures { result ≡ spec.own_file_in task.now }
{
    match task {
        Task::Ask(file, _) => *file,
        _ => None,
    }
}

/// What a worker is given for a request, and the name known after it. A name equal to the previous
/// lookup's is not looked up again.
#[inline(always)]
pub(crate) fn next_task<'a, F: Folder>(
    alloc: Global,
    folder: &F,
    request: &'a Request,
    known: &mut Option<KnownName<'a>>,
) -> Task
    requires entered { IsSome (F.state folder.now).entered }
    requires asked { spec.MayAsk request.now }
    requires known { IfSome known.old
        (λ k. IsKnown F.W.files (F.state folder.now) k.name.now k.file) }
    ensures value { spec.IsGivenOf (F.state folder.now).number_of request.now result }
    ensures given { MayBeGiven F.W.files (F.state folder.now).size result }
    ensures known { IfSome known.new
        (λ k. IsKnown F.W.files (F.state folder.now) k.name.now k.file) }
{
    if let Some(before) = *known {
        if let Some(task) = before.task(folder, request) {
            return task;
        }
    }
    let task = Task::of(alloc, folder, request);
    if let Some(found) = KnownName::of(folder, request, &task) {
        *known = Some(found);
    }
    task
}

/// A lookup in the file that a name means, possibly that of a UDIM tile.
fn look<F: Folder>(alloc: Global, folder: &F, name: &Name, request: &LookupRequest) -> Task
    requires entered { IsSome (F.state folder.now).entered }
    requires asked { MayBeLookedUp request.now }
    ensures value { spec.IsLookupOf (F.state folder.now).number_of request.now name.now
        (udim_of name.now (s_asked request.now) (t_asked request.now)) result }
    ensures given { MayBeGiven F.W.files (F.state folder.now).size result }
{
    let (s, t) = request.place();
    match udim(alloc, name.as_str(), s, t) {
        Ok(Udim::Plain) => ask(folder, name, Question::Lookup(*request)),
        Ok(Udim::Outside) => Task::Ask(None, Question::Lookup(*request)),
        Ok(Udim::Tile { name, s, t }) => in_tile(folder, &name, &request.moved_to(s, t)),
        Err(NoMemory) => Task::Unnamed,
    }
}

/// A lookup in the file of a UDIM tile.
fn in_tile<F: Folder>(folder: &F, name: &Name, request: &LookupRequest) -> Task
    requires entered { IsSome (F.state folder.now).entered }
    requires asked { MayBeLookedUp request.now }
    ensures value { result
        ≡ Task.Tile ((F.state folder.now).number_of name.now) (Question.Lookup request.now) }
    ensures given { MayBeGiven F.W.files (F.state folder.now).size result }
{
    Task::Tile(folder.find(name.as_str()), Question::Lookup(*request))
}

/// A question about the file of a name.
fn ask<F: Folder>(folder: &F, name: &Name, question: Question) -> Task
    requires entered { IsSome (F.state folder.now).entered }
    requires asked { spec.MayBeAsked question }
    ensures value { result ≡ Task.Ask ((F.state folder.now).number_of name.now) question }
    ensures given { MayBeGiven F.W.files (F.state folder.now).size result }
{
    Task::Ask(folder.find(name.as_str()), question)
}
