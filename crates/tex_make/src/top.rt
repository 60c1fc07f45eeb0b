//! The top call `make`.

ghost use Rattle.std.specs.Prelude.{◌≡◌, ◌≤◌, ◌↔◌, IsTrue, IfOk, Err};
ghost use Rattle.tex_world.specs.World.{IsFile};
ghost use Rattle.tex_make.specs.declared.ending.MakeError.TheVariants.{NoSuchFile, TooMany};
ghost use Rattle.tex_make.specs.Asked.{shown_asked};
ghost use Rattle.tex_make.specs.FileRead.{ReadsFile, LeavesTap, MovesOnlyGone, FaultsOnlyFailed};
ghost use Rattle.tex_make.specs.Make.{ReadsPicture, LacksFile, LeavesFolder, EndsAs, Completes};
ghost use Rattle.tex_make.specs.Make.{asked_by, around_of, ReadsOf};
ghost use Rattle.tex_world.specs.Folder.{KeepsFiles};
ghost use Rattle.tex_make.specs.Picture.{samples_of, max_samples};
ghost use Rattle.tex_make.specs.Pyramid.{seen};
ghost use Rattle.tex_make.specs.Sink.{sink_state};

use crate::asked::Asked;
use crate::ending::{BAD_WORDS, MakeError};
use crate::picture::Pyramid;
use crate::reading::{PictureError, read_picture};
use crate::words::asked_in;
use crate::writing::put_picture;
use std::alloc::Global;
use tap_reader::TapReader;
use tex_world::{EnterError, Folder, NoMemory, OpenError, ReadError, Sink, Tap};

/// Reads the image of a file through a tap.
fn read_file<T: Tap>(alloc: Global, tap: &mut T, file: u32) -> Result<Pyramid, MakeError>
    requires { IsFile T.W.files file }
    ensures reads { ReadsFile T.W.files file (T.state tap.old) (T.state tap.new) result }
    ensures small { IfOk result (λ picture. samples_of (seen picture) ≤ max_samples) }
    ensures faultless { FaultsOnlyFailed (T.state tap.old) (T.state tap.new) result }
    ensures moves { MovesOnlyGone (T.state tap.old).moves (T.state tap.new).moves result }
    ensures later { LeavesTap (T.state tap.old) (T.state tap.new) }
{
    let mut handle = match tap.open(alloc, file, 0) {
        Ok(handle) => handle,
        Err(OpenError::Failed) => return Err(MakeError::Failed),
        Err(OpenError::NoMemory) => return Err(MakeError::NoMemory),
    };
    let mut reader = TapReader {
        tap,
        handle: &mut handle,
    };
    match read_picture(alloc, &mut reader) {
        Ok(picture) => Ok(picture),
        Err(PictureError::Fault) => Err(MakeError::BadFile),
        Err(PictureError::TooLarge) => Err(MakeError::TooLarge),
        Err(PictureError::Reader(ReadError::Failed)) => Err(MakeError::Failed),
        Err(PictureError::Reader(ReadError::Gone(_))) => Err(MakeError::Gone),
        Err(PictureError::NoMemory) => Err(MakeError::NoMemory),
    }
}

/// Reads the image of a file through a tap of the folder, and gives the tap back.
fn picture_of<F: Folder>(alloc: Global, folder: &mut F, file: u32) -> Result<Pyramid, MakeError>
    requires { IsFile F.W.files file }
    ensures reads { ReadsOf F.W.files file (F.state folder.old) (F.state folder.new) result }
    ensures small { IfOk result (λ picture. samples_of (seen picture) ≤ max_samples) }
    ensures moves { MovesOnlyGone (F.state folder.old).moves (F.state folder.new).moves result }
    ensures files { KeepsFiles (F.state folder.old) (F.state folder.new) }
    ensures folder { LeavesFolder (F.state folder.old) (F.state folder.new) }
{
    let mut tap = match folder.tap(alloc) {
        Ok(tap) => tap,
        Err(NoMemory) => return Err(MakeError::NoMemory),
    };
    let read = read_file(alloc, &mut tap, file);
    folder.back(tap);
    read
}

/// Reads the image that is asked for.
fn picture_asked<F: Folder>(
    alloc: Global,
    folder: &mut F,
    asked: &Asked<'_>,
) -> Result<Pyramid, MakeError>
    ensures reads { ReadsPicture F.W.files (shown_asked asked.now)
        (F.state folder.old) (F.state folder.new) result }
    ensures small { IfOk result (λ picture. samples_of (seen picture) ≤ max_samples) }
    ensures absent { LacksFile (shown_asked asked.now) (F.state folder.new)
        ↔ (result ≡ Err NoSuchFile) }
    ensures mark { IsTrue (F.state folder.new).over ↔ (result ≡ Err TooMany) }
    ensures moves { MovesOnlyGone (F.state folder.old).moves (F.state folder.new).moves result }
    ensures folder { LeavesFolder (F.state folder.old) (F.state folder.new) }
{
    match folder.enter(alloc, asked.path) {
        Ok(()) => {}
        Err(EnterError::Failed) => return Err(MakeError::Failed),
        Err(EnterError::TooMany) => return Err(MakeError::TooMany),
        Err(EnterError::NoMemory) => return Err(MakeError::NoMemory),
    }
    match folder.find(asked.name) {
        Some(file) => picture_of(alloc, folder, file),
        None => Err(MakeError::NoSuchFile),
    }
}

/// Makes the texture that the arguments ask for, and writes it to a sink. The whole image is read
/// before anything is written.
pub fn make<F: Folder, O: Sink>(alloc: Global, words: &[String], folder: &mut F, out: &mut O) -> u8
    ensures makes { EndsAs F.W.files (asked_by words.now)
        (around_of (F.state folder.old) (sink_state O.faults O.holds out.old))
        (around_of (F.state folder.new) (sink_state O.faults O.holds out.new)) result }
    ensures complete { Completes F.W.files (asked_by words.now)
        (around_of (F.state folder.old) (sink_state O.faults O.holds out.old))
        (around_of (F.state folder.new) (sink_state O.faults O.holds out.new)) result }
{
    let Some(asked) = asked_in(words) else {
        return BAD_WORDS;
    };
    match picture_asked(alloc, folder, &asked) {
        Ok(picture) => put_picture(alloc, &picture, asked.side, out),
        Err(ending) => ending.status(),
    }
}
