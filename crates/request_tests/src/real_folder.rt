//! A real folder with its taps, and a reader and a writer that fail.

ghost use Rattle.tex_world.specs.World.{IsFile};

use host_folder::{RealFeed, RealFolder, RealSink, RealTap};
use std::alloc::Global;
use std::fs::{File, Files};
use std::io::{ErrorKind, Read, Write};
use std::process::Abort;
use std::test::Fail;
use std::{fs, io};
use tex_world::{Failed, Feed, Folder, OpenError, ReadError, Sink, Tap, TapHandle};

static NAMES: [&str; 4] = ["B.tif", "a.tif", "b.tif", "ä.tif"];

static WRITTEN: [&str; 4] = [
    "ordered/b.tif",
    "ordered/B.tif",
    "ordered/ä.tif",
    "ordered/a.tif",
];

fn make_ordered<R: Files<File = File>>(rt: &R) -> io::Result<()> {
    fs::create_dir(rt, "ordered")?;
    fs::create_dir(rt, "ordered/a_folder")?;
    for name in &WRITTEN {
        fs::write(rt, *name, *name)?;
    }
    Ok(())
}

// All names are found in their order, and no other name is.
fn finds_in_order<F: Folder>(folder: &F) -> bool {
    for (n, name) in NAMES.iter().enumerate() {
        if folder.find(name) != Some(n as u32) {
            return false;
        }
    }
    folder.count() == 4 && folder.find("a_folder").is_none()
}

fn lists_in_order<F: Folder>(rt: &impl Abort, alloc: Global, mut folder: F)
where
    F: Drop,
{
    assert!(rt; folder.find("a.tif").is_none(), "before it is entered");
    assert!(rt; folder.enter(alloc, "ordered") == Ok(()));
    assert!(rt; finds_in_order(&folder));
}

#[test]
fn lists_the_plain_files_in_order(rt: HostRuntime) -> Result<(), Fail> {
    make_ordered(&rt)?;
    lists_in_order(&rt, rt.alloc(), RealFolder::new(&rt));
    Ok(())
}

/// A tap that can tell its failed calls.
trait ShowsFaults {
    fn shown(&self) -> u64;
}

impl<R> ShowsFaults for RealTap<R> {
    fn shown(&self) -> u64 {
        self.faults()
    }
}

// The file is read, then rewritten, then replaced by another file. Returns the name of the first
// step that goes wrong.
fn wrong_change<T: Tap>(
    rt: &HostRuntime,
    alloc: Global,
    tap: &mut T,
) -> Result<Option<&'static str>, Fail>
    requires { IsFile T.W.files 0 }
{
    let Ok(mut h) = tap.open(alloc, 0, 0) else {
        return Ok(Some("opening"));
    };
    if h.generation() != 1 || h.len() != 5 {
        return Ok(Some("what was opened"));
    }
    let mut buf = [0u8; 4];
    if tap.read_at(&mut h, 1, &mut buf) != Ok(()) || buf != *b"irst" {
        return Ok(Some("reading"));
    }
    fs::write(rt, "changed/a.tif", "second")?;
    if tap.read_at(&mut h, 1, &mut buf) != Err(ReadError::Gone(2)) {
        return Ok(Some("reading what was rewritten"));
    }
    fs::write(rt, "changed/other", "the third")?;
    fs::rename(rt, "changed/other", "changed/a.tif")?;
    if tap.newest(0, 0) != Ok(3) {
        return Ok(Some("asking for what took its place"));
    }
    Ok(None)
}

// The file disappears, and a folder takes its place.
fn wrong_end<T: Tap>(
    rt: &HostRuntime,
    alloc: Global,
    tap: &mut T,
) -> Result<Option<&'static str>, Fail>
    requires { IsFile T.W.files 0 }
{
    fs::remove_file(rt, "changed/a.tif")?;
    if tap.newest(0, 0) != Err(Failed) {
        return Ok(Some("asking for what is gone"));
    }
    fs::create_dir(rt, "changed/a.tif")?;
    match tap.open(alloc, 0, 0) {
        Err(OpenError::Failed) => Ok(None),
        _ => Ok(Some("opening a folder")),
    }
}

// Both of these, with no failed call until the file disappears and two afterwards.
fn wrong_step<T: Tap + ShowsFaults>(
    rt: &HostRuntime,
    alloc: Global,
    tap: &mut T,
) -> Result<Option<&'static str>, Fail>
    requires { IsFile T.W.files 0 }
{
    if let Some(step) = wrong_change(rt, alloc, tap)? {
        return Ok(Some(step));
    }
    if tap.shown() != 0 {
        return Ok(Some("counting no fault"));
    }
    if let Some(step) = wrong_end(rt, alloc, tap)? {
        return Ok(Some(step));
    }
    if tap.shown() != 2 {
        return Ok(Some("counting two faults"));
    }
    Ok(None)
}

fn wrong_in<F: Folder>(
    rt: &HostRuntime,
    alloc: Global,
    folder: &mut F,
) -> Result<Option<&'static str>, Fail>
where
    F::Tap: ShowsFaults + Drop,
    requires { IsFile F.W.files 0 }
{
    if folder.enter(alloc, "changed") != Ok(()) {
        return Ok(Some("entering"));
    }
    let Ok(mut tap) = folder.tap(alloc) else {
        return Ok(Some("making a tap"));
    };
    let step = wrong_step(rt, alloc, &mut tap)?;
    folder.back(tap);
    Ok(step)
}

#[test]
fn a_changed_file_has_the_next_generation(rt: HostRuntime) -> Result<(), Fail> {
    fs::create_dir(&rt, "changed")?;
    fs::write(&rt, "changed/a.tif", "first")?;
    let step = wrong_in(&rt, rt.alloc(), &mut RealFolder::new(&rt))?;
    assert!(rt; step.is_none(), "{step:?}");
    Ok(())
}

// a stream that gives and takes some bytes and then fails
#[derive(Drop)]
struct Broken(usize);

impl Read for Broken {
    fn read(&mut self, buf: &mut [u8]) -> io::Result<usize> {
        let n = buf.len().min(self.0);
        if n == 0 {
            return Err(io::Error::from(ErrorKind::BrokenPipe));
        }
        self.0 -= n;
        Ok(n)
    }
}

impl Write for Broken {
    fn write(&mut self, buf: &[u8]) -> io::Result<usize> {
        let n = buf.len().min(self.0);
        if n == 0 {
            return Err(io::Error::from(ErrorKind::BrokenPipe));
        }
        self.0 -= n;
        Ok(n)
    }

    fn flush(&mut self) -> io::Result<()> {
        Ok(())
    }
}

#[test]
fn a_stream_that_fails_goes_on_failing(rt: HostRuntime) -> Result<(), Fail> {
    let mut feed = RealFeed::new(Broken(3));
    let mut buf = [0u8; 2];
    assert!(rt; feed.read(&mut buf) == Ok(2));
    assert!(rt; feed.read(&mut buf) == Ok(1));
    assert!(rt; feed.read(&mut buf) == Err(Failed));
    assert!(rt; feed.read(&mut buf) == Err(Failed));

    let mut sink = RealSink::new(rt.alloc(), Broken(3))?;
    assert!(rt; sink.put(b"four") == Ok(()), "it is held back");
    assert!(rt; sink.flush() == Err(Failed));
    assert!(rt; sink.flush() == Err(Failed));
    Ok(())
}
