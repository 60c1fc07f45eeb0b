//! Lists over the files of a real folder, which change while they are answered.

use host_folder::{RealFeed, RealFolder, RealSink};
use render_run::{NoHook, run};
use std::alloc::{AllocError, Global};
use std::fs::{File, Files};
use std::io::Write;
use std::sync::Wait;
use std::test::Fail;
use std::thread::Threads;
use std::{fs, io};

// the header and the directory of 3 by 70 texels of one channel, in one strip at 122; they lie in
// two cells, the second with 6 rows
static TALL: [u8; 122] = [
    0x49, 0x49, 0x2a, 0x00, 0x08, 0x00, 0x00, 0x00, 0x09, 0x00, //
    0x00, 0x01, 0x03, 0x00, 0x01, 0x00, 0x00, 0x00, 0x03, 0x00, 0x00, 0x00, //
    0x01, 0x01, 0x03, 0x00, 0x01, 0x00, 0x00, 0x00, 0x46, 0x00, 0x00, 0x00, //
    0x02, 0x01, 0x03, 0x00, 0x01, 0x00, 0x00, 0x00, 0x08, 0x00, 0x00, 0x00, //
    0x03, 0x01, 0x03, 0x00, 0x01, 0x00, 0x00, 0x00, 0x01, 0x00, 0x00, 0x00, //
    0x06, 0x01, 0x03, 0x00, 0x01, 0x00, 0x00, 0x00, 0x01, 0x00, 0x00, 0x00, //
    0x11, 0x01, 0x03, 0x00, 0x01, 0x00, 0x00, 0x00, 0x7a, 0x00, 0x00, 0x00, //
    0x15, 0x01, 0x03, 0x00, 0x01, 0x00, 0x00, 0x00, 0x01, 0x00, 0x00, 0x00, //
    0x16, 0x01, 0x03, 0x00, 0x01, 0x00, 0x00, 0x00, 0x46, 0x00, 0x00, 0x00, //
    0x17, 0x01, 0x03, 0x00, 0x01, 0x00, 0x00, 0x00, 0xd2, 0x00, 0x00, 0x00, //
    0x00, 0x00, 0x00, 0x00, //
];

/// The number of samples.
const SAMPLES: u8 = 210;

/// The file. Its k-th sample, row by row, is k plus `shift`, and `more` bytes follow them.
fn tall(alloc: Global, shift: u8, more: usize) -> Result<Vec<u8>, AllocError> {
    let mut file = TALL.to_vec(alloc)?;
    for k in 0..SAMPLES {
        file.push(k.wrapping_add(shift))?;
    }
    for _ in 0..more {
        file.push(0)?;
    }
    Ok(file)
}

/// What happens to the file.
#[derive(Drop)]
enum Change {
    /// It gets other bytes.
    Painted(Vec<u8>),
    /// It is removed.
    Removed,
}

// a writer that changes a file before it takes its first bytes
#[derive(Drop)]
struct Painter<R> {
    rt: R,
    path: &'static str,
    change: Option<Change>,
    taken: Vec<u8>,
}

impl<R: Files<File = File>> Write for Painter<R> {
    fn write(&mut self, buf: &[u8]) -> io::Result<usize> {
        match self.change.take() {
            Some(Change::Painted(picture)) => fs::write(&self.rt, self.path, &picture)?,
            Some(Change::Removed) => fs::remove_file(&self.rt, self.path)?,
            None => {}
        }
        self.taken.extend_from_slice(buf)?;
        Ok(buf.len())
    }

    fn flush(&mut self) -> io::Result<()> {
        Ok(())
    }
}

/// The first lines of each list: a region around the first cell only, so wide that its line is
/// longer than a page. So it is written, and the file changes, before the second round.
const WIDE: &str = "pixels 0 0 0 1024 64 tall.tif\nsync\n";

/// The values of the first cell's rows, 1024 texels wide.
fn push_rows(alloc: Global, text: &mut String) -> Result<(), AllocError> {
    let beside = " 0".repeat(alloc, 1021)?;
    for row in 0..64u32 {
        let first = row * 771;
        let part = format!(in alloc; " {first} {} {}{beside}", first + 257, first + 514)?;
        text.push_str(&part)?;
    }
    Ok(())
}

/// The text of that line, and of the end of the round.
fn wide_text(alloc: Global) -> Result<String, AllocError> {
    let mut text = String::from_str(alloc, "pixels 1 1")?;
    push_rows(alloc, &mut text)?;
    text.push_str("\nsync\n")?;
    Ok(text)
}

/// What is written for a list whose file changes in this way before the second round. Each list has
/// its own folder.
fn written(
    rt: &HostRuntime,
    threads: &(impl Threads + Wait + Sync),
    (folder, path): (&'static str, &'static str),
    change: Change,
    list: &str,
) -> Result<(Vec<u8>, u8), Fail> {
    let alloc = rt.alloc();
    fs::create_dir(rt, folder)?;
    fs::write(rt, path, &tall(alloc, 0, 0)?)?;
    let mut painter = Painter {
        rt,
        path,
        change: Some(change),
        taken: Vec::new(alloc),
    };
    let mut words = Vec::new(alloc);
    words.push(String::from_str(alloc, folder)?)?;
    words.push(String::from_str(alloc, "--workers=1")?)?;

    let mut folder = RealFolder::new(rt);
    let mut feed = RealFeed::new(list.as_bytes());
    let mut sink = RealSink::new(alloc, &mut painter)?;
    let status = run(
        threads,
        alloc,
        &words,
        &mut folder,
        &mut feed,
        &mut sink,
        &NoHook,
    );
    if sink.flush() != Ok(()) {
        return Err("not written".into());
    }
    drop(sink);
    Ok((painter.taken, status))
}

// What is in the cache is answered in its generation; what must be read is found in the next one.
#[test]
fn lines_name_the_generation_that_they_were_read_from(rt: HostRuntime) -> Result<(), Fail> {
    let alloc = rt.alloc();
    let list = format!(in alloc;
        "{WIDE}pixels 0 1 0 2 1 tall.tif\npixels 0 0 64 1 1 two.tif\npixels 0 0 64 2 1 tall.tif\n\
         pixels 0 0 64 2 1 tall.tif\npixels 0 1 0 2 1 tall.tif\n"
    )?;
    let (taken, status) = written(
        &rt,
        &rt,
        ("painted", "painted/tall.tif"),
        Change::Painted(tall(alloc, 40, 1)?),
        &list,
    )?;
    assert!(rt; status == 1);
    let mut text = wide_text(alloc)?;
    // the samples 1 and 2; 192 + 40 and 193 + 40; 41 and 42
    text.push_str(
        "pixels 1 1 257 514\nno such file\nagain 1 2\n\
         pixels 2 1 59624 59881\npixels 2 1 10537 10794\n\
         worker 0 needs 5 hits 1\ntotal 7 refused 2\n",
    )?;
    assert!(rt; taken.as_slice() == text.as_bytes());
    Ok(())
}

#[test]
fn what_is_read_of_a_removed_file_is_a_fault(rt: HostRuntime) -> Result<(), Fail> {
    let alloc = rt.alloc();
    let list = format!(in alloc;
        "{WIDE}pixels 0 1 0 2 1 tall.tif\npixels 0 0 64 2 1 tall.tif\ninfo tall.tif\n"
    )?;
    let (taken, status) = written(
        &rt,
        &rt,
        ("removed", "removed/tall.tif"),
        Change::Removed,
        &list,
    )?;
    assert!(rt; status == 1);
    let mut text = wide_text(alloc)?;
    text.push_str(
        "pixels 1 1 257 514\nread fault\ninfo 1 3 70 1 8 1 7\n\
         worker 0 needs 3 hits 1\ntotal 5 refused 1\n",
    )?;
    assert!(rt; taken.as_slice() == text.as_bytes());
    Ok(())
}

/// A region of the greatest size, outside the level.
const BESIDE: &str = "pixels 0 2000 2000 1024 1024 tall.tif\n";

// A round has room for four of the largest regions. The fourth covers the first cell with its last
// rows. The fifth covers the second cell, and is answered after the file has changed.
#[test]
fn a_round_has_four_large_regions(rt: HostRuntime) -> Result<(), Fail> {
    let alloc = rt.alloc();
    let list = format!(in alloc;
        "{BESIDE}{BESIDE}{BESIDE}pixels 0 0 -960 1024 1024 tall.tif\n\
         pixels 0 0 64 1024 1024 tall.tif\n"
    )?;
    let (taken, status) = written(
        &rt,
        &rt,
        ("large", "large/tall.tif"),
        Change::Painted(tall(alloc, 40, 1)?),
        &list,
    )?;
    assert!(rt; status == 1);
    let zeros = " 0".repeat(alloc, 1024 * 1024)?;
    let above = " 0".repeat(alloc, 1024 * 960)?;
    let beside = format!(in alloc; "pixels 1 1{zeros}\n")?;
    let mut text = format!(in alloc; "{beside}{beside}{beside}pixels 1 1{above}")?;
    push_rows(alloc, &mut text)?;
    text.push_str("\nagain 1 2\nworker 0 needs 2 hits 0\ntotal 5 refused 1\n")?;
    assert!(rt; taken.as_slice() == text.as_bytes());
    Ok(())
}
