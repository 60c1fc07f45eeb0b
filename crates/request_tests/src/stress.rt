//! A long list over a real folder whose file is replaced, truncated and removed again and again.

use host_folder::{RealFeed, RealFolder, RealSink};
use render_run::{Hook, run};
use std::alloc::{AllocError, Global};
use std::fs;
use std::str::from_utf8;
use std::sync::Wait;
use std::sync::atomic::{AtomicBool, Ordering};
use std::test::Fail;
use std::thread::Threads;

// the header and the directory of 3 by 70 texels of one channel, in one strip at 122; they lie in
// two cells, the second with 6 rows
static START: [u8; 122] = [
    0x49, 0x49, 0x2a, 0x00, 0x08, 0x00, 0x00, 0x00, 0x09, 0x00, //
    0x00, 0x01, 0x03, 0x00, 0x01, 0x00, 0x00, 0x00, 0x03, 0x00, 0x00, 0x00, //
    0x01, 0x01, 0x03, 0x00, 0x01, 0x00, 0x00, 0x00, 0x46, 0x00, 0x00, 0x00, //
    0x02, 0x01, 0x03, 0x00, 0x01, 0x00, 0x00, 0x00, 0x08, 0x00, 0x00, 0x00, //
    0x03, 0x01, 0x03, 0x00, 0x01, 0x00, 0x00, 0x00, 0x01, 0x00, 0x00, 0x00, //
    0x06, 0x01, 0x03, 0x00, 0x01, 0x00, 0x00, 0x00, 0x01, 0x00, 0x00, 0x00, //
    0x11, 0x01, 0x03, 0x00, 0x01, 0x00, 0x00, 0x00, 0x7a, 0x00, 0x00, 0x00, //
    0x15, 0x01, 0x03, 0x00, 0x01, 0x00, 0x00, 0x00, 0x01, 0x00, 0x00, 0x00, //
    0x16, 0x01, 0x03, 0x00, 0x01, 0x00, 0x00, 0x00, 0x46, 0x00, 0x00, 0x00, //
    0x17, 0x01, 0x03, 0x00, 0x01, 0x00, 0x00, 0x00, 0xd2, 0x00, 0x00, 0x00, //
    0x00, 0x00, 0x00, 0x00, //
];

/// The number of samples in a version.
const SAMPLES: usize = 210;

/// A version of the file: all its samples have this value. `behind` bytes follow them, because two
/// versions of equal length differ only in their times, which the kernel counts in ticks.
fn version(alloc: Global, sample: u8, behind: u32) -> Result<Vec<u8>, AllocError> {
    let mut file = START.to_vec(alloc)?;
    for _ in 0..SAMPLES {
        file.push(sample)?;
    }
    for _ in 0..behind {
        file.push(0)?;
    }
    Ok(file)
}

/// The number of requests.
const REQUESTS: u32 = 20_000;

/// The number of requests in a round; the last is a `sync`.
const ROUND: u32 = 100;

/// The file changes before every 40th request.
const CHANGE: u32 = 40;

/// Changes the file of a folder while requests are answered.
#[derive(Drop)]
struct Changing<'a> {
    rt: &'a HostRuntime,
    path: &'static str,
    beside: &'static str,
    failed: AtomicBool,
}

impl<'a> Changing<'a> {
    /// Makes the change with this number. Every eighth removes the file, every other fourth
    /// truncates it, and the others replace it by a new version in one step.
    fn change(&self, number: u32) -> std::io::Result<()> {
        if number % 8 == 5 {
            return fs::remove_file(self.rt, self.path);
        }
        if number % 8 == 3 {
            let file = fs::OpenOptions::new().write(true).open(self.rt, self.path)?;
            return file.set_len(200 + u64::from(number % 128));
        }
        let alloc = self.rt.alloc();
        let sample = (number % 251) as u8;
        let sample = sample.saturating_add(1);
        let beside = format!(in alloc; "{}{number}", self.beside)?;
        fs::write(self.rt, beside.as_str(), &version(alloc, sample, number)?)?;
        fs::rename(self.rt, beside.as_str(), self.path)
    }
}

impl<'a> Hook for Changing<'a> {
    fn before<R: Wait>(&self, _rt: &R, _worker: u32, index: u32) {
        if index % CHANGE == 7 && self.change(index / CHANGE).is_err() {
            self.failed.store(true, Ordering::Release);
        }
    }

    fn after<R: Wait>(&self, _rt: &R, _worker: u32, _index: u32) {}
}

/// The list: a region of both cells, an invalidation now and then, and the ends of rounds.
fn list(alloc: Global) -> Result<String, AllocError> {
    let mut text = String::new(alloc);
    for index in 0..REQUESTS {
        text.push_str(match index % ROUND {
            99 => "sync\n",
            20 | 60 => "invalidate a.tif\n",
            40 => "renew a.tif\n",
            70 => "info a.tif\n",
            _ => "pixels 0 1 62 1 4 a.tif\n",
        })?;
    }
    Ok(text)
}

/// The greatest generation of a file.
const LAST_GENERATION: usize = 1_048_575;

/// What the lines so far have said.
#[derive(Drop)]
struct Told {
    /// The sample of each generation, if a line has named it.
    samples: Vec<Option<u32>>,
    /// The newest generation named in an earlier round, and one named in this round.
    before: usize,
    now: usize,
    answered: u32,
    refused: u32,
    /// The numbers of lines and refusals, from the last line.
    closed: Option<(u32, u32)>,
}

impl Told {
    /// A line's generation must not be older than those of earlier rounds.
    fn names(&mut self, generation: &str) -> Result<usize, Fail> {
        let generation: usize = generation.parse()?;
        if generation > LAST_GENERATION {
            return Err("no generation".into());
        }
        if generation < self.before {
            return Err("a line is older than one of an earlier round".into());
        }
        self.now = self.now.max(generation);
        Ok(generation)
    }

    /// The values of a line must be those of one version, and a generation must have only one
    /// version.
    fn has_values(&mut self, generation: usize, values: &str) -> Result<(), Fail> {
        let mut values = values.split(' ');
        let first: u32 = values.next().ok_or("no value")?.parse()?;
        for value in values {
            let value: u32 = value.parse()?;
            if value != first {
                return Err("a line mixes two versions".into());
            }
        }
        for _ in self.samples.len()..generation.saturating_add(1) {
            self.samples.push(None)?;
        }
        let Some(told) = self.samples.get_mut(generation) else {
            return Err("no place for the generation".into());
        };
        match *told {
            Some(sample) if sample != first => Err("a generation has two versions".into()),
            _ => {
                *told = Some(first);
                self.answered = self.answered.saturating_add(1);
                Ok(())
            }
        }
    }

    /// Counts one more refusal.
    fn refuses(&mut self) -> Result<(), Fail> {
        self.refused = self.refused.saturating_add(1);
        Ok(())
    }

    /// Checks one more line.
    fn line(&mut self, line: &str) -> Result<(), Fail> {
        let (word, rest) = line.split_once(' ').unwrap_or((line, ""));
        match word {
            "pixels" => {
                let (generation, values) = rest.split_once(" 1 ").ok_or("no values")?;
                let generation = self.names(generation)?;
                self.has_values(generation, values)
            }
            "sync" => {
                self.before = self.now;
                Ok(())
            }
            "invalidated" | "renewed" => {
                let _generation = self.names(rest)?;
                Ok(())
            }
            "info" => {
                let (generation, _facts) = rest.split_once(' ').ok_or("no facts")?;
                let _generation = self.names(generation)?;
                Ok(())
            }
            "bad" => {
                let (_file, rest) = rest.split_once(' ').ok_or("no generation")?;
                let (generation, _fault) = rest.split_once(' ').ok_or("no fault")?;
                let _generation = self.names(generation)?;
                self.refuses()
            }
            "again" => {
                let (from, to) = rest.split_once(' ').ok_or("no newer generation")?;
                let (from, to): (usize, usize) = (from.parse()?, to.parse()?);
                if from < to {
                    self.refuses()
                } else {
                    Err("no newer generation was met".into())
                }
            }
            "read" => self.refuses(),
            "worker" => Ok(()),
            "total" => {
                let (lines, refused) = rest.split_once(" refused ").ok_or("no refusals")?;
                self.closed = Some((lines.parse()?, refused.parse()?));
                Ok(())
            }
            _ => Err("an unknown line".into()),
        }
    }
}

fn holds(so: bool, message: &'static str) -> Result<(), Fail> {
    if so { Ok(()) } else { Err(message.into()) }
}

/// Lets this many workers answer the list over a folder of its own.
fn is_answered(
    rt: &HostRuntime,
    threads: &(impl Threads + Wait + Sync),
    (folder, path, beside): (&'static str, &'static str, &'static str),
    workers: &str,
) -> Result<(), Fail> {
    let alloc = rt.alloc();
    fs::create_dir(rt, folder)?;
    fs::write(rt, path, &version(alloc, 1, REQUESTS)?)?;
    let mut words = Vec::new(alloc);
    words.push(String::from_str(alloc, folder)?)?;
    words.push(String::from_str(alloc, "--workers")?)?;
    words.push(String::from_str(alloc, workers)?)?;
    let list = list(alloc)?;
    let hook = Changing {
        rt,
        path,
        beside,
        failed: AtomicBool::new(false),
    };
    let mut written = Vec::new(alloc);
    let mut folder = RealFolder::new(rt);
    let mut feed = RealFeed::new(list.as_bytes());
    let mut sink = RealSink::new(alloc, &mut written)?;
    let status = run(
        threads,
        alloc,
        &words,
        &mut folder,
        &mut feed,
        &mut sink,
        &hook,
    );
    holds(sink.flush() == Ok(()), "it is written")?;
    drop(sink);
    holds(status == 1, "some line is a refusal")?;
    holds(!hook.failed.load(Ordering::Acquire), "each change is made")?;

    let mut told = Told {
        samples: Vec::new(alloc),
        before: 0,
        now: 0,
        answered: 0,
        refused: 0,
        closed: None,
    };
    let text = from_utf8(&written)?;
    let mut lines: u32 = 0;
    for line in text.lines() {
        told.line(line)?;
        lines = lines.saturating_add(1);
    }
    holds(
        told.closed == Some((REQUESTS, told.refused)),
        "the lines are counted",
    )?;
    let crew: u32 = workers.parse()?;
    let closing = crew.saturating_add(1);
    holds(
        lines == REQUESTS.saturating_add(closing),
        "each request has a line",
    )?;
    holds(told.now > 20, "the file changed")?;
    holds(told.answered > REQUESTS / 4, "most requests are answered")?;
    Ok(())
}

/// A folder, its file, what is next to it, and the number of workers.
static RUNS: [((&str, &str, &str), &str); 3] = [
    (("one", "one/a.tif", "one/new"), "1"),
    (("four", "four/a.tif", "four/new"), "4"),
    (("many", "many/a.tif", "many/new"), "16"),
];

#[test]
fn no_line_mixes_versions_or_is_older(rt: HostRuntime) -> Result<(), Fail> {
    for (names, workers) in &RUNS {
        is_answered(&rt, &rt, *names, workers)?;
    }
    Ok(())
}
