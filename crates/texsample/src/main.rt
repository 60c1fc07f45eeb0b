//! The program texsample: it makes requests from a number, answers them from the sample files, and
//! prints a line about the answers.
#![tactic(auto)]

use host_folder::RealSink;
use render_run::{NO_MEMORY, NOT_WRITTEN};
use sample_run::sample;
use std::io::ErrorKind;
use std::process::ExitCode;
use std::sync::Wait;
use std::thread::Threads;
use std::{env, io};

fn main(rt: HostRuntime) -> ExitCode {
    ExitCode::from(status(&rt, &rt))
}

/// Makes and answers what the arguments ask for, and returns the exit status. `threads` is the
/// runtime, which makes threads and waits.
fn status(rt: &HostRuntime, threads: &(impl Threads + Wait + Sync)) -> u8 {
    let words = match words(rt) {
        Ok(words) => words,
        Err(_) => return NO_MEMORY,
    };
    let mut out = match RealSink::new(rt.alloc(), rt.stdout()) {
        Ok(out) => out,
        Err(_) => return NO_MEMORY,
    };
    let status = sample(threads, rt.alloc(), words.as_slice(), &mut out);
    // writing the buffered bytes can fail like writing a line
    match out.flush() {
        Ok(()) => status,
        Err(_failed) => NOT_WRITTEN,
    }
}

/// The arguments after the program's name. If one is not UTF-8 there are none, which are not two
/// numbers.
fn words(rt: &HostRuntime) -> io::Result<Vec<String>> {
    let mut words = match env::args(rt) {
        Ok(words) => words,
        Err(e) if e.kind() == ErrorKind::OutOfMemory => return Err(e),
        Err(_) => return Ok(Vec::new(rt.alloc())),
    };
    let _ = words.next();
    Ok(words.collect(rt.alloc())?)
}
