//! The program texmake: it converts an image of a folder to a texture, a tiled file with all
//! levels, on standard output.
#![tactic(auto)]

use host_folder::{RealFolder, RealSink};
use std::io::ErrorKind;
use std::process::ExitCode;
use std::{env, io};
use tex_make::{NO_MEMORY, NOT_WRITTEN, make};

fn main(rt: HostRuntime) -> ExitCode {
    ExitCode::from(status(rt))
}

/// Makes what the arguments ask for, and returns the exit status.
fn status(rt: HostRuntime) -> u8 {
    let words = match words(&rt) {
        Ok(words) => words,
        Err(_) => return NO_MEMORY,
    };
    let mut out = match RealSink::new(rt.alloc(), rt.stdout()) {
        Ok(out) => out,
        Err(_) => return NO_MEMORY,
    };
    let alloc = rt.alloc();
    let mut folder = RealFolder::new(&rt);
    let status = make(alloc, words.as_slice(), &mut folder, &mut out);
    // writing the buffered bytes can fail like any write
    match out.flush() {
        Ok(()) => status,
        Err(_failed) => NOT_WRITTEN,
    }
}

/// The arguments after the program's name. If one is not UTF-8 there are none, which is not a valid
/// command.
fn words(rt: &HostRuntime) -> io::Result<Vec<String>> {
    let mut words = match env::args(rt) {
        Ok(words) => words,
        Err(e) if e.kind() == ErrorKind::OutOfMemory => return Err(e),
        Err(_) => return Ok(Vec::new(rt.alloc())),
    };
    let _ = words.next();
    Ok(words.collect(rt.alloc())?)
}
