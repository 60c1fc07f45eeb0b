//! The example of README as a program: a lookup in the middle of a file.
#![tactic(auto)]

ghost use Rattle.std.specs.Prelude.{◌≡◌, length};
ghost use Rattle.texel_filter.specs.Image.{IsChannelCount};

use caller::Caller;
use host_folder::RealFolder;
use image_cache::Options;
use std::env;
use std::process::ExitCode;
use tex_world::Folder;
use texel_filter::{Filter, TexRequest, Wrap};
use tiff_format::Cut;
use waiter::Tries;

/// The program's default options, for one pass.
const OPTIONS: Options = Options {
    budget: 268435456,
    shards: 8,
    passes: 1,
    handles: 100,
    cut: Cut {
        autotile: 64,
        automip: true,
    },
    slots: 1024,
};

/// The first channel in the middle of level 0.
const MIDDLE: TexRequest = TexRequest {
    s: 32768,
    t: 32768,
    lod: 0,
    swrap: Wrap::Clamp,
    twrap: Wrap::Clamp,
    filter: Filter::Bilinear,
    nch: 1,
};

/// Why nothing is printed.
#[derive(Clone, Copy, Debug, PartialEq, Eq)]
enum LookError {
    /// The arguments are not a folder and a name.
    BadWords,
    /// The folder could not be entered, or has no file with this name.
    NoFile,
    /// The cache does not accept the file.
    Refused,
    /// Out of memory, or the output failed.
    Failed,
}

fn main(rt: HostRuntime) -> ExitCode {
    match look(&rt) {
        Ok(()) => ExitCode::SUCCESS,
        Err(_) => ExitCode::FAILURE,
    }
}

/// Prints the generation of the file and the values.
fn look(rt: &HostRuntime) -> Result<(), LookError> {
    let words: Vec<String> = match env::args(rt) {
        Ok(words) => words.collect(rt.alloc()).map_err(|_| LookError::Failed)?,
        Err(_) => return Err(LookError::BadWords),
    };
    let [_program, path, name] = words.as_slice() else {
        return Err(LookError::BadWords);
    };
    let mut values = [0u16; 1];
    let generation = values_of(rt, path, name, &MIDDLE, &mut values)?;
    println!(rt; "{generation} {}", values[0]).map_err(|_| LookError::Failed)
}

/// Looks up the values in a file of a folder, and returns the generation.
fn values_of(
    rt: &HostRuntime,
    path: &str,
    name: &str,
    request: &TexRequest,
    values: &mut [u16],
) -> Result<u32, LookError>
    requires count { length values.old ≡ request.now.nch }
    requires channels { IsChannelCount request.now.nch }
{
    let alloc = rt.alloc();
    let mut folder = RealFolder::new(rt);
    folder.enter(alloc, path).map_err(|_| LookError::NoFile)?;
    let file = folder.find(name).ok_or(LookError::NoFile)?;
    let tap = folder.tap(alloc).map_err(|_| LookError::Failed)?;
    let Ok(mut caller) = Caller::new(alloc, OPTIONS, folder.count(), Tries::new(100), tap) else {
        return Err(LookError::Failed);
    };
    let looked = caller.texture(file, request, values);
    folder.back(caller.into_tap());
    looked.map_err(|_| LookError::Refused)
}
