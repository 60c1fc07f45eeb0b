//! The calls for C that say which version of a file was found, opened or read. They need no handle.
ghost use Rattle.std.specs.Prelude.{◌≡◌};
ghost use Rattle.file_stamp.specs.Version.{SaysVersion, opened_at, may_answer};

use file_stamp::{FileStamp, FileVersion};

/// Notes what a look at a file found: 0 the known version, 1 a newer one, which `known` then says,
/// or 2 another one after the last generation.
#[unsafe(no_mangle)]
pub extern "C" fn tex_c_found(known: &mut FileVersion, seen: &FileStamp) -> u32
    ensures { SaysVersion seen.now result known.old known.new }
{
    known.find(seen)
}

/// The generation of an open file, whose descriptor has this stamp; 0 if it is not the known
/// version.
#[unsafe(no_mangle)]
pub extern "C" fn tex_c_opened(known: &FileVersion, seen: &FileStamp) -> u32
    ensures { result ≡ opened_at known.now seen.now }
{
    known.opened_at(seen)
}

/// Whether bytes may be supplied that a call needs of a generation: the file was opened in
/// generation `opened`, and a look after the reading found the version `known`.
#[unsafe(no_mangle)]
pub extern "C" fn tex_c_may_answer(known: &FileVersion, opened: u32, needed: u32) -> bool
    ensures { result ≡ may_answer known.now opened needed }
{
    known.may_answer(opened, needed)
}
