//! One file of a folder's listing.
ghost use Rattle.std.specs.Prelude.{◌≡◌, IfOk, string_bytes};
ghost use Rattle.std.specs.Fs.{dir_entry_name, dir_entry_path};

use std::alloc::{AllocError, Global};
use std::fs::{DirEntry, Files};

/// A plain file: its name, and the path to open it.
#[derive(Drop)]
pub struct Listed {
    pub name: String,
    pub path: String,
}

impl Listed {
    /// The file of a directory entry.
    pub fn of<R: Files>(alloc: Global, entry: &DirEntry<R>) -> Result<Listed, AllocError>
        ensures name { IfOk result (λ file. string_bytes file.name ≡ dir_entry_name entry.now) }
        ensures path { IfOk result (λ file. string_bytes file.path ≡ dir_entry_path entry.now) }
    {
        let path = entry.path();
        let name = String::from_str(alloc, entry.file_name())?;
        let path = String::from_str(alloc, path.as_str())?;
        Ok(Listed { name, path })
    }
}
