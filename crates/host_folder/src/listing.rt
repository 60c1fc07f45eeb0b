//! The list of a folder's plain files.
ghost use Rattle.std.specs.Prelude.{◌≡◌, ◌<◌, ◌≤◌, length, IfOk, IfErr, IfSome, IsNone};
ghost use Rattle.std.specs.Prelude.{string_bytes};
ghost use Rattle.std.specs.List.{HoldsAt};
ghost use Rattle.std.proofs.Props.{props};
ghost use Rattle.tex_world.specs.World.{max_files};
ghost use Rattle.tex_world.specs.Number.{number_in};
ghost use Rattle.host_folder.specs.Listing.{listed_names, AreSorted, AreInOrder, KeepsNames};

use crate::listed::Listed;
use std::alloc::{AllocError, Global};
use std::fs::{DirEntry, Files, ReadDir};
use std::io::{Error, ErrorKind};
use std::sync::atomic::AtomicU64;
use std::{fs, io};
use tex_world::{EnterError, MAX_FILES};

/// The plain files that a folder had when it was listed, ordered by name, without duplicates. All
/// taps share one atomic word per file, which holds the newest known generation and its stamp.
#[derive(Drop)]
pub struct Listing {
    path: String,
    files: Vec<Listed>,
    words: Vec<AtomicU64>,
    ghost few: { length files.items ≤ max_files },
    ghost in_order: { AreInOrder files.items } by { Prim.hlevel props },
}

impl Listing {
    /// Lists the folder with this path. A symbolic link counts as what it points to.
    pub fn of<R: Files + AllocGlobal + Clone + Drop>(
        rt: &R,
        alloc: Global,
        path: &str,
    ) -> Result<Listing, EnterError>
        ensures { IfOk result (λ l. string_bytes l.path ≡ path.now) }
    {
        let entries = fs::read_dir(rt, path).map_err(cause_of)?;
        let mut files = sorted(plain_files(rt, alloc, entries)?)?;
        drop_doubles(&mut files);
        let words = unseen_words(alloc, files.len()).map_err(no_memory)?;
        let path = String::from_str(alloc, path).map_err(no_memory)?;
        Ok(Listing { path, files, words })
    }

    /// The number of files.
    pub fn len(&self) -> usize
        ensures { result ≡ length self.now.files.items }
    {
        self.files.len()
    }

    /// The number of the file with this name.
    pub fn find(&self, name: &str) -> Option<u32>
        ensures { result ≡ number_in (listed_names self.now.files.items) name.now }
    {
        let place = self
            .files
            .as_slice()
            .binary_search_by(|file| file.name.as_str().cmp(name));
        match place {
            Ok(n) => Some(n as u32),
            Err(_) => None,
        }
    }

    /// The path to open a file.
    pub fn path_of(&self, file: u32) -> Option<&str>
        ensures path { IfSome result (λ path.
            HoldsAt (λ listed. string_bytes listed.path ≡ path.now) self.now.files.items file) }
        ensures absent { IsNone result → length self.now.files.items ≤ file }
    {
        Some(self.files.get(file as usize)?.path.as_str())
    }

    /// The word of a file: its newest known generation and stamp.
    pub fn word(&self, file: u32) -> Option<&AtomicU64> {
        self.words.get(file as usize)
    }
}

/// Words for `count` files that have not been seen yet.
fn unseen_words(alloc: Global, count: usize) -> Result<Vec<AtomicU64>, AllocError> {
    let mut words = Vec::with_capacity(alloc, count)?;
    for _ in 0..count {
        words.push(AtomicU64::new(0))?;
    }
    Ok(words)
}

/// The plain files among the directory entries, in their order.
fn plain_files<R: Files + AllocGlobal + Clone + Drop>(
    rt: &R,
    alloc: Global,
    entries: ReadDir<R>,
) -> Result<Vec<Listed>, EnterError>
    ensures { IfOk result (λ files. length files.items ≤ max_files) }
{
    let mut files = Vec::new(alloc);
    for entry in entries {
        if let Some(file) = plain_file(rt, alloc, entry)? {
            if files.len() >= MAX_FILES as usize {
                return Err(EnterError::TooMany);
            }
            files.push(file).map_err(|_| EnterError::NoMemory)?;
        }
    }
    Ok(files)
}

/// Sorts the files by name, byte by byte.
fn sorted(mut files: Vec<Listed>) -> Result<Vec<Listed>, EnterError>
    ensures len { IfOk result (λ after. length after.items ≡ length files.items) }
    ensures sorted { IfOk result (λ after. AreSorted after.items) }
    ensures cause { IfErr result (λ e. e ≡ EnterError.NoMemory) }
{
    match files.sort_by(|a, b| a.name.as_str().cmp(b.name.as_str())) {
        Ok(()) => Ok(files),
        Err(_) => Err(EnterError::NoMemory),
    }
}

/// Drops each file that has the same name as the one before it. A folder that changes while it is
/// listed can give a name twice.
fn drop_doubles(files: &mut Vec<Listed>)
    requires { AreSorted files.old.items }
    ensures in_order { AreInOrder files.new.items }
    ensures names { KeepsNames files.old.items files.new.items }
    ensures len { length files.new.items ≤ length files.old.items }
{
    files.dedup_by(|a, b| a.name.as_str() == b.name.as_str());
}

/// The plain file of a directory entry. A file whose name is not UTF-8 is ignored.
fn plain_file<R: Files + AllocGlobal + Clone + Drop>(
    rt: &R,
    alloc: Global,
    entry: io::Result<DirEntry<R>>,
) -> Result<Option<Listed>, EnterError> {
    let entry = match entry {
        Ok(entry) => entry,
        Err(e) if e.kind() == ErrorKind::InvalidFilename => return Ok(None),
        Err(e) => return Err(cause_of(e)),
    };
    if !is_plain(rt, &entry)? {
        return Ok(None);
    }
    Ok(Some(Listed::of(alloc, &entry).map_err(no_memory)?))
}

/// Whether an entry is a plain file. One that has disappeared since counts as not plain.
fn is_plain<R: Files + AllocGlobal + Clone + Drop>(
    rt: &R,
    entry: &DirEntry<R>,
) -> Result<bool, EnterError> {
    match entry.file_type() {
        Ok(kind) if kind.is_symlink() => Ok(leads_to_plain(rt, entry)),
        Ok(kind) => Ok(kind.is_file()),
        Err(e) if e.kind() == ErrorKind::NotFound => Ok(false),
        Err(e) => Err(cause_of(e)),
    }
}

/// Whether a symbolic link points to a plain file.
fn leads_to_plain<R: Files + AllocGlobal + Clone + Drop>(rt: &R, link: &DirEntry<R>) -> bool {
    match fs::metadata(rt, link.path()) {
        Ok(metadata) => metadata.is_file(),
        Err(_) => false,
    }
}

fn cause_of(error: Error) -> EnterError {
    if error.kind() == ErrorKind::OutOfMemory {
        EnterError::NoMemory
    } else {
        EnterError::Failed
    }
}

fn no_memory(_error: AllocError) -> EnterError {
    EnterError::NoMemory
}
