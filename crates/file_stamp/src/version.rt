//! The stamp by which the C library recognizes a file: device, inode, length and both times. A file
//! that another one with equal length and time was renamed over has another stamp.
ghost use Rattle.std.specs.Prelude.{◌≡◌, ◌≤◌, IfSome, true};
ghost use Rattle.file_stamp.specs.Version as spec;
ghost use Rattle.tex_world.specs.World.{last_generation};

use tex_world::LAST_GENERATION;

/// What a look at a file shows, as far as it changes if the file is replaced or written to. Times
/// are in nanoseconds since 1970.
#[repr(C)]
#[derive(Clone, Copy, Debug, PartialEq, Eq)]
pub struct FileStamp {
    pub device: u64,
    pub inode: u64,
    /// The length in bytes.
    pub size: u64,
    /// When bytes were last written.
    pub modified: u64,
    /// When bytes were written, or the file was renamed or given to another owner.
    pub changed: u64,
}

/// The newest version of a file that was seen: its generation, 0 before the first look, and its
/// stamp.
#[repr(C)]
#[derive(Clone, Copy, Debug)]
pub struct FileVersion {
    pub generation: u32,
    pub stamp: FileStamp,
}

/// A look found the known version.
pub const KNOWN: u32 = 0;

/// A look found another version, which has the next generation.
pub const NEWER: u32 = 1;

/// A look found another version, and there is no generation for it.
pub const USED_UP: u32 = 2;

impl FileVersion {
    /// Whether a look finds this version.
    fn is_of(&self, seen: &FileStamp) -> bool
        ensures { result ≡ spec.is_of self.now seen.now }
    {
        let known = &self.stamp;
        self.generation > 0
            && known.device == seen.device
            && known.inode == seen.inode
            && known.size == seen.size
            && known.modified == seen.modified
            && known.changed == seen.changed
    }

    /// Notes what a look found: `KNOWN`, `NEWER` or `USED_UP`.
    pub fn find(&mut self, seen: &FileStamp) -> u32
        ensures { spec.SaysVersion seen.now result self.old self.new }
    {
        if self.is_of(seen) {
            return KNOWN;
        }
        match self.after(seen) {
            Some(next) => {
                *self = next;
                NEWER
            }
            None => USED_UP,
        }
    }

    /// The version after a look: this one if the look finds it, otherwise the next generation.
    /// `None` after the last generation.
    pub fn after(&self, seen: &FileStamp) -> Option<FileVersion>
        ensures value { result ≡ spec.version_after self.now seen.now }
        ensures later { IfSome result (λ next. self.now.generation ≤ next.generation) }
        ensures found { IfSome result (λ next. spec.is_of next seen.now ≡ true) }
    {
        if self.is_of(seen) {
            return Some(*self);
        }
        if self.generation >= LAST_GENERATION {
            return None;
        }
        Some(FileVersion {
            generation: self.generation + 1,
            stamp: *seen,
        })
    }

    /// The generation of an open file, whose descriptor has this stamp; 0 if it is not this version.
    pub fn opened_at(&self, seen: &FileStamp) -> u32
        ensures { result ≡ spec.opened_at self.now seen.now }
    {
        if self.is_of(seen) { self.generation } else { 0 }
    }

    /// Whether bytes answer a need of a generation: the file was opened in it, and the look after
    /// the reading found this version.
    pub fn may_answer(&self, opened: u32, needed: u32) -> bool
        ensures { result ≡ spec.may_answer self.now opened needed }
    {
        needed > 0 && opened == needed && self.generation == needed
    }
}
