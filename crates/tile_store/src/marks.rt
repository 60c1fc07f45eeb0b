//! Marks the files that may have tiles in a shard, so that a purge of another file looks at no
//! tile.
ghost use Rattle.std.specs.Prelude.{◌≡◌, ◌<◌, false, length, if◌then◌else◌};
ghost use Rattle.tile_layout.specs.Key.{file_of};
ghost use Rattle.tile_store.specs.Marks.{is_marked, marked, unmarked};

use std::alloc::Global;
use std::marker::Model;
use tex_world::NoMemory;
use tile_layout::TileKey;

/// The number of files that a key can name: its file number has 12 bits.
const FILES: usize = 1 << 12;

/// A mark for each file that a key can name. Clauses see the list of marks.
#[derive(Drop)]
pub struct Marks {
    marks: Vec<bool>,
}

impl Model for Marks {
    ghost use Rattle.std.specs.Prelude.{Bool, List};
    ghost use Rattle.tile_store.specs.Marks.{AreMarks};

    ghost Value = { List Bool };

    ghost view = { λ m. m.marks.items };

    ghost invariant = { λ m. AreMarks m.marks.items };
}

impl Marks {
    /// No file is marked.
    pub(crate) fn new(alloc: Global) -> Result<Marks, NoMemory> {
        Ok(Marks {
            marks: vec![in alloc; false; FILES]?,
        })
    }

    /// Whether a file is marked.
    pub(crate) fn has(&self, file: u32) -> bool
        ensures { result ≡ is_marked file self.now }
    {
        match self.marks.get(file as usize) {
            Some(mark) => *mark,
            None => false,
        }
    }

    /// Marks the file of a key.
    #[tactic(auto, using(crate::proofs::MarkLemmas::file_low))]
    pub(crate) fn mark(&mut self, key: TileKey)
        ensures marks { self.new ≡ marked (file_of key) self.old }
        ensures in_range { file_of key < length self.old }
    {
        self.marks[key.file() as usize] = true;
    }

    /// Clears the mark of a file if none of its tiles stays.
    pub(crate) fn keep(&mut self, file: u32, stays: bool)
        ensures { self.new ≡ if stays then self.old else unmarked file self.old }
    {
        if !stays && (file as usize) < self.marks.len() {
            self.marks[file as usize] = false;
        }
    }
}
