//! The entries of a directory that matter: the first of each known tag.

ghost use Rattle.std.specs.Prelude.{◌≡◌, ℕ, ◌+◌, ◌*◌, ◌^◌, ◌<◌, ◌≤◌, List, length};
ghost use Rattle.std.specs.Prelude.{slice_index_or, Option, IsTrue, if◌then◌else◌, ◌==◌, Bool};
ghost use Rattle.std.specs.Option.{option_or};
ghost use Rattle.tiff_format.specs.Field.{field_place};
ghost use Rattle.tiff_format.specs.Bytes.{IsPartAt};
ghost use Rattle.tiff_format.specs.declared.form.Form.{Form};
ghost use Rattle.tiff_format.specs.Form.{entry_bytes};
ghost use Rattle.tiff_entries.specs.Entries.{Covers, IsKept, is_known, noted, tag_count};
ghost use Rattle.std.specs.Prelude.{find, not, [], ◌∷◌};
ghost use Rattle.std.specs.List.{list_all};
ghost use Rattle.tiff_format.specs.Field.{has_field};
ghost use Rattle.tiff_format.specs.Block.{is_tiled};
ghost use Rattle.tiff_format.specs.DirectoryFault.{is_misshapen, missing_fault, shape_fault};
ghost use Rattle.tiff_entries.specs.Entries.{entries_fault};
ghost use Rattle.tiff_entries.specs.Calls.{OfEntries, Tests};

use crate::entry::Entry;
use crate::place::FilePlace;
use crate::tag::{
    STRIPPED_READ, STRIPPED_REQUIRED, TAG_COUNT, TAGS, TILE_WIDTH, TILED_READ, TILED_REQUIRED,
};
use tiff_format::TiffFault;

/// The first entry of each tag, at the tag's index in `TAGS`.
#[derive(Clone, Copy)]
pub struct Found {
    pub entries: [Option<Entry>; TAG_COUNT],
}

impl Found {
    /// No entry found yet.
    pub fn nothing() -> Found
        ensures { (form : Form) (bytes : List ℕ) (first : ℕ)
            → Covers form bytes first 0 result.entries }
    {
        Found {
            entries: [None; TAG_COUNT],
        }
    }

    /// Keeps an entry if it is the first with its tag.
    fn note(&mut self, tag: u16, entry: Entry)
        ensures { (t : ℕ) → t < tag_count → slice_index_or self.new.entries t None
            ≡ noted tag entry t (slice_index_or self.old.entries t None) }
    {
        for t in 0..TAG_COUNT {
            if tag == TAGS[t] {
                self.entries[t] = self.entries[t].or(Some(entry));
            }
        }
    }

    /// Keeps the first entry of each tag among the `more` entries in a buffer, which was read at
    /// `place`.
    pub fn scan(&mut self, place: FilePlace, part: &[u8], more: u64)
        requires long { entry_bytes place.form * more ≤ length part.now }
        requires low { place.at + length part.now < 2 ^ 64 }
        ensures { (bytes : List ℕ) (first done : ℕ)
            → place.at ≡ first + entry_bytes place.form * done → IsPartAt bytes place.at part.now
            → Covers place.form bytes first done self.old.entries
            → Covers place.form bytes first (done + more) self.new.entries }
    {
        for i in 0..more {
            let at = place.form.entry_bytes() * i;
            let raw = &part[at as usize..];
            let entry = Entry::from_bytes(place.behind(at), raw);
            self.note(place.form.short_at(raw, 0), entry);
        }
    }

    /// The first entry with a tag.
    pub fn entry(&self, tag: u16) -> Option<Entry>
        requires { IsTrue (is_known tag) }
        ensures { (bytes : List ℕ) → OfEntries self.now.entries bytes (λ form at.
            IsKept form bytes result (field_place form bytes at tag)) }
    {
        for t in 0..TAG_COUNT {
            if tag == TAGS[t] {
                return self.entries[t];
            }
        }
        None
    }

    /// Whether the directory has this tag.
    fn has(&self, tag: u16) -> bool
        requires { IsTrue (is_known tag) }
        ensures { (bytes : List ℕ) → OfEntries self.now.entries bytes (λ form at.
            result ≡ has_field form bytes at tag) }
    {
        self.entry(tag).is_some()
    }

    /// Whether the directory is tiled.
    pub fn is_tiled(&self) -> bool
        ensures { (bytes : List ℕ) → OfEntries self.now.entries bytes (λ form at.
            result ≡ is_tiled form bytes at) }
    {
        self.has(TILE_WIDTH)
    }

    /// The first tag of a list that the directory lacks.
    fn first_absent(&self, wanted: &[u16]) -> Option<u16>
        requires { IsTrue (list_all is_known wanted.now) }
        ensures { (bytes : List ℕ) → OfEntries self.now.entries bytes (λ form at.
            result ≡ find (λ tag. not (has_field form bytes at tag)) wanted.now) }
    {
        for tag in wanted {
            if !self.has(*tag) {
                return Some(*tag);
            }
        }
        None
    }

    /// Whether the directory has this tag, but its values cannot be read in a file of this length.
    fn is_misshapen(&self, tag: u16, file: u64) -> bool
        requires { IsTrue (is_known tag) }
        ensures { (bytes : List ℕ) → OfEntries self.now.entries bytes (λ form at.
            length bytes ≡ file → result ≡ is_misshapen form bytes at tag) }
    {
        match self.entry(tag) {
            Some(entry) => !entry.has_shape(file),
            None => false,
        }
    }

    /// The first tag of a list whose values cannot be read in a file of this length.
    fn first_misshapen(&self, wanted: &[u16], file: u64) -> Option<u16>
        requires { IsTrue (list_all is_known wanted.now) }
        ensures { (bytes : List ℕ) → OfEntries self.now.entries bytes (λ form at.
            length bytes ≡ file → result ≡ find (is_misshapen form bytes at) wanted.now) }
    {
        for tag in wanted {
            if self.is_misshapen(*tag, file) {
                return Some(*tag);
            }
        }
        None
    }

    /// Checks that the directory has the fields that it must have.
    fn test_required(&self) -> Result<(), TiffFault>
        ensures { (bytes : List ℕ) → OfEntries self.now.entries bytes (λ form at.
            Tests (missing_fault form bytes at) (λ _. Unit {0}) result) }
    {
        let absent = if self.is_tiled() {
            self.first_absent(&TILED_REQUIRED)
        } else {
            self.first_absent(&STRIPPED_REQUIRED)
        };
        match absent {
            None => Ok(()),
            Some(tag) => Err(TiffFault::FieldMissing {
                tag: u32::from(tag),
            }),
        }
    }

    /// Checks that the fields that are read have a readable form, in a file of this length.
    fn test_shapes(&self, file: u64) -> Result<(), TiffFault>
        ensures { (bytes : List ℕ) → OfEntries self.now.entries bytes (λ form at.
            length bytes ≡ file → Tests (shape_fault form bytes at) (λ _. Unit {0}) result) }
    {
        let misshapen = if self.is_tiled() {
            self.first_misshapen(&TILED_READ, file)
        } else {
            self.first_misshapen(&STRIPPED_READ, file)
        };
        match misshapen {
            None => Ok(()),
            Some(tag) => Err(TiffFault::FieldShape {
                tag: u32::from(tag),
            }),
        }
    }

    /// Checks that the directory has the fields that it must have, and then that those that are
    /// read have a readable form.
    pub fn test_fields(&self, file: u64) -> Result<(), TiffFault>
        ensures { (bytes : List ℕ) → OfEntries self.now.entries bytes (λ form at.
            length bytes ≡ file → Tests (entries_fault form bytes at) (λ _. Unit {0}) result) }
    {
        self.test_required()?;
        self.test_shapes(file)?;
        Ok(())
    }
}
