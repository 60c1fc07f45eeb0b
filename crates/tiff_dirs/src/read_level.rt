//! A level as it was read, before its strips or tiles are checked.

ghost use Rattle.std.specs.Prelude.{◌≡◌, length};
ghost use Rattle.tiff_format.specs.Block.{blocks_of};
ghost use Rattle.tiff_dirs.specs.Shape.{seen_shape};

use crate::shape::ReadShape;
use tiff_entries::FilePlace;
use tiff_format::{Dir, TiffFault};

/// A level whose strips or tiles have not been checked yet.
#[derive(Drop)]
pub struct ReadLevel {
    pub shape: ReadShape,
    pub offsets: Vec<u64>,
    /// The place of the next directory; 0 if none exists.
    pub next: FilePlace,
    ghost count_in: { length offsets.items ≡ blocks_of (seen_shape shape) },
}

impl ReadLevel {
    ghost use Rattle.std.specs.Prelude.{◌<◌, ◌≤◌, ◌^◌};
    ghost use Rattle.tiff_dirs.specs.ReadLevel.{seen_level, blocks_fault};
    ghost use Rattle.tiff_format.specs.Shown.{shown};
    ghost use Rattle.tiff_entries.specs.Calls.{Tests};

    /// The directory of this level, if all its strips and tiles lie in a file of this length.
    /// `number` is the level's number, for the fault.
    pub fn tested(self, number: u32, file: u64) -> Result<Dir, TiffFault>
        ensures { Tests (blocks_fault self.next.form file number (seen_level self))
            (λ dir. shown dir ≡ seen_level self) result }
    {
        let ReadLevel {
            shape,
            offsets,
            next,
        } = self;
        if let Some(index) = shape.first_outside(next.form, &offsets, file) {
            return Err(TiffFault::DataOutside {
                level: number,
                index,
            });
        }
        Ok(shape.dir(offsets))
    }
}
