//! A handle: a file of the caller at one generation.
ghost use Rattle.std.specs.Prelude.{◌≡◌, ◌≤◌};
ghost use Rattle.tex_world.specs.World.{last_generation};
ghost use Rattle.supplied_tap.specs.Truth.{IsTrueLook};
ghost use Rattle.supplied_tap.specs.SuppliedWorld.{handle_in_range};

use crate::supply::FileVersion;
use crate::world::SuppliedWorld;
use tex_world::TapHandle;

/// A file at one generation, with its length. The caller keeps what is really open.
#[derive(Drop)]
pub struct SuppliedHandle {
    file: u32,
    generation: u32,
    len: u64,
    ghost low: { 1 ≤ generation },
    ghost high: { generation ≤ last_generation },
    ghost told: { IsTrueLook file generation len },
}

impl SuppliedHandle {
    /// A handle of a file in the generation that was supplied.
    pub(crate) fn of(look: FileVersion) -> SuppliedHandle
        ensures file { result.file ≡ look.file }
        ensures generation { result.generation ≡ look.generation }
        ensures len { result.len ≡ look.len }
    {
        SuppliedHandle {
            file: look.file,
            generation: look.generation,
            len: look.len,
        }
    }

    /// The file, generation and length of this handle.
    pub(crate) fn look(&self) -> FileVersion
        ensures file { result.file ≡ self.now.file }
        ensures generation { result.generation ≡ self.now.generation }
        ensures len { result.len ≡ self.now.len }
    {
        FileVersion {
            file: self.file,
            generation: self.generation,
            len: self.len,
        }
    }
}

impl TapHandle for SuppliedHandle {
    type W = SuppliedWorld;

    ghost use Rattle.supplied_tap.specs.SuppliedHandle.{handle_named};

    ghost named = { handle_named };

    fn file(&self) -> u32 {
        self.file
    }

    fn generation(&self) -> u32 {
        self.generation
    }

    fn len(&self) -> u64 {
        self.len
    }

    ghost honest = { λ h. handle_in_range (handle_named h) h.low h.high h.told };
}
