//! A file of the file system, open at one generation.
ghost use Rattle.std.specs.Prelude.{◌≡◌, ◌<◌, ◌≤◌};
ghost use Rattle.tex_world.specs.World.{last_generation};
ghost use Rattle.host_folder.specs.RealWorld.{handle_in_range};

use crate::stamp::FileStatus;
use crate::world::RealWorld;
use std::fs::File;
use tex_world::TapHandle;

/// An open file, with its length and its stamp in this generation.
#[derive(Drop)]
pub struct RealHandle {
    file: u32,
    generation: u32,
    look: FileStatus,
    source: File,
    ghost low: { 1 ≤ generation },
    ghost high: { generation ≤ last_generation },
}

impl RealHandle {
    /// A handle of an open file, which was seen in this way at this generation.
    pub(crate) fn new(file: u32, generation: u32, look: FileStatus, source: File) -> Self
        requires low { 1 ≤ generation }
        requires high { generation ≤ last_generation }
        ensures file { result.file ≡ file }
        ensures generation { result.generation ≡ generation }
        ensures look { result.look ≡ look }
    {
        RealHandle {
            file,
            generation,
            look,
            source,
        }
    }

    /// The stamp of the handle's generation.
    pub(crate) fn stamp(&self) -> u64
        ensures { result ≡ self.now.look.stamp }
    {
        self.look.stamp
    }

    /// The open file.
    pub(crate) fn source(&self) -> &File
        ensures { result.now ≡ self.now.source }
    {
        &self.source
    }
}

impl TapHandle for RealHandle {
    type W = RealWorld;

    ghost use Rattle.host_folder.specs.RealHandle.{handle_named};

    ghost named = { handle_named };

    fn file(&self) -> u32 {
        self.file
    }

    fn generation(&self) -> u32 {
        self.generation
    }

    fn len(&self) -> u64 {
        self.look.len
    }

    ghost honest = { λ h. handle_in_range (handle_named h) h.low h.high };
}
