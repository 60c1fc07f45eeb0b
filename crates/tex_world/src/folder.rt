//! A folder of texture files, as a trait.
ghost use Rattle.std.specs.Prelude.{◌≡◌, IfOk, IfErr};
ghost use Rattle.tex_world.specs.Tap.{IsNew};
ghost use Rattle.tex_world.specs.Folder.{FolderState, IsFolder, EnterCause, AfterEnter};
ghost use Rattle.tex_world.specs.Folder.{AfterTap, AfterBack};

use crate::fault::{EnterError, NoMemory};
use crate::tap::Tap;
use crate::world::World;
use std::alloc::Global;

/// A folder of files. It makes the taps that read them.
pub trait Folder {
    type W: World;

    type Tap: Tap<W = Self::W>;

    /// Its counts of I/O errors, moves, taps made and taps given back, and the names and numbers
    /// found.
    ghost state: { Self → FolderState };

    /// Lists the folder with this path.
    fn enter(&mut self, alloc: Global, path: &str) -> Result<(), EnterError>
        ensures cause { IfErr result (EnterCause Self.W.files (state self.old) (state self.new)) }
        ensures after { AfterEnter path.now (state self.old) (state self.new) result };

    /// The number of files; 0 before the folder is entered.
    fn count(&self) -> u32
        ensures { result ≡ (state self.now).size };

    /// The number of the file with this name.
    fn find(&self, name: &str) -> Option<u32>
        ensures { result ≡ (state self.now).number_of name.now };

    /// Makes a tap for one worker. Taps are numbered from 0 in the order in which they are made.
    fn tap(&mut self, alloc: Global) -> Result<Self::Tap, NoMemory>
        ensures new { IfOk result (λ t. IsNew (Self.Tap.state t)) }
        ensures after { AfterTap (state self.old) (state self.new) result };

    /// Takes a tap back, and adds its counts of I/O errors and moves.
    fn back(&mut self, tap: Self::Tap)
        ensures { AfterBack (Self.Tap.state tap) (state self.old) (state self.new) };

    /// Which files the folder has once it is entered.
    ghost lawful: { (folder : Self) → IsFolder Self.W.files (state folder) };
}
