//! A tap: how one thread opens and reads files, as a trait.
ghost use Rattle.std.specs.Prelude.{◌≡◌, ◌+◌, ◌≤◌, length, slice_index, IfOk, IfErr, OnOk};
ghost use Rattle.std.specs.List.{EachIndex};
ghost use Rattle.std.specs.Option.{ForSome};
ghost use Rattle.tex_world.specs.Counts.{Rises};
ghost use Rattle.tex_world.specs.World.{IsFile, IsReal};
ghost use Rattle.tex_world.specs.Tap.{Named, IsHandle, IsLeast, TapState, Opens, OpenCause};
ghost use Rattle.tex_world.specs.Tap.{AfterOpen, AfterNewest, ReadCause, AfterRead};
ghost use Rattle.tex_world.specs.Tap.{AreRows, HoldsRows};

use crate::fault::{Failed, OpenError, ReadError};
use crate::world::World;
use std::alloc::Global;

/// An open file at one generation.
pub trait TapHandle {
    type W: World;

    /// The file, the generation and the number of bytes.
    ghost named: { Self → Named };

    /// The number of the file.
    fn file(&self) -> u32
        ensures { result ≡ (named self.now).file };

    /// The generation whose bytes it reads, 1 to 1048575.
    fn generation(&self) -> u32
        ensures { result ≡ (named self.now).generation };

    /// The number of bytes of that generation.
    fn len(&self) -> u64
        ensures { result ≡ (named self.now).len };

    /// The generation exists and, if the world is modelled, the length is that of its bytes.
    ghost honest: { (handle : Self) → IsHandle Self.W.files (named handle) };
}

/// The object through which one thread opens and reads files.
pub trait Tap {
    type W: World;

    type Handle: TapHandle<W = Self::W> + Drop;

    /// Its counts of I/O errors, calls, opens, asks, moves and lost generations, and the last
    /// answer of `newest`.
    ghost state: { Self → TapState };

    /// Opens a file at a generation of at least `least`; 0 allows any.
    fn open(&mut self, alloc: Global, file: u32, least: u32) -> Result<Self::Handle, OpenError>
        requires file { IsFile Self.W.files file }
        requires least { IsLeast Self.W.files file least }
        ensures ok { IfOk result (λ h. Opens Self.W.files file least (Self.Handle.named h)) }
        ensures cause { IfErr result (OpenCause (state self.old) (state self.new)) }
        ensures counts { AfterOpen Self.Handle.named least
            (state self.old) (state self.new) result };

    /// Asks for the newest generation of a file, which is at least `least`.
    fn newest(&mut self, file: u32, least: u32) -> Result<u32, Failed>
        requires file { IsFile Self.W.files file }
        requires least { IsLeast Self.W.files file least }
        ensures real { IfOk result (IsReal Self.W.files file) }
        ensures least { IfOk result (λ g. least ≤ g) }
        ensures cause { IfErr result (λ _. Rises (state self.old).faults (state self.new).faults) }
        ensures counts { AfterNewest file (state self.old) (state self.new) result };

    /// Fills the whole buffer with bytes of the handle's generation at `at`. After an error the
    /// buffer's content is undefined.
    fn read_at(&mut self, h: &mut Self::Handle, at: u64, buf: &mut [u8]) -> Result<(), ReadError>
        requires { at + length buf.old ≤ (Self.Handle.named h.old).len }
        ensures bytes { OnOk result (ForSome
            (Self.W.files.held (Self.Handle.named h.old).file (Self.Handle.named h.old).generation)
            (λ bytes. EachIndex buf.new (λ k.
            slice_index buf.new k ≡ slice_index bytes (at + k)))) }
        ensures handle { Self.Handle.named h.new ≡ Self.Handle.named h.old }
        ensures cause { IfErr result
            (ReadCause Self.W.files (Self.Handle.named h.old) (state self.old) (state self.new)) }
        ensures counts { AfterRead (state self.old) (state self.new) result };

    /// Fills the whole buffer with rows of the handle's generation. The first is at `at`, and each
    /// begins `stride` bytes after the one before. It counts as one call; `read_at` is the case of
    /// a single row. After an error the buffer's content is undefined.
    fn read_rows(
        &mut self,
        h: &mut Self::Handle,
        at: u64,
        stride: u64,
        row: usize,
        buf: &mut [u8],
    ) -> Result<(), ReadError>
        requires { AreRows at stride row (length buf.old) (Self.Handle.named h.old).len }
        ensures bytes { OnOk result (ForSome
            (Self.W.files.held (Self.Handle.named h.old).file (Self.Handle.named h.old).generation)
            (λ bytes. HoldsRows bytes at stride row buf.new)) }
        ensures handle { Self.Handle.named h.new ≡ Self.Handle.named h.old }
        ensures cause { IfErr result
            (ReadCause Self.W.files (Self.Handle.named h.old) (state self.old) (state self.new)) }
        ensures counts { AfterRead (state self.old) (state self.new) result };
}
