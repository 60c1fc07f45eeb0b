//! A buffer that C fills and hands back.
ghost use Rattle.std.specs.Prelude.{◌≡◌, Option, Some, IsSome};
ghost use Rattle.supplied_client.specs.declared.bytes.Bytes.{Bytes};
ghost use Rattle.tex_c.specs.Room.{room_coded, room_owns};

use crate::parts::BoxParts;
use std::alloc::Global;
use std::marker::Model;
use supplied_client::Bytes;

/// A buffer: empty, or bytes that belong to the caller until it hands them back. Dropping it frees
/// nothing: bytes are freed only after `into_box`.
#[repr(C)]
#[derive(Drop)]
pub struct Room {
    at: *mut u8,
    alloc: Global,
    pub ghost value: { Option Bytes } by { room_coded },
}

impl Model for Room {
    ghost also_owns = { λ r. room_owns r.alloc r.at r.value };
}

impl Room {
    /// A buffer that owns these bytes.
    pub(crate) fn of(bytes: Box<Bytes>) -> Room
        ensures { result.value ≡ Some bytes.value }
    {
        Room::of_parts(BoxParts::of(bytes))
    }

    /// Takes the bytes, still in their box, out of the buffer.
    pub(crate) fn into_box(self) -> Box<Bytes>
        requires { IsSome self.value }
        ensures { self.value ≡ Some result.value }
    {
        self.into_parts().into_box()
    }

    /// Takes the bytes out of the buffer and frees the box.
    pub(crate) fn into_bytes(self) -> Bytes
        requires { IsSome self.value }
        ensures { self.value ≡ Some result }
    {
        Box::into_inner(self.into_box())
    }

    fn of_parts(parts: BoxParts<Bytes, Global>) -> Room
        ensures { result.value ≡ Some parts.value }
    {
        let BoxParts { ptr, alloc } = parts;
        Room {
            at: ptr as *mut u8,
            alloc,
        }
    }

    fn into_parts(self) -> BoxParts<Bytes, Global>
        requires { IsSome self.value }
        ensures { self.value ≡ Some result.value }
    {
        let Room { at, alloc } = self;
        BoxParts {
            ptr: at as *mut Bytes,
            alloc,
        }
    }
}

unsafe impl Send for Room {}
