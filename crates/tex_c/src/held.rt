//! The handle that C code keeps: a pointer to its client.
ghost use Rattle.std.specs.Prelude.{◌≡◌, Option, Some, IsSome};
ghost use Rattle.supplied_client.specs.Client.{ClientState};
ghost use Rattle.tex_c.specs.Held.{held_coded, held_owns};

use crate::parts::BoxParts;
use std::alloc::Global;
use std::marker::Model;
use supplied_client::Client;

/// A C handle: empty, or owning a client. Calls take it by value and return it through a pointer.
/// Dropping it frees nothing: a client is freed only after `into_box`.
#[repr(C)]
#[derive(Drop)]
pub struct Held {
    at: *mut u8,
    alloc: Global,
    pub ghost value: { Option ClientState } by { held_coded },
}

impl Model for Held {
    ghost also_owns = { λ h. held_owns h.alloc h.at h.value };
}

impl Held {
    /// A handle that owns this client.
    pub(crate) fn of(client: Box<Client>) -> Held
        ensures { result.value ≡ Some client.value }
    {
        Held::of_parts(BoxParts::of(client))
    }

    /// Takes the client out of its handle.
    pub(crate) fn into_box(self) -> Box<Client>
        requires { IsSome self.value }
        ensures { self.value ≡ Some result.value }
    {
        self.into_parts().into_box()
    }

    fn of_parts(parts: BoxParts<Client, Global>) -> Held
        ensures { result.value ≡ Some parts.value }
    {
        let BoxParts { ptr, alloc } = parts;
        Held {
            at: ptr as *mut u8,
            alloc,
        }
    }

    fn into_parts(self) -> BoxParts<Client, Global>
        requires { IsSome self.value }
        ensures { self.value ≡ Some result.value }
    {
        let Held { at, alloc } = self;
        BoxParts {
            ptr: at as *mut Client,
            alloc,
        }
    }
}

unsafe impl Send for Held {}
