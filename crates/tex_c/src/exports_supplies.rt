//! The calls for C that supply what a call needs, and the buffers for it.
ghost use Rattle.std.specs.Prelude.{◌≡◌, length, IfSome, IsNone, IsSome, IsSomeAnd};
ghost use Rattle.supplied_client.specs.Calls.{Hands};
ghost use Rattle.supplied_client.specs.Supplies.{KeepsClient, SaysLook, SaysLooks, SaysBytes};
ghost use Rattle.supplied_client.specs.Supplies.{SaysRows, SaysFault};
ghost use Rattle.tex_c.specs.Exports.{HasBytes, IsLent};
ghost use Rattle.supplied_tap.specs.Supply.{FitsLook, FitsBytes, FitsRows};
ghost use Rattle.supplied_tap.specs.Truth.{IsTrueLook, AreTrueLooks, AreTrueBytes, AreTrueRows};

use crate::held::Held;
use crate::room::Room;
use std::alloc::Global;
use supplied_client::{ANSWERED, NO_MEMORY};
use supplied_tap::{RowsAt, Seen};

/// Supplies the generation and the length of a file.
#[unsafe(no_mangle)]
pub extern "C" fn tex_c_supply_look(
    from: Held,
    to: &mut Held,
    file: u32,
    generation: u32,
    len: u64,
) -> u32
    requires from { IsSome from.value }
    requires told { IfSome from.value (λ old. FitsLook old.tap.need file generation
        → IsTrueLook file generation len) }
    ensures { Hands from.value to.new.value (λ old new.
        SaysLook file generation len result old new) }
{
    let mut client = from.into_box();
    let code = client.supply_look(file, generation, len);
    *to = Held::of(client);
    code
}

/// Supplies several files' generations and lengths. The first must be the one needed; the call may
/// need the others next.
#[unsafe(no_mangle)]
pub extern "C" fn tex_c_supply_looks(from: Held, to: &mut Held, looks: &[Seen]) -> u32
    requires from { IsSome from.value }
    requires told { AreTrueLooks looks.now }
    ensures { Hands from.value to.new.value (λ old new.
        SaysLooks looks.now result old new) }
{
    let mut client = from.into_box();
    let code = client.supply_looks(looks);
    *to = Held::of(client);
    code
}

/// Makes a buffer of `size` bytes and returns where its bytes begin. The caller fills it and hands
/// it back with a supply or by `tex_c_give_back`.
#[unsafe(no_mangle)]
pub extern "C" fn tex_c_room(
    alloc: Global,
    from: Held,
    to: &mut Held,
    size: usize,
    room: &mut Room,
    bytes: &mut *mut u8,
) -> u32
    requires from { IsSome from.value }
    requires none { IsNone room.old.value }
    ensures same { Hands from.value to.new.value KeepsClient }
    ensures ok { result ≡ 0 → IsSomeAnd room.new.value (IsLent size bytes.new) }
    ensures err { ¬ (result ≡ 0) → IsNone room.new.value }
{
    let mut client = from.into_box();
    let made = client.room(size);
    *to = Held::of(client);
    let Some(mut made) = made else {
        return NO_MEMORY;
    };
    let start = made.items.as_mut_ptr();
    match Box::new(alloc, made) {
        Ok(made) => {
            *bytes = start;
            *room = Room::of(made);
            ANSWERED
        }
        Err(_) => NO_MEMORY,
    }
}

/// Takes back a buffer that is not needed.
#[unsafe(no_mangle)]
pub extern "C" fn tex_c_give_back(from: Held, to: &mut Held, room: Room)
    requires from { IsSome from.value }
    requires room { IsSome room.value }
    ensures { Hands from.value to.new.value KeepsClient }
{
    let mut client = from.into_box();
    client.give_back(room.into_bytes());
    *to = Held::of(client);
}

/// Supplies bytes of one generation of a file, from a place on. The buffer is taken even if the
/// supply is not accepted.
#[unsafe(no_mangle)]
pub extern "C" fn tex_c_supply_bytes(
    from: Held,
    to: &mut Held,
    file: u32,
    generation: u32,
    at: u64,
    room: Room,
) -> u32
    requires from { IsSome from.value }
    requires room { IsSome room.value }
    requires told { IfSome from.value (λ old. IfSome room.value (λ b.
        FitsBytes old.tap.need file generation at (length b.items.items)
        → AreTrueBytes file generation at b.items.items)) }
    ensures { Hands from.value to.new.value (λ old new. HasBytes room.value (λ bytes.
        SaysBytes file generation at bytes result old new)) }
{
    let mut client = from.into_box();
    let code = client.supply_bytes(file, generation, at, room.into_bytes());
    *to = Held::of(client);
    code
}

/// Supplies rows of one generation of a file. The buffer is taken even if they are not accepted.
#[unsafe(no_mangle)]
pub extern "C" fn tex_c_supply_rows(from: Held, to: &mut Held, place: &RowsAt, room: Room) -> u32
    requires from { IsSome from.value }
    requires room { IsSome room.value }
    requires told { IfSome from.value (λ old. IfSome room.value (λ b.
        FitsRows old.tap.need place.now (length b.items.items)
        → AreTrueRows place.now b.items.items)) }
    ensures { Hands from.value to.new.value (λ old new. HasBytes room.value (λ bytes.
        SaysRows place.now bytes result old new)) }
{
    let mut client = from.into_box();
    let code = client.supply_rows(*place, room.into_bytes());
    *to = Held::of(client);
    code
}

/// Says that what the call needs cannot be read. The call then fails.
#[unsafe(no_mangle)]
pub extern "C" fn tex_c_supply_fault(from: Held, to: &mut Held) -> u32
    requires from { IsSome from.value }
    ensures { Hands from.value to.new.value (λ old new. SaysFault result old new) }
{
    let mut client = from.into_box();
    let code = client.supply_fault();
    *to = Held::of(client);
    code
}
