//! Texels in slots: call by call over files in memory, and with two threads on the same slots.
ghost use Rattle.std.specs.Prelude.{◌≡◌, ◌/◌, ◌<◌};
ghost use Rattle.std.specs.Option.{ForSome};
ghost use Rattle.tex_world.specs.World.{IsFile};
ghost use Rattle.tile_load.specs.Load.{IsLayoutOf};

use crate::slots::Call::{Fill, Show};
use sample_folder::SampleFolder;
use std::alloc::Global;
use std::marker::PhantomData;
use std::test::Fail;
use std::thread;
use std::thread::Threads;
use tap_reader::TapReader;
use test_files::{Checks, Pictures, Planned, taps_of};
use tex_world::{Folder, Tap, TapHandle, World};
use tiff_dirs::read_dirs;
use tile_layout::Layout;
use tile_slots::{FillError, PartKey, Slots};

/// One generation of a file.
#[derive(Drop)]
struct Picture<W: World> {
    file: u32,
    generation: u32,
    layout: Layout,
    world: PhantomData<W>,
    ghost told: { ForSome (W.files.held file generation) (λ bytes. IsLayoutOf bytes layout) },
}

/// What a handle reads.
fn picture_of<T: Tap>(
    alloc: Global,
    tap: &mut T,
    handle: &mut T::Handle,
) -> Result<Picture<T::W>, Fail> {
    let (file, generation) = (handle.file(), handle.generation());
    let mut reader = TapReader { tap, handle };
    match read_dirs(alloc, &mut reader) {
        Ok(dirs) => Ok(Picture {
            file,
            generation,
            layout: Layout::of(dirs),
            world: PhantomData,
        }),
        Err(_) => Err("no picture".into()),
    }
}

/// A texel of level 0.
type Texel = (u32, u32);

/// The part that holds a texel.
fn key_of<W: World>(picture: &Picture<W>, texel: Texel) -> PartKey
    ensures file { result.file ≡ picture.now.file }
    ensures generation { result.generation ≡ picture.now.generation }
    ensures level { result.level ≡ 0 }
    ensures part { result.part ≡ texel.0 / 64 }
    ensures row { result.row ≡ texel.1 }
{
    PartKey {
        generation: picture.generation,
        file: picture.file,
        level: 0,
        part: texel.0 / 64,
        row: texel.1,
    }
}

/// Copies a texel from its slot, one sample for each element of `out`.
fn show<W: World>(slots: &Slots<W>, picture: &Picture<W>, texel: Texel, out: &mut [u16]) -> bool {
    let _stored = picture.layout.stored();
    let (width, height) = picture.layout.size(0);
    let channels = picture.layout.channels() as usize;
    if texel.0 >= width || texel.1 >= height || out.len() != channels {
        return false;
    }
    slots.show(key_of(picture, texel), texel.0, out)
}

/// What filling the slot of a texel answers. `None` if the handle is that of another image, or the
/// image lacks the texel.
fn fill<T: Tap>(
    slots: &Slots<T::W>,
    picture: &Picture<T::W>,
    (tap, handle): (&mut T, &mut T::Handle),
    texel: Texel,
    out: &mut [u16],
) -> Option<Result<bool, FillError>> {
    let _stored = picture.layout.stored();
    let (width, height) = picture.layout.size(0);
    let channels = picture.layout.channels() as usize;
    if texel.0 >= width || texel.1 >= height || out.len() != channels {
        return None;
    }
    if handle.file() != picture.file || handle.generation() != picture.generation {
        return None;
    }
    let key = key_of(picture, texel);
    Some(slots.fill(tap, handle, &picture.layout, key, texel.0, out))
}

/// A call and its answer: the sample that is shown or read of a texel.
#[derive(Clone, Copy)]
enum Call {
    Show(Texel, Option<u16>),
    Fill(Texel, Result<(bool, u16), FillError>),
}

/// Whether the call gives this answer. A call that shows or reads nothing must not change the
/// output.
fn is_answered<T: Tap>(
    slots: &Slots<T::W>,
    picture: &Picture<T::W>,
    (tap, handle): (&mut T, &mut T::Handle),
    call: Call,
) -> bool {
    let mut out = [777];
    match call {
        Call::Show(texel, wanted) => {
            let shown = show(slots, picture, texel, &mut out);
            shown == wanted.is_some() && out[0] == wanted.unwrap_or(777)
        }
        Call::Fill(texel, wanted) => {
            let filled = fill(slots, picture, (tap, handle), texel, &mut out);
            match wanted {
                Ok((put, sample)) => filled == Some(Ok(put)) && out[0] == sample,
                Err(error) => filled == Some(Err(error)) && out[0] == 777,
            }
        }
    }
}

/// A call with a name.
struct SlotCall {
    name: &'static str,
    call: Call,
}

/// Calls one after another on slots of one file.
struct SlotsCase {
    name: &'static str,
    slots: u32,
    file: u32,
    calls: &'static [SlotCall],
}

static CASES: &[SlotsCase] = &[
    // Texel (x, y) of `A.tif` is 16 * y + x. Reading its row 1 fails the first time, and its row 3
    // meets generation 2.
    SlotsCase {
        name: "one slot",
        slots: 1,
        file: 0,
        calls: &[
            SlotCall {
                name: "nothing is there yet",
                call: Show((2, 0), None),
            },
            SlotCall {
                name: "the first part",
                call: Fill((2, 0), Ok((true, 2))),
            },
            SlotCall {
                name: "another texel of it",
                call: Show((3, 0), Some(3)),
            },
            SlotCall {
                name: "another row",
                call: Show((0, 1), None),
            },
            SlotCall {
                name: "a read that fails",
                call: Fill((0, 1), Err(FillError::ReadFault)),
            },
            SlotCall {
                name: "the slot holds what it held",
                call: Show((3, 0), Some(3)),
            },
            SlotCall {
                name: "once more",
                call: Fill((0, 1), Ok((true, 16))),
            },
            SlotCall {
                name: "in place of the other row",
                call: Show((3, 0), None),
            },
            SlotCall {
                name: "the last texel",
                call: Show((3, 1), Some(19)),
            },
            SlotCall {
                name: "a read that meets a newer generation",
                call: Fill((1, 3), Err(FillError::Gone(2))),
            },
            SlotCall {
                name: "the slot holds what it held",
                call: Show((2, 1), Some(18)),
            },
        ],
    },
    SlotsCase {
        name: "no slot",
        slots: 0,
        file: 0,
        calls: &[
            SlotCall {
                name: "no slot",
                call: Show((2, 0), None),
            },
            SlotCall {
                name: "read, and put nowhere",
                call: Fill((2, 0), Ok((false, 2))),
            },
            SlotCall {
                name: "no slot holds it",
                call: Show((2, 0), None),
            },
        ],
    },
    // Texel (x, 0) of `B.tif` is x + 5 up to column 15, which is in the first tile. Column 16 is the
    // first byte of the second tile.
    SlotsCase {
        name: "two tiles",
        slots: 8,
        file: 3,
        calls: &[
            SlotCall {
                name: "of the second tile",
                call: Fill((17, 0), Ok((true, 11))),
            },
            SlotCall {
                name: "of the first one",
                call: Show((15, 0), Some(20)),
            },
            SlotCall {
                name: "of the second one",
                call: Show((16, 0), Some(10)),
            },
            SlotCall {
                name: "row 1",
                call: Fill((0, 1), Ok((true, 21))),
            },
            SlotCall {
                name: "row 0 has a slot of its own",
                call: Show((0, 0), Some(5)),
            },
        ],
    },
];

/// For tap 0 the first read of byte 126 of `A.tif` fails, and it meets generation 2 at byte 134.
const PLAN: &[Planned] = &[
    Planned::FailByte {
        tap: 0,
        file: 0,
        at: 126,
    },
    Planned::Rise {
        tap: 0,
        file: 0,
        at: 134,
        to: 2,
    },
];

/// Makes all calls through the first tap. The layout is read through the second.
fn check_calls<T: Tap>(
    alloc: Global,
    checks: &mut Checks,
    case: &SlotsCase,
    tap: &mut T,
    other: &mut T,
) -> Result<(), Fail>
    requires { IsFile T.W.files case.now.file }
{
    if case.slots > 8 {
        return Err("too many slots".into());
    }
    let Ok(mut handle) = tap.open(alloc, case.file, 0) else {
        return Err("not open".into());
    };
    let Ok(mut known) = other.open(alloc, case.file, 0) else {
        return Err("not open".into());
    };
    let picture = picture_of(alloc, other, &mut known)?;
    let slots = Slots::new(alloc, case.slots)?;
    for call in case.calls {
        checks.part(call.name);
        let answered = is_answered(&slots, &picture, (&mut *tap, &mut handle), call.call);
        checks.holds("the answer", answered);
    }
    Ok(())
}

#[test]
fn shows_and_fills_as_each_case_says(rt: HostRuntime) -> Result<(), Fail> {
    let mut checks = Checks::new();
    for case in CASES {
        checks.case(case.name);
        let mut taps = taps_of::<Pictures>(rt.alloc(), PLAN, 2)?;
        if let [first, second] = taps.as_mut_slice()
            && case.file < 4
        {
            check_calls(rt.alloc(), &mut checks, case, first, second)?;
        } else {
            return Err("no taps".into());
        }
    }
    checks.result()
}

/// The rounds of a thread, each of which makes one or two calls.
const ROUNDS: u64 = 1_000_000;

/// The number of rounds that a thread stays in one part.
const STAY: u64 = 8;

/// Sample c of texel (x, y) of the first sample file.
fn sample_of(x: u64, y: u64, c: u64) -> u64
    requires x { x < 1000 }
    requires y { y < 1000 }
    requires c { c < 3 }
{
    (7 * x + 13 * y + 29 * c) % 256
}

/// Whether these are the samples of a texel.
fn is_texel(out: [u16; 3], (x, y): Texel) -> bool {
    if x >= 256 || y >= 192 {
        return false;
    }
    let (x, y) = (u64::from(x), u64::from(y));
    u64::from(out[0]) == sample_of(x, y, 0)
        && u64::from(out[1]) == sample_of(x, y, 1)
        && u64::from(out[2]) == sample_of(x, y, 2)
}

/// The texel of a round: 24 rows of four parts each, one part after another.
fn texel_at(round: u64) -> Texel
    requires { round < 2000000 }
{
    let part = round / STAY;
    let x = part % 4 * 64 + round * 5 % 64;
    (x as u32, (part / 4 * 5 % 24) as u32)
}

/// Asks the slots for texels of the first sample file, and fills a slot if it shows nothing.
/// Returns the number of wrong texels.
fn wrong_texels<T: Tap + Drop>(
    slots: &Slots<T::W>,
    picture: &Picture<T::W>,
    mut tap: T,
    mut handle: T::Handle,
    first: u64,
) -> u64
    requires { first < 1000 }
{
    let mut wrong = 0u64;
    for round in 0..ROUNDS {
        let texel = texel_at(first + round);
        let mut out = [999; 3];
        let right = if show(slots, picture, texel, &mut out) {
            is_texel(out, texel)
        } else {
            let filled = fill(slots, picture, (&mut tap, &mut handle), texel, &mut out);
            matches!(filled, Some(Ok(_))) && is_texel(out, texel)
        };
        if !right {
            wrong = wrong.saturating_add(1);
        }
    }
    wrong
}

/// The number of wrong texels in two threads, the second of which is a row ahead.
fn wrong_in_two_threads<R: Threads, T: Tap + Send + Drop>(
    rt: &R,
    slots: &Slots<T::W>,
    picture: &Picture<T::W>,
    (tap, handle): (T, T::Handle),
    (other, second): (T, T::Handle),
) -> (u64, u64)
where
    T::Handle: Send,
    T::W: Send + Sync,
{
    thread::join(
        rt,
        move || wrong_texels(slots, picture, tap, handle, 0),
        move || wrong_texels(slots, picture, other, second, 32),
    )
}

#[test]
fn two_threads_see_no_wrong_texel(rt: HostRuntime) -> Result<(), Fail> {
    let alloc = rt.alloc();
    let mut folder = SampleFolder::new();
    let mut tap = folder.tap(alloc)?;
    let mut other = folder.tap(alloc)?;
    let mut handle = tap.open(alloc, 0, 0).map_err(|_e| "not open")?;
    let second = other.open(alloc, 0, 0).map_err(|_e| "not open")?;
    let picture = picture_of(alloc, &mut tap, &mut handle)?;
    let slots = Slots::new(alloc, 8)?;
    let wrong = wrong_in_two_threads(&rt, &slots, &picture, (tap, handle), (other, second));
    let mut checks = Checks::new();
    checks.equal("wrong texels of one thread", wrong.0, 0);
    checks.equal("wrong texels of the other", wrong.1, 0);
    checks.result()
}
