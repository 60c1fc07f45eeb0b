//! Compares rectangles that were read at once with the plain reader, texel by texel.
ghost use Rattle.std.specs.Prelude.{◌≡◌, ◌<◌, None};
ghost use Rattle.tiff_format.specs.Fault.{first_fault as fault_of};
ghost use Rattle.tiff_format.specs.Level.{stored_levels as levels_in};

use crate::files::{
    EDGES, GAP, PLANES, SMALL, SMALL_BIG, STRIPS, TILED, TWO_CHANNELS, TWO_LEVELS, WHITE_WORDS,
    WIDE,
};
use crate::layouts::{Place, has_rect, layout_in};
use rect_read::read_rect;
use std::alloc::Global;
use std::test::Fail;
use test_files::Edit::Put;
use test_files::{Base, Checks, ImageFile, MemReader};
use tiff_format::Rect;
use tiff_plain::{directory_level, first_fault, sample_at, stored_levels};
use tile_layout::Layout;

/// Strips and tiles with 8 and 16 bits in both byte orders, one and several channels, WhiteIsZero,
/// edge tiles, a second level, planes, and BigTIFF.
static FILES: &[ImageFile] = &[
    SMALL,
    SMALL_BIG,
    TWO_LEVELS,
    WIDE,
    ImageFile {
        name: "BigTIFF of 16 bits, highest byte first",
        base: Base::WideBig,
        edits: &[Put(57, &[2]), Put(77, &[16])],
    },
    ImageFile {
        name: "BigTIFF, 5 by 4",
        base: Base::WideTwoLevels,
        edits: &[Put(36, &[5])],
    },
    WHITE_WORDS,
    TWO_CHANNELS,
    TILED,
    EDGES,
    STRIPS,
    GAP,
    PLANES,
];

/// Rectangles to read; only the part inside the level is read.
static PLACES: &[Place] = &[
    (0, 0, 3, 2),
    (0, 0, 4, 4),
    (1, 2, 3, 1),
    (1, 0, 2, 6),
    (3, 1, 1, 7),
    (14, 2, 20, 17),
    (0, 0, 80, 48),
    (15, 15, 3, 3),
    (62, 30, 5, 4),
    (79, 47, 2, 2),
    (0, 0, 0, 4),
    (5, 5, 4, 0),
];

/// The part of the places from `start` on that lies on a side of `size` places.
fn on_side(start: u32, count: u32, side: u64) -> (u32, u32) {
    let size = side.min(u64::from(u32::MAX)) as u32;
    let first = start.min(size);
    (first, count.min(size - first))
}

/// Compares a rectangle with the plain reader, sample by sample.
fn check_samples(
    checks: &mut Checks,
    bytes: &[u8],
    level: u32,
    rect: Rect,
    samples: &[u16],
    channels: u32,
)
    requires good { fault_of bytes.now ≡ None }
    requires stored { level < levels_in bytes.now }
{
    let mut at = 0u32;
    for sample in samples {
        let texel = at / channels.max(1);
        let x = rect.x.saturating_add(texel % rect.w.max(1));
        let y = rect.y.saturating_add(texel / rect.w.max(1));
        let wanted = sample_at(bytes, level, x, y, at % channels.max(1));
        checks.equal("a sample", u64::from(*sample), u64::from(wanted));
        at = at.saturating_add(1);
    }
}

/// Reads the part of a rectangle that lies on a level, and compares it with the plain reader.
fn check_rect(
    alloc: Global,
    checks: &mut Checks,
    bytes: &[u8],
    layout: &Layout,
    level: u32,
    place: Place,
) -> Result<(), Fail>
    requires good { fault_of bytes.now ≡ None }
    requires stored { level < levels_in bytes.now }
{
    let shape = directory_level(alloc, bytes, level)?.shape;
    let (left, top, width, height) = place;
    let (x, w) = on_side(left, width, shape.width);
    let (y, h) = on_side(top, height, shape.height);
    let rect = Rect { x, y, w, h };
    if !has_rect(layout, level, rect) {
        return Err("no such rectangle".into());
    }
    let Ok(samples) = read_rect(alloc, &mut MemReader::new(bytes, 0), layout, level, rect) else {
        return Err("not read".into());
    };
    let texels = u64::from(w) * u64::from(h);
    let count = texels.saturating_mul(shape.channels);
    checks.equal("samples", samples.len() as u64, count);
    let channels = shape.channels.min(8) as u32;
    check_samples(checks, bytes, level, rect, &samples, channels);
    Ok(())
}

/// Compares all rectangles of all levels of a file.
fn check_file(alloc: Global, checks: &mut Checks, bytes: &[u8]) -> Result<(), Fail> {
    let layout = layout_in(alloc, bytes)?;
    if first_fault(bytes).is_some() {
        return Err("a fault".into());
    }
    for level in 0..stored_levels(bytes) {
        for place in PLACES {
            check_rect(alloc, checks, bytes, &layout, level, *place)?;
        }
    }
    Ok(())
}

#[test]
fn agrees_with_the_plain_program(rt: HostRuntime) -> Result<(), Fail> {
    let mut checks = Checks::new();
    for file in FILES {
        checks.case(file.name);
        check_file(rt.alloc(), &mut checks, &file.bytes(rt.alloc())?)?;
    }
    checks.result()
}
