//! The samples of rectangles of levels, in two bytes each and in the size that they need, and the
//! number of reads that they take.
ghost use Rattle.std.specs.Prelude.{◌<◌};
ghost use Rattle.tile_layout.specs.Kept.{stored_count};
ghost use Rattle.tile_layout.specs.Pieces.{LiesOnLevel};

use crate::layouts::{Place, has_rect, layout_in, rect_of};
use crate::rect_cases::{CASES, RectCase, Wanted};
use rect_read::{RectError, RectSamples, read_rect, read_texels};
use std::alloc::{AllocError, Global};
use std::test::Fail;
use test_files::{Checks, Failed, MemReader};
use tiff_format::Rect;
use tile_layout::Layout;

/// The result of reading a rectangle.
#[derive(Drop)]
struct Taken {
    samples: Vec<u16>,
    /// The bytes per sample in memory.
    size: u64,
    /// The number of the read that failed, or 0.
    failed: u64,
    reads: u64,
    filled: u64,
}

/// The samples with two bytes each.
fn shorts_of(alloc: Global, texels: RectSamples) -> Result<Vec<u16>, AllocError> {
    match texels {
        RectSamples::Shorts(samples) => Ok(samples),
        RectSamples::Bytes(bytes) => {
            let mut samples = Vec::new(alloc);
            for byte in &bytes {
                samples.push(u16::from(*byte))?;
            }
            Ok(samples)
        }
    }
}

/// Reads a rectangle as numbers of two bytes.
fn read_shorts(
    alloc: Global,
    reader: &mut MemReader<'_>,
    layout: &Layout,
    level: u32,
    rect: Rect,
) -> Result<RectSamples, RectError<Failed>>
    requires stored { level < stored_count layout.now }
    requires inside { LiesOnLevel layout.now level rect }
{
    match read_rect(alloc, reader, layout, level, rect) {
        Ok(samples) => Ok(RectSamples::Shorts(samples)),
        Err(error) => Err(error),
    }
}

/// Reads the rectangle of a case. The read with the given number fails, if it is not 0.
fn taken_of(
    alloc: Global,
    bytes: &[u8],
    layout: &Layout,
    case: &RectCase,
    is_sized: bool,
    failing: u64,
) -> Result<Taken, Fail> {
    let rect = rect_of(case.place);
    if !has_rect(layout, case.level, rect) {
        return Err("no such rectangle".into());
    }
    let mut reader = MemReader::new(bytes, failing);
    let read = if is_sized {
        read_texels(alloc, &mut reader, layout, case.level, rect)
    } else {
        read_shorts(alloc, &mut reader, layout, case.level, rect)
    };
    let (texels, failed) = match read {
        Ok(texels) => (texels, 0),
        Err(RectError::Reader(Failed(read))) => (RectSamples::Bytes(Vec::new(alloc)), read),
        Err(_) => return Err("no memory".into()),
    };
    let size = match &texels {
        RectSamples::Bytes(_) => 1,
        RectSamples::Shorts(_) => 2,
    };
    Ok(Taken {
        samples: shorts_of(alloc, texels)?,
        size,
        failed,
        reads: reader.reads,
        filled: reader.filled,
    })
}

/// The sample k of a rectangle of `TILED`.
fn sample_of_tiles(place: Place, k: u64) -> u64 {
    sample_of_rows(place, k / 3, 100).saturating_add(k % 3 * 20000)
}

/// The first sample of texel k of a rectangle, if a texel is one more than the texel before it, and
/// a row `row` more than the row before it.
fn sample_of_rows((x, y, w, _): Place, k: u64, row: u64) -> u64 {
    let w = u64::from(w).max(1);
    let column = u64::from(x).saturating_add(k % w);
    let down = u64::from(y).saturating_add(k / w);
    down.saturating_mul(row).saturating_add(column)
}

fn check_samples(checks: &mut Checks, case: &RectCase, samples: &[u16]) {
    let mut k = 0u64;
    match case.samples {
        Wanted::These(wanted) => checks.samples("a sample", samples, wanted),
        Wanted::OfTiles => {
            for sample in samples {
                checks.equal(
                    "a sample",
                    u64::from(*sample),
                    sample_of_tiles(case.place, k),
                );
                k = k.saturating_add(1);
            }
        }
        Wanted::OfStrips => {
            for sample in samples {
                checks.equal(
                    "a sample",
                    u64::from(*sample),
                    sample_of_rows(case.place, k, 16),
                );
                k = k.saturating_add(1);
            }
        }
        Wanted::Any => {}
    }
}

/// Reads the rectangle of a case, and then again with each read failing in turn, which is the last
/// one. Returns its samples.
fn check_rect(
    alloc: Global,
    checks: &mut Checks,
    bytes: &[u8],
    layout: &Layout,
    case: &RectCase,
    is_sized: bool,
) -> Result<Vec<u16>, Fail> {
    for failing in 1..=case.reads {
        let taken = taken_of(alloc, bytes, layout, case, is_sized, failing)?;
        checks.equal("the read that fails", taken.failed, failing);
        checks.equal("reads up to the failing one", taken.reads, failing);
    }
    let taken = taken_of(alloc, bytes, layout, case, is_sized, 0)?;
    checks.equal("reads", taken.reads, case.reads);
    checks.equal(
        "bytes read",
        taken.filled,
        case.filled.unwrap_or(taken.filled),
    );
    checks.equal(
        "bytes per sample",
        taken.size,
        if is_sized { case.size } else { 2 },
    );
    check_samples(checks, case, &taken.samples);
    Ok(taken.samples)
}

// The layout is that of the whole file. What lies beyond its end counts as zero.
fn check_case(alloc: Global, checks: &mut Checks, case: &RectCase) -> Result<(), Fail> {
    let whole = case.file.bytes(alloc)?;
    let layout = layout_in(alloc, &whole)?;
    let bytes = &whole[..case.kept.min(whole.len())];
    checks.part("as shorts");
    let shorts = check_rect(alloc, checks, bytes, &layout, case, false)?;
    checks.part("in the size that they need");
    let sized = check_rect(alloc, checks, bytes, &layout, case, true)?;
    checks.samples("a sample that is a short", &sized, &shorts);
    Ok(())
}

#[test]
fn reads_rectangles(rt: HostRuntime) -> Result<(), Fail> {
    let mut checks = Checks::new();
    for case in CASES {
        checks.case(case.name);
        check_case(rt.alloc(), &mut checks, case)?;
    }
    checks.result()
}
