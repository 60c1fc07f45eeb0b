//! Lookups in fine coordinates, over given probes and over elliptical footprints: where they lie,
//! how much each probe counts, their values, and the texels that they visit. Worked out by hand
//! from docs/FILTERING.md.

use crate::picture::{Asked, Refused};
use std::alloc::Global;
use tex_aniso::{EllipseRequest, MAX_LINE_PROBES, ProbeLine, ellipse, ellipse_line, probes};
use texel_filter::Wrap::Clamp;
use texel_filter::{is_fine, texels_from_edge};
use tiff_format::MAX_SIDE;

/// A coordinate in 1/2^32 of the image, and where it lies in 1/65536 of a texel.
struct PlaceRow {
    coordinate: i64,
    side: u32,
    place: i64,
}

/// 4096.03 texels of 8192. 65537.2 of 131072. Just before the first texel, and 32768 images before
/// it.
static PLACES: &[PlaceRow] = &[
    PlaceRow {
        coordinate: 2147500032,
        side: 8192,
        place: 268437504,
    },
    PlaceRow {
        coordinate: 2147523648,
        side: 131072,
        place: 4295047296,
    },
    PlaceRow {
        coordinate: -1,
        side: 4,
        place: -1,
    },
    PlaceRow {
        coordinate: -140737488355328,
        side: 131072,
        place: -281474976710656,
    },
];

fn placed(row: &PlaceRow) -> Option<i64> {
    if row.side < 1 || row.side > MAX_SIDE || !is_fine(row.coordinate) {
        return None;
    }
    Some(texels_from_edge(row.coordinate, row.side))
}

#[test]
fn places_fine_coordinates(rt: HostRuntime) {
    for (number, row) in PLACES.iter().enumerate() {
        assert_eq!(rt; placed(row), Some(row.place), "row {number}");
    }
}

/// A footprint by its steps to the right and below, in 1/2^32 of the image, on a level 0 of w by h,
/// and its probes: their LOD, the step from one to the next, and the weights, up to the middle one.
struct FootprintRow {
    steps: (i64, i64, i64, i64),
    size: (u32, u32),
    max_probes: u32,
    lod: u32,
    step: (i64, i64),
    weights: &'static [u16],
}

/// A texel of an image that is 1024 wide.
const TEXEL: i64 = 4194304;

/// 20 texels by 5, and the same ellipse with the pixel grid turned. 16 texels by 1 with 15 probes
/// at most, and with 31. 8 by 2, mirrored. Round ones: 3 texels, none, and 9 by 8. 4 texels by 1 of
/// 4. One whose probes would lie more than 512 images apart. One whose step is 2^30 texels.
static FOOTPRINTS: &[FootprintRow] = &[
    FootprintRow {
        steps: (12 * TEXEL, 16 * TEXEL, -4 * TEXEL, 3 * TEXEL),
        size: (1024, 1024),
        max_probes: 16,
        lod: 147456,
        step: (3 * TEXEL, 4 * TEXEL),
        weights: &[97, 4565, 9173, 10709],
    },
    FootprintRow {
        steps: (4 * TEXEL, 12 * TEXEL, -12 * TEXEL, -11 * TEXEL),
        size: (1024, 1024),
        max_probes: 16,
        lod: 147456,
        step: (3 * TEXEL, 4 * TEXEL),
        weights: &[97, 4565, 9173, 10709],
    },
    FootprintRow {
        steps: (16 * TEXEL, 0, 0, TEXEL),
        size: (1024, 1024),
        max_probes: 15,
        lod: 34727,
        step: (6416832, 0),
        weights: &[687, 1935, 2991, 3855, 4527, 5007, 5295, 5391],
    },
    FootprintRow {
        steps: (16 * TEXEL, 0, 0, TEXEL),
        size: (1024, 1024),
        max_probes: 32,
        lod: 0,
        step: (TEXEL, 0),
        weights: &[
            6, 354, 858, 1314, 1722, 2082, 2394, 2658, 2874, 3042, 3162, 3234, 3258,
        ],
    },
    FootprintRow {
        steps: (0, 2 * TEXEL, 8 * TEXEL, 0),
        size: (1024, 1024),
        max_probes: 16,
        lod: 65536,
        step: (2 * TEXEL, 0),
        weights: &[97, 4565, 9173, 10709],
    },
    FootprintRow {
        steps: (3 * TEXEL, 0, 0, 3 * TEXEL),
        size: (1024, 1024),
        max_probes: 16,
        lod: 98304,
        step: (0, 0),
        weights: &[1],
    },
    FootprintRow {
        steps: (0, 0, 0, 0),
        size: (1024, 1024),
        max_probes: 16,
        lod: 0,
        step: (0, 0),
        weights: &[1],
    },
    FootprintRow {
        steps: (9 * TEXEL, 0, 0, 8 * TEXEL),
        size: (1024, 1024),
        max_probes: 16,
        lod: 196608,
        step: (0, 0),
        weights: &[1],
    },
    FootprintRow {
        steps: (4294967296, 0, 0, 1073741824),
        size: (4, 4),
        max_probes: 16,
        lod: 0,
        step: (1073741824, 0),
        weights: &[97, 4565, 9173, 10709],
    },
    FootprintRow {
        steps: (35184372088832, 0, 0, 32768),
        size: (1, 131072),
        max_probes: 16,
        lod: 624550,
        step: (0, 0),
        weights: &[1],
    },
    FootprintRow {
        steps: (35184372088832, 0, 0, 35184372088832),
        size: (131072, 131072),
        max_probes: 16,
        lod: 1966080,
        step: (0, 0),
        weights: &[1],
    },
];

// The footprint of a row, with its middle at (s, t).
fn footprint(row: &FootprintRow, s: i64, t: i64) -> EllipseRequest {
    let (dsdx, dtdx, dsdy, dtdy) = row.steps;
    EllipseRequest {
        s,
        t,
        dsdx,
        dtdx,
        dsdy,
        dtdy,
        max_probes: row.max_probes,
        swrap: Clamp,
        twrap: Clamp,
        nch: 2,
    }
}

fn line_of(row: &FootprintRow) -> Option<ProbeLine> {
    let (w, h) = row.size;
    let request = footprint(row, 0, 0);
    if w < 1 || w > MAX_SIDE || h < 1 || h > MAX_SIDE || !request.is_valid() {
        return None;
    }
    Some(ellipse_line(&request, w, h))
}

// Whether the probes are those of the row: the weights are the same on both sides, and the first
// probe lies as many steps before the middle, which is at (0, 0).
fn is_line(line: &ProbeLine, row: &FootprintRow) -> bool {
    let sides = row.weights.len().saturating_sub(1);
    let (ds, dt) = row.step;
    let steps = i64::try_from(sides).unwrap_or(0);
    line.lod == row.lod
        && line.count as usize == 2usize.saturating_mul(sides).saturating_add(1)
        && (line.ds, line.dt) == row.step
        && (line.s, line.t)
            == (
                steps.wrapping_mul(ds).wrapping_neg(),
                steps.wrapping_mul(dt).wrapping_neg(),
            )
        && line.weights.starts_with(row.weights)
        && line
            .weights
            .iter()
            .skip(sides)
            .zip(row.weights.iter().rev())
            .all(|(weight, wanted)| *weight == *wanted)
}

#[test]
fn plans_footprints(rt: HostRuntime) {
    for (number, row) in FOOTPRINTS.iter().enumerate() {
        let line = line_of(row);
        assert!(rt;
            line.is_some_and(|line| is_line(&line, row)),
            "row {number}: {line:?}"
        );
    }
}

/// Given probes on the picture, by their first place and step in 1/2^32 of the image: the value of
/// the first channel, and the number of texels that are visited.
struct LineRow {
    first: (i64, i64),
    step: (i64, i64),
    lod: u32,
    weights: &'static [u16],
    value: u16,
    visits: usize,
}

/// Weights 1, 2, 1 of 6296.5, 6553.5 and 6810.5. Four alike between two levels: 1156.5, 4433.25,
/// 8802.25 and 12079. Weights of 0, whose probes are visited too. Weights whose sums need more than
/// 64 bits.
static LINES: &[LineRow] = &[
    LineRow {
        first: (1073741824, 2147483648),
        step: (1073741824, 0),
        lod: 0,
        weights: &[1, 2, 1],
        value: 6554,
        visits: 12,
    },
    LineRow {
        first: (536870912, 536870912),
        step: (1073741824, 1073741824),
        lod: 32768,
        weights: &[1, 1, 1, 1],
        value: 6618,
        visits: 32,
    },
    LineRow {
        first: (536870912, 536870912),
        step: (1073741824, 0),
        lod: 0,
        weights: &[1, 0, 0, 65535],
        value: 771,
        visits: 16,
    },
    LineRow {
        first: (536870912, 536870912),
        step: (1073741824, 0),
        lod: 0,
        weights: &[65535, 65535],
        value: 129,
        visits: 8,
    },
];

fn given(row: &LineRow) -> ProbeLine {
    let mut weights = [0; MAX_LINE_PROBES];
    for (weight, given) in weights.iter_mut().zip(row.weights) {
        *weight = *given;
    }
    ProbeLine {
        s: row.first.0,
        t: row.first.1,
        ds: row.step.0,
        dt: row.step.1,
        lod: row.lod,
        count: u32::try_from(row.weights.len()).unwrap_or(0),
        weights,
        swrap: Clamp,
        twrap: Clamp,
        nch: 2,
    }
}

// The lookup goes as its row says, also where visit `fails`, counted from 1, is refused.
fn is_so(alloc: Global, row: &LineRow, fails: usize) -> bool {
    let line = given(row);
    let mut asked = Asked::new(alloc, fails);
    let mut out = [7; 2];
    if !line.is_valid() || line.nch != 2 {
        return false;
    }
    let answer = probes(&mut asked, &line, &mut out);
    let visits = asked.visits.len();
    if fails == 0 {
        answer == Ok(()) && out == [row.value, 0] && visits == row.visits
    } else {
        answer == Err(Refused::Here) && out == [7; 2] && visits == fails - 1
    }
}

#[test]
fn looks_up_given_probes(rt: HostRuntime) {
    for (number, row) in LINES.iter().enumerate() {
        for fails in 0..=row.visits {
            assert!(rt;
                is_so(rt.alloc(), row, fails),
                "row {number}, refused at {fails}"
            );
        }
    }
}

#[test]
fn refuses_lines_out_of_range(rt: HostRuntime) {
    let good = given(&LINES[0]);
    assert!(rt; good.is_valid());
    assert!(rt; !ProbeLine { count: 0, ..good }.is_valid());
    assert!(rt; !ProbeLine { count: 33, ..good }.is_valid());
    assert!(rt; !ProbeLine { nch: 9, ..good }.is_valid());
    assert!(rt;
        !ProbeLine {
            weights: [0; MAX_LINE_PROBES],
            ..good
        }
        .is_valid()
    );
    assert!(rt;
        !ProbeLine {
            s: 140737488355328,
            ..good
        }
        .is_valid()
    );
    assert!(rt;
        !ProbeLine {
            dt: 70368744177664,
            ..good
        }
        .is_valid()
    );
}

// 6293 beside the edge, and 6553.5 in the middle, of the footprint of 4 texels by 1.
#[test]
fn looks_up_footprints_as_ellipses(rt: HostRuntime) {
    for (s, value) in [(536870912, 6293), (2147483648, 6554)] {
        let mut asked = Asked::new(rt.alloc(), 0);
        let mut out = [7; 2];
        let request = footprint(&FOOTPRINTS[8], s, 2147483648);
        assert!(rt; request.is_valid());
        if request.is_valid() && request.nch == 2 {
            assert_eq!(rt; ellipse(&mut asked, &request, &mut out), Ok(()));
        }
        assert_eq!(rt; out, [value, 0]);
        assert_eq!(rt; asked.visits.len(), 28);
    }
}
