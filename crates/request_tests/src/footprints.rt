//! Lookups along a footprint: the plan, the places of the probes, the values, and the texels
//! visited. Worked out by hand from docs/FILTERING.md.

ghost use Rattle.std.specs.Prelude.{◌≡◌, IfSome};
ghost use Rattle.std.specs.Bool.{OnTrue};
ghost use Rattle.texel_filter.specs.Image.{IsChannelCount};
ghost use Rattle.texel_filter.specs.Deriv.{IsDerivNumber, IsDerivRequest};

use crate::picture::{Asked, Refused};
use std::alloc::Global;
use tex_aniso::{ProbePlan, derivs, plan, probe};
use texel_filter::Wrap::{Black, Clamp, Periodic};
use texel_filter::{DerivRequest, Filter, TexRequest, Wrap, trisum};
use tiff_format::MAX_SIDE;

const MAX_PROBES: u32 = 8;

/// Four derivatives (s and t to the right, s and t down), width and height, and the plan: number of
/// probes, LOD, and the longer axis.
type PlanRow = ((i32, i32, i32, i32), (u32, u32), (u32, u32, i32, i32));

/// The cases in order. All derivatives 0. 4 texels by 0. Two axes of equal length, where the one to
/// the right is chosen; then the one down. 3 texels by 2. 3 by 3. More than 8 times as long as
/// wide. A little longer than a texel. The longest possible by 0, and by itself. Only down the
/// image, and with a part of the next level. A rest that is too small to count.
static PLANS: &[PlanRow] = &[
    ((0, 0, 0, 0), (4, 4), (1, 0, 0, 0)),
    ((65536, 0, 0, 0), (4, 4), (4, 0, 65536, 0)),
    ((32768, 0, 0, 32768), (4, 4), (1, 65536, 32768, 0)),
    ((0, 16384, 0, -65536), (4, 4), (4, 0, 0, -65536)),
    ((49152, 0, 0, 32768), (4, 4), (2, 32768, 49152, 0)),
    ((49152, 7, -7, 49152), (4, 4), (1, 98304, 49152, 7)),
    ((65536, 0, 0, 0), (64, 64), (8, 196608, 65536, 0)),
    ((65537, 0, 0, 0), (1, 1), (2, 0, 65537, 0)),
    (
        (-1073741824, 0, 0, 0),
        (131072, 1),
        (8, 1835008, -1073741824, 0),
    ),
    (
        (-1073741824, 5, -1073741824, 6),
        (131072, 1),
        (1, 2031616, -1073741824, 5),
    ),
    ((0, 10, 0, 0), (1, 131072), (8, 81920, 0, 10)),
    ((131073, 0, 131073, 0), (1, 1), (1, 65536, 131073, 0)),
];

/// A coordinate, the number of probes and the length of the axis, and the place of each probe.
type ProbeRow = (i32, (u32, i32), &'static [i32]);

/// The middles of equal parts, rounded down, also if the axis goes backwards.
static PROBES: &[ProbeRow] = &[
    (32768, (1, 1073741823), &[32768]),
    (32768, (4, 65536), &[8192, 24576, 40960, 57344]),
    (0, (2, -1), &[0, -1]),
    (5, (3, 10), &[1, 5, 8]),
    (
        -1073741824,
        (8, -1073741824),
        &[
            -603979776,
            -738197504,
            -872415232,
            -1006632960,
            -1140850688,
            -1275068416,
            -1409286144,
            -1543503872,
        ],
    ),
];

/// Coordinates, derivatives, wraps, the value of the first channel, and the number of texels
/// visited.
type Row = ((i32, i32), (i32, i32, i32, i32), (Wrap, Wrap), u16, usize);

/// The cases in order. A single probe is the trilinear lookup. Four probes, 0, 257, 514 and 771,
/// whose mean is half a value above 385. A single probe in level 1. Two probes of 128.5 and 385.5:
/// rounding each first would make the mean 258. Two probes between two levels. A probe outside the
/// image, with wrap `black` and with `periodic`.
static ROWS: &[Row] = &[
    ((32768, 32768), (0, 0, 0, 0), (Clamp, Clamp), 6554, 4),
    ((32768, 8192), (65536, 0, 0, 0), (Clamp, Clamp), 386, 16),
    (
        (32768, 32768),
        (32768, 0, 0, 32768),
        (Clamp, Clamp),
        6682,
        4,
    ),
    ((24576, 8192), (32768, 0, 0, 0), (Clamp, Clamp), 257, 8),
    (
        (32768, 32768),
        (49152, 0, 0, 32768),
        (Clamp, Clamp),
        6618,
        16,
    ),
    ((65536, 8192), (32768, 0, 0, 0), (Black, Clamp), 386, 2),
    ((65536, 8192), (32768, 0, 0, 0), (Periodic, Clamp), 386, 8),
];

// Whether a coordinate or derivative may have this number.
fn is_number(z: i32) -> bool
    ensures { OnTrue result (IsDerivNumber z) }
{
    -1073741824 <= z && z < 1073741824
}

/// A lookup, if its numbers are in range.
fn request(
    place: (i32, i32),
    steps: (i32, i32, i32, i32),
    wraps: (Wrap, Wrap),
    nch: u32,
) -> Option<DerivRequest>
    requires { IsChannelCount nch }
    ensures range { IfSome result (λ r. IsDerivRequest r) }
    ensures channels { IfSome result (λ r. r.nch ≡ nch) }
{
    let (s, t) = place;
    let (dsdx, dtdx, dsdy, dtdy) = steps;
    let (swrap, twrap) = wraps;
    if is_number(s)
        && is_number(t)
        && is_number(dsdx)
        && is_number(dtdx)
        && is_number(dsdy)
        && is_number(dtdy)
    {
        return Some(DerivRequest {
            s,
            t,
            dsdx,
            dtdx,
            dsdy,
            dtdy,
            swrap,
            twrap,
            nch,
        });
    }
    None
}

// the plan for a case
fn planned((steps, (w, h), _): &PlanRow) -> Option<ProbePlan> {
    let asked = request((0, 0), *steps, (Clamp, Clamp), 2)?;
    if *w < 1 || *w > MAX_SIDE || *h < 1 || *h > MAX_SIDE {
        return None;
    }
    Some(plan(&asked, *w, *h))
}

#[test]
fn plans_probes(rt: HostRuntime) {
    for (number, row) in PLANS.iter().enumerate() {
        let (n, lod, ds, dt) = row.2;
        let wanted = Some(ProbePlan { n, lod, ds, dt });
        assert_eq!(rt; planned(row), wanted, "row {number}");
    }
}

// Probe j of a case, if it has one.
fn placed((s, (n, ds), _): &ProbeRow, j: u32) -> Option<TexRequest> {
    let asked = request((*s, 3), (0, 0, 0, 0), (Black, Periodic), 2)?;
    if *n > MAX_PROBES || j >= *n || !is_number(*ds) {
        return None;
    }
    let plan = ProbePlan {
        n: *n,
        lod: 9,
        ds: *ds,
        dt: 0,
    };
    Some(probe(&asked, &plan, j))
}

#[test]
fn places_probes(rt: HostRuntime) {
    for (number, row) in PROBES.iter().enumerate() {
        for j in 0..MAX_PROBES {
            let wanted = row.2.get(j as usize).map(|s| TexRequest {
                s: *s,
                t: 3,
                lod: 9,
                swrap: Black,
                twrap: Periodic,
                filter: Filter::Trilinear,
                nch: 2,
            });
            assert_eq!(rt; placed(row, j), wanted, "row {number}, probe {j}");
        }
    }
}

// Makes the lookup of a case.
fn look_up(asked: &mut Asked, row: &Row, out: &mut [u16; 2]) -> Option<Result<(), Refused>> {
    let along = request(row.0, row.1, row.2, 2)?;
    Some(derivs(asked, &along, out))
}

// Whether the lookup goes as its case says, also if visit number `fails`, counted from 1, fails.
fn is_so(alloc: Global, row: &Row, fails: usize) -> bool {
    let mut asked = Asked::new(alloc, fails);
    let mut out = [7; 2];
    let answer = look_up(&mut asked, row, &mut out);
    let visits = asked.visits.len();
    if fails == 0 {
        answer == Some(Ok(())) && out == [row.3, 0] && visits == row.4
    } else {
        answer == Some(Err(Refused::Here)) && out == [7; 2] && visits == fails - 1
    }
}

#[test]
fn looks_up_footprints(rt: HostRuntime) {
    for (number, row) in ROWS.iter().enumerate() {
        for fails in 0..=row.4 {
            assert!(rt;
                is_so(rt.alloc(), row, fails),
                "row {number}, refused at {fails}"
            );
        }
    }
}

#[test]
fn visits_probes_in_turn(rt: HostRuntime) {
    let mut asked = Asked::new(rt.alloc(), 0);
    let along = ((24576, 8192), (32768, 0, 0, 0), (Clamp, Clamp), 257, 8);
    assert_eq!(rt; look_up(&mut asked, &along, &mut [0; 2]), Some(Ok(())));
    assert_eq!(rt;
        asked.visits.as_slice(),
        [
            (0, 0, 0),
            (0, 1, 0),
            (0, 0, 1),
            (0, 1, 1),
            (0, 1, 0),
            (0, 2, 0),
            (0, 1, 1),
            (0, 2, 1),
        ]
        .as_slice()
    );
}

// The sum for the middle at an LOD.
fn middle_sum(asked: &mut Asked, lod: u32, out: &mut [u64; 2]) -> Result<(), Refused> {
    let middle = TexRequest {
        s: 32768,
        t: 32768,
        lod,
        swrap: Clamp,
        twrap: Clamp,
        filter: Filter::Closest,
        nch: 2,
    };
    trisum(asked, &middle, out)
}

// 6553.5 and 6617.75, in units of 1/2^48
#[test]
fn sums_two_levels(rt: HostRuntime) {
    for (lod, sum) in [(0, 13107 << 47), (32768, 26471 << 46)] {
        let mut asked = Asked::new(rt.alloc(), 0);
        let mut out = [7; 2];
        assert_eq!(rt; middle_sum(&mut asked, lod, &mut out), Ok(()));
        assert_eq!(rt; out, [sum, 0], "LOD {lod}");
    }
}
