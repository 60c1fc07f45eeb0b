//! Which texels a lookup visits, in which order, and what it leaves if one of them fails.

ghost use Rattle.std.specs.Prelude.{◌≡◌};

use crate::picture::{Asked, Refused};
use std::alloc::Global;
use texel_filter::Wrap::{Black, Clamp, Periodic};
use texel_filter::{Filter, TexRequest, Wrap, lookup};

/// Coordinates and LOD, wraps and filter of a lookup, and the texels that it visits: level, column
/// and row of each.
type Row = (
    (i32, i32, u32),
    (Wrap, Wrap),
    Filter,
    &'static [(u32, u32, u32)],
);

static ROWS: &[Row] = &[
    (
        (32768, 0, 65536),
        (Clamp, Clamp),
        Filter::Closest,
        &[(1, 1, 0)],
    ),
    ((-1, 0, 0), (Black, Clamp), Filter::Closest, &[]),
    (
        (32768, 24576, 0),
        (Clamp, Clamp),
        Filter::Bilinear,
        &[(0, 1, 1), (0, 2, 1), (0, 1, 2), (0, 2, 2)],
    ),
    (
        (0, 0, 0),
        (Black, Periodic),
        Filter::Bilinear,
        &[(0, 0, 3), (0, 0, 0)],
    ),
    ((-65536, 0, 0), (Black, Periodic), Filter::Bilinear, &[]),
    (
        (65536, 65536, 131072),
        (Clamp, Clamp),
        Filter::Trilinear,
        &[(2, 0, 0), (2, 0, 0), (2, 0, 0), (2, 0, 0)],
    ),
    (
        (0, 0, 1),
        (Clamp, Clamp),
        Filter::Trilinear,
        &[
            (0, 0, 0),
            (0, 0, 0),
            (0, 0, 0),
            (0, 0, 0),
            (1, 0, 0),
            (1, 0, 0),
            (1, 0, 0),
            (1, 0, 0),
        ],
    ),
    (
        (65536, 0, 98304),
        (Black, Periodic),
        Filter::Trilinear,
        &[(1, 1, 1), (1, 1, 0), (2, 0, 0), (2, 0, 0)],
    ),
];

// A lookup of two channels.
fn request(place: (i32, i32, u32), wraps: (Wrap, Wrap), filter: Filter) -> TexRequest
    ensures { result.nch ≡ 2 }
{
    let (s, t, lod) = place;
    let (swrap, twrap) = wraps;
    TexRequest {
        s,
        t,
        lod,
        swrap,
        twrap,
        filter,
        nch: 2,
    }
}

// Whether the lookup goes as its case says if its visit number `fails`, counted from 1, fails. It
// must stop there, and the caller's values must be unchanged. 0 means that none fails.
fn is_so(alloc: Global, (place, wraps, filter, visits): &Row, fails: usize) -> bool {
    let request = request(*place, *wraps, *filter);
    let mut asked = Asked::new(alloc, fails);
    let mut out = [7; 2];
    let answer = lookup(&mut asked, &request, &mut out);
    let seen = asked.visits.as_slice();
    if fails == 0 {
        answer == Ok(()) && seen == *visits
    } else {
        answer == Err(Refused::Here) && out == [7; 2] && visits.get(..fails - 1) == Some(seen)
    }
}

#[test]
fn visits_in_order(rt: HostRuntime) {
    for (number, row) in ROWS.iter().enumerate() {
        for fails in 0..=row.3.len() {
            assert!(rt;
                is_so(rt.alloc(), row, fails),
                "row {number}, refused at {fails}"
            );
        }
    }
}
