//! Where each probe along the longer pixel step lies.
ghost use Rattle.std.specs.Prelude.{◌≡◌, ◌*◌, ◌^◌, ◌<◌, ◌≤◌, pos, neg_ℤ, ◌≤ℤ◌};
ghost use Rattle.texel_filter.specs.Coordinate.{rounded_down};
ghost use Rattle.texel_filter.specs.Deriv.{IsDerivNumber, IsDerivRequest};
ghost use Rattle.tex_aniso.specs.Footprint.{max_probes};
ghost use Rattle.tex_aniso.specs.Probe.{probe_at, offset_of, IsPlan};

use crate::probe_plan::ProbePlan;
use texel_filter::{DerivRequest, Filter, TexRequest};

/// Probe j of a plan of the lookup, from 0 on.
pub fn probe(r: &DerivRequest, p: &ProbePlan, j: u32) -> TexRequest
    requires request { IsDerivRequest r.now }
    requires plan { IsPlan p.now }
    requires below { j < p.now.n }
    ensures value { result ≡ probe_at r.now p.now j }
{
    TexRequest {
        s: r.s + offset_of(p.n, j, p.ds),
        t: r.t + offset_of(p.n, j, p.dt),
        lod: p.lod,
        swrap: r.swrap,
        twrap: r.twrap,
        filter: Filter::Trilinear,
        nch: r.nch,
    }
}

// How far probe j of n lies from the middle of an axis that goes d far.
fn offset_of(n: u32, j: u32, d: i32) -> i32
    requires few { n ≤ max_probes }
    requires below { j < n }
    requires axis { IsDerivNumber d }
    ensures value { result ≡ offset_of n j d }
    ensures low { neg_ℤ (pos (2 ^ 29)) ≤ℤ result }
    ensures high { result ≤ℤ pos (2 ^ 29) }
{
    let steps = i64::from(2 * j + 1) - i64::from(n);
    (steps * i64::from(d)).div_euclid(i64::from(2 * n)) as i32
}
