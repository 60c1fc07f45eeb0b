//! How many probes lie along the longer pixel step of a footprint, and at which LOD.
ghost use Rattle.std.specs.Prelude.{◌≡◌, ◌^◌, ◌≤◌};
ghost use Rattle.texel_filter.specs.Image.{IsSide};
ghost use Rattle.texel_filter.specs.Coordinate.{unit};
ghost use Rattle.texel_filter.specs.Deriv.{IsDerivNumber, IsDerivRequest};
ghost use Rattle.tex_aniso.specs.Footprint.{step_length, probe_count, probe_length, lod_of};
ghost use Rattle.tex_aniso.specs.Footprint.{max_probes};
ghost use Rattle.tex_aniso.specs.Probe.{plan_of, IsPlan};

use crate::probe_plan::ProbePlan;
use texel_filter::DerivRequest;

// A texel's length, and 1 in an LOD.
const UNIT: u64 = 65536;

const MAX_PROBES: u64 = 8;

/// What is made of a lookup on an image whose level 0 is w by h.
pub fn plan(r: &DerivRequest, w: u32, h: u32) -> ProbePlan
    requires request { IsDerivRequest r.now }
    requires width { IsSide w }
    requires height { IsSide h }
    ensures value { result ≡ plan_of r.now w h }
    ensures in_range { IsPlan result }
{
    let right = step_length(r.dsdx, r.dtdx, w, h);
    let below = step_length(r.dsdy, r.dtdy, w, h);
    let major = right.max(below);
    let n = probe_count(major, right.min(below));
    let lod = lod_of(probe_length(major, n));
    if below <= right {
        ProbePlan {
            n,
            lod,
            ds: r.dsdx,
            dt: r.dtdx,
        }
    } else {
        ProbePlan {
            n,
            lod,
            ds: r.dsdy,
            dt: r.dtdy,
        }
    }
}

// How long a step of the coordinates is, in 1/65536 of a texel.
fn step_length(ds: i32, dt: i32, w: u32, h: u32) -> u64
    requires ds { IsDerivNumber ds }
    requires dt { IsDerivNumber dt }
    requires width { IsSide w }
    requires height { IsSide h }
    ensures value { result ≡ step_length ds dt w h }
    ensures high { result ≤ 2 ^ 47 }
{
    let across = u64::from(ds.unsigned_abs()) * u64::from(w);
    let down = u64::from(dt.unsigned_abs()) * u64::from(h);
    across.max(down)
}

// How many probes lie along the longer axis.
fn probe_count(major: u64, minor: u64) -> u32
    ensures value { result ≡ probe_count major minor }
    ensures some { 1 ≤ result }
    ensures few { result ≤ max_probes }
{
    major.div_ceil(minor.max(UNIT)).min(MAX_PROBES).max(1) as u32
}

// The length that each of them stands for.
fn probe_length(major: u64, n: u32) -> u64
    requires some { 1 ≤ n }
    requires high { major ≤ 2 ^ 47 }
    ensures value { result ≡ probe_length major n }
    ensures low { unit ≤ result }
    ensures high { result ≤ 2 ^ 47 }
{
    major.div_ceil(u64::from(n)).max(UNIT)
}

/// The LOD of a length.
pub(crate) fn lod_of(length: u64) -> u32
    requires low { unit ≤ length }
    requires high { length ≤ 2 ^ 51 }
    ensures { result ≡ lod_of length }
{
    let level = (length / UNIT).ilog2();
    let beyond = (length >> level) - UNIT;
    (UNIT * u64::from(level) + beyond) as u32
}
