//! The probes of an elliptical footprint, and the lookup over it.
ghost use Rattle.std.specs.Prelude.{◌≡◌, ℕ, ◌+◌, ◌*◌, ◌^◌, ◌<◌, ◌≤◌, length, OnOk, OnErr};
ghost use Rattle.std.specs.Prelude.{unsigned_abs, pos, ◌-ℤ◌, ◌*ℤ◌};
ghost use Rattle.std.specs.Option.{ForSome};
ghost use Rattle.texel_filter.specs.Image.{IsSide, AreValues, image_of};
ghost use Rattle.texel_filter.specs.Calls.{LeftBy};
ghost use Rattle.tex_aniso.specs.Shape.{IsEllipseRequest, IsMiddle};
ghost use Rattle.texel_filter.specs.Coordinate.{unit};
ghost use Rattle.tex_aniso.specs.Footprint.{lod_of};
ghost use Rattle.tex_aniso.specs.Line.{IsProbeLine};
ghost use Rattle.tex_aniso.specs.Ellipse.{major_on, step_on, line_alone, line_along, ellipse_line};
ghost use Rattle.tex_aniso.specs.Ellipse.{ellipse_value, ellipse_visits, AreEllipseProbes};

use crate::axis::{Direction, ImageStep};
use crate::bell::probe_step;
use crate::ellipse_request::EllipseRequest;
use crate::footprint::lod_of;
use crate::line_mean::probes;
use crate::probe_line::{MAX_LINE_PROBES, ProbeLine};
use crate::shape::{Shape, Steps};
use crate::side_probes::SideProbes;
use texel_filter::Fetch;

const LEVEL_0: u32 = 0;

/// Writes the weighted mean over a pixel's elliptical footprint.
pub fn ellipse<F: Fetch>(f: &mut F, r: &EllipseRequest, out: &mut [u16]) -> Result<(), F::Error>
    requires request { IsEllipseRequest r.now }
    requires count { length out.old ≡ r.now.nch }
    ensures told { ForSome (F.values f.old) (λ v.
        OnOk result (AreValues (ellipse_value (image_of (F.sizes f.old) v) r.now) out.new)) }
    // The texels that were asked for, and what a refusal leaves.
    ensures left { LeftBy F.leaves F.refuses f.old (ellipse_visits (F.sizes f.old) r.now)
        f.new result }
    ensures same { OnErr result (out.new ≡ out.old) }
{
    // There is a level 0.
    let _levels = f.levels();
    let (width, height) = f.size(LEVEL_0);
    let line = ellipse_line(r, width, height);
    probes(f, &line, out)
}

/// The probes of a footprint on an image whose level 0 is w by h.
pub fn ellipse_line(r: &EllipseRequest, w: u32, h: u32) -> ProbeLine
    requires request { IsEllipseRequest r.now }
    requires width { IsSide w }
    requires height { IsSide h }
    ensures value { result ≡ ellipse_line r.now w h }
    ensures line { IsProbeLine result }
    // Their number is odd. The weights are the same on both sides, above 0, and fit 16 bits
    // together.
    ensures probes { AreEllipseProbes r.now.max_probes result }
    // The LOD is that of the step, which is a texel at least.
    ensures lod { result.lod ≡ lod_of (step_on r.now w h) }
    ensures texel { unit ≤ step_on r.now w h }
    // A footprint whose longer axis is at most 9/8 of a step has one probe.
    ensures round { 8 * major_on r.now w h ≤ 9 * step_on r.now w h → result.count ≡ 1 }
{
    let shape = Shape::of(&Steps::of(r, w, h));
    let arm = (r.max_probes - 1) / 2;
    let (major, minor) = (shape.major(), shape.minor());
    let step = probe_step(major, minor, arm);
    let lod = lod_of(step);
    match SideProbes::of(major, step, arm) {
        None => line_alone(r, lod),
        Some(sides) => {
            let along = ImageStep::along(&Direction::of(&shape), step, w, h);
            if along.is_near() {
                line_along(r, lod, &sides, &along)
            } else {
                line_alone(r, lod)
            }
        }
    }
}

// One probe alone, in the middle.
fn line_alone(r: &EllipseRequest, lod: u32) -> ProbeLine
    requires { IsEllipseRequest r.now }
    ensures value { result ≡ line_alone r.now lod }
    ensures line { IsProbeLine result }
    ensures probes { AreEllipseProbes r.now.max_probes result }
{
    let mut weights = [0; MAX_LINE_PROBES];
    weights[0] = 1;
    ProbeLine {
        s: r.s,
        t: r.t,
        ds: 0,
        dt: 0,
        lod,
        count: 1,
        weights,
        swrap: r.swrap,
        twrap: r.twrap,
        nch: r.nch,
    }
}

// Probes on each side of the middle.
fn line_along(r: &EllipseRequest, lod: u32, sides: &SideProbes, along: &ImageStep) -> ProbeLine
    requires request { IsEllipseRequest r.now }
    requires few { 2 * sides.now.count + 1 ≤ r.now.max_probes }
    requires ds { unsigned_abs along.now.ds ≤ 2 ^ 41 }
    requires dt { unsigned_abs along.now.dt ≤ 2 ^ 41 }
    ensures value { result ≡ line_along r.now lod sides.now.count sides.now.bell.reach
        along.now.ds along.now.dt }
    ensures line { IsProbeLine result }
    ensures probes { AreEllipseProbes r.now.max_probes result }
{
    ProbeLine {
        s: first_place(r.s, along.ds, sides.count),
        t: first_place(r.t, along.dt, sides.count),
        ds: along.ds,
        dt: along.dt,
        lod,
        count: 2 * sides.count + 1,
        weights: sides.bell.weights(sides.count),
        swrap: r.swrap,
        twrap: r.twrap,
        nch: r.nch,
    }
}

// Where the first probe lies, `sides` steps before the middle.
fn first_place(middle: i64, step: i64, sides: u32) -> i64
    requires middle { IsMiddle middle }
    requires step { unsigned_abs step ≤ 2 ^ 41 }
    requires few { sides ≤ 15 }
    ensures { result ≡ middle -ℤ pos sides *ℤ step }
{
    middle - i64::from(sides) * step
}
