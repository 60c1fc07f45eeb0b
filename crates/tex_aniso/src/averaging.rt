//! The mean of the trilinear probes along the longer axis of a footprint.
ghost use Rattle.std.specs.Prelude.{◌≡◌, ◌*◌, length, OnOk, OnErr, IfOk};
ghost use Rattle.std.specs.Option.{ForSome};
ghost use Rattle.texel_filter.specs.Image.{AreFirst, AreValues, image_of};
ghost use Rattle.texel_filter.specs.Filter.{trilinear_value, max_trilinear_sum};
ghost use Rattle.texel_filter.specs.Calls.{LeftBy};
ghost use Rattle.texel_filter.specs.Fine.{fine_of};
ghost use Rattle.texel_filter.specs.Deriv.{IsDerivRequest};
ghost use Rattle.tex_aniso.specs.Probe.{IsPlan};
ghost use Rattle.tex_aniso.specs.Mean.{plan_on, probes_sum, derivs_value, middle_of};
ghost use Rattle.tex_aniso.specs.Mean.{probes_visits, derivs_visits};
ghost use Rattle.tex_aniso.specs.Sums.{AreUpTo};

use crate::footprint::plan;
use crate::placing::probe;
use crate::probe_plan::ProbePlan;
use crate::weighted_sums::{add_probe, write_means};
use texel_filter::{DerivRequest, Fetch};
use tiff_format::MAX_CHANNELS;

// All probes count alike.
const WHOLE_WEIGHT: u16 = 1;

const LEVEL_0: u32 = 0;

/// Writes the mean of the trilinear probes along the longer axis of a pixel's footprint.
pub fn derivs<F: Fetch>(f: &mut F, r: &DerivRequest, out: &mut [u16]) -> Result<(), F::Error>
    requires request { IsDerivRequest r.now }
    requires count { length out.old ≡ r.now.nch }
    // The mean of all probes, and the trilinear lookup at the middle where there is one alone.
    ensures told { ForSome (F.values f.old) (λ v.
        OnOk result (AreValues (derivs_value (image_of (F.sizes f.old) v) r.now) out.new)) }
    ensures single { ForSome (F.values f.old) (λ v.
        (plan_on (F.sizes f.old) r.now).n ≡ 1 → OnOk result (AreValues (trilinear_value
        (image_of (F.sizes f.old) v) (fine_of (middle_of (F.sizes f.old) r.now))) out.new)) }
    // The texels that were asked for, and what a refusal leaves.
    ensures left { LeftBy F.leaves F.refuses f.old (derivs_visits (F.sizes f.old) r.now)
        f.new result }
    ensures same { OnErr result (out.new ≡ out.old) }
{
    // There is a level 0.
    let _levels = f.levels();
    let (width, height) = f.size(LEVEL_0);
    let plan = plan(r, width, height);
    let sums = probes_sum(f, r, &plan)?;
    write_means(&sums, plan.n, out);
    Ok(())
}

// The sums of the channels over all probes.
fn probes_sum<F: Fetch>(
    f: &mut F,
    r: &DerivRequest,
    p: &ProbePlan,
) -> Result<[u128; MAX_CHANNELS], F::Error>
    requires request { IsDerivRequest r.now }
    requires plan { IsPlan p.now }
    ensures told { ForSome (F.values f.old) (λ v. IfOk result (AreFirst r.now.nch
        (λ c. probes_sum (image_of (F.sizes f.old) v) r.now p.now c p.now.n))) }
    ensures high { IfOk result (AreUpTo (p.now.n * max_trilinear_sum)) }
    ensures left { LeftBy F.leaves F.refuses f.old
        (probes_visits (F.sizes f.old) r.now p.now p.now.n) f.new result }
{
    let mut sums = [0; MAX_CHANNELS];
    for j in 0..p.n {
        let request = probe(r, p, j).fine();
        add_probe(f, &request, WHOLE_WEIGHT, &mut sums)?;
    }
    Ok(sums)
}
