//! The cut at a worst scenario or ray, in whole numbers.

ghost use Rattle.std.specs.Prelude.{◌≡◌, map, length, IfOk, IfErr};
ghost use Rattle.rob_model.specs.declared.place.Spot.TheVariants.{Clearing};
ghost use Rattle.rob_model.specs.declared.place.Where.TheVariants as of;
ghost use Rattle.rob_cuts.specs.Made.{cut_made};
ghost use Rattle.rob_cuts.specs.Rounds.{CutFits, scenario_cut_of, ray_cut_of};
ghost use Rattle.rob_cuts.specs.Stops.{StopsWith, IsInClearing, IsRefused};

use crate::clearing::clear_ray;
use rob_cert::Stop;
use rob_dualize::stop::wide_at;
use rob_model::{Spot, Where};
use rob_number::{Exact, List};
use rob_sets::clearing::denominator;
use rob_sets::error::Stop as Refusal;
use rob_worst::vector::cleared;
use std::alloc::Global;

/// A form, by its number, at a multiple of a scenario, or at a ray of the set.
#[derive(Debug, Drop)]
pub struct Cut {
    pub form: u32,
    /// The common denominator of the scenario, or 0 for a ray.
    pub base: i64,
    /// `base` times the scenario, or the ray, in whole numbers: one for each parameter.
    pub vector: List<i64>,
}

/// The cut of a form at a scenario.
pub fn scenario_cut<N: Exact>(alloc: Global, form: u32, scenario: &[N]) -> Result<Cut, Stop>
    ensures cut { IfOk result (λ cut. cut_made cut
        ≡ scenario_cut_of form (map N.value scenario.now)) }
    ensures fits { IfOk result (λ cut. CutFits N.limit (length scenario.now) (cut_made cut)) }
    ensures stopped { IfErr result
        (StopsWith (IsInClearing N.limit (scenario_cut_of form (map N.value scenario.now)))) }
{
    let Some(base) = denominator(scenario) else {
        return Err(wide_at(alloc, Spot::Clearing(Where::Cut(form))));
    };
    match cleared(alloc, scenario, base) {
        Ok(vector) => Ok(Cut {
            form,
            base: base as i64,
            vector,
        }),
        Err(refusal) => Err(refused(alloc, form, refusal)),
    }
}

/// The cut of a form at a ray.
pub fn ray_cut<N: Exact>(alloc: Global, form: u32, ray: &[N]) -> Result<Cut, Stop>
    ensures cut { IfOk result (λ cut. cut_made cut ≡ ray_cut_of form (map N.value ray.now)) }
    ensures fits { IfOk result (λ cut. CutFits N.limit (length ray.now) (cut_made cut)) }
    ensures stopped { IfErr result (StopsWith
        (IsInClearing N.limit (ray_cut_of form (map N.value ray.now)))) }
{
    match clear_ray(alloc, ray) {
        Ok(vector) => Ok(Cut {
            form,
            base: 0,
            vector,
        }),
        Err(refusal) => Err(refused(alloc, form, refusal)),
    }
}

/// The stop where a cleared number of the form's cut is wide, or memory was refused.
fn refused(alloc: Global, form: u32, refusal: Refusal) -> Stop
    ensures stop { IsRefused (Clearing (of.Cut form)) refusal result }
{
    match refusal {
        Refusal::Wide => wide_at(alloc, Spot::Clearing(Where::Cut(form))),
        Refusal::Memory => Stop::Memory,
    }
}
