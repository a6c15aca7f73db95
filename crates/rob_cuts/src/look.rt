//! The plan and the direction of a solved master, and whether all forms are kept there.

ghost use Rattle.std.specs.Prelude.{◌<◌, true, false, MatchResult};
ghost use Rattle.rob_number.specs.Counts.{NeverFell};
ghost use Rattle.rob_simplex.specs.Solvers.{HasPoint, HasRay};
ghost use Rattle.rob_simplex.specs.Solutions.{point_of, ray_of};
ghost use Rattle.rob_dualize.specs.Solving.{CountsAnswer};
ghost use Rattle.rob_dualize.specs.Wholes.{HoldsOfEach};
ghost use Rattle.rob_runs.specs.Runs.{plan_at, direction_at};
ghost use Rattle.rob_worst.specs.Finders.{IsFinder};
ghost use Rattle.rob_cuts.specs.Looks.{IsInPairs, IsPlanLook, IsStepLook};
ghost use Rattle.rob_cuts.specs.Scans.{IsScanStopped};
ghost use Rattle.rob_cuts.specs.Solving.{FitsRoute};

use crate::cut::Cut;
use crate::kept::Kept;
use crate::reading::{direction, plan};
use crate::scan::{Scan, Target, scan_forms};
use rob_cert::Stop;
use rob_dualize::Elaborated;
use rob_model::Plan;
use rob_number::{Exact, Ledger, List};
use rob_solver::Solver;
use rob_worst::Finder;
use std::alloc::Global;

/// What a look at the plan finds.
#[derive(Debug, Drop)]
pub enum PlanLook<N> {
    /// The first form that it breaks, at its worst case.
    Broken(Cut),
    /// The plan, and what shows that it keeps all forms.
    Kept(Plan<N>, Kept<N>),
}

/// What a look at the direction finds.
#[derive(Debug, Drop)]
pub enum StepLook<N> {
    /// The first form that it breaks, at its worst case.
    Broken(Cut),
    /// The direction, whose last number is that of the bound, and what shows that it keeps all forms.
    Kept(List<N>, Kept<N>),
}

/// Looks at the plan of the solver's point.
pub fn look_at_plan<N: Exact, L: Ledger>(
    alloc: Global,
    model: Elaborated,
    finder: &mut Finder<N>,
    solver: &Solver<N>,
    ledger: &mut L,
) -> Result<PlanLook<N>, Stop>
    requires model { FitsRoute N.limit model }
    requires finder { IsFinder model.set.now finder.old }
    requires point { HasPoint solver.now }
    requires pairs { IsInPairs model.forms.now.columns solver.now.columns (point_of solver.now) }
    ensures look { HoldsOfEach model.entry.forms.now model.entry.set.now
        (λ m. MatchResult result (IsPlanLook N.limit m N.value (point_of solver.now))
        (IsScanStopped N.limit m false (plan_at m (point_of solver.now)))) }
    ensures finder { IsFinder model.entry.set.now finder.new }
    ensures wides { CountsAnswer (L.wides ledger.old) (L.wides ledger.new) result }
    ensures counted { NeverFell L.ops L.wides ledger.old ledger.new }
{
    let plan = plan(alloc, solver, model.forms.columns)?;
    match scan_forms(alloc, model, finder, Target::Plan(&plan), ledger) {
        Ok(Scan::Broken(cut)) => Ok(PlanLook::Broken(cut)),
        Ok(Scan::Kept(kept)) => Ok(PlanLook::Kept(plan, kept)),
        Err(stop) => Err(stop),
    }
}

/// Looks at the direction of the solver's ray.
pub fn look_at_step<N: Exact, L: Ledger>(
    alloc: Global,
    model: Elaborated,
    finder: &mut Finder<N>,
    solver: &Solver<N>,
    ledger: &mut L,
) -> Result<StepLook<N>, Stop>
    requires model { FitsRoute N.limit model }
    requires finder { IsFinder model.set.now finder.old }
    requires ray { HasRay solver.now }
    requires pairs { IsInPairs model.forms.now.columns solver.now.columns (ray_of solver.now) }
    ensures look { HoldsOfEach model.entry.forms.now model.entry.set.now
        (λ m. MatchResult result (IsStepLook N.limit m N.value (ray_of solver.now))
        (IsScanStopped N.limit m true (direction_at m (ray_of solver.now)))) }
    ensures finder { IsFinder model.entry.set.now finder.new }
    ensures wides { CountsAnswer (L.wides ledger.old) (L.wides ledger.new) result }
    ensures counted { NeverFell L.ops L.wides ledger.old ledger.new }
{
    let step = direction(alloc, solver, model.forms.columns)?;
    match scan_forms(alloc, model, finder, Target::Step(step.items()), ledger) {
        Ok(Scan::Broken(cut)) => Ok(StepLook::Broken(cut)),
        Ok(Scan::Kept(kept)) => Ok(StepLook::Kept(step, kept)),
        Err(stop) => Err(stop),
    }
}
