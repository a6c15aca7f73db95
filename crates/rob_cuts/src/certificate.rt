//! The certificate of each ending of a run.

ghost use Rattle.std.specs.Prelude.{◌≡◌, ◌<◌, ◌^◌, map, length, IfOk};
ghost use Rattle.rob_algebra.specs.Fraction.{of_int};
ghost use Rattle.rob_meaning.specs.Places.{Each};
ghost use Rattle.rob_model.specs.View.{scenario_of};
ghost use Rattle.rob_cert.specs.View.{certificate_of, cover_of};
ghost use Rattle.rob_simplex.specs.Solvers.{positions, HasOptimum, HasWeights};
ghost use Rattle.rob_simplex.specs.Solutions.{dual_of, weights_of};
ghost use Rattle.rob_dualize.specs.Ending.{infeasible_with};
ghost use Rattle.rob_cuts.specs.Certificates.{optimal_with, unbounded_with, items_told};
ghost use Rattle.rob_cuts.specs.Covered.{covered_plan};
ghost use Rattle.rob_cuts.specs.Rounds.{RoundFits};

use crate::items::items;
use crate::kept::{Covered, Kept};
use rob_cert::{Cert, Round, Status};
use rob_dualize::infeasible::with_items;
use rob_dualize::numbers::{dual_values, exact_weights, whole};
use rob_model::{Plan, Scenario};
use rob_number::{Exact, List, Memory};
use rob_solver::Solver;
use std::alloc::Global;

/// Optimal: the plan with its covers, and the cuts with the dual values.
pub fn optimal<N: Exact>(
    alloc: Global,
    forms: u32,
    rounds: &[Round],
    solver: &Solver<N>,
    best: Covered<N>,
    inside: Scenario<N>,
) -> Result<Cert<N>, Memory>
    requires optimum { HasOptimum solver.now }
    requires rows { length rounds.now ≡ positions solver.now }
    requires few { positions solver.now < 2 ^ 31 }
    requires fits { Each (RoundFits N.limit) rounds.now }
    ensures certificate { IfOk result (λ cert. certificate_of N.value cert
        ≡ optimal_with (scenario_of N.value inside) (covered_plan N.value best.plan best.kept)
        (items_told forms rounds.now (dual_of solver.now))) }
{
    let Covered { plan, kept } = best;
    let weights = dual_values(alloc, solver, rounds.len() as u32)?;
    let items = items(alloc, forms, rounds, weights.items())?;
    Ok(Cert {
        status: Status::Optimal,
        value: plan.bound,
        scale: kept.scale,
        inside,
        plan: plan.columns,
        step: List::new(alloc),
        step_bound: whole(0),
        covers: kept.covers,
        holds: List::new(alloc),
        items,
    })
}

/// Infeasible: the cuts with the Farkas weights.
pub fn infeasible<N: Exact>(
    alloc: Global,
    forms: u32,
    rounds: &[Round],
    solver: &Solver<N>,
    inside: Scenario<N>,
) -> Result<Cert<N>, Memory>
    requires weights { HasWeights solver.now }
    requires rows { length rounds.now ≡ positions solver.now }
    requires few { positions solver.now < 2 ^ 31 }
    requires fits { Each (RoundFits N.limit) rounds.now }
    ensures certificate { IfOk result (λ cert. certificate_of N.value cert
        ≡ infeasible_with (scenario_of N.value inside)
        (items_told forms rounds.now (λ q. of_int (weights_of solver.now q)))) }
{
    let weights = exact_weights(alloc, solver, rounds.len() as u32)?;
    let items = items(alloc, forms, rounds, weights.items())?;
    Ok(with_items(alloc, inside, items))
}

/// Unbounded: the plan with its covers, and the direction in whole numbers with its own.
pub fn unbounded<N: Exact>(
    alloc: Global,
    plan: Plan<N>,
    kept: Kept<N>,
    step: Plan<N>,
    held: Kept<N>,
    inside: Scenario<N>,
) -> Cert<N>
    ensures certificate { certificate_of N.value result
        ≡ unbounded_with (scenario_of N.value inside) (covered_plan N.value plan kept)
        (map N.value step.columns) (N.value step.bound) (map (cover_of N.value) held.covers) }
{
    Cert {
        status: Status::Unbounded,
        value: plan.bound,
        scale: kept.scale,
        inside,
        plan: plan.columns,
        step: step.columns,
        step_bound: step.bound,
        covers: kept.covers,
        holds: held.covers,
        items: List::new(alloc),
    }
}
