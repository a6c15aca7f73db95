//! The certificate that is read off an ending of the counterpart.

ghost use Rattle.std.specs.Prelude.{◌≡◌, IfOk};
ghost use Rattle.rob_model.specs.View.{scenario_of};
ghost use Rattle.rob_number.specs.declared.lp_kind.LpKind.TheVariants as kind;
ghost use Rattle.rob_cert.specs.View.{certificate_of};
ghost use Rattle.rob_dualize.specs.Ending.{HasEnded, read_from};
ghost use Rattle.rob_dualize.specs.Wholes.{wholes_in, counterpart_in, FitsSolver};

use crate::counterpart::{program_columns, program_rows};
use crate::elaborated::Elaborated;
use crate::infeasible::with_items;
use crate::numbers::{dual_values, exact_weights, point, ray, whole};
use crate::reading::{covers, items, pair_difference, pair_differences};
use rob_cert::{Cert, Status};
use rob_model::Scenario;
use rob_number::{Exact, List, LpKind, Memory};
use rob_solver::Solver;
use std::alloc::Global;

/// The certificate of the ending, with a scenario that is admitted.
pub fn certificate<N: Exact>(
    alloc: Global,
    model: Elaborated,
    solver: &Solver<N>,
    kind: LpKind,
    inside: Scenario<N>,
) -> Result<Cert<N>, Memory>
    requires model { FitsSolver N.limit model }
    requires ended { HasEnded (counterpart_in model) kind solver.now }
    ensures certificate { IfOk result (λ cert. certificate_of N.value cert
        ≡ read_from (wholes_in model.entry) (scenario_of N.value inside) kind solver.now) }
{
    match kind {
        LpKind::Optimal => optimal(alloc, model, solver, inside),
        LpKind::Infeasible => infeasible(alloc, model, solver, inside),
        LpKind::Unbounded => unbounded(alloc, model, solver, inside),
    }
}

/// Optimal: the plan and the covers are those of the point, the items those of the dual values.
fn optimal<N: Exact>(
    alloc: Global,
    model: Elaborated,
    solver: &Solver<N>,
    inside: Scenario<N>,
) -> Result<Cert<N>, Memory>
    requires model { FitsSolver N.limit model }
    requires ended { HasEnded (counterpart_in model) kind.Optimal solver.now }
    ensures certificate { IfOk result (λ cert. certificate_of N.value cert
        ≡ read_from (wholes_in model.entry) (scenario_of N.value inside) kind.Optimal solver.now) }
{
    let decisions = model.forms.columns as usize;
    let x = point(alloc, solver, program_columns(model) as u32)?;
    let y = dual_values(alloc, solver, program_rows(model) as u32)?;
    let plan = pair_differences(alloc, x.items(), decisions)?;
    let covers = covers(alloc, model, x.items())?;
    let items = items(alloc, model, y.items())?;
    Ok(Cert {
        status: Status::Optimal,
        value: pair_difference(x.items(), decisions),
        scale: whole(1),
        inside,
        plan,
        step: List::new(alloc),
        step_bound: whole(0),
        covers,
        holds: List::new(alloc),
        items,
    })
}

/// Infeasible: the items are those of the Farkas weights.
fn infeasible<N: Exact>(
    alloc: Global,
    model: Elaborated,
    solver: &Solver<N>,
    inside: Scenario<N>,
) -> Result<Cert<N>, Memory>
    requires model { FitsSolver N.limit model }
    requires ended { HasEnded (counterpart_in model) kind.Infeasible solver.now }
    ensures certificate { IfOk result (λ cert. certificate_of N.value cert
        ≡ read_from (wholes_in model.entry)
        (scenario_of N.value inside) kind.Infeasible solver.now) }
{
    let weights = exact_weights(alloc, solver, program_rows(model) as u32)?;
    let items = items(alloc, model, weights.items())?;
    Ok(with_items(alloc, inside, items))
}

/// Unbounded: the plan and the covers are those of the point, the direction and the holds those of the ray.
fn unbounded<N: Exact>(
    alloc: Global,
    model: Elaborated,
    solver: &Solver<N>,
    inside: Scenario<N>,
) -> Result<Cert<N>, Memory>
    requires model { FitsSolver N.limit model }
    requires ended { HasEnded (counterpart_in model) kind.Unbounded solver.now }
    ensures certificate { IfOk result (λ cert. certificate_of N.value cert
        ≡ read_from (wholes_in model.entry)
        (scenario_of N.value inside) kind.Unbounded solver.now) }
{
    let decisions = model.forms.columns as usize;
    let count = program_columns(model) as u32;
    let x = point(alloc, solver, count)?;
    let r = ray(alloc, solver, count)?;
    let plan = pair_differences(alloc, x.items(), decisions)?;
    let step = pair_differences(alloc, r.items(), decisions)?;
    let holds = covers(alloc, model, r.items())?;
    let covers = covers(alloc, model, x.items())?;
    Ok(Cert {
        status: Status::Unbounded,
        value: pair_difference(x.items(), decisions),
        scale: whole(1),
        inside,
        plan,
        step,
        step_bound: pair_difference(r.items(), decisions),
        covers,
        holds,
        items: List::new(alloc),
    })
}
