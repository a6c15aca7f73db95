//! What a search tells, read off the solver's last dictionary.

ghost use Rattle.std.specs.Prelude.{◌≡◌, ◌<◌, ◌≤◌, ◌+◌, ◌^◌, ℕ, map, IfOk};
ghost use Rattle.rob_counterpart.specs.ReadNumbers.{differences};
ghost use Rattle.rob_counterpart.specs.Splitting.{plus, minus, OneIsZero};
ghost use Rattle.rob_number.specs.declared.lp_kind.LpKind.TheVariants as kinds;
ghost use Rattle.rob_simplex.specs.Solvers.{HasRay};
ghost use Rattle.rob_simplex.specs.Solutions.{ray_of};
ghost use Rattle.rob_dualize.specs.SetSolving.{program_of_set, IsFewSet};
ghost use Rattle.rob_worst.specs.Finders.{HasSearched, TellsTask};
ghost use Rattle.rob_worst.specs.Finding.{HasConstantWithin};
ghost use Rattle.rob_worst.specs.Tasks.{FitsSet};

use crate::task::Task;
use rob_cert::Worst;
use rob_dualize::numbers::{basis, dual_values, ray, whole};
use rob_dualize::reading::pair_differences;
use rob_dualize::set_program::parameters;
use rob_model::Scenario;
use rob_number::{Exact, List, LpKind, Memory};
use rob_sets::SetForm;
use rob_solver::Solver;
use std::alloc::Global;

/// What the search tells: the worst scenario, or a ray.
pub fn told<N: Exact>(
    alloc: Global,
    set: &SetForm,
    task: &Task,
    kind: LpKind,
    solver: &Solver<N>,
) -> Result<Worst<N>, Memory>
    requires few { IsFewSet set.now }
    requires task { FitsSet N.limit set.now.columns task.now }
    requires searched { HasSearched (program_of_set set.now) task.now.cost kind solver.now }
    ensures found { IfOk result (TellsTask N.value set.now task.now) }
    ensures within { IfOk result (HasConstantWithin N.limit) }
{
    match kind {
        LpKind::Optimal => greatest(alloc, set, task, solver),
        LpKind::Infeasible | LpKind::Unbounded => along(alloc, set, task, solver),
    }
}

/// The worst scenario: the parameters of the solver's point. The amounts are the dual values.
fn greatest<N: Exact>(
    alloc: Global,
    set: &SetForm,
    task: &Task,
    solver: &Solver<N>,
) -> Result<Worst<N>, Memory>
    requires few { IsFewSet set.now }
    requires task { FitsSet N.limit set.now.columns task.now }
    requires searched { HasSearched (program_of_set set.now) task.now.cost kinds.Optimal
        solver.now }
    ensures found { IfOk result (TellsTask N.value set.now task.now) }
    ensures within { IfOk result (HasConstantWithin N.limit) }
{
    let rows = set.rows.items().len() as u32;
    let values = parameters(alloc, solver, task.params)?;
    let basis = basis(alloc, solver, rows)?;
    let amounts = dual_values(alloc, solver, rows)?;
    Ok(Worst::At {
        scale: whole(task.common),
        peak: solver.value(),
        constant: task.constant,
        scenario: Scenario { values },
        basis,
        amounts,
    })
}

/// The ray: the parameters of the solver's ray.
fn along<N: Exact>(
    alloc: Global,
    set: &SetForm,
    task: &Task,
    solver: &Solver<N>,
) -> Result<Worst<N>, Memory>
    requires few { IsFewSet set.now }
    requires task { FitsSet N.limit set.now.columns task.now }
    requires searched { HasSearched (program_of_set set.now) task.now.cost kinds.Unbounded
        solver.now }
    ensures found { IfOk result (TellsTask N.value set.now task.now) }
    ensures within { IfOk result (HasConstantWithin N.limit) }
{
    let rows = set.rows.items().len() as u32;
    let ray = direction(alloc, solver, task.params)?;
    let basis = basis(alloc, solver, rows)?;
    Ok(Worst::Along {
        ray,
        basis,
        column: solver.column(),
    })
}

/// The differences of the first pairs of the solver's ray.
fn direction<N: Exact>(alloc: Global, solver: &Solver<N>, count: u32) -> Result<List<N>, Memory>
    requires ray { HasRay solver.now }
    requires few { count < 2 ^ 31 }
    requires inside { count + count ≤ solver.now.columns }
    requires pairs { (c : ℕ) → c < count
        → OneIsZero (ray_of solver.now (plus c)) (ray_of solver.now (minus c)) }
    ensures parameters { IfOk result (λ list. map N.value list
        ≡ differences count (ray_of solver.now)) }
{
    let numbers = ray(alloc, solver, 2 * count)?;
    pair_differences(alloc, numbers.items(), count as usize)
}
