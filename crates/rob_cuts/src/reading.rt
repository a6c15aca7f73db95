//! The plan and the direction of a master, read off its solver. The columns of a pair count as the difference of their
//! numbers.

ghost use Rattle.std.specs.Prelude.{◌≡◌, ◌<◌, ◌+◌, ◌^◌, suc, map, IfOk};
ghost use Rattle.rob_counterpart.specs.ReadNumbers.{differences};
ghost use Rattle.rob_counterpart.specs.Splitting.{difference as difference_of, OneIsZero, plus, minus};
ghost use Rattle.rob_simplex.specs.Solvers.{HasPoint, HasRay};
ghost use Rattle.rob_simplex.specs.Solutions.{point_of, ray_of};
ghost use Rattle.rob_cuts.specs.Looks.{IsInPairs};

use rob_dualize::reading::difference;
use rob_model::Plan;
use rob_number::{Exact, List, Memory};
use rob_solver::Solver;
use std::alloc::Global;

/// Pair j of the point.
fn point_difference<N: Exact>(solver: &Solver<N>, j: u32) -> N
    requires point { HasPoint solver.now }
    requires inside { suc (j + j) < solver.now.columns }
    requires few { solver.now.columns < 2 ^ 31 }
    requires one { OneIsZero (point_of solver.now (plus j)) (point_of solver.now (minus j)) }
    ensures value { N.value result ≡ difference_of (point_of solver.now) j }
{
    difference(solver.x(2 * j), solver.x(2 * j + 1))
}

/// Pair j of the ray.
fn ray_difference<N: Exact>(solver: &Solver<N>, j: u32) -> N
    requires ray { HasRay solver.now }
    requires inside { suc (j + j) < solver.now.columns }
    requires few { solver.now.columns < 2 ^ 31 }
    requires one { OneIsZero (ray_of solver.now (plus j)) (ray_of solver.now (minus j)) }
    ensures value { N.value result ≡ difference_of (ray_of solver.now) j }
{
    difference(solver.ray(2 * j), solver.ray(2 * j + 1))
}

/// The plan of the point: a number for each decision column, and the bound behind them.
pub fn plan<N: Exact>(alloc: Global, solver: &Solver<N>, decisions: u32) -> Result<Plan<N>, Memory>
    requires point { HasPoint solver.now }
    requires pairs { IsInPairs decisions solver.now.columns (point_of solver.now) }
    requires few { solver.now.columns < 2 ^ 31 }
    ensures columns { IfOk result (λ plan. map N.value plan.columns
        ≡ differences decisions (point_of solver.now)) }
    ensures bound { IfOk result (λ plan. N.value plan.bound
        ≡ difference_of (point_of solver.now) decisions) }
{
    let mut columns = List::new(alloc);
    for j in 0..decisions {
        columns.push(point_difference(solver, j))?;
    }
    let bound = point_difference(solver, decisions);
    Ok(Plan { columns, bound })
}

/// The direction of the ray: a number for each decision column, and the one for the bound behind them.
pub fn direction<N: Exact>(
    alloc: Global,
    solver: &Solver<N>,
    decisions: u32,
) -> Result<List<N>, Memory>
    requires ray { HasRay solver.now }
    requires pairs { IsInPairs decisions solver.now.columns (ray_of solver.now) }
    requires few { solver.now.columns < 2 ^ 31 }
    ensures numbers { IfOk result (λ list. map N.value list
        ≡ differences (suc decisions) (ray_of solver.now)) }
{
    let mut numbers = List::new(alloc);
    for j in 0..decisions + 1 {
        numbers.push(ray_difference(solver, j))?;
    }
    Ok(numbers)
}
