//! The numbers that a solver tells, as lists.

ghost use Rattle.std.specs.Prelude.{◌≡◌, ◌≤◌, map, nat_abs, IfOk};
ghost use Rattle.rob_algebra.specs.Fraction.{of_int};
ghost use Rattle.rob_meaning.specs.Places.{Each, tabulate};
ghost use Rattle.rob_simplex.specs.Solvers.{positions, HasPoint, HasOptimum, HasRay, HasWeights};
ghost use Rattle.rob_simplex.specs.Solutions.{point_of, ray_of, dual_of, weights_of};

use rob_number::{Exact, List, Memory, Tally};
use rob_solver::Solver;
use std::alloc::Global;

/// The first numbers of the point.
pub fn point<N: Exact>(alloc: Global, solver: &Solver<N>, count: u32) -> Result<List<N>, Memory>
    requires point { HasPoint solver.now }
    requires inside { count ≤ solver.now.columns }
    ensures numbers { IfOk result (λ list. map N.value list
        ≡ tabulate count (point_of solver.now)) }
{
    let mut numbers = List::new(alloc);
    for j in 0..count {
        numbers.push(solver.x(j))?;
    }
    Ok(numbers)
}

/// The first numbers of the ray.
pub fn ray<N: Exact>(alloc: Global, solver: &Solver<N>, count: u32) -> Result<List<N>, Memory>
    requires ray { HasRay solver.now }
    requires inside { count ≤ solver.now.columns }
    ensures numbers { IfOk result (λ list. map N.value list ≡ tabulate count (ray_of solver.now)) }
{
    let mut numbers = List::new(alloc);
    for j in 0..count {
        numbers.push(solver.ray(j))?;
    }
    Ok(numbers)
}

/// The dual values of the first rows.
pub fn dual_values<N: Exact>(
    alloc: Global,
    solver: &Solver<N>,
    count: u32,
) -> Result<List<N>, Memory>
    requires optimum { HasOptimum solver.now }
    requires inside { count ≤ positions solver.now }
    ensures numbers { IfOk result (λ list. map N.value list ≡ tabulate count (dual_of solver.now)) }
{
    let mut numbers = List::new(alloc);
    for i in 0..count {
        numbers.push(solver.y(i))?;
    }
    Ok(numbers)
}

/// The weights of the first rows.
pub fn weights<N: Exact>(alloc: Global, solver: &Solver<N>, count: u32) -> Result<List<i64>, Memory>
    requires weights { HasWeights solver.now }
    requires inside { count ≤ positions solver.now }
    ensures numbers { IfOk result (λ list. list ≡ tabulate count (weights_of solver.now)) }
    ensures within { IfOk result (Each (λ weight. nat_abs weight ≤ N.limit)) }
{
    let mut numbers = List::new(alloc);
    for i in 0..count {
        numbers.push(solver.farkas(i))?;
    }
    Ok(numbers)
}

/// The weights of the first rows, as exact numbers.
pub fn exact_weights<N: Exact>(
    alloc: Global,
    solver: &Solver<N>,
    count: u32,
) -> Result<List<N>, Memory>
    requires weights { HasWeights solver.now }
    requires inside { count ≤ positions solver.now }
    ensures numbers { IfOk result (λ list. map N.value list
        ≡ tabulate count (λ i. of_int (weights_of solver.now i))) }
{
    let mut numbers = List::new(alloc);
    for i in 0..count {
        numbers.push(whole(solver.farkas(i)))?;
    }
    Ok(numbers)
}

/// The basic columns, by position.
pub fn basis<N: Exact>(alloc: Global, solver: &Solver<N>, count: u32) -> Result<List<u32>, Memory>
    requires positions { count ≡ positions solver.now }
    ensures basis { IfOk result (λ list. list ≡ solver.now.basis) }
{
    let mut columns = List::new(alloc);
    for i in 0..count {
        columns.push(solver.basis(i))?;
    }
    Ok(columns)
}

/// A whole number within the limit, as an exact number.
pub fn whole<N: Exact>(number: i64) -> N
    requires within { nat_abs number ≤ N.limit }
    ensures value { N.value result ≡ of_int number }
{
    N::from_parts(number, 1, &mut Tally::new()).unwrap()
}
