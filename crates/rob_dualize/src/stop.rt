//! Why the route stops.

ghost use Rattle.std.specs.Prelude.{◌≡◌, MatchResult, Ok};
ghost use Rattle.rob_cert.specs.declared.ending.Stop.TheVariants.{Memory as OutOfMemory};
ghost use Rattle.rob_simplex.specs.Solvers.{positions};
ghost use Rattle.rob_dualize.specs.Ending.{IsWideStop, StopsAt, position_of};

use crate::numbers::basis;
use rob_cert::{Stop, Trace};
use rob_model::{Program, Spot};
use rob_number::{Exact, List, Memory};
use rob_simplex::LpStop;
use rob_solver::Solver;
use std::alloc::Global;

/// The position of the row that is wide.
pub fn position(stop: LpStop) -> u32
    ensures position { result ≡ position_of stop }
{
    match stop {
        LpStop::Wide(i) => i,
    }
}

/// The row of position i is wide at the basis where the solver stands; or memory for that basis is refused.
pub fn wide<N: Exact>(
    alloc: Global,
    solver: &Solver<N>,
    program: Program,
    count: u32,
    i: u32,
) -> Stop
    requires positions { count ≡ positions solver.now }
    ensures stop { StopsAt solver.now.basis program i result }
{
    match basis(alloc, solver, count) {
        Ok(columns) => wide_at(alloc, Spot::Dictionary(program, columns, i)),
        Err(Memory) => Stop::Memory,
    }
}

/// A number is wide at this spot, with no rounds before it.
pub fn wide_at(alloc: Global, spot: Spot) -> Stop
    ensures stop { IsWideStop spot result }
{
    let rounds = List::new(alloc);
    Stop::Wide(spot, Trace { rounds })
}

/// The answer, a want of memory being a stop.
pub fn or_stop<T>(answer: Result<T, Memory>) -> Result<T, Stop>
    ensures answer { MatchResult result (λ x. answer ≡ Ok x) (λ stop. stop ≡ OutOfMemory) }
{
    match answer {
        Ok(x) => Ok(x),
        Err(Memory) => Err(Stop::Memory),
    }
}
