//! Linear programs solved over narrow rows, and over deep ones where those stop.

ghost use Rattle.std.specs.Prelude.{◌≡◌, ◌<◌, ◌+◌, ◌^◌, length};
ghost use Rattle.rob_rows.specs.LinearPrograms.{program_of, IsShaped, HasNumbersWithin};
ghost use Rattle.rob_simplex.specs.Solvers.{positions, HasPoint, HasOptimum};
ghost use Rattle.rob_solver.specs.Solving.{IsSolved};

use crate::program::program;
use rob_case::Trouble;
use rob_case::numbers::put;
use rob_number::{Exact, LpKind, Tally};
use rob_rows::Lp;
use rob_solver::{Solved, Solver, Stopped, solve};
use std::alloc::Global;

/// What solving a program gives; of one without an optimum its status alone. It alone has the program: what it calls is
/// lent it.
pub(crate) fn solved<N: Exact>(alloc: Global, line: &str) -> Result<String, Trouble> {
    let lp = program(alloc, line)?;
    of_program::<N>(alloc, &lp)
}

/// What solving a program gives that isn't too large.
fn of_program<N: Exact>(alloc: Global, lp: &Lp) -> Result<String, Trouble> {
    if lp.c.items().len() + lp.b.items().len() >= 1 << 31 {
        return Err(Trouble::Line);
    }
    if !lp.is_shaped() || !lp.is_within(N::LIMIT as u64) {
        return Err(Trouble::Line);
    }
    answer::<N>(alloc, lp)
}

/// What solving a program gives that a solver takes.
fn answer<N: Exact>(alloc: Global, lp: &Lp) -> Result<String, Trouble>
    requires shaped { IsShaped lp.now }
    requires few { length lp.now.c + length lp.now.b < 2 ^ 31 }
    requires numbers { HasNumbersWithin N.limit lp.now }
{
    match solve::<N, Lp, Tally>(alloc, lp, &mut Tally::new()) {
        Ok(solved) => told(alloc, lp, &solved),
        Err(stopped) => refused(alloc, &stopped),
    }
}

/// What an answer of a solver tells.
fn told<N: Exact>(alloc: Global, lp: &Lp, solved: &Solved<N>) -> Result<String, Trouble>
    requires few { length lp.now.c + length lp.now.b < 2 ^ 31 }
    requires answer { IsSolved (program_of lp.now) solved.now }
{
    let columns = lp.c.items().len() as u32;
    let rows = lp.b.items().len() as u32;
    match solved.kind {
        LpKind::Optimal => optimum(alloc, &solved.solver, columns, rows),
        kind => Ok(format!(in alloc; "{kind:?}")?),
    }
}

/// Where a solver stopped that gives no answer.
fn refused<N: Exact>(alloc: Global, stopped: &Stopped<N>) -> Result<String, Trouble> {
    match stopped {
        Stopped::Wide(_, stop) => Ok(format!(in alloc; "{stop:?}")?),
        Stopped::Memory => Err(Trouble::Memory),
    }
}

/// The value, the point and the dual values of a program that has an optimum.
fn optimum<N: Exact>(
    alloc: Global,
    solver: &Solver<N>,
    columns: u32,
    rows: u32,
) -> Result<String, Trouble>
    requires optimum { HasOptimum solver.now }
    requires point { HasPoint solver.now }
    requires columns { columns ≡ solver.now.columns }
    requires rows { rows ≡ positions solver.now }
{
    let mut answer = String::from_str(alloc, "optimal")?;
    put_optimum(alloc, &mut answer, solver, columns, rows)?;
    Ok(answer)
}

/// Appends the value, the point and the dual values.
fn put_optimum<N: Exact>(
    alloc: Global,
    text: &mut String,
    solver: &Solver<N>,
    columns: u32,
    rows: u32,
) -> Result<(), Trouble>
    requires optimum { HasOptimum solver.now }
    requires point { HasPoint solver.now }
    requires columns { columns ≡ solver.now.columns }
    requires rows { rows ≡ positions solver.now }
{
    put(alloc, text, solver.value())?;
    text.push_str(" at")?;
    for j in 0..columns {
        put(alloc, text, solver.x(j))?;
    }
    text.push_str(" with")?;
    for i in 0..rows {
        put(alloc, text, solver.y(i))?;
    }
    Ok(())
}
