//! Linear programs solved.

ghost use Rattle.std.specs.Prelude.{◌≡◌, IfOk, length};
ghost use Rattle.rob_linear.specs.Programs.{Program};
ghost use Rattle.rob_rows.specs.LinearPrograms.{program_of};
ghost use Rattle.rob_simplex.specs.Solvers.{positions, HasPoint, HasOptimum, HasRay, HasWeights, IsMadeFor};
ghost use Rattle.rob_simplex.specs.Endings.{IsFresh};
ghost use Rattle.rob_simplex.specs.Lowering.{IsCostOf};
ghost use Rattle.rob_simplex.specs.Resuming.{CanResume};

use crate::program::program;
use rob_case::Trouble;
use rob_case::numbers::{put, wholes};
use rob_number::{Exact, LpKind, Tally};
use rob_rows::{Lp, largest};
use rob_simplex::Work;
use std::alloc::Global;

/// A solver of a program.
fn made<N: Exact>(alloc: Global, lp: &Lp) -> Result<Work<N, i64>, Trouble>
    ensures made { IfOk result (λ work. IsMadeFor (program_of lp.now) work) }
{
    if lp.c.items().len() + lp.b.items().len() >= 1 << 31 {
        return Err(Trouble::Line);
    }
    if !lp.is_shaped() {
        return Err(Trouble::Line);
    }
    if !lp.is_within(N::LIMIT as u64) {
        return Err(Trouble::Line);
    }
    Ok(Work::new(alloc, lp)?)
}

/// The point, the dual values and the value of a program that has an optimum.
fn optimum<N: Exact>(
    alloc: Global,
    work: &Work<N, i64>,
    columns: u32,
    rows: u32,
) -> Result<String, Trouble>
    requires optimum { HasOptimum work.now }
    requires point { HasPoint work.now }
    requires columns { columns ≡ work.now.columns }
    requires rows { rows ≡ positions work.now }
{
    let mut answer = String::from_str(alloc, "optimal")?;
    put_optimum(alloc, &mut answer, work, columns, rows)?;
    Ok(answer)
}

/// Appends the value, the point and the dual values.
fn put_optimum<N: Exact>(
    alloc: Global,
    text: &mut String,
    work: &Work<N, i64>,
    columns: u32,
    rows: u32,
) -> Result<(), Trouble>
    requires optimum { HasOptimum work.now }
    requires point { HasPoint work.now }
    requires columns { columns ≡ work.now.columns }
    requires rows { rows ≡ positions work.now }
{
    put(alloc, text, work.value())?;
    text.push_str(" at")?;
    for j in 0..columns {
        put(alloc, text, work.x(j))?;
    }
    text.push_str(" with")?;
    for i in 0..rows {
        put(alloc, text, work.y(i))?;
    }
    Ok(())
}

/// The ray of an unbounded program, and the column that grows.
fn ray<N: Exact>(alloc: Global, work: &Work<N, i64>, columns: u32) -> Result<String, Trouble>
    requires ray { HasRay work.now }
    requires columns { columns ≡ work.now.columns }
{
    let column = work.column();
    let mut answer = format!(in alloc; "unbounded in column {column} along")?;
    put_ray(alloc, &mut answer, work, columns)?;
    Ok(answer)
}

/// Appends the ray.
fn put_ray<N: Exact>(
    alloc: Global,
    text: &mut String,
    work: &Work<N, i64>,
    columns: u32,
) -> Result<(), Trouble>
    requires ray { HasRay work.now }
    requires columns { columns ≡ work.now.columns }
{
    for j in 0..columns {
        put(alloc, text, work.ray(j))?;
    }
    Ok(())
}

/// The weights that show that a program is infeasible.
fn weights<N: Exact>(alloc: Global, work: &Work<N, i64>, rows: u32) -> Result<String, Trouble>
    requires weights { HasWeights work.now }
    requires rows { rows ≡ positions work.now }
{
    let mut answer = String::from_str(alloc, "infeasible by")?;
    put_weights(alloc, &mut answer, work, rows)?;
    Ok(answer)
}

/// Appends the weights.
fn put_weights<N: Exact>(
    alloc: Global,
    text: &mut String,
    work: &Work<N, i64>,
    rows: u32,
) -> Result<(), Trouble>
    requires weights { HasWeights work.now }
    requires rows { rows ≡ positions work.now }
{
    for i in 0..rows {
        let word = format!(in alloc; " {}", work.farkas(i))?;
        text.push_str(word.as_str())?;
    }
    Ok(())
}

/// How many columns a program has, and how many rows.
#[derive(Clone, Copy)]
struct Size {
    columns: u32,
    rows: u32,
}

/// The answer of a call on a program, and on the cost behind the `>`, where the call has one. It alone has the program:
/// what it calls is lent it.
pub(crate) fn answer<N: Exact>(alloc: Global, word: &str, line: &str) -> Result<String, Trouble> {
    let (first, second) = match line.split_once('>') {
        Some((first, second)) => (first, second),
        None => (line, ""),
    };
    let lp = program(alloc, first)?;
    of_program::<N>(alloc, word, &lp, second)
}

/// The answer of a call on a program, and on a cost. It alone has the program's solver: what it calls is lent it.
fn of_program<N: Exact>(alloc: Global, word: &str, lp: &Lp, cost: &str) -> Result<String, Trouble> {
    let cost = wholes(alloc, cost)?;
    let mut work = made::<N>(alloc, lp)?;
    let size = Size {
        columns: lp.c.items().len() as u32,
        rows: lp.b.items().len() as u32,
    };
    of_solver(alloc, word, lp, &mut work, size, cost.as_slice())
}

/// The answer of a call on a program and its solver, and on a cost.
fn of_solver<N: Exact>(
    alloc: Global,
    word: &str,
    lp: &Lp,
    work: &mut Work<N, i64>,
    size: Size,
    cost: &[i64],
) -> Result<String, Trouble>
    requires made { IsMadeFor (program_of lp.now) work.old }
    requires columns { size.columns ≡ work.old.columns }
    requires rows { size.rows ≡ positions work.old }
{
    match word {
        "solve" => solved(alloc, work, size),
        "resume" => resumed(alloc, lp, work, cost),
        "combined" => combined(alloc, lp, work, cost),
        "base" => based(alloc, lp, work),
        _ => Err(Trouble::Line),
    }
}

/// What solving a program gives.
fn solved<N: Exact>(alloc: Global, work: &mut Work<N, i64>, size: Size) -> Result<String, Trouble>
    requires fresh { IsFresh work.old }
    requires columns { size.columns ≡ work.old.columns }
    requires rows { size.rows ≡ positions work.old }
{
    match work.solve(&mut Tally::new()) {
        Ok(LpKind::Optimal) => optimum(alloc, work, size.columns, size.rows),
        Ok(LpKind::Unbounded) => ray(alloc, work, size.columns),
        Ok(LpKind::Infeasible) => weights(alloc, work, size.rows),
        Err(stop) => Ok(format!(in alloc; "{stop:?}")?),
    }
}

/// What a solver gives that goes on with another cost from where the first one stands. It alone has that solver: what
/// it calls is lent it.
fn resumed_from<N: Exact>(
    alloc: Global,
    lp: &Lp,
    work: &Work<N, i64>,
    cost: &[i64],
) -> Result<String, Trouble>
    requires resumable { (P : Program) × CanResume P work.now }
    requires columns { work.now.columns ≡ length lp.now.c }
    requires rows { positions work.now ≡ length lp.now.b }
{
    if cost.len() != lp.c.items().len() {
        return Err(Trouble::Line);
    }
    if largest(cost) > N::LIMIT as u64 {
        return Err(Trouble::Line);
    }
    let mut next = made::<N>(alloc, lp)?;
    next.set_to(work);
    let size = Size {
        columns: lp.c.items().len() as u32,
        rows: lp.b.items().len() as u32,
    };
    gone_on(alloc, &mut next, cost, size)
}

/// What a solver gives that goes on with another cost.
fn gone_on<N: Exact>(
    alloc: Global,
    work: &mut Work<N, i64>,
    cost: &[i64],
    size: Size,
) -> Result<String, Trouble>
    requires resumable { (P : Program) × CanResume P work.old }
    requires cost { IsCostOf N.limit work.old.columns cost.now }
    requires columns { size.columns ≡ work.old.columns }
    requires rows { size.rows ≡ positions work.old }
{
    match work.resume(cost, &mut Tally::new()) {
        Ok(LpKind::Optimal) => optimum(alloc, work, size.columns, size.rows),
        Ok(LpKind::Unbounded) => ray(alloc, work, size.columns),
        Ok(LpKind::Infeasible) => Err(Trouble::Line),
        Err(stop) => Ok(format!(in alloc; "{stop:?}")?),
    }
}

/// What a solver of the program gives with another cost, once it stands as one that has solved the program.
fn resumed<N: Exact>(
    alloc: Global,
    lp: &Lp,
    work: &mut Work<N, i64>,
    cost: &[i64],
) -> Result<String, Trouble>
    requires made { IsMadeFor (program_of lp.now) work.old }
{
    match work.solve(&mut Tally::new()) {
        Ok(LpKind::Optimal) => resumed_from(alloc, lp, work, cost),
        Ok(LpKind::Unbounded) => resumed_from(alloc, lp, work, cost),
        Ok(LpKind::Infeasible) => Ok(String::from_str(alloc, "infeasible")?),
        Err(stop) => Ok(format!(in alloc; "{stop:?}")?),
    }
}

/// How many rows a solver that stands at a best point combines as it goes on with another cost, behind how many it had
/// combined before.
fn combined_from<N: Exact>(
    alloc: Global,
    work: &mut Work<N, i64>,
    cost: &[i64],
    columns: usize,
    before: u64,
) -> Result<String, Trouble>
    requires resumable { (P : Program) × CanResume P work.old }
    requires columns { work.old.columns ≡ columns }
{
    if cost.len() != columns {
        return Err(Trouble::Line);
    }
    if largest(cost) > N::LIMIT as u64 {
        return Err(Trouble::Line);
    }
    let mut ledger = Tally::new();
    match work.resume(cost, &mut ledger) {
        Ok(_) => {
            let more = ledger.ops();
            Ok(format!(in alloc; "{before} rows combined, then {more}")?)
        }
        Err(stop) => Ok(format!(in alloc; "{stop:?}")?),
    }
}

/// How many rows solving a program combines that has an optimum, and how many going on with another cost.
fn combined<N: Exact>(
    alloc: Global,
    lp: &Lp,
    work: &mut Work<N, i64>,
    cost: &[i64],
) -> Result<String, Trouble>
    requires made { IsMadeFor (program_of lp.now) work.old }
{
    let mut ledger = Tally::new();
    match work.solve(&mut ledger) {
        Ok(LpKind::Optimal) => {
            let columns = lp.c.items().len();
            combined_from(alloc, work, cost, columns, ledger.ops())
        }
        Ok(_) => Err(Trouble::Line),
        Err(stop) => Ok(format!(in alloc; "{stop:?}")?),
    }
}

/// How solving a program ends, and the first basic column there.
fn based<N: Exact>(alloc: Global, lp: &Lp, work: &mut Work<N, i64>) -> Result<String, Trouble>
    requires made { IsMadeFor (program_of lp.now) work.old }
{
    if lp.b.items().len() == 0 {
        return Err(Trouble::Line);
    }
    let end = work.solve(&mut Tally::new());
    let column = work.basis(0);
    Ok(format!(in alloc; "{end:?} in column {column}")?)
}
