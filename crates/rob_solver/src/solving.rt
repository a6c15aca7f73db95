//! A program solved: over narrow rows, and where those stop over deep ones.

ghost use Rattle.std.specs.Prelude.{◌≡◌, ◌+◌, ◌^◌, ◌<◌, ◌≤◌, length, IfOk, IfErr};
ghost use Rattle.rob_linear.specs.Programs.{Program};
ghost use Rattle.rob_rows.specs.LinearPrograms.{HasNumbersWithin, program_of};
ghost use Rattle.rob_simplex.specs.Solvers.{StandsAs};
ghost use Rattle.rob_number.specs.Counts.{CountsOnly, raised};
ghost use Rattle.rob_solver.specs.declared.solving.Stopped.TheVariants.{Memory as OutOfMemory, Wide};
ghost use Rattle.rob_solver.specs.Depths.{deep_limit};
ghost use Rattle.rob_solver.specs.Solving.{IsSolved, IsStopped, IsCausedDeep, IsBegun, ComesTo, CountsSolving};

use crate::solver::Solver;
use rob_number::{Exact, Ledger, LpKind, Memory};
use rob_rows::Rows;
use rob_simplex::{Cause, LpStop};
use std::alloc::Global;

/// A program's answer, and the solver that tells its numbers.
#[derive(Drop)]
pub struct Solved<N: Exact> {
    pub solver: Solver<N>,
    pub kind: LpKind,
}

/// Why a program has no answer.
#[derive(Drop)]
pub enum Stopped<N: Exact> {
    /// A row is wide, also over deep rows, or a number that its last basis tells: the solver stands at that basis.
    Wide(Solver<N>, LpStop),
    /// Memory was refused.
    Memory,
}

impl<N: Exact> From<Memory> for Stopped<N> {
    ghost from_gives = { λ _ stopped. stopped ≡ OutOfMemory };

    fn from(_memory: Memory) -> Stopped<N> {
        Stopped::Memory
    }
}

/// What narrow rows come to.
#[derive(Drop)]
enum Narrow<N: Exact> {
    /// An answer.
    Solved(Solved<N>),
    /// A number that the last basis tells, which is wide over rows of either depth.
    Told(Solver<N>, LpStop),
    /// A turn of the second phase that was begun.
    Begun(Solver<N>),
    /// A stop in the first phase.
    Anew,
}

/// Solves the program over narrow rows, and where these stop over deep ones: these take over a turn of the second phase
/// that was begun, and begin anew where the first phase stopped, whose form over narrow rows may have the longer
/// numbers. A number that the last basis tells is wide over rows of either depth.
pub fn solve<N: Exact, R: Rows, L: Ledger>(
    alloc: Global,
    source: &R,
    ledger: &mut L,
) -> Result<Solved<N>, Stopped<N>>
    requires ready { R.ready source.now }
    requires few { length (R.lp source.now).c + length (R.lp source.now).b < 2 ^ 31 }
    requires numbers { HasNumbersWithin N.limit (R.lp source.now) }
    ensures solved { IfOk result (IsSolved (program_of (R.lp source.now))) }
    ensures stopped { IfErr result (IsStopped N.limit (program_of (R.lp source.now))) }
    ensures caused { IfErr result (IsCausedDeep N.limit (program_of (R.lp source.now))) }
    ensures counted { CountsSolving L.ops L.wides ledger.old ledger.new result }
{
    match solve_narrow(alloc, source, ledger) {
        Ok(Narrow::Solved(solved)) => Ok(solved),
        Ok(Narrow::Told(solver, stop)) => Err(refused(solver, stop, ledger)),
        Ok(Narrow::Begun(solver)) => go_on(alloc, solver, ledger),
        Ok(Narrow::Anew) => solve_deep(alloc, source, ledger),
        Err(Memory) => Err(Stopped::Memory),
    }
}

/// Over narrow rows.
fn solve_narrow<N: Exact, R: Rows, L: Ledger>(
    alloc: Global,
    source: &R,
    ledger: &mut L,
) -> Result<Narrow<N>, Memory>
    requires ready { R.ready source.now }
    requires few { length (R.lp source.now).c + length (R.lp source.now).b < 2 ^ 31 }
    requires numbers { HasNumbersWithin N.limit (R.lp source.now) }
    ensures comes { IfOk result (ComesTo N.limit (program_of (R.lp source.now))) }
    ensures counted { CountsOnly L.ops L.wides ledger.old ledger.new }
{
    let mut solver = Solver::narrow(alloc, source)?;
    match solver.solve(ledger) {
        Ok(kind) => Ok(Narrow::Solved(Solved { solver, kind })),
        Err(stop) => match solver.cause() {
            Cause::Told => Ok(Narrow::Told(solver, stop)),
            Cause::Turn(_) => Ok(Narrow::Begun(solver)),
            Cause::First => Ok(Narrow::Anew),
            Cause::Elsewhere => unreachable!(),
        },
    }
}

/// Over deep rows from a turn of the second phase that narrow ones have begun. These are let go of once they are taken
/// over.
fn go_on<N: Exact, L: Ledger>(
    alloc: Global,
    narrow: Solver<N>,
    ledger: &mut L,
) -> Result<Solved<N>, Stopped<N>>
    requires begun { (P : Program) × IsBegun P narrow }
    ensures solved { (P : Program) → IsBegun P narrow → IfOk result (IsSolved P) }
    ensures stopped { (P : Program) → IsBegun P narrow → IfErr result (IsStopped N.limit P) }
    ensures caused { (P : Program) → IsBegun P narrow → IfErr result (IsCausedDeep N.limit P) }
    ensures counted { CountsSolving L.ops L.wides ledger.old ledger.new result }
{
    let mut deep = deepened(alloc, narrow)?;
    match deep.go_on(ledger) {
        Ok(kind) => Ok(Solved { solver: deep, kind }),
        Err(stop) => Err(refused(deep, stop, ledger)),
    }
}

/// Over deep rows from the program's start.
fn solve_deep<N: Exact, R: Rows, L: Ledger>(
    alloc: Global,
    source: &R,
    ledger: &mut L,
) -> Result<Solved<N>, Stopped<N>>
    requires ready { R.ready source.now }
    requires few { length (R.lp source.now).c + length (R.lp source.now).b < 2 ^ 31 }
    requires numbers { HasNumbersWithin N.limit (R.lp source.now) }
    ensures solved { IfOk result (IsSolved (program_of (R.lp source.now))) }
    ensures stopped { IfErr result (IsStopped N.limit (program_of (R.lp source.now))) }
    ensures caused { IfErr result (IsCausedDeep N.limit (program_of (R.lp source.now))) }
    ensures counted { CountsSolving L.ops L.wides ledger.old ledger.new result }
{
    let mut deep = Solver::deep(alloc, source)?;
    match deep.solve(ledger) {
        Ok(kind) => Ok(Solved { solver: deep, kind }),
        Err(stop) => Err(refused(deep, stop, ledger)),
    }
}

/// The stop where the solver stands, counted.
fn refused<N: Exact, L: Ledger>(solver: Solver<N>, stop: LpStop, ledger: &mut L) -> Stopped<N>
    ensures stop { result ≡ Wide solver stop }
    ensures ops { L.ops ledger.old ≤ L.ops ledger.new }
    ensures wides { L.wides ledger.new ≡ raised (L.wides ledger.old) }
{
    ledger.wide();
    Stopped::Wide(solver, stop)
}

/// Deep rows in the place of narrow ones.
fn deepened<N: Exact>(alloc: Global, narrow: Solver<N>) -> Result<Solver<N>, Memory>
    requires begun { (P : Program) × IsBegun P narrow }
    ensures stands { IfOk result (StandsAs deep_limit narrow) }
    ensures limit { IfOk result (λ solver. solver.limit ≡ deep_limit) }
{
    narrow.deepened(alloc)
}
