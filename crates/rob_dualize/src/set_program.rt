//! The program of an uncertainty set, solved.

ghost use Rattle.std.specs.Prelude.{◌≡◌, ◌<◌, ◌≤◌, ◌+◌, ◌^◌, ℕ, map, IfOk, IfErr};
ghost use Rattle.rob_meaning.specs.RobustModel.{RobustModel};
ghost use Rattle.rob_meaning.specs.WellFormed.{IsModel};
ghost use Rattle.rob_counterpart.specs.ReadNumbers.{differences};
ghost use Rattle.rob_counterpart.specs.Splitting.{plus, minus, OneIsZero};
ghost use Rattle.rob_number.specs.Counts.{NeverFell};
ghost use Rattle.rob_sets.specs.SetForm.{IsSetForm};
ghost use Rattle.rob_simplex.specs.Solvers.{positions, HasPoint, HasWeights};
ghost use Rattle.rob_simplex.specs.Solutions.{point_of, weights_of};
ghost use Rattle.rob_solver.specs.Solving.{CountsSolving};
ghost use Rattle.rob_dualize.specs.Ending.{IsMadeAs, IsSolvedAs, IsStoppedAs, TellsWeights};
ghost use Rattle.rob_dualize.specs.SetSolving.{program_of_set, HasSetCause, IsFewSet, IsSetOfModel, IsSolved};
ghost use Rattle.rob_dualize.specs.Solving.{CountsAnswer};

use crate::numbers::{point, weights};
use crate::reading::pair_differences;
use crate::set_lp::set_lp;
use crate::stop::{position, wide};
use rob_cert::Stop;
use rob_model::Program;
use rob_number::{Exact, Ledger, List, LpKind, Memory};
use rob_sets::SetForm;
use rob_solver::{Solved, Solver, Stopped, solve};
use std::alloc::Global;

/// A solver of the set's program that stands at its last basis, which has a scenario. Else the Farkas weights of that
/// basis, which show that no scenario is admitted, or the row on the program's path for which it is refused.
pub fn solved_set<N: Exact, L: Ledger>(
    alloc: Global,
    set: &SetForm,
    ledger: &mut L,
) -> Result<Solver<N>, Stop>
    requires model { IsSetOfModel N.limit set.now }
    requires few { IsFewSet set.now }
    ensures solved { IfOk result (λ solver. IsSolved (program_of_set set.now) solver) }
    ensures stopped { (m : RobustModel) → IsModel m → IsSetForm m set.now
        → IfErr result (HasSetCause N.limit m) }
    ensures wides { CountsAnswer (L.wides ledger.old) (L.wides ledger.new) result }
    ensures counted { NeverFell L.ops L.wides ledger.old ledger.new }
{
    let rows = set.rows.items().len() as u32;
    match solve_set::<N, L>(alloc, set, ledger) {
        Ok(Solved { solver, kind }) => match kind {
            LpKind::Infeasible => Err(empty_set(alloc, rows, &solver)),
            LpKind::Optimal => Ok(solver),
            LpKind::Unbounded => Ok(solver),
        },
        Err(Stopped::Wide(solver, stop)) => {
            Err(wide(alloc, &solver, Program::Set, rows, position(stop)))
        }
        Err(Stopped::Memory) => Err(Stop::Memory),
    }
}

/// Solves the set's program, which is let go of.
fn solve_set<N: Exact, L: Ledger>(
    alloc: Global,
    set: &SetForm,
    ledger: &mut L,
) -> Result<Solved<N>, Stopped<N>>
    requires model { IsSetOfModel N.limit set.now }
    requires few { IsFewSet set.now }
    ensures solved { IfOk result (IsSolvedAs (program_of_set set.now)) }
    ensures stopped { IfErr result (IsStoppedAs N.limit (program_of_set set.now)) }
    ensures counted { CountsSolving L.ops L.wides ledger.old ledger.new result }
{
    let lp = set_lp(alloc, set)?;
    solve(alloc, &lp, ledger)
}

/// The weights of the set rows that show that no scenario is admitted.
fn empty_set<N: Exact>(alloc: Global, rows: u32, solver: &Solver<N>) -> Stop
    requires weights { HasWeights solver.now }
    requires positions { rows ≡ positions solver.now }
    ensures stop { TellsWeights N.limit rows (weights_of solver.now) result }
{
    match weights(alloc, solver, rows) {
        Ok(weights) => Stop::EmptySet(weights),
        Err(Memory) => Stop::Memory,
    }
}

/// One more solver of the set's program, over rows of the other one's depth. The program itself is let go of.
pub fn alike_set<N: Exact>(
    alloc: Global,
    set: &SetForm,
    other: &Solver<N>,
) -> Result<Solver<N>, Memory>
    requires model { IsSetOfModel N.limit set.now }
    requires few { IsFewSet set.now }
    ensures made { IfOk result (λ solver. IsMadeAs (program_of_set set.now) solver) }
    ensures limit { IfOk result (λ solver. solver.limit ≡ other.now.limit) }
{
    let lp = set_lp(alloc, set)?;
    Solver::alike(alloc, &lp, other)
}

/// The differences of the first pairs of the solver's point: of the set's program, the parameters.
pub fn parameters<N: Exact>(
    alloc: Global,
    solver: &Solver<N>,
    count: u32,
) -> Result<List<N>, Memory>
    requires point { HasPoint solver.now }
    requires few { count < 2 ^ 31 }
    requires inside { count + count ≤ solver.now.columns }
    requires pairs { (c : ℕ) → c < count
        → OneIsZero (point_of solver.now (plus c)) (point_of solver.now (minus c)) }
    ensures parameters { IfOk result (λ list. map N.value list
        ≡ differences count (point_of solver.now)) }
{
    let numbers = point(alloc, solver, 2 * count)?;
    pair_differences(alloc, numbers.items(), count as usize)
}
