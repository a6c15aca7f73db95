//! A search, from the last basis of the set's program: on the rows that stand, and on deeper ones where those stop.

ghost use Rattle.std.specs.Prelude.{◌≡◌, ◌<◌, ℕ, Bool, List, length, IfOk, MatchResult};
ghost use Rattle.rob_algebra.specs.Fraction.{Fraction};
ghost use Rattle.rob_meaning.specs.Forms.{matrices, form_columns};
ghost use Rattle.rob_meaning.specs.RobustModel.{RobustModel};
ghost use Rattle.rob_number.specs.Counts.{CountsOnly, NeverFell};
ghost use Rattle.rob_sets.specs.SetForm.{IsSetForm};
ghost use Rattle.rob_simplex.specs.Solvers.{positions};
ghost use Rattle.rob_dualize.specs.SetSolving.{program_of_set, IsFewSet, IsSetOfModel};
ghost use Rattle.rob_dualize.specs.Solving.{CountsStop};
ghost use Rattle.rob_solver.specs.Depths.{deep_limit};
ghost use Rattle.rob_worst.specs.Finders.{CanGoOn, HasStoppedSearch, TellsTask};
ghost use Rattle.rob_worst.specs.Finding.{HasConstantWithin, HasSearchCause, Searches};
ghost use Rattle.rob_worst.specs.Tasks.{IsTaskOf};

use crate::reading::told;
use crate::refusal::program;
use crate::task::Task;
use rob_cert::{Stop, Worst};
use rob_dualize::stop::{position, wide};
use rob_number::{Exact, Ledger, Memory};
use rob_sets::SetForm;
use rob_simplex::LpStop;
use rob_solver::Solver;
use std::alloc::Global;

/// A search that its rows stopped.
#[derive(Clone, Copy)]
pub struct Stopped<'a, N: Exact> {
    /// Stands where they did.
    pub solver: &'a Solver<N>,
    /// The row, or the stage of the objective, that they refuse.
    pub stop: LpStop,
}

/// Goes on with the task's cost from the last basis of the set's program, where the solver stands, and tells what is
/// found there; or the rows stop it. A stop is not counted.
pub fn go_on<N: Exact, L: Ledger>(
    alloc: Global,
    set: &SetForm,
    task: &Task,
    solver: &mut Solver<N>,
    ledger: &mut L,
) -> Result<Result<Worst<N>, LpStop>, Memory>
    requires ready { CanGoOn N.limit set.now task.now solver.old }
    ensures found { IfOk result (λ answer. MatchResult answer (TellsTask N.value set.now task.now)
        (λ stop. HasStoppedSearch N.limit (program_of_set set.now) task.now.cost stop solver.new)) }
    ensures within { IfOk result (λ answer. IfOk answer (HasConstantWithin N.limit)) }
    ensures columns { solver.new.columns ≡ solver.old.columns }
    ensures positions { positions solver.new ≡ positions solver.old }
    ensures limit { solver.new.limit ≡ solver.old.limit }
    ensures counted { CountsOnly L.ops L.wides ledger.old ledger.new }
{
    match solver.resume(task.cost.items(), ledger) {
        Ok(kind) => Ok(Ok(told(alloc, set, task, kind, solver)?)),
        Err(stop) => Ok(Err(stop)),
    }
}

/// The search where its rows stopped it: once more from the last basis of the set's program, which a solver over deep
/// rows takes over. That one is let go of behind the answer. Where the rows are deep ones, the stop is the answer.
pub fn go_deeper<N: Exact, L: Ledger>(
    alloc: Global,
    set: &SetForm,
    task: &Task,
    solved: &Solver<N>,
    stopped: Stopped<N>,
    ledger: &mut L,
) -> Result<Worst<N>, Stop>
    requires model { IsSetOfModel N.limit set.now }
    requires ready { CanGoOn N.limit set.now task.now solved.now }
    requires rows { length set.now.rows ≡ positions stopped.solver.now }
    requires depth { stopped.solver.now.limit ≡ solved.now.limit }
    requires stopped { HasStoppedSearch N.limit
        (program_of_set set.now) task.now.cost stopped.stop stopped.solver.now }
    ensures answer { (m : RobustModel) → IsSetForm m set.now
        → (step : Bool) (i : ℕ) → i < length (matrices m) → (z : List Fraction)
        → length z ≡ form_columns m → IsTaskOf m step i z task.now
        → Searches N.value N.limit m step i z (L.wides ledger.old) (L.wides ledger.new) result }
    ensures within { IfOk result (HasConstantWithin N.limit) }
    ensures counted { NeverFell L.ops L.wides ledger.old ledger.new }
{
    if solved.is_deep() {
        return Err(refused(alloc, set, task, stopped, ledger));
    }
    let mut deep = solved.deepened(alloc)?;
    match go_on(alloc, set, task, &mut deep, ledger) {
        Ok(Ok(worst)) => Ok(worst),
        Ok(Err(stop)) => {
            let solver = &deep;
            Err(refused(alloc, set, task, Stopped { solver, stop }, ledger))
        }
        Err(Memory) => Err(Stop::Memory),
    }
}

/// The stop at the row where the solver, whose rows are deep, stands, counted.
fn refused<N: Exact, L: Ledger>(
    alloc: Global,
    set: &SetForm,
    task: &Task,
    stopped: Stopped<N>,
    ledger: &mut L,
) -> Stop
    requires few { IsFewSet set.now }
    requires rows { length set.now.rows ≡ positions stopped.solver.now }
    requires depth { stopped.solver.now.limit ≡ deep_limit }
    requires stopped { HasStoppedSearch N.limit
        (program_of_set set.now) task.now.cost stopped.stop stopped.solver.now }
    ensures cause { (m : RobustModel) → IsSetForm m set.now → (step : Bool) (i : ℕ)
        → (z : List Fraction)
        → IsTaskOf m step i z task.now → HasSearchCause N.limit m step i z result }
    ensures wides { CountsStop (L.wides ledger.old) (L.wides ledger.new) result }
    ensures counted { NeverFell L.ops L.wides ledger.old ledger.new }
{
    ledger.wide();
    let rows = set.rows.items().len() as u32;
    let program = program(task.by_step, task.form);
    wide(alloc, stopped.solver, program, rows, position(stopped.stop))
}
