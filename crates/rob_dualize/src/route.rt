//! The route: the set's program first, then the counterpart.

ghost use Rattle.std.specs.Prelude.{IfOk, IfErr};
ghost use Rattle.rob_number.specs.Counts.{NeverFell};
ghost use Rattle.rob_elab.specs.Elaborated.{AreElaborated};
ghost use Rattle.rob_solver.specs.Solving.{CountsSolving};
ghost use Rattle.rob_dualize.specs.Ending.{IsSolvedAs, IsStoppedAs};
ghost use Rattle.rob_dualize.specs.Solving.{Solves};
ghost use Rattle.rob_dualize.specs.Wholes.{counterpart_in, counterpart_of, FitsSolver, IsFew, HoldsOfEach};

use crate::certificate::certificate;
use crate::counterpart::program_rows;
use crate::elaborated::Elaborated;
use crate::scenario::scenario;
use crate::stop::{or_stop, position, wide};
use rob_cert::{Cert, Stop};
use rob_elab::Forms;
use rob_model::Program;
use rob_number::{Exact, Ledger};
use rob_sets::SetForm;
use rob_solver::{Solved, Stopped, solve};
use std::alloc::Global;

/// Solves the model of the forms and the set rows by its robust counterpart. The certificate's numbers are those of the
/// counterpart's last basis: its plan, bound and covers are the basic solution, its direction and holds the basic
/// direction, its items the dual values or the Farkas weights; the scale and the items' weights are 1. `EmptySet` comes
/// only where no scenario is admitted, with the weights of the set rows that show it; `Wide` only where a row of a
/// basis on the path of the set's program or of the counterpart has a number over 2^126 - 1, or tells at the last
/// basis one over the limit, and names that row; that some row has a number over the limit is no refusal.
pub fn solve_dual<N: Exact, L: Ledger>(
    alloc: Global,
    forms: &Forms,
    set: &SetForm,
    ledger: &mut L,
) -> Result<Cert<N>, Stop>
    requires model { AreElaborated N.limit forms.now set.now }
    requires few { IsFew (counterpart_of forms.now set.now) }
    ensures solves { HoldsOfEach forms.now set.now
        (λ m. Solves N.value N.limit m (L.wides ledger.old) (L.wides ledger.new) result) }
    ensures counted { NeverFell L.ops L.wides ledger.old ledger.new }
{
    let model = Elaborated { forms, set };
    let inside = scenario(alloc, model, ledger)?;
    let rows = program_rows(model) as u32;
    match solve_counterpart::<N, L>(alloc, model, ledger) {
        Ok(Solved { solver, kind }) => or_stop(certificate(alloc, model, &solver, kind, inside)),
        Err(Stopped::Wide(solver, stop)) => {
            Err(wide(alloc, &solver, Program::Reform, rows, position(stop)))
        }
        Err(Stopped::Memory) => Err(Stop::Memory),
    }
}

/// Solves the counterpart, which is told row by row.
fn solve_counterpart<N: Exact, L: Ledger>(
    alloc: Global,
    model: Elaborated,
    ledger: &mut L,
) -> Result<Solved<N>, Stopped<N>>
    requires model { FitsSolver N.limit model }
    ensures solved { IfOk result (IsSolvedAs (counterpart_in model.entry)) }
    ensures stopped { IfErr result (IsStoppedAs N.limit (counterpart_in model.entry)) }
    ensures counted { CountsSolving L.ops L.wides ledger.old ledger.new result }
{
    solve(alloc, &model, ledger)
}
