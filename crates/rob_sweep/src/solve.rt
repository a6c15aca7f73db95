//! The answer for one model, by one solve of its robust counterpart.

ghost use Rattle.std.specs.Prelude.{◌≡◌, IfOk, IfErr, OnOk};
ghost use Rattle.rob_cert.specs.View.{status_of};
ghost use Rattle.rob_elab.specs.Written.{IsWritten};
ghost use Rattle.rob_model.specs.Valid.{IsValid};
ghost use Rattle.rob_model.specs.View.{robust};
ghost use Rattle.rob_number.specs.Counts.{NeverFell};
ghost use Rattle.rob_reach.specs.Sweeps.{Answers};
ghost use Rattle.rob_sets.specs.FirstWide.{RoseIfWide};
ghost use Rattle.rob_sweep.specs.Answering.{HasCause, NamesEmpty};
ghost use Rattle.rob_sweep.specs.View.{answer_of, status_answer};

use crate::answer::SweepAnswer;
use rob_cert::{Cert, Status, Stop};
use rob_dualize::solve_model;
use rob_model::Model;
use rob_number::{Exact, Ledger};
use rob_sets::ElabErr;
use std::alloc::Global;

/// The model's status, or that one of its sets admits no scenario. `Wide` names the first number of its set rows and
/// forms that is wide; or, where none is, a row on the path of the set's program or of the counterpart.
pub fn answer<N: Exact, L: Ledger>(
    alloc: Global,
    model: &Model<N>,
    ledger: &mut L,
) -> Result<SweepAnswer<N>, ElabErr>
    requires valid { IsValid N.value model.now }
    // An answer comes only where nothing is wide when the model is written in whole numbers.
    ensures written { OnOk result (IsWritten N.limit (robust N.value model.now)) }
    ensures answers { IfOk result (λ answer. Answers (robust N.value model.now)
        (answer_of N.value answer)) }
    ensures empty { IfOk result (λ answer. NamesEmpty (robust N.value model.now)
        (answer_of N.value answer)) }
    ensures cause { IfErr result (HasCause N.limit (robust N.value model.now)) }
    ensures rose { IfErr result (RoseIfWide (L.wides ledger.old) (L.wides ledger.new)) }
    ensures counted { NeverFell L.ops L.wides ledger.old ledger.new }
{
    match solve_model(alloc, model, ledger) {
        Ok(cert) => Ok(claimed(&cert)),
        Err(Stop::EmptySet(_)) => Ok(SweepAnswer::Empty),
        Err(Stop::Wide(spot, _)) => Err(ElabErr::Wide(spot)),
        Err(Stop::Memory) => Err(ElabErr::Memory),
    }
}

/// What a certificate claims.
fn claimed<N: Exact>(cert: &Cert<N>) -> SweepAnswer<N>
    ensures claim { answer_of N.value result
        ≡ status_answer (status_of cert.now.status) (N.value cert.now.value) }
{
    match cert.status {
        Status::Optimal => SweepAnswer::Optimal(cert.value),
        Status::Infeasible => SweepAnswer::Infeasible,
        Status::Unbounded => SweepAnswer::Unbounded,
    }
}
