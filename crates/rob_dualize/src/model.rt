//! One model: its set rows and forms in whole numbers, and then the route.

ghost use Rattle.std.specs.Prelude.{IfOk, IfErr, OnOk};
ghost use Rattle.rob_cert.specs.View.{certificate_of};
ghost use Rattle.rob_model.specs.Valid.{IsValid};
ghost use Rattle.rob_model.specs.View.{robust};
ghost use Rattle.rob_dualize.specs.Models.{CountsModel, HasModelCause, IsRefusal};
ghost use Rattle.rob_elab.specs.Written.{IsWritten};
ghost use Rattle.rob_dualize.specs.Solving.{IsSolution};

use crate::route::solve_dual;
use crate::stop::wide_at;
use rob_cert::{Cert, Stop};
use rob_elab::{ElabErr, written};
use rob_model::Model;
use rob_number::{Exact, Ledger};
use std::alloc::Global;

/// The certificate of a model, by one solve of its robust counterpart, as `solve_dual` gives it. `EmptySet` comes only
/// where no scenario is admitted, with the weights of the set rows that show it; `Wide` names the first number of the
/// set rows and forms that is wide, or, where none is, a wide row for which the set's program or the counterpart is
/// refused.
pub fn solve_model<N: Exact, L: Ledger>(
    alloc: Global,
    model: &Model<N>,
    ledger: &mut L,
) -> Result<Cert<N>, Stop>
    requires valid { IsValid N.value model.now }
    // A certificate comes only where nothing is wide when the model is written in whole numbers.
    ensures written { OnOk result (IsWritten N.limit (robust N.value model.now)) }
    ensures solved { IfOk result (λ cert. IsSolution (robust N.value model.now)
        (certificate_of N.value cert)) }
    ensures cause { IfErr result (HasModelCause N.limit (robust N.value model.now)) }
    ensures counted { CountsModel L.ops L.wides ledger.old ledger.new result }
{
    match written(alloc, model, ledger) {
        Ok((forms, set)) => solve_dual(alloc, &forms, &set, ledger),
        Err(error) => Err(refused(alloc, error)),
    }
}

/// The same refusal.
fn refused(alloc: Global, error: ElabErr) -> Stop
    ensures stop { IsRefusal error result }
{
    match error {
        ElabErr::Wide(spot) => wide_at(alloc, spot),
        ElabErr::Memory => Stop::Memory,
    }
}
