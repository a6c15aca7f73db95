//! A scenario that is admitted, or weights that show that there is none.

ghost use Rattle.rob_number.specs.Counts.{NeverFell};
ghost use Rattle.rob_dualize.specs.SetSolving.{Finds};
ghost use Rattle.rob_dualize.specs.Wholes.{FitsSolver, HoldsOfEach};

use crate::elaborated::Elaborated;
use crate::set_program::{parameters, solved_set};
use rob_cert::Stop;
use rob_model::Scenario;
use rob_number::{Exact, Ledger};
use std::alloc::Global;

/// A scenario of the set: the parameters of the basic solution of the last basis of the set's program. Else the Farkas
/// weights of that basis, which show that no scenario is admitted, or the row on the program's path for which it is
/// refused.
pub fn scenario<N: Exact, L: Ledger>(
    alloc: Global,
    model: Elaborated,
    ledger: &mut L,
) -> Result<Scenario<N>, Stop>
    requires model { FitsSolver N.limit model }
    ensures found { HoldsOfEach model.entry.forms.now model.entry.set.now
        (λ m. Finds N.value N.limit m (L.wides ledger.old) (L.wides ledger.new) result) }
    ensures counted { NeverFell L.ops L.wides ledger.old ledger.new }
{
    let solver = solved_set::<N, L>(alloc, model.set, ledger)?;
    let values = parameters(alloc, &solver, model.forms.params)?;
    Ok(Scenario { values })
}
