//! A model in whole numbers: its set rows, then its forms.

ghost use Rattle.std.specs.Prelude.{OnOk, IfOk, IfErr};
ghost use Rattle.rob_number.specs.Counts.{NeverFell};
ghost use Rattle.rob_model.specs.Valid.{IsValid};
ghost use Rattle.rob_model.specs.View.{robust};
ghost use Rattle.rob_sets.specs.FirstWide.{HasCause, RoseIfWide};
ghost use Rattle.rob_elab.specs.Elaborated.{IsElaborated};
ghost use Rattle.rob_elab.specs.Written.{IsWritten, judged};

use crate::elaboration::elaborate;
use crate::forms::Forms;
use rob_model::Model;
use rob_number::{Exact, Ledger};
use rob_sets::{ElabErr, SetForm, clear_set};
use std::alloc::Global;

/// The forms and the set rows of a model. `Wide` names the first spot where a number is wide, that of a set row before
/// those of forms.
pub fn written<N: Exact, L: Ledger>(
    alloc: Global,
    model: &Model<N>,
    ledger: &mut L,
) -> Result<(Forms, SetForm), ElabErr>
    requires valid { IsValid N.value model.now }
    ensures elaborated { IfOk result (λ both. IsElaborated N.limit
        (robust N.value model.now) both.0 both.1) }
    ensures written { OnOk result (IsWritten N.limit (robust N.value model.now)) }
    ensures cause { IfErr result (HasCause N.limit (robust N.value model.now)
        (judged (robust N.value model.now))) }
    ensures rose { IfErr result (RoseIfWide (L.wides ledger.old) (L.wides ledger.new)) }
    ensures counted { NeverFell L.ops L.wides ledger.old ledger.new }
{
    let set = match clear_set(alloc, model, ledger) {
        Ok(set) => set,
        Err(error) => return Err(error),
    };
    match elaborate(alloc, model, &set, ledger) {
        Ok(forms) => Ok((forms, set)),
        Err(error) => Err(error),
    }
}
