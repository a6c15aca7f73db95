//! The forms of a model, in order.

ghost use Rattle.std.specs.Prelude.{◌≡◌, zero, [], OnOk, IfOk, IfErr};
ghost use Rattle.rob_number.specs.Counts.{NeverFell};
ghost use Rattle.rob_meaning.specs.Forms.{forms as forms_of};
ghost use Rattle.rob_model.specs.Valid.{IsValid};
ghost use Rattle.rob_model.specs.View.{robust};
ghost use Rattle.rob_sets.specs.FirstWide.{HasCause, NothingWide, RoseIfWide};
ghost use Rattle.rob_elab.specs.Appending.{Appends};
ghost use Rattle.rob_elab.specs.Forms.{FormsFit, IsForms, judged_forms};

use crate::bounds::{append_adaptive_bounds, append_variable_bounds};
use crate::forms::Forms;
use crate::objective::append_objective;
use crate::rows::append_rows;
use rob_model::Model;
use rob_model::names::column_count;
use rob_number::{Exact, Ledger, List};
use rob_sets::{ElabErr, SetForm};
use std::alloc::Global;

/// The forms of a model in whole numbers: each matrix times its least common denominator. Forms are computed in order,
/// and in each the coefficients, subexpression by subexpression, come before the clearing; `Wide` names the first spot
/// of that order where a number is wide. The set form is that of the model; the forms don't depend on it. A form takes
/// time in proportion to its tree and to its matrix, which is filled once.
pub fn elaborate<N: Exact, L: Ledger>(
    alloc: Global,
    model: &Model<N>,
    _set: &SetForm,
    ledger: &mut L,
) -> Result<Forms, ElabErr>
    requires valid { IsValid N.value model.now }
    ensures forms { IfOk result (λ forms. IsForms (robust N.value model.now) forms) }
    ensures fits { IfOk result (λ forms. FormsFit N.limit forms) }
    // An answer comes only where nothing that is judged is wide; a refusal names the first spot where something is.
    ensures none_wide { OnOk result (NothingWide N.limit (robust N.value model.now)
        (judged_forms (robust N.value model.now))) }
    ensures cause { IfErr result (HasCause N.limit (robust N.value model.now)
        (judged_forms (robust N.value model.now))) }
    ensures rose { IfErr result (RoseIfWide (L.wides ledger.old) (L.wides ledger.new)) }
    ensures counted { NeverFell L.ops L.wides ledger.old ledger.new }
{
    let mut matrices = List::new(alloc);
    append_forms(alloc, model, &mut matrices, ledger)?;
    Ok(Forms {
        columns: column_count(model),
        params: model.params.items().len() as u32,
        sense: model.sense,
        matrices,
    })
}

/// Clears and appends all forms: the objective's, those of the rows, and those of declared bounds.
fn append_forms<N: Exact, L: Ledger>(
    alloc: Global,
    model: &Model<N>,
    matrices: &mut List<List<List<i64>>>,
    ledger: &mut L,
) -> Result<(), ElabErr>
    requires valid { IsValid N.value model.now }
    requires empty { matrices.old ≡ [] }
    ensures forms { Appends N.limit (robust N.value model.now) zero
        (forms_of (robust N.value model.now))
        [] matrices.new (L.wides ledger.old) (L.wides ledger.new) result }
    ensures counted { NeverFell L.ops L.wides ledger.old ledger.new }
{
    append_objective(alloc, model, matrices, ledger)?;
    append_rows(alloc, model, matrices, ledger)?;
    append_variable_bounds(alloc, model, matrices, ledger)?;
    append_adaptive_bounds(alloc, model, matrices, ledger)
}
