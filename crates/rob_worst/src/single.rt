//! A single search: a new finder, and one call on it.

ghost use Rattle.std.specs.Prelude.{◌≡◌, ◌<◌, suc, true, false, length, IfOk};
ghost use Rattle.rob_number.specs.Counts.{NeverFell};
ghost use Rattle.rob_elab.specs.Elaborated.{AreElaborated};
ghost use Rattle.rob_dualize.specs.SetSolving.{IsFewSet};
ghost use Rattle.rob_dualize.specs.Wholes.{HoldsOfEach};
ghost use Rattle.rob_worst.specs.Finding.{FindsWorst, HasConstantWithin};
ghost use Rattle.rob_worst.specs.Vectors.{plan_of, step_of};

use crate::finder::Finder;
use rob_cert::{Stop, Worst};
use rob_elab::Forms;
use rob_model::Plan;
use rob_number::{Exact, Ledger};
use rob_sets::SetForm;
use std::alloc::Global;

/// The worst scenario of a form at a plan with its bound: the greatest value of the form's parameter part over the set,
/// times the plan's least common denominator, with a scenario that has it, and amounts of the set rows that show it; or
/// a ray of the set along which the form grows. `form` counts from 0. `EmptySet` comes only where no scenario is
/// admitted, `Wide` only where a number of the set's program or of the search is over the limit, `Memory` where memory
/// is refused.
pub fn worst<N: Exact, L: Ledger>(
    alloc: Global,
    forms: &Forms,
    set: &SetForm,
    form: u32,
    plan: &Plan<N>,
    ledger: &mut L,
) -> Result<Worst<N>, Stop>
    requires model { AreElaborated N.limit forms.now set.now }
    requires few { IsFewSet set.now }
    requires form_in { form < length forms.now.matrices }
    requires size { length plan.now.columns ≡ forms.now.columns }
    ensures answer { HoldsOfEach forms.now set.now
        (λ m. FindsWorst N.value N.limit m false form (plan_of N.value plan.now)
        (L.wides ledger.old) (L.wides ledger.new) result) }
    ensures within { IfOk result (HasConstantWithin N.limit) }
    ensures counted { NeverFell L.ops L.wides ledger.old ledger.new }
{
    let mut finder = Finder::<N>::new(alloc, set, ledger)?;
    finder.at_plan(alloc, forms, set, form, plan, ledger)
}

/// The same along a direction: a number for each decision column, and last the one for the bound. The constant column
/// counts 0. Errors are those of `worst`.
pub fn worst_step<N: Exact, L: Ledger>(
    alloc: Global,
    forms: &Forms,
    set: &SetForm,
    form: u32,
    step: &[N],
    ledger: &mut L,
) -> Result<Worst<N>, Stop>
    requires model { AreElaborated N.limit forms.now set.now }
    requires few { IsFewSet set.now }
    requires form_in { form < length forms.now.matrices }
    requires size { length step.now ≡ suc forms.now.columns }
    ensures answer { HoldsOfEach forms.now set.now
        (λ m. FindsWorst N.value N.limit m true form (step_of N.value step.now)
        (L.wides ledger.old) (L.wides ledger.new) result) }
    ensures within { IfOk result (HasConstantWithin N.limit) }
    ensures counted { NeverFell L.ops L.wides ledger.old ledger.new }
{
    let mut finder = Finder::<N>::new(alloc, set, ledger)?;
    finder.at_step(alloc, forms, set, form, step, ledger)
}
