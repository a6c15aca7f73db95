//! What a search is set: a form at a vector, in whole numbers.

ghost use Rattle.std.specs.Prelude.{◌≡◌, ◌<◌, suc, true, false, map, length, IfOk, MatchResult};
ghost use Rattle.rob_meaning.specs.RobustModel.{RobustModel};
ghost use Rattle.rob_sets.specs.SetForm.{IsSetForm};
ghost use Rattle.rob_elab.specs.Elaborated.{AreElaborated};
ghost use Rattle.rob_elab.specs.Forms.{IsForms};
ghost use Rattle.rob_worst.specs.Finding.{HasSearchCause};
ghost use Rattle.rob_worst.specs.Tasks.{FitsSet, IsTaskOf};
ghost use Rattle.rob_worst.specs.Vectors.{plan_of, step_of};

use crate::cost::{costs, part};
use crate::refusal::place;
use crate::vector::{cleared, plan_vector, step_vector};
use rob_cert::Stop;
use rob_dualize::Elaborated;
use rob_dualize::stop::wide_at;
use rob_model::{Plan, Spot, Where};
use rob_number::{Exact, List};
use rob_sets::clearing::denominator;
use rob_sets::error::Stop as Refusal;
use std::alloc::Global;

/// The search for the worst case of a form, in whole numbers.
pub struct Task {
    /// The form, by its number.
    pub form: u32,
    /// Whether it is taken at a direction, and not at a plan.
    pub by_step: bool,
    /// The number of parameters, which are the first columns of the set.
    pub params: u32,
    /// The least common denominator of the plan with its bound, or of the direction.
    pub common: i64,
    /// The form's constant part at the cleared vector.
    pub constant: i64,
    /// The costs of the set's program: for each set column the form's number, and behind it its negation.
    pub cost: List<i64>,
}

impl Drop for Task {
    /// Lets go of it in one call. A derived drop would stand in each function that does.
    fn drop(self) {
        let Task {
            form: _form,
            by_step: _by_step,
            params: _params,
            common: _common,
            constant: _constant,
            cost: _cost,
        } = self;
    }
}

/// The search for a form at a plan with its bound.
pub fn plan_task<N: Exact>(
    alloc: Global,
    model: Elaborated,
    form: u32,
    plan: &Plan<N>,
) -> Result<Task, Stop>
    requires model { AreElaborated N.limit model.forms.now model.set.now }
    requires form_in { form < length model.forms.now.matrices }
    requires size { length plan.now.columns ≡ model.forms.now.columns }
    ensures fits { IfOk result (λ task. FitsSet N.limit model.entry.set.now.columns task) }
    ensures task { (m : RobustModel) → IsForms m model.entry.forms.now
        → IsSetForm m model.entry.set.now → MatchResult result
        (IsTaskOf m false form (plan_of N.value plan.now))
        (HasSearchCause N.limit m false form (plan_of N.value plan.now)) }
{
    let vector = plan_vector(alloc, plan)?;
    task_at(alloc, model, form, false, vector.items())
}

/// The search for a form at a direction with its bound.
pub fn step_task<N: Exact>(
    alloc: Global,
    model: Elaborated,
    form: u32,
    step: &[N],
) -> Result<Task, Stop>
    requires model { AreElaborated N.limit model.forms.now model.set.now }
    requires form_in { form < length model.forms.now.matrices }
    requires size { length step.now ≡ suc model.forms.now.columns }
    ensures fits { IfOk result (λ task. FitsSet N.limit model.entry.set.now.columns task) }
    ensures task { (m : RobustModel) → IsForms m model.entry.forms.now
        → IsSetForm m model.entry.set.now → MatchResult result
        (IsTaskOf m true form (step_of N.value step.now))
        (HasSearchCause N.limit m true form (step_of N.value step.now)) }
{
    let vector = step_vector(alloc, step)?;
    task_at(alloc, model, form, true, vector.items())
}

/// The search for a form at a vector, which is a plan's or, by step, a direction's.
fn task_at<N: Exact>(
    alloc: Global,
    model: Elaborated,
    form: u32,
    by_step: bool,
    vector: &[N],
) -> Result<Task, Stop>
    requires model { AreElaborated N.limit model.forms.now model.set.now }
    requires form_in { form < length model.forms.now.matrices }
    requires size { length vector.now ≡ suc (suc model.forms.now.columns) }
    ensures fits { IfOk result (λ task. FitsSet N.limit model.entry.set.now.columns task) }
    ensures task { (m : RobustModel) → IsForms m model.entry.forms.now
        → IsSetForm m model.entry.set.now → MatchResult result
        (IsTaskOf m by_step form (map N.value vector.now))
        (HasSearchCause N.limit m by_step form (map N.value vector.now)) }
{
    let common = match denominator(vector) {
        Some(common) => common,
        None => return Err(wide_at(alloc, Spot::Clearing(place(by_step)))),
    };
    let whole = match cleared(alloc, vector, common) {
        Ok(whole) => whole,
        Err(Refusal::Wide) => return Err(wide_at(alloc, Spot::Clearing(place(by_step)))),
        Err(Refusal::Memory) => return Err(Stop::Memory),
    };
    let constant = match part::<N>(model.forms, form as usize, 0, whole.items()) {
        Some(constant) => constant,
        None => return Err(wide_at(alloc, Spot::Sum(Where::Cost(form), 0))),
    };
    let cost = costs::<N>(alloc, model.forms, model.set.columns, form, whole.items())?;
    Ok(Task {
        form,
        by_step,
        params: model.forms.params,
        common: common as i64,
        constant,
        cost,
    })
}
