//! A model in whole numbers, and the calls on it.

ghost use Rattle.std.specs.Prelude.{IfOk};
ghost use Rattle.rob_dualize.specs.SetSolving.{IsFewSet};
ghost use Rattle.rob_elab.specs.Elaborated.{IsElaborated};
ghost use Rattle.rob_model.specs.Valid.{IsValid};
ghost use Rattle.rob_model.specs.View.{robust};

use crate::answer::Answer;
use crate::stops::refused;
use crate::{cuts, worst};
use rob_case::Trouble;
use rob_elab::Forms;
use rob_elab::writing::written;
use rob_model::Model;
use rob_number::{Exact, Tally};
use rob_sets::SetForm;

/// A model in whole numbers.
#[derive(Drop)]
pub(crate) struct Written {
    pub(crate) set: SetForm,
    pub(crate) forms: Forms,
}

/// The answer of a call on a model in whole numbers. It alone has that: what it calls is lent it.
pub(crate) fn answer<N: Exact>(
    answer: &mut Answer,
    model: &Model<N>,
    word: &str,
    line: &str,
) -> Result<(), Trouble>
    requires valid { IsValid N.value model.now }
{
    match written(answer.alloc, model, &mut Tally::new()) {
        Ok((forms, set)) => of_whole(answer, model, &Written { set, forms }, word, line),
        Err(error) => refused(answer, error, word == "cuts-text"),
    }
}

/// The answer of a call on whole numbers: of cutting planes, or of worst scenarios.
fn of_whole<N: Exact>(
    answer: &mut Answer,
    model: &Model<N>,
    whole: &Written,
    word: &str,
    line: &str,
) -> Result<(), Trouble>
    requires valid { IsValid N.value model.now }
    requires elaborated { IsElaborated N.limit
        (robust N.value model.now) whole.now.forms whole.now.set }
{
    checked(&whole.set)?;
    match word {
        "cuts" => cuts::solved(answer, model, whole, false, &mut Tally::new()),
        "cuts-text" => cuts::solved(answer, model, whole, true, &mut Tally::new()),
        "cuts-counts" => cuts::counted(answer, model, whole),
        _ => worst::answer::<N>(answer, whole, word, line),
    }
}

/// Goes on where a solver takes the set.
fn checked(set: &SetForm) -> Result<(), Trouble>
    ensures few { IfOk result (λ _. IsFewSet set.now) }
{
    if set.columns > 1 << 20 || set.rows.items().len() > 1 << 20 {
        return Err(Trouble::Line);
    }
    Ok(())
}
