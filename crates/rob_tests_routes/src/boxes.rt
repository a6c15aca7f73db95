//! Rules on named variables, copies of models, and boxes.

ghost use Rattle.std.specs.Prelude.{◌≡◌, ◌≤◌, nat_abs, None, IfOk};
ghost use Rattle.rob_model.specs.Valid.{IsValid};
ghost use Rattle.rob_model.specs.View.{robust};
ghost use Rattle.rob_reach.specs.Ranges.{KeepsBothBounds, whole_rule as first_rule};

use crate::answer::Answer;
use crate::given;
use rob_case::Trouble;
use rob_case::numbers::{small, whole};
use rob_case::text::keyword;
use rob_model::{Model, copy_model};
use rob_number::Exact;
use rob_tree::{Branch, behind, whole_rule};
use rob_write::write_model;

/// The canonical text of the model's copy.
pub(crate) fn copied<N: Exact>(answer: &mut Answer, model: &Model<N>) -> Result<(), Trouble> {
    let copy = copy_model(answer.alloc, model)?;
    model_text(answer, &copy)
}

/// The canonical text of a model, as bytes are shown.
pub(crate) fn model_text<N: Exact>(answer: &mut Answer, model: &Model<N>) -> Result<(), Trouble> {
    answer.show(write_model(answer.alloc, model)?)
}

/// The first rule that the columns of a line break.
pub(crate) fn rule<N: Exact>(
    answer: &mut Answer,
    model: &Model<N>,
    line: &str,
) -> Result<(), Trouble> {
    let columns = given::columns(answer.alloc, line)?;
    match whole_rule(model, columns.as_slice()) {
        Some(rule) => answer.tell("rule ", &rule),
        None => answer.say("kept"),
    }
}

/// Goes on where the columns keep both rules.
pub(crate) fn keeps_rules<N: Exact>(model: &Model<N>, columns: &[u32]) -> Result<(), Trouble>
    ensures rule { IfOk result (λ _. first_rule (robust N.value model.now) columns.now ≡ None) }
    ensures bounded { IfOk result (λ _. KeepsBothBounds (robust N.value model.now) columns.now) }
{
    match whole_rule(model, columns) {
        None => Ok(()),
        Some(_) => Err(Trouble::Line),
    }
}

/// The canonical text of the box of a line's column and number: where the column is at most the number, or at least.
pub(crate) fn boxed<N: Exact>(
    answer: &mut Answer,
    model: &Model<N>,
    line: &str,
    at_most: bool,
) -> Result<(), Trouble>
    requires valid { IsValid N.value model.now }
{
    let (column, k) = keyword(line);
    let branch = Branch {
        column: small(column)?,
        at_most,
        k: whole(k)?,
    };
    if branch.k > N::LIMIT || branch.k < -N::LIMIT {
        return Err(Trouble::Line);
    }
    box_text(answer, model, branch)
}

/// The canonical text of the box behind a branch on a variable that has both bounds.
fn box_text<N: Exact>(answer: &mut Answer, model: &Model<N>, branch: Branch) -> Result<(), Trouble>
    requires valid { IsValid N.value model.now }
    requires within { nat_abs branch.k ≤ N.limit }
{
    keeps_rules(model, &[branch.column])?;
    let boxed = behind(answer.alloc, model, branch)?;
    model_text(answer, &boxed)
}
