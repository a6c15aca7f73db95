//! The canonical text of a model.

ghost use Rattle.std.specs.Prelude.{◌≡◌, ◌++◌, true, [], ◌∷◌, map, fold, OnOk, IfOk};
ghost use Rattle.rob_meaning.specs.RobustModel.{written_count};
ghost use Rattle.rob_model.specs.View.{robust, sense_of, variable_of, adaptive_of, row_of};
ghost use Rattle.rob_write.specs.Pages.{put, put_line};
ghost use Rattle.rob_write.specs.WrittenModel.{row_written, written_model};
ghost use Rattle.rob_write.specs.ExpressionWords.{name_at, naming_of, listed};
ghost use Rattle.rob_write.specs.StatementWords.{goal_word, goal_words, variable_words, adaptive_words, row_words, over_words, lines_over};
ghost use Rattle.rob_write.specs.Canonical.{model_text};

use crate::expression_writer::{
    put_bounds, put_comma, put_comparison, put_expression, put_parameter_name,
};
use crate::over::{put_over, set_of};
use crate::page::Page;
use crate::set_writer::put_set;
use rob_model::{Adaptive, Model, RowDef, Sense, Var};
use rob_number::{Exact, Memory, Text};
use rob_syntax::{Keyword, Mark};
use std::alloc::Global;

/// The canonical text of a model: parameters, statements on the set, variables, adaptive variables, the goal and rows,
/// each kind in the model's order, a line each, with numbers in lowest terms. A model that a text reads as is read
/// again from it.
pub fn write_model<N: Exact>(alloc: Global, model: &Model<N>) -> Result<Text, Memory>
    ensures written { IfOk result (λ text. text ≡ model_text (robust N.value model.now)) }
{
    let mut page = Page::blank(alloc);
    put_set(&mut page, model)?;
    put_decisions(&mut page, model)?;
    Ok(page.text)
}

/// Writes the variables, the adaptive variables, the goal and the rows.
fn put_decisions<N: Exact>(page: &mut Page, model: &Model<N>) -> Result<(), Memory>
    ensures written { OnOk result (page.new ≡ fold put_line (put_line (fold put_line
        (fold put_line page.old (map variable_words (map (variable_of N.value) model.now.vars)))
        (map (adaptive_words (naming_of (robust N.value model.now)))
        (map (adaptive_of N.value) model.now.adaptives)))
        (goal_words (naming_of (robust N.value model.now)) (sense_of model.now.sense)
        (written_model (robust N.value model.now)).objective
        ++ over_words model.now.sets model.now.objective_set))
        (lines_over (row_words (naming_of (robust N.value model.now))) model.now.sets
        (written_model (robust N.value model.now)).rows model.now.row_sets)) }
{
    put_variables(page, model.vars.items())?;
    put_adaptives(page, model, model.adaptives.items())?;
    put_goal(page, model)?;
    put_rows(page, model, model.rows.items(), model.row_sets.items())
}

/// Writes a line for each variable.
fn put_variables<N: Exact>(page: &mut Page, vars: &[Var<N>]) -> Result<(), Memory>
    ensures written { OnOk result (page.new
        ≡ fold put_line page.old (map variable_words (map (variable_of N.value) vars.now))) }
{
    for var in vars {
        put_variable(page, var)?;
    }
    Ok(())
}

/// Writes the line of a variable.
fn put_variable<N: Exact>(page: &mut Page, var: &Var<N>) -> Result<(), Memory>
    ensures written { OnOk result (page.new
        ≡ put_line page.old (variable_words (variable_of N.value var.now))) }
{
    page.keyword(Keyword::Var)?;
    page.name(var.name.bytes())?;
    put_bounds(page, var.lower, var.upper)?;
    page.line_end()
}

/// Writes a line for each adaptive variable.
fn put_adaptives<N: Exact>(
    page: &mut Page,
    model: &Model<N>,
    adaptives: &[Adaptive<N>],
) -> Result<(), Memory>
    ensures written { OnOk result (page.new ≡ fold put_line page.old
        (map (adaptive_words (naming_of (robust N.value model.now)))
        (map (adaptive_of N.value) adaptives.now))) }
{
    for adaptive in adaptives {
        put_adaptive(page, model, adaptive)?;
    }
    Ok(())
}

/// Writes the line of an adaptive variable.
fn put_adaptive<N: Exact>(
    page: &mut Page,
    model: &Model<N>,
    adaptive: &Adaptive<N>,
) -> Result<(), Memory>
    ensures written { OnOk result (page.new ≡ put_line page.old
        (adaptive_words (naming_of (robust N.value model.now))
        (adaptive_of N.value adaptive.now))) }
{
    page.keyword(Keyword::Adaptive)?;
    page.name(adaptive.name.bytes())?;
    page.sign(Mark::Open)?;
    put_list(page, model, adaptive.on.items())?;
    page.sign(Mark::Close)?;
    put_bounds(page, adaptive.lower, adaptive.upper)?;
    page.line_end()
}

/// Writes the names of some parameters.
fn put_list<N: Exact>(page: &mut Page, model: &Model<N>, on: &[u32]) -> Result<(), Memory>
    ensures written { OnOk result (page.new ≡ fold put page.old
        (listed (λ k. name_at (naming_of (robust N.value model.now)).parameters k ∷ []) true
        on.now)) }
{
    let mut first = true;
    for k in on {
        put_comma(page, first)?;
        put_parameter_name(page, model, *k)?;
        first = false;
    }
    Ok(())
}

/// Writes the goal's line.
fn put_goal<N: Exact>(page: &mut Page, model: &Model<N>) -> Result<(), Memory>
    ensures written { OnOk result (page.new
        ≡ put_line page.old (goal_words (naming_of (robust N.value model.now))
        (sense_of model.now.sense) (written_model (robust N.value model.now)).objective
        ++ over_words model.now.sets model.now.objective_set)) }
{
    put_sense(page, model.sense)?;
    put_expression(page, model, &model.objective)?;
    put_over(page, model.sets.items(), model.objective_set)?;
    page.line_end()
}

/// Writes the word of a sense.
fn put_sense(page: &mut Page, sense: Sense) -> Result<(), Memory>
    ensures written { OnOk result (page.new ≡ put page.old (goal_word (sense_of sense))) }
{
    match sense {
        Sense::Minimise => page.keyword(Keyword::Minimise),
        Sense::Maximise => page.keyword(Keyword::Maximise),
    }
}

/// Writes a line for each row.
fn put_rows<N: Exact>(
    page: &mut Page,
    model: &Model<N>,
    rows: &[RowDef<N>],
    of_rows: &[u32],
) -> Result<(), Memory>
    ensures written { OnOk result (page.new ≡ fold put_line page.old
        (lines_over (row_words (naming_of (robust N.value model.now))) model.now.sets
        (map (row_written (written_count (robust N.value model.now)))
        (map (row_of N.value) rows.now)) of_rows.now)) }
{
    for (i, row) in rows.iter().enumerate() {
        put_row(page, model, row)?;
        put_over(page, model.sets.items(), set_of(of_rows, i))?;
        page.line_end()?;
    }
    Ok(())
}

/// Writes a row.
fn put_row<N: Exact>(page: &mut Page, model: &Model<N>, row: &RowDef<N>) -> Result<(), Memory>
    ensures written { OnOk result (page.new
        ≡ fold put page.old (row_words (naming_of (robust N.value model.now))
        (row_written (written_count (robust N.value model.now)) (row_of N.value row.now)))) }
{
    page.keyword(Keyword::Row)?;
    page.name(row.name.bytes())?;
    page.sign(Mark::Colon)?;
    put_comparison(page, model, &row.left, row.rel, &row.right)
}
