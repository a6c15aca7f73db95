//! What is written of uncertainty sets: their parameters, their names and the statements on them.

ghost use Rattle.std.specs.Prelude.{◌≡◌, true, map, fold, OnOk};
ghost use Rattle.rob_meaning.specs.RobustModel.{written_count, written_parameters};
ghost use Rattle.rob_model.specs.View.{robust, member_of, parameter_of, set_line_of};
ghost use Rattle.rob_write.specs.Pages.{put, put_line};
ghost use Rattle.rob_write.specs.WrittenModel.{member_written, line_written, written_model};
ghost use Rattle.rob_write.specs.ExpressionWords.{naming_of, listed};
ghost use Rattle.rob_write.specs.StatementWords.{member_words, parameter_words, set_words, declared_set_words, lines_over};

use crate::expression_writer::{
    put_bounds, put_comma, put_comparison, put_number, put_parameter_name,
};
use crate::over::{put_declared_sets, put_over, set_of};
use crate::page::Page;
use crate::written::{written_number, written_params};
use rob_model::{Member, Model, Param, SetLine};
use rob_number::{Exact, Memory};
use rob_syntax::{Keyword, Mark};

/// Writes the parameters and the statements on the set.
pub fn put_set<N: Exact>(page: &mut Page, model: &Model<N>) -> Result<(), Memory>
    ensures written { OnOk result (page.new ≡ fold put_line (fold put_line
        (fold put_line page.old
        (map parameter_words (written_parameters (robust N.value model.now))))
        (map declared_set_words model.now.sets))
        (lines_over (set_words (naming_of (robust N.value model.now))) model.now.sets
        (written_model (robust N.value model.now)).set_lines model.now.line_sets)) }
{
    put_parameters(page, written_params(model))?;
    put_declared_sets(page, model.sets.items())?;
    put_set_lines(
        page,
        model,
        model.set_lines.items(),
        model.line_sets.items(),
    )
}

/// Writes a line for each parameter.
fn put_parameters<N: Exact>(page: &mut Page, params: &[Param<N>]) -> Result<(), Memory>
    ensures written { OnOk result (page.new
        ≡ fold put_line page.old (map parameter_words (map (parameter_of N.value) params.now))) }
{
    for param in params {
        put_parameter(page, param)?;
    }
    Ok(())
}

/// Writes the line of a parameter.
fn put_parameter<N: Exact>(page: &mut Page, param: &Param<N>) -> Result<(), Memory>
    ensures written { OnOk result (page.new
        ≡ put_line page.old (parameter_words (parameter_of N.value param.now))) }
{
    page.keyword(Keyword::Uncertain)?;
    page.name(param.name.bytes())?;
    put_bounds(page, param.lower, param.upper)?;
    page.line_end()
}

/// Writes a line for each statement on the set.
fn put_set_lines<N: Exact>(
    page: &mut Page,
    model: &Model<N>,
    set_lines: &[SetLine<N>],
    of_lines: &[u32],
) -> Result<(), Memory>
    ensures written { OnOk result (page.new ≡ fold put_line page.old
        (lines_over (set_words (naming_of (robust N.value model.now))) model.now.sets
        (map (line_written (written_count (robust N.value model.now)))
        (map (set_line_of N.value) set_lines.now))
        of_lines.now)) }
{
    for (i, set_line) in set_lines.iter().enumerate() {
        put_set_line(page, model, set_line)?;
        put_over(page, model.sets.items(), set_of(of_lines, i))?;
        page.line_end()?;
    }
    Ok(())
}

/// Writes a statement on a set.
fn put_set_line<N: Exact>(
    page: &mut Page,
    model: &Model<N>,
    set_line: &SetLine<N>,
) -> Result<(), Memory>
    ensures written { OnOk result (page.new
        ≡ fold put page.old (set_words (naming_of (robust N.value model.now))
        (line_written (written_count (robust N.value model.now))
        (set_line_of N.value set_line.now)))) }
{
    match set_line {
        SetLine::Line { left, rel, right } => {
            page.keyword(Keyword::Set)?;
            put_comparison(page, model, left, *rel, right)
        }
        SetLine::Budget { limit, members } => {
            page.keyword(Keyword::Budget)?;
            put_number(page, *limit)?;
            page.sign(Mark::Colon)?;
            put_members(page, model, members.items())
        }
    }
}

/// Writes the members of a budget.
fn put_members<N: Exact>(
    page: &mut Page,
    model: &Model<N>,
    members: &[Member<N>],
) -> Result<(), Memory>
    ensures written { OnOk result (page.new ≡ fold put page.old
        (listed (member_words (naming_of (robust N.value model.now))) true
        (map (member_written (written_count (robust N.value model.now)))
        (map (member_of N.value) members.now)))) }
{
    let mut first = true;
    for member in members {
        put_comma(page, first)?;
        put_member(page, model, *member)?;
        first = false;
    }
    Ok(())
}

/// Writes a member of a budget.
fn put_member<N: Exact>(page: &mut Page, model: &Model<N>, member: Member<N>) -> Result<(), Memory>
    ensures written { OnOk result (page.new ≡ fold put page.old
        (member_words (naming_of (robust N.value model.now))
        (member_written (written_count (robust N.value model.now)) (member_of N.value member)))) }
{
    put_parameter_name(page, model, written_number(model, member.param))?;
    page.keyword(Keyword::At)?;
    put_number(page, member.centre)?;
    page.keyword(Keyword::By)?;
    put_number(page, member.deviation)
}
