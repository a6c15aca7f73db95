//! The lifted set, statement by statement.

ghost use Rattle.std.specs.Prelude.{◌<◌, ◌+◌, ◌*◌, ◌∷◌, [], zero, length, IfOk, IfErr, OnOk};
ghost use Rattle.rob_number.specs.Counts.{NeverFell};
ghost use Rattle.rob_meaning.specs.SetRows.{lift_count as lift_count_of, statement_rows};
ghost use Rattle.rob_meaning.specs.WellFormed.{IsSetLine};
ghost use Rattle.rob_model.specs.Valid.{IsValid};
ghost use Rattle.rob_model.specs.View.{robust, set_line_of};
ghost use Rattle.rob_sets.specs.Appending.{Appends};
ghost use Rattle.rob_sets.specs.FirstWide.{HasCause, NothingWide, RoseIfWide};
ghost use Rattle.rob_sets.specs.SetForm.{IsSetForm, SetFits, judged_set, judged_statements};

use crate::bound::append_bounds;
use crate::budget::{Budget, append_budget};
use crate::error::ElabErr;
use crate::line::{Comparison, append_line};
use crate::row::{lift_count, member_count};
use crate::set_form::{SetForm, SetRow};
use rob_model::{Model, SetLine};
use rob_number::{Exact, Ledger, List};
use std::alloc::Global;

/// The lifted set in whole numbers: each row times its least common denominator. Rows are computed in order, and in
/// each the coefficients, subexpression by subexpression, come before the clearing; `Wide` names the first spot of that
/// order where a number is wide.
pub fn clear_set<N: Exact, L: Ledger>(
    alloc: Global,
    model: &Model<N>,
    ledger: &mut L,
) -> Result<SetForm, ElabErr>
    requires valid { IsValid N.value model.now }
    ensures set { IfOk result (λ set. IsSetForm (robust N.value model.now) set) }
    ensures fits { IfOk result (λ set. SetFits N.limit set) }
    // An answer comes only where nothing that is judged is wide; a refusal names the first spot where something is.
    ensures none_wide { OnOk result (NothingWide N.limit (robust N.value model.now)
        (judged_set (robust N.value model.now))) }
    ensures cause { IfErr result (HasCause N.limit (robust N.value model.now)
        (judged_set (robust N.value model.now))) }
    ensures rose { IfErr result (RoseIfWide (L.wides ledger.old) (L.wides ledger.new)) }
    ensures counted { NeverFell L.ops L.wides ledger.old ledger.new }
{
    let mut rows = List::new(alloc);
    append_bounds(alloc, model, &mut rows, ledger)?;
    append_statements(alloc, model, &mut rows, ledger)?;
    Ok(SetForm {
        columns: model.params.items().len() as u32 + lift_count(model),
        rows,
    })
}

/// Clears and appends the rows of all statements.
fn append_statements<N: Exact, L: Ledger>(
    alloc: Global,
    model: &Model<N>,
    rows: &mut List<SetRow>,
    ledger: &mut L,
) -> Result<(), ElabErr>
    requires valid { IsValid N.value model.now }
    requires few { length rows.old < 200 }
    ensures rows { Appends N.limit (robust N.value model.now)
        (statement_rows (robust N.value model.now) zero (robust N.value model.now).set_lines)
        (judged_statements (robust N.value model.now) zero zero (length rows.old)
        (robust N.value model.now).set_lines)
        rows.old rows.new (L.wides ledger.old) (L.wides ledger.new) result }
    ensures counted { NeverFell L.ops L.wides ledger.old ledger.new }
{
    let mut number: u32 = 0;
    let mut lift: u32 = 0;
    for line in model.set_lines.items() {
        let statement = Statement { number, lift, line };
        append_statement(alloc, model, statement, rows, ledger)?;
        number += 1;
        lift += member_count(line);
    }
    Ok(())
}

/// The statement of that number, where the next column `t` has number `lift`.
#[derive(Clone, Copy)]
struct Statement<'a, N> {
    number: u32,
    lift: u32,
    line: &'a SetLine<N>,
}

/// Clears and appends the rows of a statement.
fn append_statement<N: Exact, L: Ledger>(
    alloc: Global,
    model: &Model<N>,
    statement: Statement<N>,
    rows: &mut List<SetRow>,
    ledger: &mut L,
) -> Result<(), ElabErr>
    requires valid { IsValid N.value model.now }
    requires line { IsSetLine (robust N.value model.now) (set_line_of N.value statement.line.now) }
    requires few { length rows.old
        + (2 * lift_count_of (set_line_of N.value statement.line.now ∷ []) + 2) < 1000 }
    requires few_lifts { statement.lift
        + lift_count_of (set_line_of N.value statement.line.now ∷ []) < 1000 }
    ensures rows { Appends N.limit (robust N.value model.now)
        (statement_rows (robust N.value model.now) statement.entry.lift
        (set_line_of N.value statement.entry.line.now ∷ []))
        (judged_statements (robust N.value model.now) statement.entry.number statement.entry.lift
        (length rows.old) (set_line_of N.value statement.entry.line.now ∷ []))
        rows.old rows.new (L.wides ledger.old) (L.wides ledger.new) result }
    ensures counted { NeverFell L.ops L.wides ledger.old ledger.new }
{
    let Statement { number, lift, line } = statement;
    match line {
        SetLine::Line { left, rel, right } => {
            let comparison = Comparison {
                left,
                rel: *rel,
                right,
            };
            append_line(alloc, model, number, &comparison, rows, ledger)
        }
        SetLine::Budget { limit, members } => {
            let budget = Budget {
                lift,
                limit: *limit,
                members: members.items(),
            };
            append_budget(alloc, model, budget, rows, ledger)
        }
    }
}
