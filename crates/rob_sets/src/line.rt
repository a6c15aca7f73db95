//! Differences of two sides, and the set rows of linear conditions.

ghost use Rattle.std.specs.Prelude.{◌≡◌, ◌<◌, ◌+◌, ◌∷◌, [], ℕ, true, map, length, IfOk, IfErr};
ghost use Rattle.rob_algebra.specs.Fraction.{◌+ℚ◌};
ghost use Rattle.rob_algebra.specs.Width.{IsWide};
ghost use Rattle.rob_number.specs.Counts.{Rose, NeverFell};
ghost use Rattle.rob_meaning.specs.Forms.{difference, sides};
ghost use Rattle.rob_meaning.specs.SetRows.{expression_row};
ghost use Rattle.rob_meaning.specs.Values.{signed};
ghost use Rattle.rob_meaning.specs.WellFormed.{IsExpression, IsSetSide};
ghost use Rattle.rob_model.specs.Valid.{IsValid};
ghost use Rattle.rob_model.specs.View.{robust, expression_of, relation_of};
ghost use Rattle.rob_sets.specs.Appending.{Appends};
ghost use Rattle.rob_sets.specs.SetForm.{judged_sides};
ghost use Rattle.rob_sets.specs.Stops.{StopsFor};
ghost use Rattle.rob_sets.specs.Tables.{numbers_of};
ghost use Rattle.rob_sets.specs.Tabulating.{Tabulates};

use crate::error::{ElabErr, Stop, stopped};
use crate::expression::coefficients;
use crate::row::append_row;
use crate::set_form::SetRow;
use crate::table::Table;
use rob_model::{Expr, Model, Rel, Spot, Where};
use rob_number::{Exact, Ledger, List};
use std::alloc::Global;

/// Two sides that are compared.
#[derive(Clone, Copy)]
pub struct Comparison<'a, N> {
    pub left: &'a Expr<N>,
    pub rel: Rel,
    pub right: &'a Expr<N>,
}

/// The coefficients of left less right, each subexpression in turn.
pub fn difference_table<N: Exact, L: Ledger>(
    alloc: Global,
    model: &Model<N>,
    left: &Expr<N>,
    right: &Expr<N>,
    ledger: &mut L,
) -> Result<Table<N>, Stop>
    requires valid { IsValid N.value model.now }
    requires left { IsExpression (robust N.value model.now) (expression_of N.value left.now) }
    requires right { IsExpression (robust N.value model.now) (expression_of N.value right.now) }
    ensures table { Tabulates N.value N.limit (robust N.value model.now)
        (difference (expression_of N.value left.now) (expression_of N.value right.now))
        (L.wides ledger.old) (L.wides ledger.new) result }
    ensures counted { NeverFell L.ops L.wides ledger.old ledger.new }
{
    let table = coefficients(alloc, left, model, ledger)?;
    let subtracted = coefficients(alloc, right, model, ledger)?;
    less(table, &subtracted, ledger)
}

/// A table less another one.
pub fn less<N: Exact, L: Ledger>(
    left: Table<N>,
    right: &Table<N>,
    ledger: &mut L,
) -> Result<Table<N>, Stop>
    ensures table { IfOk result (λ t. (k j : ℕ) → numbers_of N.value t k j
        ≡ numbers_of N.value left k j +ℚ signed true (numbers_of N.value right.now k j)) }
    ensures wide { IfErr result (StopsFor
        (Rose (L.wides ledger.old) (L.wides ledger.new) × ((k : ℕ) × (j : ℕ)
        × IsWide N.limit
        (numbers_of N.value left k j +ℚ signed true (numbers_of N.value right.now k j))))) }
    ensures counted { NeverFell L.ops L.wides ledger.old ledger.new }
{
    let mut table = left;
    table.join(true, right, ledger)?;
    Ok(table)
}

/// That the left side is at most the right one.
#[derive(Clone, Copy)]
struct AtMost<'a, N> {
    left: &'a Expr<N>,
    right: &'a Expr<N>,
}

/// Clears and appends the row that left less right is at most 0, for the statement of that number.
fn append_side<N: Exact, L: Ledger>(
    alloc: Global,
    model: &Model<N>,
    number: u32,
    sides: AtMost<N>,
    rows: &mut List<SetRow>,
    ledger: &mut L,
) -> Result<(), ElabErr>
    requires valid { IsValid N.value model.now }
    requires left { IsSetSide (robust N.value model.now) (expression_of N.value sides.left.now) }
    requires right { IsSetSide (robust N.value model.now) (expression_of N.value sides.right.now) }
    requires few { length rows.old < 1000 }
    ensures row { Appends N.limit (robust N.value model.now)
        (map (expression_row (robust N.value model.now))
        (difference (expression_of N.value sides.entry.left.now)
        (expression_of N.value sides.entry.right.now) ∷ []))
        (judged_sides (robust N.value model.now) number (length rows.old)
        (difference (expression_of N.value sides.entry.left.now)
        (expression_of N.value sides.entry.right.now) ∷ []))
        rows.old rows.new (L.wides ledger.old) (L.wides ledger.new) result }
    ensures counted { NeverFell L.ops L.wides ledger.old ledger.new }
{
    match difference_table(alloc, model, sides.left, sides.right, ledger) {
        Ok(table) => append_row(alloc, model, &table, rows, ledger),
        Err(stop) => Err(stopped(stop, Spot::Coefficient(Where::SetLine(number)))),
    }
}

/// Clears and appends the rows of a linear condition, the statement of that number. An equality has two.
pub fn append_line<N: Exact, L: Ledger>(
    alloc: Global,
    model: &Model<N>,
    number: u32,
    line: &Comparison<'_, N>,
    rows: &mut List<SetRow>,
    ledger: &mut L,
) -> Result<(), ElabErr>
    requires valid { IsValid N.value model.now }
    requires left { IsSetSide (robust N.value model.now) (expression_of N.value line.now.left.now) }
    requires right { IsSetSide (robust N.value model.now)
        (expression_of N.value line.now.right.now) }
    requires few { length rows.old + 2 < 1000 }
    ensures rows { Appends N.limit (robust N.value model.now)
        (map (expression_row (robust N.value model.now))
        (sides (relation_of line.now.rel) (expression_of N.value line.now.left.now)
        (expression_of N.value line.now.right.now)))
        (judged_sides (robust N.value model.now) number (length rows.old)
        (sides (relation_of line.now.rel) (expression_of N.value line.now.left.now)
        (expression_of N.value line.now.right.now)))
        rows.old rows.new (L.wides ledger.old) (L.wides ledger.new) result }
    ensures counted { NeverFell L.ops L.wides ledger.old ledger.new }
{
    let at_most = AtMost {
        left: line.left,
        right: line.right,
    };
    let at_least = AtMost {
        left: line.right,
        right: line.left,
    };
    match line.rel {
        Rel::AtMost => append_side(alloc, model, number, at_most, rows, ledger),
        Rel::AtLeast => append_side(alloc, model, number, at_least, rows, ledger),
        Rel::Equal => {
            append_side(alloc, model, number, at_most, rows, ledger)?;
            append_side(alloc, model, number, at_least, rows, ledger)
        }
    }
}
