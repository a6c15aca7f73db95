//! The forms of rows: differences of two sides.

ghost use Rattle.std.specs.Prelude.{◌<◌, ◌+◌, ◌∷◌, [], length};
ghost use Rattle.rob_number.specs.Counts.{NeverFell};
ghost use Rattle.rob_meaning.specs.Forms.{difference, row_forms, sides};
ghost use Rattle.rob_meaning.specs.WellFormed.{IsExpression};
ghost use Rattle.rob_model.specs.Valid.{IsValid};
ghost use Rattle.rob_model.specs.View.{robust, expression_of, relation_of};
ghost use Rattle.rob_elab.specs.Appending.{Appends};

use crate::matrix::append_form;
use rob_model::{Expr, Model, Rel, RowDef, Spot, Where};
use rob_number::{Exact, Ledger, List};
use rob_sets::ElabErr;
use rob_sets::error::stopped;
use rob_sets::line::difference_table;
use std::alloc::Global;

/// Clears and appends the form that left less right is at most 0.
pub fn append_difference<N: Exact, L: Ledger>(
    alloc: Global,
    model: &Model<N>,
    left: &Expr<N>,
    right: &Expr<N>,
    matrices: &mut List<List<List<i64>>>,
    ledger: &mut L,
) -> Result<(), ElabErr>
    requires valid { IsValid N.value model.now }
    requires left { IsExpression (robust N.value model.now) (expression_of N.value left.now) }
    requires right { IsExpression (robust N.value model.now) (expression_of N.value right.now) }
    requires few { length matrices.old < 10000 }
    ensures form { Appends N.limit (robust N.value model.now) (length matrices.old)
        (difference (expression_of N.value left.now) (expression_of N.value right.now) ∷ [])
        matrices.old matrices.new (L.wides ledger.old) (L.wides ledger.new) result }
    ensures counted { NeverFell L.ops L.wides ledger.old ledger.new }
{
    let place = Where::Form(matrices.items().len() as u32);
    match difference_table(alloc, model, left, right, ledger) {
        Ok(table) => append_form(alloc, model, &table, matrices, ledger),
        Err(stop) => Err(stopped(stop, Spot::Coefficient(place))),
    }
}

/// Clears and appends the forms of a row, an equality having two.
fn append_sides<N: Exact, L: Ledger>(
    alloc: Global,
    model: &Model<N>,
    row: &RowDef<N>,
    matrices: &mut List<List<List<i64>>>,
    ledger: &mut L,
) -> Result<(), ElabErr>
    requires valid { IsValid N.value model.now }
    requires left { IsExpression (robust N.value model.now) (expression_of N.value row.now.left) }
    requires right { IsExpression (robust N.value model.now) (expression_of N.value row.now.right) }
    requires few { length matrices.old + 2 < 10000 }
    ensures forms { Appends N.limit (robust N.value model.now) (length matrices.old)
        (sides (relation_of row.now.rel) (expression_of N.value row.now.left)
        (expression_of N.value row.now.right))
        matrices.old matrices.new (L.wides ledger.old) (L.wides ledger.new) result }
    ensures counted { NeverFell L.ops L.wides ledger.old ledger.new }
{
    match row.rel {
        Rel::AtMost => append_difference(alloc, model, &row.left, &row.right, matrices, ledger),
        Rel::AtLeast => append_difference(alloc, model, &row.right, &row.left, matrices, ledger),
        Rel::Equal => {
            append_difference(alloc, model, &row.left, &row.right, matrices, ledger)?;
            append_difference(alloc, model, &row.right, &row.left, matrices, ledger)
        }
    }
}

/// Clears and appends the forms of all rows, in order.
pub fn append_rows<N: Exact, L: Ledger>(
    alloc: Global,
    model: &Model<N>,
    matrices: &mut List<List<List<i64>>>,
    ledger: &mut L,
) -> Result<(), ElabErr>
    requires valid { IsValid N.value model.now }
    requires few { length matrices.old < 1000 }
    ensures forms { Appends N.limit (robust N.value model.now) (length matrices.old)
        (row_forms (robust N.value model.now).rows)
        matrices.old matrices.new (L.wides ledger.old) (L.wides ledger.new) result }
    ensures counted { NeverFell L.ops L.wides ledger.old ledger.new }
{
    for row in model.rows.items() {
        append_sides(alloc, model, row, matrices, ledger)?;
    }
    Ok(())
}
