//! The rows over a cell.

ghost use Rattle.std.specs.Prelude.{◌≡◌, ◌<◌, ◌≤◌, ◌++◌, IfOk, OnOk, ℕ, map, option_map};
ghost use Rattle.rob_meaning.specs.RobustModel.{RobustModel};
ghost use Rattle.rob_meaning.specs.SetConditions.{if_declared};
ghost use Rattle.rob_meaning.specs.WellFormed.{IsExpression};
ghost use Rattle.rob_model.specs.Valid.{IsValid};
ghost use Rattle.rob_model.specs.View.{adaptive_of, relation_of, robust, row_of, sense_of};
ghost use Rattle.rob_pieces.specs.SplitModel as split;

use crate::cell::{numbered, rule_in};
use crate::expression::{expr_over, side};
use rob_model::copy::{copy_text, word};
use rob_model::{Expr, Model, Rel, RowDef, Sense};
use rob_number::{Exact, List, Memory, Text};
use std::alloc::Global;

/// Appends the rows over cell `c`, from 1: its cost, the model's rows, and the declared bounds of its adaptive
/// variables.
pub fn append_cell_rows<N: Exact>(
    alloc: Global,
    list: &mut List<RowDef<N>>,
    model: &Model<N>,
    c: u32,
) -> Result<(), Memory>
    requires valid { IsValid N.value model.now }
    requires some { 0 < c }
    requires few { c ≤ 8 }
    ensures appended { OnOk result (map (row_of N.value) list.new ≡ map (row_of N.value) list.old
        ++ split.cell_rows (robust N.value model.now) c) }
{
    let cost = cost_row(alloc, model, c)?;
    list.push(cost)?;
    append_rows(alloc, list, model, c)?;
    append_bound_rows(alloc, list, model, c)
}

/// The row `cost_c`: `cells_worst` is no better than the objective over the cell.
fn cost_row<N: Exact>(alloc: Global, model: &Model<N>, c: u32) -> Result<RowDef<N>, Memory>
    requires valid { IsValid N.value model.now }
    requires some { 0 < c }
    requires few { c ≤ 8 }
    ensures row { IfOk result (λ row. row_of N.value row
        ≡ split.cost_row (robust N.value model.now) c) }
{
    Ok(RowDef {
        name: numbered(word(alloc, b"cost")?, c)?,
        left: Expr::Var(model.vars.items().len() as u32),
        rel: cost_rel(model.sense),
        right: expr_over(alloc, model, c, &model.objective)?,
    })
}

/// How `cells_worst` is compared with a cell's cost.
fn cost_rel(sense: Sense) -> Rel
    ensures relation { (m : RobustModel) (c : ℕ)
        → relation_of result ≡ split.cost_relation m c (sense_of sense) }
{
    match sense {
        Sense::Minimise => Rel::AtLeast,
        Sense::Maximise => Rel::AtMost,
    }
}

/// Appends the model's rows, over the cell.
fn append_rows<N: Exact>(
    alloc: Global,
    list: &mut List<RowDef<N>>,
    model: &Model<N>,
    c: u32,
) -> Result<(), Memory>
    requires valid { IsValid N.value model.now }
    requires some { 0 < c }
    requires few { c ≤ 8 }
    ensures appended { OnOk result (map (row_of N.value) list.new ≡ map (row_of N.value) list.old
        ++ map (split.row_over (robust N.value model.now) c)
        (map (row_of N.value) model.now.rows)) }
{
    for row in model.rows.items() {
        let next = row_over(alloc, model, c, row)?;
        list.push(next)?;
    }
    Ok(())
}

/// A row over the cell, `NAME_c`.
fn row_over<N: Exact>(
    alloc: Global,
    model: &Model<N>,
    c: u32,
    row: &RowDef<N>,
) -> Result<RowDef<N>, Memory>
    requires valid { IsValid N.value model.now }
    requires some { 0 < c }
    requires few { c ≤ 8 }
    requires left { IsExpression (robust N.value model.now) (row_of N.value row.now).left }
    requires right { IsExpression (robust N.value model.now) (row_of N.value row.now).right }
    ensures over { IfOk result (λ over. row_of N.value over
        ≡ split.row_over (robust N.value model.now) c (row_of N.value row.now)) }
{
    Ok(RowDef {
        name: numbered(copy_text(alloc, &row.name)?, c)?,
        left: expr_over(alloc, model, c, &row.left)?,
        rel: row.rel,
        right: expr_over(alloc, model, c, &row.right)?,
    })
}

/// A bound that may be declared: how its row's name ends, how the row compares, and the number.
#[derive(Clone, Copy, Debug)]
struct Bound<'a, N> {
    end: &'a [u8],
    rel: Rel,
    number: Option<N>,
}

/// Appends the rows of the adaptive variables' declared bounds, over the cell.
fn append_bound_rows<N: Exact>(
    alloc: Global,
    list: &mut List<RowDef<N>>,
    model: &Model<N>,
    c: u32,
) -> Result<(), Memory>
    requires valid { IsValid N.value model.now }
    requires some { 0 < c }
    requires few { c ≤ 8 }
    ensures appended { OnOk result (map (row_of N.value) list.new ≡ map (row_of N.value) list.old
        ++ split.bound_rows (robust N.value model.now) c 0
        (map (adaptive_of N.value) model.now.adaptives)) }
{
    let mut k: u32 = 0;
    for adaptive in model.adaptives.items() {
        let name = &adaptive.name;
        let rule = rule_in(model, c, k);
        let lower = Bound {
            end: b"_lower",
            rel: Rel::AtLeast,
            number: adaptive.lower,
        };
        append_bound(alloc, list, rule, c, name, lower)?;
        let upper = Bound {
            end: b"_upper",
            rel: Rel::AtMost,
            number: adaptive.upper,
        };
        append_bound(alloc, list, rule, c, name, upper)?;
        k += 1;
    }
    Ok(())
}

/// Appends the row of a declared bound, where there is one, of the copy that has the number `rule`.
fn append_bound<N: Exact>(
    alloc: Global,
    list: &mut List<RowDef<N>>,
    rule: u32,
    c: u32,
    name: &Text,
    bound: Bound<'_, N>,
) -> Result<(), Memory>
    ensures appended { OnOk result ((m : RobustModel) (k : ℕ) → rule ≡ split.rule_in m c k
        → map (row_of N.value) list.new ≡ map (row_of N.value) list.old
        ++ if_declared (split.bound_row m c (name.now ++ bound.entry.end.now) k
        (relation_of bound.entry.rel)) (option_map N.value bound.entry.number)) }
{
    if let Some(number) = bound.number {
        let mut text = copy_text(alloc, name)?;
        text.push(bound.end)?;
        let row = RowDef {
            name: numbered(text, c)?,
            left: Expr::AdaptiveIn(rule, c),
            rel: bound.rel,
            right: side(alloc, number)?,
        };
        list.push(row)?;
    }
    Ok(())
}
