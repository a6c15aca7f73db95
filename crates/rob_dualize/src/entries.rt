//! The numbers of the counterpart, by form, row of that form, and column.

ghost use Rattle.std.specs.Prelude.{◌≡◌, ◌<◌, ◌≤◌, ◌+◌, ◌-◌, ◌*◌, ◌^◌, suc, nat_abs, length};
ghost use Rattle.rob_linear.specs.Vectors.{at};
ghost use Rattle.rob_meaning.specs.Forms.{matrix_at};
ghost use Rattle.rob_counterpart.specs.Counterpart.{cell};
ghost use Rattle.rob_counterpart.specs.RobustProgram.{entry as entry_of};
ghost use Rattle.rob_counterpart.specs.Splitting.{signed_entry as signed_entry_of};
ghost use Rattle.rob_counterpart.specs.Reform.{plan_entry, multiplier_entry, right_entry, row_entry};
ghost use Rattle.rob_dualize.specs.SetProgram.{left_sides, right_sides};
ghost use Rattle.rob_dualize.specs.Wholes.{wholes_in, cost_of, counterpart_in, IsFew, AreSound, IsSound};

use crate::elaborated::Elaborated;
use rob_elab::Forms;
use rob_model::Sense;
use rob_sets::SetForm;

/// A form's number in a row of its matrix and a column.
pub fn form_number(forms: &Forms, i: usize, k: usize, j: usize) -> i64
    requires sound { AreSound forms.now }
    requires form_in { i < length forms.now.matrices }
    requires row_in { k ≤ forms.now.params }
    requires column_in { j < suc (suc forms.now.columns) }
    ensures number { result ≡ cell (matrix_at forms.now.matrices i) k j }
    ensures small { nat_abs result ≤ 2 ^ 62 - 1 }
{
    forms.matrices.items()[i].items()[k].items()[j]
}

/// A set row's number in a set column.
pub fn left_number(set: &SetForm, r: usize, c: usize) -> i64
    requires sound { IsSound set.now }
    requires row_in { r < length set.now.rows }
    requires column_in { c < set.now.columns }
    ensures number { result ≡ cell (left_sides set.now.rows) r c }
    ensures small { nat_abs result ≤ 2 ^ 62 - 1 }
{
    set.rows.items()[r].g.items()[c]
}

/// A set row's right side.
pub fn right_side_number(set: &SetForm, r: usize) -> i64
    requires sound { IsSound set.now }
    requires row_in { r < length set.now.rows }
    ensures number { result ≡ at (right_sides set.now.rows) r }
    ensures small { nat_abs result ≤ 2 ^ 62 - 1 }
{
    set.rows.items()[r].h
}

/// A form's number at a set column, 0 where that is no parameter.
pub fn entry(model: Elaborated, i: usize, c: usize, j: usize) -> i64
    requires sound { AreSound model.forms.now }
    requires form_in { i < length model.forms.now.matrices }
    requires column_in { j < suc (suc model.forms.now.columns) }
    ensures number { result ≡ entry_of (wholes_in model.entry) i c j }
    ensures small { nat_abs result ≤ 2 ^ 62 - 1 }
{
    if c < model.forms.params as usize {
        form_number(model.forms, i, c + 1, j)
    } else {
        0
    }
}

/// A number in the first column of a pair, and its negation in the second.
pub fn signed_entry(k: usize, number: i64) -> i64
    requires small { nat_abs number ≤ 2 ^ 62 - 1 }
    ensures number { result ≡ signed_entry_of k number }
    ensures small { nat_abs result ≤ 2 ^ 62 - 1 }
{
    if k % 2 == 0 { number } else { -number }
}

/// The number of form i's row p at column j of the plan.
fn plan_number(model: Elaborated, i: usize, p: usize, j: usize) -> i64
    requires sound { AreSound model.forms.now }
    requires few { IsFew (counterpart_in model) }
    requires form_in { i < length model.forms.now.matrices }
    requires column_in { j ≤ model.forms.now.columns }
    ensures number { result ≡ plan_entry (wholes_in model.entry) i p j }
    ensures small { nat_abs result ≤ 2 ^ 62 - 1 }
{
    if p < 2 * model.set.columns as usize {
        signed_entry(p, -entry(model, i, p / 2, j + 1))
    } else {
        form_number(model.forms, i, 0, j + 1)
    }
}

/// The number of a form's row p at its multiplier of set row r.
fn multiplier_number(model: Elaborated, p: usize, r: usize) -> i64
    requires sound { IsSound model.set.now }
    requires row_in { r < length model.set.now.rows }
    ensures number { result ≡ multiplier_entry (wholes_in model.entry) p r }
    ensures small { nat_abs result ≤ 2 ^ 62 - 1 }
{
    if p < 2 * model.set.columns as usize {
        signed_entry(p, left_number(model.set, r, p / 2))
    } else {
        right_side_number(model.set, r)
    }
}

/// The right side of form i's row p.
pub fn right_number(model: Elaborated, i: usize, p: usize) -> i64
    requires sound { AreSound model.forms.now }
    requires form_in { i < length model.forms.now.matrices }
    ensures number { result ≡ right_entry (wholes_in model.entry) i p }
    ensures small { nat_abs result ≤ 2 ^ 62 - 1 }
{
    if p < 2 * model.set.columns as usize {
        signed_entry(p, entry(model, i, p / 2, 0))
    } else {
        -form_number(model.forms, i, 0, 0)
    }
}

/// The number of form i's row p at column k of the counterpart.
pub fn row_number(model: Elaborated, i: usize, p: usize, k: usize) -> i64
    requires forms { AreSound model.forms.now }
    requires set { IsSound model.set.now }
    requires few { IsFew (counterpart_in model) }
    requires form_in { i < length model.forms.now.matrices }
    requires column_in { k < (counterpart_in model).n }
    ensures number { result ≡ row_entry (wholes_in model.entry) i p k }
    ensures small { nat_abs result ≤ 2 ^ 62 - 1 }
{
    let plan = 2 * (model.forms.columns as usize + 1);
    if k < plan {
        return signed_entry(k, plan_number(model, i, p, k / 2));
    }
    let rows = model.set.rows.items().len();
    let first = plan + i * rows;
    if k < first || first + rows <= k {
        return 0;
    }
    multiplier_number(model, p, k - first)
}

/// What column k counts in what is maximised: `tau` as the sense says, and no other column.
pub fn cost_number(forms: &Forms, k: usize) -> i64
    ensures number { result ≡ cost_of forms.now k }
    ensures small { nat_abs result ≤ 2 ^ 62 - 1 }
{
    if k / 2 != forms.columns as usize {
        return 0;
    }
    match forms.sense {
        Sense::Minimise => signed_entry(k, -1),
        Sense::Maximise => signed_entry(k, 1),
    }
}
