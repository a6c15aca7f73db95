//! The groups of names of each kind, by their numbers.

ghost use Rattle.std.specs.Prelude.{◌≡◌, ◌<◌, ◌++◌, length, slice_get};
ghost use Rattle.rob_model.specs.NameGroups.{names_in, groups, row_groups, variable_bound_groups, adaptive_bound_groups, parameter_groups, lift_groups, condition_groups};
ghost use Rattle.rob_model.specs.Valid.{IsValid};
ghost use Rattle.rob_model.specs.declared.group.Kind.TheVariants.{Form, Column, SetRow, SetPlace, Parameters};
ghost use Rattle.rob_model.specs.View.{robust};

use crate::group::{Group, Kind};
use crate::model::Model;
use rob_number::Exact;

/// The number of groups of a kind.
pub fn group_count<N: Exact>(model: &Model<N>, kind: Kind) -> usize
    requires valid { IsValid N.value model.now }
    ensures count { result ≡ length (groups kind (robust N.value model.now)) }
{
    let params = model.params.items().len();
    let lines = model.set_lines.items().len();
    let vars = model.vars.items().len();
    let adaptives = model.adaptives.items().len();
    match kind {
        Kind::Form => 1 + (model.rows.items().len() + (vars + adaptives)),
        Kind::Column => vars + adaptives,
        Kind::SetRow => params + lines,
        Kind::SetPlace => params + (lines + (params + lines)),
        Kind::Parameters => params,
    }
}

/// The group of that number, from 0.
pub fn group_at<'a, N: Exact>(model: &'a Model<N>, kind: Kind, i: usize) -> Group<'a, N>
    requires valid { IsValid N.value model.now }
    requires inside { i < length (groups kind (robust N.value model.now)) }
    ensures group { slice_get (groups kind (robust N.value model.now)) i
        ≡ Some (names_in N.value result) }
{
    match kind {
        Kind::Form => form_group(model, i),
        Kind::Column => column_group(model, i),
        Kind::SetRow => set_row_group(model, i),
        Kind::SetPlace => set_place_group(model, i),
        Kind::Parameters => parameter_group(model, i),
    }
}

/// The forms: the objective, the rows, and the bounds.
fn form_group<'a, N: Exact>(model: &'a Model<N>, i: usize) -> Group<'a, N>
    requires inside { i < length (groups Form (robust N.value model.now)) }
    ensures group { slice_get (groups Form (robust N.value model.now)) i
        ≡ Some (names_in N.value result) }
{
    if i == 0 {
        Group::Single(b"objective")
    } else {
        row_group(model, i - 1)
    }
}

/// The rows, and behind them the bounds.
fn row_group<'a, N: Exact>(model: &'a Model<N>, i: usize) -> Group<'a, N>
    requires inside { i < length (row_groups (robust N.value model.now)
        ++ (variable_bound_groups (robust N.value model.now)
        ++ adaptive_bound_groups (robust N.value model.now))) }
    ensures group { slice_get (row_groups (robust N.value model.now)
        ++ (variable_bound_groups (robust N.value model.now)
        ++ adaptive_bound_groups (robust N.value model.now))) i ≡ Some (names_in N.value result) }
{
    let rows = model.rows.items();
    if i < rows.len() {
        let row = &rows[i];
        Group::Sides(row.name.bytes(), row.rel)
    } else {
        bound_group(model, i - rows.len())
    }
}

/// The bounds of variables, and behind them those of adaptive variables.
fn bound_group<'a, N: Exact>(model: &'a Model<N>, i: usize) -> Group<'a, N>
    requires inside { i < length (variable_bound_groups (robust N.value model.now)
        ++ adaptive_bound_groups (robust N.value model.now)) }
    ensures group { slice_get (variable_bound_groups (robust N.value model.now)
        ++ adaptive_bound_groups (robust N.value model.now)) i ≡ Some (names_in N.value result) }
{
    let vars = model.vars.items();
    if i < vars.len() {
        let var = &vars[i];
        Group::Bounds(var.name.bytes(), &var.lower, &var.upper)
    } else {
        let adaptive = &model.adaptives.items()[i - vars.len()];
        Group::Bounds(adaptive.name.bytes(), &adaptive.lower, &adaptive.upper)
    }
}

/// The decision columns: the variables, and the columns of the adaptive variables.
fn column_group<'a, N: Exact>(model: &'a Model<N>, i: usize) -> Group<'a, N>
    requires inside { i < length (groups Column (robust N.value model.now)) }
    ensures group { slice_get (groups Column (robust N.value model.now)) i
        ≡ Some (names_in N.value result) }
{
    let vars = model.vars.items();
    if i < vars.len() {
        Group::Single(vars[i].name.bytes())
    } else {
        Group::Rule(
            &model.adaptives.items()[i - vars.len()],
            model.params.items(),
        )
    }
}

/// The set rows: the bounds of parameters, and the rows of the statements.
fn set_row_group<'a, N: Exact>(model: &'a Model<N>, i: usize) -> Group<'a, N>
    requires valid { IsValid N.value model.now }
    requires inside { i < length (groups SetRow (robust N.value model.now)) }
    ensures group { slice_get (groups SetRow (robust N.value model.now)) i
        ≡ Some (names_in N.value result) }
{
    let params = model.params.items();
    if i < params.len() {
        let param = &params[i];
        Group::Bounds(param.name.bytes(), &param.lower, &param.upper)
    } else {
        let line = i - params.len();
        Group::StatementRows(&model.set_lines.items()[line], line as u32 + 1, params)
    }
}

/// The places of the set: the bounds of parameters, the statements, and the set columns.
fn set_place_group<'a, N: Exact>(model: &'a Model<N>, i: usize) -> Group<'a, N>
    requires valid { IsValid N.value model.now }
    requires inside { i < length (groups SetPlace (robust N.value model.now)) }
    ensures group { slice_get (groups SetPlace (robust N.value model.now)) i
        ≡ Some (names_in N.value result) }
{
    let params = model.params.items();
    if i < params.len() {
        let param = &params[i];
        Group::Bounds(param.name.bytes(), &param.lower, &param.upper)
    } else {
        condition_group(model, i - params.len())
    }
}

/// The statements as conditions, and behind them the set columns.
fn condition_group<'a, N: Exact>(model: &'a Model<N>, i: usize) -> Group<'a, N>
    requires valid { IsValid N.value model.now }
    requires inside { i < length (condition_groups (robust N.value model.now)
        ++ (parameter_groups (robust N.value model.now) ++ lift_groups
        (robust N.value model.now))) }
    ensures group { slice_get (condition_groups (robust N.value model.now)
        ++ (parameter_groups (robust N.value model.now) ++ lift_groups (robust N.value model.now)))
        i ≡ Some (names_in N.value result) }
{
    let lines = model.set_lines.items();
    if i < lines.len() {
        Group::Condition(&lines[i], i as u32 + 1)
    } else {
        set_column_group(model, i - lines.len())
    }
}

/// The set columns: the parameters, and the columns of the budgets' members.
fn set_column_group<'a, N: Exact>(model: &'a Model<N>, i: usize) -> Group<'a, N>
    requires valid { IsValid N.value model.now }
    requires inside { i < length (parameter_groups (robust N.value model.now)
        ++ lift_groups (robust N.value model.now)) }
    ensures group { slice_get (parameter_groups (robust N.value model.now) ++ lift_groups
        (robust N.value model.now)) i
        ≡ Some (names_in N.value result) }
{
    let params = model.params.items();
    if i < params.len() {
        Group::Single(params[i].name.bytes())
    } else {
        let line = i - params.len();
        Group::Lifts(&model.set_lines.items()[line], line as u32 + 1, params)
    }
}

/// The parameters.
fn parameter_group<'a, N: Exact>(model: &'a Model<N>, i: usize) -> Group<'a, N>
    requires inside { i < length (groups Parameters (robust N.value model.now)) }
    ensures group { slice_get (groups Parameters (robust N.value model.now)) i
        ≡ Some (names_in N.value result) }
{
    Group::Single(model.params.items()[i].name.bytes())
}
