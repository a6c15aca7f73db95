//! The values of adaptive variables.

ghost use Rattle.std.specs.Prelude.{◌≡◌, ◌≤◌, ◌<◌, ◌+◌, ◌^◌, length, map, drop, IfOk};
ghost use Rattle.rob_number.specs.Answer.{answer};
ghost use Rattle.rob_number.specs.Counts.{CountsTold};
ghost use Rattle.rob_meaning.specs.Places.{at};
ghost use Rattle.rob_meaning.specs.RobustModel.{column_of as column_of_rule, column_count, set_count as set_count_of, written_count as count_of_written};
ghost use Rattle.rob_meaning.specs.Values.{rule_value as value_of_rule};
ghost use Rattle.rob_model.specs.Limits.{most_columns};
ghost use Rattle.rob_model.specs.Valid.{IsValid};
ghost use Rattle.rob_model.specs.View.{robust, plan_of, scenario_of};
ghost use Rattle.rob_model.specs.Within.{rule_within, policy_within, policy_in_within};

use crate::model::Model;
use crate::numbers::number_at;
use crate::plan::{Plan, Scenario};
use rob_number::{Exact, Ledger, Wide};

/// The value of an adaptive variable in the default set, under a plan in a joint scenario, by its decision rule: the
/// constant, plus coefficient times that set's parameter for each parameter of its list. Numbers that the plan or the
/// scenario lacks count as 0.
pub fn policy_at<N: Exact, L: Ledger>(
    model: &Model<N>,
    adaptive: u32,
    plan: &Plan<N>,
    scenario: &Scenario<N>,
    ledger: &mut L,
) -> Result<N, Wide>
    requires valid { IsValid N.value model.now }
    requires inside { adaptive < length model.now.adaptives }
    // From the constant on, each product and then each prefix sum; refused exactly where one of these is wide.
    ensures exact { answer N.value result ≡ policy_within N.limit (robust N.value model.now)
        (plan_of N.value plan.now) (scenario_of N.value scenario.now) adaptive }
    ensures value { IfOk result (λ x. N.value x ≡ value_of_rule (robust N.value model.now)
        (plan_of N.value plan.now) (scenario_of N.value scenario.now) adaptive) }
    ensures counted { CountsTold L.ops L.wides ledger.old ledger.new result }
{
    rule_value(
        model,
        adaptive,
        plan.columns.items(),
        scenario.values.items(),
        ledger,
    )
}

/// The same at the numbers of a plan's columns and of a joint scenario.
pub fn rule_value<N: Exact, L: Ledger>(
    model: &Model<N>,
    adaptive: u32,
    columns: &[N],
    values: &[N],
    ledger: &mut L,
) -> Result<N, Wide>
    requires inside { adaptive < length model.now.adaptives }
    requires few { column_count (robust N.value model.now) ≤ most_columns }
    ensures exact { answer N.value result ≡ policy_within N.limit (robust N.value model.now)
        (map N.value columns.now) (map N.value values.now) adaptive }
    ensures counted { CountsTold L.ops L.wides ledger.old ledger.new result }
{
    let on = model.adaptives.items()[adaptive as usize].on.items();
    let column = column_of(model, adaptive);
    rule(on, column, columns, values, ledger)
}

/// The same with the parameters of a set.
pub fn rule_value_in<N: Exact, L: Ledger>(
    model: &Model<N>,
    set: u32,
    adaptive: u32,
    columns: &[N],
    values: &[N],
    ledger: &mut L,
) -> Result<N, Wide>
    requires inside { adaptive < length model.now.adaptives }
    requires set { set < set_count_of (robust N.value model.now) }
    requires few { column_count (robust N.value model.now) ≤ most_columns }
    ensures exact { answer N.value result ≡ policy_in_within N.limit (robust N.value model.now)
        (map N.value columns.now) (map N.value values.now) set adaptive }
    ensures counted { CountsTold L.ops L.wides ledger.old ledger.new result }
{
    let on = model.adaptives.items()[adaptive as usize].on.items();
    let column = column_of(model, adaptive);
    let first = set as usize * written_count(model);
    rule(on, column, columns, behind(values, first), ledger)
}

/// The numbers from a place on.
fn behind<N>(values: &[N], place: usize) -> &[N]
    ensures rest { result.now ≡ drop place values.now }
{
    if place < values.len() {
        &values[place..]
    } else {
        &values[..0]
    }
}

/// The number of sets: the default set and the named ones. It takes no memory.
pub fn set_count<N: Exact>(model: &Model<N>) -> u32
    requires valid { IsValid N.value model.now }
    ensures count { result ≡ set_count_of (robust N.value model.now) }
{
    model.sets.items().len() as u32 + 1
}

/// The number of written parameters: the joint parameters are as many for each set.
pub fn written_count<N: Exact>(model: &Model<N>) -> usize
    ensures count { result ≡ count_of_written (robust N.value model.now) }
    ensures few { length model.now.params < 2 ^ 64 }
{
    model.params.items().len() / (model.sets.items().len() + 1)
}

/// A constant and the products of the columns behind it with parameters.
fn rule<N: Exact, L: Ledger>(
    on: &[u32],
    column: usize,
    columns: &[N],
    values: &[N],
    ledger: &mut L,
) -> Result<N, Wide>
    requires few { column + 1 + length on.now ≤ most_columns }
    ensures exact { answer N.value result
        ≡ rule_within N.limit (map N.value columns.now) (map N.value values.now)
        on.now (column + 1) (at (map N.value columns.now) column) }
    ensures counted { CountsTold L.ops L.wides ledger.old ledger.new result }
{
    let mut sum = number_at(columns, column, ledger);
    let mut place = column + 1;
    for k in on {
        let coefficient: N = number_at(columns, place, ledger);
        let parameter = number_at(values, *k as usize, ledger);
        let part = coefficient.mul(parameter, ledger)?;
        sum = sum.add(part, ledger)?;
        place += 1;
    }
    Ok(sum)
}

/// The decision column of an adaptive variable's constant. Its coefficients follow, in the order of its list.
pub fn column_of<N: Exact>(model: &Model<N>, adaptive: u32) -> usize
    requires inside { adaptive < length model.now.adaptives }
    requires few { column_count (robust N.value model.now) ≤ most_columns }
    ensures column { result ≡ column_of_rule (robust N.value model.now) adaptive }
{
    let mut column = model.vars.items().len();
    for earlier in &model.adaptives.items()[..adaptive as usize] {
        column += 1 + earlier.on.items().len();
    }
    column
}
