//! The values of a plan in a joint scenario.

ghost use Rattle.std.specs.Prelude.{◌≡◌, ◌∷◌, [], map, length, Option, ℕ, option_map};
ghost use Rattle.rob_algebra.specs.Fraction.{Fraction};
ghost use Rattle.rob_algebra.specs.Width.{kept};
ghost use Rattle.rob_meaning.specs.Places.{Each};
ghost use Rattle.rob_model.specs.Valid.{IsValid};
ghost use Rattle.rob_model.specs.View.{robust, plan_of, scenario_of, adaptive_of, row_of, relation_of};
ghost use Rattle.rob_number.specs.Answer.{answer};
ghost use Rattle.rob_number.specs.Counts.{CountsTold, NeverFell, Told};
ghost use Rattle.rob_replay.specs.Gathering.{all_of};
ghost use Rattle.rob_replay.specs.Lines.{HasInside, slack_of, row_slack, lower_slacks, upper_slacks, variable_slacks, bound_slacks, policies_within, slacks_within, inside_within, line_within};
ghost use Rattle.rob_replay.specs.Stops.{Computes, Gathers, RoseAtWide};
ghost use Rattle.rob_replay.specs.View.{line_of};

use crate::table::TableLine;
use rob_model::model::{Adaptive, Rel, RowDef};
use rob_model::numbers::zero;
use rob_model::{Model, Plan, Scenario, admits, policy_at, value_at};
use rob_number::{Exact, Ledger, List, Wide};
use std::alloc::Global;

/// Why values are not computed.
#[derive(Clone, Copy, Debug, PartialEq, Eq)]
pub enum Stopped {
    /// A number is wide.
    Wide,
    /// Memory was refused.
    Memory,
}

/// Adds a number that was computed to a list.
fn add<N: Exact>(list: &mut List<N>, number: Result<N, Wide>) -> Result<(), Stopped>
    ensures gathers { (o : Option Fraction) → answer N.value number ≡ o
        → Gathers N.value list.old list.new (o ∷ []) result }
    ensures wide { (before now : ℕ) → Told before now number → RoseAtWide before now result }
{
    match number {
        Err(_) => Err(Stopped::Wide),
        Ok(number) => match list.push(number) {
            Err(_) => Err(Stopped::Memory),
            Ok(()) => Ok(()),
        },
    }
}

/// The values of the adaptive variables in the default set.
fn policies<N: Exact, L: Ledger>(
    alloc: Global,
    model: &Model<N>,
    plan: &Plan<N>,
    scenario: &Scenario<N>,
    ledger: &mut L,
) -> Result<List<N>, Stopped>
    requires valid { IsValid N.value model.now }
    ensures exact { Computes (map N.value)
        (all_of (policies_within N.limit (robust N.value model.now)
        (plan_of N.value plan.now) (scenario_of N.value scenario.now)
        0 (map (adaptive_of N.value) model.now.adaptives))) result }
    ensures wide { RoseAtWide (L.wides ledger.old) (L.wides ledger.new) result }
    ensures counted { NeverFell L.ops L.wides ledger.old ledger.new }
{
    let mut values = List::new(alloc);
    let count = model.adaptives.items().len();
    for k in 0..count {
        let value = policy_at(model, k as u32, plan, scenario, ledger);
        match add(&mut values, value) {
            Err(stopped) => return Err(stopped),
            Ok(()) => {}
        }
    }
    Ok(values)
}

/// Right minus left for `<=` and `=`, left minus right for `>=`.
fn slack<N: Exact, L: Ledger>(rel: Rel, left: N, right: N, ledger: &mut L) -> Result<N, Wide>
    ensures exact { answer N.value result
        ≡ kept N.limit (slack_of (relation_of rel) (N.value left) (N.value right)) }
    ensures counted { CountsTold L.ops L.wides ledger.old ledger.new result }
{
    match rel {
        Rel::AtMost => right.sub(left, ledger),
        Rel::AtLeast => left.sub(right, ledger),
        Rel::Equal => right.sub(left, ledger),
    }
}

/// The slack of a row: its left side, its right side, their difference.
fn slack_in_row<N: Exact, L: Ledger>(
    row: &RowDef<N>,
    model: &Model<N>,
    plan: &Plan<N>,
    scenario: &Scenario<N>,
    ledger: &mut L,
) -> Result<N, Wide>
    requires valid { IsValid N.value model.now }
    requires inside { HasInside (robust N.value model.now) (row_of N.value row.now) }
    ensures exact { answer N.value result ≡ row_slack N.limit (robust N.value model.now)
        (plan_of N.value plan.now) (scenario_of N.value scenario.now) (row_of N.value row.now) }
    ensures counted { CountsTold L.ops L.wides ledger.old ledger.new result }
{
    let left = value_at(&row.left, model, plan, scenario, ledger)?;
    let right = value_at(&row.right, model, plan, scenario, ledger)?;
    slack(row.rel, left, right, ledger)
}

/// Adds the slacks of the rows.
fn add_row_slacks<N: Exact, L: Ledger>(
    slacks: &mut List<N>,
    rows: &[RowDef<N>],
    model: &Model<N>,
    plan: &Plan<N>,
    scenario: &Scenario<N>,
    ledger: &mut L,
) -> Result<(), Stopped>
    requires valid { IsValid N.value model.now }
    requires inside { Each (HasInside (robust N.value model.now)) (map (row_of N.value) rows.now) }
    ensures exact { Gathers N.value slacks.old slacks.new
        (map (row_slack N.limit (robust N.value model.now)
        (plan_of N.value plan.now) (scenario_of N.value scenario.now))
        (map (row_of N.value) rows.now)) result }
    ensures wide { RoseAtWide (L.wides ledger.old) (L.wides ledger.new) result }
    ensures counted { NeverFell L.ops L.wides ledger.old ledger.new }
{
    for row in rows {
        let slack = slack_in_row(row, model, plan, scenario, ledger);
        match add(slacks, slack) {
            Err(stopped) => return Err(stopped),
            Ok(()) => {}
        }
    }
    Ok(())
}

/// Adds the slack of a lower bound, if one is declared.
fn add_lower_slack<N: Exact, L: Ledger>(
    slacks: &mut List<N>,
    lower: &Option<N>,
    value: N,
    ledger: &mut L,
) -> Result<(), Stopped>
    ensures exact { Gathers N.value slacks.old slacks.new
        (lower_slacks N.limit (option_map N.value lower.now) (N.value value)) result }
    ensures wide { RoseAtWide (L.wides ledger.old) (L.wides ledger.new) result }
    ensures counted { NeverFell L.ops L.wides ledger.old ledger.new }
{
    match lower {
        None => Ok(()),
        Some(lower) => add(slacks, value.sub(*lower, ledger)),
    }
}

/// Adds the slack of an upper bound, if one is declared.
fn add_upper_slack<N: Exact, L: Ledger>(
    slacks: &mut List<N>,
    upper: &Option<N>,
    value: N,
    ledger: &mut L,
) -> Result<(), Stopped>
    ensures exact { Gathers N.value slacks.old slacks.new
        (upper_slacks N.limit (option_map N.value upper.now) (N.value value)) result }
    ensures wide { RoseAtWide (L.wides ledger.old) (L.wides ledger.new) result }
    ensures counted { NeverFell L.ops L.wides ledger.old ledger.new }
{
    match upper {
        None => Ok(()),
        Some(upper) => add(slacks, upper.sub(value, ledger)),
    }
}

/// Adds the slacks of the declared bounds of an adaptive variable.
fn add_bound_slacks<N: Exact, L: Ledger>(
    slacks: &mut List<N>,
    adaptive: &Adaptive<N>,
    value: N,
    ledger: &mut L,
) -> Result<(), Stopped>
    ensures exact { Gathers N.value slacks.old slacks.new
        (variable_slacks N.limit (adaptive_of N.value adaptive.now) (N.value value)) result }
    ensures wide { RoseAtWide (L.wides ledger.old) (L.wides ledger.new) result }
    ensures counted { NeverFell L.ops L.wides ledger.old ledger.new }
{
    match add_lower_slack(slacks, &adaptive.lower, value, ledger) {
        Err(stopped) => Err(stopped),
        Ok(()) => add_upper_slack(slacks, &adaptive.upper, value, ledger),
    }
}

/// Adds the slacks of the declared bounds of adaptive variables with these values.
fn add_all_bound_slacks<N: Exact, L: Ledger>(
    slacks: &mut List<N>,
    adaptives: &[Adaptive<N>],
    values: &[N],
    ledger: &mut L,
) -> Result<(), Stopped>
    requires lengths { length adaptives.now ≡ length values.now }
    ensures exact { Gathers N.value slacks.old slacks.new
        (bound_slacks N.limit (map (adaptive_of N.value) adaptives.now) (map N.value values.now))
        result }
    ensures wide { RoseAtWide (L.wides ledger.old) (L.wides ledger.new) result }
    ensures counted { NeverFell L.ops L.wides ledger.old ledger.new }
{
    for (k, adaptive) in adaptives.iter().enumerate() {
        match add_bound_slacks(slacks, adaptive, values[k], ledger) {
            Err(stopped) => return Err(stopped),
            Ok(()) => {}
        }
    }
    Ok(())
}

/// The slacks, where the adaptive variables have these values.
fn slacks_at<N: Exact, L: Ledger>(
    alloc: Global,
    model: &Model<N>,
    plan: &Plan<N>,
    scenario: &Scenario<N>,
    values: &[N],
    ledger: &mut L,
) -> Result<List<N>, Stopped>
    requires valid { IsValid N.value model.now }
    requires lengths { length model.now.adaptives ≡ length values.now }
    ensures exact { Computes (map N.value) (all_of (slacks_within N.limit (robust N.value model.now)
        (plan_of N.value plan.now) (scenario_of N.value scenario.now) (map N.value values.now)))
        result }
    ensures wide { RoseAtWide (L.wides ledger.old) (L.wides ledger.new) result }
    ensures counted { NeverFell L.ops L.wides ledger.old ledger.new }
{
    let mut slacks = List::new(alloc);
    match add_row_slacks(
        &mut slacks,
        model.rows.items(),
        model,
        plan,
        scenario,
        ledger,
    ) {
        Err(stopped) => Err(stopped),
        Ok(()) => match add_all_bound_slacks(&mut slacks, model.adaptives.items(), values, ledger) {
            Err(stopped) => Err(stopped),
            Ok(()) => Ok(slacks),
        },
    }
}

/// The line of a scenario that is inside.
fn line_inside<N: Exact, L: Ledger>(
    alloc: Global,
    number: u32,
    model: &Model<N>,
    plan: &Plan<N>,
    scenario: &Scenario<N>,
    ledger: &mut L,
) -> Result<TableLine<N>, Stopped>
    requires valid { IsValid N.value model.now }
    ensures exact { Computes (line_of N.value) (inside_within N.limit (robust N.value model.now)
        (plan_of N.value plan.now) number (scenario_of N.value scenario.now)) result }
    ensures wide { RoseAtWide (L.wides ledger.old) (L.wides ledger.new) result }
    ensures counted { NeverFell L.ops L.wides ledger.old ledger.new }
{
    match policies(alloc, model, plan, scenario, ledger) {
        Err(stopped) => Err(stopped),
        Ok(adaptives) => match value_at(&model.objective, model, plan, scenario, ledger) {
            Err(_) => Err(Stopped::Wide),
            Ok(objective) => {
                match slacks_at(alloc, model, plan, scenario, adaptives.items(), ledger) {
                    Err(stopped) => Err(stopped),
                    Ok(slacks) => Ok(TableLine {
                        number,
                        inside: true,
                        adaptives,
                        objective,
                        slacks,
                    }),
                }
            }
        },
    }
}

/// The line of a scenario. Outside nothing is computed.
pub fn line_at<N: Exact, L: Ledger>(
    alloc: Global,
    number: u32,
    model: &Model<N>,
    plan: &Plan<N>,
    scenario: &Scenario<N>,
    ledger: &mut L,
) -> Result<TableLine<N>, Stopped>
    requires valid { IsValid N.value model.now }
    requires fits { length scenario.now.values ≡ length model.now.params }
    ensures exact { Computes (line_of N.value) (line_within N.limit (robust N.value model.now)
        (plan_of N.value plan.now) number (scenario_of N.value scenario.now)) result }
    ensures wide { RoseAtWide (L.wides ledger.old) (L.wides ledger.new) result }
    ensures counted { NeverFell L.ops L.wides ledger.old ledger.new }
{
    match admits(model, scenario, ledger) {
        Err(_) => Err(Stopped::Wide),
        Ok(true) => line_inside(alloc, number, model, plan, scenario, ledger),
        Ok(false) => Ok(TableLine {
            number,
            inside: false,
            adaptives: List::new(alloc),
            objective: zero(ledger),
            slacks: List::new(alloc),
        }),
    }
}
