//! The answers for a model at limits of a budget: the lines of a sweep, where it stopped, and the model at one limit.

ghost use Rattle.std.specs.Prelude.{◌≡◌, ◌++◌, IfOk, OnOk, length, map};
ghost use Rattle.rob_model.specs.Valid.{IsValid};
ghost use Rattle.rob_model.specs.View.{robust};
ghost use Rattle.rob_reach.specs.Sweeps as reach;
ghost use Rattle.rob_reach.specs.Sweeps.{IsBudgetAt};
ghost use Rattle.rob_report.specs.Places.{IsSpotOf};
ghost use Rattle.rob_report.specs.Spots.{too_wide_line};
ghost use Rattle.rob_sweep.specs.Stops.{HasCause};
ghost use Rattle.rob_sweep.specs.SweepText as lines;
ghost use Rattle.rob_sweep.specs.View.{answer_of};
ghost use Rattle.rob_commands.specs.Answers.{budget_line, wide_budget_text};
ghost use Rattle.rob_commands.specs.Replies.{Replies};
ghost use Rattle.rob_commands.specs.Stops.{RepliesLimit, RepliesUnswept};

use crate::ended::Ended;
use crate::reply::{Reply, broken_words, printed_model};
use rob_cert::spelling::put_number;
use rob_model::{Model, Spot};
use rob_number::{Exact, Memory, Text};
use rob_report::spot_text;
use rob_sweep::{SweepAnswer, SweepStop, sweep_text, with_budget};
use std::alloc::Global;

/// The answer with the lines of the limits.
pub fn printed<N: Exact>(
    alloc: Global,
    limits: &[N],
    answers: &[SweepAnswer<N>],
) -> Result<Reply, Memory>
    requires count { length answers.now ≡ length limits.now }
    ensures printed { IfOk result (Replies Ended.Printed
        (lines.sweep_text (map N.value limits.now) (map (answer_of N.value) answers.now))) }
{
    let text = sweep_text(alloc, limits, answers)?;
    Ok(Reply {
        ended: Ended::Printed,
        text,
    })
}

/// The answer where the sweep stopped.
pub fn unswept<N: Exact>(
    alloc: Global,
    model: &Model<N>,
    n: u32,
    limits: &[N],
    stop: SweepStop,
) -> Result<Reply, Memory>
    requires valid { IsValid N.value model.now }
    requires cause { HasCause N.limit (robust N.value model.now) n (map N.value limits.now) stop }
    ensures stop { IfOk result (RepliesUnswept N.limit (robust N.value model.now) n
        (map N.value limits.now) stop) }
{
    match stop {
        SweepStop::Rule(rule) => broken_words(alloc, Ended::Sweep(rule), b"sweep ", rule),
        SweepStop::Wide(number, spot) => {
            wide_budget(alloc, model, n, limits[number as usize - 1], number, spot)
        }
        SweepStop::Memory => Err(Memory),
    }
}

/// The answer where a number is wide in the model with that limit.
fn wide_budget<N: Exact>(
    alloc: Global,
    model: &Model<N>,
    n: u32,
    limit: N,
    number: u32,
    spot: Spot,
) -> Result<Reply, Memory>
    requires valid { IsValid N.value model.now }
    requires budget { IsBudgetAt (robust N.value model.now).set_lines n }
    requires named { IsSpotOf (reach.with_budget (robust N.value model.now) n (N.value limit))
        spot }
    ensures wide { IfOk result (Replies (Ended.WideBudget number spot)
        (wide_budget_text (robust N.value model.now) n (N.value limit) spot)) }
{
    let changed = at_limit(alloc, model, n, limit)?;
    let text = wide_text(alloc, &changed, limit, &spot)?;
    Ok(Reply {
        ended: Ended::WideBudget(number, spot),
        text,
    })
}

/// The line of a number that is wide in the model, and the line of its limit.
fn wide_text<N: Exact>(
    alloc: Global,
    model: &Model<N>,
    limit: N,
    spot: &Spot,
) -> Result<Text, Memory>
    requires valid { IsValid N.value model.now }
    requires named { IsSpotOf (robust N.value model.now) spot.now }
    ensures text { IfOk result (λ text. text
        ≡ too_wide_line (robust N.value model.now) spot.now ++ budget_line (N.value limit)) }
{
    let mut text = spot_text(alloc, model, spot)?;
    put_limit(&mut text, limit)?;
    Ok(text)
}

/// Appends the line of a limit.
fn put_limit<N: Exact>(out: &mut Text, limit: N) -> Result<(), Memory>
    ensures appended { OnOk result (out.new ≡ out.old ++ budget_line (N.value limit)) }
{
    out.push(b"where budget ")?;
    put_number(out, limit)?;
    out.push(b"\n")
}

/// The model with that limit in its budget.
fn at_limit<N: Exact>(alloc: Global, model: &Model<N>, n: u32, limit: N) -> Result<Model<N>, Memory>
    requires valid { IsValid N.value model.now }
    requires budget { IsBudgetAt (robust N.value model.now).set_lines n }
    ensures replaced { IfOk result (λ other. robust N.value other
        ≡ reach.with_budget (robust N.value model.now) n (N.value limit)) }
    ensures valid { IfOk result (λ other. IsValid N.value other) }
{
    match with_budget(alloc, model, n, limit) {
        Ok(changed) => Ok(changed),
        Err(SweepStop::Memory) => Err(Memory),
        Err(_) => unreachable!(),
    }
}

/// The answer for a limit of a budget: the text of the model that has it.
pub fn limited<N: Exact>(alloc: Global, model: &Model<N>, n: u32, limit: N) -> Result<Reply, Memory>
    requires valid { IsValid N.value model.now }
    ensures limited { IfOk result (RepliesLimit (robust N.value model.now) n (N.value limit)) }
{
    match with_budget(alloc, model, n, limit) {
        Ok(changed) => printed_model(alloc, &changed),
        Err(SweepStop::Rule(rule)) => broken_words(alloc, Ended::Sweep(rule), b"sweep ", rule),
        Err(SweepStop::Memory) => Err(Memory),
        Err(SweepStop::Wide(_, _)) => unreachable!(),
    }
}
