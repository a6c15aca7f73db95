//! A model with another limit in one of its budgets.

ghost use Rattle.std.specs.Prelude.{◌≡◌, IfOk, MatchResult, map, option_map};
ghost use Rattle.std.specs.Bool.{Decides};
ghost use Rattle.rob_meaning.specs.Named.{IsNamed};
ghost use Rattle.rob_model.specs.Valid.{IsValid};
ghost use Rattle.rob_model.specs.View.{robust, set_line_of};
ghost use Rattle.rob_reach.specs.Sweeps as reach;
ghost use Rattle.rob_reach.specs.Sweeps.{IsBudgetAt, limit_at};
ghost use Rattle.rob_sweep.specs.Stops.{IsBudgetStop};
ghost use Rattle.rob_sweep.specs.View as view;
ghost use Rattle.rob_sweep.specs.View.{with_limit};

use crate::answer::SweepStop;
use rob_model::copy::{copy_expr, copy_list, copy_model};
use rob_model::{Model, SetLine};
use rob_number::{Exact, List, Memory};
use std::alloc::Global;

/// The model whose statement `n` on the uncertainty sets, counted from 1, has that limit. Rule 81 comes exactly where
/// that statement doesn't exist or isn't a budget. The limit may be below 0, which no model text says: then the set
/// admits no scenario, and the canonical text of the result isn't read again. `Memory` comes only where
/// the rule is kept.
pub fn with_budget<N: Exact>(
    alloc: Global,
    model: &Model<N>,
    n: u32,
    limit: N,
) -> Result<Model<N>, SweepStop>
    requires valid { IsValid N.value model.now }
    ensures replaced { IfOk result (λ other. robust N.value other
        ≡ reach.with_budget (robust N.value model.now) n (N.value limit)) }
    ensures valid { IfOk result (λ other. IsValid N.value other) }
    ensures named { IfOk result (λ other. IsNamed (robust N.value model.now)
        → IsNamed (robust N.value other)) }
    ensures rule { MatchResult result (λ _. IsBudgetAt (robust N.value model.now).set_lines n)
        (IsBudgetStop (robust N.value model.now).set_lines n) }
{
    if !is_budget(model.set_lines.items(), n) {
        return Err(SweepStop::Rule(81));
    }
    let mut copy = copy_model(alloc, model)?;
    copy.set_lines = limited(alloc, model.set_lines.items(), n, limit)?;
    Ok(copy)
}

/// Whether statement `n`, counted from 1, exists and is a budget.
pub fn is_budget<N: Exact>(lines: &[SetLine<N>], n: u32) -> bool
    ensures test { Decides result (IsBudgetAt (map (set_line_of N.value) lines.now) n) }
{
    if n == 0 {
        return false;
    }
    match lines.get(n as usize - 1) {
        Some(line) => has_limit(line),
        None => false,
    }
}

/// Whether the statement is a budget.
fn has_limit<N: Exact>(line: &SetLine<N>) -> bool
    ensures test { Decides result (reach.IsBudgetLine (set_line_of N.value line.now)) }
{
    match line {
        SetLine::Line { .. } => false,
        SetLine::Budget { .. } => true,
    }
}

/// The statements, statement `n`, counted from 1, with that limit.
fn limited<N: Exact>(
    alloc: Global,
    lines: &[SetLine<N>],
    n: u32,
    limit: N,
) -> Result<List<SetLine<N>>, Memory>
    ensures limited { IfOk result (λ list. map (set_line_of N.value) list
        ≡ limit_at n (N.value limit) (map (set_line_of N.value) lines.now)) }
{
    let mut list = List::new(alloc);
    // The budget's number, counted from the next statement; 0 behind it.
    let mut left = n;
    for line in lines {
        let next = copy_line(alloc, line, limit_for(left, limit))?;
        list.push(next)?;
        left = left.saturating_sub(1);
    }
    Ok(list)
}

/// The limit, where the budget's number, counted from the next statement, is that of the next one.
fn limit_for<N: Exact>(left: u32, limit: N) -> Option<N>
    ensures limit { option_map N.value result ≡ view.limit_for left (N.value limit) }
{
    if left == 1 { Some(limit) } else { None }
}

/// The same statement, a budget with the other limit, where one is given.
fn copy_line<N: Exact>(
    alloc: Global,
    line: &SetLine<N>,
    other: Option<N>,
) -> Result<SetLine<N>, Memory>
    ensures copied { IfOk result (λ copy. set_line_of N.value copy
        ≡ with_limit (option_map N.value other) (set_line_of N.value line.now)) }
{
    match line {
        SetLine::Line { left, rel, right } => Ok(SetLine::Line {
            left: copy_expr(alloc, left)?,
            rel: *rel,
            right: copy_expr(alloc, right)?,
        }),
        SetLine::Budget { limit, members } => Ok(SetLine::Budget {
            limit: other.unwrap_or(*limit),
            members: copy_list(alloc, members.items())?,
        }),
    }
}
