//! The answers of `sweep` and `sweeptext`.

ghost use Rattle.std.specs.Prelude.{◌≤◌, ◌<◌, ◌^◌, IfOk, length, map, string_bytes};
ghost use Rattle.rob_model.specs.Valid.{IsValid};
ghost use Rattle.rob_model.specs.View.{robust};
ghost use Rattle.rob_top.specs.Calls.{count};
ghost use Rattle.rob_top.specs.Work.{AnswersSweep, AnswersWords};
ghost use Rattle.rob_words.specs.declared.verb.Verb.TheVariants as verbs;

use crate::limits::{limit_of, limits_of};
use crate::names::own_word;
use rob_commands::budgets::{limited, printed, unswept};
use rob_commands::reply::{Reply, no_line};
use rob_model::Model;
use rob_number::{Exact, Ledger, Memory};
use rob_sweep::sweep;
use rob_words::{Own, Verb, statement};
use std::alloc::Global;

/// The answer of `sweep` for a command's own words: the model's file, the number of a statement, and limits.
pub fn sweep_words<N: Exact + Drop, L: Ledger>(
    alloc: Global,
    model: &Model<N>,
    words: &[String],
    ledger: &mut L,
) -> Result<Reply, Memory>
    requires valid { IsValid N.value model.now }
    ensures answers { IfOk result (AnswersWords N.limit
        (count (L.wides ledger.old) (L.wides ledger.new))
        (robust N.value model.now) verbs.Sweep (map string_bytes words.now)) }
    ensures counted { L.wides ledger.old ≤ L.wides ledger.new }
{
    let number = own_word(Own::Statement, Verb::Sweep, words);
    let limits = own_word(Own::Limits, Verb::Sweep, words);
    let Some(n) = statement(number) else {
        return no_line(alloc);
    };
    let told = limits_of(alloc, limits, ledger)?;
    match told {
        Some(limits) => at_limits(alloc, model, n, limits.items(), ledger),
        None => no_line(alloc),
    }
}

/// The answer for the limits of a budget.
fn at_limits<N: Exact + Drop, L: Ledger>(
    alloc: Global,
    model: &Model<N>,
    n: u32,
    limits: &[N],
    ledger: &mut L,
) -> Result<Reply, Memory>
    requires valid { IsValid N.value model.now }
    requires few { length limits.now < 2 ^ 32 }
    ensures answers { IfOk result (AnswersSweep N.limit
        (count (L.wides ledger.old) (L.wides ledger.new))
        (robust N.value model.now) n (map N.value limits.now)) }
    ensures counted { L.wides ledger.old ≤ L.wides ledger.new }
{
    match sweep(alloc, model, n, limits, ledger) {
        Ok(answers) => printed(alloc, limits, answers.items()),
        Err(stop) => unswept(alloc, model, n, limits, stop),
    }
}

/// The answer of `sweeptext` for a command's own words: the model's file, the number of a statement, and a limit.
pub fn limit_words<N: Exact, L: Ledger>(
    alloc: Global,
    model: &Model<N>,
    words: &[String],
    ledger: &mut L,
) -> Result<Reply, Memory>
    requires valid { IsValid N.value model.now }
    ensures answers { IfOk result (AnswersWords N.limit
        (count (L.wides ledger.old) (L.wides ledger.new))
        (robust N.value model.now) verbs.SweepText (map string_bytes words.now)) }
    ensures counted { L.wides ledger.old ≤ L.wides ledger.new }
{
    let number = own_word(Own::Statement, Verb::SweepText, words);
    let word = own_word(Own::Limit, Verb::SweepText, words);
    let Some(n) = statement(number) else {
        return no_line(alloc);
    };
    match limit_of(word, ledger) {
        Some(limit) => limited(alloc, model, n, limit),
        None => no_line(alloc),
    }
}
