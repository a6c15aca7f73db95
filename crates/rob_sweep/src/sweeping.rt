//! The sweep: one model at each limit of a list.

ghost use Rattle.std.specs.Prelude.{◌<◌, ◌^◌, length, map, IfOk, IfErr, MatchResult, OnOk};
ghost use Rattle.rob_elab.specs.Written.{IsWritten};
ghost use Rattle.rob_model.specs.Valid.{IsValid};
ghost use Rattle.rob_model.specs.View.{robust};
ghost use Rattle.rob_reach.specs.Sweeps.{Answers, IsBudgetAt, Swept, with_budget as model_with};
ghost use Rattle.rob_sweep.specs.Answering.{AreWritten, EachAnswer, EachGrowsHarder, NamesEmpty};
ghost use Rattle.rob_sweep.specs.Stops.{CountsSweep, HasCause, IsLimitStop, KeepsRules};
ghost use Rattle.rob_sweep.specs.View.{answer_of};

use crate::answer::{SweepAnswer, SweepStop};
use crate::budget::with_budget;
use crate::limits::sweep_rule;
use crate::solve::answer;
use rob_model::Model;
use rob_number::{Exact, Ledger, List};
use rob_sets::ElabErr;
use std::alloc::Global;

/// The answers for the model whose statement `n`, counted from 1, has each limit of the list in turn, in the list's
/// order: one solve a limit. Rule 81 comes exactly where that statement doesn't exist or isn't a budget; rule 82
/// exactly where it is one and the limits don't rise strictly; else `Wide` names a limit, counted from 1, whose model
/// has a wide number, and a spot of it. The set rows and forms of the models at the limits before it have none.
/// `Memory` comes only where the rules are kept.
pub fn sweep<N: Exact, L: Ledger>(
    alloc: Global,
    model: &Model<N>,
    n: u32,
    limits: &[N],
    ledger: &mut L,
) -> Result<List<SweepAnswer<N>>, SweepStop>
    requires valid { IsValid N.value model.now }
    requires few { length limits.now < 2 ^ 32 }
    // Answers come only where nothing is wide when the models are written in whole numbers.
    ensures written { OnOk result (AreWritten N.limit (robust N.value model.now) n
        (map N.value limits.now)) }
    // Each answer is that of the model with its limit: the status, or that the set is empty, exactly where it is.
    ensures swept { IfOk result (λ answers. Swept (robust N.value model.now) n
        (map N.value limits.now) (map (answer_of N.value) answers)) }
    // Where it is, one of the model's sets admits nothing.
    ensures empty { IfOk result (λ answers. EachAnswer NamesEmpty (robust N.value model.now) n
        (map N.value limits.now) (map (answer_of N.value) answers)) }
    // Of any two answers the later one is no easier.
    ensures harder { IfOk result (λ answers.
        EachGrowsHarder (robust N.value model.now).sense (map (answer_of N.value) answers)) }
    ensures cause { MatchResult result
        (λ _. KeepsRules (robust N.value model.now).set_lines n (map N.value limits.now))
        (HasCause N.limit (robust N.value model.now) n (map N.value limits.now)) }
    ensures counted { CountsSweep L.ops L.wides ledger.old ledger.new result }
{
    if let Some(rule) = sweep_rule(model, n, limits) {
        return Err(SweepStop::Rule(rule));
    }
    let mut answers = List::new(alloc);
    let mut number: u32 = 0;
    for limit in limits {
        number += 1;
        match at_limit(alloc, model, n, number, *limit, ledger) {
            Ok(next) => answers.push(next)?,
            Err(stop) => return Err(stop),
        }
    }
    Ok(answers)
}

/// The answer for the limit of that number.
fn at_limit<N: Exact, L: Ledger>(
    alloc: Global,
    model: &Model<N>,
    n: u32,
    number: u32,
    limit: N,
    ledger: &mut L,
) -> Result<SweepAnswer<N>, SweepStop>
    requires valid { IsValid N.value model.now }
    requires budget { IsBudgetAt (robust N.value model.now).set_lines n }
    ensures written { OnOk result (IsWritten N.limit
        (model_with (robust N.value model.now) n (N.value limit))) }
    ensures answers { IfOk result (λ answer.
        Answers (model_with (robust N.value model.now) n (N.value limit))
        (answer_of N.value answer)) }
    ensures empty { IfOk result (λ answer.
        NamesEmpty (model_with (robust N.value model.now) n (N.value limit))
        (answer_of N.value answer)) }
    ensures cause { IfErr result (IsLimitStop N.limit
        (model_with (robust N.value model.now) n (N.value limit)) number) }
    ensures counted { CountsSweep L.ops L.wides ledger.old ledger.new result }
{
    let changed = with_budget(alloc, model, n, limit)?;
    match answer(alloc, &changed, ledger) {
        Ok(answer) => Ok(answer),
        Err(ElabErr::Wide(spot)) => Err(SweepStop::Wide(number, spot)),
        Err(ElabErr::Memory) => Err(SweepStop::Memory),
    }
}
