//! Models with other limits of their budgets.

ghost use Rattle.rob_model.specs.Valid.{IsValid};

use crate::answer::Answer;
use crate::boxes::model_text;
use crate::given;
use crate::stops::wide;
use rob_case::Trouble;
use rob_case::numbers::small;
use rob_case::text::keyword;
use rob_model::Model;
use rob_number::{Exact, Tally};
use rob_sweep::{SweepAnswer, SweepStop, sweep, with_budget};

/// The canonical text of the model with a limit in the statement of a number.
pub(crate) fn limited<N: Exact>(
    answer: &mut Answer,
    model: &Model<N>,
    line: &str,
) -> Result<(), Trouble>
    requires valid { IsValid N.value model.now }
{
    let (n, limit) = keyword(line);
    match with_budget(answer.alloc, model, small(n)?, given::fraction(limit)?) {
        Ok(other) => model_text(answer, &other),
        Err(stop) => stopped(answer, stop),
    }
}

/// The answers at the limits of a line, or why the sweep stops.
pub(crate) fn swept<N: Exact>(
    answer: &mut Answer,
    model: &Model<N>,
    line: &str,
) -> Result<(), Trouble>
    requires valid { IsValid N.value model.now }
{
    let (n, limits) = keyword(line);
    let n = small(n)?;
    let limits = given::fractions(answer.alloc, limits)?;
    at_limits(answer, model, n, limits.as_slice())
}

/// The answers at limits, or why the sweep stops.
fn at_limits<N: Exact>(
    answer: &mut Answer,
    model: &Model<N>,
    n: u32,
    limits: &[N],
) -> Result<(), Trouble>
    requires valid { IsValid N.value model.now }
{
    if limits.len() > 1000 {
        return Err(Trouble::Line);
    }
    match sweep(answer.alloc, model, n, limits, &mut Tally::new()) {
        Ok(answers) => told(answer, answers.items()),
        Err(stop) => stopped(answer, stop),
    }
}

/// Why a sweep stops. It has the stop, and lends it.
fn stopped(answer: &mut Answer, stop: SweepStop) -> Result<(), Trouble> {
    told_stop(answer, &stop)
}

/// What the stop of a sweep tells.
fn told_stop(answer: &mut Answer, stop: &SweepStop) -> Result<(), Trouble> {
    match stop {
        SweepStop::Rule(rule) => answer.tell("rule ", rule),
        SweepStop::Wide(number, spot) => {
            wide(answer, spot)?;
            answer.tell(" at limit ", number)
        }
        SweepStop::Memory => Err(Trouble::Memory),
    }
}

/// The answers.
fn told<N: Exact>(answer: &mut Answer, answers: &[SweepAnswer<N>]) -> Result<(), Trouble> {
    answer.tell("", &answers.len())?;
    answer.say(" answers")?;
    for one in answers {
        put_answer(answer, one)?;
    }
    Ok(())
}

/// Appends an answer at a limit.
fn put_answer<N: Exact>(answer: &mut Answer, one: &SweepAnswer<N>) -> Result<(), Trouble> {
    match one {
        SweepAnswer::Optimal(value) => answer.number(", optimal ", *value),
        SweepAnswer::Infeasible => answer.say(", infeasible"),
        SweepAnswer::Unbounded => answer.say(", unbounded"),
        SweepAnswer::Empty => answer.say(", empty"),
    }
}
