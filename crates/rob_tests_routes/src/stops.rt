//! Why there is no answer: the set is empty, or a number is wide.

use crate::answer::Answer;
use crate::cuts::rounds;
use rob_case::Trouble;
use rob_cert::{Stop, Trace};
use rob_model::{Spot, Where};
use rob_number::List;
use rob_sets::ElabErr;

/// What stands between two lines, as bytes are shown.
pub(crate) const LINE_END: &str = "\\0a";

/// Why a route or a search tells nothing, with the rounds before it; `all` also tells all of where a number is wide.
/// It has the stop, and lends it.
pub(crate) fn stopped(answer: &mut Answer, stop: Stop, all: bool) -> Result<(), Trouble> {
    told(answer, &stop, all)
}

/// Why a model isn't written in whole numbers.
pub(crate) fn refused(answer: &mut Answer, error: ElabErr, all: bool) -> Result<(), Trouble> {
    let rounds = List::new(answer.alloc);
    match error {
        ElabErr::Wide(spot) => stopped(answer, Stop::Wide(spot, Trace { rounds }), all),
        ElabErr::Memory => Err(Trouble::Memory),
    }
}

/// What a stop tells.
pub(crate) fn told(answer: &mut Answer, stop: &Stop, all: bool) -> Result<(), Trouble> {
    match stop {
        Stop::EmptySet(weights) => empty(answer, weights.items()),
        Stop::Wide(spot, trace) => {
            wide_spot(answer, spot, all)?;
            rounds(answer, trace.rounds.items())
        }
        Stop::Memory => Err(Trouble::Memory),
    }
}

/// That no scenario is admitted: the weights of the set rows that show it.
pub(crate) fn empty(answer: &mut Answer, weights: &[i64]) -> Result<(), Trouble> {
    answer.wholes("empty set by", weights)
}

/// Where a number is wide, and in a second line all that is told of it.
fn wide_spot(answer: &mut Answer, spot: &Spot, all: bool) -> Result<(), Trouble> {
    wide(answer, spot)?;
    if all {
        answer.tell(LINE_END, spot)
    } else {
        Ok(())
    }
}

/// Where a number is wide, without the basis and the row of a dictionary.
pub(crate) fn wide(answer: &mut Answer, spot: &Spot) -> Result<(), Trouble> {
    match spot {
        Spot::Coefficient(part) => answer.tell("wide coefficient of ", part),
        Spot::Clearing(part) => answer.tell("wide clearing of ", part),
        Spot::Dictionary(program, _, _) => answer.tell("wide row of ", program),
        Spot::Sum(part, term) => wide_sum(answer, part, *term),
        Spot::Check(place) => answer.tell("wide check of ", place),
        Spot::Replay(line) => answer.tell("wide record ", line),
    }
}

/// That a term of a sum is wide.
fn wide_sum(answer: &mut Answer, part: &Where, term: u32) -> Result<(), Trouble> {
    answer.tell("wide sum ", &term)?;
    answer.tell(" of ", part)
}
