//! A direction in whole numbers.

ghost use Rattle.std.specs.Prelude.{◌≡◌, ◌<◌, suc, map, length, IfOk, IfErr, MatchOption};
ghost use Rattle.rob_algebra.specs.Fraction.{◌*ℚ◌};
ghost use Rattle.rob_algebra.specs.Width.{IsWide};
ghost use Rattle.rob_meaning.specs.Places.{at, tabulate};
ghost use Rattle.rob_sets.specs.Stops.{StopsFor};
ghost use Rattle.rob_cuts.specs.Steps.{SomeWideProduct};

use rob_model::Plan;
use rob_number::{Exact, List, Tally};
use rob_sets::error::Stop as Refusal;
use std::alloc::Global;

/// The direction, as often as its scale says: a number for each decision column, and the one for the bound behind them.
/// `Wide` where such a number is over the limit.
pub fn whole_step<N: Exact>(
    alloc: Global,
    step: &[N],
    scale: N,
    decisions: u32,
) -> Result<Plan<N>, Refusal>
    requires size { length step.now ≡ suc decisions }
    ensures columns { IfOk result (λ plan. map N.value plan.columns
        ≡ tabulate decisions (λ j. N.value scale *ℚ at (map N.value step.now) j)) }
    ensures bound { IfOk result (λ plan. N.value plan.bound
        ≡ N.value scale *ℚ at (map N.value step.now) decisions) }
    ensures wide { IfErr result (StopsFor
        (SomeWideProduct N.limit (N.value scale) (map N.value step.now))) }
{
    let mut columns = List::new(alloc);
    for j in 0..decisions as usize {
        let Some(number) = product(scale, step[j]) else {
            return Err(Refusal::Wide);
        };
        columns.push(number)?;
    }
    match product(scale, step[decisions as usize]) {
        Some(bound) => Ok(Plan { columns, bound }),
        None => Err(Refusal::Wide),
    }
}

/// The product, or none where it is wide.
fn product<N: Exact>(scale: N, number: N) -> Option<N>
    ensures product { MatchOption result (IsWide N.limit (N.value scale *ℚ N.value number))
        (λ x. N.value x ≡ N.value scale *ℚ N.value number) }
{
    match scale.mul(number, &mut Tally::new()) {
        Ok(x) => Some(x),
        Err(_) => None,
    }
}
