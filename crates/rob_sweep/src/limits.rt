//! The rules on a statement and a list of limits.

ghost use Rattle.std.specs.Prelude.{map, option_map};
ghost use Rattle.std.specs.Bool.{Decides};
ghost use Rattle.rob_model.specs.View.{robust};
ghost use Rattle.rob_reach.specs.Sweeps.{Rises};
ghost use Rattle.rob_sweep.specs.Stops.{IsFirstBroken};
ghost use Rattle.rob_sweep.specs.View.{IsAbove};

use crate::budget::is_budget;
use rob_model::Model;
use rob_model::numbers::at_most;
use rob_number::Exact;

/// The number of the first rule that is broken, or none where both are kept: 81 where the statement doesn't exist or
/// isn't a budget, 82 where the limits don't rise strictly. It takes no memory.
pub fn sweep_rule<N: Exact>(model: &Model<N>, n: u32, limits: &[N]) -> Option<u8>
    ensures rule { IsFirstBroken (robust N.value model.now).set_lines n
        (map N.value limits.now) result }
{
    if !is_budget(model.set_lines.items(), n) {
        Some(81)
    } else if !rise(limits) {
        Some(82)
    } else {
        None
    }
}

/// Whether each number is below the next one.
fn rise<N: Exact>(limits: &[N]) -> bool
    ensures test { Decides result (Rises (map N.value limits.now)) }
{
    let mut previous = None;
    for limit in limits {
        if !is_above(*limit, previous) {
            return false;
        }
        previous = Some(*limit);
    }
    true
}

/// Whether the number is above the one before it, if there is one.
fn is_above<N: Exact>(number: N, previous: Option<N>) -> bool
    ensures test { Decides result (IsAbove (option_map N.value previous) (N.value number)) }
{
    match previous {
        Some(before) => !at_most(number, before),
        None => true,
    }
}
