//! What is answered for one limit, and why a sweep stops.

ghost use Rattle.std.specs.Prelude.{◌≡◌};
ghost use Rattle.rob_sweep.specs.declared.answer.SweepStop.TheVariants as Stopped;

use rob_model::Spot;
use rob_number::Memory;

/// The answer for one limit: a status of the model with that limit, or that one of its sets admits no scenario.
#[derive(Debug, Drop)]
pub enum SweepAnswer<N> {
    /// The model's optimum.
    Optimal(N),
    /// No plan has any bound.
    Infeasible,
    /// Each number is the bound of some plan.
    Unbounded,
    /// No joint scenario is admitted.
    Empty,
}

/// Why a sweep stops.
#[derive(Debug, Drop)]
pub enum SweepStop {
    /// 81: the statement doesn't exist or isn't a budget. 82: the limits don't rise strictly.
    Rule(u8),
    /// A number is wide for the model with that limit of the list, counted from 1.
    Wide(u32, Spot),
    /// Memory was refused.
    Memory,
}

impl From<Memory> for SweepStop {
    ghost from_gives = { λ _ stop. stop ≡ Stopped.Memory };

    fn from(_memory: Memory) -> SweepStop {
        SweepStop::Memory
    }
}
