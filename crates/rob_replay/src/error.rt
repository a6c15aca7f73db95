//! Why a scenario file has no table.

ghost use Rattle.std.specs.Prelude.{◌≡◌};
ghost use Rattle.rob_replay.specs.declared.error.ReplayErr.TheVariants as Unreplayed;

use rob_number::Memory;
use thiserror::Error;

/// Why a scenario file has no table.
#[derive(Debug, Drop, Error)]
pub enum ReplayErr {
    /// The number of the broken rule, and its record, counted from 1, the header.
    #[error("record {1} of the scenarios breaks rule {0}")]
    Rule(u8, u32),
    /// A number of that record's values is wide.
    #[error("a number of record {0} is wide")]
    Wide(u32),
    /// Memory was refused.
    #[error("out of memory")]
    Memory,
}

impl From<Memory> for ReplayErr {
    ghost from_gives = { λ _ e. e ≡ Unreplayed.Memory };

    fn from(_memory: Memory) -> ReplayErr {
        ReplayErr::Memory
    }
}
