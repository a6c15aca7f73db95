//! Why a set or the forms are not written in whole numbers.

ghost use Rattle.std.specs.Prelude.{◌≡◌};
ghost use Rattle.rob_sets.specs.Stops.{error_of};
ghost use Rattle.rob_sets.specs.declared.error.ElabErr.TheVariants as Refused;
ghost use Rattle.rob_sets.specs.declared.error.Stop.TheVariants as Is;

use rob_model::Spot;
use rob_number::{Memory, Wide};
use std::alloc::{AllocError, AllocFailed};

/// Why a call has no answer.
#[derive(Debug, Drop)]
pub enum ElabErr {
    /// A number is wide. The spot is the first such in the stated order.
    Wide(Spot),
    /// Memory was refused.
    Memory,
}

/// Why a table or a list of whole numbers was not computed. Where it belongs to is known to the caller alone.
#[derive(Debug, PartialEq, Eq, Clone, Copy)]
pub enum Stop {
    /// A number is wide.
    Wide,
    /// Memory was refused.
    Memory,
}

impl From<Wide> for Stop {
    ghost from_gives = { λ _ stop. stop ≡ Is.Wide };

    fn from(_wide: Wide) -> Stop {
        Stop::Wide
    }
}

impl From<Memory> for Stop {
    ghost from_gives = { λ _ stop. stop ≡ Is.Memory };

    fn from(_memory: Memory) -> Stop {
        Stop::Memory
    }
}

impl From<AllocError> for Stop {
    ghost from_gives = { λ _ stop. stop ≡ Is.Memory };

    fn from(_error: AllocError) -> Stop {
        Stop::Memory
    }
}

impl<T: Drop> From<AllocFailed<T>> for Stop {
    ghost from_gives = { λ _ stop. stop ≡ Is.Memory };

    fn from(_error: AllocFailed<T>) -> Stop {
        Stop::Memory
    }
}

impl From<Memory> for ElabErr {
    ghost from_gives = { λ _ e. e ≡ Refused.Memory };

    fn from(_memory: Memory) -> ElabErr {
        ElabErr::Memory
    }
}

impl From<AllocError> for ElabErr {
    ghost from_gives = { λ _ e. e ≡ Refused.Memory };

    fn from(_error: AllocError) -> ElabErr {
        ElabErr::Memory
    }
}

/// Why a call has no answer, where a computation stopped at that spot.
pub fn stopped(stop: Stop, spot: Spot) -> ElabErr
    ensures error { result ≡ error_of stop spot }
{
    match stop {
        Stop::Wide => ElabErr::Wide(spot),
        Stop::Memory => ElabErr::Memory,
    }
}
