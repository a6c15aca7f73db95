//! Why the cases can't be run.

use rob_number::Memory;
use std::alloc::{AllocError, AllocFailed};
use std::io;

/// Why the cases can't be run.
#[derive(Debug, Drop)]
pub enum Trouble {
    /// Memory was refused.
    Memory,
    /// Standard input can't be read, or standard output not written.
    Stream,
    /// A line is none of the format, or a call's terms are not kept.
    Line,
}

impl From<Memory> for Trouble {
    ghost use Rattle.std.specs.Prelude.{◌≡◌};
    ghost use Rattle.rob_case.specs.declared.trouble.Trouble.TheVariants.{Memory as WantOfMemory};

    ghost from_gives = { λ _ trouble. trouble ≡ WantOfMemory };

    fn from(_memory: Memory) -> Trouble {
        Trouble::Memory
    }
}

impl From<AllocError> for Trouble {
    ghost use Rattle.std.specs.Prelude.{◌≡◌};
    ghost use Rattle.rob_case.specs.declared.trouble.Trouble.TheVariants.{Memory as WantOfMemory};

    ghost from_gives = { λ _ trouble. trouble ≡ WantOfMemory };

    fn from(_error: AllocError) -> Trouble {
        Trouble::Memory
    }
}

impl<T: Drop> From<AllocFailed<T>> for Trouble {
    ghost use Rattle.std.specs.Prelude.{◌≡◌};
    ghost use Rattle.rob_case.specs.declared.trouble.Trouble.TheVariants.{Memory as WantOfMemory};

    ghost from_gives = { λ _ trouble. trouble ≡ WantOfMemory };

    fn from(_error: AllocFailed<T>) -> Trouble {
        Trouble::Memory
    }
}

impl From<io::Error> for Trouble {
    ghost use Rattle.std.specs.Prelude.{◌≡◌};
    ghost use Rattle.rob_case.specs.declared.trouble.Trouble.TheVariants.{Stream};

    ghost from_gives = { λ _ trouble. trouble ≡ Stream };

    fn from(_error: io::Error) -> Trouble {
        Trouble::Stream
    }
}
