//! Why a text has no tokens.

ghost use Rattle.std.specs.Prelude.{◌≡◌};
ghost use Rattle.rob_lex.specs.declared.error.LexErr.TheVariants.{Memory};

use std::alloc::AllocFailed;
use thiserror::Error;

/// Why a text has no tokens.
#[derive(Debug, Drop, Error)]
pub enum LexErr {
    /// The number of the broken rule, from 1 to 4 in the order of `Offence`, and its line, counted from 1.
    #[error("line {1} breaks rule {0}")]
    Rule(u8, u32),
    /// Memory was refused.
    #[error("out of memory")]
    Memory,
}

impl<T: Drop> From<AllocFailed<T>> for LexErr {
    ghost from_gives = { λ _ e. e ≡ Memory };

    fn from(_e: AllocFailed<T>) -> LexErr {
        LexErr::Memory
    }
}
