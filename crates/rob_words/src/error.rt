//! Why words give no command line.

ghost use Rattle.std.specs.Prelude.{◌≡◌};
ghost use Rattle.rob_words.specs.declared.error.WordsErr.TheVariants.{Memory};

use std::alloc::{AllocError, AllocFailed};
use thiserror::Error;

/// Why words give no command line.
#[derive(Debug, Drop, Error)]
pub enum WordsErr {
    /// The words are no command line.
    #[error("the words are no command line")]
    NoCommandLine,
    /// Memory was refused.
    #[error("out of memory")]
    Memory,
}

impl<T: Drop> From<AllocFailed<T>> for WordsErr {
    ghost from_gives = { λ _ e. e ≡ Memory };

    fn from(_e: AllocFailed<T>) -> WordsErr {
        WordsErr::Memory
    }
}

impl From<AllocError> for WordsErr {
    ghost from_gives = { λ _ e. e ≡ Memory };

    fn from(_e: AllocError) -> WordsErr {
        WordsErr::Memory
    }
}
