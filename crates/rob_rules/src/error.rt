//! Why a text is no model.

ghost use Rattle.std.specs.Prelude.{◌≡◌};
ghost use Rattle.rob_rules.specs.declared.error.ModelErr.TheVariants.{Memory};

use thiserror::Error;

/// Why a text is no model.
#[derive(Debug, Drop, Error)]
pub enum ModelErr {
    /// The number of the broken rule, 1 to 4 for the tokens, 11 to 23 and 25 to 28 for the lines, and the line, counted
    /// from 1.
    #[error("line {1} breaks rule {0}")]
    Rule(u8, u32),
    /// Memory was refused.
    #[error("out of memory")]
    Memory,
}

impl From<rob_number::Memory> for ModelErr {
    ghost from_gives = { λ _ e. e ≡ Memory };

    fn from(_e: rob_number::Memory) -> ModelErr {
        ModelErr::Memory
    }
}
