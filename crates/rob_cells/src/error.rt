//! Why there is no split model.

ghost use Rattle.std.specs.Prelude.{◌≡◌};
ghost use Rattle.rob_cells.specs.declared.error.CellsErr.TheVariants as Unsplit;

use rob_number::Memory;
use thiserror::Error;

/// Why there is no split model.
#[derive(Debug, Drop, Error)]
pub enum CellsErr {
    /// The first broken rule. 51: the model has a named set. 53: two declared names of the split model are equal, or
    /// one is over 32 bytes. 54: the split model passes a limit on the size of models.
    #[error("the cells break rule {0}")]
    Rule(u8),
    /// Memory was refused.
    #[error("out of memory")]
    Memory,
}

impl From<Memory> for CellsErr {
    ghost from_gives = { λ _ e. e ≡ Unsplit.Memory };

    fn from(_memory: Memory) -> CellsErr {
        CellsErr::Memory
    }
}
