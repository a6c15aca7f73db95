//! Why some symbols are no statement.

ghost use Rattle.std.specs.Prelude.{◌≡◌};
ghost use Rattle.rob_syntax.specs.declared.error.ParseErr.TheVariants.{Memory};

/// Why some symbols aren't parsed.
#[derive(Drop)]
pub enum ParseErr {
    /// They are no such part of a statement.
    NotAStatement,
    /// Memory was refused.
    Memory,
}

impl From<rob_number::Memory> for ParseErr {
    ghost from_gives = { λ _ e. e ≡ Memory };

    fn from(_e: rob_number::Memory) -> ParseErr {
        ParseErr::Memory
    }
}
