//! The room that is left for tokens.

ghost use Rattle.std.specs.Prelude.{◌≡◌, MatchResult, Some};
ghost use Rattle.rob_settings.specs.declared.room.Stop.TheVariants.{Memory};
ghost use Rattle.rob_settings.specs.Room.{left_of, HasStop};

/// Why a count stops.
#[derive(Drop)]
pub enum Stop {
    /// There are more tokens than there is room for.
    TooMuch,
    /// Memory was refused.
    Memory,
}

impl From<rob_number::Memory> for Stop {
    ghost from_gives = { λ _ e. e ≡ Memory };

    fn from(_e: rob_number::Memory) -> Stop {
        Stop::Memory
    }
}

/// What is left of the room behind so many tokens.
#[inline(always)]
pub fn spend(tokens: u32, room: u32) -> Result<u32, Stop>
    ensures left { MatchResult result
        (λ left. left_of tokens room ≡ Some left) (λ e. HasStop (left_of tokens room) e) }
{
    if tokens <= room {
        Ok(room - tokens)
    } else {
        Err(Stop::TooMuch)
    }
}
