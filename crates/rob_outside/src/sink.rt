//! A place for output.

ghost use Rattle.std.specs.Prelude.{◌≡◌, ◌≤◌, ◌++◌, ◌∷◌, ℕ, List, []};
ghost use Rattle.rob_number.specs.Counts.{Rose};
ghost use Rattle.rob_outside.specs.Puts.{Put, StandsBut, put_of};
ghost use Rattle.rob_outside.specs.Taken.{Takes};

use rob_number::Memory;

/// Why a put did not take the whole piece.
#[derive(Debug, PartialEq, Eq, Clone, Copy)]
pub enum SinkErr {
    /// The outside failed. The sink counted a fault.
    Failed,
    /// Memory was refused.
    Memory,
}

impl From<Memory> for SinkErr {
    ghost use Rattle.std.specs.Prelude.{◌≡◌};
    ghost use Rattle.rob_outside.specs.declared.sink.SinkErr.TheVariants.{Memory as WantOfMemory};

    ghost from_gives = { λ _ error. error ≡ WantOfMemory };

    fn from(_refused: Memory) -> SinkErr {
        SinkErr::Memory
    }
}

/// A place for output. A sink keeps the bytes that it took, and its puts with what each answered, and it counts its
/// faults. All are meanings for contracts alone.
pub trait Sink {
    /// The bytes taken so far, in order.
    ghost taken: { Self → List ℕ };

    /// The puts so far, in their order, with whether each answered that it took the whole piece.
    ghost puts: { Self → List Put };

    /// The number of faults so far. A count at `u64::MAX` stands.
    ghost faults: { Self → ℕ };

    /// Appends the piece. After an error a prefix of the piece was appended, which may be nothing or all of it.
    fn put(&mut self, piece: &[u8]) -> Result<(), SinkErr>
        ensures took { Takes (taken self.old) (taken self.new) piece.now result }
        // Every put is noted, also one that answers an error, and nothing else is.
        ensures noted { puts self.new ≡ puts self.old ++ put_of piece.now result ∷ [] }
        ensures counted { faults self.old ≤ faults self.new }
        ensures stands { StandsBut (faults self.old) (faults self.new) result }
        ensures fault { result ≡ Err SinkErr.Failed → Rose (faults self.old) (faults self.new) };
}
