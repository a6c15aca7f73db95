//! A sink in memory that grows, and fails only for want of memory.

ghost use Rattle.std.specs.Prelude.{◌≡◌, [], ◌∷◌, ◌++◌, MatchResult};
ghost use Rattle.rob_outside.specs.Puts.{put_of};
ghost use Rattle.rob_outside.specs.SureSink.{empty_bytes};

use crate::note::PutNote;
use crate::sink::{Sink, SinkErr};
use rob_number::Text;
use std::alloc::Global;
use std::marker::Model;

/// Output kept in memory. Contracts see the bytes taken so far, and its puts with what each answered.
#[derive(Drop)]
pub struct SureSink {
    text: Text,
    puts: PutNote,
}

impl Model for SureSink {
    ghost use Rattle.rob_outside.specs.SureSink.{SureOutput};

    ghost Value = { SureOutput };

    ghost view = { λ sink. record { bytes = sink.text; puts = sink.puts.puts } };
}

impl SureSink {
    /// A sink that took nothing. It takes no memory.
    pub fn new(alloc: Global) -> SureSink
        ensures empty { result ≡ empty_bytes }
    {
        SureSink {
            text: Text::new(alloc),
            puts: PutNote::new(),
        }
    }

    /// The bytes taken so far, in order.
    pub fn bytes(&self) -> &[u8]
        ensures list { result.now ≡ self.now.bytes }
    {
        self.text.bytes()
    }
}

impl Sink for SureSink {
    ghost taken = { λ sink. sink.bytes };

    ghost puts = { λ sink. sink.puts };

    ghost faults = { λ _. 0 };

    fn put(&mut self, piece: &[u8]) -> Result<(), SinkErr>
        // It takes all or, for want of memory, nothing.
        ensures took { MatchResult result (λ _. self.new.bytes ≡ self.old.bytes ++ piece.now)
            (λ error. (error ≡ SinkErr.Memory) × (self.new.bytes ≡ self.old.bytes)) }
        ensures noted { self.new.puts ≡ self.old.puts ++ put_of piece.now result ∷ [] }
    {
        let pushed = self.text.push(piece);
        self.puts.note(piece, pushed.is_ok());
        pushed?;
        Ok(())
    }
}
