//! The machine's standard output. This is an edge that is trusted: what it tells are the bytes that it noted. That
//! it notes behind each write what the write said it took is proved over a writer whose bytes are known, and read
//! over the machine's; nothing is told of what it shows.

ghost use Rattle.std.specs.Prelude.{◌≡◌, ◌≤◌, ◌++◌, ◌∷◌, [], IfErr, MatchResult};
ghost use Rattle.rob_number.specs.Counts.{Rose, raised};
ghost use Rattle.rob_outside.specs.Puts.{StandsBut, put_of};
ghost use Rattle.rob_outside.specs.StdSink.{empty_output};
ghost use Rattle.rob_outside.specs.Taken.{Takes, TakesKnown, TookBoth};

use crate::note::{PutNote, WriteNote};
use crate::sink::{Sink, SinkErr};
use std::io;
use std::io::Write;
use std::marker::Model;

/// Standard output. Contracts see the bytes that it noted as taken so far, its puts with what each answered, and
/// the number of its faults.
#[derive(Drop)]
pub struct StdSink<'a, R: Print> {
    rt: &'a R,
    taken: WriteNote,
    puts: PutNote,
    faults: u64,
}

impl<'a, R: Print> Model for StdSink<'a, R> {
    ghost use Rattle.rob_outside.specs.StdSink.{OutputState};

    ghost Value = { OutputState };

    ghost view = { λ sink. record { taken = sink.taken.bytes; puts = sink.puts.puts; faults = sink.faults } };
}

impl<'a, R: Print> StdSink<'a, R> {
    /// A sink over standard output. It takes no memory and writes nothing.
    pub fn new(rt: &'a R) -> StdSink<'a, R>
        ensures empty { result ≡ empty_output }
    {
        StdSink {
            rt,
            taken: WriteNote::new(),
            puts: PutNote::new(),
            faults: 0,
        }
    }
}

impl<'a, R: Print> Sink for StdSink<'a, R> {
    ghost taken = { λ sink. sink.taken };

    ghost puts = { λ sink. sink.puts };

    ghost faults = { λ sink. sink.faults };

    /// An error of the machine is a fault, and so is a write that takes nothing. It takes no memory, and never answers
    /// `Memory`.
    fn put(&mut self, piece: &[u8]) -> Result<(), SinkErr>
        ensures took { Takes self.old.taken self.new.taken piece.now result }
        ensures noted { self.new.puts ≡ self.old.puts ++ put_of piece.now result ∷ [] }
        ensures exact { MatchResult result (λ _. self.new.faults ≡ self.old.faults)
            (λ error. (error ≡ SinkErr.Failed) × (self.new.faults ≡ raised self.old.faults)) }
        ensures counted { self.old.faults ≤ self.new.faults }
        ensures stands { StandsBut self.old.faults self.new.faults result }
        ensures fault { result ≡ Err SinkErr.Failed → Rose self.old.faults self.new.faults }
    {
        let written = write_whole(&mut io::writer(self.rt), piece, &mut self.taken);
        self.puts.note(piece, written.is_ok());
        if written.is_err() {
            self.faults = self.faults.saturating_add(1);
        }
        written
    }
}

/// Writes until the piece is used up, and notes the bytes that each write took. Each time a byte at least is written.
fn write_whole<W: Write>(writer: &mut W, piece: &[u8], taken: &mut WriteNote) -> Result<(), SinkErr>
    // Where the writer's bytes are known: the piece came behind them, or at an error a prefix of it.
    ensures took { TakesKnown (W.contents writer.old) (W.contents writer.new) piece.now result }
    // The bytes that are noted: the piece, or at an error a prefix of it,
    ensures noted { Takes taken.old.bytes taken.new.bytes piece.now result }
    // and they are those that came behind the writer's bytes.
    ensures same { TookBoth (W.contents writer.old)
        (W.contents writer.new) taken.old.bytes taken.new.bytes }
    ensures fault { IfErr result (λ error. error ≡ SinkErr.Failed) }
{
    let mut rest = piece;
    while !rest.is_empty() {
        match writer.write(rest) {
            Ok(0) | Err(_) => return Err(SinkErr::Failed),
            Ok(count) => {
                taken.note(&rest[..count]);
                rest = &rest[count..];
            }
        }
    }
    Ok(())
}
