//! Putting the lines of a text.

ghost use Rattle.std.specs.Prelude.{◌≡◌, ◌≤◌, ◌<◌, ◌++◌, ◌∷◌, Err, length, position};
ghost use Rattle.rob_number.specs.Counts.{Rose};
ghost use Rattle.rob_outside.specs.Puts.{PutEach, StandsBut};
ghost use Rattle.rob_outside.specs.Taken.{Takes};
ghost use Rattle.rob_top.specs.Lines.{is_line_end, text_lines};

use rob_outside::{Sink, SinkErr};

/// Puts a text, one put for each line with its line end; a last line without one is put too. After a refused put
/// nothing more is put.
pub fn put_lines<K: Sink>(text: &[u8], out: &mut K) -> Result<(), SinkErr>
    ensures took { Takes (K.taken out.old) (K.taken out.new) text.now result }
    ensures puts { PutEach (K.puts out.old) (K.puts out.new) (text_lines text.now) result }
    ensures counted { K.faults out.old ≤ K.faults out.new }
    ensures stands { StandsBut (K.faults out.old) (K.faults out.new) result }
    ensures fault { result ≡ Err SinkErr.Failed → Rose (K.faults out.old) (K.faults out.new) }
{
    let mut rest = text;
    while !rest.is_empty() {
        let (line, behind) = first_line(rest);
        if let Err(error) = out.put(line) {
            return Err(error);
        }
        rest = behind;
    }
    Ok(())
}

/// The first line of a text, with its line end where it has one, and what stands behind it.
fn first_line(text: &[u8]) -> (&[u8], &[u8])
    requires some { 0 < length text.now }
    ensures both { text.now ≡ result.0.now ++ result.1.now }
    ensures first { text_lines text.now ≡ result.0.now ∷ text_lines result.1.now }
    ensures shorter { length result.1.now < length text.now }
{
    match line_end(text) {
        Some(before) => text.split_at(before + 1),
        None => text.split_at(text.len()),
    }
}

/// How many bytes stand before the first line end, if there is one.
fn line_end(text: &[u8]) -> Option<usize>
    ensures first { result ≡ position is_line_end text.now }
{
    text.iter().position(|byte| *byte == b'\n')
}
