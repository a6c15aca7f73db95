//! The top call.
//!
//! Order of work, which is the order of answers: the words are read; the files are fetched in the words' order, and
//! the first that doesn't come whole decides; the texts are worked on; the whole output is assembled; it is put, line
//! by line.

ghost use Rattle.std.specs.Prelude.{◌≡◌, ◌≤◌, IfOk, map, string_bytes};
ghost use Rattle.rob_top.specs.Calls.{Call, call_of, count, output_of, source_of};
ghost use Rattle.rob_top.specs.Commands.{reads_model as is_reading};
ghost use Rattle.rob_top.specs.Files.{Fetches, requests};
ghost use Rattle.rob_top.specs.Completeness.{IsComplete};
ghost use Rattle.rob_top.specs.Headline.{Ends, Means};
ghost use Rattle.rob_top.specs.Lines.{PutMemory};
ghost use Rattle.rob_top.specs.Replies.{Asks, HasTexts, IsLine, IsRead};
ghost use Rattle.rob_top.specs.Work.{IsShort};
ghost use Rattle.rob_words.specs.Answers.{line_of};

use crate::files::{Files, Texts, fetch};
use crate::generating::on_number;
use crate::put::put_lines;
use crate::work::work_at;
use rob_commands::Ended;
use rob_commands::reply::{Reply, no_line};
use rob_number::{Ledger, Memory};
use rob_outside::{Shelf, Sink, SinkErr};
use rob_words::{CommandLine, Verb, WordsErr, read_words};
use std::alloc::Global;

/// Does what the words say: reads the files that they name from the shelf, and puts its answer into the sink, one put
/// for each line with its line end. `words` are those of the command line, without the program's own name. The ledger
/// counts the results found wide.
///
/// After a refused put nothing more is put. Where memory is refused before the output is put, the line `fault: memory`
/// is put, and where that is refused too, the answer stays want of memory.
pub fn run<S: Shelf, K: Sink, L: Ledger>(
    alloc: Global,
    words: &[String],
    shelf: &mut S,
    out: &mut K,
    ledger: &mut L,
) -> Ended
    // What the answer means of the files, by the answers of the fetches in this call, and which bytes were put for
    // it, one put for each line.
    ensures headline { Ends (call_of (map string_bytes words.now)
        (source_of (S.files shelf.old) (S.log shelf.old) (S.log shelf.new))
        (count (S.faults shelf.old) (S.faults shelf.new))
        (count (L.wides ledger.old) (L.wides ledger.new)))
        (output_of (K.taken out.old) (K.taken out.new) (K.puts out.old) (K.puts out.new)
        (count (K.faults out.old) (K.faults out.new))) result }
    // Which answer has to come.
    ensures complete { IsComplete
        (call_of (map string_bytes words.now) (source_of (S.files shelf.old)
        (S.log shelf.old) (S.log shelf.new)) (count (S.faults shelf.old) (S.faults shelf.new))
        (count (L.wides ledger.old) (L.wides ledger.new)))
        result }
    ensures files { S.files shelf.new ≡ S.files shelf.old }
    // The files are asked for in the order of the words, each word's once at most, and none behind the one that
    // decided.
    ensures fetched { Fetches (map string_bytes words.now) (S.log shelf.old) (S.log shelf.new) }
    ensures counted { (S.faults shelf.old ≤ S.faults shelf.new)
        × (K.faults out.old ≤ K.faults out.new)
        × (L.wides ledger.old ≤ L.wides ledger.new) }
{
    match answer(alloc, words, shelf, ledger) {
        Ok(reply) => put_reply(reply, out),
        Err(Memory) => {
            put_memory(out);
            Ended::Memory
        }
    }
}

/// The answer with its text, before anything is put.
fn answer<S: Shelf, L: Ledger>(
    alloc: Global,
    words: &[String],
    shelf: &mut S,
    ledger: &mut L,
) -> Result<Reply, Memory>
    ensures means { IfOk result (λ reply. Means
        (call_of (map string_bytes words.now) (source_of (S.files shelf.old)
        (S.log shelf.old) (S.log shelf.new)) (count (S.faults shelf.old) (S.faults shelf.new))
        (count (L.wides ledger.old) (L.wides ledger.new)))
        reply.ended reply.text) }
    ensures files { S.files shelf.new ≡ S.files shelf.old }
    ensures fetched { Fetches (map string_bytes words.now) (S.log shelf.old) (S.log shelf.new) }
    ensures counted { (S.faults shelf.old ≤ S.faults shelf.new)
        × (L.wides ledger.old ≤ L.wides ledger.new) }
{
    match read_words(alloc, words) {
        Ok(line) => on_line(alloc, &line, shelf, ledger),
        Err(WordsErr::NoCommandLine) => no_line(alloc),
        Err(WordsErr::Memory) => Err(Memory),
    }
}

/// The answer of a command line with its text.
fn on_line<S: Shelf, L: Ledger>(
    alloc: Global,
    line: &CommandLine,
    shelf: &mut S,
    ledger: &mut L,
) -> Result<Reply, Memory>
    requires read { IsRead line.now }
    ensures means { IfOk result (λ reply. (call : Call) → IsLine call line.now
        → call.source ≡ source_of (S.files shelf.old) (S.log shelf.old) (S.log shelf.new)
        → call.read_faults ≡ count (S.faults shelf.old) (S.faults shelf.new)
        → call.wides ≡ count (L.wides ledger.old) (L.wides ledger.new)
        → Means call reply.ended reply.text) }
    ensures files { S.files shelf.new ≡ S.files shelf.old }
    ensures asked { Asks (requests (line_of line.now)) (S.log shelf.old) (S.log shelf.new) }
    ensures counted { (S.faults shelf.old ≤ S.faults shelf.new)
        × (L.wides ledger.old ≤ L.wides ledger.new) }
{
    let files = fetch(alloc, line, shelf)?;
    match files {
        Files::Texts(texts) => on_texts(alloc, line, &texts, ledger),
        Files::Answer(reply) => Ok(reply),
    }
}

/// The answer of a command line whose files came with the texts.
fn on_texts<L: Ledger>(
    alloc: Global,
    line: &CommandLine,
    texts: &Texts,
    ledger: &mut L,
) -> Result<Reply, Memory>
    requires read { IsRead line.now }
    requires short { IsShort texts.now }
    ensures means { IfOk result (λ reply. (call : Call) → HasTexts call (line_of line.now) texts.now
        → call.wides ≡ count (L.wides ledger.old) (L.wides ledger.new)
        → Means call reply.ended reply.text) }
    ensures counted { L.wides ledger.old ≤ L.wides ledger.new }
{
    if reads_model(line.verb) {
        work_at(alloc, line, texts, ledger)
    } else {
        on_number(alloc, line, ledger)
    }
}

/// Whether the command works on a model that it reads.
fn reads_model(verb: Verb) -> bool
    ensures reads { result ≡ is_reading verb }
{
    match verb {
        Verb::Rows => true,
        Verb::Solve => true,
        Verb::Prove => true,
        Verb::Check => true,
        Verb::Replay => true,
        Verb::Text => false,
        Verb::Gen => false,
        Verb::Whole => true,
        Verb::Tree => true,
        Verb::Worst => true,
        Verb::CheckTree => true,
        Verb::Sweep => true,
        Verb::SweepText => true,
        Verb::Narrow => true,
        Verb::Cells => true,
        Verb::CellText => true,
    }
}

/// Puts the text of a reply.
fn put_reply<K: Sink>(reply: Reply, out: &mut K) -> Ended
    ensures ends { (call : Call) → Means call reply.ended reply.text
        → Ends call (output_of (K.taken out.old) (K.taken out.new) (K.puts out.old) (K.puts out.new)
        (count (K.faults out.old) (K.faults out.new))) result }
    ensures counted { K.faults out.old ≤ K.faults out.new }
{
    match put_lines(reply.text.bytes(), out) {
        Ok(()) => reply.ended,
        Err(SinkErr::Failed) => Ended::WriteFault,
        Err(SinkErr::Memory) => Ended::Memory,
    }
}

/// Puts the line of a want of memory, which takes no memory. Where that is refused too, nothing changes in the answer.
fn put_memory<K: Sink>(out: &mut K)
    ensures line { PutMemory (output_of (K.taken out.old) (K.taken out.new) (K.puts out.old)
        (K.puts out.new)
        (count (K.faults out.old) (K.faults out.new))) }
    ensures counted { K.faults out.old ≤ K.faults out.new }
{
    let _ = out.put(b"fault: memory\n");
}
