//! The top call over the machine's files and output.

ghost use Rattle.std.specs.Prelude.{◌≤◌, None, map, string_bytes};
ghost use Rattle.rob_top.specs.Calls.{call_of, count, output_of, source_of};
ghost use Rattle.rob_top.specs.Files.{Fetches};
ghost use Rattle.rob_top.specs.Completeness.{IsComplete};
ghost use Rattle.rob_top.specs.Headline.{Ends};

use crate::top::run;
use rob_commands::Ended;
use rob_number::Ledger;
use rob_outside::{FileShelf, StdSink};
use std::alloc::Global;
use std::rt::Files;

/// `run` over the machine's files and output: all that it says, of these two. They tell nothing of the files
/// themselves, nor of what is seen: what a file holds is what its fetch answered, and what was put is what the
/// output's puts were asked to take and answered that they took.
pub fn run_here<R: Files, P: Print, L: Ledger>(
    alloc: Global,
    words: &[String],
    shelf: &mut FileShelf<'_, R>,
    out: &mut StdSink<'_, P>,
    ledger: &mut L,
) -> Ended
    // What the answer means of the bytes that came, and which bytes were put for it, one put for each line.
    ensures headline { Ends
        (call_of (map string_bytes words.now) (source_of None shelf.old.log shelf.new.log)
        (count shelf.old.faults shelf.new.faults) (count (L.wides ledger.old) (L.wides ledger.new)))
        (output_of out.old.taken out.new.taken out.old.puts out.new.puts
        (count out.old.faults out.new.faults))
        result }
    // Which answer has to come.
    ensures complete { IsComplete
        (call_of (map string_bytes words.now) (source_of None shelf.old.log shelf.new.log)
        (count shelf.old.faults shelf.new.faults) (count (L.wides ledger.old) (L.wides ledger.new)))
        result }
    // The files are asked for in the order of the words, each word's once at most, and none behind the one that
    // decided.
    ensures fetched { Fetches (map string_bytes words.now) shelf.old.log shelf.new.log }
    ensures counted { (shelf.old.faults ≤ shelf.new.faults) × (out.old.faults ≤ out.new.faults)
        × (L.wides ledger.old ≤ L.wides ledger.new) }
{
    run(alloc, words, shelf, out, ledger)
}
