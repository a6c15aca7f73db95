//! What no clause says of shelves and sinks: that the calls succeed where memory is there, and what the machine's files
//! and output do.

use rob_case::Trouble;
use rob_case::numbers::small;
use rob_case::text::{add, keyword, said};
use rob_outside::{
    Fetched, FileShelf, MemShelf, MemSink, Shelf, ShelfErr, Sink, SinkErr, StdSink, SureShelf,
    SureSink,
};
use std::alloc::Global;
use std::cell::Cell;
use std::fmt::Display;
use std::io;

/// The limit of a model text.
const LIMIT: usize = 65_536;

/// How many bytes a fetch answered, or why none came.
fn seen(alloc: Global, answer: Result<Fetched, ShelfErr>) -> Result<String, Trouble> {
    match answer {
        Ok(Fetched::Bytes(bytes)) => {
            let count = bytes.len();
            Ok(format!(in alloc; "{count} bytes")?)
        }
        Ok(Fetched::Missing) => said(alloc, "missing"),
        Ok(Fetched::TooLong) => said(alloc, "too long"),
        Err(ShelfErr::Failed) => said(alloc, "failed"),
        Err(ShelfErr::Memory) => Err(Trouble::Memory),
    }
}

/// Fetches a file: its greatest length, and its name.
fn fetched<S: Shelf>(alloc: Global, shelf: &mut S, call: &str) -> Result<String, Trouble> {
    let (max, name) = keyword(call);
    let max = small(max)?;
    seen(alloc, shelf.fetch(alloc, name, max as usize))
}

/// A shelf with two files of one name and two at the limit, whose first two fetches fail. It alone has the shelf: what
/// it calls is lent it.
fn stocked(alloc: Global) -> Result<MemShelf, Trouble> {
    let mut shelf = MemShelf::new(alloc);
    stock(alloc, &mut shelf)?;
    Ok(shelf)
}

/// Puts these files on a shelf.
fn stock(alloc: Global, shelf: &mut MemShelf) -> Result<(), Trouble> {
    shelf.add("one", b"12")?;
    shelf.add("one", b"hidden")?;
    shelf.add("full", vec![in alloc; 0u8; LIMIT]?.as_slice())?;
    shelf.add("over", vec![in alloc; 0u8; LIMIT + 1]?.as_slice())?;
    shelf.fail_at(1)?;
    shelf.fail_at(2)?;
    Ok(())
}

/// What the fetches from such a shelf give, with `|` between them, and how many it counted.
pub(crate) fn fetches(alloc: Global, calls: &str) -> Result<String, Trouble> {
    let mut shelf = stocked(alloc)?;
    fetch_each(alloc, &mut shelf, calls)
}

/// What the fetches from a shelf give, with `|` between them, and how many it counted.
fn fetch_each(alloc: Global, shelf: &mut MemShelf, calls: &str) -> Result<String, Trouble> {
    let mut answer = String::new(alloc);
    for call in calls.split('|') {
        let one = fetched(alloc, shelf, call);
        add_text(&mut answer, one)?;
    }
    add_calls(alloc, &mut answer, shelf.calls())?;
    Ok(answer)
}

/// Adds an answer to those before.
fn add_text(answers: &mut String, answer: Result<String, Trouble>) -> Result<(), Trouble> {
    let answer = answer?;
    add(answers, answer.as_str())
}

/// Adds how many calls were counted.
fn add_calls(alloc: Global, answers: &mut String, calls: u64) -> Result<(), Trouble> {
    let told = format!(in alloc; "{calls} calls")?;
    add(answers, told.as_str())
}

/// Adds a word and a length.
fn add_length(
    alloc: Global,
    answers: &mut String,
    word: &str,
    length: usize,
) -> Result<(), Trouble> {
    let told = format!(in alloc; "{word} {length}")?;
    add(answers, told.as_str())
}

/// What a fetch from a shelf that never fails gives.
pub(crate) fn sure_fetch(alloc: Global, call: &str) -> Result<String, Trouble> {
    let mut shelf = SureShelf::new(alloc);
    shelf.add("one", b"12")?;
    fetched(alloc, &mut shelf, call)
}

/// What a fetch of a file of the machine gives.
pub(crate) fn machine_fetch(rt: &HostRuntime, call: &str) -> Result<String, Trouble> {
    let mut shelf = FileShelf::new(rt);
    fetched(rt.alloc(), &mut shelf, call)
}

/// Whether a piece was taken whole.
fn taken(answer: Result<(), SinkErr>) -> Result<&'static str, Trouble> {
    match answer {
        Ok(()) => Ok("taken"),
        Err(SinkErr::Failed) => Ok("failed"),
        Err(SinkErr::Memory) => Err(Trouble::Memory),
    }
}

/// What puts into a sink of 9 bytes give, whose second call keeps 3 bytes and fails, with the bytes that it then holds.
/// It alone has the sink: what it calls is lent it.
pub(crate) fn puts(alloc: Global, pieces: &str) -> Result<String, Trouble> {
    let mut sink = MemSink::new(alloc, 9)?;
    put_each(alloc, &mut sink, pieces)
}

/// What puts into a sink give, whose second call is made to fail, with the bytes that it then holds, and how many it
/// counted.
fn put_each(alloc: Global, sink: &mut MemSink, pieces: &str) -> Result<String, Trouble> {
    sink.fail_at(2, 3)?;
    sink.fail_at(2, 0)?;
    let mut answer = String::new(alloc);
    for piece in pieces.split('|') {
        let word = taken(sink.put(piece.as_bytes()))?;
        add_length(alloc, &mut answer, word, sink.bytes().len())?;
    }
    add_calls(alloc, &mut answer, sink.calls())?;
    Ok(answer)
}

/// How many bytes a sink that never fails holds of pieces.
pub(crate) fn sure_puts(alloc: Global, pieces: &str) -> Result<String, Trouble> {
    let mut sink = SureSink::new(alloc);
    for piece in pieces.split('|') {
        taken(sink.put(piece.as_bytes()))?;
    }
    let held = sink.bytes().len();
    Ok(format!(in alloc; "{held} bytes")?)
}

/// A printer that takes three bytes at a time, and nothing once its paper is used up.
#[derive(Drop)]
struct Printer {
    paper: Cell<usize>,
}

impl Print for Printer {
    fn print<D: Display + Drop>(&self, _value: D) -> io::Result<()> {
        Ok(())
    }

    fn println<D: Display + Drop>(&self, _value: D) -> io::Result<()> {
        Ok(())
    }

    fn write_all(&self, _bytes: &[u8]) -> io::Result<()> {
        Ok(())
    }

    fn write_some(&self, bytes: &[u8]) -> io::Result<usize> {
        let paper = self.paper.get();
        let count = bytes.len().min(3).min(paper);
        self.paper.set(paper - count);
        Ok(count)
    }
}

/// What puts on paper for 10 bytes give, and how much paper is left.
pub(crate) fn prints(alloc: Global, pieces: &str) -> Result<String, Trouble> {
    let printer = Printer {
        paper: Cell::new(10),
    };
    let mut sink = StdSink::new(&printer);
    let mut answer = String::new(alloc);
    for piece in pieces.split('|') {
        let word = taken(sink.put(piece.as_bytes()))?;
        add_length(alloc, &mut answer, word, printer.paper.get())?;
    }
    Ok(answer)
}

/// Puts a line to standard output.
pub(crate) fn machine_put(rt: &HostRuntime, line: &str) -> Result<String, Trouble> {
    let mut sink = StdSink::new(rt);
    taken(sink.put(line.as_bytes()))?;
    let word = taken(sink.put(b"\n"))?;
    said(rt.alloc(), word)
}
