//! A case.

use crate::line::Line;
use rob_case::Trouble;
use rob_case::text::unescape;
use rob_number::Tally;
use rob_outside::{MemShelf, MemSink};
use rob_top::run;
use std::alloc::Global;

/// How many bytes the output of a case may have.
const ROOM: usize = 1 << 20;

/// A case as it is read: the files come onto the shelf when the next block begins.
#[derive(Drop)]
pub struct Case {
    name: String,
    words: Vec<String>,
    shelf: MemShelf,
    sink: MemSink,
    /// The file whose bytes are being read.
    file: Option<String>,
    /// The bytes of that file, or else those that are to be put.
    bytes: Vec<u8>,
}

/// What a case gave, and the bytes that are wanted.
#[derive(Drop)]
pub struct Outcome {
    pub name: String,
    pub status: u8,
    pub put: Vec<u8>,
    pub wanted: Vec<u8>,
}

impl Case {
    /// A case with nothing in it.
    pub(crate) fn new(alloc: Global, name: &str) -> Result<Case, Trouble> {
        Ok(Case {
            name: String::from_str(alloc, name)?,
            words: Vec::new(alloc),
            shelf: MemShelf::new(alloc),
            sink: MemSink::new(alloc, ROOM)?,
            file: None,
            bytes: Vec::new(alloc),
        })
    }

    /// Adds what a line says.
    pub(crate) fn add(&mut self, alloc: Global, line: &Line<'_>) -> Result<(), Trouble> {
        match *line {
            Line::Word(word) => {
                let word = String::from_str(alloc, word)?;
                self.words.push(word)?;
            }
            Line::Words(words) => {
                for word in words.split(' ') {
                    let word = String::from_str(alloc, word)?;
                    self.words.push(word)?;
                }
            }
            Line::File(name) => {
                self.close()?;
                self.file = Some(String::from_str(alloc, name)?);
            }
            Line::Puts => self.close()?,
            Line::Bytes(count, text, ends) => self.append(count, text.as_bytes(), ends)?,
            Line::ReadFault(call) => self.shelf.fail_at(call)?,
            Line::WriteFault(call, first) => self.sink.fail_at(call, first)?,
            _ => return Err(Trouble::Line),
        }
        Ok(())
    }

    /// Adds a file.
    pub(crate) fn add_file(&mut self, name: &str, bytes: &[u8]) -> Result<(), Trouble> {
        self.close()?;
        self.shelf.add(name, bytes)?;
        Ok(())
    }

    /// Ends a block: a file comes onto the shelf.
    fn close(&mut self) -> Result<(), Trouble> {
        if let Some(name) = self.file.take() {
            self.shelf.add(name.as_str(), self.bytes.as_slice())?;
        }
        self.bytes.clear();
        Ok(())
    }

    /// Appends bytes to the block.
    fn append(&mut self, count: u32, text: &[u8], ends: bool) -> Result<(), Trouble> {
        for _ in 0..count {
            unescape(&mut self.bytes, text)?;
        }
        if ends {
            self.bytes.push(b'\n')?;
        }
        Ok(())
    }

    /// Runs the case.
    pub(crate) fn run(self, alloc: Global) -> Result<Outcome, Trouble> {
        let Case {
            name,
            words,
            mut shelf,
            mut sink,
            file: _,
            bytes,
        } = self;
        let mut ledger = Tally::new();
        let status = run(alloc, words.as_slice(), &mut shelf, &mut sink, &mut ledger).code();
        let put = Vec::from_slice(alloc, sink.bytes())?;
        Ok(Outcome {
            name,
            status,
            put,
            wanted: bytes,
        })
    }
}
