//! The files that a command names.

ghost use Rattle.std.specs.Prelude.{◌≡◌, ◌≤◌, Err, IfOk, map, string_bytes};
ghost use Rattle.rob_number.specs.Counts.{Rose};
ghost use Rattle.rob_outside.specs.Files.{IsAtMost, found_of};
ghost use Rattle.rob_top.specs.Calls.{count, source_of};
ghost use Rattle.rob_top.specs.Files.{IsFoundIn, files_of, most_of, requests};
ghost use Rattle.rob_top.specs.Replies.{Asks, AsksOnce, IsFetched, IsGot, IsGotWithin, IsNothing, with_file, with_text};
ghost use Rattle.rob_top.specs.Work.{IsShortFetch};
ghost use Rattle.rob_words.specs.Answers.{line_of};
ghost use Rattle.rob_words.specs.Verbs.{own_of};

use rob_commands::Ended;
use rob_commands::reply::{Reply, fault};
use rob_number::Memory;
use rob_outside::{Fetched, Shelf, ShelfErr};
use rob_words::{CommandLine, Own};
use std::alloc::Global;

/// The texts of a command's files, by their kinds. A text that the command doesn't have is empty.
#[derive(Debug)]
pub struct Texts {
    pub model: Vec<u8>,
    pub certificate: Vec<u8>,
    pub scenarios: Vec<u8>,
    pub tree: Vec<u8>,
}

impl Drop for Texts {
    /// Lets go of it in one call. A derived drop would stand in each function that does.
    fn drop(self) {
        let Texts {
            model: _model,
            certificate: _certificate,
            scenarios: _scenarios,
            tree: _tree,
        } = self;
    }
}

/// What came of a command's files: the texts of all of them, or the answer that ends the call.
#[derive(Debug, Drop)]
pub enum Files {
    Texts(Texts),
    Answer(Reply),
}

/// What came of a file: its bytes, or the answer that ends the call.
#[derive(Debug, Drop)]
pub enum Got {
    Bytes(Vec<u8>),
    Answer(Reply),
}

/// Fetches the files of a command line, in the order of its words.
pub fn fetch<S: Shelf>(alloc: Global, line: &CommandLine, shelf: &mut S) -> Result<Files, Memory>
    ensures fetched { IfOk result (IsFetched (own_of line.now.verb)
        (map string_bytes line.now.own.items)
        (source_of (S.files shelf.old) (S.log shelf.old) (S.log shelf.new))
        (count (S.faults shelf.old) (S.faults shelf.new))) }
    ensures short { IfOk result IsShortFetch }
    ensures unchanged { S.files shelf.new ≡ S.files shelf.old }
    ensures asked { Asks (requests (line_of line.now)) (S.log shelf.old) (S.log shelf.new) }
    ensures counted { S.faults shelf.old ≤ S.faults shelf.new }
{
    fetch_all(alloc, line.verb.own(), line.own.as_slice(), shelf)
}

/// Fetches the files that own words of these kinds name, in their order. A word that names none is passed over.
fn fetch_all<S: Shelf>(
    alloc: Global,
    kinds: &[Own],
    names: &[String],
    shelf: &mut S,
) -> Result<Files, Memory>
    ensures fetched { IfOk result (IsFetched kinds.now (map string_bytes names.now)
        (source_of (S.files shelf.old) (S.log shelf.old) (S.log shelf.new))
        (count (S.faults shelf.old) (S.faults shelf.new))) }
    ensures short { IfOk result IsShortFetch }
    ensures unchanged { S.files shelf.new ≡ S.files shelf.old }
    ensures asked { Asks (files_of kinds.now (map string_bytes names.now)) (S.log shelf.old)
        (S.log shelf.new) }
    ensures counted { S.faults shelf.old ≤ S.faults shelf.new }
{
    match kinds {
        [kind, kinds @ ..] => match names {
            [name, names @ ..] => {
                let Some(most) = most_bytes(*kind) else {
                    return fetch_all(alloc, kinds, names, shelf);
                };
                match get(alloc, name.as_str(), most, shelf)? {
                    Got::Bytes(bytes) => {
                        let rest = fetch_all(alloc, kinds, names, shelf)?;
                        Ok(with_bytes(*kind, bytes, rest))
                    }
                    Got::Answer(reply) => Ok(Files::Answer(reply)),
                }
            }
            [] => Ok(no_files(alloc)),
        },
        [] => Ok(no_files(alloc)),
    }
}

/// The texts of a command that names no file.
fn no_files(alloc: Global) -> Files
    ensures none { IsNothing result }
{
    Files::Texts(Texts {
        model: Vec::new(alloc),
        certificate: Vec::new(alloc),
        scenarios: Vec::new(alloc),
        tree: Vec::new(alloc),
    })
}

/// How many bytes a file of the kind may have; `None` where the kind names no file.
fn most_bytes(kind: Own) -> Option<usize>
    ensures most { result ≡ most_of kind }
{
    match kind {
        Own::Model => Some(65_536),
        Own::Certificate => Some(4_194_304),
        Own::Scenarios => Some(4_194_304),
        Own::Number => None,
        Own::Names => None,
        Own::Form => None,
        Own::Tree => Some(67_108_864),
        Own::Statement => None,
        Own::Limit => None,
        Own::Limits => None,
        Own::Cuts => None,
    }
}

/// What came of files, with the bytes of one more, of the kind.
fn with_bytes(kind: Own, bytes: Vec<u8>, files: Files) -> Files
    ensures with { result ≡ with_file kind bytes files }
{
    match files {
        Files::Texts(texts) => Files::Texts(texts_with(kind, bytes, texts)),
        Files::Answer(reply) => Files::Answer(reply),
    }
}

/// The texts, with these bytes as that of the kind.
fn texts_with(kind: Own, bytes: Vec<u8>, mut texts: Texts) -> Texts
    ensures with { result ≡ with_text kind bytes texts }
{
    match kind {
        Own::Model => texts.model = bytes,
        Own::Certificate => texts.certificate = bytes,
        Own::Scenarios => texts.scenarios = bytes,
        Own::Tree => texts.tree = bytes,
        Own::Number | Own::Names | Own::Form => {}
        Own::Statement | Own::Limit | Own::Limits | Own::Cuts => {}
    }
    texts
}

/// Fetches a file of at most `most` bytes.
pub fn get<S: Shelf>(alloc: Global, name: &str, most: usize, shelf: &mut S) -> Result<Got, Memory>
    ensures got { IfOk result (IsGot (source_of (S.files shelf.old)
        (S.log shelf.old) (S.log shelf.new)) (record { place = 0; name = name.now; most = most })
        (count (S.faults shelf.old) (S.faults shelf.new))) }
    ensures within { IfOk result (IsGotWithin most) }
    ensures unchanged { S.files shelf.new ≡ S.files shelf.old }
    ensures asked { AsksOnce (record { place = 0; name = name.now; most = most }) (S.log shelf.old)
        (S.log shelf.new) }
    ensures counted { S.faults shelf.old ≤ S.faults shelf.new }
{
    let answer = match ask(alloc, name, most, shelf) {
        Ok(Fetched::Bytes(bytes)) => return Ok(Got::Bytes(bytes)),
        Ok(Fetched::Missing) => fault(alloc, Ended::Missing, b"missing ", name.as_bytes()),
        Ok(Fetched::TooLong) => fault(alloc, Ended::TooLong, b"too long ", name.as_bytes()),
        Err(ShelfErr::Failed) => fault(alloc, Ended::ReadFault, b"read", b""),
        Err(ShelfErr::Memory) => Err(Memory),
    };
    Ok(Got::Answer(answer?))
}

/// Fetches a file of at most `most` bytes. What is answered is what is found of the file.
fn ask<S: Shelf>(alloc: Global, name: &str, most: usize, shelf: &mut S) -> Result<Fetched, ShelfErr>
    ensures found { IfOk result (λ fetched. IsFoundIn (source_of (S.files shelf.old)
        (S.log shelf.old) (S.log shelf.new)) (record { place = 0; name = name.now; most = most })
        (found_of fetched)) }
    ensures within { IfOk result (IsAtMost most) }
    ensures unchanged { S.files shelf.new ≡ S.files shelf.old }
    ensures asked { AsksOnce (record { place = 0; name = name.now; most = most }) (S.log shelf.old)
        (S.log shelf.new) }
    ensures counted { S.faults shelf.old ≤ S.faults shelf.new }
    ensures fault { result ≡ Err ShelfErr.Failed → Rose (S.faults shelf.old) (S.faults shelf.new) }
{
    shelf.fetch(alloc, name, most)
}
