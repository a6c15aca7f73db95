//! The machine's files. This is an edge that is trusted: nothing is told of what a file holds.

ghost use Rattle.std.specs.Prelude.{◌≡◌, ◌+◌, ◌<◌, ◌≤◌, ◌++◌, IfOk, IfSome, None, OnOk, Some, vec_len};
ghost use Rattle.std.specs.Io.KnownBytes.{IsAtEnd};
ghost use Rattle.rob_number.specs.Counts.{Rose};
ghost use Rattle.rob_outside.specs.Fetches.{logged};
ghost use Rattle.rob_outside.specs.FileShelf.{Reads, faults_after, no_fetch};
ghost use Rattle.rob_outside.specs.Files.{IsAtMost, found_of, found_within};

use crate::note::FetchNote;
use crate::shelf::{Fetched, Shelf, ShelfErr};
use std::alloc::Global;
use std::fs;
use std::io::{ErrorKind, Read};
use std::marker::Model;
use std::rt::Files;

/// How many bytes are asked for at a time.
const CHUNK: usize = 4096;

/// The files of the machine, by their paths. Contracts see its fetches with what each answered, and the number of
/// its faults so far.
#[derive(Drop)]
pub struct FileShelf<'a, R: Files> {
    rt: &'a R,
    log: FetchNote,
    faults: u64,
}

impl<'a, R: Files> Model for FileShelf<'a, R> {
    ghost use Rattle.rob_outside.specs.FileShelf.{FetchState};

    ghost Value = { FetchState };

    ghost view = { λ shelf. record { log = shelf.log.fetches; faults = shelf.faults } };
}

impl<'a, R: Files> FileShelf<'a, R> {
    /// A shelf over the machine's files. It takes no memory and opens nothing.
    pub fn new(rt: &'a R) -> FileShelf<'a, R>
        ensures no_fetch { result ≡ no_fetch }
    {
        FileShelf {
            rt,
            log: FetchNote::new(),
            faults: 0,
        }
    }
}

impl<'a, R: Files> Shelf for FileShelf<'a, R> {
    ghost files = { λ _. None };

    ghost log = { λ shelf. shelf.log };

    ghost faults = { λ shelf. shelf.faults };

    /// Reads at most `max + 1` bytes. `Missing` is the machine's answer that there is no such file; every other
    /// error of the machine, an interrupted read among them, is a fault.
    fn fetch(&mut self, alloc: Global, name: &str, max: usize) -> Result<Fetched, ShelfErr>
        ensures within { IfOk result (IsAtMost max) }
        ensures logged { self.new.log ≡ self.old.log ++ logged name.now max result }
        ensures exact { self.new.faults ≡ faults_after self.old.faults result }
        ensures counted { self.old.faults ≤ self.new.faults }
        ensures fault { result ≡ Err ShelfErr.Failed → Rose self.old.faults self.new.faults }
    {
        let result = read_file(alloc, self.rt, name, max);
        self.log.note(name.as_bytes(), max, &result);
        match result {
            Ok(fetched) => Ok(fetched),
            Err(ShelfErr::Failed) => {
                self.faults = self.faults.saturating_add(1);
                Err(ShelfErr::Failed)
            }
            Err(ShelfErr::Memory) => Err(ShelfErr::Memory),
        }
    }
}

/// Opens the file and reads it.
fn read_file<R: Files>(alloc: Global, rt: &R, name: &str, max: usize) -> Result<Fetched, ShelfErr>
    ensures within { IfOk result (IsAtMost max) }
{
    match fs::open(rt, name) {
        Ok(mut file) => read_within(alloc, &mut file, max),
        Err(error) if error.kind() == ErrorKind::NotFound => Ok(Fetched::Missing),
        Err(_) => Err(ShelfErr::Failed),
    }
}

/// Reads to the end, or to the first byte past `max`.
fn read_within<F: Read>(alloc: Global, file: &mut F, max: usize) -> Result<Fetched, ShelfErr>
    ensures within { IfOk result (IsAtMost max) }
    // Where the reader's bytes are known: all of them, or that they are more than `max`.
    ensures found { IfSome (F.remaining file.old)
        (λ bytes. IfOk result (λ fetched. found_of fetched ≡ found_within max (Some bytes))) }
{
    let mut bytes = Vec::new(alloc);
    while bytes.len() <= max {
        let most = (max - bytes.len()).saturating_add(1);
        if read_some(file, &mut bytes, most)? == 0 {
            return Ok(Fetched::Bytes(bytes));
        }
    }
    Ok(Fetched::TooLong)
}

/// Reads the next bytes, at most `most`, and puts them behind those that are there. It reads none only at the end.
fn read_some<F: Read>(file: &mut F, bytes: &mut Vec<u8>, most: usize) -> Result<usize, ShelfErr>
    requires some { 0 < most }
    ensures count { IfOk result
        (λ count. (vec_len bytes.new ≡ vec_len bytes.old + count) × (count ≤ most)) }
    ensures read { OnOk result
        (Reads (F.remaining file.old) (F.remaining file.new) bytes.old.items bytes.new.items) }
    ensures end { IfOk result (λ count. count ≡ 0 → IsAtEnd (F.remaining file.new)) }
{
    let mut chunk = [0u8; CHUNK];
    let part = &mut chunk[..most.min(CHUNK)];
    match file.read(part) {
        Ok(count) => {
            bytes.extend_from_slice(&part[..count])?;
            Ok(count)
        }
        Err(_) => Err(ShelfErr::Failed),
    }
}
