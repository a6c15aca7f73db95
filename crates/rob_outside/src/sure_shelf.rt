//! A shelf in memory that never fails.

ghost use Rattle.std.specs.Prelude.{◌≡◌, [], ◌∷◌, ◌++◌, IfOk, IfErr, OnOk, OnErr, Some};
ghost use Rattle.rob_outside.specs.Fetches.{logged};
ghost use Rattle.rob_outside.specs.Files.{Finds, IsAtMost, file_of};
ghost use Rattle.rob_outside.specs.SureShelf.{empty_files};

use crate::note::FetchNote;
use crate::shelf::{Fetched, Shelf, ShelfErr};
use crate::stored::{StoredFile, find, store};
use rob_number::{List, Memory};
use std::alloc::Global;
use std::marker::Model;

/// Files in memory. Contracts see the list of the files, in the order of their adding, and its fetches with what each
/// answered.
#[derive(Drop)]
pub struct SureShelf {
    alloc: Global,
    files: List<StoredFile>,
    log: FetchNote,
}

impl Model for SureShelf {
    ghost use Rattle.rob_outside.specs.SureShelf.{SureState};

    ghost Value = { SureState };

    ghost view = { λ shelf. record { files = shelf.files; log = shelf.log.fetches } };
}

impl SureShelf {
    /// A shelf that holds nothing. It takes no memory.
    pub fn new(alloc: Global) -> SureShelf
        ensures empty { result ≡ empty_files }
    {
        SureShelf {
            alloc,
            files: List::new(alloc),
            log: FetchNote::new(),
        }
    }

    /// Adds a file. It hides behind an earlier one of the same name.
    pub fn add(&mut self, name: &str, bytes: &[u8]) -> Result<(), Memory>
        ensures added { OnOk result
            (self.new
            ≡ record self.old { files = self.old.files ++ file_of name.now bytes.now ∷ [] }) }
        ensures unchanged { OnErr result (self.new ≡ self.old) }
    {
        store(self.alloc, &mut self.files, name, bytes)
    }
}

impl Shelf for SureShelf {
    ghost files = { λ shelf. Some shelf.files };

    ghost log = { λ shelf. shelf.log };

    ghost faults = { λ _. 0 };

    fn fetch(&mut self, alloc: Global, name: &str, max: usize) -> Result<Fetched, ShelfErr>
        ensures found { Finds (Some self.old.files) name.now max result }
        ensures within { IfOk result (IsAtMost max) }
        ensures after { self.new
            ≡ record self.old { log = self.old.log ++ logged name.now max result } }
        // Want of memory is the only error.
        ensures memory { IfErr result (λ error. error ≡ ShelfErr.Memory) }
    {
        let result = find(alloc, self.files.items(), name.as_bytes(), max);
        self.log.note(name.as_bytes(), max, &result);
        result
    }
}
