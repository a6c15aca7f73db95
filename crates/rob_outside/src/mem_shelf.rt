//! A shelf in memory, whose fetches fail where a test wants it.

ghost use Rattle.std.specs.Prelude.{◌≡◌, [], ◌∷◌, ◌++◌, MatchBool, IfErr, IfOk, OnOk, OnErr, Some};
ghost use Rattle.rob_outside.specs.Files.{Finds, IsAtMost, file_of};
ghost use Rattle.rob_outside.specs.MemShelf.{after_fetch, empty_shelf, fails_next};

use crate::note::FetchNote;
use crate::shelf::{Fetched, Shelf, ShelfErr};
use crate::stored::{StoredFile, find, store};
use rob_number::{List, Memory};
use std::alloc::Global;
use std::marker::Model;

/// Files in memory, and the numbers of the fetches that fail.
pub struct MemShelf {
    alloc: Global,
    files: List<StoredFile>,
    failing: List<u64>,
    calls: u64,
    log: FetchNote,
    faults: u64,
}

impl Drop for MemShelf {
    /// Lets go of it in one call. A derived drop would stand in each function that does.
    fn drop(self) {
        let MemShelf {
            alloc: _alloc,
            files: _files,
            failing: _failing,
            calls: _calls,
            log: _log,
            faults: _faults,
        } = self;
    }
}

impl Model for MemShelf {
    ghost use Rattle.rob_outside.specs.MemShelf.{ShelfState};

    ghost Value = { ShelfState };

    ghost view = { λ shelf. record {
      files = shelf.files;
      failing = shelf.failing;
      calls = shelf.calls;
      log = shelf.log.fetches;
      faults = shelf.faults;
    } };
}

impl MemShelf {
    /// A shelf that holds nothing and fails nowhere. It takes no memory.
    pub fn new(alloc: Global) -> MemShelf
        ensures empty { result ≡ empty_shelf }
    {
        MemShelf {
            alloc,
            files: List::new(alloc),
            failing: List::new(alloc),
            calls: 0,
            log: FetchNote::new(),
            faults: 0,
        }
    }

    /// Adds a file. It hides behind an earlier one of the same name.
    pub fn add(&mut self, name: &str, bytes: &[u8]) -> Result<(), Memory>
        ensures added { OnOk result
            (self.new
            ≡ record self.old { files = self.old.files ++ file_of name.now bytes.now ∷ [] }) }
        ensures unchanged { OnErr result (self.new ≡ self.old) }
    {
        store(self.alloc, &mut self.files, name, bytes)
    }

    /// Lets the fetch of that number fail. Fetches count from 1, over the whole life of the shelf.
    pub fn fail_at(&mut self, call: u64) -> Result<(), Memory>
        ensures listed { OnOk result
            (self.new ≡ record self.old { failing = self.old.failing ++ call ∷ [] }) }
        ensures unchanged { OnErr result (self.new ≡ self.old) }
    {
        self.failing.push(call)
    }

    /// The number of fetches so far. A count at `u64::MAX` stands.
    pub fn calls(&self) -> u64
        ensures count { result ≡ self.now.calls }
    {
        self.calls
    }
}

impl Shelf for MemShelf {
    ghost files = { λ shelf. Some shelf.files };

    ghost log = { λ shelf. shelf.log };

    ghost faults = { λ shelf. shelf.faults };

    fn fetch(&mut self, alloc: Global, name: &str, max: usize) -> Result<Fetched, ShelfErr>
        ensures found { Finds (Some self.old.files) name.now max result }
        ensures within { IfOk result (IsAtMost max) }
        ensures after { self.new ≡ after_fetch self.old name.now max result }
        // A fetch that is to fail does; at any other want of memory is the only error.
        ensures fault { MatchBool (fails_next self.old)
            (result ≡ Err ShelfErr.Failed) (IfErr result (λ error. error ≡ ShelfErr.Memory)) }
    {
        self.calls = self.calls.saturating_add(1);
        if self.failing.items().contains(&self.calls) {
            self.faults = self.faults.saturating_add(1);
            let failed = Err(ShelfErr::Failed);
            self.log.note(name.as_bytes(), max, &failed);
            return failed;
        }
        let result = find(alloc, self.files.items(), name.as_bytes(), max);
        self.log.note(name.as_bytes(), max, &result);
        result
    }
}
