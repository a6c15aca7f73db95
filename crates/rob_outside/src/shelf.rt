//! Files by name: what a program may read.

ghost use Rattle.std.specs.Prelude.{◌≡◌, ◌≤◌, ◌++◌, ℕ, List, Option, IfOk};
ghost use Rattle.rob_number.specs.Counts.{Rose};
ghost use Rattle.rob_outside.specs.Fetches.{Fetch, logged};
ghost use Rattle.rob_outside.specs.Files.{File, Finds, IsAtMost};

use rob_number::Memory;
use std::alloc::{AllocError, Global};

/// What a fetch found under a name.
#[derive(Debug, Drop)]
pub enum Fetched {
    /// The whole file.
    Bytes(Vec<u8>),
    /// There is no file of that name.
    Missing,
    /// The file is longer than was allowed.
    TooLong,
}

/// Why a fetch answered nothing about the file.
#[derive(Debug, PartialEq, Eq, Clone, Copy)]
pub enum ShelfErr {
    /// The outside failed. The shelf counted a fault.
    Failed,
    /// Memory was refused.
    Memory,
}

impl From<Memory> for ShelfErr {
    ghost use Rattle.std.specs.Prelude.{◌≡◌};
    ghost use Rattle.rob_outside.specs.declared.shelf.ShelfErr.TheVariants.{Memory as WantOfMemory};

    ghost from_gives = { λ _ error. error ≡ WantOfMemory };

    fn from(_refused: Memory) -> ShelfErr {
        ShelfErr::Memory
    }
}

impl From<AllocError> for ShelfErr {
    ghost use Rattle.std.specs.Prelude.{◌≡◌};
    ghost use Rattle.rob_outside.specs.declared.shelf.ShelfErr.TheVariants.{Memory as WantOfMemory};

    ghost from_gives = { λ _ error. error ≡ WantOfMemory };

    fn from(_refused: AllocError) -> ShelfErr {
        ShelfErr::Memory
    }
}

/// Files by name. A shelf may tell its files; it keeps its fetches with what each answered, and it counts its
/// faults. All are meanings for contracts alone.
pub trait Shelf {
    /// The files in their order, where the shelf tells them. Of two files of one name the first counts.
    ghost files: { Self → Option (List File) };

    /// The fetches so far, in their order, with what each answered. Those that answered an error are among them.
    ghost log: { Self → List Fetch };

    /// The number of faults so far. A count at `u64::MAX` stands.
    ghost faults: { Self → ℕ };

    /// Reads the file of that name, if it has at most `max` bytes. Names are compared byte for byte.
    fn fetch(&mut self, alloc: Global, name: &str, max: usize) -> Result<Fetched, ShelfErr>
        // Where the files are told: the whole file, or that there is none, or that it is longer, each exactly there.
        ensures found { Finds (files self.old) name.now max result }
        ensures within { IfOk result (IsAtMost max) }
        // Every fetch is noted, also one that answers an error, and nothing else is.
        ensures logged { log self.new ≡ log self.old ++ logged name.now max result }
        ensures unchanged { files self.new ≡ files self.old }
        ensures counted { faults self.old ≤ faults self.new }
        ensures fault { result ≡ Err ShelfErr.Failed → Rose (faults self.old) (faults self.new) };
}
