//! The fetches of a shelf, the puts of a sink and the bytes that writes took, for contracts alone. These values have
//! no bytes, and their methods do nothing when the program runs: they write down, for the clauses, what their caller
//! tells them.

ghost use Rattle.std.specs.Prelude.{◌≡◌, ℕ, List, [], ◌∷◌, ◌++◌};
ghost use Rattle.std.specs.Borrow.{ftrue};
ghost use Rattle.std.specs.Coded.{coded_list};
ghost use Rattle.rob_outside.specs.Fetches.{Fetch, fetch_code, logged};
ghost use Rattle.rob_outside.specs.Puts.{Put, put_as, put_code};

use crate::shelf::{Fetched, ShelfErr};
use std::marker::{Model, PhantomData};

/// The fetches, in their order.
#[derive(Drop)]
pub(crate) struct FetchNote {
    marker: PhantomData<u8>,
    pub ghost fetches: { List Fetch } by { coded_list fetch_code },
}

impl Model for FetchNote {
    ghost also_owns = { λ _. ftrue };
}

impl FetchNote {
    /// There was no fetch yet.
    pub(crate) fn new() -> FetchNote
        ensures none { result.fetches ≡ [] }
    {
        FetchNote {
            marker: PhantomData,
        }
    }

    /// Notes that the fetch of that name, of `_max` bytes at most, answered this.
    pub(crate) fn note(&mut self, _name: &[u8], _max: usize, _result: &Result<Fetched, ShelfErr>)
        ensures noted { self.new.fetches ≡ self.old.fetches ++ logged _name.now _max _result.now }
    {}
}

/// The bytes that writes took, in their order.
#[derive(Drop)]
pub(crate) struct WriteNote {
    marker: PhantomData<u8>,
    pub ghost bytes: { List ℕ },
}

impl Model for WriteNote {
    ghost also_owns = { λ _. ftrue };
}

impl WriteNote {
    /// No byte was taken yet.
    pub(crate) fn new() -> WriteNote
        ensures none { result.bytes ≡ [] }
    {
        WriteNote {
            marker: PhantomData,
        }
    }

    /// Notes that a write took these bytes.
    pub(crate) fn note(&mut self, _bytes: &[u8])
        ensures noted { self.new.bytes ≡ self.old.bytes ++ _bytes.now }
    {}
}

/// The puts, in their order.
#[derive(Drop)]
pub(crate) struct PutNote {
    marker: PhantomData<u8>,
    pub ghost puts: { List Put } by { coded_list put_code },
}

impl Model for PutNote {
    ghost also_owns = { λ _. ftrue };
}

impl PutNote {
    /// There was no put yet.
    pub(crate) fn new() -> PutNote
        ensures none { result.puts ≡ [] }
    {
        PutNote {
            marker: PhantomData,
        }
    }

    /// Notes that the piece was put, and whether the put answered that it took the whole of it.
    pub(crate) fn note(&mut self, _piece: &[u8], _whole: bool)
        ensures noted { self.new.puts ≡ self.old.puts ++ put_as _whole _piece.now ∷ [] }
    {}
}
