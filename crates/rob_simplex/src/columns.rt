//! The columns of a dictionary: how many there are, which one stands at a position, and at which position one stands.

ghost use Rattle.std.specs.Prelude.{◌≡◌, ◌<◌, ◌+◌, ◌^◌, IfSome};
ghost use Rattle.rob_simplex.specs.Dictionaries.{positions, columns_of};
ghost use Rattle.rob_simplex.specs.Solutions.{position_of as place_of};

use crate::dictionary::Dictionary;
use rob_entries::Entry;

impl<E: Entry> Dictionary<E> {
    /// The number of structural columns.
    pub fn columns(&self) -> usize
        ensures columns { result ≡ self.now.columns }
        ensures few { result + positions self.now < 2 ^ 31 }
    {
        self.columns
    }

    /// The number of positions but the objective's.
    pub fn positions(&self) -> usize
        ensures positions { result ≡ positions self.now }
    {
        self.basis.len()
    }

    /// The basic column of a position.
    pub fn basic(&self, i: usize) -> usize
        requires inside { i < positions self.now }
        ensures column { result ≡ columns_of self.now.basis i }
        ensures few { result < 2 ^ 32 }
    {
        self.basis[i]
    }

    /// The first position where a structural or slack column is basic, as its place tells.
    pub fn position_of(&self, column: usize) -> Option<usize>
        requires column_in { column < self.now.columns + positions self.now }
        ensures position { result ≡ place_of self.now.basis column }
        ensures inside { IfSome result (λ i. i < positions self.now) }
    {
        let place = self.places[column];
        let first = self.columns + 3;
        if place < first {
            None
        } else {
            Some(place - first)
        }
    }
}
