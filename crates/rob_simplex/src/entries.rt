//! The entries of a dictionary's rows.

ghost use Rattle.std.specs.Prelude.{◌≡◌, ◌<◌, ◌≤◌, ◌+◌, ℕ, pos, nat_abs, IsFalse};
ghost use Rattle.rob_simplex.specs.Dictionaries.{positions, width_of, rows_of};

use crate::dictionary::Dictionary;
use rob_entries::Entry;

/// The basic column of a row, where it is one from `low` on that comes before the last one; else that one.
pub fn own_slack(column: usize, low: usize, last: usize) -> usize
    ensures few { result ≤ last }
    ensures own { low ≤ column → result ≤ column }
{
    if low <= column {
        column.min(last)
    } else {
        last
    }
}

impl<E: Entry> Dictionary<E> {
    /// The entry of the row of position i in a column.
    #[inline(always)]
    pub fn entry(&self, i: usize, column: usize) -> E
        requires row_in { i ≤ positions self.now }
        requires column_in { column < width_of self.now }
        ensures entry { E.value result ≡ rows_of self.now i column }
        ensures within { nat_abs (E.value result) ≤ self.now.limit }
        ensures top { nat_abs (E.value result) ≤ E.top }
    {
        let place = self.places[column];
        let start = i * (self.columns + 4);
        if place < self.columns + 3 {
            return self.rows.get(start + place);
        }
        if place == self.columns + 3 + i {
            return self.rows.get(start + (self.columns + 3));
        }
        E::of(0)
    }

    /// The same, quicker in a column where most rows are not 0.
    #[inline(always)]
    pub fn dense_entry(&self, i: usize, column: usize) -> E
        requires row_in { i ≤ positions self.now }
        requires column_in { column < width_of self.now }
        ensures entry { E.value result ≡ rows_of self.now i column }
        ensures within { nat_abs (E.value result) ≤ self.now.limit }
        ensures top { nat_abs (E.value result) ≤ E.top }
    {
        let place = self.places[column];
        let start = i * (self.columns + 4);
        if place < self.columns + 3 {
            return self.rows.read(start + place);
        }
        if place == self.columns + 3 + i {
            return self.rows.get(start + (self.columns + 3));
        }
        E::of(0)
    }

    /// Whether one of two rows may have an entry in a column that is not 0.
    #[inline(always)]
    pub fn is_some_in(&self, column: usize, i: usize, e: usize) -> bool
        requires column_in { column < width_of self.now }
        requires i_in { i < positions self.now }
        requires e_in { e < positions self.now }
        ensures i_zero { IsFalse result → rows_of self.now i column ≡ pos 0 }
        ensures e_zero { IsFalse result → rows_of self.now e column ≡ pos 0 }
    {
        let place = self.places[column];
        let width = self.columns + 4;
        let first = self.columns + 3;
        if first <= place {
            return true;
        }
        let marked = self.rows.is_marked(i * width + place);
        if marked {
            return true;
        }
        self.rows.is_marked(e * width + place)
    }

    /// How many slack entries of a row, the first ones, are sure to be 0.
    pub fn zero_slacks(&self, i: usize) -> usize
        requires row_in { i < positions self.now }
        ensures few { result ≤ positions self.now }
        ensures zeros { (k : ℕ) → k < result → rows_of self.now i (self.now.columns + k) ≡ pos 0 }
    {
        let n = self.columns;
        let before = own_slack(self.basis[i], n, n + self.basis.len());
        let column = self
            .rows
            .lowest_some(i * (n + 4), self.near.as_slice(), n + 2, n, before);
        column.saturating_sub(n)
    }
}
