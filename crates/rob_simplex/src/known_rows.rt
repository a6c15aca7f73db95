//! Rows that are known not to be lexicographically negative, from one search for the least row to the next. A pivot
//! clears few of the rows, and the signs of the others stay.

ghost use Rattle.std.specs.Prelude.{◌≡◌, ◌≢◌, ◌<◌, ℕ, pos, true, false, IsTrue, IsFalse, ◌↔◌, slice_index_or};
ghost use Rattle.rob_simplex.specs.Dictionaries.{positions, width_of, rows_of};
ghost use Rattle.rob_simplex.specs.LeastRows.{AreSpared};

use crate::dictionary::Dictionary;
use rob_entries::Entry;

/// How many rows have a mark, the first ones. The signs of others are sought each time.
pub const KNOWN: usize = 1024;

/// Whether row i has its mark on.
pub fn is_known(known: &[bool], i: usize) -> bool
    ensures marked { IsTrue result ↔ (slice_index_or known.now i false ≡ true) }
{
    if known.len() <= i {
        return false;
    }
    known[i]
}

/// Row i gets a mark, if it has room for one.
pub fn mark_known(known: &mut [bool], i: usize)
    ensures others { (j : ℕ) → j ≢ i
        → slice_index_or known.new j false ≡ slice_index_or known.old j false }
{
    if i < known.len() {
        known[i] = true;
    }
}

/// Row i has its mark off.
pub fn forget(known: &mut [bool], i: usize)
    ensures off { slice_index_or known.new i false ≡ false }
    ensures others { (j : ℕ) → j ≢ i
        → slice_index_or known.new j false ≡ slice_index_or known.old j false }
{
    if i < known.len() {
        known[i] = false;
    }
}

/// All marks are off.
pub fn forget_all(known: &mut [bool])
    ensures off { (j : ℕ) → slice_index_or known.new j false ≡ false }
{
    for k in 0..known.len() {
        known[k] = false;
    }
}

/// Whether a mark is on.
fn is_any_known(known: &[bool]) -> bool
    ensures none { IsFalse result → (j : ℕ) → slice_index_or known.now j false ≡ false }
{
    let mut some = false;
    for k in 0..known.len() {
        some |= known[k];
    }
    some
}

impl<E: Entry> Dictionary<E> {
    /// The mark of row i goes off unless the row is 0 in the column.
    #[inline(always)]
    fn spare_row(&self, known: &mut [bool], i: usize, column: usize)
        requires i_in { i < positions self.now }
        requires column_in { column < width_of self.now }
        ensures spared { slice_index_or known.new i false ≡ true
            → (slice_index_or known.old i false ≡ true) × (rows_of self.now i column ≡ pos 0) }
        ensures others { (j : ℕ) → j ≢ i
            → slice_index_or known.new j false ≡ slice_index_or known.old j false }
    {
        if !is_known(known, i) {
            return;
        }
        if self.entry(i, column).is_zero() {
            return;
        }
        forget(known, i);
    }

    /// Marks go off but those of rows that a pivot of row q at the column leaves as they are, up to a factor.
    pub fn spare(&self, known: &mut [bool], q: usize, column: usize)
        requires column_in { column < width_of self.now }
        ensures spared { AreSpared self.now q column known.old known.new }
    {
        if !is_any_known(known) {
            return;
        }
        for i in 0..self.basis.len() {
            self.spare_row(known, i, column);
        }
        forget(known, q);
    }
}
