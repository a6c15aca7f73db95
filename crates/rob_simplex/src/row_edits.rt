//! A row of a table that is divided by what is common to its entries, or negated.

ghost use Rattle.std.specs.Prelude.{◌≡◌, ◌≢◌, ◌<◌, ◌≤◌, ◌<ℤ◌, ◌*ℤ◌, ℕ, ℤ, pos, neg_ℤ, length};
ghost use Rattle.rob_table.specs.Tables.{row_at, HasBounds, IsUnchangedBut};
ghost use Rattle.rob_simplex.specs.Dictionaries.{positions, rows_of, kept_row_of, IsSized};

use crate::dictionary::Dictionary;
use rob_entries::{Cells, Entry};

/// Divides row i by what divides all its entries. Its bound stays, and the row that clears others finds its own.
fn reduce_row<E: Entry>(rows: &mut Cells<E>, bounds: &[u128], i: usize, width: usize)
    requires bounded { HasBounds E.top width rows.old bounds.now }
    requires inside { i < length bounds.now }
    ensures row { (d : ℤ) × (pos 0 <ℤ d)
        × ((k : ℕ) → k < width → d *ℤ row_at rows.new width i k ≡ row_at rows.old width i k) }
    ensures others { IsUnchangedBut i width (row_at rows.old width) (row_at rows.new width) }
    ensures bounded { HasBounds E.top width rows.new bounds.now }
{
    let _ = rows.len();
    rows.reduce(i * width, width, bounds[i]);
}

/// Divides row i by what divides all its entries, unless its own entry, the last one, is 1, which nothing but 1
/// divides.
fn reduce_unless_one<E: Entry>(rows: &mut Cells<E>, bounds: &[u128], i: usize, width: usize)
    requires bounded { HasBounds E.top width rows.old bounds.now }
    requires inside { i < length bounds.now }
    requires width { 1 ≤ width }
    ensures row { (d : ℤ) × (pos 0 <ℤ d)
        × ((k : ℕ) → k < width → d *ℤ row_at rows.new width i k ≡ row_at rows.old width i k) }
    ensures others { IsUnchangedBut i width (row_at rows.old width) (row_at rows.new width) }
    ensures bounded { HasBounds E.top width rows.new bounds.now }
{
    let _ = rows.len();
    if rows.get(i * width + (width - 1)).size() == 1 {
        return;
    }
    reduce_row(rows, bounds, i, width);
}

/// Negates row i.
fn negate_row<E: Entry>(rows: &mut Cells<E>, bounds: &[u128], i: usize, width: usize)
    requires bounded { HasBounds E.top width rows.old bounds.now }
    requires inside { i < length bounds.now }
    ensures row { (k : ℕ) → k < width → row_at rows.new width i k
        ≡ neg_ℤ (row_at rows.old width i k) }
    ensures others { IsUnchangedBut i width (row_at rows.old width) (row_at rows.new width) }
    ensures bounded { HasBounds E.top width rows.new bounds.now }
{
    let _ = rows.len();
    rows.negate(i * width, width, bounds[i]);
}

impl<E: Entry> Dictionary<E> {
    /// Divides a row by what divides all its entries.
    pub fn make_primitive(&mut self, row: usize)
        requires row_in { row ≤ positions self.old }
        ensures row { (d : ℤ) × (pos 0 <ℤ d)
            × ((c : ℕ) → d *ℤ rows_of self.new row c ≡ rows_of self.old row c) }
        ensures others { (i c : ℕ) → i ≤ positions self.old → i ≢ row → rows_of self.new i c
            ≡ rows_of self.old i c }
        ensures kept { (c : ℕ) → kept_row_of self.new c ≡ kept_row_of self.old c }
        ensures basis { self.new.basis ≡ self.old.basis }
        ensures sized { IsSized self.old self.new }
    {
        let width = self.columns + 4;
        reduce_unless_one(&mut self.rows, self.bounds.as_slice(), row, width);
    }

    /// Negates a row.
    pub fn negate(&mut self, row: usize)
        requires row_in { row ≤ positions self.old }
        ensures row { (c : ℕ) → rows_of self.new row c ≡ neg_ℤ (rows_of self.old row c) }
        ensures others { (i c : ℕ) → i ≤ positions self.old → i ≢ row → rows_of self.new i c
            ≡ rows_of self.old i c }
        ensures kept { (c : ℕ) → kept_row_of self.new c ≡ kept_row_of self.old c }
        ensures basis { self.new.basis ≡ self.old.basis }
        ensures sized { IsSized self.old self.new }
    {
        let width = self.columns + 4;
        negate_row(&mut self.rows, self.bounds.as_slice(), row, width);
    }
}
