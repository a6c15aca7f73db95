//! A column that comes to a position.

ghost use Rattle.std.specs.Prelude.{◌≡◌, ◌<◌, ◌≤◌, ◌+◌, ℕ, pos, nat_abs, set};
ghost use Rattle.rob_simplex.specs.Dictionaries.{positions, columns_of, rows_of, kept_row_of, IsFree, IsAlone, IsExchanged, IsSized};

use crate::dictionary::Dictionary;
use rob_entries::Entry;

impl<E: Entry> Dictionary<E> {
    /// A column comes to a position, and the one that stood there to its place. Rows are the same where all others are
    /// 0 in the column.
    pub fn replace(&mut self, row: usize, column: usize)
        requires row_in { row < positions self.old }
        requires free { IsFree self.old.columns self.old.basis column }
        ensures basis { self.new.basis ≡ set self.old.basis row column }
        ensures sized { IsSized self.old self.new }
        ensures rows { IsAlone self.old row column → (i c : ℕ) → i ≤ positions self.old
            → c < self.old.columns + positions self.old + 4 → rows_of self.new i c ≡ rows_of self.old i c }
        ensures exchanged { IsExchanged self.old self.new row
            (columns_of self.old.basis row) column }
        ensures small { (i c : ℕ) → i ≤ positions self.new → nat_abs (rows_of self.new i c)
            ≤ self.new.limit }
        ensures kept { kept_row_of self.old column ≡ pos 0 → (c : ℕ) → kept_row_of self.new c
            ≡ kept_row_of self.old c }
    {
        let place = self.places[column];
        let left = self.basis[row];
        let start = row * (self.columns + 4);
        self.rows.swap(start + place, start + (self.columns + 3));
        self.near[place] = left;
        self.places[left] = place;
        self.basis[row] = column;
        self.places[column] = self.columns + 3 + row;
    }
}
