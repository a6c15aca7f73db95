//! Edits of a dictionary between its pivots and its phases.

ghost use Rattle.std.specs.Prelude.{◌≡◌, ◌≢◌, ◌<◌, ◌≤◌, ◌+◌, ℕ, suc, pos};
ghost use Rattle.rob_linear.specs.Beside.{exchanged};
ghost use Rattle.rob_simplex.specs.Dictionaries.{positions, width_of, columns_of, rows_of, kept_row_of, IsFree, IsSized};

use crate::dictionary::Dictionary;
use rob_entries::Entry;
use rob_table::row_moves::{copy_row, empty_place, exchange_rows, write_unit};

impl<E: Entry> Dictionary<E> {
    /// Two positions exchange their rows and columns.
    pub fn exchange(&mut self, a: usize, b: usize)
        requires a_in { a < positions self.old }
        requires b_in { b < positions self.old }
        ensures rows { (i c : ℕ) → i ≤ positions self.old → c < width_of self.old
            → rows_of self.new i c ≡ rows_of self.old (exchanged a b i) c }
        ensures kept { (c : ℕ) → c < width_of self.old → kept_row_of self.new c
            ≡ kept_row_of self.old c }
        ensures basis { (i : ℕ) → columns_of self.new.basis i
            ≡ columns_of self.old.basis (exchanged a b i) }
        ensures sized { IsSized self.old self.new }
    {
        let width = self.columns + 4;
        exchange_rows(&mut self.rows, self.bounds.as_mut_slice(), a, b, width);
        let first = self.basis[a];
        let second = self.basis[b];
        self.basis[a] = second;
        self.basis[b] = first;
        self.places[second] = self.columns + 3 + a;
        self.places[first] = self.columns + 3 + b;
    }

    /// Writes 0 to a column that is not basic, in the rows of all positions.
    pub fn empty(&mut self, column: usize)
        requires free { IsFree self.old.columns self.old.basis column }
        ensures zero { (i : ℕ) → i ≤ positions self.old → rows_of self.new i column ≡ pos 0 }
        ensures others { (i c : ℕ) → i ≤ positions self.old → c < width_of self.old → c ≢ column
            → rows_of self.new i c ≡ rows_of self.old i c }
        ensures kept { (c : ℕ) → kept_row_of self.new c ≡ kept_row_of self.old c }
        ensures basis { self.new.basis ≡ self.old.basis }
        ensures sized { IsSized self.old self.new }
    {
        let width = self.columns + 4;
        let place = self.places[column];
        let count = self.basis.len() + 1;
        empty_place(&mut self.rows, place, width, count);
    }

    /// Keeps the objective's row behind it.
    pub fn keep_objective(&mut self)
        ensures kept { (c : ℕ) → kept_row_of self.new c ≡ rows_of self.old (positions self.old) c }
        ensures rows { (i c : ℕ) → i ≤ positions self.old → rows_of self.new i c
            ≡ rows_of self.old i c }
        ensures basis { self.new.basis ≡ self.old.basis }
        ensures sized { IsSized self.old self.new }
    {
        let width = self.columns + 4;
        let m = self.basis.len();
        copy_row(&mut self.rows, self.bounds.as_mut_slice(), m, m + 1, width);
    }

    /// Writes the kept row back to the objective's position.
    pub fn restore_objective(&mut self)
        ensures objective { (c : ℕ) → rows_of self.new (positions self.old) c
            ≡ kept_row_of self.old c }
        ensures rows { (i c : ℕ) → i < positions self.old → rows_of self.new i c
            ≡ rows_of self.old i c }
        ensures basis { self.new.basis ≡ self.old.basis }
        ensures sized { IsSized self.old self.new }
    {
        let width = self.columns + 4;
        let m = self.basis.len();
        copy_row(&mut self.rows, self.bounds.as_mut_slice(), m + 1, m, width);
    }

    /// Writes the auxiliary objective to the objective's row: 1 in the auxiliary column and in its own.
    pub fn write_auxiliary(&mut self)
        requires free { IsFree self.old.columns self.old.basis
            (self.old.columns + positions self.old) }
        ensures auxiliary { rows_of self.new (positions self.old)
            (self.old.columns + positions self.old) ≡ pos 1 }
        ensures own { rows_of self.new (positions self.old)
            (suc (self.old.columns + positions self.old)) ≡ pos 1 }
        ensures zero { (c : ℕ) → c < width_of self.old → c ≢ self.old.columns + positions self.old
            → c ≢ suc (self.old.columns + positions self.old) → rows_of self.new (positions self.old) c ≡ pos 0 }
        ensures rows { (i c : ℕ) → i < positions self.old → rows_of self.new i c
            ≡ rows_of self.old i c }
        ensures kept { (c : ℕ) → kept_row_of self.new c ≡ kept_row_of self.old c }
        ensures basis { self.new.basis ≡ self.old.basis }
        ensures sized { IsSized self.old self.new }
    {
        let width = self.columns + 4;
        let m = self.basis.len();
        let place = self.places[self.columns + m];
        write_unit(&mut self.rows, self.bounds.as_mut_slice(), m, place, width);
    }
}
