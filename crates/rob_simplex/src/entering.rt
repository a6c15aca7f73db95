//! Which column enters: the first with a negative entry in a row.

ghost use Rattle.std.specs.Prelude.{◌<◌, ◌≤◌, ◌+◌, ◌≤ℤ◌, ℕ, pos, MatchOption};
ghost use Rattle.rob_simplex.specs.Dictionaries.{positions, rows_of, basic_columns, FirstNegative};

use crate::dictionary::Dictionary;
use rob_entries::Entry;

impl<E: Entry> Dictionary<E> {
    /// The first structural or slack column with a negative entry in a row, if there is one.
    pub fn first_negative(&self, row: usize) -> Option<usize>
        requires row_in { row ≤ positions self.now }
        requires own { pos 0 ≤ℤ rows_of self.now row
            (basic_columns self.now.columns self.now.basis row) }
        ensures first { MatchOption result
            ((c : ℕ) → c < self.now.columns + positions self.now → pos 0 ≤ℤ rows_of self.now row c)
            (λ column. FirstNegative (self.now.columns + positions self.now) (rows_of self.now row) column) }
    {
        let width = self.columns + 4;
        let start = row * width;
        let auxiliary = self.columns + self.basis.len();
        let best = self
            .rows
            .lowest_negative(start, self.near.as_slice(), self.columns + 2, auxiliary);
        if best < auxiliary { Some(best) } else { None }
    }
}
