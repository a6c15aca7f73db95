//! The least row over minus its entry in the auxiliary column: of the rows that are negative there and
//! lexicographically negative, the one that comes first.

ghost use Rattle.std.specs.Prelude.{◌≡◌, ◌<◌, ◌≤◌, ◌<ℤ◌, ◌↔◌, suc, pos, neg_ℤ, IsTrue, IfSome, MatchOption, Some};
ghost use Rattle.rob_linear.specs.Turns.{key, ComesBefore};
ghost use Rattle.rob_linear.specs.Beside.{IsLexNegative, IsLeast, HasNoLeast};
ghost use Rattle.rob_simplex.specs.Dictionaries.{positions, rows_of, width_of, shape, Decided};
ghost use Rattle.rob_simplex.specs.FreeSlacks.{AreFree};
ghost use Rattle.rob_simplex.specs.LeastRows.{AreKnown, IsBelowZero, IsLower, IsLeastIn, HasNoLeastIn};

use crate::dictionary::Dictionary;
use crate::free_slacks::{FIRST, Free};
use crate::known_rows::{is_known, mark_known};
use crate::ratio_test::is_positive;
use rob_entries::Entry;
use std::cmp::Ordering;

/// Whether a number is below 0; none for 0.
#[inline(always)]
fn is_below<E: Entry>(a: E) -> Option<bool>
    ensures sign { MatchOption result (E.value a ≡ pos 0)
        (λ below. Decided below (neg_ℤ (E.value a))) }
{
    match a.sign() {
        Ordering::Less => Some(true),
        Ordering::Equal => None,
        Ordering::Greater => Some(false),
    }
}

impl<E: Entry> Dictionary<E> {
    /// Whether the first number of a row's right side and slack entries that is not 0 is negative. Most rows that are
    /// 0 on their right side have few entries, so slack entries are read from the first one on that may not be 0.
    #[inline(never)]
    fn is_negative(&self, i: usize) -> bool
        requires row_in { i < positions self.now }
        ensures decides { IsTrue result ↔ IsLexNegative (suc (positions self.now))
            (key (shape self.now.columns (positions self.now)) (rows_of self.now i)) }
    {
        let m = self.basis.len();
        match is_below(self.dense_entry(i, self.columns + m + 2)) {
            Some(below) => return below,
            None => {}
        }
        for k in self.zero_slacks(i)..m {
            match is_below(self.entry(i, self.columns + k)) {
                Some(below) => return below,
                None => {}
            }
        }
        false
    }

    /// The same, unless the row is known not to be negative; what is found out is kept.
    fn is_negative_by(&self, i: usize, known: &mut [bool]) -> bool
        requires row_in { i < positions self.now }
        requires known { AreKnown self.now known.old }
        ensures decides { IsTrue result ↔ IsLexNegative (suc (positions self.now))
            (key (shape self.now.columns (positions self.now)) (rows_of self.now i)) }
        ensures known { AreKnown self.now known.new }
    {
        if is_known(known, i) {
            return false;
        }
        if self.is_negative(i) {
            return true;
        }
        mark_known(known, i);
        false
    }

    /// Minus the entry of a row in a column.
    #[inline(always)]
    fn minus_entry(&self, i: usize, column: usize) -> E
        requires row_in { i ≤ positions self.now }
        requires column_in { column < width_of self.now }
        ensures entry { E.value result ≡ neg_ℤ (rows_of self.now i column) }
    {
        self.dense_entry(i, column).minus()
    }

    /// Whether row i comes before row e, each over minus its entry in the column. Few rows are compared, so this is a
    /// call, and the loops over all rows are short.
    #[inline(never)]
    fn comes_lower(&self, free: Free, column: usize, i: usize, e: usize) -> bool
        requires free { AreFree self.now free.seen free.slacks.now }
        requires column_in { column < width_of self.now }
        requires i_in { i < positions self.now }
        requires e_in { e < positions self.now }
        ensures decides { IsTrue result ↔ ComesBefore (shape self.now.columns (positions self.now))
            (rows_of self.now i) (neg_ℤ (rows_of self.now i column)) (rows_of self.now e)
            (neg_ℤ (rows_of self.now e column)) }
    {
        let divisor = self.minus_entry(i, column);
        self.comes_before(free, i, divisor, e, self.minus_entry(e, column))
    }

    // ---- where a row is below 0 on its right side
    /// Whether a row is negative in a column and on its right side.
    #[inline(always)]
    fn is_below_zero(&self, column: usize, i: usize) -> bool
        requires column_in { column < width_of self.now }
        requires i_in { i < positions self.now }
        ensures below { IsTrue result ↔ IsBelowZero self.now column i }
    {
        if !is_positive(self.minus_entry(i, column)) {
            return false;
        }
        if !is_positive(self.minus_entry(i, self.columns + self.basis.len() + 2)) {
            return false;
        }
        true
    }

    /// The first such row, if there is one.
    fn first_below_zero(&self, column: usize) -> Option<usize>
        requires column_in { column < width_of self.now }
        ensures below { IfSome result (λ e. (e < positions self.now)
            × IsBelowZero self.now column e) }
    {
        for i in 0..self.basis.len() {
            if self.is_below_zero(column, i) {
                return Some(i);
            }
        }
        None
    }

    /// Whether row i may be the least, and comes before such a row. If it is not below 0 on its right side, it doesn't,
    /// whatever their divisors are: two numbers tell so of most rows.
    #[inline(always)]
    fn is_below_best(&self, free: Free, column: usize, i: usize, e: usize) -> bool
        requires free { AreFree self.now free.seen free.slacks.now }
        requires column_in { column < width_of self.now }
        requires i_in { i < positions self.now }
        requires e_in { e < positions self.now }
        requires e_below { IsBelowZero self.now column e }
        ensures decides { IsTrue result
            ↔ IsLower self.now.columns (positions self.now) (rows_of self.now) column i (Some e) }
        ensures below { IsTrue result → IsBelowZero self.now column i }
    {
        if !self.is_below_zero(column, i) {
            return false;
        }
        self.comes_lower(free, column, i, e)
    }

    /// The least row, from one that is below 0 on its right side: rows that are not, are passed by.
    fn least_below(&self, free: Free, column: usize, first: usize) -> usize
        requires free { AreFree self.now free.seen free.slacks.now }
        requires column_in { column < width_of self.now }
        requires first_in { first < positions self.now }
        requires below { IsBelowZero self.now column first }
        ensures least { IsLeast (shape self.now.columns (positions self.now)) column
            (rows_of self.now) result }
    {
        let m = self.basis.len();
        let mut best = first;
        for passed in 0..m {
            let i = m - 1 - passed;
            if self.is_below_best(free, column, i, best) {
                best = i;
            }
        }
        best
    }

    // ---- where no row is
    /// Whether row i may be the least, and comes before the best row so far. Its sign is looked at before the two are
    /// compared: of rows that are 0 on their right sides few are negative, and they would tie with the best one.
    fn is_lower(
        &self,
        free: Free,
        column: usize,
        i: usize,
        best: Option<usize>,
        known: &mut [bool],
    ) -> bool
        requires free { AreFree self.now free.seen free.slacks.now }
        requires column_in { column < width_of self.now }
        requires i_in { i < positions self.now }
        requires best_in { IfSome best (λ e. (e < positions self.now)
            × (rows_of self.now e column <ℤ pos 0)) }
        requires known { AreKnown self.now known.old }
        ensures decides { IsTrue result
            ↔ IsLower self.now.columns (positions self.now) (rows_of self.now) column i best }
        ensures known { AreKnown self.now known.new }
    {
        if !is_positive(self.minus_entry(i, column)) {
            return false;
        }
        if !self.is_negative_by(i, known) {
            return false;
        }
        match best {
            None => true,
            Some(e) => self.comes_lower(free, column, i, e),
        }
    }

    /// The least row, if there is one.
    fn least_negative(&self, free: Free, column: usize, known: &mut [bool]) -> Option<usize>
        requires free { AreFree self.now free.seen free.slacks.now }
        requires column_in { column < width_of self.now }
        requires known { AreKnown self.now known.old }
        ensures least { MatchOption result
            (HasNoLeast (shape self.now.columns (positions self.now)) column (rows_of self.now))
            (λ e. IsLeast (shape self.now.columns (positions self.now)) column (rows_of self.now) e) }
        ensures known { AreKnown self.now known.new }
    {
        let m = self.basis.len();
        let mut best = None;
        for passed in 0..m {
            let i = m - 1 - passed;
            if self.is_lower(free, column, i, best, known) {
                best = Some(i);
            }
        }
        best
    }

    // ---- the search
    /// The least row, if there is one. No row that is 0 on its right side comes before one that is below 0 there, so
    /// the slack entries of those are looked at only where there is none of these. Behind the search for a row to begin
    /// with, rows are looked at from the last one on, as in the ratio test.
    pub fn least(&self, known: &mut [bool]) -> Option<usize>
        requires known { AreKnown self.now known.old }
        ensures least { MatchOption result (HasNoLeastIn self.now) (λ e. IsLeastIn self.now e) }
        ensures known { AreKnown self.now known.new }
    {
        let mut order = [0usize; FIRST];
        self.least_by(&mut order, known)
    }

    /// The same, with room for the slack columns that are not basic.
    fn least_by(&self, order: &mut [usize], known: &mut [bool]) -> Option<usize>
        requires known { AreKnown self.now known.old }
        ensures least { MatchOption result (HasNoLeastIn self.now) (λ e. IsLeastIn self.now e) }
        ensures known { AreKnown self.now known.new }
    {
        let m = self.basis.len();
        let auxiliary = self.columns + m;
        let (listed, seen) = self.list_free(order);
        let slacks = &order[..listed];
        let free = Free { slacks, seen };
        match self.first_below_zero(auxiliary) {
            Some(first) => Some(self.least_below(free, auxiliary, first)),
            None => self.least_negative(free, auxiliary, known),
        }
    }
}
