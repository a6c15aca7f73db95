//! Which row leaves: of the rows that are positive in the entering column, the one whose right side and then slack
//! entries, all over its entry in that column, come first. (Dantzig, Orden, Wolfe 1955.)

ghost use Rattle.std.specs.Prelude.{◌≡◌, ◌≢◌, ◌<◌, ◌≤◌, ◌-◌, ◌+◌, ◌<ℤ◌, ◌≤ℤ◌, ◌*ℤ◌, ◌-ℤ◌, ◌↔◌, ℕ, pos, IsTrue, IfSome, MatchOption};
ghost use Rattle.rob_linear.specs.Turns.{ComesBefore, Leaves};
ghost use Rattle.rob_simplex.specs.Dictionaries.{positions, width_of, rows_of, columns_of, shape, GoesFirst, Decided};
ghost use Rattle.rob_simplex.specs.FreeSlacks.{AreFree, lead};

use crate::dictionary::Dictionary;
use crate::free_slacks::{FIRST, Free};
use rob_entries::Entry;
use std::cmp::Ordering;

/// Two rows, each with its divisor: row i with p, row e with q.
#[derive(Clone, Copy)]
struct Rivals<E> {
    i: usize,
    p: E,
    e: usize,
    q: E,
}

/// Whether a number is above 0.
#[inline(always)]
pub fn is_positive<E: Entry>(a: E) -> bool
    ensures positive { IsTrue result ↔ (pos 0 <ℤ E.value a) }
{
    a.sign().is_gt()
}

/// Whether a over p is less than b over q, for positive divisors; none where they are the same. Most entries are 0, so
/// that is looked at first.
#[inline(always)]
fn is_less<E: Entry>(a: E, p: E, b: E, q: E) -> Option<bool>
    ensures order { MatchOption result
        ((E.value p *ℤ E.value b) -ℤ (E.value q *ℤ E.value a) ≡ pos 0)
        (λ less. Decided less ((E.value p *ℤ E.value b) -ℤ (E.value q *ℤ E.value a))) }
{
    if a.is_zero() {
        if b.is_zero() {
            return None;
        }
    }
    match E::order(a, p, b, q) {
        Ordering::Less => Some(true),
        Ordering::Equal => None,
        Ordering::Greater => Some(false),
    }
}

impl<E: Entry> Dictionary<E> {
    /// Whether entries in a column, over the rows' divisors, decide which of two rows comes first.
    #[inline(always)]
    fn is_less_at(&self, column: usize, i: usize, p: E, e: usize, q: E) -> Option<bool>
        requires column_in { column < width_of self.now }
        requires i_in { i < positions self.now }
        requires e_in { e < positions self.now }
        ensures order { MatchOption result
            (lead self.now i (E.value p) e (E.value q) column ≡ pos 0)
            (λ less. Decided less (lead self.now i (E.value p) e (E.value q) column)) }
    {
        is_less(self.entry(i, column), p, self.entry(e, column), q)
    }

    /// The same in a column where most rows are not 0.
    #[inline(always)]
    fn is_less_in_dense(&self, column: usize, i: usize, p: E, e: usize, q: E) -> Option<bool>
        requires column_in { column < width_of self.now }
        requires i_in { i < positions self.now }
        requires e_in { e < positions self.now }
        ensures order { MatchOption result
            (lead self.now i (E.value p) e (E.value q) column ≡ pos 0)
            (λ less. Decided less (lead self.now i (E.value p) e (E.value q) column)) }
    {
        is_less(
            self.dense_entry(i, column),
            p,
            self.dense_entry(e, column),
            q,
        )
    }

    /// The same in a slack column, where a mark of either row is looked at first.
    #[inline(always)]
    fn is_less_marked(&self, k: usize, i: usize, p: E, e: usize, q: E) -> Option<bool>
        requires k_in { k < positions self.now }
        requires i_in { i < positions self.now }
        requires e_in { e < positions self.now }
        ensures order { MatchOption result
            (lead self.now i (E.value p) e (E.value q) (self.now.columns + k) ≡ pos 0)
            (λ less. Decided less (lead self.now i (E.value p) e (E.value q) (self.now.columns + k))) }
    {
        if self.is_some_in(self.columns + k, i, e) {
            return self.is_less_at(self.columns + k, i, p, e, q);
        }
        None
    }

    /// The same in the first of the slack columns that decides, if one of the first ones does; their own columns don't
    /// come before them.
    fn is_less_in_free(&self, free: Free, before: usize, rows: Rivals<E>) -> Option<bool>
        requires free { AreFree self.now free.seen free.slacks.now }
        requires before_in { before ≤ free.seen }
        requires i_in { rows.i < positions self.now }
        requires e_in { rows.e < positions self.now }
        requires not_i { (k : ℕ) → k < before
            → columns_of self.now.basis rows.i ≢ self.now.columns + k }
        requires not_e { (k : ℕ) → k < before
            → columns_of self.now.basis rows.e ≢ self.now.columns + k }
        ensures order { MatchOption result
            ((j : ℕ) → j < before → lead self.now rows.i (E.value rows.p) rows.e (E.value rows.q)
            (self.now.columns + j) ≡ pos 0)
            (λ less. (k : ℕ) × (k < positions self.now)
            × ((j : ℕ) → j < k → lead self.now rows.i (E.value rows.p) rows.e (E.value rows.q)
            (self.now.columns + j) ≡ pos 0)
            × Decided less (lead self.now rows.i (E.value rows.p) rows.e (E.value rows.q)
            (self.now.columns + k))) }
    {
        let Rivals { i, p, e, q } = rows;
        let _ = self.basis.len();
        for k in free.slacks {
            if before <= *k {
                return None;
            }
            match self.is_less_marked(*k, i, p, e, q) {
                Some(less) => return Some(less),
                None => {}
            }
        }
        None
    }

    /// Whether row i comes before row e, each over its divisor, where their right sides are in the same ratio: by their
    /// slack entries, of which those that are not basic are listed.
    #[inline(never)]
    fn comes_before_tied(&self, free: Free, i: usize, p: E, e: usize, q: E) -> bool
        requires free { AreFree self.now free.seen free.slacks.now }
        requires i_in { i < positions self.now }
        requires e_in { e < positions self.now }
        requires tied { lead self.now i (E.value p) e (E.value q)
            (self.now.columns + positions self.now + 2) ≡ pos 0 }
        ensures decides { IsTrue result ↔ ComesBefore (shape self.now.columns (positions self.now))
            (rows_of self.now i) (E.value p) (rows_of self.now e) (E.value q) }
    {
        let m = self.basis.len();
        let before = self.before_own(free.seen, i, e);
        match self.is_less_in_free(free, before, Rivals { i, p, e, q }) {
            Some(less) => return less,
            None => {}
        }
        for k in before..m {
            match self.is_less_at(self.columns + k, i, p, e, q) {
                Some(less) => return less,
                None => {}
            }
        }
        false
    }

    /// Whether row i comes before row e, each over its divisor. Mostly the right sides decide, so what follows where
    /// they don't is a call of its own.
    #[inline(always)]
    pub fn comes_before(&self, free: Free, i: usize, p: E, e: usize, q: E) -> bool
        requires free { AreFree self.now free.seen free.slacks.now }
        requires i_in { i < positions self.now }
        requires e_in { e < positions self.now }
        ensures decides { IsTrue result ↔ ComesBefore (shape self.now.columns (positions self.now))
            (rows_of self.now i) (E.value p) (rows_of self.now e) (E.value q) }
    {
        let m = self.basis.len();
        match self.is_less_in_dense(self.columns + m + 2, i, p, e, q) {
            Some(less) => less,
            None => self.comes_before_tied(free, i, p, e, q),
        }
    }

    /// Whether row i is positive in the column and comes before the best row so far.
    fn goes_first(&self, free: Free, column: usize, i: usize, best: Option<usize>) -> bool
        requires free { AreFree self.now free.seen free.slacks.now }
        requires column_in { column < width_of self.now }
        requires i_in { i < positions self.now }
        requires best_in { IfSome best (λ e. (e < positions self.now)
            × (pos 0 <ℤ rows_of self.now e column)) }
        ensures decides { IsTrue result
            ↔ GoesFirst self.now.columns (positions self.now) (rows_of self.now) column i best }
    {
        let entry = self.entry(i, column);
        if !is_positive(entry) {
            return false;
        }
        match best {
            None => true,
            Some(e) => self.comes_before(free, i, entry, e, self.entry(e, column)),
        }
    }

    /// The row that leaves, if one is positive in the column. Rows are looked at from the last one on, and cleared from
    /// the first one on, so each pass begins with the rows that the one before left in the machine's caches.
    pub fn leaving(&self, column: usize) -> Option<usize>
        requires column_in { column < width_of self.now }
        ensures first { MatchOption result ((i : ℕ) → i < positions self.now
            → rows_of self.now i column ≤ℤ pos 0)
            (λ row. Leaves (shape self.now.columns (positions self.now)) (rows_of self.now) column row) }
    {
        let mut order = [0usize; FIRST];
        self.leaving_by(column, &mut order)
    }

    /// The same, with room for the slack columns that are not basic.
    fn leaving_by(&self, column: usize, order: &mut [usize]) -> Option<usize>
        requires column_in { column < width_of self.now }
        ensures first { MatchOption result ((i : ℕ) → i < positions self.now
            → rows_of self.now i column ≤ℤ pos 0)
            (λ row. Leaves (shape self.now.columns (positions self.now)) (rows_of self.now) column row) }
    {
        let m = self.basis.len();
        let (listed, seen) = self.list_free(order);
        let slacks = &order[..listed];
        let free = Free { slacks, seen };
        let mut best = None;
        for passed in 0..m {
            let i = m - 1 - passed;
            if self.goes_first(free, column, i, best) {
                best = Some(i);
            }
        }
        best
    }
}
