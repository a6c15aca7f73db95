//! The slack columns that are not basic. In the others two rows are 0, but for their own columns: so where rows tie,
//! the first ones of these columns are looked at, and of the first ones no others before a row's own one.

ghost use Rattle.std.specs.Prelude.{◌≢◌, ◌<◌, ◌≤◌, ◌+◌, ℕ, take, length};
ghost use Rattle.rob_simplex.specs.Dictionaries.{positions, columns_of};
ghost use Rattle.rob_simplex.specs.FreeSlacks.{AreFree};

use crate::dictionary::Dictionary;
use crate::entries::own_slack;
use rob_entries::Entry;

/// Which of the first slack columns are not basic, in order, and how many columns were looked at.
#[derive(Clone, Copy)]
pub struct Free<'a> {
    pub slacks: &'a [usize],
    pub seen: usize,
}

/// How many slack columns are looked at: where rows tie, mostly one of the first hundreds decides.
pub const FIRST: usize = 256;

impl<E: Entry> Dictionary<E> {
    /// Lists which of the first slack columns, as many as there is room for, are not basic. Tells how many are listed,
    /// and how many were looked at.
    pub fn list_free(&self, order: &mut [usize]) -> (usize, usize)
        ensures few { result.0 ≤ length order.new }
        ensures free { AreFree self.now result.1 (take result.0 order.new) }
    {
        let n = self.columns;
        let first = n + 3;
        let m = self.basis.len();
        let seen = m.min(order.len());
        let mut listed = 0;
        for k in 0..seen {
            let place = self.places[n + k];
            order[listed] = k;
            if place < first {
                listed += 1;
            }
        }
        (listed, seen)
    }

    /// How many of the first `seen` slack columns come before the own columns of two rows.
    pub fn before_own(&self, seen: usize, i: usize, e: usize) -> usize
        requires seen_in { seen ≤ positions self.now }
        requires i_in { i < positions self.now }
        requires e_in { e < positions self.now }
        ensures few { result ≤ seen }
        ensures not_i { (k : ℕ) → k < result → columns_of self.now.basis i ≢ self.now.columns + k }
        ensures not_e { (k : ℕ) → k < result → columns_of self.now.basis e ≢ self.now.columns + k }
    {
        let n = self.columns;
        let own_i = self.basis[i];
        let own_e = self.basis[e];
        let last = own_slack(own_i, n, n + seen);
        let before = own_slack(own_e, n, last);
        before.saturating_sub(n)
    }
}
