//! The numbers that the last rows tell, judged at the width of the answer.

ghost use Rattle.std.specs.Prelude.{◌<◌, ◌≤◌, ◌+◌, ◌<ℤ◌, ℕ, pos, IfSome, MatchOption};
ghost use Rattle.std.specs.Bool.{OnTrue, OnFalse};
ghost use Rattle.rob_algebra.specs.Width.{Fits, IsWide};
ghost use Rattle.rob_simplex.specs.Dictionaries.{positions, width_of, rows_of};
ghost use Rattle.rob_simplex.specs.Judging.{ratio_of, HasOwn, TellsAt, TellsObjective, Tells, TellsWideAt, TellsWideObjective, TellsWideFirst};

use crate::dictionary::Dictionary;
use crate::solution::fits;
use rob_entries::Entry;
use rob_number::Exact;

impl<E: Entry> Dictionary<E> {
    /// Whether an entry of a row over another one, a positive one, is wide.
    fn is_wide_over<N: Exact>(&self, i: usize, column: usize, own: usize) -> bool
        requires row_in { i ≤ positions self.now }
        requires column_in { column < width_of self.now }
        requires own_in { own < width_of self.now }
        requires positive { pos 0 <ℤ rows_of self.now i own }
        ensures wide { OnTrue result (IsWide N.limit (ratio_of self.now i column own)) }
        ensures fits { OnFalse result (Fits N.limit (ratio_of self.now i column own)) }
    {
        !fits::<N, E>(self.entry(i, column), self.entry(i, own))
    }

    /// Whether the row of a position tells a number that is wide.
    fn tells_wide<N: Exact>(&self, growing: Option<usize>, i: usize) -> bool
        requires own { HasOwn self.now }
        requires i_in { i < positions self.now }
        requires growing_in { IfSome growing
            (λ column. column < self.now.columns + positions self.now) }
        ensures wide { OnTrue result (TellsWideAt N.limit growing self.now i) }
        ensures fits { OnFalse result (TellsAt N.limit growing self.now i) }
    {
        let own = self.basis[i];
        if own >= self.columns {
            return false;
        }
        if self.is_wide_over::<N>(i, self.columns + self.basis.len() + 2, own) {
            return true;
        }
        match growing {
            None => false,
            Some(column) => self.is_wide_over::<N>(i, column, own),
        }
    }

    /// The first position before the objective's whose row tells a number that is wide, if there is one.
    fn first_wide<N: Exact>(&self, growing: Option<usize>) -> Option<usize>
        requires own { HasOwn self.now }
        requires growing_in { IfSome growing
            (λ column. column < self.now.columns + positions self.now) }
        ensures first { MatchOption result
            ((i : ℕ) → i < positions self.now → TellsAt N.limit growing self.now i)
            (λ i. (i < positions self.now) × TellsWideAt N.limit growing self.now i
            × ((j : ℕ) → j < i → TellsAt N.limit growing self.now j)) }
    {
        for i in 0..self.basis.len() {
            if self.tells_wide::<N>(growing, i) {
                return Some(i);
            }
        }
        None
    }

    /// Whether the objective's row tells a dual value that is wide, or a wide value.
    fn objective_is_wide<N: Exact>(&self) -> bool
        requires own { HasOwn self.now }
        ensures wide { OnTrue result (TellsWideObjective N.limit self.now) }
        ensures fits { OnFalse result (TellsObjective N.limit self.now) }
    {
        let m = self.basis.len();
        let own = self.columns + m + 1;
        if self.is_wide_over::<N>(m, self.columns + m + 2, own) {
            return true;
        }
        for k in 0..m {
            if self.is_wide_over::<N>(m, self.columns + k, own) {
                return true;
            }
        }
        false
    }

    /// The first position whose row tells a number that is wide, if there is one: at the end with a ray, along which
    /// this column grows, or at an optimum. Position m is the objective's.
    pub fn judge<N: Exact>(&self, growing: Option<usize>) -> Option<usize>
        requires own { HasOwn self.now }
        requires growing_in { IfSome growing
            (λ column. column < self.now.columns + positions self.now) }
        ensures judged { MatchOption result (Tells N.limit growing self.now)
            (λ i. (i ≤ positions self.now) × TellsWideFirst N.limit growing self.now i) }
    {
        match self.first_wide::<N>(growing) {
            Some(i) => Some(i),
            None => match growing {
                Some(_) => None,
                None => {
                    if self.objective_is_wide::<N>() {
                        Some(self.basis.len())
                    } else {
                        None
                    }
                }
            },
        }
    }
}
