//! The weights that show that no point is feasible, read off the last row of the first phase.

ghost use Rattle.std.specs.Prelude.{◌≡◌, ◌≤◌, ◌<◌, ◌+◌, ◌*ℤ◌, ◌<ℤ◌, ℕ, ℤ, pos, set, length};
ghost use Rattle.rob_linear.specs.Vectors.{at};
ghost use Rattle.rob_linear.specs.Programs.{Program};
ghost use Rattle.rob_rows.specs.PrimitiveParts.{IsWithin, content};
ghost use Rattle.rob_simplex.specs.declared.first_phase.FirstEnding.TheVariants.{Infeasible};
ghost use Rattle.rob_simplex.specs.Dictionaries.{positions, rows_of, IsFree, IsSized};
ghost use Rattle.rob_simplex.specs.Explicit.{FirstEnds};
ghost use Rattle.rob_simplex.specs.PathEnds.{AreWeights};

use crate::dictionary::Dictionary;
use rob_entries::{Cells, Entry};

impl<E: Entry> Dictionary<E> {
    /// Writes the weights, the slack entries of the row that ended the first phase over what divides them all, and
    /// tells the path's basis: where the auxiliary column was kept out of it, it comes to this row's position.
    pub fn show_weights(&mut self, row: usize, weights: &mut Cells<E>)
        requires ends { (P : Program) × FirstEnds P (Infeasible row) self.old }
        requires size { length weights.old ≡ positions self.old }
        ensures shown { (P : Program) → FirstEnds P (Infeasible row) self.old
            → AreWeights P self.new.basis weights.new }
        ensures within { IsWithin self.old.limit weights.new }
        ensures size { length weights.new ≡ length weights.old }
        ensures sized { IsSized self.old self.new }
    {
        self.lowest_slacks(row, weights);
        self.tell_auxiliary(row);
    }

    /// The slack entries of a row, over what divides them all.
    fn lowest_slacks(&self, row: usize, weights: &mut Cells<E>)
        requires row_in { row ≤ positions self.now }
        requires size { length weights.old ≡ positions self.now }
        ensures weights { (d : ℤ) × (pos 0 <ℤ d) × ((i : ℕ) → i < positions self.now
            → d *ℤ at weights.new i ≡ rows_of self.now row (self.now.columns + i)) }
        ensures lowest { content weights.new ≤ 1 }
        ensures within { IsWithin self.now.limit weights.new }
        ensures size { length weights.new ≡ length weights.old }
    {
        self.slacks(row, weights);
        weights.reduce(0, self.basis.len(), E::TOP);
    }

    /// The slack entries of a row.
    fn slacks(&self, row: usize, weights: &mut Cells<E>)
        requires row_in { row ≤ positions self.now }
        requires size { length weights.old ≡ positions self.now }
        ensures weights { (i : ℕ) → i < positions self.now
            → at weights.new i ≡ rows_of self.now row (self.now.columns + i) }
        ensures within { IsWithin self.now.limit weights.new }
        ensures size { length weights.new ≡ length weights.old }
    {
        for i in 0..self.basis.len() {
            weights.set(i, self.entry(row, self.columns + i));
        }
    }

    /// The auxiliary column comes to a row's position, unless the row is the objective's.
    fn tell_auxiliary(&mut self, row: usize)
        requires row_in { row ≤ positions self.old }
        requires free { row < positions self.old
            → IsFree self.old.columns self.old.basis (self.old.columns + positions self.old) }
        ensures comes { row < positions self.old
            → self.new.basis ≡ set self.old.basis row (self.old.columns + positions self.old) }
        ensures stays { row ≡ positions self.old → self.new.basis ≡ self.old.basis }
        ensures sized { IsSized self.old self.new }
    {
        let auxiliary = self.columns + self.basis.len();
        if row < self.basis.len() {
            self.replace(row, auxiliary);
        }
    }
}
