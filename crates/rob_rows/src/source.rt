//! Linear programs that are told row by row, so that nobody has to hold them.

ghost use Rattle.std.specs.Prelude.{◌≡◌, ◌<◌, [], length, slice_index_or};
ghost use Rattle.rob_linear.specs.Vectors.{at};
ghost use Rattle.rob_rows.specs.declared.program.Lp.{Lp as Data};
ghost use Rattle.rob_rows.specs.LinearPrograms.{IsShaped};

use crate::program::Lp;

/// A linear program that is told row by row. It may stand somewhere as data, or make each row as it is asked for.
pub trait Rows {
    /// The program as data.
    ghost lp: { Self → Data };

    /// When it may be asked.
    ghost ready: { Self → Type 0 };

    /// The number of columns.
    fn columns(&self) -> usize
        requires ready { ready self.now }
        ensures count { result ≡ length (lp self.now).c };

    /// The number of rows.
    fn rows(&self) -> usize
        requires ready { ready self.now }
        ensures count { result ≡ length (lp self.now).b };

    /// Writes the numbers of row `i`, one for each column, over `numbers`, and gives its right side.
    fn write_row(&self, i: usize, numbers: &mut [i64]) -> i64
        requires ready { ready self.now }
        requires inside { i < length (lp self.now).b }
        requires size { length numbers.old ≡ length (lp self.now).c }
        ensures numbers { numbers.new ≡ slice_index_or (lp self.now).a i [] }
        ensures right { result ≡ at (lp self.now).b i };

    /// Writes the objective's coefficients, one for each column, over `numbers`.
    fn write_cost(&self, numbers: &mut [i64])
        requires ready { ready self.now }
        requires size { length numbers.old ≡ length (lp self.now).c }
        ensures cost { numbers.new ≡ (lp self.now).c };

    // ---- law
    /// A program that may be asked has a row for each right side, and in each a number for each column.
    ghost shaped: { (x : Self) → ready x → IsShaped (lp x) };
}

impl Rows for Lp {
    ghost lp = { λ lp. lp };

    ghost ready = { IsShaped };

    fn columns(&self) -> usize {
        self.c.items().len()
    }

    fn rows(&self) -> usize {
        self.b.items().len()
    }

    fn write_row(&self, i: usize, numbers: &mut [i64]) -> i64 {
        numbers.copy_from_slice(self.a.items()[i].items());
        self.b.items()[i]
    }

    fn write_cost(&self, numbers: &mut [i64]) {
        numbers.copy_from_slice(self.c.items());
    }

    ghost shaped = { λ _ shaped. shaped };
}
