//! Linear programs as data.

ghost use Rattle.std.specs.Prelude.{◌↔◌, IsTrue};
ghost use Rattle.rob_rows.specs.LinearPrograms.{IsShaped, HasNumbersWithin};

use crate::sizes::is_within;
use rob_number::List;

/// A linear program in whole numbers: maximise `c * x` subject to `A * x <= b` and `x >= 0`.
#[derive(Debug)]
pub struct Lp {
    /// The rows of `A`, each with one number for each column.
    pub a: List<List<i64>>,
    /// The right sides, one for each row.
    pub b: List<i64>,
    /// The objective's coefficients, one for each column.
    pub c: List<i64>,
}

impl Drop for Lp {
    /// Lets go of it in one call. A derived drop would stand in each function that does.
    fn drop(self) {
        let Lp {
            a: _a,
            b: _b,
            c: _c,
        } = self;
    }
}

impl Lp {
    /// Whether `A` has a row for each right side, and each row a number for each column.
    pub fn is_shaped(&self) -> bool
        ensures shaped { IsTrue result ↔ IsShaped self.now }
    {
        let columns = self.c.items().len();
        if self.a.items().len() != self.b.items().len() {
            return false;
        }
        for row in self.a.items() {
            if row.items().len() != columns {
                return false;
            }
        }
        true
    }

    /// Whether no number of the program is over the limit in size.
    pub fn is_within(&self, limit: u64) -> bool
        ensures within { IsTrue result ↔ HasNumbersWithin limit self.now }
    {
        for row in self.a.items() {
            if !is_within(row.items(), limit) {
                return false;
            }
        }
        is_within(self.b.items(), limit) && is_within(self.c.items(), limit)
    }
}
