//! The size of a program's numbers.

ghost use Rattle.std.specs.Prelude.{◌≡◌, ℕ, [], ◌<◌, ◌≤◌, nat_abs, length, slice_index_or};
ghost use Rattle.rob_linear.specs.Vectors.{at};
ghost use Rattle.rob_rows.specs.PrimitiveParts.{IsWithin};
ghost use Rattle.rob_rows.specs.LinearPrograms.{HasNumbersWithin};
ghost use Rattle.rob_narrow.specs.NarrowPrograms.{IsGreatest};

use rob_rows::Rows;

/// The greatest size of an entry, or `least` where that is less.
fn greatest_in(row: &[i64], least: u64) -> u64
    ensures within { IsWithin result row.now }
    ensures from { least ≤ result }
    ensures least { (h : ℕ) → least ≤ h → IsWithin h row.now → result ≤ h }
{
    let mut greatest = least;
    for entry in row {
        greatest = entry.unsigned_abs().max(greatest);
    }
    greatest
}

/// The greatest size of a number of row `i` or of its right side, or `least` where that is less. The row is told into
/// `numbers`.
fn greatest_of_row<R: Rows>(source: &R, i: usize, numbers: &mut [i64], least: u64) -> u64
    requires ready { R.ready source.now }
    requires inside { i < length (R.lp source.now).b }
    requires columns { length numbers.old ≡ length (R.lp source.now).c }
    ensures row { IsWithin result (slice_index_or (R.lp source.now).a i []) }
    ensures right { nat_abs (at (R.lp source.now).b i) ≤ result }
    ensures from { least ≤ result }
    ensures least { (h : ℕ) → least ≤ h → HasNumbersWithin h (R.lp source.now) → result ≤ h }
{
    let right = source.write_row(i, numbers);
    greatest_in(numbers, right.unsigned_abs().max(least))
}

/// The greatest size of a number of the program, or 1 where that is less. Each row is told into `numbers`.
pub fn greatest<R: Rows>(source: &R, numbers: &mut [i64]) -> u64
    requires ready { R.ready source.now }
    requires columns { length numbers.old ≡ length (R.lp source.now).c }
    ensures greatest { IsGreatest result (R.lp source.now) }
{
    let mut greatest = 1;
    for i in 0..source.rows() {
        greatest = greatest_of_row(source, i, numbers, greatest);
    }
    source.write_cost(numbers);
    greatest_in(numbers, greatest)
}
