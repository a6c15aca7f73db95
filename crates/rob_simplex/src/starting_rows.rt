//! The dictionary that a program starts from: a row for each constraint, with 1 in its own slack column, and the
//! objective's row with minus the cost. -1 stands in the auxiliary column of each constraint's row.

ghost use Rattle.std.specs.Prelude.{◌≡◌, ◌≢◌, ◌⊎◌, ◌<◌, ◌≤◌, ◌+◌, ◌-◌, ◌*◌, ◌^◌, ℕ, [], pos, neg_ℤ, nat_abs, slice_index_or, length, IfOk};
ghost use Rattle.rob_linear.specs.Vectors.{at};
ghost use Rattle.rob_rows.specs.LinearPrograms.{HasNumbersWithin, program_of};
ghost use Rattle.rob_table.specs.Tables.{row_at, HasBounds, IsUnchangedBut};
ghost use Rattle.rob_simplex.specs.Starts.{start_entry, CanTellProgram, IsStartingTable};

use crate::dictionary::Dictionary;
use crate::starting_places::{number_near, number_places, number_slacks};
use rob_entries::{Cells, Entry, PivotRow};
use rob_number::Memory;
use rob_rows::Rows;
use rob_table::row_moves::write_number;
use std::alloc::Global;

impl<E: Entry> Dictionary<E> {
    /// The starting rows of the program that the source tells, with all memory that solving it needs. The source is
    /// asked for one row at a time.
    pub fn new<R: Rows>(alloc: Global, source: &R) -> Result<Dictionary<E>, Memory>
        requires ready { R.ready source.now }
        requires few { length (R.lp source.now).c + length (R.lp source.now).b < 2 ^ 31 }
        requires numbers { HasNumbersWithin (2 ^ 62 - 1) (R.lp source.now) }
        ensures starts { IfOk result (λ dictionary. IsStartingTable
            (program_of (R.lp source.now)) dictionary) }
        ensures limit { IfOk result (λ dictionary. dictionary.limit ≡ E.top) }
    {
        let n = source.columns();
        let m = source.rows();
        let width = n + 4;
        let mut basis = vec![in alloc; 0usize; m]?;
        let mut places = vec![in alloc; 0usize; n + m + 4]?;
        let mut near = vec![in alloc; 0usize; n + 3]?;
        let mut rows = Cells::new(alloc, (m + 2) * width)?;
        let mut bounds = vec![in alloc; 0u128; m + 2]?;
        let pivot_row = PivotRow::new(alloc, width)?;
        number_slacks(basis.as_mut_slice(), n);
        number_places(places.as_mut_slice(), n, m);
        number_near(near.as_mut_slice(), n, m);
        let mut numbers = vec![in alloc; 0i64; n]?;
        write_program(
            &mut rows,
            bounds.as_mut_slice(),
            source,
            numbers.as_mut_slice(),
            m,
        );
        Ok(Dictionary {
            columns: n,
            basis,
            places,
            near,
            rows,
            bounds,
            pivot_row,
        })
    }
}

/// One entry of a constraint's condensed row.
fn constraint_entry(numbers: &[i64], right: i64, k: usize) -> i64
    requires few { length numbers.now < 2 ^ 31 }
    ensures value { result ≡ start_entry (length numbers.now) (at numbers.now)
        (neg_ℤ (pos 1)) right k }
{
    let n = numbers.len();
    if k < n {
        return numbers[k];
    }
    if k == n {
        return -1;
    }
    if k == n + 1 {
        return 0;
    }
    if k == n + 2 {
        return right;
    }
    1
}

/// One entry of the objective's condensed row.
fn cost_entry(cost: &[i64], k: usize) -> i64
    requires few { length cost.now < 2 ^ 31 }
    requires within { (k : ℕ) → k < length cost.now → nat_abs (at cost.now k) < 2 ^ 62 }
    ensures value { result ≡ start_entry (length cost.now) (λ k. neg_ℤ (at cost.now k)) (pos 0)
        (pos 0) k }
{
    let n = cost.len();
    if k < n {
        return -cost[k];
    }
    if k < n + 3 {
        return 0;
    }
    1
}

/// Writes the structural entries of row i.
fn write_structural<E: Entry>(rows: &mut Cells<E>, i: usize, width: usize, numbers: &[i64])
    requires inside { i * width + width ≤ length rows.old }
    requires room { length numbers.now ≤ width }
    requires within { (k : ℕ) → k < length numbers.now → nat_abs (at numbers.now k) < 2 ^ 62 }
    ensures entries { (k : ℕ) → k < length numbers.now → row_at rows.new width i k
        ≡ at numbers.now k }
    ensures others { IsUnchangedBut i width (row_at rows.old width) (row_at rows.new width) }
    ensures size { length rows.new ≡ length rows.old }
{
    let _ = rows.len();
    for k in 0..numbers.len() {
        write_number(rows, i * width + k, numbers[k]);
    }
}

/// Writes what stands behind them in a constraint's row.
fn write_behind<E: Entry>(rows: &mut Cells<E>, i: usize, numbers: &[i64], right: i64)
    requires few { length numbers.now < 2 ^ 31 }
    requires inside { i * (length numbers.now + 4) + (length numbers.now + 4) ≤ length rows.old }
    requires within { (k : ℕ) → k < length numbers.now → nat_abs (at numbers.now k) < 2 ^ 62 }
    requires right { nat_abs right < 2 ^ 62 }
    ensures entries { (k : ℕ) → length numbers.now ≤ k → k < length numbers.now + 4
        → row_at rows.new (length numbers.now + 4) i k
        ≡ start_entry (length numbers.now) (at numbers.now) (neg_ℤ (pos 1)) right k }
    ensures others { (j k : ℕ) → k < length numbers.now + 4 → (j ≢ i) ⊎ (k < length numbers.now)
        → row_at rows.new (length numbers.now + 4) j k ≡ row_at rows.old (length numbers.now + 4) j k }
    ensures size { length rows.new ≡ length rows.old }
{
    let _ = rows.len();
    let n = numbers.len();
    for k in n..n + 4 {
        write_number(rows, i * (n + 4) + k, constraint_entry(numbers, right, k));
    }
}

/// Writes the objective's condensed row as row i.
fn write_objective<E: Entry>(rows: &mut Cells<E>, i: usize, cost: &[i64])
    requires few { length cost.now < 2 ^ 31 }
    requires inside { i * (length cost.now + 4) + (length cost.now + 4) ≤ length rows.old }
    requires within { (k : ℕ) → k < length cost.now → nat_abs (at cost.now k) < 2 ^ 62 }
    ensures row { (k : ℕ) → k < length cost.now + 4 → row_at rows.new (length cost.now + 4) i k
        ≡ start_entry (length cost.now) (λ k. neg_ℤ (at cost.now k)) (pos 0) (pos 0) k }
    ensures others { (j k : ℕ) → j ≢ i → k < length cost.now + 4
        → row_at rows.new (length cost.now + 4) j k ≡ row_at rows.old (length cost.now + 4) j k }
    ensures size { length rows.new ≡ length rows.old }
{
    let _ = rows.len();
    let width = cost.len() + 4;
    for k in 0..width {
        write_number(rows, i * width + k, cost_entry(cost, k));
    }
}

/// Writes the row of a constraint as row i, with its bound.
fn write_row<E: Entry>(
    rows: &mut Cells<E>,
    bounds: &mut [u128],
    i: usize,
    numbers: &[i64],
    right: i64,
)
    requires few { length numbers.now < 2 ^ 31 }
    requires bounded { HasBounds E.top (length numbers.now + 4) rows.old bounds.old }
    requires inside { i < length bounds.old }
    requires within { (k : ℕ) → k < length numbers.now → nat_abs (at numbers.now k) < 2 ^ 62 }
    requires right { nat_abs right < 2 ^ 62 }
    ensures row { (k : ℕ) → k < length numbers.now + 4
        → row_at rows.new (length numbers.now + 4) i k
        ≡ start_entry (length numbers.now) (at numbers.now) (neg_ℤ (pos 1)) right k }
    ensures others { (j k : ℕ) → j ≢ i → k < length numbers.now + 4
        → row_at rows.new (length numbers.now + 4) j k ≡ row_at rows.old (length numbers.now + 4) j k }
    ensures bounded { HasBounds E.top (length numbers.now + 4) rows.new bounds.new }
{
    let width = numbers.len() + 4;
    write_structural(rows, i, width, numbers);
    write_behind(rows, i, numbers, right);
    let _ = rows.len();
    bounds[i] = rows.largest(i * width, width);
}

/// Writes the objective's row, with its bound.
fn write_cost<E: Entry>(rows: &mut Cells<E>, bounds: &mut [u128], i: usize, cost: &[i64])
    requires few { length cost.now < 2 ^ 31 }
    requires bounded { HasBounds E.top (length cost.now + 4) rows.old bounds.old }
    requires inside { i < length bounds.old }
    requires within { (k : ℕ) → k < length cost.now → nat_abs (at cost.now k) < 2 ^ 62 }
    ensures row { (k : ℕ) → k < length cost.now + 4 → row_at rows.new (length cost.now + 4) i k
        ≡ start_entry (length cost.now) (λ k. neg_ℤ (at cost.now k)) (pos 0) (pos 0) k }
    ensures others { (j k : ℕ) → j ≢ i → k < length cost.now + 4
        → row_at rows.new (length cost.now + 4) j k ≡ row_at rows.old (length cost.now + 4) j k }
    ensures bounded { HasBounds E.top (length cost.now + 4) rows.new bounds.new }
{
    write_objective(rows, i, cost);
    let _ = rows.len();
    let width = cost.len() + 4;
    bounds[i] = rows.largest(i * width, width);
}

/// Writes the rows of the constraints and, behind them, the objective's, with their bounds. Each is told into
/// `numbers`.
fn write_program<E: Entry, R: Rows>(
    rows: &mut Cells<E>,
    bounds: &mut [u128],
    source: &R,
    numbers: &mut [i64],
    m: usize,
)
    requires ready { R.ready source.now }
    requires program { CanTellProgram (length numbers.old) (R.lp source.now) }
    requires constraints { m ≡ length (R.lp source.now).b }
    requires bounded { HasBounds E.top (length numbers.old + 4) rows.old bounds.old }
    requires inside { m < length bounds.old }
    ensures constraints { (i k : ℕ) → i < m → k < length numbers.old + 4
        → row_at rows.new (length numbers.old + 4) i k
        ≡ start_entry (length numbers.old) (at (slice_index_or (R.lp source.now).a i [])) (neg_ℤ (pos 1))
        (at (R.lp source.now).b i) k }
    ensures objective { (k : ℕ) → k < length numbers.old + 4
        → row_at rows.new (length numbers.old + 4) m k
        ≡ start_entry (length numbers.old) (λ j. neg_ℤ (at (R.lp source.now).c j)) (pos 0) (pos 0) k }
    ensures bounded { HasBounds E.top (length numbers.old + 4) rows.new bounds.new }
{
    write_rows(rows, bounds, source, numbers, m);
    source.write_cost(numbers);
    write_cost(rows, bounds, m, numbers);
}

/// Writes the rows of the constraints, with their bounds. Each is told into `numbers`.
fn write_rows<E: Entry, R: Rows>(
    rows: &mut Cells<E>,
    bounds: &mut [u128],
    source: &R,
    numbers: &mut [i64],
    m: usize,
)
    requires ready { R.ready source.now }
    requires program { CanTellProgram (length numbers.old) (R.lp source.now) }
    requires constraints { m ≡ length (R.lp source.now).b }
    requires bounded { HasBounds E.top (length numbers.old + 4) rows.old bounds.old }
    requires inside { m ≤ length bounds.old }
    ensures rows { (i k : ℕ) → i < m → k < length numbers.old + 4
        → row_at rows.new (length numbers.old + 4) i k
        ≡ start_entry (length numbers.old) (at (slice_index_or (R.lp source.now).a i [])) (neg_ℤ (pos 1))
        (at (R.lp source.now).b i) k }
    ensures bounded { HasBounds E.top (length numbers.old + 4) rows.new bounds.new }
{
    for i in 0..m {
        write_told_row(rows, bounds, source, numbers, i);
    }
}

/// Writes the row of constraint i, with its bound. It is told into `numbers`.
fn write_told_row<E: Entry, R: Rows>(
    rows: &mut Cells<E>,
    bounds: &mut [u128],
    source: &R,
    numbers: &mut [i64],
    i: usize,
)
    requires ready { R.ready source.now }
    requires program { CanTellProgram (length numbers.old) (R.lp source.now) }
    requires row_in { i < length (R.lp source.now).b }
    requires bounded { HasBounds E.top (length numbers.old + 4) rows.old bounds.old }
    requires inside { i < length bounds.old }
    ensures row { (k : ℕ) → k < length numbers.old + 4
        → row_at rows.new (length numbers.old + 4) i k
        ≡ start_entry (length numbers.old) (at (slice_index_or (R.lp source.now).a i [])) (neg_ℤ (pos 1))
        (at (R.lp source.now).b i) k }
    ensures others { (j k : ℕ) → j ≢ i → k < length numbers.old + 4
        → row_at rows.new (length numbers.old + 4) j k ≡ row_at rows.old (length numbers.old + 4) j k }
    ensures bounded { HasBounds E.top (length numbers.old + 4) rows.new bounds.new }
{
    let right = source.write_row(i, numbers);
    write_row(rows, bounds, i, numbers, right);
}
