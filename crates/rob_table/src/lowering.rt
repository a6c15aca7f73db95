//! A row less an amount at one place: how the cost of a column is put into the objective's row.
//!     row[place]  becomes  row[place] - factor * row[own]
//! At a way, which is another place where the row is 0, the factor is written; a row with 1 at the way and the row's
//! own entry at the place then clears the way.

ghost use Rattle.std.specs.Prelude.{◌≡◌, ◌≢◌, ◌⊎◌, ◌<◌, ◌≤◌, ◌+◌, ◌*◌, ◌^◌, ◌*ℤ◌, ℕ, suc, nat_abs, length, OnOk, OnErr};
ghost use Rattle.rob_linear.specs.Vectors.{at};
ghost use Rattle.rob_entries.specs.Updates.{IsMultipleOf};
ghost use Rattle.rob_number.specs.Counts.{CountsOnly};
ghost use Rattle.rob_table.specs.Tables.{row_at, HasBounds, IsUnchangedBut};
ghost use Rattle.rob_table.specs.Lowering.{CanLower, IsLowered, IsWideLowered, step_row};

use crate::table::{Pivot, clear_row};
use rob_entries::{Cells, Entry, PivotRow};
use rob_number::{Ledger, Wide};

/// A row that is 1 at one place, has a number at another one, and is 0 elsewhere.
#[derive(Clone, Copy, Drop)]
pub struct Step<E: Entry> {
    pub one: usize,
    pub place: usize,
    pub number: E,
}

/// Where a row is lowered: this row, at this place, by way of another one, of a table whose rows have n + 4 numbers, of
/// which the last is the row's own. The row behind it is open.
#[derive(Clone, Copy, Drop)]
pub struct Lowering {
    pub row: usize,
    pub place: usize,
    pub way: usize,
    pub n: usize,
}

/// An entry of such a row.
fn step_entry<E: Entry>(step: Step<E>, k: usize) -> E
    ensures value { E.value result ≡ step_row step.one step.place (E.value step.number) k }
{
    if k == step.one {
        return E::of(1);
    }
    if k == step.place {
        return step.number;
    }
    E::of(0)
}

/// Writes the entries of such a row.
fn write_steps<E: Entry>(rows: &mut Cells<E>, i: usize, step: Step<E>, width: usize)
    requires inside { i * width + width ≤ length rows.old }
    ensures row { (k : ℕ) → k < width
        → row_at rows.new width i k ≡ step_row step.one step.place (E.value step.number) k }
    ensures others { IsUnchangedBut i width (row_at rows.old width) (row_at rows.new width) }
    ensures size { length rows.new ≡ length rows.old }
{
    let _ = rows.len();
    for k in 0..width {
        rows.set(i * width + k, step_entry(step, k));
    }
}

/// Writes row i as such a row, with its bound.
pub fn write_step<E: Entry>(
    rows: &mut Cells<E>,
    bounds: &mut [u128],
    i: usize,
    step: Step<E>,
    n: usize,
)
    requires few { n < 2 ^ 31 }
    requires bounded { HasBounds E.top (n + 4) rows.old bounds.old }
    requires inside { i < length bounds.old }
    requires number { nat_abs (E.value step.number) ≤ E.top }
    ensures row { (k : ℕ) → k < n + 4
        → row_at rows.new (n + 4) i k ≡ step_row step.one step.place (E.value step.number) k }
    ensures others { IsUnchangedBut i (n + 4) (row_at rows.old (n + 4)) (row_at rows.new (n + 4)) }
    ensures bounded { HasBounds E.top (n + 4) rows.new bounds.new }
{
    write_steps(rows, i, step, n + 4);
    bounds[i] = step.number.size().max(1);
}

/// Writes one entry of row i, and raises the row's bound to it.
fn write_factor<E: Entry>(
    rows: &mut Cells<E>,
    bounds: &mut [u128],
    i: usize,
    place: usize,
    factor: i64,
    width: usize,
)
    requires inside { i < length bounds.old }
    requires place_in { place < width }
    requires size { length rows.old ≡ length bounds.old * width }
    requires factor { nat_abs factor < 2 ^ 62 }
    ensures here { row_at rows.new width i place ≡ factor }
    ensures others { (j k : ℕ) → k < width → (k ≢ place) ⊎ (j ≢ i)
        → row_at rows.new width j k ≡ row_at rows.old width j k }
    ensures bounded { HasBounds E.top width rows.old bounds.old
        → HasBounds E.top width rows.new bounds.new }
{
    let _ = rows.len();
    let entry = E::of(factor);
    rows.set(i * width + place, entry);
    let bound = bounds[i];
    bounds[i] = bound.max(entry.size());
}

/// Takes row i as the one that clears others.
fn load_row<E: Entry>(
    rows: &Cells<E>,
    bounds: &[u128],
    pivot_row: &mut PivotRow<E>,
    i: usize,
    width: usize,
)
    requires bounded { HasBounds E.top width rows.now bounds.now }
    requires inside { i < length bounds.now }
    requires width { length pivot_row.old.entries ≡ width }
    ensures entries { IsMultipleOf width (row_at rows.now width i) (at pivot_row.new.entries) }
    ensures size { length pivot_row.new.entries ≡ width }
    ensures bound { pivot_row.new.bound ≤ E.top }
{
    let _ = rows.len();
    rows.load(pivot_row, i * width, bounds[i]);
}

/// Takes the factor times the row's own entry, which isn't 0, off its entry at the place. `Wide` where the row in
/// lowest terms then has an entry over the limit; the row is then open.
pub fn lower_row<E: Entry, L: Ledger>(
    rows: &mut Cells<E>,
    bounds: &mut [u128],
    pivot_row: &mut PivotRow<E>,
    there: Lowering,
    factor: i64,
    ledger: &mut L,
) -> Result<(), Wide>
    requires ready { CanLower E.top there rows.old bounds.old (length pivot_row.old.entries) }
    requires factor { nat_abs factor < 2 ^ 62 }
    ensures lowered { OnOk result (IsLowered (there.n + 4) there.place
        (factor *ℤ row_at rows.old (there.n + 4) there.row (there.n + 3))
        (row_at rows.old (there.n + 4) there.row) (row_at rows.new (there.n + 4) there.row)) }
    ensures others { (j k : ℕ) → j ≢ there.row → j ≢ suc there.row → k < there.n + 4
        → row_at rows.new (there.n + 4) j k ≡ row_at rows.old (there.n + 4) j k }
    ensures bounded { HasBounds E.top (there.n + 4) rows.new bounds.new }
    ensures wide { OnErr result (IsWideLowered E.top (there.n + 4) there.place
        (factor *ℤ row_at rows.old (there.n + 4) there.row (there.n + 3)) (row_at rows.old (there.n + 4) there.row)) }
    ensures size { length pivot_row.new.entries ≡ there.n + 4 }
    ensures counted { CountsOnly L.ops L.wides ledger.old ledger.new }
{
    let width = there.n + 4;
    let _ = rows.len();
    let own = rows.get(there.row * width + (there.n + 3));
    let step = Step {
        one: there.way,
        place: there.place,
        number: own,
    };
    write_step(rows, bounds, there.row + 1, step, there.n);
    write_factor(rows, bounds, there.row, there.way, factor, width);
    load_row(rows, bounds, pivot_row, there.row + 1, width);
    let pivot = Pivot {
        row: there.row + 1,
        place: there.way,
        width,
    };
    clear_row(rows, bounds, pivot_row, pivot, there.row)?;
    ledger.op();
    Ok(())
}
