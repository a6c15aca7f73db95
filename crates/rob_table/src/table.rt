//! A table of rows with their bounds, in which one row clears the others of an entry.

ghost use Rattle.std.specs.Prelude.{◌≡◌, ◌≢◌, ◌<◌, ◌+◌, ◌-◌, ℕ, suc, OnOk, OnErr, IfErr};
ghost use Rattle.rob_linear.specs.Vectors.{at, Matrix};
ghost use Rattle.rob_linear.specs.Multiples.{IsClearedBy};
ghost use Rattle.rob_entries.specs.Updates.{AreOwn, IsWideCleared};
ghost use Rattle.rob_number.specs.Counts.{CountsOnly};
ghost use Rattle.rob_table.specs.Tables.{row_at, HasBounds, AreCleared, CanClearRows, IsStopped, IsUnchangedBut};

use rob_entries::{Cells, Entry, PivotRow};
use rob_number::{Ledger, Wide};

/// A pivot in a table whose rows have this width: the row that clears the others, and the place of the entry that it
/// clears in each. The last number of a row is its own entry.
#[derive(Clone, Copy, Drop)]
pub struct Pivot {
    pub row: usize,
    pub place: usize,
    pub width: usize,
}

/// Row i is cleared of its entry at the pivot's. Few rows are, so this is a call, and the loop over all rows is short.
#[inline(never)]
pub fn clear_row<E: Entry>(
    rows: &mut Cells<E>,
    bounds: &mut [u128],
    pivot_row: &mut PivotRow<E>,
    pivot: Pivot,
    i: usize,
) -> Result<(), Wide>
    requires ready { CanClearRows E.top pivot rows.old bounds.old pivot_row.old (suc i) }
    requires own { AreOwn (row_at rows.old pivot.width i) (at pivot_row.old.entries)
        (pivot.width - 1) }
    ensures cleared { OnOk result (IsClearedBy pivot.width pivot.place
        (row_at rows.old pivot.width i)
        (at pivot_row.old.entries) (row_at rows.new pivot.width i)) }
    ensures others { IsUnchangedBut i pivot.width (row_at rows.old pivot.width)
        (row_at rows.new pivot.width) }
    ensures bounded { HasBounds E.top pivot.width rows.new bounds.new }
    ensures wide { OnErr result
        (IsWideCleared E.top pivot.width pivot.place (row_at rows.old pivot.width i) (at pivot_row.old.entries)) }
    ensures unchanged { OnErr result (rows.new ≡ rows.old) }
    ensures same { pivot_row.new ≡ pivot_row.old }
{
    let _ = rows.len();
    let start = i * pivot.width;
    bounds[i] = rows.clear(start, pivot_row, bounds[i], pivot.place, E::TOP)?;
    Ok(())
}

/// Row i is cleared, unless it is the row that clears, or is 0 there.
fn clear_other<E: Entry, L: Ledger>(
    rows: &mut Cells<E>,
    bounds: &mut [u128],
    pivot_row: &mut PivotRow<E>,
    pivot: Pivot,
    i: usize,
    ledger: &mut L,
) -> Result<(), Wide>
    requires ready { CanClearRows E.top pivot rows.old bounds.old pivot_row.old (suc i) }
    requires own { i ≢ pivot.row
        → AreOwn (row_at rows.old pivot.width i) (at pivot_row.old.entries) (pivot.width - 1) }
    ensures cleared { (start : Matrix) → AreCleared i pivot.width pivot.row pivot.place
        (at pivot_row.old.entries)
        start (row_at rows.old pivot.width) → OnOk result (AreCleared (i + 1) pivot.width pivot.row pivot.place
        (at pivot_row.old.entries) start (row_at rows.new pivot.width)) }
    ensures bounded { HasBounds E.top pivot.width rows.new bounds.new }
    ensures wide { OnErr result ((i ≢ pivot.row)
        × IsWideCleared E.top pivot.width pivot.place (row_at rows.old pivot.width i) (at pivot_row.old.entries)) }
    ensures unchanged { OnErr result (rows.new ≡ rows.old) }
    ensures same { pivot_row.new ≡ pivot_row.old }
    ensures counted { CountsOnly L.ops L.wides ledger.old ledger.new }
{
    if i == pivot.row {
        return Ok(());
    }
    let _ = rows.len();
    if rows.get(i * pivot.width + pivot.place).is_zero() {
        return Ok(());
    }
    clear_row(rows, bounds, pivot_row, pivot, i)?;
    ledger.op();
    Ok(())
}

/// Clears all rows before `count` but its own of their entries there. After an `Err`, which names the first row
/// that would be wide, the rows before it are cleared, and the others are as they were.
pub fn clear_rows<E: Entry, L: Ledger>(
    rows: &mut Cells<E>,
    bounds: &mut [u128],
    pivot_row: &mut PivotRow<E>,
    pivot: Pivot,
    count: usize,
    ledger: &mut L,
) -> Result<(), usize>
    requires ready { CanClearRows E.top pivot rows.old bounds.old pivot_row.old count }
    requires own { (i : ℕ) → i < count → i ≢ pivot.row
        → AreOwn (row_at rows.old pivot.width i) (at pivot_row.old.entries) (pivot.width - 1) }
    ensures cleared { OnOk result (AreCleared count pivot.width pivot.row pivot.place
        (at pivot_row.old.entries)
        (row_at rows.old pivot.width) (row_at rows.new pivot.width)) }
    ensures stopped { IfErr result (λ i. IsStopped E.top count pivot.width pivot.row pivot.place
        (at pivot_row.old.entries) (row_at rows.old pivot.width) (row_at rows.new pivot.width) i) }
    ensures bounded { HasBounds E.top pivot.width rows.new bounds.new }
    ensures same { pivot_row.new ≡ pivot_row.old }
    ensures counted { CountsOnly L.ops L.wides ledger.old ledger.new }
{
    for i in 0..count {
        if let Err(_) = clear_other(rows, bounds, pivot_row, pivot, i, ledger) {
            return Err(i);
        }
    }
    Ok(())
}
