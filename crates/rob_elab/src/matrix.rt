//! One form: its table in whole numbers, row by row.

ghost use Rattle.std.specs.Prelude.{◌≡◌, ◌≤◌, ◌<◌, ◌++◌, List, nat_abs, map, length, OnOk, IfOk, IfErr, MatchOption};
ghost use Rattle.rob_algebra.specs.Fraction.{Fraction};
ghost use Rattle.rob_algebra.specs.Width.{IsWideWhole};
ghost use Rattle.rob_number.specs.Counts.{Rose, NeverFell};
ghost use Rattle.rob_meaning.specs.Clearing.{cleared as cleared_matrix, denominator, entries, whole_at};
ghost use Rattle.rob_meaning.specs.Places.{Each, tabulate};
ghost use Rattle.rob_model.specs.Valid.{IsValid};
ghost use Rattle.rob_model.specs.View.{robust};
ghost use Rattle.rob_sets.specs.FirstWide.{IsWideCleared, Some_of};
ghost use Rattle.rob_sets.specs.Stops.{StopsFor};
ghost use Rattle.rob_sets.specs.Tables.{numbers_of};
ghost use Rattle.rob_elab.specs.Appending.{AppendsTable};
ghost use Rattle.rob_elab.specs.Forms.{MatrixFits, rows_of};

use rob_model::names::column_count;
use rob_model::{Model, Spot, Where};
use rob_number::{Exact, Ledger, List};
use rob_sets::clearing::{whole, with_number};
use rob_sets::error::{Stop, stopped};
use rob_sets::{Cell, ElabErr, Table};
use std::alloc::Global;

/// The least common denominator of numbers whose own is `common` and of those of a row, or none where it is over the
/// limit.
fn row_denominator<N: Exact, L: Ledger>(
    common: u64,
    table: &Table<N>,
    row: u32,
    columns: u32,
    ledger: &mut L,
) -> Option<u64>
    requires positive { 0 < common }
    requires within { common ≤ N.limit }
    ensures least { (before : List Fraction) → common ≡ denominator before → MatchOption result
        (N.limit < denominator (before ++ tabulate columns (numbers_of N.value table.now row)))
        (λ d. (d ≡ denominator (before ++ tabulate columns (numbers_of N.value table.now row)))
        × (d ≤ N.limit)) }
    ensures counted { NeverFell L.ops L.wides ledger.old ledger.new }
{
    let mut least = common;
    for column in 0..columns {
        let number = table.number(Cell { row, column }, ledger);
        match with_number(least, number) {
            Some(multiple) => least = multiple,
            None => return None,
        }
    }
    Some(least)
}

/// The least common denominator of the numbers in the first rows and columns, or none where it is over the limit.
fn common_denominator<N: Exact, L: Ledger>(
    table: &Table<N>,
    rows: u32,
    columns: u32,
    ledger: &mut L,
) -> Option<u64>
    ensures least { MatchOption result
        (N.limit < denominator (entries (rows_of rows columns (numbers_of N.value table.now))))
        (λ d. (d ≡ denominator (entries (rows_of rows columns (numbers_of N.value table.now))))
        × (d ≤ N.limit)) }
    ensures counted { NeverFell L.ops L.wides ledger.old ledger.new }
{
    let mut common: u64 = 1;
    for row in 0..rows {
        match row_denominator(common, table, row, columns, ledger) {
            Some(least) => common = least,
            None => return None,
        }
    }
    Some(common)
}

/// A row times a denominator that makes its numbers whole.
fn cleared_row<N: Exact, L: Ledger>(
    alloc: Global,
    table: &Table<N>,
    row: u32,
    columns: u32,
    common: u64,
    ledger: &mut L,
) -> Result<List<i64>, Stop>
    requires within { common ≤ N.limit }
    ensures cleared { IfOk result (λ list. list
        ≡ map (whole_at common) (tabulate columns (numbers_of N.value table.now row))) }
    ensures fits { IfOk result (λ list. Each (λ a. nat_abs a ≤ N.limit) list) }
    ensures wide { IfErr result (StopsFor (Rose (L.wides ledger.old) (L.wides ledger.new)
        × Some_of (λ q. IsWideWhole N.limit (whole_at common q))
        (tabulate columns (numbers_of N.value table.now row)))) }
    ensures counted { NeverFell L.ops L.wides ledger.old ledger.new }
{
    let mut list = List::new(alloc);
    for column in 0..columns {
        let number = table.number(Cell { row, column }, ledger);
        match whole(number, common) {
            Some(entry) => list.push(entry)?,
            None => {
                ledger.wide();
                return Err(Stop::Wide);
            }
        }
    }
    Ok(list)
}

/// The first rows and columns times a denominator that makes their numbers whole.
fn cleared_rows<N: Exact, L: Ledger>(
    alloc: Global,
    table: &Table<N>,
    rows: u32,
    columns: u32,
    common: u64,
    ledger: &mut L,
) -> Result<List<List<i64>>, Stop>
    requires within { common ≤ N.limit }
    ensures cleared { IfOk result (λ list. list
        ≡ map (map (whole_at common)) (rows_of rows columns (numbers_of N.value table.now))) }
    ensures fits { IfOk result (λ list. MatrixFits N.limit list) }
    ensures wide { IfErr result (StopsFor (Rose (L.wides ledger.old) (L.wides ledger.new)
        × Some_of (λ q. IsWideWhole N.limit (whole_at common q))
        (entries (rows_of rows columns (numbers_of N.value table.now))))) }
    ensures counted { NeverFell L.ops L.wides ledger.old ledger.new }
{
    let mut matrix = List::new(alloc);
    for row in 0..rows {
        let numbers = cleared_row(alloc, table, row, columns, common, ledger)?;
        matrix.push(numbers)?;
    }
    Ok(matrix)
}

/// The first rows and columns times the least common denominator of all their numbers.
fn clear_rows<N: Exact, L: Ledger>(
    alloc: Global,
    table: &Table<N>,
    rows: u32,
    columns: u32,
    ledger: &mut L,
) -> Result<List<List<i64>>, Stop>
    ensures cleared { IfOk result (λ list. list
        ≡ cleared_matrix (rows_of rows columns (numbers_of N.value table.now))) }
    ensures fits { IfOk result (λ list. MatrixFits N.limit list) }
    ensures not_wide { OnOk result (IsWideCleared N.limit
        (entries (rows_of rows columns (numbers_of N.value table.now))) → ⊥) }
    ensures wide { IfErr result (StopsFor (Rose (L.wides ledger.old) (L.wides ledger.new)
        × IsWideCleared N.limit (entries (rows_of rows columns (numbers_of N.value table.now))))) }
    ensures counted { NeverFell L.ops L.wides ledger.old ledger.new }
{
    match common_denominator(table, rows, columns, ledger) {
        Some(common) => cleared_rows(alloc, table, rows, columns, common, ledger),
        None => {
            ledger.wide();
            Err(Stop::Wide)
        }
    }
}

/// Clears a form that is given as a table, and appends its matrix.
pub fn append_form<N: Exact, L: Ledger>(
    alloc: Global,
    model: &Model<N>,
    table: &Table<N>,
    matrices: &mut List<List<List<i64>>>,
    ledger: &mut L,
) -> Result<(), ElabErr>
    requires valid { IsValid N.value model.now }
    requires few { length matrices.old < 100000 }
    ensures matrix { AppendsTable N.limit (robust N.value model.now) (numbers_of N.value table.now)
        matrices.old matrices.new (L.wides ledger.old) (L.wides ledger.new) result }
    ensures counted { NeverFell L.ops L.wides ledger.old ledger.new }
{
    let place = Where::Form(matrices.items().len() as u32);
    let rows = model.params.items().len() as u32 + 1;
    let columns = column_count(model) + 2;
    let matrix = match clear_rows(alloc, table, rows, columns, ledger) {
        Ok(matrix) => matrix,
        Err(stop) => return Err(stopped(stop, Spot::Clearing(place))),
    };
    matrices.push(matrix)?;
    Ok(())
}
