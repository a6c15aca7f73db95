//! One set row: its numbers in order, and in whole numbers.

ghost use Rattle.std.specs.Prelude.{◌≡◌, ◌≤◌, ◌<◌, ◌+◌, ◌∷◌, ◌++◌, [], map, length, IfOk};
ghost use Rattle.rob_number.specs.Counts.{NeverFell};
ghost use Rattle.rob_meaning.specs.Places.{tabulate};
ghost use Rattle.rob_meaning.specs.SetRows.{lift_count as lift_count_of};
ghost use Rattle.rob_model.specs.Valid.{IsValid};
ghost use Rattle.rob_model.specs.Limits.{most_members};
ghost use Rattle.rob_model.specs.View.{robust, set_line_of};
ghost use Rattle.rob_sets.specs.Appending.{Appends, row_of};
ghost use Rattle.rob_sets.specs.SetForm.{judged_row};
ghost use Rattle.rob_sets.specs.Tables.{numbers_of};

use crate::clearing::clear;
use crate::error::{ElabErr, stopped};
use crate::set_form::SetRow;
use crate::table::{Cell, Table};
use rob_model::{Model, SetLine, Spot, Where};
use rob_number::{Exact, Ledger, List};
use std::alloc::{AllocError, Global};

/// The numbers of a set row: its right side, then a number for each parameter and for each column `t`.
fn row_numbers<N: Exact, L: Ledger>(
    alloc: Global,
    table: &Table<N>,
    parameters: u32,
    lifts: u32,
    ledger: &mut L,
) -> Result<Vec<N>, AllocError>
    requires few_parameters { parameters ≤ 1000 }
    requires few_lifts { lifts ≤ 1000 }
    ensures numbers { IfOk result (λ v. map N.value v.items
        ≡ (row_of (numbers_of N.value table.now)).limit
        ∷ (tabulate parameters (row_of (numbers_of N.value table.now)).on_parameters
        ++ tabulate lifts (row_of (numbers_of N.value table.now)).on_lifts)) }
    ensures counted { NeverFell L.ops L.wides ledger.old ledger.new }
{
    let mut numbers = Vec::new(alloc);
    let constant = table.number(Cell { row: 0, column: 0 }, ledger);
    numbers.push(constant.neg())?;
    for k in 0..parameters {
        let number = table.number(
            Cell {
                row: k + 1,
                column: 0,
            },
            ledger,
        );
        numbers.push(number)?;
    }
    for t in 0..lifts {
        let number = table.number(
            Cell {
                row: 0,
                column: t + 1,
            },
            ledger,
        );
        numbers.push(number)?;
    }
    Ok(numbers)
}

/// Clears a set row that is given as a table, and appends it. The table's constant is moved to the right.
pub fn append_row<N: Exact, L: Ledger>(
    alloc: Global,
    model: &Model<N>,
    table: &Table<N>,
    rows: &mut List<SetRow>,
    ledger: &mut L,
) -> Result<(), ElabErr>
    requires valid { IsValid N.value model.now }
    requires few { length rows.old < 1000 }
    ensures row { Appends N.limit (robust N.value model.now)
        (row_of (numbers_of N.value table.now) ∷ [])
        (judged_row (robust N.value model.now) (length rows.old)
        (row_of (numbers_of N.value table.now)) ∷ [])
        rows.old rows.new (L.wides ledger.old) (L.wides ledger.new) result }
    ensures counted { NeverFell L.ops L.wides ledger.old ledger.new }
{
    let place = Where::SetRow(rows.items().len() as u32);
    let parameters = model.params.items().len() as u32;
    let lifts = lift_count(model);
    let numbers = row_numbers(alloc, table, parameters, lifts, ledger)?;
    match clear(alloc, &numbers, ledger) {
        Ok(list) => {
            let row = split(alloc, list.items())?;
            rows.push(row)?;
            Ok(())
        }
        Err(stop) => Err(stopped(stop, Spot::Clearing(place))),
    }
}

/// A set row, from its right side and the coefficients behind it.
fn split(alloc: Global, numbers: &[i64]) -> Result<SetRow, AllocError>
    requires right_side { 0 < length numbers.now }
    ensures parts { IfOk result (λ row. numbers.now ≡ row.h ∷ row.g) }
{
    let coefficients = numbers[1..].to_vec(alloc)?;
    Ok(SetRow {
        g: List::from(coefficients),
        h: numbers[0],
    })
}

/// The number of columns `t`: the members of all budgets.
pub fn lift_count<N: Exact>(model: &Model<N>) -> u32
    requires valid { IsValid N.value model.now }
    ensures count { result ≡ lift_count_of (robust N.value model.now).set_lines }
{
    let mut count = 0;
    for line in model.set_lines.items() {
        count += member_count(line);
    }
    count
}

/// The number of members of a statement, which is 0 unless it is a budget.
pub fn member_count<N: Exact>(line: &SetLine<N>) -> u32
    requires few { lift_count_of (set_line_of N.value line.now ∷ []) ≤ most_members }
    ensures count { result ≡ lift_count_of (set_line_of N.value line.now ∷ []) }
{
    match line {
        SetLine::Line {
            left: _,
            rel: _,
            right: _,
        } => 0,
        SetLine::Budget { limit: _, members } => members.items().len() as u32,
    }
}
