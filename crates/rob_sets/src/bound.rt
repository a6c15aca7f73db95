//! The set rows of the declared bounds of the parameters.

ghost use Rattle.std.specs.Prelude.{◌≡◌, ◌<◌, ◌+◌, [], zero, length, Option, option_map, if◌then◌else◌, IfOk};
ghost use Rattle.rob_number.specs.Counts.{NeverFell};
ghost use Rattle.rob_meaning.specs.SetConditions.{if_declared};
ghost use Rattle.rob_meaning.specs.SetRows.{bound_rows, lower_row, upper_row};
ghost use Rattle.rob_model.specs.Valid.{IsValid};
ghost use Rattle.rob_model.specs.View.{robust};
ghost use Rattle.rob_sets.specs.Appending.{Appends, row_of};
ghost use Rattle.rob_sets.specs.SetForm.{judged_rows};
ghost use Rattle.rob_sets.specs.Tables.{numbers_of};

use crate::error::ElabErr;
use crate::row::append_row;
use crate::set_form::SetRow;
use crate::table::{Cell, Table, signed};
use rob_model::Model;
use rob_model::numbers::one;
use rob_number::{Exact, Ledger, List, Memory};
use std::alloc::Global;

/// A declared bound of a parameter, as a table that is at most 0: `l - d`, or `d - b`.
fn bound_table<N: Exact, L: Ledger>(
    alloc: Global,
    parameter: u32,
    lower: bool,
    bound: N,
    ledger: &mut L,
) -> Result<Table<N>, Memory>
    requires few { parameter < 1000 }
    ensures row { IfOk result (λ t. row_of (numbers_of N.value t)
        ≡ (if lower then lower_row parameter (N.value bound)
        else upper_row parameter (N.value bound))) }
    ensures counted { NeverFell L.ops L.wides ledger.old ledger.new }
{
    let mut table = Table::new(alloc);
    let unit: N = one(ledger);
    table.put(
        Cell {
            row: parameter + 1,
            column: 0,
        },
        signed(lower, unit),
    )?;
    table.put(Cell { row: 0, column: 0 }, signed(!lower, bound))?;
    Ok(table)
}

/// A bound of a parameter, as far as it is declared.
#[derive(Clone, Copy)]
struct Bound<'a, N> {
    parameter: u32,
    is_lower: bool,
    number: &'a Option<N>,
}

/// Clears and appends the row of a declared bound, if there is one.
fn append_bound<N: Exact, L: Ledger>(
    alloc: Global,
    model: &Model<N>,
    bound: Bound<N>,
    rows: &mut List<SetRow>,
    ledger: &mut L,
) -> Result<(), ElabErr>
    requires valid { IsValid N.value model.now }
    requires few_parameters { bound.parameter < 1000 }
    requires few { length rows.old < 1000 }
    ensures row { Appends N.limit (robust N.value model.now)
        (if_declared (if bound.entry.is_lower then lower_row bound.entry.parameter
        else upper_row bound.entry.parameter) (option_map N.value bound.entry.number.now))
        (judged_rows (robust N.value model.now) (length rows.old)
        (if_declared (if bound.entry.is_lower then lower_row bound.entry.parameter
        else upper_row bound.entry.parameter) (option_map N.value bound.entry.number.now)))
        rows.old rows.new (L.wides ledger.old) (L.wides ledger.new) result }
    ensures counted { NeverFell L.ops L.wides ledger.old ledger.new }
{
    if let Some(number) = bound.number {
        let table = bound_table(alloc, bound.parameter, bound.is_lower, *number, ledger)?;
        append_row(alloc, model, &table, rows, ledger)?;
    }
    Ok(())
}

/// Clears and appends the rows of the declared bounds of all parameters, lower before upper.
pub fn append_bounds<N: Exact, L: Ledger>(
    alloc: Global,
    model: &Model<N>,
    rows: &mut List<SetRow>,
    ledger: &mut L,
) -> Result<(), ElabErr>
    requires valid { IsValid N.value model.now }
    requires empty { rows.old ≡ [] }
    ensures rows { Appends N.limit (robust N.value model.now)
        (bound_rows zero (robust N.value model.now).parameters)
        (judged_rows (robust N.value model.now) zero
        (bound_rows zero (robust N.value model.now).parameters))
        [] rows.new (L.wides ledger.old) (L.wides ledger.new) result }
    ensures counted { NeverFell L.ops L.wides ledger.old ledger.new }
{
    let mut number: u32 = 0;
    for parameter in model.params.items() {
        let lower = Bound {
            parameter: number,
            is_lower: true,
            number: &parameter.lower,
        };
        append_bound(alloc, model, lower, rows, ledger)?;
        let upper = Bound {
            parameter: number,
            is_lower: false,
            number: &parameter.upper,
        };
        append_bound(alloc, model, upper, rows, ledger)?;
        number += 1;
    }
    Ok(())
}
