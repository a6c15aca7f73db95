//! Linear programs of the cases.

use rob_case::Trouble;
use rob_case::numbers::wholes;
use rob_number::List;
use rob_rows::Lp;
use std::alloc::Global;

/// A list of numbers.
pub(crate) fn list(alloc: Global, numbers: &[i64]) -> Result<List<i64>, Trouble> {
    let mut items = List::new(alloc);
    for number in numbers {
        items.push(*number)?;
    }
    Ok(items)
}

/// The program of a line: rows with `/` between them, each of its coefficients and then its right side; behind `|` the
/// objective's coefficients.
pub(crate) fn program(alloc: Global, line: &str) -> Result<Lp, Trouble> {
    let Some((rows, objective)) = line.split_once('|') else {
        return Err(Trouble::Line);
    };
    let c = numbers(alloc, objective)?;
    let mut lp = Lp {
        a: List::new(alloc),
        b: List::new(alloc),
        c,
    };
    append_rows(alloc, &mut lp, rows)?;
    Ok(lp)
}

/// The list of a line's numbers.
fn numbers(alloc: Global, line: &str) -> Result<List<i64>, Trouble> {
    let numbers = wholes(alloc, line)?;
    list(alloc, numbers.as_slice())
}

/// Appends rows, with `/` between them.
fn append_rows(alloc: Global, lp: &mut Lp, rows: &str) -> Result<(), Trouble> {
    for row in rows.split('/') {
        let numbers = wholes(alloc, row)?;
        append_row(alloc, lp, numbers.as_slice())?;
    }
    Ok(())
}

/// Appends a row: its coefficients and then its right side; nothing where there are no numbers.
fn append_row(alloc: Global, lp: &mut Lp, numbers: &[i64]) -> Result<(), Trouble> {
    if let Some((right, left)) = numbers.split_last() {
        let row = list(alloc, left)?;
        lp.a.push(row)?;
        lp.b.push(*right)?;
    }
    Ok(())
}
