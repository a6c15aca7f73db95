//! Rows of numbers of up to 126 bits.

use rob_case::Trouble;
use rob_deep::{combine_deep, is_primitive, is_within, lex_cmp, lowest, to_lowest_terms};
use std::alloc::Global;

const LIMIT: u128 = (1 << 126) - 1;

/// The row p times (a, b) less q times (0, c), in lowest terms, of the numbers p, a, b, q, c of a line.
pub(crate) fn combined(alloc: Global, line: &str) -> Result<String, Trouble> {
    match numbers(alloc, line)?.as_slice() {
        [p, a, b, q, c] => combination(alloc, *p, [*a, *b], *q, [0, *c]),
        _ => Err(Trouble::Line),
    }
}

/// The row of two rows, of which the second begins with 0.
fn combination(
    alloc: Global,
    p: i128,
    top: [i128; 2],
    q: i128,
    low: [i128; 2],
) -> Result<String, Trouble> {
    if !is_within(&[p, q], LIMIT) || !is_within(&top, LIMIT) || !is_within(&low, LIMIT) {
        return Err(Trouble::Line);
    }
    let factors = lowest(p, q);
    if factors.p == 0 || top[0] == 0 || low[0] != 0 || !is_primitive(&low) {
        return Err(Trouble::Line);
    }
    let mut out = [0, 0];
    match combine_deep(&mut out, factors, &top, &low, 0, LIMIT) {
        Ok(()) => Ok(format!(in alloc; "{} {}", out[0], out[1])?),
        Err(_) => Ok(format!(in alloc; "Wide")?),
    }
}

/// A row of two numbers in lowest terms.
pub(crate) fn reduced(alloc: Global, line: &str) -> Result<String, Trouble> {
    match numbers(alloc, line)?.as_slice() {
        [a, b] => in_lowest_terms(alloc, [*a, *b]),
        _ => Err(Trouble::Line),
    }
}

/// A row in lowest terms.
fn in_lowest_terms(alloc: Global, row: [i128; 2]) -> Result<String, Trouble> {
    let mut row = row;
    if !is_within(&row, LIMIT) {
        return Err(Trouble::Line);
    }
    to_lowest_terms(&mut row, LIMIT);
    Ok(format!(in alloc; "{} {}", row[0], row[1])?)
}

/// How a number over the second stands to the third over the last.
pub(crate) fn order(alloc: Global, line: &str) -> Result<String, Trouble> {
    match numbers(alloc, line)?.as_slice() {
        [a, p, b, q] => order_of(alloc, *a, *p, *b, *q),
        _ => Err(Trouble::Line),
    }
}

/// How a number over a divisor stands to another.
fn order_of(alloc: Global, a: i128, p: i128, b: i128, q: i128) -> Result<String, Trouble> {
    if p <= 0 || q <= 0 {
        return Err(Trouble::Line);
    }
    let order = lex_cmp(&[a], p, &[b], q);
    Ok(format!(in alloc; "{order:?}")?)
}

/// The whole numbers of a line, of 128 bits.
fn numbers(alloc: Global, line: &str) -> Result<Vec<i128>, Trouble> {
    let mut numbers = Vec::new(alloc);
    append(&mut numbers, line)?;
    Ok(numbers)
}

/// Appends these numbers.
fn append(numbers: &mut Vec<i128>, line: &str) -> Result<(), Trouble> {
    for word in line.split(' ') {
        match word.parse::<i128>() {
            Ok(number) => numbers.push(number)?,
            Err(_) => return Err(Trouble::Line),
        }
    }
    Ok(())
}
