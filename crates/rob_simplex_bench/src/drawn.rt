//! Programs of numbers that a linear congruence draws, and the set of a lot-sizing model.

use rob_number::{List, Memory};
use rob_rows::Lp;
use std::alloc::{AllocError, Global};

/// What the rows of a program are.
#[derive(Clone, Copy)]
pub enum Kind {
    /// Each number from 1 to 9: the rows of a basis soon have wide numbers.
    Dense,
    /// A run of ones in each row, over its own column, and right sides up to 1,000: in each basis a row has no number
    /// but 0, 1 and -1 in front of its right side.
    Runs,
    /// The same to be covered at the least cost, so that all right sides are negative.
    Covers,
    /// The demands of a lot-sizing model with a budget, whose sum is to be the greatest.
    Demands,
}

/// The kinds, by their numbers.
pub const KINDS: [Kind; 4] = [Kind::Dense, Kind::Runs, Kind::Covers, Kind::Demands];

/// A program of this kind and size: so many rows and columns, or so many demands. It is the same each time.
pub(crate) fn program(alloc: Global, kind: Kind, size: usize) -> Result<Lp, Memory> {
    match kind {
        Kind::Demands => demands(alloc, size),
        Kind::Dense | Kind::Runs | Kind::Covers => square(alloc, kind, size),
    }
}

/// A program with as many rows as columns.
fn square(alloc: Global, kind: Kind, size: usize) -> Result<Lp, Memory> {
    let mut state = size as u64;
    let mut rows = List::new(alloc);
    for i in 0..size {
        let mut row = vec![in alloc; 0i64; size]?;
        state = draw_row(row.as_mut_slice(), kind, i as u64, state);
        rows.push(List::from(row))?;
    }
    let sign = match kind {
        Kind::Covers => -1,
        Kind::Dense | Kind::Runs | Kind::Demands => 1,
    };
    let right = drawn(alloc, size, 1000, sign, state)?;
    let cost = drawn(alloc, size, 9, sign, state.wrapping_add(1))?;
    Ok(Lp {
        a: rows,
        b: List::from(right),
        c: List::from(cost),
    })
}

/// Writes row i of the kind where 0 stands, and tells the next state.
fn draw_row(row: &mut [i64], kind: Kind, i: u64, state: u64) -> u64 {
    match kind {
        Kind::Dense => draw_numbers(row, 9, 1, state),
        Kind::Runs => draw_run(row, 1, i, state),
        Kind::Covers => draw_run(row, -1, i, state),
        Kind::Demands => state,
    }
}

/// What a row says of a demand with this mean: so often the demand, and so often its share of the budget, is at most
/// the mean so often and a number more.
struct Side {
    demand: i64,
    share: i64,
    mean: i64,
    more: i64,
}

/// The demand is within 2 of its mean, and its share is at least half of how far it is from it.
const SIDES: [Side; 4] = [
    Side {
        demand: -1,
        share: 0,
        mean: -1,
        more: 2,
    },
    Side {
        demand: 1,
        share: 0,
        mean: 1,
        more: 2,
    },
    Side {
        demand: 1,
        share: -2,
        mean: 1,
        more: 0,
    },
    Side {
        demand: -1,
        share: -2,
        mean: -1,
        more: 0,
    },
];

/// So many demands with means of 10 to 13, whose shares sum to at most 1. Each number is the difference of two columns:
/// first the demands, then their shares.
fn demands(alloc: Global, periods: usize) -> Result<Lp, Memory> {
    let columns = periods.saturating_mul(4);
    let mut rows = List::new(alloc);
    let mut right = List::new(alloc);
    for k in 0..periods {
        let mean = 10 + (k % 4) as i64;
        for side in SIDES.iter() {
            let mut row = vec![in alloc; 0i64; columns]?;
            write_pair(row.as_mut_slice(), k, side.demand);
            write_pair(row.as_mut_slice(), periods.saturating_add(k), side.share);
            rows.push(List::from(row))?;
            right.push(side.mean.wrapping_mul(mean).wrapping_add(side.more))?;
        }
    }
    let mut budget = vec![in alloc; 0i64; columns]?;
    let mut cost = vec![in alloc; 0i64; columns]?;
    for k in 0..periods {
        write_pair(budget.as_mut_slice(), periods.saturating_add(k), 1);
        write_pair(cost.as_mut_slice(), k, 1);
    }
    rows.push(List::from(budget))?;
    right.push(1)?;
    Ok(Lp {
        a: rows,
        b: right,
        c: List::from(cost),
    })
}

/// Writes a number to the two columns of this pair.
fn write_pair(row: &mut [i64], pair: usize, number: i64) {
    let plus = pair.saturating_mul(2);
    if let Some(entry) = row.get_mut(plus) {
        *entry = number;
    }
    if let Some(entry) = row.get_mut(plus.saturating_add(1)) {
        *entry = number.wrapping_neg();
    }
}

/// Writes the same number to a run of places, of which one is given.
fn draw_run(row: &mut [i64], number: i64, place: u64, state: u64) -> u64 {
    let first = next(state);
    let second = next(first);
    let places = row.len().max(1) as u64;
    let start = ((first >> 33) % places).min(place);
    let end = ((second >> 33) % places).max(place);
    for (k, entry) in row.iter_mut().enumerate() {
        if start <= k as u64 && k as u64 <= end {
            *entry = number;
        }
    }
    second
}

/// So many numbers from 1 to `most`, all with this sign.
fn drawn(
    alloc: Global,
    count: usize,
    most: u64,
    sign: i64,
    state: u64,
) -> Result<Vec<i64>, AllocError> {
    let mut numbers = vec![in alloc; 0i64; count]?;
    draw_numbers(numbers.as_mut_slice(), most, sign, state);
    Ok(numbers)
}

/// Writes numbers from 1 to `most`, all with this sign, and tells the next state.
fn draw_numbers(numbers: &mut [i64], most: u64, sign: i64, state: u64) -> u64 {
    let mut state = state;
    for number in numbers.iter_mut() {
        state = next(state);
        let size = ((state >> 33) % most.max(1)).wrapping_add(1).cast_signed();
        *number = size.wrapping_mul(sign);
    }
    state
}

/// The next state of the congruence (Knuth's MMIX).
fn next(state: u64) -> u64 {
    state
        .wrapping_mul(6_364_136_223_846_793_005)
        .wrapping_add(1_442_695_040_888_963_407)
}
