//! Solves programs that it makes, so that the simplex method can be timed from outside.
//!
//! Words: the size, which is the number of rows and of columns, or of demands (12 without a word, at most 1,000), and
//! the number of the one kind of program to solve (all without a word).
#![tactic(auto)]

mod drawn;

use drawn::{KINDS, Kind, program};
use rob_number::{Exact, Frac, LpKind, Memory, Tally};
use rob_rows::Lp;
use rob_simplex::{LpStop, Work};
use std::alloc::Global;

fn main(rt: HostRuntime) -> anyhow::Result<()> {
    let words: Vec<String> = std::env::args(&rt)?.collect(rt.alloc())?;
    let size = number_at(words.as_slice(), 1, 12).min(1000) as usize;
    let chosen = number_at(words.as_slice(), 2, u32::MAX) as usize;
    for (number, kind) in KINDS.iter().enumerate() {
        if chosen >= KINDS.len() || chosen == number {
            match run(rt.alloc(), *kind, size) {
                Ok(told) => println!(rt;
                    "kind {number}, size {size}: {} {}/{}, {} rows combined",
                    told.word, told.over, told.under, told.combined
                )?,
                Err(Memory) => println!(rt; "kind {number}, size {size}: no memory")?,
            }
        }
    }
    Ok(())
}

/// The number that the word at this place says, or the other one.
fn number_at(words: &[String], place: usize, other: u32) -> u32 {
    match words.get(place) {
        Some(word) => word.as_str().parse::<u32>().unwrap_or(other),
        None => other,
    }
}

/// How a program ends.
#[derive(Clone, Copy)]
enum End {
    /// With a greatest value.
    Optimal(Frac<62>),
    /// Without a feasible point.
    Infeasible,
    /// With a column that grows without limit.
    Unbounded(u32),
    /// At a wide row.
    Wide(u32),
    /// It is not solved: its numbers are not those of a program.
    Refused,
}

/// What is printed of a run: how it ended with a fraction, and how many rows were combined.
#[derive(Clone, Copy)]
struct Told {
    word: &'static str,
    over: i64,
    under: i64,
    combined: u64,
}

/// What is printed of an end.
fn summary(end: End, combined: u64) -> Told {
    let (word, over, under) = match end {
        End::Optimal(value) => ("optimal", value.num(), value.den()),
        End::Infeasible => ("infeasible", 0, 1),
        End::Unbounded(column) => ("unbounded", column as i64, 1),
        End::Wide(row) => ("wide", row as i64, 1),
        End::Refused => ("refused", 0, 1),
    };
    Told {
        word,
        over,
        under,
        combined,
    }
}

/// Draws a program and solves it.
fn run(alloc: Global, kind: Kind, size: usize) -> Result<Told, Memory> {
    let lp = program(alloc, kind, size)?;
    let mut ledger = Tally::new();
    let end = solved(alloc, &lp, &mut ledger)?;
    Ok(summary(end, ledger.ops()))
}

fn solved(alloc: Global, lp: &Lp, ledger: &mut Tally) -> Result<End, Memory> {
    let few = lp.c.items().len() < 1 << 30 && lp.b.items().len() < 1 << 30;
    if !few || !lp.is_shaped() || !lp.is_within(Frac::<62>::LIMIT as u64) {
        return Ok(End::Refused);
    }
    let mut work: Work<Frac<62>, i64> = Work::new(alloc, lp)?;
    Ok(match work.solve(ledger) {
        Ok(LpKind::Optimal) => End::Optimal(work.value()),
        Ok(LpKind::Infeasible) => End::Infeasible,
        Ok(LpKind::Unbounded) => End::Unbounded(work.column()),
        Err(LpStop::Wide(row)) => End::Wide(row),
    })
}
