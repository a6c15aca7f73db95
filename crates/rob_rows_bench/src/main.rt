//! Combines rows again and again, so that the row operation can be timed from outside.
//!
//! Words: how often each pair of rows is combined (1 without a word), and the number of the one case to run (all
//! without a word).
#![tactic(auto)]

ghost use Rattle.std.specs.Prelude.{◌≡◌, ◌-◌, ◌^◌, length};
ghost use Rattle.rob_rows.specs.PrimitiveParts.{IsWithin};

mod case;
mod rows;

use case::{CASES, Case};
use rob_number::{Frac, Tally};
use rob_rows::combine;
use rows::{checksum, drawn_row, within};
use std::alloc::Global;

const LENGTHS: [usize; 3] = [100, 1000, 5000];

fn main(rt: HostRuntime) -> anyhow::Result<()> {
    let words: Vec<String> = std::env::args(&rt)?.collect(rt.alloc())?;
    let repeats = number_at(words.as_slice(), 1, 1);
    let chosen = number_at(words.as_slice(), 2, u32::MAX) as usize;
    for (number, case) in CASES.iter().enumerate() {
        if chosen >= CASES.len() || chosen == number {
            for length in LENGTHS {
                let sum = run(rt.alloc(), case, length, repeats)?;
                println!(rt; "case {number}, rows of {length}: {sum}")?;
            }
        }
    }
    Ok(())
}

/// The number that the word at this place says, or the other one.
fn number_at(words: &[String], place: usize, other: u32) -> u32 {
    match words.get(place) {
        Some(word) => word.as_str().parse::<u32>().unwrap_or(other),
        None => other,
    }
}

/// Combines two rows of this length as often as is wanted. The sum stands for the row that comes out.
fn run(alloc: Global, case: &Case, length: usize, repeats: u32) -> anyhow::Result<u64> {
    let top = drawn_row(alloc, length, case, 1)?;
    let low = drawn_row(alloc, length, case, 2)?;
    let mut out = vec![in alloc; 0i64; length]?;
    Ok(combine_often(
        out.as_mut_slice(),
        case,
        top.as_slice(),
        low.as_slice(),
        repeats,
    ))
}

fn combine_often(out: &mut [i64], case: &Case, top: &[i64], low: &[i64], repeats: u32) -> u64
    requires top_length { length top.now ≡ length out.old }
    requires low_length { length low.now ≡ length out.old }
    requires top_within { IsWithin (2 ^ 62 - 1) top.now }
    requires low_within { IsWithin (2 ^ 62 - 1) low.now }
{
    let p = within(case.p);
    let q = within(case.q);
    let mut ledger = Tally::new();
    let mut refused = 0u64;
    for _ in 0..repeats {
        if combine::<Frac<62>, Tally>(out, p, top, q, low, &mut ledger).is_err() {
            refused = refused.wrapping_add(1);
        }
    }
    checksum(out).wrapping_add(refused)
}
