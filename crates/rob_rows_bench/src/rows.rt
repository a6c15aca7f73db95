//! Rows of numbers that a linear congruence draws.

ghost use Rattle.std.specs.Prelude.{◌≡◌, ◌-◌, ◌^◌, ◌<◌, ◌≤◌, nat_abs, length, IfOk};
ghost use Rattle.rob_rows.specs.PrimitiveParts.{IsWithin};

use crate::case::Case;
use std::alloc::{AllocError, Global};

/// A row of so many numbers. A seed gives the same row each time.
pub fn drawn_row(
    alloc: Global,
    count: usize,
    case: &Case,
    seed: u64,
) -> Result<Vec<i64>, AllocError>
    ensures length { IfOk result (λ row. length row.items ≡ count) }
    ensures within { IfOk result (λ row. IsWithin (2 ^ 62 - 1) row.items) }
{
    let mut row = vec![in alloc; 0i64; count]?;
    draw(row.as_mut_slice(), case, seed);
    Ok(row)
}

/// Writes numbers into the row.
fn draw(row: &mut [i64], case: &Case, seed: u64)
    ensures within { IsWithin (2 ^ 62 - 1) row.new }
{
    let mut state = seed;
    for entry in row.iter_mut() {
        state = next(state);
        let is_zero = (state >> 32) % 100 < case.zeros;
        state = next(state);
        let drawn = ((state >> 16) % case.size.max(1))
            .wrapping_sub(case.size / 2)
            .cast_signed();
        *entry = if is_zero {
            0
        } else {
            within(drawn.wrapping_mul(case.multiple))
        };
    }
}

/// The next state of the congruence (Knuth's MMIX).
fn next(state: u64) -> u64 {
    state
        .wrapping_mul(6_364_136_223_846_793_005)
        .wrapping_add(1_442_695_040_888_963_407)
}

/// The number where its size is below 2^62, and else 0.
pub fn within(number: i64) -> i64
    ensures within { nat_abs result ≤ 2 ^ 62 - 1 }
{
    if number.unsigned_abs() < 1 << 62 {
        number
    } else {
        0
    }
}

/// A checksum of the row: its entries, modulo 2^64, as the digits of a number to the base 31.
pub(crate) fn checksum(row: &[i64]) -> u64 {
    let mut sum = 0u64;
    for entry in row {
        sum = sum.wrapping_mul(31).wrapping_add(entry.cast_unsigned());
    }
    sum
}
