//! Combinations of two rows whose entries fit in 64 bits, as the sizes of the factors and of the entries show.

ghost use Rattle.std.specs.Prelude.{◌≡◌, ◌+◌, ◌*◌, ◌^◌, ◌<◌, ◌≤◌, nat_abs, length, IfSome, IfNone};
ghost use Rattle.std.specs.Bool.{OnTrue};
ghost use Rattle.rob_rows.specs.PrimitiveParts.{combination};
ghost use Rattle.rob_rows.specs.Factors.{IsNarrow};

use crate::factors::Factors;
use crate::sizes::largest;

/// Whether no entry of the combination can leave 64 bits.
pub fn is_narrow(factors: Factors, top: &[i64], low: &[i64]) -> bool
    requires p_size { nat_abs factors.p < 2 ^ 62 }
    requires q_size { nat_abs factors.q < 2 ^ 62 }
    ensures narrow { OnTrue result (IsNarrow factors top.now low.now) }
{
    let first = factors.p.unsigned_abs() as u128 * largest(top) as u128;
    let second = factors.q.unsigned_abs() as u128 * largest(low) as u128;
    first + second < 1 << 63
}

/// Writes the combination to `out`.
pub fn fill(out: &mut [i64], factors: Factors, top: &[i64], low: &[i64])
    requires top_length { length top.now ≡ length out.old }
    requires low_length { length low.now ≡ length out.old }
    requires narrow { IsNarrow factors top.now low.now }
    ensures row { out.new ≡ combination factors.p top.now factors.q low.now }
{
    for k in 0..out.len() {
        out[k] = factors.p * top[k] - factors.q * low[k];
    }
}

/// A bound on the entries of a combination of two rows, from one on the entries of each; nothing exactly where it is
/// over the limit.
pub fn bound_of(factors: Factors, bound: u64, other: u64, limit: u64) -> Option<u64>
    requires p_size { nat_abs factors.p < 2 ^ 62 }
    requires q_size { nat_abs factors.q < 2 ^ 62 }
    requires limit { limit < 2 ^ 62 }
    requires bound_in { bound ≤ limit }
    requires other_in { other ≤ limit }
    ensures bound { IfSome result (λ sum. sum
        ≡ nat_abs factors.p * bound + nat_abs factors.q * other) }
    ensures within { IfSome result (λ sum. sum ≤ limit) }
    ensures wide { IfNone result (limit < nat_abs factors.p * bound + nat_abs factors.q * other) }
{
    let first = factors.p.unsigned_abs() as u128 * bound as u128;
    let second = factors.q.unsigned_abs() as u128 * other as u128;
    let sum = first + second;
    if sum <= limit as u128 {
        Some(sum as u64)
    } else {
        None
    }
}
