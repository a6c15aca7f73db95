//! Combinations of two rows whose entries have at most 127 bits, as the sizes of the factors and of the entries show.

ghost use Rattle.std.specs.Prelude.{◌≡◌, ◌+◌, ◌*◌, ◌^◌, ◌<◌, ◌≤◌, ◌*ℤ◌, ◌-ℤ◌, nat_abs, IfSome, IfNone};

use crate::big::Big;
use crate::factors::Factors;
use crate::halves::product;

/// A bound on the entries of a combination of two rows, from one on the entries of each; nothing exactly where it is
/// over the limit.
pub fn bound_of(factors: Factors, bound: u128, other: u128, limit: u128) -> Option<u128>
    ensures bound { IfSome result (λ sum. sum
        ≡ nat_abs factors.p * bound + nat_abs factors.q * other) }
    ensures within { IfSome result (λ sum. sum ≤ limit) }
    ensures wide { IfNone result (limit < nat_abs factors.p * bound + nat_abs factors.q * other) }
{
    let first = product(factors.p.unsigned_abs(), bound);
    let second = product(factors.q.unsigned_abs(), other);
    let sum = first.plus(second);
    let most = Big {
        high: 0,
        low: limit,
    };
    if sum.is_at_most(most) {
        Some(sum.low)
    } else {
        None
    }
}

/// p * a - q * b, in 128 bits.
pub fn fused(factors: Factors, a: i128, b: i128) -> i128
    requires narrow { nat_abs factors.p * nat_abs a + nat_abs factors.q * nat_abs b < 2 ^ 127 }
    ensures value { result ≡ (factors.p *ℤ a) -ℤ (factors.q *ℤ b) }
{
    factors.p * a - factors.q * b
}
