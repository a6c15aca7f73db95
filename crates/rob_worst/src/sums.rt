//! Sums of products, term by term, and numbers with their negations: what costs and cuts are made of.

ghost use Rattle.std.specs.Prelude.{◌≡◌, ◌≤◌, ◌<◌, ◌-◌, ◌^◌, ◌+ℤ◌, ◌*ℤ◌, nat_abs, neg_ℤ, [], ◌∷◌, ◌++◌, OnOk, MatchOption};
ghost use Rattle.rob_algebra.specs.Width.{IsWideWhole};

use rob_number::fraction::long_product;
use rob_number::{Exact, List, Memory};

/// A sum and one product more, or none where that is over the limit.
pub fn added<N: Exact>(sum: i64, a: i64, b: i64) -> Option<i64>
    requires sum { nat_abs sum ≤ 2 ^ 62 - 1 }
    requires left { nat_abs a ≤ 2 ^ 62 - 1 }
    requires right { nat_abs b ≤ 2 ^ 62 - 1 }
    ensures sum { MatchOption result (IsWideWhole N.limit (sum +ℤ (a *ℤ b)))
        (λ z. (z ≡ sum +ℤ (a *ℤ b)) × (nat_abs z ≤ N.limit)) }
{
    let next = long_sum(sum, long_product(a, b));
    if next.unsigned_abs() <= N::LIMIT as u128 {
        Some(next as i64)
    } else {
        None
    }
}

/// The sum of a number of at most 62 bits and one of at most 124.
pub fn long_sum(a: i64, b: i128) -> i128
    requires left { nat_abs a < 2 ^ 62 }
    requires right { nat_abs b < 2 ^ 124 }
    ensures value { result ≡ a +ℤ b }
    ensures size { nat_abs result < 2 ^ 125 }
{
    a as i128 + b
}

/// Appends a number and its negation.
pub fn push_pair(list: &mut List<i64>, number: i64) -> Result<(), Memory>
    requires small { nat_abs number ≤ 2 ^ 62 - 1 }
    ensures pair { OnOk result (list.new ≡ list.old ++ number ∷ (neg_ℤ number ∷ [])) }
{
    list.push(number)?;
    list.push(-number)?;
    Ok(())
}
