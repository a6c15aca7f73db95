//! A ray in whole numbers. Its least common denominator is no number of the cut, so it may be over the limit where the
//! cleared numbers are not.

ghost use Rattle.std.specs.Prelude.{◌≡◌, ◌≤◌, ◌<◌, ◌*◌, ◌/◌, ◌^◌, pos, ◌*ℤ◌, ◌<ℤ◌, nat_abs, map, IfOk, IfErr, MatchOption};
ghost use Rattle.rob_algebra.specs.Width.{IsWideWhole};
ghost use Rattle.rob_meaning.specs.Clearing.{lcm, denominator, whole_at};
ghost use Rattle.rob_meaning.specs.Places.{Each};
ghost use Rattle.rob_runs.specs.Cuts.{wholes};
ghost use Rattle.rob_runs.specs.Spots.{SomeWide};
ghost use Rattle.rob_sets.specs.Stops.{StopsFor};

use rob_number::{Exact, List, gcd128};
use rob_sets::error::Stop;
use std::alloc::Global;

/// The product of two numbers, or none where it is over 2^124.
fn product_within(a: u128, b: u128) -> Option<u128>
    ensures product { MatchOption result (2 ^ 124 < a * b) (λ n. (n ≡ a * b) × (n ≤ 2 ^ 124)) }
{
    if a == 0 {
        return Some(0);
    }
    if b <= (1u128 << 124) / a {
        Some(a * b)
    } else {
        None
    }
}

/// The least common multiple of two positive numbers, or none where it is over 2^124.
fn common_multiple(a: u64, b: u128) -> Option<u128>
    requires positive { 0 < b }
    ensures multiple { MatchOption result (2 ^ 124 < lcm a b) (λ n. (n ≡ lcm a b) × (n ≤ 2 ^ 124)) }
{
    let divisor = gcd128(a as u128, b);
    product_within(a as u128 / divisor, b)
}

/// The least common denominator, or none where it is over 2^124, which is over the square of each limit.
fn common_denominator<N: Exact>(ray: &[N]) -> Option<u128>
    ensures least { MatchOption result (2 ^ 124 < denominator (map N.value ray.now))
        (λ d. (d ≡ denominator (map N.value ray.now)) × (d ≤ 2 ^ 124)) }
{
    let mut least = 1u128;
    for q in ray {
        match common_multiple(q.den() as u64, least) {
            Some(multiple) => least = multiple,
            None => return None,
        }
    }
    Some(least)
}

/// How often a denominator goes into a common one.
fn quotient(common: u128, denominator: i64) -> u128
    requires positive { pos 0 <ℤ denominator }
    ensures value { result ≡ common / nat_abs denominator }
{
    common / denominator as u64 as u128
}

/// The product of two numbers of at most 62 bits.
fn product(a: i64, b: u128) -> i128
    requires left { nat_abs a < 2 ^ 62 }
    requires right { b < 2 ^ 62 }
    ensures value { result ≡ a *ℤ pos b }
    ensures size { nat_abs result < 2 ^ 124 }
{
    a as i128 * b as i128
}

/// A number times a denominator that makes it whole, or none where that is over the limit.
fn whole<N: Exact>(q: N, common: u128) -> Option<i64>
    ensures whole { MatchOption result (IsWideWhole N.limit (whole_at common (N.value q)))
        (λ z. (z ≡ whole_at common (N.value q)) × (nat_abs z ≤ N.limit)) }
{
    let times = quotient(common, q.den());
    if q.num() == 0 {
        return Some(0);
    }
    if times > N::LIMIT as u128 {
        return None;
    }
    let number = product(q.num(), times);
    if number.unsigned_abs() <= N::LIMIT as u128 {
        Some(number as i64)
    } else {
        None
    }
}

/// The ray times its least common denominator.
pub fn clear_ray<N: Exact>(alloc: Global, ray: &[N]) -> Result<List<i64>, Stop>
    ensures cleared { IfOk result (λ list. list ≡ wholes (map N.value ray.now)) }
    ensures fits { IfOk result (λ list. Each (λ a. nat_abs a ≤ N.limit) list) }
    ensures wide { IfErr result (StopsFor (SomeWide N.limit (wholes (map N.value ray.now)))) }
{
    let Some(common) = common_denominator(ray) else {
        return Err(Stop::Wide);
    };
    let mut list = List::new(alloc);
    for q in ray {
        match whole(*q, common) {
            Some(number) => list.push(number)?,
            None => return Err(Stop::Wide),
        }
    }
    Ok(list)
}
