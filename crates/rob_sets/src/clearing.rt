//! Fractions times their least common denominator.

ghost use Rattle.std.specs.Prelude.{◌≡◌, ◌≤◌, ◌<◌, ◌/◌, ◌^◌, pos, ◌<ℤ◌, nat_abs, map, OnOk, IfOk, IfErr, MatchOption};
ghost use Rattle.rob_algebra.specs.Width.{IsWideWhole};
ghost use Rattle.rob_number.specs.Counts.{Rose, NeverFell};
ghost use Rattle.rob_meaning.specs.Clearing.{lcm, denominator as common_denominator, whole_at};
ghost use Rattle.rob_meaning.specs.Places.{Each};
ghost use Rattle.rob_sets.specs.FirstWide.{Some_of, IsWideCleared};
ghost use Rattle.rob_sets.specs.Stops.{StopsFor};

use crate::error::Stop;
use rob_number::fraction::long_product;
use rob_number::{Exact, Ledger, List, gcd128};
use std::alloc::Global;

/// The least common multiple of two numbers above 0, or none where it is over the limit.
pub fn common_multiple(a: u64, b: u64, limit: u64) -> Option<u64>
    requires positive { 0 < b }
    ensures multiple { MatchOption result (limit < lcm a b) (λ n. (n ≡ lcm a b) × (n ≤ limit)) }
{
    let divisor = gcd128(a as u128, b as u128);
    let multiple = (a as u128 / divisor) * b as u128;
    if multiple <= limit as u128 {
        Some(multiple as u64)
    } else {
        None
    }
}

/// The least common multiple of a common denominator and of the denominator of one number more, or none where it is
/// over the limit. It takes one greatest common divisor of machine numbers.
pub fn with_number<N: Exact>(common: u64, q: N) -> Option<u64>
    requires positive { 0 < common }
    ensures multiple { MatchOption result (N.limit < lcm (N.value q).den common)
        (λ d. (d ≡ lcm (N.value q).den common) × (d ≤ N.limit)) }
{
    common_multiple(q.den() as u64, common, N::LIMIT as u64)
}

/// The least common denominator, or none where it is over the limit.
pub fn denominator<N: Exact>(numbers: &[N]) -> Option<u64>
    ensures least { MatchOption result (N.limit < common_denominator (map N.value numbers.now))
        (λ d. (d ≡ common_denominator (map N.value numbers.now)) × (d ≤ N.limit)) }
{
    let mut least: u64 = 1;
    for q in numbers {
        match with_number(least, *q) {
            Some(multiple) => least = multiple,
            None => return None,
        }
    }
    Some(least)
}

/// How often a denominator goes into a common one.
fn quotient(common: u64, denominator: i64) -> i64
    requires within { common < 2 ^ 62 }
    requires positive { pos 0 <ℤ denominator }
    ensures value { result ≡ pos (common / nat_abs denominator) }
    ensures size { nat_abs result < 2 ^ 62 }
{
    (common / denominator as u64) as i64
}

/// A number times a denominator that makes it whole, or none where that is over the limit.
pub fn whole<N: Exact>(q: N, common: u64) -> Option<i64>
    requires within { common ≤ N.limit }
    ensures whole { MatchOption result (IsWideWhole N.limit (whole_at common (N.value q)))
        (λ z. (z ≡ whole_at common (N.value q)) × (nat_abs z ≤ N.limit)) }
{
    let times = quotient(common, q.den());
    let number = long_product(q.num(), times);
    if number.unsigned_abs() <= N::LIMIT as u128 {
        Some(number as i64)
    } else {
        None
    }
}

/// The numbers times a denominator that makes them whole.
pub fn cleared<N: Exact, L: Ledger>(
    alloc: Global,
    numbers: &[N],
    common: u64,
    ledger: &mut L,
) -> Result<List<i64>, Stop>
    requires within { common ≤ N.limit }
    ensures cleared { IfOk result (λ list. list ≡ map (whole_at common) (map N.value numbers.now)) }
    ensures fits { IfOk result (λ list. Each (λ a. nat_abs a ≤ N.limit) list) }
    ensures wide { IfErr result (StopsFor (Rose (L.wides ledger.old) (L.wides ledger.new)
        × Some_of (λ q. IsWideWhole N.limit (whole_at common q)) (map N.value numbers.now))) }
    ensures counted { NeverFell L.ops L.wides ledger.old ledger.new }
{
    let mut list = List::new(alloc);
    for q in numbers {
        match whole(*q, common) {
            Some(number) => list.push(number)?,
            None => {
                ledger.wide();
                return Err(Stop::Wide);
            }
        }
    }
    Ok(list)
}

/// The numbers times their least common denominator.
pub fn clear<N: Exact, L: Ledger>(
    alloc: Global,
    numbers: &[N],
    ledger: &mut L,
) -> Result<List<i64>, Stop>
    ensures cleared { IfOk result (λ list. list
        ≡ map (whole_at (common_denominator (map N.value numbers.now))) (map N.value numbers.now)) }
    ensures fits { IfOk result (λ list. Each (λ a. nat_abs a ≤ N.limit) list) }
    ensures not_wide { OnOk result (IsWideCleared N.limit (map N.value numbers.now) → ⊥) }
    ensures wide { IfErr result (StopsFor (Rose (L.wides ledger.old) (L.wides ledger.new)
        × IsWideCleared N.limit (map N.value numbers.now))) }
    ensures counted { NeverFell L.ops L.wides ledger.old ledger.new }
{
    match denominator(numbers) {
        Some(common) => cleared(alloc, numbers, common, ledger),
        None => {
            ledger.wide();
            Err(Stop::Wide)
        }
    }
}
