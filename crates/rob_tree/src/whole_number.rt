//! Whole numbers among the exact numbers: floors, ceilings, and the size of a range.

ghost use Rattle.std.specs.Prelude.{◌≡◌, ◌≤◌, ◌<ℤ◌, pos, nat_abs};
ghost use Rattle.std.specs.Bool.{Decides};
ghost use Rattle.rob_algebra.specs.Fraction.{of_int};
ghost use Rattle.rob_reach.specs.WholeNumbers as whole;

use rob_number::{Exact, Tally};

/// `num / den` rounded down.
fn rounded_down(num: i64, den: i64) -> i64
    requires denominator { pos 0 <ℤ den }
    ensures quotient { result ≡ whole.rounded_down num (nat_abs den) }
{
    if num >= 0 {
        num / den
    } else {
        -1 - (-1 - num) / den
    }
}

/// The greatest whole number that is at most the number.
pub fn floor<N: Exact>(x: N) -> i64
    ensures floor { result ≡ whole.floor (N.value x) }
    ensures within { nat_abs result ≤ N.limit }
{
    rounded_down(x.num(), x.den())
}

/// The least whole number that is at least the number.
pub fn ceiling<N: Exact>(x: N) -> i64
    ensures ceiling { result ≡ whole.ceiling (N.value x) }
    ensures within { nat_abs result ≤ N.limit }
{
    -rounded_down(-x.num(), x.den())
}

/// Whether the number is whole.
pub fn is_whole<N: Exact>(x: N) -> bool
    ensures test { Decides result (whole.IsWhole (N.value x)) }
{
    x.den() == 1
}

/// How many whole numbers there are from the floor of the lower bound to the ceiling of the upper one, or 1 where that
/// is less.
pub fn range<N: Exact>(lower: N, upper: N) -> u64
    ensures range { result ≡ whole.range (N.value lower) (N.value upper) }
{
    let steps = ceiling(upper) - floor(lower);
    if steps < 0 { 1 } else { steps as u64 + 1 }
}

/// A whole number within the limit, as an exact number.
pub fn whole_number<N: Exact>(number: i64) -> N
    requires within { nat_abs number ≤ N.limit }
    ensures value { N.value result ≡ of_int number }
{
    N::from_parts(number, 1, &mut Tally::new()).unwrap()
}
