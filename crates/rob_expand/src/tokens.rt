//! The tokens of numbers, of bounds and of what stands around an expression.

ghost use Rattle.std.specs.Prelude.{ℕ, ◌≡◌, ◌≤◌};
ghost use Rattle.rob_index.specs.Counting as counting;
ghost use Rattle.std.specs.Option.{option_map};
ghost use Rattle.rob_syntax.specs.Seen.{seen_numeral, seen_signed, seen_bounds, seen_over};

use rob_syntax::syntax::{Bounds, Numeral, Ref, Signed};

/// The tokens of a number: one where it is whole, and three as it is written where it doesn't fit.
pub fn number_tokens(limit: u64, number: Numeral) -> u32
    ensures tokens { result ≡ counting.number_tokens limit (seen_numeral number) }
    ensures few { result ≤ 3 }
{
    let Some(divisor) = number.divisor else {
        return 1;
    };
    if divisor == 0 || divisor > limit || number.numerator > limit {
        return 3;
    }
    if number.numerator % divisor == 0 {
        1
    } else {
        3
    }
}

/// Whether the number's digits are within the limit, and its divisor isn't 0.
fn fits(limit: u64, number: Numeral) -> bool
    ensures fits { result ≡ counting.fits limit (seen_numeral number) }
{
    match number.divisor {
        None => number.numerator <= limit,
        Some(divisor) => number.numerator <= limit && divisor <= limit && divisor != 0,
    }
}

/// The tokens of a number with its sign.
pub fn signed_tokens(limit: u64, signed: Signed) -> u32
    ensures tokens { result ≡ counting.signed_tokens limit (seen_signed signed) }
    ensures few { result ≤ 4 }
{
    let number = number_tokens(limit, signed.number);
    if signed.minus && !(fits(limit, signed.number) && signed.number.numerator == 0) {
        1 + number
    } else {
        number
    }
}

/// The tokens of bounds, if they are there.
pub fn bounds_tokens(limit: u64, bounds: Option<Bounds>) -> u32
    ensures tokens { result ≡ counting.bounds_tokens limit (option_map seen_bounds bounds) }
    ensures few { result ≤ 12 }
{
    match bounds {
        None => 0,
        Some(Bounds::Between(both)) => {
            4 + (signed_tokens(limit, both.lower) + signed_tokens(limit, both.upper))
        }
        Some(Bounds::AtLeast(lower)) => 1 + signed_tokens(limit, lower),
        Some(Bounds::AtMost(upper)) => 1 + signed_tokens(limit, upper),
    }
}

/// The tokens of `over` and a name, if they are there.
pub fn over_tokens(over: &Option<Ref>) -> u32
    ensures tokens { (limit : ℕ) → result ≡ counting.over_tokens limit (seen_over over.now) }
    ensures few { result ≤ 2 }
{
    match over {
        Some(_) => 2,
        None => 0,
    }
}
