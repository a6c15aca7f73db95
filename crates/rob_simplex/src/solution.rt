//! The numbers that the last rows show.

ghost use Rattle.std.specs.Prelude.{◌≡◌, ◌≤◌, ◌-◌, ◌^◌, ◌<ℤ◌, pos, nat_abs, MatchOption};
ghost use Rattle.std.specs.Bool.{OnTrue, OnFalse};
ghost use Rattle.rob_algebra.specs.Fraction.{of_pair};
ghost use Rattle.rob_algebra.specs.Width.{Fits, IsWide};
ghost use Rattle.rob_simplex.specs.Judging.{AreShortParts};

use rob_entries::Entry;
use rob_number::{Exact, Tally};

/// Two numbers of 62 bits with the quotient of two others, if there are such.
fn short_parts<E: Entry>(numerator: E, denominator: E) -> Option<(i64, i64)>
    requires numerator { nat_abs (E.value numerator) ≤ E.top }
    requires denominator { nat_abs (E.value denominator) ≤ E.top }
    requires positive { pos 0 <ℤ E.value denominator }
    ensures parts { MatchOption result
        (IsWide (2 ^ 62 - 1) (of_pair (E.value numerator) (nat_abs (E.value denominator))))
        (λ parts. AreShortParts (E.value numerator) (E.value denominator) parts.0 parts.1) }
{
    match (numerator.whole(), denominator.whole()) {
        (Some(p), Some(q)) => return Some((p, q)),
        _ => {}
    }
    let (first, second) = E::lowest(numerator, denominator);
    match (first.whole(), second.whole()) {
        (Some(p), Some(q)) => Some((p, q)),
        _ => None,
    }
}

/// One number over another, if it fits.
fn divided<N: Exact, E: Entry>(numerator: E, denominator: E) -> Option<N>
    requires numerator { nat_abs (E.value numerator) ≤ E.top }
    requires denominator { nat_abs (E.value denominator) ≤ E.top }
    requires positive { pos 0 <ℤ E.value denominator }
    ensures exact { MatchOption result
        (IsWide N.limit (of_pair (E.value numerator) (nat_abs (E.value denominator))))
        (λ quotient. (N.value quotient ≡ of_pair (E.value numerator) (nat_abs (E.value denominator)))
        × Fits N.limit (of_pair (E.value numerator) (nat_abs (E.value denominator)))) }
{
    match short_parts(numerator, denominator) {
        None => None,
        Some((p, q)) => match N::from_parts(p, q, &mut Tally::new()) {
            Ok(quotient) => Some(quotient),
            Err(_) => None,
        },
    }
}

/// One number over another, whose quotient fits.
pub fn quotient<N: Exact, E: Entry>(numerator: E, denominator: E) -> N
    requires numerator { nat_abs (E.value numerator) ≤ E.top }
    requires denominator { nat_abs (E.value denominator) ≤ E.top }
    requires positive { pos 0 <ℤ E.value denominator }
    requires fits { Fits N.limit (of_pair (E.value numerator) (nat_abs (E.value denominator))) }
    ensures value { N.value result ≡ of_pair (E.value numerator) (nat_abs (E.value denominator)) }
{
    divided::<N, E>(numerator, denominator).unwrap()
}

/// Whether the quotient of two numbers fits. That of two that fit does.
pub fn fits<N: Exact, E: Entry>(numerator: E, denominator: E) -> bool
    requires numerator { nat_abs (E.value numerator) ≤ E.top }
    requires denominator { nat_abs (E.value denominator) ≤ E.top }
    requires positive { pos 0 <ℤ E.value denominator }
    ensures fits { OnTrue result (Fits N.limit
        (of_pair (E.value numerator) (nat_abs (E.value denominator)))) }
    ensures wide { OnFalse result (IsWide N.limit
        (of_pair (E.value numerator) (nat_abs (E.value denominator)))) }
{
    let limit = N::LIMIT as u128;
    if numerator.size() <= limit {
        if denominator.size() <= limit {
            return true;
        }
    }
    divided::<N, E>(numerator, denominator).is_some()
}
