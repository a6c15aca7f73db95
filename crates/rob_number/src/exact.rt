//! Exact numbers: fractions whose numerator and denominator are bounded, with every operation exact or refused.

ghost use Rattle.std.specs.Prelude.{◌≡◌, ◌≢◌, ◌-◌, ◌^◌, ◌<◌, ◌≤◌, ℕ, ℤ, pos, nat_abs, ◌<ℤ◌, ◌↔◌};
ghost use Rattle.std.specs.Bool.{Decides};
ghost use Rattle.std.specs.Ordering.{MatchOrdering};
ghost use Rattle.rob_algebra.specs.Fraction.{Fraction, of_pair, of_int, ◌+ℚ◌, ◌-ℚ◌, ◌*ℚ◌, ◌/ℚ◌, neg_ℚ, sign_ℚ, ◌<ℚ◌};
ghost use Rattle.rob_algebra.specs.Width.{Fits, kept};
ghost use Rattle.rob_number.specs.Answer.{answer};
ghost use Rattle.rob_number.specs.Counts.{CountsOne, NeverFell};

use crate::ledger::Ledger;

/// The exact result is wide: in lowest terms, the size of its numerator or its denominator is over the limit.
#[derive(Debug, PartialEq, Eq, Clone, Copy)]
pub struct Wide;

/// Fractions whose numerator and denominator, in lowest terms, are at most `LIMIT` in size. An operation answers the
/// exact fraction where that fits, and `Wide` exactly where it doesn't. No call takes memory.
pub trait Exact: Copy + Eq + Ord {
    /// The fraction that a number is.
    ghost value: { Self → Fraction };

    /// The largest size of a numerator or denominator.
    ghost limit: { ℕ };

    /// The same, as the constant that code reads.
    ghost LIMIT: { ℤ };

    /// The largest size of a numerator or denominator, from 1 to 2^62 - 1.
    const LIMIT: i64;

    /// The fraction `num / den`, which needs no lowest terms. `den` is above 0.
    fn from_parts<L: Ledger>(num: i64, den: i64, ledger: &mut L) -> Result<Self, Wide>
        requires denominator { pos 0 <ℤ den }
        ensures exact { answer value result ≡ kept limit (of_pair num (nat_abs den)) }
        ensures counted { CountsOne L.ops L.wides ledger.old ledger.new result };

    /// The sum.
    fn add<L: Ledger>(self, other: Self, ledger: &mut L) -> Result<Self, Wide>
        ensures exact { answer value result ≡ kept limit (value self +ℚ value other) }
        ensures counted { CountsOne L.ops L.wides ledger.old ledger.new result };

    /// The difference `self - other`.
    fn sub<L: Ledger>(self, other: Self, ledger: &mut L) -> Result<Self, Wide>
        ensures exact { answer value result ≡ kept limit (value self -ℚ value other) }
        ensures counted { CountsOne L.ops L.wides ledger.old ledger.new result };

    /// The product.
    fn mul<L: Ledger>(self, other: Self, ledger: &mut L) -> Result<Self, Wide>
        ensures exact { answer value result ≡ kept limit (value self *ℚ value other) }
        ensures counted { CountsOne L.ops L.wides ledger.old ledger.new result };

    /// The quotient `self / other`. `other` isn't 0.
    fn div<L: Ledger>(self, other: Self, ledger: &mut L) -> Result<Self, Wide>
        requires divisor { value other ≢ of_int (pos 0) }
        ensures exact { answer value result ≡ kept limit (value self /ℚ value other) }
        ensures counted { CountsOne L.ops L.wides ledger.old ledger.new result };

    /// The number with the other sign. It is no operation of the ledger, since it is never wide.
    fn neg(self) -> Self
        ensures negation { value result ≡ neg_ℚ (value self) };

    /// -1 below 0, 0 at 0, 1 above 0.
    fn sign(self) -> i32
        ensures sign { result ≡ sign_ℚ (value self) }
        ensures below { (result <ℤ pos 0) ↔ (value self <ℚ of_int (pos 0)) }
        ensures zero { (result ≡ pos 0) ↔ (value self ≡ of_int (pos 0)) }
        ensures above { (pos 0 <ℤ result) ↔ (of_int (pos 0) <ℚ value self) };

    /// The numerator, in lowest terms.
    fn num(self) -> i64
        ensures numerator { result ≡ (value self).num }
        ensures within { nat_abs result ≤ limit };

    /// The denominator, in lowest terms, at least 1.
    fn den(self) -> i64
        ensures denominator { result ≡ pos (value self).den }
        ensures within { nat_abs result ≤ limit }
        ensures positive { pos 0 <ℤ result };

    // ---- laws
    /// The numbers are the fractions that fit, each once.
    ghost injective: { (x y : Self) → value x ≡ value y → x ≡ y };

    ghost fits: { (x : Self) → Fits limit (value x) };

    /// `==` is equality of the fractions, and the order is theirs.
    ghost eq_means: { (x y : Self) → Decides (Self.eq x y) (value x ≡ value y) };

    ghost cmp_means: { (x y : Self) → MatchOrdering (Self.cmp x y)
        (value x <ℚ value y) (value x ≡ value y) (value y <ℚ value x) };

    /// The limit has at least 1 and at most 62 bits, and `LIMIT` is it.
    ghost limit_low: { 1 ≤ limit };

    ghost limit_high: { limit ≤ 2 ^ 62 - 1 };

    ghost limit_told: { LIMIT ≡ pos limit };
}

/// The fraction of two whole numbers. It fits, since they do.
pub fn fraction<N: Exact, L: Ledger>(numerator: u64, denominator: u64, ledger: &mut L) -> N
    requires numerator { numerator ≤ N.limit }
    requires denominator { denominator ≤ N.limit }
    requires positive { 0 < denominator }
    ensures value { N.value result ≡ of_pair (pos numerator) denominator }
    ensures counted { NeverFell L.ops L.wides ledger.old ledger.new }
{
    match N::from_parts(numerator as i64, denominator as i64, ledger) {
        Ok(number) => number,
        Err(_) => unreachable!(),
    }
}
