//! Fractions of machine numbers. A `Frac<B>` is kept in lowest terms, so that equal numbers have equal fields.
//!     a/b + c/d = (ad + cb) / bd,   a/b * c/d = ac / bd,   a/b < c/d where ad < cb
//! Numerators and denominators have at most 62 bits, so every product and sum here has less than 126.

ghost use Rattle.std.specs.Prelude.{◌≡◌, ◌≢◌, ◌+◌, ◌*◌, ◌/◌, ◌^◌, ◌<◌, ◌≤◌, ◌+ℤ◌, ◌*ℤ◌, ◌<ℤ◌, ◌≤ℤ◌, ℤ, pos, nat_abs};
ghost use Rattle.rob_algebra.specs.Gcd.{gcd};
ghost use Rattle.rob_algebra.specs.Fraction.{of_pair, of_int, ◌+ℚ◌, ◌*ℚ◌, neg_ℚ, inv_ℚ, sign_of};
ghost use Rattle.rob_algebra.specs.Width.{kept};
ghost use Rattle.rob_number.specs.Answer.{answer};
ghost use Rattle.rob_number.specs.Counts.{CountsOne};
ghost use Rattle.rob_number.specs.Lowest.{IsLowest, limit_of, with_sign};

use crate::exact::{Exact, Wide};
use crate::gcd::{gcd64, gcd128};
use crate::ledger::Ledger;
use std::cmp::Ordering;

/// An exact fraction in lowest terms whose numerator and denominator have at most `B` bits, for `B` from 8 to 62: their
/// limit is `2^B - 1`. For every other `B` they have at most 8 bits, and the limit is 255.
#[derive(Debug, Clone, Copy)]
pub struct Frac<const B: u32> {
    num: i64,
    den: i64,
    ghost lowest: { IsLowest (limit_of B) num den },
}

/// The product of two numbers of at most 62 bits.
#[inline(always)]
pub fn long_product(a: i64, b: i64) -> i128
    requires left { nat_abs a < 2 ^ 62 }
    requires right { nat_abs b < 2 ^ 62 }
    ensures value { result ≡ a *ℤ b }
    ensures size { nat_abs result < 2 ^ 124 }
{
    a as i128 * b as i128
}

/// Both numbers divided by their greatest common divisor, in 64 bits where they have no more.
#[tactic(auto, using(rob_algebra::specs::Gcd::gcd_pos))]
fn lowest(size: u128, den: u128) -> (u128, u128)
    requires positive { 0 < den }
    ensures size { result.0 ≡ size / gcd size den }
    ensures den { result.1 ≡ den / gcd size den }
{
    if size <= u64::MAX as u128 && den <= u64::MAX as u128 {
        let (short_size, short_den) = lowest64(size as u64, den as u64);
        (short_size as u128, short_den as u128)
    } else {
        let common = gcd128(size, den);
        (size / common, den / common)
    }
}

/// The same in 64 bits.
#[tactic(auto, using(rob_algebra::specs::Gcd::gcd_pos))]
fn lowest64(size: u64, den: u64) -> (u64, u64)
    requires positive { 0 < den }
    ensures size { result.0 ≡ size / gcd size den }
    ensures den { result.1 ≡ den / gcd size den }
{
    let common = gcd64(size, den);
    (size / common, den / common)
}

/// The size, with the sign of `like`.
fn signed(size: i64, like: i128) -> i64
    requires small { nat_abs size < 2 ^ 62 }
    requires positive { pos 0 ≤ℤ size }
    ensures value { result ≡ with_sign like (nat_abs size) }
{
    if like < 0 { -size } else { size }
}

/// -1 below 0, 0 at 0, 1 above 0.
fn sign_number(number: i64) -> i32
    ensures value { result ≡ sign_of number }
{
    number.signum() as i32
}

/// Counts one operation that had this outcome.
fn counted<T, L: Ledger>(outcome: Result<T, Wide>, ledger: &mut L) -> Result<T, Wide>
    ensures same { result ≡ outcome }
    ensures counted { CountsOne L.ops L.wides ledger.old ledger.new result }
{
    ledger.op();
    if outcome.is_err() {
        ledger.wide();
    }
    outcome
}

impl<const B: u32> Frac<B> {
    ghost use Rattle.rob_number.specs.Frac.{value_of};

    fn numerator(self) -> i64
        ensures value { result ≡ (value_of self.entry).num }
        ensures size { nat_abs result < 2 ^ 62 }
    {
        self.num
    }

    fn denominator(self) -> i64
        ensures value { result ≡ pos (value_of self.entry).den }
        ensures size { nat_abs result < 2 ^ 62 }
    {
        self.den
    }

    /// The product of the numerators, which is that of the numbers where they are whole.
    pub fn numerators(self, other: Self) -> i128
        ensures value { result ≡ (value_of self.entry).num *ℤ (value_of other.entry).num }
        ensures size { nat_abs result < 2 ^ 124 }
    {
        long_product(self.numerator(), other.numerator())
    }

    /// The product of the denominators.
    fn denominators(self, other: Self) -> u128
        ensures value { result ≡ (value_of self.entry).den * (value_of other.entry).den }
        ensures positive { 0 < result }
    {
        long_product(self.denominator(), other.denominator()) as u128
    }

    /// The numerator, over the product of the denominators in place of its own.
    fn cross(self, other: Self) -> i128
        ensures value { result ≡ (value_of self.entry).num *ℤ pos (value_of other.entry).den }
        ensures size { nat_abs result < 2 ^ 124 }
    {
        long_product(self.numerator(), other.denominator())
    }

    /// The numerator of the sum, over the product of the denominators.
    fn cross_sum(self, other: Self) -> i128
        ensures value { let x = value_of self.entry in let y = value_of other.entry in
            result ≡ x.num *ℤ pos y.den +ℤ y.num *ℤ pos x.den }
        ensures size { nat_abs result < 2 ^ 125 }
    {
        self.cross(other) + other.cross(self)
    }

    fn limit() -> u128
        ensures limit { result ≡ limit_of B }
    {
        Self::LIMIT as u128
    }

    /// `num / den` in lowest terms, where it fits.
    fn reduced(num: i128, den: u128) -> Result<Self, Wide>
        requires positive { 0 < den }
        ensures exact { answer value_of result ≡ kept (limit_of B) (of_pair num den) }
    {
        let (size, bottom) = lowest(num.unsigned_abs(), den);
        let limit = Self::limit();
        if size > limit || bottom > limit {
            return Err(Wide);
        }
        Ok(Frac {
            num: signed(size as i64, num),
            den: bottom as i64,
        })
    }

    /// A whole number, where it fits: it needs no greatest common divisor.
    fn whole(num: i128) -> Result<Self, Wide>
        ensures exact { answer value_of result ≡ kept (limit_of B) (of_int num) }
    {
        if num.unsigned_abs() > Self::limit() {
            Err(Wide)
        } else {
            Ok(Frac {
                num: num as i64,
                den: 1,
            })
        }
    }

    /// The whole number as one counted operation, with no search for a common divisor. `Wide` comes exactly where it
    /// is over the limit in size.
    pub fn from_whole<L: Ledger>(num: i128, ledger: &mut L) -> Result<Self, Wide>
        ensures exact { answer value_of result ≡ kept (limit_of B) (of_int num) }
        ensures counted { CountsOne L.ops L.wides ledger.old ledger.new result }
    {
        counted(Self::whole(num), ledger)
    }

    /// `num / den`, where it fits.
    fn of_parts(num: i64, den: i64) -> Result<Self, Wide>
        requires positive { pos 0 <ℤ den }
        ensures exact { answer value_of result ≡ kept (limit_of B) (of_pair num (nat_abs den)) }
    {
        Self::reduced(num as i128, den as u128)
    }

    /// The sum, where it fits.
    fn plus(self, other: Self) -> Result<Self, Wide>
        ensures exact { answer value_of result
            ≡ kept (limit_of B) (value_of self.entry +ℚ value_of other.entry) }
    {
        Self::reduced(self.cross_sum(other), self.denominators(other))
    }

    /// The product, where it fits.
    fn times(self, other: Self) -> Result<Self, Wide>
        ensures exact { answer value_of result
            ≡ kept (limit_of B) (value_of self.entry *ℚ value_of other.entry) }
    {
        Self::reduced(self.numerators(other), self.denominators(other))
    }

    /// The number with the other sign.
    fn negated(self) -> Self
        ensures value { value_of result ≡ neg_ℚ (value_of self.entry) }
    {
        Frac {
            num: -self.num,
            den: self.den,
        }
    }

    /// 1 divided by the number, which isn't 0.
    fn inverse(self) -> Self
        requires some { value_of self ≢ of_int (pos 0) }
        ensures value { value_of result ≡ inv_ℚ (value_of self.entry) }
    {
        Frac {
            num: signed(self.denominator(), self.numerator() as i128),
            den: self.numerator().abs(),
        }
    }
}

impl<const B: u32> PartialEq for Frac<B> {
    ghost use Rattle.std.specs.Cmp.{on_per};
    ghost use Rattle.std.specs.Ordering.{on};
    ghost use Rattle.rob_algebra.specs.FractionOrder.{eq_ℚ, eq_ℚ-partial};
    ghost use Rattle.rob_number.specs.Frac.{value_of};

    ghost eq = { on value_of eq_ℚ };

    ghost laws = { on_per value_of eq_ℚ-partial };

    fn eq(&self, other: &Self) -> bool {
        self.numerator() == other.numerator() && self.denominator() == other.denominator()
    }
}

impl<const B: u32> Eq for Frac<B> {
    ghost use Rattle.std.specs.Cmp.{on_equiv};
    ghost use Rattle.rob_algebra.specs.FractionOrder.{eq_ℚ-equiv};
    ghost use Rattle.rob_number.specs.Frac.{value_of};

    ghost laws = { on_equiv value_of eq_ℚ-equiv };
}

impl<const B: u32> PartialOrd for Frac<B> {
    ghost use Rattle.std.specs.Prelude.{Some, refl};
    ghost use Rattle.std.specs.Cmp.{po, on_total};
    ghost use Rattle.rob_algebra.specs.FractionOrder.{cmp_ℚ, cmp_ℚ-total};
    ghost use Rattle.rob_number.specs.Frac.{value_of};

    ghost partial_cmp = { λ x y. Some (cmp_ℚ (value_of x) (value_of y)) };

    ghost laws = { po (on_total value_of cmp_ℚ-total) (λ x y. refl) };

    fn partial_cmp(&self, other: &Self) -> Option<Ordering> {
        Some(self.cmp(other))
    }
}

impl<const B: u32> Ord for Frac<B> {
    ghost use Rattle.std.specs.Prelude.{refl};
    ghost use Rattle.std.specs.Cmp.{on_total};
    ghost use Rattle.std.specs.Ordering.{on};
    ghost use Rattle.rob_algebra.specs.FractionOrder.{cmp_ℚ, cmp_ℚ-total};
    ghost use Rattle.rob_number.specs.Frac.{value_of};

    ghost cmp = { on value_of cmp_ℚ };

    ghost total = { on_total value_of cmp_ℚ-total };

    ghost matches_partial_cmp = { λ x y. refl };

    ghost matches_eq = { λ x y. refl };

    fn cmp(&self, other: &Self) -> Ordering {
        self.cross(*other).cmp(&other.cross(*self))
    }
}

impl<const B: u32> Exact for Frac<B> {
    ghost use Rattle.std.specs.Prelude.{refl};
    ghost use Rattle.rob_algebra.specs.FractionOrder.{eq_ℚ-decides, cmp_ℚ-ranks};
    ghost use Rattle.rob_number.specs.Frac.{value_of, value_of-fits, value_of-injective};
    ghost use Rattle.rob_number.specs.Lowest.{limit_low, limit_high};

    ghost value = { value_of };

    ghost limit = { limit_of B };

    ghost LIMIT = { pos (limit_of B) };

    ghost injective = { value_of-injective };

    ghost fits = { value_of-fits };

    ghost eq_means = { λ x y. eq_ℚ-decides (value_of x) (value_of y) };

    ghost cmp_means = { λ x y. cmp_ℚ-ranks (value_of x) (value_of y) };

    ghost limit_low = { limit_low B };

    ghost limit_high = { limit_high B };

    ghost limit_told = { refl };

    const LIMIT: i64 = if 8 <= B && B <= 62 { (1 << B) - 1 } else { 255 };

    fn from_parts<L: Ledger>(num: i64, den: i64, ledger: &mut L) -> Result<Self, Wide> {
        counted(Self::of_parts(num, den), ledger)
    }

    fn add<L: Ledger>(self, other: Self, ledger: &mut L) -> Result<Self, Wide> {
        counted(self.plus(other), ledger)
    }

    fn sub<L: Ledger>(self, other: Self, ledger: &mut L) -> Result<Self, Wide> {
        counted(self.plus(other.negated()), ledger)
    }

    fn mul<L: Ledger>(self, other: Self, ledger: &mut L) -> Result<Self, Wide> {
        counted(self.times(other), ledger)
    }

    fn div<L: Ledger>(self, other: Self, ledger: &mut L) -> Result<Self, Wide> {
        counted(self.times(other.inverse()), ledger)
    }

    fn neg(self) -> Self {
        self.negated()
    }

    fn sign(self) -> i32 {
        sign_number(self.numerator())
    }

    fn num(self) -> i64 {
        self.num
    }

    fn den(self) -> i64 {
        self.den
    }
}
