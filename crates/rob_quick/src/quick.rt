//! Fractions of machine numbers, most of which are whole.
//!     a + b,   a - b,   a * b   of whole numbers are whole: their size alone decides whether they fit
//! Every other operation is that of `Frac<B>`.

ghost use Rattle.std.specs.Prelude.{◌≡◌, ◌^◌, ◌<◌, ◌↔◌, ◌+ℤ◌, ◌-ℤ◌, IsTrue, nat_abs, pos};
ghost use Rattle.rob_algebra.specs.Fraction.{of_int};
ghost use Rattle.rob_algebra.specs.Width.{kept};
ghost use Rattle.rob_number.specs.Answer.{answer};
ghost use Rattle.rob_number.specs.Counts.{CountsOne};
ghost use Rattle.rob_number.specs.Lowest.{limit_of};

use rob_number::{Exact, Frac, Ledger, Wide};
use std::cmp::Ordering;

/// An exact fraction in lowest terms, with the limit of `Frac<B>`. Whole numbers take a short path.
#[derive(Debug, Clone, Copy)]
pub struct Quick<const B: u32> {
    fraction: Frac<B>,
}

impl<const B: u32> Quick<B> {
    ghost use Rattle.rob_quick.specs.Value.{quick_value};

    fn is_whole(self) -> bool
        ensures whole { IsTrue result ↔ ((quick_value self.entry).den ≡ 1) }
    {
        self.fraction.den() == 1
    }

    /// The numerator, which is the number where it is whole.
    fn numerator(self) -> i64
        ensures value { result ≡ (quick_value self.entry).num }
        ensures size { nat_abs result < 2 ^ 62 }
    {
        self.fraction.num()
    }

    /// The sum of the numerators.
    fn sum(self, other: Self) -> i128
        ensures value { result ≡ (quick_value self.entry).num +ℤ (quick_value other.entry).num }
        ensures size { nat_abs result < 2 ^ 63 }
    {
        self.numerator() as i128 + other.numerator() as i128
    }

    /// The difference of the numerators.
    fn difference(self, other: Self) -> i128
        ensures value { result ≡ (quick_value self.entry).num -ℤ (quick_value other.entry).num }
        ensures size { nat_abs result < 2 ^ 63 }
    {
        self.numerator() as i128 - other.numerator() as i128
    }

    /// A whole number, as one counted operation.
    fn whole<L: Ledger>(num: i128, ledger: &mut L) -> Result<Self, Wide>
        ensures exact { answer quick_value result ≡ kept (limit_of B) (of_int num) }
        ensures counted { CountsOne L.ops L.wides ledger.old ledger.new result }
    {
        match Frac::from_whole(num, ledger) {
            Ok(fraction) => Ok(Quick { fraction }),
            Err(wide) => Err(wide),
        }
    }
}

impl<const B: u32> PartialEq for Quick<B> {
    ghost use Rattle.std.specs.Cmp.{on_per};
    ghost use Rattle.std.specs.Ordering.{on};
    ghost use Rattle.rob_algebra.specs.FractionOrder.{eq_ℚ, eq_ℚ-partial};
    ghost use Rattle.rob_quick.specs.Value.{quick_value};

    ghost eq = { on quick_value eq_ℚ };

    ghost laws = { on_per quick_value eq_ℚ-partial };

    fn eq(&self, other: &Self) -> bool {
        self.fraction == other.fraction
    }
}

impl<const B: u32> Eq for Quick<B> {
    ghost use Rattle.std.specs.Cmp.{on_equiv};
    ghost use Rattle.rob_algebra.specs.FractionOrder.{eq_ℚ-equiv};
    ghost use Rattle.rob_quick.specs.Value.{quick_value};

    ghost laws = { on_equiv quick_value eq_ℚ-equiv };
}

impl<const B: u32> PartialOrd for Quick<B> {
    ghost use Rattle.std.specs.Prelude.{Some, refl};
    ghost use Rattle.std.specs.Cmp.{po, on_total};
    ghost use Rattle.rob_algebra.specs.FractionOrder.{cmp_ℚ, cmp_ℚ-total};
    ghost use Rattle.rob_quick.specs.Value.{quick_value};

    ghost partial_cmp = { λ x y. Some (cmp_ℚ (quick_value x) (quick_value y)) };

    ghost laws = { po (on_total quick_value cmp_ℚ-total) (λ x y. refl) };

    fn partial_cmp(&self, other: &Self) -> Option<Ordering> {
        Some(self.cmp(other))
    }
}

impl<const B: u32> Ord for Quick<B> {
    ghost use Rattle.std.specs.Prelude.{refl};
    ghost use Rattle.std.specs.Cmp.{on_total};
    ghost use Rattle.std.specs.Ordering.{on};
    ghost use Rattle.rob_algebra.specs.FractionOrder.{cmp_ℚ, cmp_ℚ-total};
    ghost use Rattle.rob_quick.specs.Value.{quick_value};

    ghost cmp = { on quick_value cmp_ℚ };

    ghost total = { on_total quick_value cmp_ℚ-total };

    ghost matches_partial_cmp = { λ x y. refl };

    ghost matches_eq = { λ x y. refl };

    fn cmp(&self, other: &Self) -> Ordering {
        self.fraction.cmp(&other.fraction)
    }
}

impl<const B: u32> Exact for Quick<B> {
    ghost use Rattle.std.specs.Prelude.{refl};
    ghost use Rattle.rob_algebra.specs.FractionOrder.{eq_ℚ-decides, cmp_ℚ-ranks};
    ghost use Rattle.rob_number.specs.Frac.{value_of-fits, value_of-injective};
    ghost use Rattle.rob_number.specs.Lowest.{limit_of, limit_low, limit_high};
    ghost use Rattle.rob_quick.specs.Value.{quick_value};

    ghost value = { quick_value };

    ghost limit = { limit_of B };

    ghost LIMIT = { pos (limit_of B) };

    ghost injective = { λ x y e i. record { fraction = value_of-injective x.fraction y.fraction e i } };

    ghost fits = { λ x. value_of-fits x.fraction };

    ghost eq_means = { λ x y. eq_ℚ-decides (quick_value x) (quick_value y) };

    ghost cmp_means = { λ x y. cmp_ℚ-ranks (quick_value x) (quick_value y) };

    ghost limit_low = { limit_low B };

    ghost limit_high = { limit_high B };

    ghost limit_told = { refl };

    const LIMIT: i64 = Frac::<B>::LIMIT;

    fn from_parts<L: Ledger>(num: i64, den: i64, ledger: &mut L) -> Result<Self, Wide> {
        if den == 1 {
            return Self::whole(num as i128, ledger);
        }
        match Frac::from_parts(num, den, ledger) {
            Ok(fraction) => Ok(Quick { fraction }),
            Err(wide) => Err(wide),
        }
    }

    fn add<L: Ledger>(self, other: Self, ledger: &mut L) -> Result<Self, Wide> {
        if self.is_whole() && other.is_whole() {
            return Self::whole(self.sum(other), ledger);
        }
        match self.fraction.add(other.fraction, ledger) {
            Ok(fraction) => Ok(Quick { fraction }),
            Err(wide) => Err(wide),
        }
    }

    fn sub<L: Ledger>(self, other: Self, ledger: &mut L) -> Result<Self, Wide> {
        if self.is_whole() && other.is_whole() {
            return Self::whole(self.difference(other), ledger);
        }
        match self.fraction.sub(other.fraction, ledger) {
            Ok(fraction) => Ok(Quick { fraction }),
            Err(wide) => Err(wide),
        }
    }

    fn mul<L: Ledger>(self, other: Self, ledger: &mut L) -> Result<Self, Wide> {
        if self.is_whole() && other.is_whole() {
            return Self::whole(self.fraction.numerators(other.fraction), ledger);
        }
        match self.fraction.mul(other.fraction, ledger) {
            Ok(fraction) => Ok(Quick { fraction }),
            Err(wide) => Err(wide),
        }
    }

    fn div<L: Ledger>(self, other: Self, ledger: &mut L) -> Result<Self, Wide> {
        match self.fraction.div(other.fraction, ledger) {
            Ok(fraction) => Ok(Quick { fraction }),
            Err(wide) => Err(wide),
        }
    }

    fn neg(self) -> Self {
        Quick {
            fraction: self.fraction.neg(),
        }
    }

    fn sign(self) -> i32 {
        self.fraction.sign()
    }

    fn num(self) -> i64 {
        self.fraction.num()
    }

    fn den(self) -> i64 {
        self.fraction.den()
    }
}
