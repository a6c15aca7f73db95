//! Greatest common divisors, and division by one number many times.
//!
//! A quotient that is known to be whole is the product with the divisor's inverse modulo 2^64, if it is below 2^64; a
//! common factor 2^k is shifted out first. (Granlund and Montgomery, Division by Invariant Integers using
//! Multiplication, 1994, section 9.) The product is taken as a guess that one more product confirms, so nothing rests
//! on the inverse; where the guess is wrong the division is done.

ghost use Rattle.std.specs.Prelude.{◌≡◌, ◌*◌, ◌^◌, ◌<◌, ◌↔◌, IsTrue, IfSome};
ghost use Rattle.std.specs.Int.{◌∣◌};
ghost use Rattle.rob_algebra.specs.Gcd.{gcd};

use rob_number::gcd128;

/// A number to divide by, with what makes division by it quick.
#[derive(Clone, Copy, Drop)]
pub struct Divisor {
    value: u128,
    shift: u32,
    inverse: u64,
    ghost shift_in: { shift < 64 },
}

impl Divisor {
    /// The number, 0 included.
    pub fn new(value: u128) -> Divisor
        ensures value { result.value ≡ value }
    {
        let shift = value.trailing_zeros().min(63);
        Divisor {
            value,
            shift,
            inverse: inverse_of(low_half(value >> shift)),
        }
    }

    /// The number.
    pub fn value(self) -> u128
        ensures value { result ≡ self.value }
    {
        self.value
    }

    /// The quotient, where it is guessed right.
    fn guess(self, whole: u128) -> Option<u128>
        ensures quotient { IfSome result (λ quotient. self.value * quotient ≡ whole) }
    {
        if self.value > u64::MAX as u128 {
            return None;
        }
        let guess = low_half(whole >> self.shift).wrapping_mul(self.inverse) as u128;
        if self.value * guess == whole {
            Some(guess)
        } else {
            None
        }
    }

    /// Whether the number divides the other one. Each number divides 0.
    pub fn divides(self, whole: u128) -> bool
        ensures divides { IsTrue result ↔ (self.value ∣ whole) }
    {
        if whole == 0 {
            return true;
        }
        if self.value == 0 {
            return false;
        }
        self.guess(whole).is_some() || whole % self.value == 0
    }

    /// The other number over this one, which divides it.
    pub fn quotient(self, whole: u128) -> u128
        requires positive { 0 < self.value }
        requires divides { self.value ∣ whole }
        ensures quotient { self.value * result ≡ whole }
    {
        match self.guess(whole) {
            Some(quotient) => quotient,
            None => whole / self.value,
        }
    }

    /// The greatest common divisor of this number and the other one.
    pub fn common(self, whole: u128) -> Divisor
        ensures common { result.value ≡ gcd self.value whole }
    {
        if self.divides(whole) {
            self
        } else {
            Divisor::new(gcd128(self.value, whole))
        }
    }
}

/// The last 64 bits.
fn low_half(x: u128) -> u64 {
    (x % (1 << 64)) as u64
}

/// The inverse of an odd number modulo 2^64, by Newton's iteration: each step doubles the number of right bits, of
/// which the start has five.
fn inverse_of(odd: u64) -> u64 {
    let mut inverse = odd.wrapping_mul(3) ^ 2;
    for _ in 0..4 {
        let error = odd.wrapping_mul(inverse);
        inverse = inverse.wrapping_mul(2u64.wrapping_sub(error));
    }
    inverse
}
