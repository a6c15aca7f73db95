//! Forms over two values at most, whose factors have few bits, and whose other numbers have at most 79.

ghost use Rattle.std.specs.Prelude.{◌≡◌, ◌≤◌, ◌^◌, ◌+ℤ◌, ◌*ℤ◌, ℤ, pos, List as Items, nat_abs, IfSome};
ghost use Rattle.rob_index.specs.Forms.{value_of};
ghost use Rattle.rob_ranges.specs.DigitLists.{wide_of};
ghost use Rattle.rob_ranges.specs.Shorts.{first_of, second_of, short_value};

use crate::digits::Wide;
use crate::form::Form;
use crate::whole::Whole;

/// Two values, the innermost first; 0 stands for one that isn't there.
#[derive(Clone, Copy)]
pub struct Pair {
    pub first: Wide,
    pub second: Wide,
}

/// No number.
const ZERO: Wide = Wide { low: 0, high: 0 };

/// A constant, and the factors of two values.
#[derive(Clone, Copy)]
pub struct Short {
    pub constant: Wide,
    pub first: i32,
    pub second: i32,
}

/// The two innermost values, where each has at most 79 bits.
#[inline(always)]
pub fn pair_of(values: &[Whole]) -> Option<Pair>
    ensures pair { IfSome result (λ pair.
        (wide_of pair.first ≡ first_of values.now) × (wide_of pair.second ≡ second_of values.now)) }
{
    match values {
        [] => Some(Pair {
            first: ZERO,
            second: ZERO,
        }),
        [first] => Some(Pair {
            first: first.wide()?,
            second: ZERO,
        }),
        [first, second, ..] => Some(Pair {
            first: first.wide()?,
            second: second.wide()?,
        }),
    }
}

/// The form with such numbers, if it is one.
pub fn short_of(form: &Form) -> Option<Short>
    ensures same { IfSome result (λ short. (xs : Items ℤ) → value_of form.now xs
        ≡ short_value short xs) }
{
    let constant = form.constant().wide()?;
    match form.factors() {
        [] => Some(Short {
            constant,
            first: 0,
            second: 0,
        }),
        [first] => Some(Short {
            constant,
            first: few_bits(first)?,
            second: 0,
        }),
        [first, second] => Some(Short {
            constant,
            first: few_bits(first)?,
            second: few_bits(second)?,
        }),
        _ => None,
    }
}

/// A number of 32 bits, if it is one.
fn few_bits(number: &Whole) -> Option<i32>
    ensures few { IfSome result (λ few. number.now ≡ few) }
{
    i32::try_from(number.single()?).ok()
}

impl Short {
    /// The form's value.
    #[inline(always)]
    pub fn value(self, values: Pair) -> i128
        ensures value { result ≡ (wide_of self.constant +ℤ (self.first *ℤ wide_of values.first))
            +ℤ (self.second *ℤ wide_of values.second) }
    {
        let constant = self.constant.value();
        let first = product(self.first, values.first);
        let second = product(self.second, values.second);
        constant + first + second
    }
}

/// `a * b`. Where the second digit of `b` is 0, the first alone is multiplied.
#[inline(always)]
fn product(a: i32, b: Wide) -> i128
    ensures value { result ≡ a *ℤ wide_of b }
    ensures size { nat_abs result ≤ 2 ^ 111 }
{
    if b.high == 0 {
        low_product(a, b)
    } else {
        wide_product(a, b)
    }
}

/// `a * b`, where the second digit of `b` is 0.
#[inline(always)]
fn low_product(a: i32, b: Wide) -> i128
    requires low { b.high ≡ pos 0 }
    ensures value { result ≡ a *ℤ wide_of b }
    ensures size { nat_abs result ≤ 2 ^ 111 }
{
    a as i128 * b.low as i128
}

/// `a * b`, whatever digits `b` has.
fn wide_product(a: i32, b: Wide) -> i128
    ensures value { result ≡ a *ℤ wide_of b }
    ensures size { nat_abs result ≤ 2 ^ 111 }
{
    let value = b.value();
    a as i128 * value
}
