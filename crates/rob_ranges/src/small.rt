//! Values of forms in machine numbers, where they and all numbers on the way have 64 bits.

ghost use Rattle.std.specs.Prelude.{◌≡◌, ◌∷◌, ◌-ℤ◌, IfOk, IfSome};
ghost use Rattle.rob_index.specs.Forms.{first_factor, value_of};

use crate::form::{Ends, Form};
use crate::products::short_weighed;
use crate::whole::Whole;
use rob_number::Memory;
use std::alloc::Global;

/// The form's value at some values, in front of which another stands: in machine numbers, where all have one digit.
#[inline(always)]
pub fn value_inside(
    alloc: Global,
    form: &Form,
    innermost: &Whole,
    values: &[Whole],
) -> Result<Whole, Memory>
    ensures value { IfOk result (λ value. value ≡ value_of form.now (innermost.now ∷ values.now)) }
{
    match small_inside(form, innermost, values) {
        Some(value) => Ok(Whole::small(alloc, value)),
        None => form.long_inside(alloc, innermost, values),
    }
}

/// The same, where all numbers are kept in one digit.
#[inline(always)]
pub fn small_inside(form: &Form, innermost: &Whole, values: &[Whole]) -> Option<i64>
    ensures value { IfSome result (λ value.
        value_of form.now (innermost.now ∷ values.now) ≡ value) }
{
    let constant = form.constant().single()?;
    match form.factors() {
        [] => Some(constant),
        [factor, factors @ ..] => {
            let begun = factor.short_product(innermost, constant)?;
            short_weighed(begun, factors, values)
        }
    }
}

/// By how much a range grows longer with the next value of the range around it.
#[inline(always)]
pub fn small_growth(range: &Ends) -> Option<i64>
    ensures growth { IfSome result (λ growth. growth
        ≡ first_factor range.now.upto.factors -ℤ first_factor range.now.from.factors) }
{
    let from = small_slope(range.from())?;
    let upto = small_slope(range.upto())?;
    upto.checked_sub(from)
}

/// The factor of the innermost value.
#[inline(always)]
fn small_slope(form: &Form) -> Option<i64>
    ensures slope { IfSome result (λ slope. slope ≡ first_factor form.now.factors) }
{
    match form.factors() {
        [] => Some(0),
        [factor, ..] => factor.single(),
    }
}
