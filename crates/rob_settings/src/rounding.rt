//! Forms with whole values, lowered. Where such a form isn't below 0, it is as great as what is left of its constant
//! when this is divided by what divides its factors. By hand: 101 - 2 t is 1 at least where it isn't below 0, so
//! 100 - 2 t isn't below 0 there either. (Schrijver, Theory of Linear and Integer Programming, chapter 23.)

ghost use Rattle.std.specs.Prelude.{◌≡◌, ◌<◌, ◌≤ℤ◌, ◌⊎◌, ℤ, pos, List as Items, IfOk};
ghost use Rattle.rob_index.specs.Forms.{value_of};
ghost use Rattle.rob_ranges.specs.Shorts.{short_value};
ghost use Rattle.rob_settings.specs.Rests.{IsRest};

use rob_number::{Memory, gcd64};
use rob_ranges::Form;
use rob_ranges::short::{Short, short_of};
use std::alloc::Global;

/// The form, less what it has at least wherever it isn't below 0.
pub fn lowered(alloc: Global, form: &Form) -> Result<Form, Memory>
    ensures lowered { IfOk result (λ lower. (vs : Items ℤ) → pos 0 ≤ℤ value_of form.now vs
        → pos 0 ≤ℤ value_of lower vs) }
{
    let least = least_of(form);
    let mut lower = form.copy(alloc)?;
    lower.add_number(alloc, true, least)?;
    Ok(lower)
}

/// How great a form is at least, wherever it isn't below 0; 0 where its numbers have many bits.
fn least_of(form: &Form) -> u64
    ensures least { (vs : Items ℤ) → pos 0 ≤ℤ value_of form.now vs → pos result
        ≤ℤ value_of form.now vs }
{
    match short_of(form) {
        None => 0,
        Some(short) => least_of_short(short),
    }
}

/// The same of a form with few bits.
fn least_of_short(form: Short) -> u64
    ensures least { (vs : Items ℤ) → pos 0 ≤ℤ short_value form vs → pos result
        ≤ℤ short_value form vs }
{
    let divisor = divisor_of(form);
    let first = rest(i128::from(form.first), divisor);
    let second = rest(i128::from(form.second), divisor);
    let constant = rest(form.constant.value(), divisor);
    where_none(first, second, constant)
}

/// What divides both factors, or 1.
fn divisor_of(form: Short) -> u64
    ensures positive { 0 < result }
{
    let first = u64::from(form.first.unsigned_abs());
    let second = u64::from(form.second.unsigned_abs());
    let divisor = gcd64(first, second);
    if divisor == 0 { 1 } else { divisor }
}

/// What is left of a number when it is divided.
fn rest(number: i128, divisor: u64) -> u64
    requires divisor { 0 < divisor }
    ensures rest { IsRest number divisor result }
{
    number.rem_euclid(i128::from(divisor)) as u64
}

/// The rest of the constant, where nothing is left of both factors; else 0.
fn where_none(first: u64, second: u64, constant: u64) -> u64
    ensures none { (result ≡ 0) ⊎ ((first ≡ 0) × ((second ≡ 0) × (result ≡ constant))) }
{
    if first == 0 && second == 0 {
        constant
    } else {
        0
    }
}
