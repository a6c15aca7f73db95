//! The values around a place inside sums. The range of a sum starts at 0, and inside a long chain of sums nearly all
//! values are 0: these are counted, not kept, and a form is evaluated without a look at their factors.

ghost use Rattle.std.specs.Prelude.{◌≡◌, ◌∷◌, ◌+ℤ◌, drop, false, true, List as Items, ℤ, IfOk, IfSome, OnOk};
ghost use Rattle.rob_index.specs.Forms.{value_of, weighed};
ghost use Rattle.rob_ranges.specs.Values.{spread};

use crate::form::Form;
use crate::products::{add_weighed, short_weighed};
use crate::whole::Whole;
use rob_number::Memory;
use std::alloc::Global;
use std::marker::Model;

/// A value, and how many values 0 stand in front of it.
#[derive(Drop)]
pub struct Place {
    pub zeros: usize,
    pub value: Whole,
}

/// Values, the innermost first: those of the sums around a place, and others further out. Contracts see all of them.
#[derive(Drop)]
pub struct Values<'a> {
    near: Vec<Place>,
    far: &'a [Whole],
}

impl<'a> Model for Values<'a> {
    ghost use Rattle.std.specs.Prelude.{List, ℤ};
    ghost use Rattle.rob_ranges.specs.Values.{spread};

    ghost Value = { List ℤ };

    ghost view = { λ values. spread values.near.items values.far.now };
}

impl<'a> Values<'a> {
    /// Values that are around no sum. It takes no memory.
    pub fn of(alloc: Global, far: &'a [Whole]) -> Values<'a>
        ensures values { result ≡ far.now }
    {
        Values {
            near: Vec::new(alloc),
            far,
        }
    }

    /// The values with one more in front.
    pub fn with(&self, alloc: Global, value: &Whole) -> Result<Values<'a>, Memory>
        ensures values { IfOk result (λ inside. inside ≡ value.now ∷ self.now) }
    {
        let near = copies(alloc, self.near.as_slice())?;
        let mut inside = Values {
            near,
            far: self.far,
        };
        inside.put(value.copy(alloc)?)?;
        Ok(inside)
    }

    /// Puts a value in front.
    pub fn put(&mut self, value: Whole) -> Result<(), Memory>
        ensures put { OnOk result (self.new ≡ value ∷ self.old) }
    {
        if counted(self.near.as_mut_slice(), &value) {
            return Ok(());
        }
        self.near.insert(0, Place { zeros: 0, value })?;
        Ok(())
    }

    /// The value of a form at these values. Where all are kept in one digit, no memory is taken.
    #[inline(always)]
    pub fn value_of(&self, alloc: Global, form: &Form) -> Result<Whole, Memory>
        ensures value { IfOk result (λ value. value ≡ value_of form.now self.now) }
    {
        match self.short_value(form) {
            Some(value) => Ok(Whole::small(alloc, value)),
            None => self.long_value(alloc, form),
        }
    }

    /// The same, where the form, the values and every sum on the way are kept in one digit.
    #[inline(always)]
    pub fn short_value(&self, form: &Form) -> Option<i64>
        ensures value { IfSome result (λ value. value ≡ value_of form.now self.now) }
    {
        let constant = form.constant().single()?;
        match form.factors() {
            [] => Some(constant),
            factors => short_spread(constant, factors, self.near.as_slice(), self.far),
        }
    }

    /// The same, whatever they are kept in.
    #[inline(never)]
    fn long_value(&self, alloc: Global, form: &Form) -> Result<Whole, Memory>
        ensures value { IfOk result (λ value. value ≡ value_of form.now self.now) }
    {
        let near = self.near.as_slice();
        long_spread(alloc, form.constant(), 0, form.factors(), near, self.far)
    }
}

/// Counts a value in front of the first place, where there is one and the value is seen to be 0; or says that it isn't
/// counted.
fn counted(near: &mut [Place], value: &Whole) -> bool
    ensures counted { result ≡ true → (vs : Items ℤ) → spread near.new vs
        ≡ value.now ∷ spread near.old vs }
    ensures same { result ≡ false → near.new ≡ near.old }
{
    let Some(0) = value.single() else {
        return false;
    };
    match near {
        [] => false,
        [first, ..] => match first.zeros.checked_add(1) {
            Some(zeros) => {
                first.zeros = zeros;
                true
            }
            None => false,
        },
    }
}

/// Copies, with room for one more.
fn copies(alloc: Global, places: &[Place]) -> Result<Vec<Place>, Memory>
    ensures copies { IfOk result (λ copies. copies.items ≡ places.now) }
{
    let mut copies = Vec::with_capacity(alloc, places.len() + 1)?;
    for place in places {
        copies.push(Place {
            zeros: place.zeros,
            value: place.value.copy(alloc)?,
        })?;
    }
    Ok(copies)
}

/// The factors behind so many.
#[inline(always)]
fn behind(factors: &[Whole], count: usize) -> &[Whole]
    ensures behind { result.now ≡ drop count factors.now }
{
    if count < factors.len() {
        &factors[count..]
    } else {
        &[]
    }
}

/// A number and the products of factors and values, where all are kept in one digit.
fn short_spread(number: i64, factors: &[Whole], near: &[Place], far: &[Whole]) -> Option<i64>
    ensures sum { IfSome result
        (λ sum. sum ≡ number +ℤ weighed factors.now (spread near.now far.now)) }
{
    let mut sum = number;
    let mut rest = factors;
    for place in near {
        match behind(rest, place.zeros) {
            [] => return Some(sum),
            [factor, others @ ..] => {
                sum = factor.short_product(&place.value, sum)?;
                rest = others;
            }
        }
    }
    short_weighed(sum, rest, far)
}

/// A number, a short one, and the products of factors and values, whatever they are kept in. As long as a product is
/// short, it is added to the short number.
fn long_spread(
    alloc: Global,
    number: &Whole,
    short: i64,
    factors: &[Whole],
    near: &[Place],
    far: &[Whole],
) -> Result<Whole, Memory>
    ensures sum { IfOk result (λ sum. sum
        ≡ (number.now +ℤ short) +ℤ weighed factors.now (spread near.now far.now)) }
{
    match near {
        [] => long_weighed(alloc, number, short, factors, far),
        [place, others @ ..] => match behind(factors, place.zeros) {
            [] => plus_short(alloc, number, short),
            [factor, factors @ ..] => match factor.short_product(&place.value, short) {
                Some(next) => long_spread(alloc, number, next, factors, others, far),
                None => {
                    let next = number.plus_times(alloc, factor, &place.value)?;
                    long_spread(alloc, &next, short, factors, others, far)
                }
            },
        },
    }
}

/// The same of values that all are kept.
fn long_weighed(
    alloc: Global,
    number: &Whole,
    short: i64,
    factors: &[Whole],
    values: &[Whole],
) -> Result<Whole, Memory>
    ensures sum { IfOk result (λ sum. sum
        ≡ (number.now +ℤ short) +ℤ weighed factors.now values.now) }
{
    let mut sum = plus_short(alloc, number, short)?;
    add_weighed(&mut sum, alloc, factors, values)?;
    Ok(sum)
}

/// The sum of a number and a short one.
fn plus_short(alloc: Global, number: &Whole, short: i64) -> Result<Whole, Memory>
    ensures sum { IfOk result (λ sum. sum ≡ number.now +ℤ short) }
{
    let one = Whole::small(alloc, 1);
    let other = Whole::small(alloc, short);
    number.plus_times(alloc, &one, &other)
}
