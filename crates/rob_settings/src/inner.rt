//! The ranges of an item of a list, inside those of its statement.

ghost use Rattle.std.specs.Prelude.{◌≡◌, ◌≤◌, ◌≤ℤ◌, ℤ, [], List as Items, length, nat_abs, pos};
ghost use Rattle.std.specs.Prelude.{false, IfOk, IfSome, IsTrue, MatchResult, OnOk};
ghost use Rattle.rob_index.specs.Forms.{extensions, first_factor, only, value_of};
ghost use Rattle.rob_ranges.specs.Shorts.{short_value};
ghost use Rattle.rob_ranges.specs.Spans.{IsIn};
ghost use Rattle.rob_settings.specs.Inner.{AreLengths, is_long_in};
ghost use Rattle.rob_settings.specs.Inner as spec;
ghost use Rattle.rob_settings.specs.Room.{left_of, HasStop};

use crate::room::Stop;
use crate::rounding::lowered;
use crate::settings::{Setting, all_settings, settings_of};
use rob_number::{List, Memory};
use rob_ranges::short::{Short, pair_of, short_of};
use rob_ranges::span::Span;
use rob_ranges::{Ends, Form, Whole};
use std::alloc::Global;
use std::marker::Model;

/// How far the last value of a range is from its first at least: 0 where the range has one value.
const SHORTEST: i128 = 0;

/// How far it is at most where the range has no more than 100 values.
const LONGEST: i128 = 99;

/// The lengths of so many ranges are kept.
const FEW: usize = 2;

/// Ranges inside others, the outermost first. Contracts see their ends. Beside them stand the lengths of the first two,
/// where these have few bits: they tell of most settings of the ranges around that there is none of these ranges.
#[derive(Drop)]
pub struct Inner {
    ranges: List<Ends>,
    lengths: Option<Lengths>,
}

impl Model for Inner {
    ghost use Rattle.std.specs.Prelude.{List, IfSome};
    ghost use Rattle.rob_index.specs.Forms as spec;
    ghost use Rattle.rob_settings.specs.Inner.{AreLengths};

    ghost Value = { List spec.Ends };

    ghost view = { λ inner. inner.ranges };

    ghost invariant = { λ inner. IfSome inner.lengths (λ kept. AreLengths inner.ranges kept) };
}

/// The lengths of two ranges, the one inside the other, as forms over the values of the ranges around: that of the
/// outer one, and the greatest that the inner one has. Beside them a sum of both with factors of at least 0, so that it
/// is below 0 only where one of them is: where one grows with the innermost value and the other one falls, that value
/// has no factor in the sum. (Elimination by Fourier and Motzkin; Schrijver, Theory of Linear and Integer Programming,
/// chapter 12.) By hand: of `i = t to 50, j = 51 to t` the lengths are 50 - t and t - 51, and their sum is -1. Of
/// `i = t + t to 101, j = 101 to t + t` they are lowered to 100 - 2 t and 2 t - 102 first.
#[derive(Clone, Copy)]
pub struct Lengths {
    pub first: Short,
    pub second: Short,
    pub combined: Short,
}

/// The values of such lengths, or numbers that tell of them in many settings.
#[derive(Clone, Copy)]
struct Sizes {
    first: i128,
    second: i128,
}

impl Inner {
    /// The ranges.
    pub fn new(alloc: Global, ranges: List<Ends>) -> Result<Inner, Memory>
        ensures ranges { IfOk result (λ inner. inner ≡ ranges) }
    {
        let lengths = lengths_of(alloc, ranges.items())?;
        Ok(Inner { ranges, lengths })
    }

    /// The ranges as they are.
    pub fn ranges(&self) -> &[Ends]
        ensures ranges { result.now ≡ self.now }
    {
        self.ranges.items()
    }

    /// All settings.
    pub fn settings(&self, alloc: Global, values: &[Whole]) -> Result<List<Setting>, Memory>
        ensures settings { IfOk result (λ settings. settings ≡ extensions self.now values.now) }
    {
        if self.is_empty_at(values) {
            return Ok(List::new(alloc));
        }
        all_settings(alloc, self.ranges.items(), values)
    }

    /// All settings, if there are at most so many.
    pub fn settings_up_to(
        &self,
        alloc: Global,
        values: &[Whole],
        most: u32,
    ) -> Result<List<Setting>, Stop>
        ensures settings { IfOk result (λ settings. settings ≡ extensions self.now values.now) }
        ensures most { MatchResult result
            (λ _. length (extensions self.now values.now) ≤ most)
            (λ e. HasStop (left_of (length (extensions self.now values.now)) most) e) }
    {
        if self.is_empty_at(values) {
            return Ok(List::new(alloc));
        }
        settings_of(alloc, self.ranges.items(), values, most)
    }

    /// Whether the lengths tell that there is no setting, and no range that has more than 100 values.
    pub fn is_quiet_at(&self, values: &[Whole]) -> bool
        ensures empty { IsTrue result → extensions self.now values.now ≡ [] }
        ensures short { IsTrue result → is_long_in self.now values.now ≡ false }
    {
        match self.sizes_at(values) {
            None => false,
            Some(sizes) => sizes.first < SHORTEST
                || (sizes.first <= LONGEST && sizes.second < SHORTEST),
        }
    }

    /// Whether the lengths tell that no range has more than 100 values, where there are two ranges at most.
    pub fn is_short_at(&self, values: &[Whole]) -> bool
        ensures short { IsTrue result → is_long_in self.now values.now ≡ false }
    {
        if self.ranges.items().len() > FEW {
            return false;
        }
        match self.sizes_at(values) {
            None => false,
            Some(sizes) => are_short(sizes),
        }
    }

    /// Whether the lengths tell that there is no setting, and no range that has more than 100 values, anywhere in a
    /// span.
    #[inline(always)]
    pub fn is_quiet_in(&self, span: Span) -> bool
        ensures empty { IsTrue result → (vs : Items ℤ) → IsIn span vs → extensions self.now vs
            ≡ [] }
        ensures short { IsTrue result → (vs : Items ℤ) → IsIn span vs → is_long_in self.now vs
            ≡ false }
    {
        match self.sizes_in(span) {
            None => false,
            Some(sizes) => sizes.first < SHORTEST
                || (sizes.first <= LONGEST && sizes.second < SHORTEST),
        }
    }

    /// Whether the lengths tell that there is no setting anywhere in a span.
    #[inline(always)]
    pub fn is_empty_in(&self, span: Span) -> bool
        ensures empty { IsTrue result → (vs : Items ℤ) → IsIn span vs → extensions self.now vs
            ≡ [] }
    {
        match self.sizes_in(span) {
            None => false,
            Some(sizes) => sizes.first < SHORTEST || sizes.second < SHORTEST,
        }
    }

    /// Whether the lengths tell that there is no setting.
    #[inline(always)]
    fn is_empty_at(&self, values: &[Whole]) -> bool
        ensures empty { IsTrue result → extensions self.now values.now ≡ [] }
    {
        match self.sizes_at(values) {
            None => false,
            Some(sizes) => sizes.first < SHORTEST || sizes.second < SHORTEST,
        }
    }

    /// The lengths at some values, where they have few bits.
    #[inline(always)]
    fn sizes_at(&self, values: &[Whole]) -> Option<Sizes>
        ensures first { IfSome result (λ sizes. value_of (spec.first_length self.now) values.now
            ≡ sizes.first) }
        ensures second { IfSome result (λ sizes. value_of (spec.second_length self.now) values.now
            ≡ sizes.second) }
    {
        let lengths = self.lengths?;
        let pair = pair_of(values)?;
        let first = lengths.first.value(pair);
        let second = lengths.second.value(pair);
        Some(Sizes { first, second })
    }

    /// The length that the first range nowhere passes in a span, where the lengths have few bits, and a number that is
    /// below 0 only if one of both is at each place there.
    #[inline(always)]
    fn sizes_in(&self, span: Span) -> Option<Sizes>
        ensures first { IfSome result (λ sizes. (vs : Items ℤ) → IsIn span vs
            → value_of (spec.first_length self.now) vs ≤ℤ sizes.first) }
        ensures apart { IfSome result (λ sizes. (vs : Items ℤ) → IsIn span vs
            → pos 0 ≤ℤ value_of (spec.first_length self.now) vs → pos 0 ≤ℤ value_of (spec.second_length self.now) vs
            → pos 0 ≤ℤ sizes.second) }
    {
        let lengths = self.lengths.as_ref()?;
        let first = span.most(lengths.first);
        if first < SHORTEST {
            return Some(Sizes {
                first,
                second: SHORTEST,
            });
        }
        let second = apart_in(span, lengths);
        Some(Sizes { first, second })
    }
}

/// Whether neither size is that of a range with more than 100 values.
fn are_short(sizes: Sizes) -> bool
    ensures first { IsTrue result → sizes.first ≤ℤ pos 99 }
    ensures second { IsTrue result → sizes.second ≤ℤ pos 99 }
{
    if sizes.first > LONGEST {
        return false;
    }
    sizes.second <= LONGEST
}

/// A number that is below 0 only if at each place in a span one of both lengths is. Their sum is asked for only where
/// the second length doesn't tell it.
#[inline(always)]
fn apart_in(span: Span, lengths: &Lengths) -> i128
    ensures apart { (vs : Items ℤ) → IsIn span vs → pos 0 ≤ℤ short_value lengths.now.second vs
        → pos 0 ≤ℤ short_value lengths.now.combined vs → pos 0 ≤ℤ result }
{
    let second = span.most(lengths.second);
    if second < SHORTEST {
        return second;
    }
    span.most(lengths.combined)
}

/// The lengths of the first two ranges, where these have few bits.
fn lengths_of(alloc: Global, ranges: &[Ends]) -> Result<Option<Lengths>, Memory>
    ensures lengths { IfOk result (λ lengths. IfSome lengths (λ kept. AreLengths ranges.now kept)) }
{
    let first = first_length(alloc, ranges)?;
    let second = second_length(alloc, ranges)?;
    let combined = combination(alloc, &first, &second)?;
    Ok(all_short(&first, &second, &combined))
}

/// A sum of two forms, lowered, with factors of at least 0: that of each is as great as the other one's factor of the
/// innermost value, so that this value has none in the sum where one of them grows with it and the other one falls.
fn combination(alloc: Global, first: &Form, second: &Form) -> Result<Form, Memory>
    ensures combined { IfOk result (λ form. (vs : Items ℤ) → pos 0 ≤ℤ value_of first.now vs
        → pos 0 ≤ℤ value_of second.now vs → pos 0 ≤ℤ value_of form vs) }
{
    let mut sum = nothing(alloc);
    add_lowered(alloc, &mut sum, first, second)?;
    add_lowered(alloc, &mut sum, second, first)?;
    Ok(sum)
}

/// Adds a form, lowered, as often as the other one's factor of the innermost value is great.
fn add_lowered(alloc: Global, sum: &mut Form, form: &Form, other: &Form) -> Result<(), Memory>
    ensures kept { OnOk result ((vs : Items ℤ) → pos 0 ≤ℤ value_of form.now vs
        → pos 0 ≤ℤ value_of sum.old vs → pos 0 ≤ℤ value_of sum.new vs) }
{
    let low = lowered(alloc, form)?;
    let factor = weight(alloc, other)?;
    sum.add(alloc, &factor, &low)?;
    Ok(())
}

/// The factor of the innermost value, without its sign.
fn weight(alloc: Global, form: &Form) -> Result<Whole, Memory>
    ensures weight { IfOk result (λ weight. weight
        ≡ pos (nat_abs (first_factor form.now.factors))) }
{
    match form.factors() {
        [] => Ok(Whole::small(alloc, 0)),
        [factor, ..] => size(alloc, factor),
    }
}

/// The number without its sign.
fn size(alloc: Global, number: &Whole) -> Result<Whole, Memory>
    ensures size { IfOk result (λ size. size ≡ pos (nat_abs number.now)) }
{
    if number.is_negative() {
        let minus_one = Whole::small(alloc, -1);
        minus_one.times(alloc, number)
    } else {
        number.copy(alloc)
    }
}

/// Three forms with few bits.
fn all_short(first: &Form, second: &Form, combined: &Form) -> Option<Lengths>
    ensures first { IfSome result (λ kept. (vs : Items ℤ) → value_of first.now vs
        ≡ short_value kept.first vs) }
    ensures second { IfSome result (λ kept. (vs : Items ℤ) → value_of second.now vs
        ≡ short_value kept.second vs) }
    ensures combined { IfSome result (λ kept. (vs : Items ℤ)
        → value_of combined.now vs ≡ short_value kept.combined vs) }
{
    let first = short_of(first)?;
    let second = short_of(second)?;
    let combined = short_of(combined)?;
    Some(Lengths {
        first,
        second,
        combined,
    })
}

/// The length of the first range, or 0.
fn first_length(alloc: Global, ranges: &[Ends]) -> Result<Form, Memory>
    ensures length { IfOk result (λ form. form ≡ spec.first_length ranges.now) }
{
    match ranges {
        [] => Ok(nothing(alloc)),
        [first, ..] => first.length(alloc),
    }
}

/// The length of the second range, where the first one's value is that which makes it greatest, or 0.
fn second_length(alloc: Global, ranges: &[Ends]) -> Result<Form, Memory>
    ensures length { IfOk result (λ form. form ≡ spec.second_length ranges.now) }
{
    match ranges {
        [first, second, ..] => {
            let length = second.length(alloc)?;
            length.without(alloc, first)
        }
        _ => Ok(nothing(alloc)),
    }
}

/// The form that is 0.
fn nothing(alloc: Global) -> Form
    ensures nothing { result ≡ only (pos 0) }
{
    Form::nothing(alloc)
}
