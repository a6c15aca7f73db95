//! The least and the greatest of the values of some settings, which are lists of values, the innermost first.

ghost use Rattle.std.specs.Prelude.{◌≡◌, ◌≤ℤ◌, ℤ, List as Items, IfSome, if◌then◌else◌};
ghost use Rattle.rob_ranges.specs.DigitLists.{wide_of};
ghost use Rattle.rob_ranges.specs.Shorts.{short_value};
ghost use Rattle.rob_ranges.specs.Spans.{Every, IsIn};

use crate::digits::Wide;
use crate::short::{Pair, Short, pair_of};
use crate::whole::Whole;
use rob_number::List;

/// The settings whose two innermost values aren't below the least, and not over the greatest.
#[derive(Clone, Copy)]
pub struct Span {
    pub least: Pair,
    pub greatest: Pair,
}

/// A span that has these settings, where their values have at most 79 bits.
pub fn span_of(settings: &[List<Whole>]) -> Option<Span>
    ensures span { IfSome result (λ span. Every (IsIn span) settings.now) }
{
    match settings {
        [] => None,
        [first, ..] => widened(span_at(first.items())?, settings),
    }
}

/// A span that has what another one has, and these settings.
fn widened(begun: Span, settings: &[List<Whole>]) -> Option<Span>
    ensures begun { IfSome result (λ span. (vs : Items ℤ) → IsIn begun vs → IsIn span vs) }
    ensures span { IfSome result (λ span. Every (IsIn span) settings.now) }
{
    let mut span = begun;
    for setting in settings {
        let here = span_at(setting.items())?;
        span = hull(span, here);
    }
    Some(span)
}

/// The span of one setting.
#[inline(always)]
fn span_at(values: &[Whole]) -> Option<Span>
    ensures span { IfSome result (λ span. IsIn span values.now) }
{
    let pair = pair_of(values)?;
    Some(Span {
        least: pair,
        greatest: pair,
    })
}

/// A span that has all settings of two.
#[inline(always)]
fn hull(a: Span, b: Span) -> Span
    ensures first { (vs : Items ℤ) → IsIn a vs → IsIn result vs }
    ensures second { (vs : Items ℤ) → IsIn b vs → IsIn result vs }
{
    let first = lesser(a.least.first, b.least.first);
    let second = lesser(a.least.second, b.least.second);
    let last = greater(a.greatest.first, b.greatest.first);
    let end = greater(a.greatest.second, b.greatest.second);
    Span {
        least: Pair { first, second },
        greatest: Pair {
            first: last,
            second: end,
        },
    }
}

/// The lesser of two numbers.
#[inline(always)]
fn lesser(a: Wide, b: Wide) -> Wide
    ensures first { wide_of result ≤ℤ wide_of a }
    ensures second { wide_of result ≤ℤ wide_of b }
{
    if a.value() <= b.value() { a } else { b }
}

/// The greater of two numbers.
#[inline(always)]
fn greater(a: Wide, b: Wide) -> Wide
    ensures first { wide_of a ≤ℤ wide_of result }
    ensures second { wide_of b ≤ℤ wide_of result }
{
    if a.value() <= b.value() { b } else { a }
}

impl Span {
    /// No value of the form in these settings is greater.
    #[inline(always)]
    pub fn most(self, form: Short) -> i128
        ensures most { (vs : Items ℤ) → IsIn self vs → short_value form vs ≤ℤ result }
    {
        let first = far(form.first < 0, self.least.first, self.greatest.first);
        let second = far(form.second < 0, self.least.second, self.greatest.second);
        form.value(Pair { first, second })
    }
}

/// The end that makes the product with a number greatest, which is below 0 or isn't.
#[inline(always)]
fn far(below: bool, least: Wide, greatest: Wide) -> Wide
    ensures far { result ≡ (if below then least else greatest) }
{
    if below { least } else { greatest }
}
