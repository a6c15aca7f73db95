//! The plain expression that a placed one stands for in a setting. A name is the number of its word.

ghost use Rattle.std.specs.Prelude.{◌≡◌, ◌∷◌, IfOk};
ghost use Rattle.rob_index.specs.Forms.{values_of};
ghost use Rattle.rob_syntax.specs.Known.{texts};
ghost use Rattle.rob_syntax.specs.Numbered.{numbered_tree};
ghost use Rattle.rob_expand.specs.Growing.{printed_at};
ghost use Rattle.rob_expand.specs.Making as spec;
ghost use Rattle.rob_expand.specs.Making.{made_each, made_factors, made_parts, summed_of};
ghost use Rattle.rob_expand.specs.Placed.{placed_of};

use crate::inmost::inmost;
use crate::name::name_number_inside;
use crate::placed::{Part, Placed};
use rob_number::{List, Memory};
use rob_ranges::run::Run;
use rob_ranges::{Ends, Values, Whole};
use rob_syntax::Words;
use rob_syntax::syntax::{Numeral, Summand, Syntax};
use std::alloc::Global;

/// The number 0.
pub fn zero() -> Syntax
    ensures zero { result ≡ spec.number_zero }
{
    let divisor = None;
    Syntax::Number(Numeral {
        numerator: 0,
        divisor,
    })
}

/// An expression in a setting.
pub fn make_in(
    alloc: Global,
    own: &Words,
    words: &Words,
    placed: &Placed,
    values: &[Whole],
) -> Result<Syntax, Memory>
    ensures made { IfOk result (λ made. made ≡ numbered_tree (texts words.now.keys)
        (printed_at (texts own.now.keys) (placed_of placed.now) values.now)) }
{
    let values = Values::of(alloc, values);
    make(alloc, own, words, placed, &values)
}

/// The same inside sums.
#[cycle(make)]
fn make(
    alloc: Global,
    own: &Words,
    words: &Words,
    placed: &Placed,
    values: &Values,
) -> Result<Syntax, Memory>
    ensures made { IfOk result (λ made. made ≡ numbered_tree (texts words.now.keys)
        (printed_at (texts own.now.keys) (placed_of placed.now) values.now)) }
{
    match placed {
        Placed::Number(number) => Ok(Syntax::Number(*number)),
        Placed::Name(name) => Ok(Syntax::Name(name_number_inside(
            alloc, own, words, name, values,
        )?)),
        Placed::Sum(parts) => {
            let parts = make_parts(alloc, own, words, parts.items(), values)?;
            Ok(Syntax::Sum(parts))
        }
        Placed::Product(factors) => {
            let factors = make_factors(alloc, own, words, factors.items(), values)?;
            Ok(Syntax::Product(factors))
        }
        Placed::Over(ends, inner) => make_over(alloc, own, words, ends, inner, values),
    }
}

/// The parts of a sum.
#[cycle(make)]
fn make_parts(
    alloc: Global,
    own: &Words,
    words: &Words,
    parts: &[Part],
    values: &Values,
) -> Result<List<Summand>, Memory>
    ensures made { IfOk result (λ made.
        made ≡ made_parts (texts own.now.keys) (texts words.now.keys) values.now parts.now) }
{
    let mut made = List::new(alloc);
    for part in parts {
        let inner = make(alloc, own, words, &part.inner, values)?;
        made.push(Summand {
            minus: part.minus,
            inner,
        })?;
    }
    Ok(made)
}

/// The factors of a product.
#[cycle(make)]
fn make_factors(
    alloc: Global,
    own: &Words,
    words: &Words,
    factors: &[Placed],
    values: &Values,
) -> Result<List<Syntax>, Memory>
    ensures made { IfOk result (λ made.
        made ≡ made_factors (texts own.now.keys) (texts words.now.keys) values.now factors.now) }
{
    let mut made = List::new(alloc);
    for factor in factors {
        made.push(make(alloc, own, words, factor, values)?)?;
    }
    Ok(made)
}

/// A sum over the values of a range: the number 0 where it has none, the only expression where it has one.
#[cycle(make)]
fn make_over(
    alloc: Global,
    own: &Words,
    words: &Words,
    ends: &Ends,
    inner: &Placed,
    values: &Values,
) -> Result<Syntax, Memory>
    ensures made { IfOk result (λ made. made
        ≡ summed_of (made_each (texts own.now.keys) (texts words.now.keys)
        (placed_of inner.now) values.now (values_of ends.now values.now))) }
{
    let mut made = Vec::new(alloc);
    let mut run = Run::inside(alloc, ends, values)?;
    'values: while let Some(value) = run.next(alloc)? {
        let plain = make_at(alloc, own, words, inner, &value, values)?;
        made.push(Summand {
            minus: false,
            inner: plain,
        })?;
    }
    Ok(summed(made))
}

/// An expression at a value of the range around it.
#[cycle(make)]
fn make_at(
    alloc: Global,
    own: &Words,
    words: &Words,
    inner: &Placed,
    value: &Whole,
    values: &Values,
) -> Result<Syntax, Memory>
    ensures made { IfOk result (λ made. made ≡ numbered_tree (texts words.now.keys)
        (printed_at (texts own.now.keys) (placed_of inner.now) (value.now ∷ values.now))) }
{
    let mut inside = values.with(alloc, value)?;
    match inner {
        Placed::Over(_, _) => {
            let last = inmost(alloc, inner, &mut inside)?;
            make(alloc, own, words, last, &inside)
        }
        _ => make(alloc, own, words, inner, &inside),
    }
}

/// The sum of these: the number 0 where there is none, and the only one where there is one.
fn summed(mut made: Vec<Summand>) -> Syntax
    ensures sum { result ≡ summed_of made.items }
{
    if made.len() > 1 {
        return Syntax::Sum(List::from(made));
    }
    match made.pop() {
        Some(only) => only.inner,
        None => zero(),
    }
}
