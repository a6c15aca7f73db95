//! How many tokens an expression's canonical text has in a setting, counted without making it: the count stops as soon
//! as there is no room for more.

ghost use Rattle.std.specs.Prelude.{◌≡◌, ℕ, ◌∷◌, map, true, IfOk, MatchResult, Some};
ghost use Rattle.rob_index.specs.Forms.{values_of};
ghost use Rattle.rob_index.specs.Counting as counting;
ghost use Rattle.rob_expand.specs.declared.count.Shape.TheVariants as Is;
ghost use Rattle.rob_settings.specs.Room.{left_of, HasStop};
ghost use Rattle.rob_expand.specs.Placed.{placed_of, part_of, parts_of, factors_of};
ghost use Rattle.rob_expand.specs.Count.{AreMany, is_closed, is_compound, is_sum, of_shape, item_left, tree_left, parts_left, factors_left, over_left, each_left};

use crate::inmost::inmost;
use crate::placed::{Part, Placed};
use crate::tokens::number_tokens;
use rob_number::Memory;
use rob_ranges::run::Run;
use rob_ranges::{Ends, Values, Whole};
use rob_settings::room::{Stop, spend};
use std::alloc::Global;

/// What an expression is, as far as parentheses go.
#[derive(Clone, Copy, PartialEq, Eq)]
pub enum Shape {
    /// A number or a name.
    Single,
    Sum,
    Product,
}

/// What is left of a room behind an expression, and what the expression is.
#[derive(Clone, Copy)]
pub struct Counted {
    pub left: u32,
    pub shape: Shape,
}

/// What an expression stands in.
#[derive(Clone, Copy)]
pub enum Inside {
    Sum,
    Product,
}

/// The tokens in front of an expression, and what it stands in.
#[derive(Clone, Copy)]
pub struct Front {
    pub tokens: u32,
    pub inside: Inside,
}

/// How many values a range has.
#[derive(Drop)]
pub enum Many {
    Empty,
    One(Whole),
    Several,
}

/// The tokens of the parentheses around it as a part of a sum.
fn part_parens(shape: Shape) -> u32
    ensures parens { (limit : ℕ) → result ≡ counting.parens limit (is_sum shape) }
{
    match shape {
        Shape::Sum => 2,
        Shape::Single | Shape::Product => 0,
    }
}

/// The tokens of the parentheses around it as a factor.
fn factor_parens(shape: Shape) -> u32
    ensures parens { (limit : ℕ) → result ≡ counting.parens limit (is_compound shape) }
{
    match shape {
        Shape::Sum | Shape::Product => 2,
        Shape::Single => 0,
    }
}

/// The tokens of the parentheses around it.
fn parens(inside: Inside, shape: Shape) -> u32
    ensures parens { (limit : ℕ) → result ≡ counting.parens limit (is_closed inside shape) }
{
    match inside {
        Inside::Sum => part_parens(shape),
        Inside::Product => factor_parens(shape),
    }
}

/// How many values a range has at some values of those around it.
fn how_many(alloc: Global, ends: &Ends, values: &Values) -> Result<Many, Memory>
    ensures many { IfOk result (AreMany (values_of ends.now values.now)) }
{
    let mut run = Run::inside(alloc, ends, values)?;
    let Some(value) = run.next(alloc)? else {
        return Ok(Many::Empty);
    };
    let second = run.next(alloc)?;
    match second {
        Some(_) => Ok(Many::Several),
        None => Ok(Many::One(value)),
    }
}

/// What is left behind an expression in a setting.
pub fn count_in(
    alloc: Global,
    limit: u64,
    placed: &Placed,
    values: &[Whole],
    room: u32,
) -> Result<Counted, Stop>
    ensures counted { MatchResult result
        (λ c. tree_left limit (placed_of placed.now) values.now room ≡ Some c)
        (λ e. HasStop (tree_left limit (placed_of placed.now) values.now room) e) }
{
    let values = Values::of(alloc, values);
    count(alloc, limit, placed, &values, room)
}

/// The same inside sums.
#[cycle(count)]
fn count(
    alloc: Global,
    limit: u64,
    placed: &Placed,
    values: &Values,
    room: u32,
) -> Result<Counted, Stop>
    ensures counted { MatchResult result
        (λ c. tree_left limit (placed_of placed.now) values.now room ≡ Some c)
        (λ e. HasStop (tree_left limit (placed_of placed.now) values.now room) e) }
{
    match placed {
        Placed::Number(number) => single(number_tokens(limit, *number), room),
        Placed::Name(_) => single(1, room),
        Placed::Sum(parts) => {
            let left = count_parts(alloc, limit, parts.items(), values, room)?;
            Ok(Counted {
                left,
                shape: Shape::Sum,
            })
        }
        Placed::Product(factors) => {
            let left = count_factors(alloc, limit, factors.items(), values, room)?;
            Ok(Counted {
                left,
                shape: Shape::Product,
            })
        }
        Placed::Over(ends, inner) => count_over(alloc, limit, ends, inner, values, room),
    }
}

/// A number or a name of so many tokens.
fn single(tokens: u32, room: u32) -> Result<Counted, Stop>
    ensures counted { MatchResult result
        (λ c. of_shape Is.Single (left_of tokens room) ≡ Some c)
        (λ e. HasStop (of_shape Is.Single (left_of tokens room)) e) }
{
    let left = spend(tokens, room)?;
    Ok(Counted {
        left,
        shape: Shape::Single,
    })
}

/// What is left behind an expression with the tokens in front of it and its parentheses.
#[cycle(count)]
fn count_item(
    alloc: Global,
    limit: u64,
    front: Front,
    inner: &Placed,
    values: &Values,
    room: u32,
) -> Result<u32, Stop>
    ensures left { MatchResult result
        (λ left. item_left limit front.tokens front.inside (tree_left limit (placed_of inner.now) values.now) room
        ≡ Some left)
        (λ e. HasStop (item_left limit front.tokens front.inside (tree_left limit (placed_of inner.now) values.now)
        room) e) }
{
    let begun = spend(front.tokens, room)?;
    let counted = count(alloc, limit, inner, values, begun)?;
    spend(parens(front.inside, counted.shape), counted.left)
}

/// What is left behind the parts of a sum.
#[cycle(count)]
fn count_parts(
    alloc: Global,
    limit: u64,
    parts: &[Part],
    values: &Values,
    room: u32,
) -> Result<u32, Stop>
    ensures left { MatchResult result
        (λ left. parts_left limit true (parts_of (map part_of parts.now)) values.now room ≡ Some left)
        (λ e. HasStop (parts_left limit true (parts_of (map part_of parts.now)) values.now room) e) }
{
    let mut left = room;
    let mut first = true;
    for part in parts {
        let front = Front {
            tokens: lead(first, part.minus),
            inside: Inside::Sum,
        };
        let behind = count_item(alloc, limit, front, &part.inner, values, left)?;
        left = behind;
        first = false;
    }
    Ok(left)
}

/// The tokens of the sign in front of a part of a sum.
fn lead(first: bool, minus: bool) -> u32
    ensures lead { (limit : ℕ) → result ≡ counting.lead limit first minus }
{
    if first && !minus { 0 } else { 1 }
}

/// What is left behind the factors of a product.
#[cycle(count)]
fn count_factors(
    alloc: Global,
    limit: u64,
    factors: &[Placed],
    values: &Values,
    room: u32,
) -> Result<u32, Stop>
    ensures left { MatchResult result
        (λ left. factors_left limit true (factors_of (map placed_of factors.now)) values.now room ≡ Some left)
        (λ e. HasStop (factors_left limit true (factors_of (map placed_of factors.now)) values.now room) e) }
{
    let mut left = room;
    let mut first = true;
    for factor in factors {
        let front = Front {
            tokens: star(first),
            inside: Inside::Product,
        };
        let behind = count_item(alloc, limit, front, factor, values, left)?;
        left = behind;
        first = false;
    }
    Ok(left)
}

/// The tokens of the `*` in front of a factor.
fn star(first: bool) -> u32
    ensures star { (limit : ℕ) → result ≡ counting.star limit first }
{
    if first { 0 } else { 1 }
}

/// What is left behind a sum over the values of a range.
#[cycle(count)]
fn count_over(
    alloc: Global,
    limit: u64,
    ends: &Ends,
    inner: &Placed,
    values: &Values,
    room: u32,
) -> Result<Counted, Stop>
    ensures counted { MatchResult result
        (λ c. over_left limit (λ v. tree_left limit (placed_of inner.now) (v ∷ values.now))
        (values_of ends.now values.now) room ≡ Some c)
        (λ e. HasStop (over_left limit (λ v. tree_left limit (placed_of inner.now) (v ∷ values.now))
        (values_of ends.now values.now) room) e) }
{
    let many = how_many(alloc, ends, values)?;
    match many {
        Many::Empty => single(1, room),
        Many::One(value) => {
            let mut inside = values.with(alloc, &value)?;
            let last = inmost(alloc, inner, &mut inside)?;
            count(alloc, limit, last, &inside, room)
        }
        Many::Several => count_each(alloc, limit, ends, inner, values, room),
    }
}

/// What is left behind the values of a range, all added.
#[cycle(count)]
fn count_each(
    alloc: Global,
    limit: u64,
    ends: &Ends,
    inner: &Placed,
    values: &Values,
    room: u32,
) -> Result<Counted, Stop>
    ensures counted { MatchResult result
        (λ c. of_shape Is.Sum (each_left limit (λ v. tree_left limit (placed_of inner.now) (v ∷ values.now)) true
        (values_of ends.now values.now) room) ≡ Some c)
        (λ e. HasStop (of_shape Is.Sum (each_left limit
        (λ v. tree_left limit (placed_of inner.now) (v ∷ values.now)) true
        (values_of ends.now values.now) room)) e) }
{
    let mut left = room;
    let mut first = true;
    let mut run = Run::inside(alloc, ends, values)?;
    'values: while let Some(value) = run.next(alloc)? {
        let inside = values.with(alloc, &value)?;
        let front = Front {
            tokens: lead(first, false),
            inside: Inside::Sum,
        };
        let behind = count_item(alloc, limit, front, inner, &inside, left)?;
        left = behind;
        first = false;
    }
    Ok(Counted {
        left,
        shape: Shape::Sum,
    })
}
