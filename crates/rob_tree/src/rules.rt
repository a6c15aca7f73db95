//! The rules on named variables: each has both bounds, and the product of their ranges is at most 1,000.

ghost use Rattle.std.specs.Prelude.{◌≡◌, ◌*◌, ◌≤◌, ◌<◌, leb, Option, Some, None, MatchOption};
ghost use Rattle.rob_model.specs.View.{robust};
ghost use Rattle.rob_reach.specs.Ranges as ranges;

use crate::whole_number::range;
use rob_model::Model;
use rob_number::Exact;

/// The number of the first rule that the names break, or none where they keep both: 62 where a named variable lacks a
/// bound, 63 where the product, over the named variables, of the size of the range from the floor of the lower bound to
/// the ceiling of the upper one, or 1 where that is less, is over 1,000. `names` are numbers of variables, from 0. It
/// takes no memory.
pub fn whole_rule<N: Exact>(model: &Model<N>, names: &[u32]) -> Option<u8>
    ensures rule { result ≡ ranges.whole_rule (robust N.value model.now) names.now }
{
    if !are_bounded(model, names) {
        Some(62)
    } else if !are_few(model, names) {
        Some(63)
    } else {
        None
    }
}

/// Whether the variable of that number exists and has both bounds.
fn is_bounded<N: Exact>(model: &Model<N>, column: u32) -> bool
    ensures test { result ≡ ranges.is_bounded (robust N.value model.now).variables column }
{
    match model.vars.items().get(column as usize) {
        Some(var) => var.lower.is_some() && var.upper.is_some(),
        None => false,
    }
}

/// Whether each of the named variables does.
fn are_bounded<N: Exact>(model: &Model<N>, names: &[u32]) -> bool
    ensures test { result ≡ ranges.are_bounded (robust N.value model.now).variables names.now }
{
    for column in names {
        if !is_bounded(model, *column) {
            return false;
        }
    }
    true
}

/// The range of the variable of that number; 1 where it lacks a bound.
fn range_at<N: Exact>(model: &Model<N>, column: u32) -> u64
    ensures range { result ≡ ranges.range_at (robust N.value model.now).variables column }
{
    match model.vars.items().get(column as usize) {
        Some(var) => match (var.lower, var.upper) {
            (Some(lower), Some(upper)) => range(lower, upper),
            _ => 1,
        },
        None => 1,
    }
}

/// The product of two numbers, the first at most 1,000, or none where it is over 1,000.
fn few(so_far: u64, range: u64) -> Option<u64>
    requires few { so_far ≤ 1000 }
    ensures product { MatchOption result (1000 < so_far * range)
        (λ x. (x ≡ so_far * range) × (x ≤ 1000)) }
{
    let product = so_far as u128 * range as u128;
    if product <= 1000 {
        Some(product as u64)
    } else {
        None
    }
}

/// Whether the product of the ranges is at most 1,000.
fn are_few<N: Exact>(model: &Model<N>, names: &[u32]) -> bool
    ensures test { result ≡ leb (ranges.product_of_ranges
        (robust N.value model.now).variables names.now) 1000 }
{
    let mut so_far = 1;
    for column in names {
        match few(so_far, range_at(model, *column)) {
            Some(product) => so_far = product,
            None => return false,
        }
    }
    true
}
