//! The degrees of expressions.

ghost use Rattle.std.specs.Prelude.{◌≡◌, [], map};
ghost use Rattle.rob_rules.specs.Degrees.{degree_of_sort};
ghost use Rattle.rob_rules.specs.Degrees as spec;
ghost use Rattle.rob_syntax.specs.Trees.{tree_of, part_of, sum, product, summands_of, operands_of};
ghost use Rattle.rob_rules.specs.Weights.{weight, weight_of};
ghost use Rattle.rob_rules.specs.Weights as weights;

use crate::sort::Sort;
use rob_syntax::syntax::{Summand, Syntax};

/// What is kept of an expression's degrees: each degree, or 2 where that is less, and which products are refused.
#[derive(Clone, Copy)]
pub struct Weight {
    /// The degree in the decisions.
    pub decision: u8,
    /// The degree in the parameters.
    pub uncertain: u8,
    /// Whether an adaptive variable that depends on a parameter is inside.
    pub recourse: bool,
    /// Whether a product inside is of degree over 1 in the decisions.
    pub two_decisions: bool,
    /// Whether a product inside that has no such adaptive variable is of degree over 1 in the parameters.
    pub two_uncertain: bool,
    /// Whether a product inside that has one is of degree over 1 in the parameters.
    pub random_recourse: bool,
}

/// What the word of this number stands for, if it is declared.
pub fn sort_at(sorts: &[Option<Sort>], name: usize) -> Option<Sort>
    ensures sort { result ≡ spec.sort_at sorts.now name }
{
    match sorts.get(name) {
        Some(sort) => *sort,
        None => None,
    }
}

/// The weight of an expression.
#[cycle(weigh)]
pub fn weigh(sorts: &[Option<Sort>], tree: &Syntax) -> Weight
    ensures weight { result ≡ weight_of sorts.now (tree_of tree.now) }
{
    match tree {
        Syntax::Number(_) => nothing(),
        Syntax::Name(name) => of_sort(sort_at(sorts, *name)),
        Syntax::Sum(parts) => weigh_sum(sorts, parts.items()),
        Syntax::Product(factors) => weigh_product(sorts, factors.items()),
    }
}

/// The weight of a sum.
#[cycle(weigh)]
fn weigh_sum(sorts: &[Option<Sort>], parts: &[Summand]) -> Weight
    ensures weight { result ≡ weight_of sorts.now (sum (summands_of (map part_of parts.now))) }
{
    let mut so_far = nothing();
    for part in parts {
        let inner = weigh(sorts, &part.inner);
        so_far = joined(so_far, inner);
    }
    so_far
}

/// The weight of a product.
#[cycle(weigh)]
fn weigh_product(sorts: &[Option<Sort>], factors: &[Syntax]) -> Weight
    ensures weight { result ≡ weight_of sorts.now
        (product (operands_of (map tree_of factors.now))) }
{
    let mut so_far = None;
    for factor in factors {
        let next = weigh(sorts, factor);
        so_far = Some(multiplied(so_far, next));
    }
    so_far.unwrap_or(nothing())
}

/// The weight of a number.
pub fn nothing() -> Weight
    ensures weight { result ≡ weight spec.constant [] }
{
    Weight {
        decision: 0,
        uncertain: 0,
        recourse: false,
        two_decisions: false,
        two_uncertain: false,
        random_recourse: false,
    }
}

/// The weight of a name.
fn of_sort(sort: Option<Sort>) -> Weight
    ensures weight { result ≡ weight (degree_of_sort sort) [] }
{
    let mut weight = nothing();
    match sort {
        Some(Sort::Parameter(_)) => weight.uncertain = 1,
        Some(Sort::Decision(_)) => weight.decision = 1,
        Some(Sort::Policy(_, depends)) => {
            weight.decision = 1;
            if depends {
                weight.uncertain = 1;
                weight.recourse = true;
            }
        }
        Some(Sort::RowName | Sort::Set(_)) | None => {}
    }
    weight
}

/// The weight of a sum with one part more.
pub fn joined(a: Weight, b: Weight) -> Weight
    ensures weight { result ≡ weights.joined a b }
{
    Weight {
        decision: a.decision.max(b.decision),
        uncertain: a.uncertain.max(b.uncertain),
        recourse: a.recourse || b.recourse,
        two_decisions: a.two_decisions || b.two_decisions,
        two_uncertain: a.two_uncertain || b.two_uncertain,
        random_recourse: a.random_recourse || b.random_recourse,
    }
}

/// The weight of a product with one factor more, which may be its first.
fn multiplied(so_far: Option<Weight>, next: Weight) -> Weight
    ensures weight { result ≡ weights.multiplied so_far next }
{
    let Some(a) = so_far else {
        return next;
    };
    let decision = a.decision.saturating_add(next.decision).min(2);
    let uncertain = a.uncertain.saturating_add(next.uncertain).min(2);
    let recourse = a.recourse || next.recourse;
    Weight {
        decision,
        uncertain,
        recourse,
        two_decisions: a.two_decisions || next.two_decisions || decision > 1,
        two_uncertain: a.two_uncertain || next.two_uncertain || !recourse && uncertain > 1,
        random_recourse: a.random_recourse || next.random_recourse || recourse && uncertain > 1,
    }
}
