//! Expressions over a cell.

ghost use Rattle.std.specs.Prelude.{◌≡◌, ◌<◌, ◌≤◌, IfOk, map};
ghost use Rattle.rob_cells.specs.Building.{signed_over};
ghost use Rattle.rob_meaning.specs.WellFormed.{FactorsInside, IsInside, TermsInside};
ghost use Rattle.rob_model.specs.Valid.{IsValid};
ghost use Rattle.rob_model.specs.View.{expression_of, factors_of, robust, signed_of, terms_of};
ghost use Rattle.rob_pieces.specs.SplitModel as split;

use crate::cell::{param_in, rule_in};
use rob_model::{Expr, Model, Term};
use rob_number::{Exact, List, Memory};
use std::alloc::Global;

/// The expression over cell `c`, from 1: with the parameters of that cell, and its copies of the adaptive variables.
#[cycle(over)]
pub fn expr_over<N: Exact>(
    alloc: Global,
    model: &Model<N>,
    c: u32,
    e: &Expr<N>,
) -> Result<Expr<N>, Memory>
    requires valid { IsValid N.value model.now }
    requires some { 0 < c }
    requires few { c ≤ 8 }
    requires inside { IsInside (robust N.value model.now) (expression_of N.value e.now) }
    ensures over { IfOk result (λ over. expression_of N.value over
        ≡ split.over_cell (robust N.value model.now) c (expression_of N.value e.now)) }
{
    match e {
        Expr::Number(x) => Ok(Expr::Number(*x)),
        Expr::Param(k) => Ok(Expr::Param(param_in(model, c, *k))),
        Expr::Var(k) => Ok(Expr::Var(*k)),
        Expr::Adaptive(y) => Ok(Expr::AdaptiveIn(rule_in(model, c, *y), c)),
        Expr::AdaptiveIn(y, _) => Ok(Expr::AdaptiveIn(rule_in(model, c, *y), c)),
        Expr::Sum(terms) => Ok(Expr::Sum(terms_over(alloc, model, c, terms.items())?)),
        Expr::Product(factors) => Ok(Expr::Product(factors_over(
            alloc,
            model,
            c,
            factors.items(),
        )?)),
    }
}

/// The parts of a sum over the cell.
#[cycle(over)]
fn terms_over<N: Exact>(
    alloc: Global,
    model: &Model<N>,
    c: u32,
    terms: &[Term<N>],
) -> Result<List<Term<N>>, Memory>
    requires valid { IsValid N.value model.now }
    requires some { 0 < c }
    requires few { c ≤ 8 }
    requires inside { TermsInside (robust N.value model.now)
        (terms_of (map (signed_of N.value) terms.now)) }
    ensures over { IfOk result (λ over. map (signed_of N.value) over
        ≡ map (signed_over (robust N.value model.now) c) (map (signed_of N.value) terms.now)) }
{
    let mut over = List::new(alloc);
    for term in terms {
        let inner = expr_over(alloc, model, c, &term.inner)?;
        over.push(Term {
            minus: term.minus,
            inner,
        })?;
    }
    Ok(over)
}

/// The factors of a product over the cell.
#[cycle(over)]
fn factors_over<N: Exact>(
    alloc: Global,
    model: &Model<N>,
    c: u32,
    factors: &[Expr<N>],
) -> Result<List<Expr<N>>, Memory>
    requires valid { IsValid N.value model.now }
    requires some { 0 < c }
    requires few { c ≤ 8 }
    requires inside { FactorsInside (robust N.value model.now)
        (factors_of (map (expression_of N.value) factors.now)) }
    ensures over { IfOk result (λ over. map (expression_of N.value) over
        ≡ map (split.over_cell (robust N.value model.now) c)
        (map (expression_of N.value) factors.now)) }
{
    let mut over = List::new(alloc);
    for factor in factors {
        let next = expr_over(alloc, model, c, factor)?;
        over.push(next)?;
    }
    Ok(over)
}

/// A number as a side of a statement or row: a negative one is a sum of one subtracted number, as `-3` is read.
pub fn side<N: Exact>(alloc: Global, number: N) -> Result<Expr<N>, Memory>
    ensures side { IfOk result (λ e. expression_of N.value e ≡ split.as_side (N.value number)) }
{
    if number.sign() >= 0 {
        return Ok(Expr::Number(number));
    }
    let mut terms = List::new(alloc);
    terms.push(Term {
        minus: true,
        inner: Expr::Number(number.neg()),
    })?;
    Ok(Expr::Sum(terms))
}
