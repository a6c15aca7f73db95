//! The model's expressions: orders, demands, stock and cost.

ghost use Rattle.std.specs.Prelude.{◌≡◌, ◌<◌, ◌-◌, suc, ◌++◌, map, IfOk, OnOk};
ghost use Rattle.rob_meaning.specs.Expressions.{parameter};
ghost use Rattle.rob_meaning.specs.Places.{tabulate};
ghost use Rattle.rob_model.specs.View.{expression_of, signed_of};
ghost use Rattle.rob_gen.specs.Generated as defined;
ghost use Rattle.rob_gen.specs.Generated.{added, total};

use rob_model::{Expr, Term};
use rob_number::{Exact, List, Memory};
use std::alloc::Global;

/// The order of a place.
fn order<N: Exact>(place: u32) -> Expr<N>
    ensures made { expression_of N.value result ≡ defined.order place }
{
    if place == 0 {
        Expr::Var(0)
    } else {
        Expr::Adaptive(place - 1)
    }
}

/// Appends the orders of the first places.
fn add_orders<N: Exact>(terms: &mut List<Term<N>>, count: u32) -> Result<(), Memory>
    ensures made { OnOk result (map (signed_of N.value) terms.new
        ≡ map (signed_of N.value) terms.old ++ tabulate count
        (λ place. added (defined.order place))) }
{
    for place in 0..count {
        terms.push(Term {
            minus: false,
            inner: order(place),
        })?;
    }
    Ok(())
}

/// Appends the demands of the first places, each with this sign.
fn add_demands<N: Exact>(terms: &mut List<Term<N>>, minus: bool, count: u32) -> Result<(), Memory>
    ensures made { OnOk result (map (signed_of N.value) terms.new
        ≡ map (signed_of N.value) terms.old ++ tabulate count (λ place. (minus, parameter place))) }
{
    for place in 0..count {
        terms.push(Term {
            minus,
            inner: Expr::Param(place),
        })?;
    }
    Ok(())
}

/// The orders of the first places together.
pub fn all_orders<N: Exact>(alloc: Global, count: u32) -> Result<Expr<N>, Memory>
    requires some { 0 < count }
    ensures made { IfOk result (λ e. expression_of N.value e ≡ total count defined.order) }
{
    if count == 1 {
        return Ok(order(0));
    }
    let mut terms = List::new(alloc);
    add_orders(&mut terms, count)?;
    Ok(Expr::Sum(terms))
}

/// The demands of the first places together.
pub fn all_demands<N: Exact>(alloc: Global, count: u32) -> Result<Expr<N>, Memory>
    requires some { 0 < count }
    ensures made { IfOk result (λ e. expression_of N.value e ≡ total count parameter) }
{
    if count == 1 {
        return Ok(Expr::Param(0));
    }
    let mut terms = List::new(alloc);
    add_demands(&mut terms, false, count)?;
    Ok(Expr::Sum(terms))
}

/// The stock behind the first periods.
fn stock<N: Exact>(alloc: Global, count: u32) -> Result<Expr<N>, Memory>
    ensures made { IfOk result (λ e. expression_of N.value e ≡ defined.stock count) }
{
    let mut terms = List::new(alloc);
    add_orders(&mut terms, count)?;
    add_demands(&mut terms, true, count)?;
    Ok(Expr::Sum(terms))
}

/// Appends the stock behind each of the first periods.
fn add_stocks<N: Exact>(alloc: Global, terms: &mut List<Term<N>>, count: u32) -> Result<(), Memory>
    ensures made { OnOk result (map (signed_of N.value) terms.new
        ≡ map (signed_of N.value) terms.old ++ tabulate count
        (λ place. added (defined.stock (suc place)))) }
{
    for place in 0..count {
        let inner = stock(alloc, place + 1)?;
        terms.push(Term {
            minus: false,
            inner,
        })?;
    }
    Ok(())
}

/// The cost over so many periods.
pub fn cost<N: Exact>(alloc: Global, count: u32) -> Result<Expr<N>, Memory>
    ensures made { IfOk result (λ e. expression_of N.value e ≡ defined.cost count) }
{
    let mut terms = List::new(alloc);
    add_orders(&mut terms, count)?;
    add_stocks(alloc, &mut terms, count)?;
    Ok(Expr::Sum(terms))
}
