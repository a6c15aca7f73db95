//! From the parser's trees to expressions of a model.

ghost use Rattle.std.specs.Prelude.{◌≡◌, map, IfOk};
ghost use Rattle.rob_number.specs.Counts.{CountsOnly};
ghost use Rattle.rob_model.specs.View.{expression_of, signed_of, terms_of, factors_of};
ghost use Rattle.rob_parse.specs.Building.{FitsTree, FitsSummands, FitsOperands, HasRoom};
ghost use Rattle.rob_rules.specs.Degrees as degrees;
ghost use Rattle.rob_parse.specs.Models.{taken, terms_taken, factors_taken};
ghost use Rattle.rob_parse.specs.Written as spec;
ghost use Rattle.rob_syntax.specs.Trees.{tree_of, part_of, summands_of, operands_of};

use crate::fraction::fraction;
use crate::place::Place;
use rob_model::{Expr, Term};
use rob_number::{Exact, Ledger, List, Memory};
use rob_rules::{Sort, sort_at};
use rob_syntax::syntax::{Summand, Syntax};
use std::alloc::Global;

/// The expression that a tree is, where this is what its names stand for.
#[cycle(tree)]
pub fn expression<N: Exact, L: Ledger>(
    alloc: Global,
    sorts: &[Option<Sort>],
    place: Place,
    tree: &Syntax,
    ledger: &mut L,
) -> Result<Expr<N>, Memory>
    requires fits { FitsTree N.limit (tree_of tree.now) }
    requires room { HasRoom sorts.now place }
    ensures read { IfOk result (λ e. expression_of N.value e
        ≡ taken place.count place.set (spec.expression sorts.now (tree_of tree.now))) }
    ensures counted { CountsOnly L.ops L.wides ledger.old ledger.new }
{
    match tree {
        Syntax::Number(numeral) => Ok(Expr::Number(fraction(*numeral, ledger))),
        Syntax::Name(name) => Ok(named(alloc, sorts, place, *name)),
        Syntax::Sum(parts) => Ok(Expr::Sum(terms(alloc, sorts, place, parts.items(), ledger)?)),
        Syntax::Product(list) => {
            Ok(Expr::Product(factors(alloc, sorts, place, list.items(), ledger)?))
        }
    }
}

/// The parts of a sum.
#[cycle(tree)]
#[tactic(auto, using(crate::proofs::Building::MapLemmas::summands_fit))]
fn terms<N: Exact, L: Ledger>(
    alloc: Global,
    sorts: &[Option<Sort>],
    place: Place,
    parts: &[Summand],
    ledger: &mut L,
) -> Result<List<Term<N>>, Memory>
    requires fits { FitsSummands N.limit (summands_of (map part_of parts.now)) }
    requires room { HasRoom sorts.now place }
    ensures read { IfOk result (λ ts. terms_of (map (signed_of N.value) ts)
        ≡ terms_taken place.count place.set
        (spec.terms sorts.now (summands_of (map part_of parts.now)))) }
    ensures counted { CountsOnly L.ops L.wides ledger.old ledger.new }
{
    let mut list = List::new(alloc);
    for part in parts {
        let inner = expression(alloc, sorts, place, &part.inner, ledger)?;
        let minus = part.minus;
        list.push(Term { minus, inner })?;
    }
    Ok(list)
}

/// The factors of a product.
#[cycle(tree)]
#[tactic(auto, using(crate::proofs::Building::MapLemmas::operands_fit))]
fn factors<N: Exact, L: Ledger>(
    alloc: Global,
    sorts: &[Option<Sort>],
    place: Place,
    trees: &[Syntax],
    ledger: &mut L,
) -> Result<List<Expr<N>>, Memory>
    requires fits { FitsOperands N.limit (operands_of (map tree_of trees.now)) }
    requires room { HasRoom sorts.now place }
    ensures read { IfOk result (λ fs. factors_of (map (expression_of N.value) fs)
        ≡ factors_taken place.count place.set
        (spec.factors sorts.now (operands_of (map tree_of trees.now)))) }
    ensures counted { CountsOnly L.ops L.wides ledger.old ledger.new }
{
    let mut list = List::new(alloc);
    for tree in trees {
        let factor = expression(alloc, sorts, place, tree, ledger)?;
        list.push(factor)?;
    }
    Ok(list)
}

/// What a name is in an expression of this set; one that may not be used is the empty sum.
fn named<N: Exact>(alloc: Global, sorts: &[Option<Sort>], place: Place, name: usize) -> Expr<N>
    requires room { HasRoom sorts.now place }
    ensures read { expression_of N.value result
        ≡ taken place.count place.set (spec.named (degrees.sort_at sorts.now name)) }
{
    match sort_at(sorts, name) {
        Some(Sort::Parameter(k)) => Expr::Param(place.set * place.count + k),
        Some(Sort::Decision(k)) => Expr::Var(k),
        Some(Sort::Policy(k, _)) if place.set == 0 => Expr::Adaptive(k),
        Some(Sort::Policy(k, _)) => Expr::AdaptiveIn(k, place.set),
        Some(Sort::RowName | Sort::Set(_)) | None => Expr::Sum(List::new(alloc)),
    }
}
