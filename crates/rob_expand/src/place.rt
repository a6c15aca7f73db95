//! Expressions with their indices and ranges as forms.

ghost use Rattle.std.specs.Prelude.{◌≡◌, ◌∷◌, map, IfOk, OnOk};
ghost use Rattle.rob_index.specs.Fast as fast;
ghost use Rattle.rob_index.specs.Fast.{nothing};
ghost use Rattle.std.specs.Option.{option_map};
ghost use Rattle.rob_syntax.specs.Seen.{seen_index, seen_over, seen_part, seen_range, seen_ref, seen_tree};
ghost use Rattle.rob_expand.specs.Placed.{placed_of, part_of, over};
ghost use Rattle.rob_expand.specs.Placing.{placed_name, placed_tree};
ghost use Rattle.rob_expand.specs.Scopes.{IsAlike, IsIndex, IsPart, IsPlaced, Pairwise};

use crate::placed::{Part, Placed};
use crate::scope::{Scope, is_nothing};
use rob_index_forms::index_form;
use rob_number::{List, Memory};
use rob_ranges::{Ends, Form};
use rob_settings::item::Named;
use rob_syntax::syntax;
use rob_syntax::syntax::{Index, Range, Ref, Tree};
use std::alloc::Global;

/// An expression over the values of the ranges around it. The start of a sum's range is put in for its value, so that a
/// setting has how far the value is from there. Where the range is seen to have one value everywhere, what is placed is
/// the expression inside.
#[cycle(place)]
pub fn place(alloc: Global, scope: &mut Scope, tree: &Tree) -> Result<Placed, Memory>
    ensures placed { IfOk result
        (λ placed. IsPlaced scope.old.bound scope.old.names placed (seen_tree tree.now)) }
    ensures around { OnOk result (scope.new ≡ scope.old) }
{
    match tree {
        Tree::Number(number) => Ok(Placed::Number(*number)),
        Tree::Ref(name) => Ok(Placed::Name(name_within(alloc, scope, name)?)),
        Tree::Sum(parts) => Ok(Placed::Sum(place_parts(alloc, scope, parts.items())?)),
        Tree::Product(factors) => {
            let factors = place_factors(alloc, scope, factors.items())?;
            Ok(Placed::Product(factors))
        }
        Tree::Ranged(range, inner) => place_ranged(alloc, scope, range, inner),
    }
}

/// A sum over a range.
#[cycle(place)]
fn place_ranged(
    alloc: Global,
    scope: &mut Scope,
    range: &Range,
    inner: &Tree,
) -> Result<Placed, Memory>
    ensures placed { IfOk result (λ placed. IsAlike scope.old.bound (placed_of placed)
        (over (fast.ends_of scope.old.names (seen_range range.now))
        (placed_tree (range.now.name ∷ scope.old.names) (seen_tree inner.now)))) }
    ensures around { OnOk result (scope.new ≡ scope.old) }
{
    let length = scope.length(alloc, range)?;
    let single = is_nothing(&length);
    let from = scope.index(alloc, &range.from)?;
    scope.enter(range.name, !single, from)?;
    let inner = place(alloc, scope, inner)?;
    scope.leave();
    if single {
        return Ok(inner);
    }
    sum_over(alloc, length, inner)
}

/// An expression at each value from 0 up to a form's, all added.
fn sum_over(alloc: Global, length: Form, inner: Placed) -> Result<Placed, Memory>
    ensures placed { IfOk result (λ placed. placed_of placed
        ≡ over (record { from = nothing; upto = length }) (placed_of inner)) }
{
    let ends = Ends::new(Form::nothing(alloc), length);
    Ok(Placed::Over(ends, Box::new(alloc, inner)?))
}

/// The parts of a sum.
#[cycle(place)]
fn place_parts(
    alloc: Global,
    scope: &mut Scope,
    parts: &[syntax::Part],
) -> Result<List<Part>, Memory>
    ensures placed { IfOk result (λ placed.
        Pairwise (λ p x. IsPart scope.old.bound scope.old.names (part_of p) (seen_part x)) placed parts.now) }
    ensures around { OnOk result (scope.new ≡ scope.old) }
{
    let mut placed = List::new(alloc);
    for part in parts {
        let inner = place(alloc, scope, &part.inner)?;
        placed.push(Part {
            minus: part.minus,
            inner,
        })?;
    }
    Ok(placed)
}

/// The factors of a product.
#[cycle(place)]
fn place_factors(alloc: Global, scope: &mut Scope, factors: &[Tree]) -> Result<List<Placed>, Memory>
    ensures placed { IfOk result (λ placed.
        Pairwise (λ p x. IsPlaced scope.old.bound scope.old.names p (seen_tree x)) placed factors.now) }
    ensures around { OnOk result (scope.new ≡ scope.old) }
{
    let mut placed = List::new(alloc);
    for factor in factors {
        placed.push(place(alloc, scope, factor)?)?;
    }
    Ok(placed)
}

/// A name of an expression.
fn name_within(alloc: Global, scope: &Scope, name: &Ref) -> Result<Named, Memory>
    ensures word { IfOk result (λ named. named.word ≡ name.now.name) }
    ensures indices { IfOk result (λ named.
        Pairwise (λ f x. IsIndex scope.now.bound scope.now.names f (seen_index x)) named.indices name.now.indices) }
{
    let indices = indices_within(alloc, scope, name.indices.items())?;
    Ok(Named {
        word: name.name,
        indices,
    })
}

/// The indices of a name of an expression.
fn indices_within(alloc: Global, scope: &Scope, indices: &[Index]) -> Result<List<Form>, Memory>
    ensures forms { IfOk result (λ forms.
        Pairwise (λ f x. IsIndex scope.now.bound scope.now.names f (seen_index x)) forms indices.now) }
{
    let mut forms = List::new(alloc);
    for index in indices {
        forms.push(scope.index(alloc, index)?)?;
    }
    Ok(forms)
}

/// A name with its indices, over the values of the ranges around it, whose names are these, the innermost first.
pub fn place_name(alloc: Global, names: &[usize], name: &Ref) -> Result<Named, Memory>
    ensures named { IfOk result (λ named. named ≡ placed_name names.now (seen_ref name.now)) }
{
    let indices = index_forms(alloc, names, name.indices.items())?;
    Ok(Named {
        word: name.name,
        indices,
    })
}

/// The name behind `over`, if it is there.
pub fn place_over(
    alloc: Global,
    names: &[usize],
    over: &Option<Ref>,
) -> Result<Option<Named>, Memory>
    ensures named { IfOk result (λ named. named
        ≡ option_map (placed_name names.now) (seen_over over.now)) }
{
    match over {
        None => Ok(None),
        Some(name) => Ok(Some(place_name(alloc, names, name)?)),
    }
}

/// The indices of a name.
fn index_forms(alloc: Global, names: &[usize], indices: &[Index]) -> Result<List<Form>, Memory>
    ensures forms { IfOk result (λ forms.
        forms ≡ map (fast.index_form names.now) (map seen_index indices.now)) }
{
    let mut forms = List::new(alloc);
    for index in indices {
        forms.push(index_form(alloc, names, index)?)?;
    }
    Ok(forms)
}
